// Opening a day with a list: its users join, and net is prorated over them.
ghost use Rattle.std.specs.Prelude.{◌≡◌, not, ◌++◌, ◌*◌, ◌≤◌, eqb, pos, length, drop, replicate};
ghost use Rattle.numbers.specs.Lists.{both};
ghost use Rattle.numbers.specs.Refusals.{status_of};
ghost use Rattle.point_day.specs.Limits.{USERS, ROWS};
ghost use Rattle.point_day.specs.Day.{provisional};
ghost use Rattle.point_day.specs.Struct.{row_at};
ghost use Rattle.stand_in.specs.Rows.{rows as rows_of_lists};
ghost use Rattle.stand_in.specs.Openings.{Usable, RowTested, opened_with};

use super::rows::{self, RowLists};
use columns::shares;
use numbers::Refusal;
use point_day::{PointDay, Stage, USERS};

// Whether the stage is provisional entering, and no user has joined.
pub fn is_open(stage: Stage, allotted: bool, count: usize) -> bool
    ensures { result ≡ both (provisional stage) (both (not allotted) (eqb count 0)) }
{
    state::is_provisional(stage) && !allotted && count == 0
}

// Opening a day with a list: its users join, with shares as their revisions, and the stage is allotted.
pub fn opened(day: PointDay, users: &[u16], shares: [i64; USERS]) -> PointDay
    requires { length users.now ≤ USERS }
    ensures { result ≡ opened_with users.now shares day }
{
    let count = users.len();
    let mut column = day.users;
    column[..count].copy_from_slice(users);
    PointDay {
        allotted: true,
        count,
        users: column,
        revision: shares,
        ..day
    }
}

// The tests of the row that is used. If they pass, zeros become the shares of its users: net prorated over them by its amounts.
pub fn row_test(net: u64, row: usize, rows: &RowLists, shares: &mut [i64]) -> Result<(), Refusal>
    requires zeros { shares.old ≡ replicate USERS (pos 0) }
    requires usable { Usable (rows_of_lists rows.now.counts.now rows.now.users.now rows.now.amounts.now) net row }
    ensures { RowTested (pos net) (row_at (rows_of_lists rows.now.counts.now rows.now.users.now rows.now.amounts.now) row) (status_of result) shares.new }
{
    let users = rows::part_of(rows.counts, rows.users, row);
    let amounts = rows::part_of(rows.counts, rows.amounts, row);
    if numbers::any_negative(amounts) {
        return Err(Refusal::NegativeWeight);
    }
    let weight_sum = numbers::sum_of(amounts).unsigned_abs();
    shares::share_out(net as i64, users, amounts, weight_sum, shares);
    if taken::wholes_too_large(shares) {
        return Err(Refusal::AmountTooLarge);
    }
    Ok(())
}
