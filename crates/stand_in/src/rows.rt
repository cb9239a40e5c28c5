// The rows of a stand-in, one for each of the fifteen days before: whether they are in range, and the nearest with any pair.
ghost use Rattle.std.specs.Prelude.{◌≡◌, ◌*◌, ◌≤◌, ◌<◌, get_or, length, take, drop};
ghost use Rattle.numbers.specs.Lists.{both, every, rising};
ghost use Rattle.point_day.specs.Limits.{USERS, ROWS, AMOUNT};
ghost use Rattle.point_day.specs.Day.{no_more, is_number};
ghost use Rattle.point_day.specs.Calls.{row_right};
ghost use Rattle.point_day.specs.Struct.{rows_of};
ghost use Rattle.stand_in.specs.Openings.{RowAt, row_users};
ghost use Rattle.stand_in.specs.Rows.{rows, rows_readable, NearestFilled};

use point_day::{PAIRS, ROWS, USERS};

// A row's part of a list of all rows.
pub fn part_of<'a, T>(counts: &'a [usize], xs: &'a [T], row: usize) -> &'a [T]
    requires { (row < ROWS) × (length counts.now ≡ ROWS) × (get_or counts.now row 0 ≤ USERS) × (length xs.now ≡ USERS * ROWS) }
    ensures { result.now ≡ take (get_or counts.now row 0) (drop (USERS * row) xs.now) }
{
    let from = USERS * row;
    let to = from + counts[row];
    &xs[from..to]
}

// Whether the numbers of a row are user numbers, each above the one before. (One loop tests both: what is above 0 or a user number is one.)
fn numbers_right(users: &[u16]) -> bool
    ensures { result ≡ both (every is_number users.now) (rising users.now) }
{
    let mut last = 0;
    for &user in users {
        if user <= last {
            return false;
        }
        last = user;
    }
    true
}

// Whether a row is in its range.
fn row_right(users: &[u16], amounts: &[i64]) -> bool
    ensures { result ≡ both (both (every is_number users.now) (rising users.now)) (every (no_more AMOUNT) amounts.now) }
{
    numbers_right(users) && columns::all_limited(amounts)
}

// Whether three lists have the lengths of lists that hold rows.
#[tactic(auto, unfolding(crate::specs::Rows::rows_readable))]
pub fn rows_readable<'a>(counts: &'a [usize], users: &'a [u16], amounts: &'a [i64]) -> bool
    ensures { result ≡ rows_readable counts.now users.now amounts.now }
{
    counts.len() == ROWS && users.len() == PAIRS && amounts.len() == PAIRS
}

// The rows of a stand-in in three lists: fifteen counts; user number and amount of pair j of row i at 64 × i + j. (Lists, and no array of
// rows: callers in other languages lend them list by list.)
#[derive(Clone, Copy)]
pub struct RowLists<'a> {
    pub counts: &'a [usize],
    pub users: &'a [u16],
    pub amounts: &'a [i64],
    pub ghost counts_len: { length counts.now ≡ ROWS },
    pub ghost users_len: { length users.now ≡ USERS * ROWS },
    pub ghost amounts_len: { length amounts.now ≡ USERS * ROWS },
}

impl<'a> RowLists<'a> {
    // Whether each row is in its range.
    pub fn are_right(&self) -> bool
        ensures { result ≡ every row_right (rows_of (rows self.now.counts.now self.now.users.now self.now.amounts.now)) }
    {
        for i in 0..ROWS {
            if USERS < self.counts[i] {
                return false;
            }
            let users = part_of(self.counts, self.users, i);
            let amounts = part_of(self.counts, self.amounts, i);
            if !row_right(users, amounts) {
                return false;
            }
        }
        true
    }
}

// The nearest row with any pair, from 0.
pub fn nearest_filled(counts: &[usize]) -> Option<usize>
    requires { length counts.now ≡ ROWS }
    ensures { NearestFilled counts.now result }
{
    counts.iter().position(|&n| n != 0)
}

// The user numbers of a row.
pub fn row_users<'a>(counts: &'a [usize], users: &'a [u16], row: usize) -> &'a [u16]
    requires { RowAt counts.now users.now row }
    ensures { (result.now ≡ row_users counts.now users.now row) × (length result.now ≤ USERS) }
{
    part_of(counts, users, row)
}
