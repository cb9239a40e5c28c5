// A point-day in plain numbers: where they stand, whether a point-day can be read from them and is taken, and what is written into them.
#![tactic(auto)]

pub mod from_numbers;
pub mod writes;

ghost use Rattle.std.specs.Prelude.{◌≡◌, length};
ghost use Rattle.numbers.specs.Sums.{atZ};
ghost use Rattle.numbers.specs.Lists.{every};
ghost use Rattle.plain_day.specs.Layout.{LENGTH, STAGE_AT, ALLOTTED_AT, MEASURED_AT, EMISSION_AT, DOWNSTREAM_AT, COUNT_AT, up_to, emissions_readable, head_readable, is_readable, users_in, day_in};
ghost use Rattle.taken.specs.Tested.{StateOf};
ghost use Rattle.plain_day.specs.Tested.{TestedNumbers};

use numbers::Refusal;
use point_day::{CELLS, LIMIT, USERS};
use taken::State;

// A point-day in plain numbers, which the caller lends: the stage (0 provisional, 1 final provisional, 2 final definitive), whether it is
// allotted and measured (0, 1), emission and downstream emission, the count of users, and the arrays.
pub const STAGE_AT: usize = 0;

pub const ALLOTTED_AT: usize = 1;

pub const MEASURED_AT: usize = 2;

pub const EMISSION_AT: usize = 3;

pub const DOWNSTREAM_AT: usize = 4;

pub const COUNT_AT: usize = 5;

pub const USERS_AT: usize = 6;

pub const CONSUMPTION_AT: usize = USERS_AT + USERS;

pub const LOSSES_AT: usize = CONSUMPTION_AT + CELLS;

pub const BALANCE_AT: usize = LOSSES_AT + CELLS;

pub const REVISION_AT: usize = BALANCE_AT + CELLS;

pub const LENGTH: usize = REVISION_AT + USERS;

// The largest user number.
const LAST_NUMBER: u64 = 65535;

// Whether a number lies in 0 to `most`.
fn up_to(x: i64, most: u64) -> bool
    ensures { result ≡ up_to most x }
{
    x >= 0 && x.unsigned_abs() <= most
}

// Whether each does.
fn all_up_to(xs: &[i64], most: u64) -> bool
    ensures { result ≡ every (up_to most) xs.now }
{
    xs.iter().all(|&x| up_to(x, most))
}

fn emissions_readable(emission: i64, downstream: i64) -> bool
    ensures { result ≡ emissions_readable emission downstream }
{
    up_to(emission, LIMIT) && up_to(downstream, emission.unsigned_abs())
}

// Whether the six numbers before the users are in range.
fn head_readable(xs: &[i64]) -> bool
    requires { length xs.now ≡ LENGTH }
    ensures { result ≡ head_readable (atZ xs.now STAGE_AT) (atZ xs.now ALLOTTED_AT) (atZ xs.now MEASURED_AT) (atZ xs.now EMISSION_AT) (atZ xs.now DOWNSTREAM_AT) (atZ xs.now COUNT_AT) }
{
    up_to(xs[STAGE_AT], 2)
        && up_to(xs[ALLOTTED_AT], 1)
        && up_to(xs[MEASURED_AT], 1)
        && emissions_readable(xs[EMISSION_AT], xs[DOWNSTREAM_AT])
        && up_to(xs[COUNT_AT], USERS as u64)
}

// (A call of its own, so that a list that is not readable is refused before there is room for a state.)
#[inline(never)]
pub fn is_readable(xs: &[i64]) -> bool
    ensures { result ≡ is_readable xs.now }
{
    if xs.len() != LENGTH {
        return false;
    }
    head_readable(xs) && all_up_to(&xs[USERS_AT..CONSUMPTION_AT], LAST_NUMBER)
}

// The test of the point-day that is read from plain numbers, with these user numbers. (A call of its own: its loops have the registers to
// themselves.)
#[inline(never)]
fn test_read(day: &[i64], users: [u16; USERS]) -> Result<State, Refusal>
    requires { (length day.now ≡ LENGTH) × (users ≡ users_in day.now) }
    ensures { StateOf (day_in day.now) result }
{
    taken::test_state(
        from_numbers::stage_in(day),
        from_numbers::allotted_in(day),
        from_numbers::measurement_in(day),
        from_numbers::count_in(day),
        users,
        &from_numbers::amounts_in(day),
    )
}

// The test of a point-day in plain numbers: refused if none is read from them that is taken.
pub fn test_numbers(day: &[i64]) -> Result<State, Refusal>
    ensures { TestedNumbers day.now result }
{
    if !is_readable(day) {
        return Err(Refusal::OutOfRange);
    }
    let mut users = numbers::repeat::<u16, USERS>(0);
    from_numbers::copy_users(&day[USERS_AT..CONSUMPTION_AT], &mut users);
    test_read(day, users)
}
