// Whether a point-day is taken, and whether a whole amount of it is too large.
#![tactic(auto)]

pub mod user_numbers;

ghost use Rattle.std.specs.Prelude.{◌≡◌, ℕ, ◌*◌, ◌≤◌, ◌<◌, length};
ghost use Rattle.numbers.specs.Sums.{atZ};
ghost use Rattle.numbers.specs.Amounts.{Within, Decides};
ghost use Rattle.point_day.specs.Limits.{USERS};
ghost use Rattle.point_day.specs.Day.{measurement_right};
ghost use Rattle.state.specs.Places.{ROOM, LowSlot, SizedSlot, offtake_at, whole_at};
ghost use Rattle.point_day.specs.Fields.{point_day};
ghost use Rattle.taken.specs.Tested.{StateOf, TestedParts, Found, Head, Ended, Offtakes, Balances, Entering, Allotted, added_at, any_large};
ghost use Rattle.point_day.specs.declared.Stage.{Stage};

use numbers::Refusal;
use point_day::{AMOUNT, KINDS, LIMIT, Measurement, PointDay, Stage, USERS};
use state::amounts::Amounts;

// The greatest sum.
const SUM: i64 = LIMIT as i64;

// Whether the measurement is in range; none is. (So it is no method of `Measurement`.)
fn measurement_right(measurement: Option<Measurement>) -> bool
    ensures { result ≡ measurement_right measurement }
{
    match measurement {
        None => true,
        Some(measured) => state::emission_right(measured.emission, measured.downstream),
    }
}

// Whether the number of users, the user numbers and the measurement are right.
fn head_right(measurement: Option<Measurement>, n: usize, users: &[u16]) -> bool
    requires { length users.now ≡ USERS }
    ensures { Decides result (Head measurement n users.now) }
{
    n <= USERS
        && user_numbers::no_numbers(&users[n..])
        && user_numbers::numbers_right(&users[..n])
        && measurement_right(measurement)
}

// Whether the consumption and losses of each of n users are low.
fn all_low(amounts: &Amounts, n: usize) -> bool
    requires { n ≤ USERS }
    ensures { Decides result ((s : ℕ) → s < n → LowSlot amounts.now.consumption.now amounts.now.losses.now s) }
{
    for s in 0..n {
        if !state::user_low(amounts.consumption, amounts.losses, s) {
            return false;
        }
    }
    true
}

// Consumption and losses of n users, all low, into a column.
fn add_offtakes(amounts: &Amounts, n: usize, wholes: &mut [i64; USERS]) -> Option<i64>
    requires { (n ≤ USERS) × ((s : ℕ) → s < n → LowSlot amounts.now.consumption.now amounts.now.losses.now s) }
    ensures { Found (Offtakes n amounts.now.consumption.now amounts.now.losses.now) (offtake_at amounts.now.consumption.now amounts.now.losses.now) n wholes.old result wholes.new }
{
    let mut sum: i64 = 0;
    for s in 0..n {
        let offtake = state::user_offtake(amounts.consumption, amounts.losses, s);
        wholes[s] = offtake;
        sum += offtake;
    }
    if sum <= SUM { Some(sum) } else { None }
}

// Consumption and losses of n users: each is tested before it is added, so that nothing overflows on any values. (Two passes, of which each
// needs fewer registers, are faster than one.)
fn offtakes_test(amounts: &Amounts, n: usize, wholes: &mut [i64; USERS]) -> Option<i64>
    requires { n ≤ USERS }
    ensures { Found (Offtakes n amounts.now.consumption.now amounts.now.losses.now) (offtake_at amounts.now.consumption.now amounts.now.losses.now) n wholes.old result wholes.new }
{
    if !all_low(amounts, n) {
        return None;
    }
    add_offtakes(amounts, n, wholes)
}

// The amounts of n users while entering: whole amounts are consumption and losses.
fn entering_test(amounts: &Amounts, n: usize, wholes: &mut [i64; USERS]) -> Option<i64>
    requires { n ≤ USERS }
    ensures { Found (Entering n amounts.now.consumption.now amounts.now.losses.now amounts.now.balance.now amounts.now.revision.now) (offtake_at amounts.now.consumption.now amounts.now.losses.now) n wholes.old result wholes.new }
{
    let Amounts {
        consumption,
        losses,
        balance,
        revision,
    } = *amounts;
    if !numbers::all_zero(balance, 0) {
        return None;
    }
    if !numbers::all_zero(revision, 0) {
        return None;
    }
    if !numbers::all_zero(consumption, KINDS * n) {
        return None;
    }
    if !numbers::all_zero(losses, KINDS * n) {
        return None;
    }
    offtakes_test(amounts, n, wholes)
}

// Whether the balances and the revision of each of n users are in range.
fn all_sized(amounts: &Amounts, n: usize) -> bool
    requires { n ≤ USERS }
    ensures { Decides result ((s : ℕ) → s < n → SizedSlot amounts.now.balance.now amounts.now.revision.now s) }
{
    let Amounts {
        balance,
        revision,
        ..
    } = *amounts;
    numbers::all_limited(&balance[..KINDS * n], AMOUNT)
        && numbers::all_limited(&revision[..n], AMOUNT)
}

// Balances and revisions of n users, all in range, added to a column of consumption and losses.
fn add_balances(amounts: &Amounts, n: usize, wholes: &mut [i64; USERS]) -> Option<i64>
    requires { (n ≤ USERS) × ((s : ℕ) → s < n → Within (10 * ROOM) (atZ wholes.old s)) × ((s : ℕ) → s < n → SizedSlot amounts.now.balance.now amounts.now.revision.now s) }
    ensures { Found (Balances n wholes.old amounts.now.balance.now amounts.now.revision.now) (added_at wholes.old amounts.now.balance.now amounts.now.revision.now) n wholes.old result wholes.new }
{
    let mut sum: i64 = 0;
    for s in 0..n {
        let whole = wholes[s] + state::user_balance(amounts.balance, amounts.revision, s);
        if AMOUNT < whole.unsigned_abs() {
            return None;
        }
        wholes[s] = whole;
        sum += whole;
    }
    if 0 <= sum && sum <= SUM {
        Some(sum)
    } else {
        None
    }
}

// Balances and revisions of n users, added to a column of consumption and losses: each is tested before it is added.
fn balances_test(amounts: &Amounts, n: usize, wholes: &mut [i64; USERS]) -> Option<i64>
    requires { (n ≤ USERS) × ((s : ℕ) → s < n → Within (10 * ROOM) (atZ wholes.old s)) }
    ensures { Found (Balances n wholes.old amounts.now.balance.now amounts.now.revision.now) (added_at wholes.old amounts.now.balance.now amounts.now.revision.now) n wholes.old result wholes.new }
{
    if !all_sized(amounts, n) {
        return None;
    }
    add_balances(amounts, n, wholes)
}

// Whether nothing stands past the last of n users. (The count goes beside the arrays: their rests begin at two different places.)
fn none_past(amounts: &Amounts, n: usize) -> bool
    requires { n ≤ USERS }
    ensures { Decides result (Ended n amounts.now.consumption.now amounts.now.losses.now amounts.now.balance.now amounts.now.revision.now) }
{
    let Amounts {
        consumption,
        losses,
        balance,
        revision,
    } = *amounts;
    numbers::all_zero(consumption, KINDS * n)
        && numbers::all_zero(losses, KINDS * n)
        && numbers::all_zero(balance, KINDS * n)
        && numbers::all_zero(revision, n)
}

// The amounts of n users once allotted: whole amounts are consumption and losses, and then balances and revision.
fn allotted_test(
    measurement: Option<Measurement>,
    amounts: &Amounts,
    n: usize,
    wholes: &mut [i64; USERS],
) -> Option<i64>
    requires { n ≤ USERS }
    ensures { Found (Allotted measurement n amounts.now.consumption.now amounts.now.losses.now amounts.now.balance.now amounts.now.revision.now) (whole_at amounts.now.consumption.now amounts.now.losses.now amounts.now.balance.now amounts.now.revision.now) n wholes.old result wholes.new }
{
    if n == 0 {
        return None;
    }
    if !state::is_measured(measurement) {
        return None;
    }
    if !none_past(amounts, n) {
        return None;
    }
    offtakes_test(amounts, n, wholes)?;
    balances_test(amounts, n, wholes)
}

// The tests of a point-day in parts.
fn parts_test(
    allotted: bool,
    measurement: Option<Measurement>,
    n: usize,
    users: &[u16; USERS],
    amounts: &Amounts,
    wholes: &mut [i64; USERS],
) -> Option<i64>
    ensures { (stage : Stage) → TestedParts (point_day stage allotted measurement n users.now amounts.now.consumption.now amounts.now.losses.now amounts.now.balance.now amounts.now.revision.now) wholes.old result wholes.new }
{
    if !head_right(measurement, n, users) {
        return None;
    }
    if allotted {
        return allotted_test(measurement, amounts, n, wholes);
    }
    entering_test(amounts, n, wholes)
}

// A taken point-day: all that it holds but its amounts, and its users' whole amounts with their sum. (No ghost field tells its ranges: the
// tests of a measure, a start-final and a stand-in ask nothing of the count, and a type may not ask more than they did. So
// `state.now.count ≤ USERS` stands in three contracts.)
#[derive(Clone, Copy)]
pub struct State {
    pub stage: Stage,
    pub allotted: bool,
    pub measurement: Option<Measurement>,
    pub count: usize,
    pub users: [u16; USERS],
    pub wholes: [i64; USERS],
    pub sum: i64,
}

// The test of a point-day in parts.
pub fn test_state(
    stage: Stage,
    allotted: bool,
    measurement: Option<Measurement>,
    count: usize,
    users: [u16; USERS],
    amounts: &Amounts,
) -> Result<State, Refusal>
    ensures { StateOf (point_day stage allotted measurement count users amounts.now.consumption.now amounts.now.losses.now amounts.now.balance.now amounts.now.revision.now) result }
{
    let mut wholes = numbers::repeat::<_, USERS>(0);
    let Some(sum) = parts_test(allotted, measurement, count, &users, amounts, &mut wholes) else {
        return Err(Refusal::OutOfRange);
    };
    Ok(State {
        stage,
        allotted,
        measurement,
        count,
        users,
        wholes,
        sum,
    })
}

// The test of a point-day.
pub fn test_day(day: &PointDay) -> Result<State, Refusal>
    ensures { StateOf day.now result }
{
    let amounts = Amounts {
        consumption: &day.consumption,
        losses: &day.losses,
        balance: &day.balance,
        revision: &day.revision,
    };
    test_state(
        day.stage,
        day.allotted,
        day.measurement,
        day.count,
        day.users,
        &amounts,
    )
}

// Refusal 12: whether a whole amount is too large.
pub fn wholes_too_large(wholes: &[i64]) -> bool
    ensures { result ≡ any_large wholes.now }
{
    !numbers::all_limited(wholes, AMOUNT)
}
