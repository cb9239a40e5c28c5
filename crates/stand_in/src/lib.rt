// Stand-in: net of a point-day without lines, over the users of the nearest earlier day with any pair.
#![tactic(auto)]

pub mod opening;
pub mod rows;

ghost use Rattle.std.specs.Prelude.{◌≡◌, true, pos, replicate, Err, IfOk};
ghost use Rattle.numbers.specs.declared.Refusal.TheVariants.{OutOfRange};
ghost use Rattle.point_day.specs.Limits.{USERS, TOLERANCE};
ghost use Rattle.point_day.specs.Day.{measurement_right};
ghost use Rattle.point_day.specs.Calls.{stand_in};
ghost use Rattle.point_day.specs.Answers.{answer_of};
ghost use Rattle.point_day.specs.Struct.{rows_of, outcome, called};
ghost use Rattle.taken.specs.Tested.{Finds, FindsOf};
ghost use Rattle.stand_in.specs.Rows.{rows_in};
ghost use Rattle.stand_in.specs.StandsIn.{Tested};

use numbers::Refusal;
use point_day::{Accepted, Outcome, PointDay, StandInRows, TOLERANCE, USERS};
use rows::RowLists;
use taken::State;

// The tests of a stand-in whose rows stand in three lists, on a taken point-day of which `state` is the test: the place of the row that is
// used, from 0. If they pass, a column of zeros becomes the shares of the row's users. (The lists come one by one, not as `RowLists`, which
// have the lengths of rows: those of other lengths are refused in their place among the tests.)
pub fn taken_test<'a>(
    state: &State,
    counts: &'a [usize],
    joining: &'a [u16],
    amounts: &'a [i64],
    tolerance: u64,
    shares: &mut [i64],
) -> Result<usize, Refusal>
    requires { (measurement_right state.now.measurement ≡ true) × (shares.old ≡ replicate USERS (pos 0)) }
    ensures { Finds state.now (λ d. Tested tolerance counts.now joining.now amounts.now d result shares.new) }
{
    if !opening::is_open(state.stage, state.allotted, state.count) {
        return Err(Refusal::WrongStage);
    }
    if !rows::rows_readable(counts, joining, amounts) {
        return Err(Refusal::OutOfRange);
    }
    let rows = RowLists {
        counts,
        users: joining,
        amounts,
    };
    if !rows.are_right() {
        return Err(Refusal::OutOfRange);
    }
    if !state::is_measured(state.measurement) {
        return Err(Refusal::Unmeasured);
    }
    let net = state::net(state.measurement);
    if net <= tolerance {
        return Err(Refusal::NetTooLow);
    }
    let Some(row) = rows::nearest_filled(counts) else {
        return Err(Refusal::NoPair);
    };
    opening::row_test(net, row, &rows, shares)?;
    Ok(row)
}

// The tests of a stand-in on a point-day of which `test` is the test: one that is not taken is refused by 2.
pub fn stand_in_test<'a>(
    test: &Result<State, Refusal>,
    counts: &'a [usize],
    joining: &'a [u16],
    amounts: &'a [i64],
    tolerance: u64,
    shares: &mut [i64],
) -> Result<usize, Refusal>
    requires { IfOk test.now (λ s. measurement_right s.measurement ≡ true) × (shares.old ≡ replicate USERS (pos 0)) }
    ensures { FindsOf test.now (result ≡ Err OutOfRange) (λ d. Tested tolerance counts.now joining.now amounts.now d result shares.new) }
{
    match test {
        Ok(state) => taken_test(state, counts, joining, amounts, tolerance, shares),
        Err(_) => Err(Refusal::OutOfRange),
    }
}

// The tests of a stand-in, that of the point-day first.
fn tests<'a>(
    day: &'a PointDay,
    counts: &'a [usize],
    users: &'a [u16],
    amounts: &'a [i64],
    tolerance: u64,
    shares: &mut [i64],
) -> Result<usize, Refusal>
    requires { shares.old ≡ replicate USERS (pos 0) }
    ensures { Tested tolerance counts.now users.now amounts.now day.now result shares.new }
{
    let test = taken::test_day(day);
    stand_in_test(&test, counts, users, amounts, tolerance, shares)
}

// Stand-in with rows in three lists, if net is above a tolerance: the users of the nearest row with any pair join, and net is prorated
// over them.
pub fn stand_in_lists<'a>(
    day: PointDay,
    counts: &'a [usize],
    users: &'a [u16],
    amounts: &'a [i64],
    tolerance: u64,
) -> Outcome
    ensures { outcome (answer_of result.answer) result.day ≡ called (stand_in tolerance (rows_of (rows_in counts.now users.now amounts.now))) day }
{
    let mut shares = numbers::repeat::<i64, USERS>(0);
    match tests(&day, counts, users, amounts, tolerance, &mut shares) {
        Err(refusal) => point_day::refuse(refusal, day),
        Ok(row) => {
            let next = opening::opened(day, rows::row_users(counts, users, row), shares);
            point_day::accept(Accepted::RowsLookedAt(row + 1), next)
        }
    }
}

// Stand-in by any tolerance.
pub fn stand_in_by(day: PointDay, rows: StandInRows, tolerance: u64) -> Outcome
    ensures { outcome (answer_of result.answer) result.day ≡ called (stand_in tolerance (rows_of rows)) day }
{
    stand_in_lists(day, &rows.counts, &rows.users, &rows.amounts, tolerance)
}

// Stand-in.
pub fn stand_in(day: PointDay, rows: StandInRows) -> Outcome
    ensures { outcome (answer_of result.answer) result.day ≡ called (stand_in TOLERANCE (rows_of rows)) day }
{
    stand_in_lists(day, &rows.counts, &rows.users, &rows.amounts, TOLERANCE)
}
