// Revise: what net has over everything allotted, assigned to the users if it lies outside the tolerance.
#![tactic(auto)]

pub mod assignment;
pub mod outstanding;

ghost use Rattle.std.specs.Prelude.{◌≡◌, ◌≤◌, length, Err, IfOk};
ghost use Rattle.numbers.specs.Lists.{both};
ghost use Rattle.numbers.specs.Amounts.{SAFE};
ghost use Rattle.numbers.specs.declared.Refusal.TheVariants.{OutOfRange};
ghost use Rattle.point_day.specs.Limits.{USERS, TOLERANCE};
ghost use Rattle.point_day.specs.Day.{provisional};
ghost use Rattle.point_day.specs.Fields.{set_revision};
ghost use Rattle.point_day.specs.Calls.{revise};
ghost use Rattle.point_day.specs.Answers.{answer_of};
ghost use Rattle.point_day.specs.Struct.{outcome, called};
ghost use Rattle.taken.specs.Tested.{Finds, FindsOf, Some};
ghost use Rattle.revise.specs.Revised.{Tested, Has};

use numbers::Refusal;
use point_day::{Accepted, Outcome, PointDay, Stage, TOLERANCE, USERS};
use taken::State;

// What a revise does: R lies within the tolerance, or is assigned.
#[derive(Clone, Copy, Debug, PartialEq, Eq)]
pub enum Revision {
    Within(i64),
    Assigned(i64),
}

// Whether the stage is provisional allotted.
fn is_revisable(stage: Stage, allotted: bool) -> bool
    ensures { result ≡ both (provisional stage) allotted }
{
    state::is_provisional(stage) && allotted
}

// The tests of a revise by any tolerance on a taken point-day with these revisions, of which `state` is the test. `column` holds its
// whole amounts, and afterwards the new revisions, if R is assigned: then no whole amount was negative, and the sum of the weights is their
// sum.
pub fn taken_test<'a>(
    state: &State,
    revision: &'a [i64],
    tolerance: u64,
    column: &mut [i64],
) -> Result<Revision, Refusal>
    requires { Some (Has state.now revision.now) × (column.old ≡ state.now.wholes) × (tolerance ≤ SAFE) }
    ensures { Finds state.now (λ d. d.revision ≡ revision.now → Tested tolerance d result column.new) }
{
    let n = state.count;
    if !is_revisable(state.stage, state.allotted) {
        return Err(Refusal::WrongStage);
    }
    let amount = outstanding::outstanding(state.measurement, state.sum);
    if numbers::size_at_most(amount, tolerance) {
        return Ok(Revision::Within(amount));
    }
    if numbers::any_negative(&column[..n]) {
        return Err(Refusal::NegativeWeight);
    }
    let weight_sum = state.sum.unsigned_abs();
    let users = &state.users[..n];
    assignment::assign(amount, weight_sum, users, revision, column)?;
    Ok(Revision::Assigned(amount))
}

// The tests of a revise on a point-day of which `test` is the test, and these are the revisions: one that is not taken is refused by 2.
pub fn revise_test<'a>(
    test: &Result<State, Refusal>,
    revision: &'a [i64],
    tolerance: u64,
    column: &mut [i64],
) -> Result<Revision, Refusal>
    requires { IfOk test.now (λ s. Some (Has s revision.now) × (column.old ≡ s.wholes)) × (tolerance ≤ SAFE) }
    ensures { FindsOf test.now (result ≡ Err OutOfRange) (λ d. d.revision ≡ revision.now → Tested tolerance d result column.new) }
{
    match test {
        Ok(state) => taken_test(state, revision, tolerance, column),
        Err(_) => Err(Refusal::OutOfRange),
    }
}

// The tests of a revise, that of the point-day first; `column` has the new revisions afterwards, if R is assigned.
fn tests(day: &PointDay, tolerance: u64, column: &mut [i64]) -> Result<Revision, Refusal>
    requires { (length column.old ≡ USERS) × (tolerance ≤ SAFE) }
    ensures { Tested tolerance day.now result column.new }
{
    let state = taken::test_day(day)?;
    column.copy_from_slice(&state.wholes);
    taken_test(&state, &day.revision, tolerance, column)
}

// The point-day with other revisions.
fn put_revisions(day: PointDay, revision: [i64; USERS]) -> PointDay
    ensures { result ≡ set_revision revision day }
{
    PointDay { revision, ..day }
}

// Revise by any tolerance.
pub fn revise_by(day: PointDay, tolerance: u64) -> Outcome
    requires { tolerance ≤ SAFE }
    ensures { outcome (answer_of result.answer) result.day ≡ called (revise tolerance) day }
{
    let mut column = numbers::repeat::<i64, USERS>(0);
    match tests(&day, tolerance, &mut column) {
        Err(refusal) => point_day::refuse(refusal, day),
        Ok(Revision::Within(amount)) => {
            point_day::accept(Accepted::WithinTolerance(amount), day)
        }
        Ok(Revision::Assigned(amount)) => {
            point_day::accept(
                Accepted::RevisionAssigned(amount),
                put_revisions(day, column),
            )
        }
    }
}

// Revise.
pub fn revise(day: PointDay) -> Outcome
    ensures { outcome (answer_of result.answer) result.day ≡ called (revise TOLERANCE) day }
{
    revise_by(day, TOLERANCE)
}
