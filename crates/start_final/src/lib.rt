// Start-final: the next stage, entering.
#![tactic(auto)]

ghost use Rattle.std.specs.Prelude.{◌≡◌, not};
ghost use Rattle.numbers.specs.Lists.{either};
ghost use Rattle.numbers.specs.Refusals.{OUT_OF_RANGE, status_of};
ghost use Rattle.point_day.specs.Day.{last_stage, next};
ghost use Rattle.point_day.specs.Calls.{start_final};
ghost use Rattle.point_day.specs.Answers.{answer_of};
ghost use Rattle.point_day.specs.Struct.{outcome, called};
ghost use Rattle.taken.specs.Tested.{Finds, FindsOf};
ghost use Rattle.start_final.specs.Writes.{restarted, Tested};

use numbers::Refusal;
use point_day::{Accepted, Outcome, PointDay, Stage};
use taken::State;

// Whether the stage is the last. (A name over the derived equality, with a contract that the calls' proofs read.)
fn is_last(stage: Stage) -> bool
    ensures { result ≡ last_stage stage }
{
    stage == Stage::FinalDefinitive
}

// The stage after a stage.
pub fn next_stage(stage: Stage) -> Stage
    ensures { result ≡ next stage }
{
    match stage {
        Stage::Provisional => Stage::FinalProvisional,
        Stage::FinalProvisional => Stage::FinalDefinitive,
        Stage::FinalDefinitive => Stage::FinalDefinitive,
    }
}

// Whether no final stage can start: entering, or in the last stage.
fn cannot_start(allotted: bool, stage: Stage) -> bool
    ensures { result ≡ either (not allotted) (last_stage stage) }
{
    !allotted || is_last(stage)
}

// The tests of a start-final on a taken point-day, of which `state` is the test.
pub fn taken_test(state: &State) -> Result<(), Refusal>
    ensures { Finds state.now (λ d. Tested d (status_of result)) }
{
    if cannot_start(state.allotted, state.stage) {
        return Err(Refusal::WrongStage);
    }
    Ok(())
}

// The tests of a start-final on a point-day of which `test` is the test: one that is not taken is refused by 2.
pub fn start_final_test(test: &Result<State, Refusal>) -> Result<(), Refusal>
    ensures { FindsOf test.now (status_of result ≡ OUT_OF_RANGE) (λ d. Tested d (status_of result)) }
{
    match test {
        Ok(state) => taken_test(state),
        Err(_) => Err(Refusal::OutOfRange),
    }
}

// The next stage, entering: users and measurement stay, all else is zero.
fn restart(day: PointDay) -> PointDay
    ensures { result ≡ restarted day }
{
    PointDay {
        stage: next_stage(day.stage),
        allotted: false,
        consumption: numbers::repeat(0),
        losses: numbers::repeat(0),
        balance: numbers::repeat(0),
        revision: numbers::repeat(0),
        ..day
    }
}

// The tests of a start-final, that of the point-day first.
fn tests(day: &PointDay) -> Result<(), Refusal>
    ensures { Tested day.now (status_of result) }
{
    start_final_test(&taken::test_day(day))
}

// Start-final: the next stage, entering.
pub fn start_final(day: PointDay) -> Outcome
    ensures { outcome (answer_of result.answer) result.day ≡ called start_final day }
{
    match tests(&day) {
        Err(refusal) => point_day::refuse(refusal, day),
        Ok(()) => point_day::accept(Accepted::Done, restart(day)),
    }
}
