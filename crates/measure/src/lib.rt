// Measure: the emission and the downstream emission of the day.
#![tactic(auto)]

ghost use Rattle.std.specs.Prelude.{◌≡◌, not};
ghost use Rattle.numbers.specs.Lists.{both};
ghost use Rattle.numbers.specs.Refusals.{OUT_OF_RANGE, status_of};
ghost use Rattle.point_day.specs.Day.{provisional};
ghost use Rattle.point_day.specs.Calls.{measure};
ghost use Rattle.point_day.specs.Answers.{answer_of};
ghost use Rattle.point_day.specs.Struct.{outcome, called};
ghost use Rattle.point_day.specs.Day.{metered};
ghost use Rattle.point_day.specs.Fields.{set_measurement};
ghost use Rattle.taken.specs.Tested.{Finds, FindsOf};
ghost use Rattle.measure.specs.Measuring.{Tested};

use numbers::Refusal;
use point_day::{Accepted, Measurement, Outcome, PointDay, Stage};
use taken::State;

// Whether the stage doesn't take a measurement: allotted, and not provisional.
fn measured_for_good(allotted: bool, stage: Stage) -> bool
    ensures { result ≡ both allotted (not (provisional stage)) }
{
    allotted && stage != Stage::Provisional
}

// The tests of a measure on a taken point-day, of which `state` is the test.
pub fn taken_test(state: &State, emission: u64, downstream: u64) -> Result<(), Refusal>
    ensures { Finds state.now (λ d. Tested emission downstream d (status_of result)) }
{
    if measured_for_good(state.allotted, state.stage) {
        return Err(Refusal::WrongStage);
    }
    if !state::emission_right(emission, downstream) {
        return Err(Refusal::OutOfRange);
    }
    Ok(())
}

// The tests of a measure on a point-day of which `test` is the test: one that is not taken is refused by 2.
pub fn measure_test(
    test: &Result<State, Refusal>,
    emission: u64,
    downstream: u64,
) -> Result<(), Refusal>
    ensures { FindsOf test.now (status_of result ≡ OUT_OF_RANGE) (λ d. Tested emission downstream d (status_of result)) }
{
    match test {
        Ok(state) => taken_test(state, emission, downstream),
        Err(_) => Err(Refusal::OutOfRange),
    }
}

fn remeasure(day: PointDay, emission: u64, downstream: u64) -> PointDay
    ensures { result ≡ set_measurement (metered emission downstream) day }
{
    PointDay {
        measurement: Some(Measurement {
            emission,
            downstream,
        }),
        ..day
    }
}

// The tests of a measure, that of the point-day first.
fn tests(day: &PointDay, emission: u64, downstream: u64) -> Result<(), Refusal>
    ensures { Tested emission downstream day.now (status_of result) }
{
    measure_test(&taken::test_day(day), emission, downstream)
}

// Measure: emission and downstream emission; the latest counts.
pub fn measure(day: PointDay, emission: u64, downstream: u64) -> Outcome
    ensures { outcome (answer_of result.answer) result.day ≡ called (measure emission downstream) day }
{
    match tests(&day, emission, downstream) {
        Err(refusal) => point_day::refuse(refusal, day),
        Ok(()) => point_day::accept(Accepted::Done, remeasure(day, emission, downstream)),
    }
}
