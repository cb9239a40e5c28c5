// Line: consumption and losses of a user and kind, on a point-day by value or lent.
#![tactic(auto)]

pub mod cells;

ghost use Rattle.std.specs.Prelude.{◌≡◌, true, List, ℕ, ◌≤◌, ◌<◌, Err, IfOk, IfSome, take};
ghost use Rattle.numbers.specs.Sums.{atZ};
ghost use Rattle.numbers.specs.Amounts.{Within};
ghost use Rattle.numbers.specs.declared.Refusal.TheVariants.{OutOfRange};
ghost use Rattle.point_day.specs.Limits.{USERS, CELLS, LIMIT};
ghost use Rattle.point_day.specs.Calls.{line};
ghost use Rattle.point_day.specs.Answers.{answer_of};
ghost use Rattle.point_day.specs.Struct.{sum_right, outcome, called};
ghost use Rattle.point_day.specs.declared.PointDay.{PointDay};
ghost use Rattle.state.specs.Places.{SlotOf, more};
ghost use Rattle.taken.specs.Tested.{Finds, FindsOf};
ghost use Rattle.line.specs.Lined.{with_cells, Tested, Stands};

use cells::LineEntry;
use numbers::Refusal;
use point_day::{Accepted, Answer, Outcome, PointDay};
use taken::State;

// What a line that passes its tests writes: the place of its cell, and the losses that it adds.
#[derive(Clone, Copy, Debug, PartialEq, Eq)]
pub struct LineEffect {
    pub place: usize,
    pub added: u64,
}

// The tests of a line on a taken point-day that is entering, of whose users this one stands at `slot`, if it has joined; `offtake` is all
// consumption and losses.
pub fn slot_test(slot: Option<usize>, offtake: u64, entry: LineEntry) -> Result<LineEffect, Refusal>
    requires { IfSome slot (λ s. s < USERS) × (offtake ≤ LIMIT) }
    ensures { (us : List ℕ) (count : ℕ) (d : PointDay) → Stands us count offtake d → SlotOf entry.user (take count us) slot → Tested entry.user entry.kind entry.consumption entry.coefficient d result }
{
    if !entry.is_right() {
        return Err(Refusal::OutOfRange);
    }
    let Some(slot) = slot else {
        return Err(Refusal::NotJoined);
    };
    let added = entry.losses_within(offtake)?;
    Ok(LineEffect {
        place: entry.place(slot),
        added,
    })
}

// The tests of a line on a taken point-day, of which `state` is the test. While entering, whole amounts are consumption and losses alone.
pub fn taken_test(state: &State, entry: LineEntry) -> Result<LineEffect, Refusal>
    requires { (state.now.count ≤ USERS) × (sum_right state.now.sum ≡ true) }
    ensures { Finds state.now (λ d. Tested entry.user entry.kind entry.consumption entry.coefficient d result) }
{
    if state.allotted {
        return Err(Refusal::WrongStage);
    }
    let slot = state::slot_of(&state.users[..state.count], entry.user);
    slot_test(slot, state.sum as u64, entry)
}

// The tests of a line on a point-day of which `test` is the test: one that is not taken is refused by 2.
pub fn line_test(test: &Result<State, Refusal>, entry: LineEntry) -> Result<LineEffect, Refusal>
    requires { IfOk test.now (λ s. (s.count ≤ USERS) × (sum_right s.sum ≡ true)) }
    ensures { FindsOf test.now (result ≡ Err OutOfRange) (λ d. Tested entry.user entry.kind entry.consumption entry.coefficient d result) }
{
    match test {
        Ok(state) => taken_test(state, entry),
        Err(_) => Err(Refusal::OutOfRange),
    }
}

// The tests of a line, that of the point-day first.
fn tests(day: &PointDay, entry: LineEntry) -> Result<LineEffect, Refusal>
    ensures { Tested entry.user entry.kind entry.consumption entry.coefficient day.now result }
{
    line_test(&taken::test_day(day), entry)
}

// A line at the place of its cell.
fn line_at(day: PointDay, place: usize, amount: u64, added: u64) -> PointDay
    requires { (place < CELLS) × (amount ≤ LIMIT) × (added ≤ LIMIT) × Within LIMIT (atZ day.consumption place) × Within LIMIT (atZ day.losses place) }
    ensures { result ≡ with_cells (more place amount day.consumption) (more place added day.losses) day }
{
    let mut consumption = day.consumption;
    let mut losses = day.losses;
    state::add_at(&mut consumption, place, amount);
    state::add_at(&mut losses, place, added);
    PointDay {
        consumption,
        losses,
        ..day
    }
}

// Line: adds consumption and losses of a user and kind, and answers the losses added.
pub fn line(day: PointDay, entry: LineEntry) -> Outcome
    ensures { outcome (answer_of result.answer) result.day ≡ called (line entry.user entry.kind entry.consumption entry.coefficient) day }
{
    match tests(&day, entry) {
        Err(refusal) => point_day::refuse(refusal, day),
        Ok(effect) => {
            let next = line_at(day, effect.place, entry.consumption, effect.added);
            point_day::accept(Accepted::LossesAdded(effect.added), next)
        }
    }
}

// Line, as an edit of a point-day that the caller lends.
pub fn line_lent(day: &mut PointDay, entry: LineEntry) -> Answer
    ensures { outcome (answer_of result) day.new ≡ called (line entry.user entry.kind entry.consumption entry.coefficient) day.old }
{
    let r = line(*day, entry);
    *day = r.day;
    r.answer
}

// Line as an edit, of a point-day that this function lends.
pub fn line_by_edit(day: PointDay, entry: LineEntry) -> Outcome
    ensures { outcome (answer_of result.answer) result.day ≡ called (line entry.user entry.kind entry.consumption entry.coefficient) day }
{
    let mut edited = day;
    let answer = line_lent(&mut edited, entry);
    Outcome {
        answer,
        day: edited,
    }
}
