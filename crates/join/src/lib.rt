// Join: a user enters the point-day.
#![tactic(auto)]

ghost use Rattle.std.specs.Prelude.{◌≡◌, true, ◌≤◌, ◌<◌, IfOk};
ghost use Rattle.numbers.specs.Refusals.{OUT_OF_RANGE, status_of};
ghost use Rattle.point_day.specs.Limits.{USERS};
ghost use Rattle.point_day.specs.Calls.{join};
ghost use Rattle.point_day.specs.Answers.{answer_of};
ghost use Rattle.point_day.specs.Struct.{outcome, called};
ghost use Rattle.taken.specs.Tested.{Finds, FindsOf};
ghost use Rattle.join.specs.Appended.{appended, Tested};

use numbers::Refusal;
use point_day::{Accepted, Outcome, PointDay, USERS};
use taken::State;

// The user in the next slot.
fn append(day: PointDay, user: u16) -> PointDay
    requires { day.count < USERS }
    ensures { result ≡ appended user day }
{
    let n = day.count;
    let mut users = day.users;
    users[n] = user;
    PointDay {
        count: n + 1,
        users,
        ..day
    }
}

// The tests of a join on a taken point-day, of which `state` is the test.
pub fn taken_test(state: &State, user: u16) -> Result<(), Refusal>
    requires { state.now.count ≤ USERS }
    ensures { Finds state.now (λ d. Tested user d (status_of result)) }
{
    let count = state.count;
    if state.allotted {
        return Err(Refusal::WrongStage);
    }
    if user == 0 {
        return Err(Refusal::OutOfRange);
    }
    if state::slot_of(&state.users[..count], user).is_some() {
        return Err(Refusal::AlreadyJoined);
    }
    if USERS <= count {
        return Err(Refusal::AllJoined);
    }
    Ok(())
}

// The tests of a join on a point-day of which `test` is the test: one that is not taken is refused by 2.
pub fn join_test(test: &Result<State, Refusal>, user: u16) -> Result<(), Refusal>
    requires { IfOk test.now (λ s. s.count ≤ USERS) }
    ensures { FindsOf test.now (status_of result ≡ OUT_OF_RANGE) (λ d. Tested user d (status_of result)) }
{
    match test {
        Ok(state) => taken_test(state, user),
        Err(_) => Err(Refusal::OutOfRange),
    }
}

// The tests of a join, that of the point-day first.
fn tests(day: &PointDay, user: u16) -> Result<(), Refusal>
    ensures { Tested user day.now (status_of result) }
{
    join_test(&taken::test_day(day), user)
}

// Join: adds a user.
pub fn join(day: PointDay, user: u16) -> Outcome
    ensures { outcome (answer_of result.answer) result.day ≡ called (join user) day }
{
    match tests(&day, user) {
        Err(refusal) => point_day::refuse(refusal, day),
        Ok(()) => point_day::accept(Accepted::Done, append(day, user)),
    }
}
