// Allot: the balance over users and their kinds.
#![tactic(auto)]

pub mod balance;
pub mod shares;
pub mod weights;

ghost use Rattle.std.specs.Prelude.{◌≡◌, [], pos, IfOk};
ghost use Rattle.numbers.specs.Refusals.{OUT_OF_RANGE, status_of};
ghost use Rattle.point_day.specs.Limits.{CELLS};
ghost use Rattle.point_day.specs.Calls.{allot};
ghost use Rattle.point_day.specs.Answers.{answer_of};
ghost use Rattle.point_day.specs.Struct.{padded, outcome, called};
ghost use Rattle.point_day.specs.declared.PointDay.{PointDay};
ghost use Rattle.taken.specs.Tested.{Finds, FindsOf, Some};
ghost use Rattle.allot.specs.Allotted.{with_balances, Tested, Has, Allottable};

use numbers::Refusal;
use point_day::{Accepted, CELLS, Outcome, PointDay, USERS};
use state::amounts::Amounts;
use taken::State;
use weights::Offtakes;

// The balance of an entering point-day with these cells and revisions over its users and kinds, into cells of zeros; refused if a whole
// amount is then too large.
fn cells_test<'a>(
    state: &State,
    consumption: &'a [i64; CELLS],
    losses: &'a [i64; CELLS],
    revision: &'a [i64; USERS],
    cells: &mut [i64; CELLS],
) -> Result<(), Refusal>
    requires { Some (Allottable state.now consumption.now losses.now revision.now) × (cells.old ≡ padded CELLS (pos 0) []) }
    ensures { (d : PointDay) → Allottable state.now consumption.now losses.now revision.now d → Tested cells.new d (status_of result) }
{
    let n = state.count;
    let mut shares = state.wholes;
    let day_balance = numbers::minus(state::net(state.measurement) as i64, state.sum);
    let offtakes = Offtakes {
        consumption,
        losses,
    };
    let users = &state.users[..n];
    balance::balance_cells(day_balance, &offtakes, users, &mut shares, cells);
    let amounts = Amounts {
        consumption,
        losses,
        balance: cells,
        revision,
    };
    let wholes = &mut shares[..n];
    amounts.whole_amounts(wholes);
    if taken::wholes_too_large(wholes) {
        return Err(Refusal::AmountTooLarge);
    }
    Ok(())
}

// The tests of allot on a taken point-day with these cells and revisions, of which `state` is the test. `cells`, zeros before, are then
// the balances. (The arrays come one by one, as a point-day by value and one in plain numbers have them.)
pub fn taken_test<'a>(
    state: &State,
    consumption: &'a [i64; CELLS],
    losses: &'a [i64; CELLS],
    revision: &'a [i64; USERS],
    cells: &mut [i64; CELLS],
) -> Result<(), Refusal>
    requires { Some (Has state.now consumption.now losses.now revision.now) × (cells.old ≡ padded CELLS (pos 0) []) }
    ensures { Finds state.now (λ d. d.consumption ≡ consumption.now → d.losses ≡ losses.now → d.revision ≡ revision.now → Tested cells.new d (status_of result)) }
{
    if state.allotted {
        return Err(Refusal::WrongStage);
    }
    if !state::is_measured(state.measurement) {
        return Err(Refusal::Unmeasured);
    }
    if state.count == 0 {
        return Err(Refusal::NoUser);
    }
    cells_test(state, consumption, losses, revision, cells)
}

// The point-day allotted, with these balances.
fn put_balances(day: PointDay, balance: [i64; CELLS]) -> PointDay
    ensures { result ≡ with_balances balance day }
{
    PointDay {
        allotted: true,
        balance,
        ..day
    }
}

// The tests of an allot on a point-day of which `test` is the test, and these are cells and revisions: one that is not taken is refused by 2.
pub fn allot_test<'a>(
    test: &Result<State, Refusal>,
    consumption: &'a [i64],
    losses: &'a [i64],
    revision: &'a [i64],
    cells: &mut [i64; CELLS],
) -> Result<(), Refusal>
    requires { IfOk test.now (λ s. Some (Has s consumption.now losses.now revision.now)) × (cells.old ≡ padded CELLS (pos 0) []) }
    ensures { FindsOf test.now (status_of result ≡ OUT_OF_RANGE) (λ d. d.consumption ≡ consumption.now → d.losses ≡ losses.now → d.revision ≡ revision.now → Tested cells.new d (status_of result)) }
{
    match test {
        Ok(state) => taken_test(
            state,
            consumption.as_array().unwrap(),
            losses.as_array().unwrap(),
            revision.as_array().unwrap(),
            cells,
        ),
        Err(_) => Err(Refusal::OutOfRange),
    }
}

// The tests of an allot, that of the point-day first; `cells`, zeros before, are then the balances.
fn tests(day: &PointDay, cells: &mut [i64; CELLS]) -> Result<(), Refusal>
    requires { cells.old ≡ padded CELLS (pos 0) [] }
    ensures { Tested cells.new day.now (status_of result) }
{
    let test = taken::test_day(day);
    allot_test(&test, &day.consumption, &day.losses, &day.revision, cells)
}

// Allot: the balance over users and their kinds; the stage is then allotted.
pub fn allot(day: PointDay) -> Outcome
    ensures { outcome (answer_of result.answer) result.day ≡ called allot day }
{
    let mut cells = numbers::repeat::<i64, CELLS>(0);
    match tests(&day, &mut cells) {
        Err(refusal) => point_day::refuse(refusal, day),
        Ok(()) => point_day::accept(Accepted::Done, put_balances(day, cells)),
    }
}
