// The calls on a point-day in plain numbers that the caller lends, in place: the tests read the numbers, and what an accepted call changes
// is written where it stands. A refused call changes nothing.
#![tactic(auto)]

ghost use Rattle.std.specs.Prelude.{◌≡◌, [], List, ℤ, length};
ghost use Rattle.numbers.specs.Refusals.{status_of};
ghost use Rattle.point_day.specs.Limits.{TOLERANCE};
ghost use Rattle.point_day.specs.Calls.{join, line, measure, allot, revise, start_final, stand_in};
ghost use Rattle.point_day.specs.Struct.{read, rows_of, called};
ghost use Rattle.stand_in.specs.Rows.{rows_in};
ghost use Rattle.inventory.specs.Inventory.{Afterwards, answer_of};
ghost use Rattle.plain_day.specs.Layout.{day_in};
ghost use Rattle.plain_day.specs.Plain.{plain, answered, plain_call, plain_fresh};
ghost use Rattle.in_place.specs.Values.{amount, revision};
ghost use Rattle.in_place.specs.Listing.{plain_inventory};

use line::cells::LineEntry;
use numbers::Refusal;
use plain_day::{LENGTH, REVISION_AT, from_numbers, writes};
use point_day::{CELLS, TOLERANCE, USERS};
use revise::Revision;
use stand_in::rows;

// A fresh point-day.
pub fn fresh(day: &mut [i64]) -> Result<(), Refusal>
    ensures { plain (status_of result) [] day.new ≡ plain_fresh day.old }
{
    if day.len() != LENGTH {
        return Err(Refusal::OutOfRange);
    }
    writes::clear(day, 0);
    Ok(())
}

// Join.
pub fn join(day: &mut [i64], user: u16) -> Result<(), Refusal>
    ensures { plain (status_of result) [] day.new ≡ plain_call (called (join user)) [] day.old }
{
    let state = plain_day::test_numbers(day)?;
    join::taken_test(&state, user)?;
    writes::append(day, user);
    Ok(())
}

// Line; gives the losses added.
pub fn line(day: &mut [i64], entry: LineEntry) -> Result<u64, Refusal>
    ensures { (before : List ℤ) → answered amount result before day.new ≡ plain_call (called (line entry.user entry.kind entry.consumption entry.coefficient)) before day.old }
{
    let state = plain_day::test_numbers(day)?;
    let effect = line::taken_test(&state, entry)?;
    writes::add(day, effect.place, entry.consumption, effect.added);
    Ok(effect.added)
}

// Measure.
pub fn measure(day: &mut [i64], emission: u64, downstream: u64) -> Result<(), Refusal>
    ensures { plain (status_of result) [] day.new ≡ plain_call (called (measure emission downstream)) [] day.old }
{
    let state = plain_day::test_numbers(day)?;
    measure::taken_test(&state, emission, downstream)?;
    writes::store_measurement(day, emission, downstream);
    Ok(())
}

// Allot.
pub fn allot(day: &mut [i64]) -> Result<(), Refusal>
    ensures { plain (status_of result) [] day.new ≡ plain_call (called allot) [] day.old }
{
    let state = plain_day::test_numbers(day)?;
    let amounts = from_numbers::amounts_in(day);
    let mut cells = numbers::repeat::<i64, CELLS>(0);
    allot::taken_test(
        &state,
        amounts.consumption,
        amounts.losses,
        amounts.revision,
        &mut cells,
    )?;
    writes::store_balances(day, &cells);
    Ok(())
}

// Revise; gives R, and whether it is within the tolerance or assigned.
pub fn revise(day: &mut [i64]) -> Result<Revision, Refusal>
    ensures { (before : List ℤ) → answered revision result before day.new ≡ plain_call (called (revise TOLERANCE)) before day.old }
{
    let state = plain_day::test_numbers(day)?;
    let mut column = state.wholes;
    let revision = revise::taken_test(&state, &day[REVISION_AT..LENGTH], TOLERANCE, &mut column)?;
    if let Revision::Assigned(_) = revision {
        writes::put(day, REVISION_AT, &column);
    }
    Ok(revision)
}

// Start-final.
pub fn start_final(day: &mut [i64]) -> Result<(), Refusal>
    ensures { plain (status_of result) [] day.new ≡ plain_call (called start_final) [] day.old }
{
    let state = plain_day::test_numbers(day)?;
    start_final::taken_test(&state)?;
    writes::start(day, start_final::next_stage(state.stage));
    Ok(())
}

// Stand-in, with its rows in three lists; gives the rows looked at.
pub fn stand_in<'a>(
    day: &mut [i64],
    counts: &'a [usize],
    users: &'a [u16],
    amounts: &'a [i64],
) -> Result<usize, Refusal>
    ensures { (before : List ℤ) → answered amount result before day.new ≡ plain_call (called (stand_in TOLERANCE (rows_of (rows_in counts.now users.now amounts.now)))) before day.old }
{
    let state = plain_day::test_numbers(day)?;
    let mut shares = numbers::repeat::<i64, USERS>(0);
    let row = stand_in::taken_test(&state, counts, users, amounts, TOLERANCE, &mut shares)?;
    writes::store_opening(day, rows::row_users(counts, users, row), &shares);
    Ok(row + 1)
}

// Inventory, into a lent buffer; gives the count of rows.
pub fn inventory<'a>(day: &'a [i64], out: &mut [i64]) -> Result<usize, Refusal>
    ensures result_value { answer_of result ≡ plain_inventory day.now out.old }
    ensures afterwards { Afterwards (plain_inventory day.now out.old) (read (day_in day.now)) out.old out.new }
{
    let state = plain_day::test_numbers(day)?;
    let amounts = from_numbers::amounts_in(day);
    inventory::list_taken(
        &state,
        amounts.consumption,
        amounts.losses,
        amounts.balance,
        out,
    )
}
