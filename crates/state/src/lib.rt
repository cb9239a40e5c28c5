// What all calls ask of a point-day: a user's slot, its sums and whole amounts, its stage and measurement.
#![tactic(auto)]

pub mod amounts;

ghost use Rattle.std.specs.Prelude.{◌≡◌, true, ◌≤◌, ◌<◌, pos, ◌+ℤ◌, length};
ghost use Rattle.numbers.specs.Sums.{atZ};
ghost use Rattle.numbers.specs.Amounts.{Within, Decides};
ghost use Rattle.point_day.specs.Limits.{USERS, CELLS, LIMIT};
ghost use Rattle.point_day.specs.Day.{is_measured, net_of, emission_right, measurement_right, provisional};
ghost use Rattle.state.specs.Places.{SlotOf, ROOM, LowSlot, SizedSlot, offtake_at, balance_at, more};

use point_day::{CELLS, KINDS, LIMIT, Measurement, Stage, USERS};

// The slot of the user, if it stands among these. (A `for`: what `position` finds the search does not carry to the result.)
pub fn slot_of(users: &[u16], user: u16) -> Option<usize>
    ensures { SlotOf user users.now result }
{
    for (i, &number) in users.iter().enumerate() {
        if number == user {
            return Some(i);
        }
    }
    None
}

// The greatest amount of which all sums fit well into 64 bits, and whose bits are all ones.
const LOW: i64 = 8589934591;

// Whether a user's consumption and losses lie in 0 to LOW: their bits are gathered, and tested once. (The functions of two of a point-day's
// four arrays are no methods of `Amounts`, which would ask their callers for all four.)
pub fn user_low(consumption: &[i64; CELLS], losses: &[i64; CELLS], slot: usize) -> bool
    requires { slot < USERS }
    ensures { Decides result (LowSlot consumption.now losses.now slot) }
{
    let mut bits: i64 = 0;
    for k in 0..KINDS {
        bits |= consumption[KINDS * slot + k];
        bits |= losses[KINDS * slot + k];
    }
    0 <= bits && bits <= LOW
}

// Consumption and losses of a cell. (No one function with `cell_sum`: the two add other columns, in other ranges.)
fn cell_offtake(consumption: &[i64; CELLS], losses: &[i64; CELLS], i: usize) -> i64
    requires { (i < CELLS) × Within ROOM (atZ consumption.now i) × Within ROOM (atZ losses.now i) }
    ensures { result ≡ atZ consumption.now i +ℤ atZ losses.now i }
{
    consumption[i] + losses[i]
}

// A user's consumption and losses.
pub fn user_offtake(consumption: &[i64; CELLS], losses: &[i64; CELLS], slot: usize) -> i64
    requires { (slot < USERS) × LowSlot consumption.now losses.now slot }
    ensures { result ≡ offtake_at consumption.now losses.now slot }
{
    let mut sum: i64 = 0;
    for k in 0..KINDS {
        sum += cell_offtake(consumption, losses, KINDS * slot + k);
    }
    sum
}

// A user's balances and revision.
pub fn user_balance(balance: &[i64; CELLS], revision: &[i64; USERS], slot: usize) -> i64
    requires { (slot < USERS) × SizedSlot balance.now revision.now slot }
    ensures { result ≡ balance_at balance.now revision.now slot }
{
    let mut sum: i64 = 0;
    for k in 0..KINDS {
        sum += balance[KINDS * slot + k];
    }
    sum + revision[slot]
}

// x more at a place: of an array of cells, or of a longer list.
pub fn add_at(cells: &mut [i64], i: usize, x: u64)
    requires { (i < length cells.old) × (x ≤ LIMIT) × Within LIMIT (atZ cells.old i) }
    ensures { cells.new ≡ more i x cells.old }
{
    cells[i] += x as i64;
}

// Whether emission and downstream emission are in range. (This function and the next three are definitions of `Day`, with their arguments,
// and no methods of `Stage` and `Measurement`: emissions are tested before they are a measurement, and a measurement may be missing.)
pub fn emission_right(emission: u64, downstream: u64) -> bool
    ensures { result ≡ emission_right emission downstream }
{
    emission <= LIMIT && downstream <= emission
}

// Whether there is a measurement.
pub fn is_measured(measurement: Option<Measurement>) -> bool
    ensures { result ≡ is_measured measurement }
{
    measurement.is_some()
}

// Whether the stage is provisional. (A name over the derived equality, with a contract that the calls' proofs read.)
pub fn is_provisional(stage: Stage) -> bool
    ensures { result ≡ provisional stage }
{
    stage == Stage::Provisional
}

// Net emission; 0 if unmeasured.
pub fn net(measurement: Option<Measurement>) -> u64
    requires { measurement_right measurement ≡ true }
    ensures { (pos result ≡ net_of measurement) × (result ≤ LIMIT) }
{
    match measurement {
        None => 0,
        Some(measured) => measured.emission - measured.downstream,
    }
}
