// What calls write into a point-day in plain numbers, each where it stands. (Each asks for the length of the list and takes no array of
// LENGTH numbers: to have one, a call on a lent slice would open an option that is never `None`, and so read no plainer.)
ghost use Rattle.std.specs.Prelude.{◌≡◌, ◌++◌, map, ◌+◌, ◌-◌, ◌≤◌, ◌<◌, pos, length, take, set, replicate};
ghost use Rattle.numbers.specs.Sums.{atZ};
ghost use Rattle.numbers.specs.Amounts.{Within};
ghost use Rattle.point_day.specs.Limits.{USERS, CELLS, LIMIT};
ghost use Rattle.state.specs.Places.{more};
ghost use Rattle.plain_day.specs.Layout.{LENGTH, STAGE_AT, ALLOTTED_AT, MEASURED_AT, EMISSION_AT, DOWNSTREAM_AT, COUNT_AT, USERS_AT, CONSUMPTION_AT, LOSSES_AT, BALANCE_AT, REVISION_AT, put, count_in, stage_number};

use super::{
    ALLOTTED_AT, BALANCE_AT, CONSUMPTION_AT, COUNT_AT, DOWNSTREAM_AT, EMISSION_AT, LOSSES_AT,
    MEASURED_AT, REVISION_AT, STAGE_AT, USERS_AT, from_numbers,
};
use point_day::Stage;

// Zeros from a place on.
pub fn clear(day: &mut [i64], at: usize)
    requires { at ≤ length day.old }
    ensures { day.new ≡ take at day.old ++ replicate (length day.old - at) (pos 0) }
{
    day[at..].fill(0);
}

// Numbers put into a buffer from a place on.
pub fn put(out: &mut [i64], at: usize, xs: &[i64])
    requires { at + length xs.now ≤ length out.old }
    ensures { out.new ≡ put at xs.now out.old }
{
    out[at..at + xs.len()].copy_from_slice(xs);
}

// A user in the next slot.
pub fn append(day: &mut [i64], user: u16)
    requires { (length day.old ≡ LENGTH) × (count_in day.old < USERS) }
    ensures { day.new ≡ set (set day.old (USERS_AT + count_in day.old) (pos user)) COUNT_AT (pos (count_in day.old + 1)) }
{
    let n = from_numbers::count_in(day);
    day[USERS_AT + n] = i64::from(user);
    day[COUNT_AT] = (n + 1) as i64;
}

// Consumption and losses more at a cell.
pub fn add(day: &mut [i64], place: usize, consumption: u64, added: u64)
    requires day_len { (length day.old ≡ LENGTH) × (place < CELLS) × (consumption ≤ LIMIT) × (added ≤ LIMIT) }
    requires within { Within LIMIT (atZ day.old (CONSUMPTION_AT + place)) × Within LIMIT (atZ day.old (LOSSES_AT + place)) }
    ensures { day.new ≡ more (LOSSES_AT + place) added (more (CONSUMPTION_AT + place) consumption day.old) }
{
    state::add_at(day, CONSUMPTION_AT + place, consumption);
    state::add_at(day, LOSSES_AT + place, added);
}

// Emission and downstream emission.
pub fn store_measurement(day: &mut [i64], emission: u64, downstream: u64)
    requires { (length day.old ≡ LENGTH) × (emission ≤ LIMIT) × (downstream ≤ LIMIT) }
    ensures { day.new ≡ set (set (set day.old MEASURED_AT (pos 1)) EMISSION_AT (pos emission)) DOWNSTREAM_AT (pos downstream) }
{
    day[MEASURED_AT] = 1;
    day[EMISSION_AT] = emission as i64;
    day[DOWNSTREAM_AT] = downstream as i64;
}

// The point-day allotted, with these balances.
pub fn store_balances(day: &mut [i64], cells: &[i64])
    requires { (length day.old ≡ LENGTH) × (length cells.now ≡ CELLS) }
    ensures { day.new ≡ set (put BALANCE_AT cells.now day.old) ALLOTTED_AT (pos 1) }
{
    put(day, BALANCE_AT, cells);
    day[ALLOTTED_AT] = 1;
}

// A stage, entering, without amounts.
pub fn start(day: &mut [i64], stage: Stage)
    requires { length day.old ≡ LENGTH }
    ensures { day.new ≡ set (set (take CONSUMPTION_AT day.old ++ replicate (length day.old - CONSUMPTION_AT) (pos 0)) ALLOTTED_AT (pos 0)) STAGE_AT (pos (stage_number stage)) }
{
    clear(day, CONSUMPTION_AT);
    day[ALLOTTED_AT] = 0;
    day[STAGE_AT] = from_numbers::stage_number(stage);
}

// User numbers from the first slot on.
fn put_users(day: &mut [i64], users: &[u16])
    requires { (length day.old ≡ LENGTH) × (length users.now ≤ USERS) }
    ensures { day.new ≡ put USERS_AT (map pos users.now) day.old }
{
    for (i, &user) in users.iter().enumerate() {
        day[USERS_AT + i] = i64::from(user);
    }
}

// So many users, and allotted.
fn open_with(day: &mut [i64], count: usize)
    requires { (length day.old ≡ LENGTH) × (count ≤ USERS) }
    ensures { day.new ≡ set (set day.old COUNT_AT (pos count)) ALLOTTED_AT (pos 1) }
{
    day[COUNT_AT] = count as i64;
    day[ALLOTTED_AT] = 1;
}

// The day opened with users and their shares.
pub fn store_opening(day: &mut [i64], users: &[u16], shares: &[i64])
    requires { (length day.old ≡ LENGTH) × (length users.now ≤ USERS) × (length shares.now ≡ USERS) }
    ensures { day.new ≡ set (set (put USERS_AT (map pos users.now) (put REVISION_AT shares.now day.old)) COUNT_AT (pos (length users.now))) ALLOTTED_AT (pos 1) }
{
    put(day, REVISION_AT, shares);
    put_users(day, users);
    open_with(day, users.len());
}
