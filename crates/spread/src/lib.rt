// Spreading a reading over the days of its period.
#![tactic(auto)]

ghost use Rattle.std.specs.Prelude.{◌≡◌, true, ◌++◌, ◌≤◌, length, drop};
ghost use Rattle.spread.specs.Period.{in_range, days, parts};
ghost use Rattle.proration.specs.Proration.{PARTIES};
ghost use Rattle.spread.specs.Spread.{outcome, spread, answer_of};

use numbers::Refusal;
use point_day::LIMIT;
use proration::{PARTIES, Weights};

// The most days of a month. (Scratch for a year's days takes longer to clear than to spread a month's reading.)
const MONTH: usize = 31;

// Whether the reading, the count of days and each weight are in their ranges.
#[tactic(auto, unfolding(crate::specs::Period::in_range))]
fn is_in_range(reading: u64, weights: &[i64]) -> bool
    ensures { result ≡ in_range reading weights.now }
{
    reading <= LIMIT
        && !weights.is_empty()
        && weights.len() <= PARTIES
        && columns::all_limited(weights)
}

// The days' numbers, from 1.
fn write_days(keys: &mut [u64])
    ensures { keys.new ≡ days (length keys.old) }
{
    for i in 0..keys.len() {
        keys[i] = i as u64 + 1;
    }
}

// The reading prorated over the days by the weights, whose total is added up once; `sizes` and `keys` are scratch.
fn prorate_days(reading: u64, weights: &[i64], sizes: &mut [u64], keys: &mut [u64], out: &mut [i64])
    requires { (in_range reading weights.now ≡ true) × (length sizes.old ≡ length weights.now) × (length keys.old ≡ length weights.now) × (length weights.now ≤ length out.old) }
    ensures { out.new ≡ parts reading weights.now ++ drop (length weights.now) out.old }
{
    columns::sizes_of(weights, sizes);
    write_days(keys);
    split::prorate_signed(reading as i64, Weights::of(sizes), keys, out);
}

// The same for up to ROOM days, with the scratch that it needs.
fn spread_in<const ROOM: usize>(reading: u64, weights: &[i64], out: &mut [i64])
    requires { (in_range reading weights.now ≡ true) × (length weights.now ≤ ROOM) × (ROOM ≤ PARTIES) × (length weights.now ≤ length out.old) }
    ensures { out.new ≡ parts reading weights.now ++ drop (length weights.now) out.old }
{
    let n = weights.len();
    let mut sizes = numbers::repeat::<_, ROOM>(0);
    let mut keys = numbers::repeat::<_, ROOM>(0);
    prorate_days(reading, weights, &mut sizes[..n], &mut keys[..n], out);
}

// The same for all days of a period.
fn spread_days(reading: u64, weights: &[i64], out: &mut [i64])
    requires { (in_range reading weights.now ≡ true) × (length weights.now ≤ length out.old) }
    ensures { out.new ≡ parts reading weights.now ++ drop (length weights.now) out.old }
{
    if weights.len() <= MONTH {
        spread_in::<MONTH>(reading, weights, out);
    } else {
        spread_in::<PARTIES>(reading, weights, out);
    }
}

// Spreads a reading over the days of its period by their weights, into a lent buffer whose later numbers stay.
pub fn spread(reading: u64, weights: &[i64], out: &mut [i64]) -> Result<(), Refusal>
    ensures { outcome (answer_of result) out.new ≡ spread reading weights.now out.old }
{
    if !is_in_range(reading, weights) {
        return Err(Refusal::OutOfRange);
    }
    if numbers::any_negative(weights) {
        return Err(Refusal::NegativeWeight);
    }
    if out.len() < weights.len() {
        return Err(Refusal::ShortBuffer);
    }
    spread_days(reading, weights, out);
    Ok(())
}
