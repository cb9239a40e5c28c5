// An amount split by largest remainder: whole units, then the units left over; each weight counts as 1 if all are 0.
ghost use Rattle.std.specs.Prelude.{◌≡◌, ◌<◌, ◌≤◌, ◌++◌, length, drop, replicate};
ghost use Rattle.proration.specs.Proration.{PARTIES, LARGEST_AMOUNT, split, prorate};

use super::leftover::{self, FEW, MANY};
use proration::{PARTIES, Parties, Weights};

// The shares of the amount over weights whose sum is above 0; `rems` is scratch.
fn split(amount: u64, weights: Weights, keys: &[u64], rems: &mut [u64], shares: &mut [u64])
    requires amount_bound { (amount ≤ LARGEST_AMOUNT) × (0 < weights.sum) }
    requires ws_in_bounds { (length weights.each.now ≤ length keys.now) × (length rems.old ≡ length weights.each.now) × (length weights.each.now ≤ length shares.old) }
    ensures { shares.new ≡ split amount weights.entry.each.now keys.now ++ drop (length weights.entry.each.now) shares.old }
{
    let given = proration::floors(amount, weights, shares, rems);
    leftover::serve(&Parties { rems, keys }, amount - given, shares);
}

// The shares of the amount over weights whose sum is above 0.
fn split_counted<const ROOM: usize>(amount: u64, weights: Weights, keys: &[u64], shares: &mut [u64])
    requires amount_bound { (amount ≤ LARGEST_AMOUNT) × (0 < weights.sum) × (length weights.each.now ≤ ROOM) × (ROOM ≤ PARTIES) }
    requires ws_in_bounds { (length weights.each.now ≤ length keys.now) × (length weights.each.now ≤ length shares.old) }
    ensures { shares.new ≡ split amount weights.entry.each.now keys.now ++ drop (length weights.entry.each.now) shares.old }
{
    let mut rems = numbers::repeat::<_, ROOM>(0);
    let n = weights.each.len();
    split(amount, weights, keys, &mut rems[..n], shares);
}

// The shares of the amount over n parties that each count as 1.
fn split_evenly<const ROOM: usize>(amount: u64, n: usize, keys: &[u64], shares: &mut [u64])
    requires { (amount ≤ LARGEST_AMOUNT) × (0 < n) × (n ≤ ROOM) × (ROOM ≤ PARTIES) × (n ≤ length keys.now) × (n ≤ length shares.old) }
    ensures { shares.new ≡ split amount (replicate n 1) keys.now ++ drop n shares.old }
{
    let ones = numbers::repeat::<_, ROOM>(1);
    let weights = Weights {
        each: &ones[..n],
        sum: n as u64,
    };
    split_counted::<ROOM>(amount, weights, keys, shares);
}

// The amount prorated over up to ROOM weights.
pub(crate) fn prorate_in<const ROOM: usize>(
    amount: u64,
    weights: Weights,
    keys: &[u64],
    shares: &mut [u64],
)
    requires amount_bound { (amount ≤ LARGEST_AMOUNT) × (0 < length weights.each.now) × (length weights.each.now ≤ ROOM) × (ROOM ≤ PARTIES) }
    requires ws_in_bounds { (length weights.each.now ≤ length keys.now) × (length weights.each.now ≤ length shares.old) }
    ensures { shares.new ≡ prorate amount weights.entry.each.now keys.now ++ drop (length weights.entry.each.now) shares.old }
{
    if weights.sum == 0 {
        split_evenly::<ROOM>(amount, weights.each.len(), keys, shares);
    } else {
        split_counted::<ROOM>(amount, weights, keys, shares);
    }
}

// The amount prorated over the weights: each counts as 1 if all are 0. Numbers of `shares` past the parties stay.
pub fn prorate(amount: u64, weights: Weights, keys: &[u64], shares: &mut [u64])
    requires amount_bound { (amount ≤ LARGEST_AMOUNT) × (0 < length weights.each.now) × (length weights.each.now ≤ PARTIES) }
    requires ws_in_bounds { (length weights.each.now ≤ length keys.now) × (length weights.each.now ≤ length shares.old) }
    ensures { shares.new ≡ prorate amount weights.entry.each.now keys.now ++ drop (length weights.entry.each.now) shares.old }
{
    let n = weights.each.len();
    if n <= FEW {
        prorate_in::<FEW>(amount, weights, keys, shares);
    } else if n <= MANY {
        prorate_in::<MANY>(amount, weights, keys, shares);
    } else {
        prorate_in::<PARTIES>(amount, weights, keys, shares);
    }
}
