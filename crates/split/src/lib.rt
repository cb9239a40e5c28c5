// How a split is found: the units left over, a split by largest remainder, and the calls, for an amount of either sign and for programs in
// other languages.
#![tactic(auto)]

pub mod largest_remainder;
mod leftover;

ghost use Rattle.std.specs.Prelude.{◌≡◌, ℕ, ◌<◌, ◌≤◌, ◌++◌, length, drop, nat_le};
ghost use Rattle.numbers.specs.Sums.{table, at};
ghost use Rattle.numbers.specs.Lists.{every};
ghost use Rattle.numbers.specs.Amounts.{Within, signed};
ghost use Rattle.numbers.specs.Refusals.{status_of};
ghost use Rattle.proration.specs.Proration.{PARTIES, LARGEST_AMOUNT, LARGEST_WEIGHT, prorateZ};
ghost use Rattle.split.specs.Call.{in_range, answer, after};

use largest_remainder::prorate_in;
use leftover::{FEW, MANY};
use numbers::Refusal;
use proration::{PARTIES, Weights};

// The largest amount of a split in size, and the largest weight.
const LARGEST_AMOUNT: u64 = 1_000_000_000;

const LARGEST_WEIGHT: u64 = 2_000_000_000;

// The shares with a sign.
fn give(negative: bool, shares: &[u64], out: &mut [i64])
    requires { (length shares.now ≤ length out.old) × ((i : ℕ) → at shares.now i ≤ LARGEST_WEIGHT) }
    ensures { out.new ≡ table (λ i. signed negative (at shares.now i)) (length shares.now) ++ drop (length shares.now) out.old }
{
    for i in 0..shares.len() {
        out[i] = numbers::with_sign(negative, shares[i]);
    }
}

// The signed shares of the amount over up to ROOM parties, through the shares of its size.
fn signed_in<const ROOM: usize>(amount: i64, weights: Weights, keys: &[u64], out: &mut [i64])
    requires within { Within LARGEST_AMOUNT amount × (0 < length weights.each.now) × (length weights.each.now ≤ ROOM) × (ROOM ≤ PARTIES) }
    requires ws_in_bounds { (length weights.each.now ≤ length keys.now) × (length weights.each.now ≤ length out.old) }
    ensures { out.new ≡ prorateZ amount weights.entry.each.now keys.now ++ drop (length weights.entry.each.now) out.old }
{
    let mut room = numbers::repeat::<_, ROOM>(0);
    let shares = &mut room[..weights.each.len()];
    prorate_in::<ROOM>(amount.unsigned_abs(), weights, keys, shares);
    give(amount.is_negative(), shares, out);
}

// The signed amount prorated over the weights. Numbers of `out` past the parties stay.
pub fn prorate_signed(amount: i64, weights: Weights, keys: &[u64], out: &mut [i64])
    requires within { Within LARGEST_AMOUNT amount × (0 < length weights.each.now) × (length weights.each.now ≤ PARTIES) }
    requires ws_in_bounds { (length weights.each.now ≤ length keys.now) × (length weights.each.now ≤ length out.old) }
    ensures { out.new ≡ prorateZ amount weights.entry.each.now keys.now ++ drop (length weights.entry.each.now) out.old }
{
    let n = weights.each.len();
    if n <= FEW {
        signed_in::<FEW>(amount, weights, keys, out);
    } else if n <= MANY {
        signed_in::<MANY>(amount, weights, keys, out);
    } else {
        signed_in::<PARTIES>(amount, weights, keys, out);
    }
}

// Whether no weight is above the limit.
fn none_above(ws: &[u64]) -> bool
    ensures { result ≡ every (λ w. nat_le w LARGEST_WEIGHT) ws.now }
{
    ws.iter().all(|&w| w <= LARGEST_WEIGHT)
}

// Whether the amount can be prorated over the weights.
#[tactic(auto, using(numbers::proofs::Lists::distinct_map), unfolding(crate::specs::Call::in_range))]
fn in_range(amount: i64, ws: &[u64], keys: &[u64]) -> bool
    ensures { result ≡ in_range amount ws.now keys.now }
{
    amount.unsigned_abs() <= LARGEST_AMOUNT
        && !ws.is_empty()
        && ws.len() <= PARTIES
        && keys.len() == ws.len()
        && none_above(ws)
        && numbers::distinct::are_distinct(keys)
}

// The signed amount prorated over the weights, by any arguments.
pub fn split(amount: i64, ws: &[u64], keys: &[u64], out: &mut [i64]) -> Result<(), Refusal>
    ensures value { status_of result ≡ answer amount ws.now keys.now out.old }
    ensures out_after { out.new ≡ after amount ws.now keys.now out.old }
{
    if !in_range(amount, ws, keys) {
        return Err(Refusal::OutOfRange);
    }
    if out.len() < ws.len() {
        return Err(Refusal::ShortBuffer);
    }
    prorate_signed(amount, Weights::of(ws), keys, out);
    Ok(())
}
