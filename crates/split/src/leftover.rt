// The units left over: one more to each party with fewer than their number before it, through a cut among the remainders.
ghost use Rattle.std.specs.Prelude.{◌≡◌, ℕ, ◌<◌, ◌≤◌, ◌++◌, length, drop};
ghost use Rattle.numbers.specs.Sums.{table, at};
ghost use Rattle.proration.specs.Proration.{LARGEST_AMOUNT, topped};
ghost use Rattle.split.specs.Cut.{cut_at};

use proration::{Parties, Party};
use std::cmp::Ordering;

// Up to so many parties count as few: they need only a small scratch buffer, and ties among them are ranked by counting.
pub const FEW: usize = 8;

// Room for many parties: a point-day's users, or a month's days. (Scratch for a year's days takes longer to clear than to split a month.)
pub const MANY: usize = 64;

// One unit more to each party with fewer than `left` before it, by counting for each.
fn serve_ranked(parties: &Parties, left: u64, shares: &mut [u64])
    requires room { length parties.now.rems.now ≤ length shares.old }
    requires by_index { (i : ℕ) → i < length parties.now.rems.now → at shares.old i ≤ LARGEST_AMOUNT }
    ensures { shares.new ≡ table (topped (at shares.old) (at parties.now.rems.now) (at parties.now.keys.now) left (length parties.now.rems.now)) (length parties.now.rems.now) ++ drop (length parties.now.rems.now) shares.old }
{
    for i in 0..parties.rems.len() {
        let ahead = parties.count_ahead(parties.at(i));
        shares[i] += u64::from(ahead < left);
    }
}

// The functions from here to `cut_key` search for a cut. What they find is tested, so their contracts say little more than that they
// are safe and end. They count by the signs of differences, right for numbers below 2^63: these are summed faster than comparisons.

// 1 if a is less than b, else 0.
fn is_less(a: u64, b: u64) -> u64
    ensures { result ≤ 1 }
{
    a.wrapping_sub(b) >> 63
}

// 1 if the party has the cut's remainder and a key below the cut's, else 0.
fn is_tied(party: Party, cut: Party) -> u64
    ensures { result ≤ 1 }
{
    let same = (party.rem ^ cut.rem).wrapping_sub(1);
    (same & party.key.wrapping_sub(cut.key)) >> 63
}

// How many remainders are above x.
fn count_above(rems: &[u64], x: u64) -> u64
    ensures { result ≤ length rems.now }
{
    let mut count: u64 = 0;
    for &r in rems {
        count += is_less(x, r);
    }
    count
}

// How many parties have the cut's remainder and a key below the cut's.
fn count_tied(parties: &Parties, cut: Party) -> u64
    ensures { result ≤ length parties.now.rems.now }
{
    let mut count: u64 = 0;
    for j in 0..parties.rems.len() {
        count += is_tied(parties.at(j), cut);
    }
    count
}

// A number from `low` to `high` that compares as equal, by halving; where none does, the one at which the answer turns. (A loop by hand:
// what is searched is no list, but the numbers between two bounds.)
fn halve<F: Fn(u64) -> Ordering>(low: u64, high: u64, compare: F) -> u64
    requires { F.IsAlwaysCallable compare }
{
    let mut low = low;
    let mut high = high;
    while low < high {
        let middle = low + (high - low) / 2;
        match compare(middle) {
            Ordering::Equal => return middle,
            Ordering::Less => low = middle + 1,
            Ordering::Greater => high = middle,
        }
    }
    low
}

// A remainder with `left` remainders above it, by trying each; where equal remainders stand at that place, 0.
fn cut_of_few(rems: &[u64], left: u64) -> u64 {
    rems.iter()
        .copied()
        .find(|&x| count_above(rems, x) == left)
        .unwrap_or(0)
}

// A number with `left` remainders above it; where equal remainders stand at that place, these.
fn cut_of_many(rems: &[u64], left: u64) -> u64 {
    let least = rems.iter().copied().fold(u64::MAX, u64::min);
    let largest = rems.iter().copied().fold(0, u64::max);
    halve(least, largest, |x| left.cmp(&count_above(rems, x)))
}

// The key of the party of the remainder x that has `nth` of that remainder before it by their places; the largest number if there is
// none.
fn key_by_place(parties: &Parties, x: u64, nth: u64) -> u64 {
    let mut more = nth;
    for (&r, &key) in parties.rems.iter().zip(parties.keys) {
        if r == x {
            if more == 0 {
                return key;
            }
            more -= 1;
        }
    }
    u64::MAX
}

// A key with `nth` parties of the remainder x before it, by halving.
fn key_by_halving(parties: &Parties, x: u64, nth: u64) -> u64 {
    let largest = parties.keys.iter().copied().fold(0, u64::max);
    halve(0, largest, |key| {
        count_tied(parties, Party { rem: x, key }).cmp(&nth)
    })
}

// A key with `left` parties before it at the remainder x: by place, where keys rise; else by halving.
fn cut_key(parties: &Parties, x: u64, left: u64) -> u64 {
    let nth = left.wrapping_sub(count_above(parties.rems, x));
    let key = key_by_place(parties, x, nth);
    if count_tied(parties, Party { rem: x, key }) == nth {
        return key;
    }
    key_by_halving(parties, x, nth)
}

// One unit more to each party that is served before the cut. (A loop beside the one of `serve_ranked`: one loop for both would take the
// test as a closure, and the clauses on its calls are longer than the loops.)
fn serve_ahead(parties: &Parties, cut: Party, shares: &mut [u64])
    requires room { length parties.now.rems.now ≤ length shares.old }
    requires by_index { (i : ℕ) → i < length parties.now.rems.now → at shares.old i ≤ LARGEST_AMOUNT }
    ensures { shares.new ≡ table (cut_at (at shares.old) (at parties.now.rems.now) (at parties.now.keys.now) cut.rem cut.key) (length parties.now.rems.now) ++ drop (length parties.now.rems.now) shares.old }
{
    for i in 0..parties.rems.len() {
        shares[i] += u64::from(parties.at(i).goes_before(cut));
    }
}

// One unit more to each party with fewer than `left` before it, where the cut falls among many parties of the remainder x. A cut
// with exactly `left` parties before it tells who is served: one count certifies it, and if it fails, each party's rank is counted.
fn serve_tied(parties: &Parties, x: u64, left: u64, shares: &mut [u64])
    requires room { length parties.now.rems.now ≤ length shares.old }
    requires by_index { (i : ℕ) → i < length parties.now.rems.now → at shares.old i ≤ LARGEST_AMOUNT }
    ensures { shares.new ≡ table (topped (at shares.old) (at parties.now.rems.now) (at parties.now.keys.now) left (length parties.now.rems.now)) (length parties.now.rems.now) ++ drop (length parties.now.rems.now) shares.old }
{
    let tie = Party {
        rem: x,
        key: cut_key(parties, x, left),
    };
    if parties.count_ahead(tie) == left {
        serve_ahead(parties, tie, shares);
    } else {
        serve_ranked(parties, left, shares);
    }
}

// One unit more to each party with fewer than `left` before it, through the cut x among the remainders if it tells them apart.
fn serve_cut(parties: &Parties, x: u64, left: u64, shares: &mut [u64])
    requires room { length parties.now.rems.now ≤ length shares.old }
    requires by_index { (i : ℕ) → i < length parties.now.rems.now → at shares.old i ≤ LARGEST_AMOUNT }
    ensures { shares.new ≡ table (topped (at shares.old) (at parties.now.rems.now) (at parties.now.keys.now) left (length parties.now.rems.now)) (length parties.now.rems.now) ++ drop (length parties.now.rems.now) shares.old }
{
    let cut = Party { rem: x, key: 0 };
    if parties.count_ahead(cut) == left {
        serve_ahead(parties, cut, shares);
        return;
    }
    if parties.rems.len() <= FEW {
        serve_ranked(parties, left, shares);
    } else {
        serve_tied(parties, x, left, shares);
    }
}

// One unit more to each party with fewer than `left` before it. (That shares are at most LARGEST_AMOUNT is asked by each function and is no
// field of a type: it ends with the call that adds to them.)
pub fn serve(parties: &Parties, left: u64, shares: &mut [u64])
    requires room { length parties.now.rems.now ≤ length shares.old }
    requires by_index { (i : ℕ) → i < length parties.now.rems.now → at shares.old i ≤ LARGEST_AMOUNT }
    ensures { shares.new ≡ table (topped (at shares.old) (at parties.now.rems.now) (at parties.now.keys.now) left (length parties.now.rems.now)) (length parties.now.rems.now) ++ drop (length parties.now.rems.now) shares.old }
{
    if left == 0 {
        return;
    }
    let rems = parties.rems;
    let x = if rems.len() <= FEW {
        cut_of_few(rems, left)
    } else {
        cut_of_many(rems, left)
    };
    serve_cut(parties, x, left, shares);
}
