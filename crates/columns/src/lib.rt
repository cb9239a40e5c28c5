// Columns of a point-day's users: one number or amount for each user.
#![tactic(auto)]

pub mod shares;

ghost use Rattle.std.specs.Prelude.{◌≡◌, map, ◌++◌, ℕ, ◌≤◌, ◌<◌, nat_abs, length, take, drop};
ghost use Rattle.numbers.specs.Sums.{atZ};
ghost use Rattle.numbers.specs.Lists.{every};
ghost use Rattle.numbers.specs.Amounts.{Within};
ghost use Rattle.point_day.specs.Limits.{AMOUNT};
ghost use Rattle.point_day.specs.Day.{no_more};
ghost use Rattle.columns.specs.Summable.{SUMMABLE};

use point_day::AMOUNT;

// The keys of as many users as there is room for: a user's key in a proration is its number, not its place.
pub fn keys_of(users: &[u16], keys: &mut [u64])
    requires { length keys.old ≤ length users.now }
    ensures { keys.new ≡ take (length keys.old) users.now }
{
    for i in 0..keys.len() {
        keys[i] = u64::from(users[i]);
    }
}

// The sizes of the amounts; later numbers stay.
pub fn sizes_of(amounts: &[i64], sizes: &mut [u64])
    requires { (length amounts.now ≤ length sizes.old) × ((i : ℕ) → Within SUMMABLE (atZ amounts.now i)) }
    ensures { sizes.new ≡ map nat_abs amounts.now ++ drop (length amounts.now) sizes.old }
{
    for i in 0..amounts.len() {
        sizes[i] = amounts[i].unsigned_abs();
    }
}

// Whether every amount is at most the limit in size.
pub fn all_limited(amounts: &[i64]) -> bool
    ensures { result ≡ every (no_more AMOUNT) amounts.now }
{
    numbers::all_limited(amounts, AMOUNT)
}
