// The nearest of a fraction, signed amounts and their sums, numbers that stand twice, and the numbers of refusals.
#![tactic(auto)]

pub mod distinct;
mod marks;

ghost use Rattle.numbers.specs.Refusals.{Numbers};
ghost use Rattle.std.specs.Prelude.{◌≡◌, false, not, ℕ, ◌≤◌, ◌<◌, leb, pos, nat_abs, ◌+ℤ◌, ◌-ℤ◌, length, replicate};
ghost use Rattle.numbers.specs.Sums.{atZ, totalZ};
ghost use Rattle.numbers.specs.Amounts.{SAFE, Within, Between, Decides, is_negative, signed};
ghost use Rattle.numbers.specs.Lists.{every};
ghost use Rattle.numbers.specs.Nearest.{nearest};

// ---- the table of document 01, section "Refusals", and the rows that document 02 adds

// A refusal; its number is the documents'.
#[derive(Clone, Copy, Debug, PartialEq, Eq)]
pub enum Refusal {
    // "the stage doesn't take the call, or a stand-in finds a user joined"
    WrongStage = 1,

    // "a value or list outside its stated range"
    OutOfRange = 2,

    // "line for a user not joined"
    NotJoined = 3,

    // "user already joined"
    AlreadyJoined = 4,

    // "all 64 users joined"
    AllJoined = 5,

    // "point-day sum, or a computed consumption, above 1,000,000,000; Type 2 product above 10^12 Wh"
    AboveLimit = 6,

    // "allot or stand-in unmeasured"
    Unmeasured = 7,

    // "allot with no user"
    NoUser = 8,

    // "stand-in with net at most 100"
    NetTooLow = 9,

    // "no pair in fifteen rows"
    NoPair = 10,

    // "a weight is negative (revise outside tolerance, stand-in, reading split)"
    NegativeWeight = 11,

    // "a whole amount would pass 2,000,000,000 in size"
    AmountTooLarge = 12,

    // "day file malformed"
    Malformed = 13,

    // "lent buffer under five numbers a row (inventory) or one a day (reading split)"
    ShortBuffer = 14,

    // "no basis for an estimate"
    NoBasis = 15,

    // "length is none of the three, or arrival exceeds it" (document 02, Req 01)
    WrongArrival = 16,
}

impl From<Refusal> for u8 {
    ghost from_gives = { Numbers };

    fn from(refusal: Refusal) -> u8 {
        refusal as u8
    }
}

// ---- numbers

// An array of one value. (A call, so that no proof above sees its elements one by one.)
pub fn repeat<T: Copy, const N: usize>(x: T) -> [T; N]
    ensures { result ≡ replicate N x }
{
    [x; N]
}

// The nearest of n / d, halves up. By quotient and remainder: nothing is doubled or added that could overflow.
pub fn nearest(n: u64, d: u64) -> u64
    requires { 0 < d }
    ensures { result ≡ nearest n d }
{
    let q = n / d;
    let r = n % d;
    if r < d - r {
        return q;
    }
    q + 1
}

// The size with a sign.
pub fn with_sign(negative: bool, size: u64) -> i64
    requires { size ≤ SAFE }
    ensures { result ≡ signed negative size }
{
    let size = size as i64;
    if negative { -size } else { size }
}

// Whether x is at most `limit` in size. Any x will do, also the least of 64 bits.
pub fn size_at_most(x: i64, limit: u64) -> bool
    ensures { result ≡ leb (nat_abs x) limit }
{
    x.unsigned_abs() <= limit
}

// Whether every amount is at most `limit` in size. (A loop without an early end, which is faster.)
pub fn all_limited(xs: &[i64], limit: u64) -> bool
    ensures { result ≡ every (λ x. leb (nat_abs x) limit) xs.now }
{
    let mut limited = true;
    for &x in xs {
        limited &= size_at_most(x, limit);
    }
    limited
}

// The sum of two amounts. (A call, so that a proof above reads the sum and not its 64 bits.)
pub fn plus(x: i64, y: i64) -> i64
    requires { Within SAFE x × Within SAFE y }
    ensures { result ≡ x +ℤ y }
{
    x + y
}

// The difference of two amounts. (A call, for the same reason.)
pub fn minus(x: i64, y: i64) -> i64
    requires { Within SAFE x × Within SAFE y }
    ensures { result ≡ x -ℤ y }
{
    x - y
}

// Whether an amount is below 0.
pub fn any_negative(xs: &[i64]) -> bool
    ensures { result ≡ not (every (λ x. not (is_negative x)) xs.now) }
{
    xs.iter().any(|x| x.is_negative())
}

// The sum of up to a million amounts of at most 10^12 in size. (A loop: a signed `sum` has no bound that a proof could use.)
pub fn sum_of(xs: &[i64]) -> i64
    requires { (length xs.now ≤ 1000000) × ((i : ℕ) → Within 1000000000000 (atZ xs.now i)) }
    ensures { result ≡ totalZ xs.now }
{
    let mut s: i64 = 0;
    for x in xs {
        s += x;
    }
    s
}

// Whether every amount from a place on lies in low to high. (A loop: the contract speaks of places, and a chain of items.)
pub fn all_between(xs: &[i64], from: usize, low: i64, high: i64) -> bool
    ensures { Decides result ((i : ℕ) → from ≤ i → i < length xs.now → Between low high (atZ xs.now i)) }
{
    for i in from..xs.len() {
        if xs[i] < low || high < xs[i] {
            return false;
        }
    }
    true
}

// Whether every amount from a place on is 0: their bits are gathered, and tested once. (A loop without an early end, which is faster.)
pub fn all_zero(xs: &[i64], from: usize) -> bool
    ensures { Decides result ((i : ℕ) → from ≤ i → i < length xs.now → Between (pos 0) (pos 0) (atZ xs.now i)) }
{
    let mut bits: i64 = 0;
    for i in from..xs.len() {
        bits |= xs[i];
    }
    bits == 0
}
