// Temperature coefficients as exact fractions, and the means of months and winters that they are made of.
#![tactic(auto)]

ghost use Rattle.std.specs.Prelude.{◌≡◌, true, false, ◌≤◌, length, IfOk, IfErr, IfSome};
ghost use Rattle.numbers.specs.declared.Refusal.TheVariants.{OutOfRange};
ghost use Rattle.numbers.specs.Lists.{every};
ghost use Rattle.temperature.specs.Temperature.{MOST_DEGREES, correction, Sound, MonthMean, sum, divided, MOST_DAYS, is_degrees, mean, winters_mean, winter_right, winters_right};
ghost use Rattle.temperature.specs.Means.{average};
ghost use Rattle.std.proofs.Props.{props};

use numbers::Refusal;

// What is added to degree days on both sides of a correction.
const ADDED: u64 = 160;

// The days of a month.
pub const FEWEST_DAYS: u32 = 28;

pub const MOST_DAYS: u32 = 31;

// The most degree days of a day, in fortieths of a degree.
const MOST_DEGREES: u32 = 2600;

// An exact number.
#[derive(Clone, Copy)]
pub struct Fraction {
    pub top: u64,
    pub bottom: u64,
}

// (g + 160) / (mean + 160), of a mean over no more days than two winters have together.
#[tactic(auto, using(crate::proofs::Fractions::corrects), unfolding(crate::specs::Temperature::correction))]
pub fn correction_of(g: u32, mean: Fraction) -> Fraction
    requires degrees_in_range { g ≤ MOST_DEGREES }
    requires mean_sound { Sound mean }
    ensures { result ≡ correction g mean }
{
    Fraction {
        top: (g as u64 + ADDED) * mean.bottom,
        bottom: mean.top + ADDED * mean.bottom,
    }
}

// The average of two winters' means.
#[tactic(auto, using(crate::proofs::Fractions::cross, crate::proofs::Fractions::bottoms))]
fn average_of(one: Fraction, other: Fraction) -> Fraction
    requires { MonthMean one × MonthMean other }
    ensures { result ≡ divided (sum one other) 2 }
{
    Fraction {
        top: one.top * other.bottom + other.top * one.bottom,
        bottom: one.bottom * other.bottom * 2,
    }
}

// Whether a day's degree days are in their range.
pub fn are_degrees(g: u32) -> bool
    ensures { result ≡ is_degrees g }
{
    g <= MOST_DEGREES
}

// Whether each day's degree days are in their range.
pub fn are_all_degrees(days: &[u32]) -> bool
    ensures { result ≡ every is_degrees days.now }
{
    days.iter().all(|&g| are_degrees(g))
}

// The mean of the degree days of a month.
#[tactic(auto, using(crate::proofs::Chains::total_is_sum), unfolding(crate::specs::Temperature::mean))]
pub fn mean_of(days: &[u32]) -> Fraction
    requires a_month { length days.now ≤ MOST_DAYS }
    requires degrees_in_range { every is_degrees days.now ≡ true }
    ensures { result ≡ mean days.now }
{
    Fraction {
        top: days.iter().map(|&g| g as u64).sum(),
        bottom: days.len() as u64,
    }
}

// Whether a winter's days are as many as a month has, and their degree days in range.
#[tactic(auto, unfolding(crate::specs::Temperature::winter_right))]
fn is_winter(days: &[u32]) -> bool
    ensures { result ≡ winter_right days.now }
{
    (FEWEST_DAYS as usize..=MOST_DAYS as usize).contains(&days.len()) && are_all_degrees(days)
}

// One winter's degree days or two winters', as stated.
#[derive(Clone, Copy)]
pub struct Winters<'a> {
    pub first: &'a [u32],
    pub second: Option<&'a [u32]>,
    pub ghost first_right: { winter_right first.now ≡ true },
    pub ghost second_right: { IfSome second (λ s. winter_right s.now ≡ true) } by { Prim.hlevel props },
}

impl<'a> Winters<'a> {
    // One or two winters, refused if they are not as stated. (The second is looked at if there are two.
    // The count is a number: the call refuses one that is neither, so no type rules it out.)
    #[tactic(auto, unfolding(crate::specs::Temperature::winters_right, crate::specs::Temperature::winters_mean))]
    pub fn of(count: u8, first: &'a [u32], second: &'a [u32]) -> Result<Winters<'a>, Refusal>
        ensures given { IfOk result (λ w. (winters_right count first.now second.now ≡ true) × (average w.first.now w.second ≡ winters_mean count first.now second.now)) }
        ensures refused { IfErr result (λ r. (r ≡ OutOfRange) × (winters_right count first.now second.now ≡ false)) }
    {
        let second = match count {
            1 => None,
            2 => Some(second),
            _ => return Err(Refusal::OutOfRange),
        };
        if !is_winter(first) || !second.is_none_or(is_winter) {
            return Err(Refusal::OutOfRange);
        }
        Ok(Winters { first, second })
    }

    // The average of their means.
    #[tactic(auto, using(crate::proofs::Means::winter_means))]
    pub fn mean(&self) -> Fraction
        ensures { result ≡ average self.now.first.now self.now.second }
    {
        let first = mean_of(self.first);
        match self.second {
            None => first,
            Some(second) => average_of(first, mean_of(second)),
        }
    }
}
