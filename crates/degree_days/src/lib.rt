// The degree days of a day.
#![tactic(auto)]

ghost use Rattle.std.specs.Prelude.{◌≡◌, true, pos};
ghost use Rattle.degree_days.specs.Degrees.{temperatures_right, degree_days, degree_days_call, answer_of};

use numbers::Refusal;

// Temperatures, in tenths of a degree.
const LOWEST: i32 = -500;

const HIGHEST: i32 = 600;

// 15 degrees.
const BASE: i32 = 150;

// Whether a day's temperatures are in their range and in order.
#[tactic(auto, using(std::proofs::lemmas::Int::ints), unfolding(crate::specs::Degrees::temperatures_right))]
fn are_temperatures(tmin: i32, tmax: i32) -> bool
    ensures { result ≡ temperatures_right tmin tmax }
{
    LOWEST <= tmin && tmin <= tmax && tmax <= HIGHEST
}

// The degree days of a day, in fortieths of a degree.
#[tactic(auto, using(std::proofs::lemmas::Int::ints), unfolding(crate::specs::Degrees::temperatures_right, crate::specs::Degrees::degree_days))]
fn fortieths(tmin: i32, tmax: i32) -> u32
    requires { temperatures_right tmin tmax ≡ true }
    ensures { pos result ≡ degree_days tmin tmax }
{
    if BASE <= tmin {
        return 0;
    }
    let cold = BASE.abs_diff(tmin);
    if tmax < BASE {
        return 2 * (cold + BASE.abs_diff(tmax));
    }
    let warm = tmax.abs_diff(BASE);
    if cold < warm {
        return cold;
    }
    2 * cold - warm
}

// The degree days of a day with these lowest and highest temperatures, in fortieths of a degree.
#[tactic(auto, using(std::proofs::lemmas::Int::ints), unfolding(crate::specs::Degrees::degree_days_call, calendar::specs::Answers::tested))]
pub fn degree_days(tmin: i32, tmax: i32) -> Result<u64, Refusal>
    ensures { answer_of result ≡ degree_days_call tmin tmax }
{
    if !are_temperatures(tmin, tmax) {
        return Err(Refusal::OutOfRange);
    }
    Ok(fortieths(tmin, tmax) as u64)
}
