// Type 2 consumers: their consumption by a profile, and profiles.
#![tactic(auto)]

ghost use Rattle.std.specs.Prelude.{◌≡◌};
ghost use Rattle.calendar.specs.Answers.{answer_of};
ghost use Rattle.type_2.specs.Type2.{type_2, year_right, profile};

use numbers::Refusal;
use temperature::{FEWEST_DAYS, MOST_DAYS, Winters};

const MOST_CONSUMERS: u32 = 10000000;

// The most Wh of a profile, and of consumers times profile.
const MOST_PROFILE: u64 = 1000000000000;

const MOST_PRODUCT: u64 = 1000000000000;

// The most of a month's consumption that a profile is made of.
const MOST_MONTH: u64 = 1000000000000;

// The Wh of a kWh.
const KILO: u64 = 1000;

// The consumption of Type 2 consumers of one profile, on a gas day with g degree days, after one or two winters. (How many goes
// by number: the call itself refuses one that is neither 1 nor 2.)
#[tactic(auto, using(crate::proofs::Products::corrected), unfolding(crate::specs::Type2::type_2, crate::specs::Type2::type_2_right, calendar::specs::Answers::tested))]
pub fn type_2(
    consumers: u32,
    profile: u64,
    g: u32,
    winters: u8,
    first: &[u32],
    second: &[u32],
) -> Result<u64, Refusal>
    ensures { answer_of result ≡ type_2 consumers profile g winters first.now second.now }
{
    if MOST_CONSUMERS < consumers || MOST_PROFILE < profile || !temperature::are_degrees(g) {
        return Err(Refusal::OutOfRange);
    }
    let winters = Winters::of(winters, first, second)?;
    let product = consumers as u64 * profile;
    if MOST_PRODUCT < product {
        return Err(Refusal::AboveLimit);
    }
    let correction = temperature::correction_of(g, winters.mean());
    supply::limited_to(numbers::nearest(product * correction.top, correction.bottom * KILO))
}

// One year's figures of a profile: a month's consumption, consumers and days.
#[derive(Clone, Copy)]
pub struct Year {
    pub consumption: u64,
    pub consumers: u32,
    pub days: u32,
}

impl Year {
    // Whether the figures are in their ranges.
    #[tactic(auto, unfolding(crate::specs::Type2::year_right))]
    fn is_right(self) -> bool
        ensures { result ≡ year_right self.consumption self.consumers self.days }
    {
        self.consumption <= MOST_MONTH
            && self.consumers <= MOST_CONSUMERS
            && (FEWEST_DAYS..=MOST_DAYS).contains(&self.days)
    }
}

// The profile of a month, from its figures in two years.
#[tactic(auto, using(crate::proofs::Products::product_positive), unfolding(crate::specs::Type2::profile, crate::specs::Type2::year_right, calendar::specs::Answers::tested))]
pub fn profile(one: Year, two: Year) -> Result<u64, Refusal>
    ensures { answer_of result ≡ profile one.consumption two.consumption one.consumers two.consumers one.days two.days }
{
    if !one.is_right() || !two.is_right() {
        return Err(Refusal::OutOfRange);
    }
    let consumers = one.consumers as u64 + two.consumers as u64;
    if consumers == 0 {
        return Err(Refusal::NoBasis);
    }
    let days = one.days as u64 + two.days as u64;
    Ok(numbers::nearest(KILO * (one.consumption + two.consumption), consumers * days))
}
