// C_d, a day's share of a month's consumption of a Type 1 point.
ghost use Rattle.std.specs.Prelude.{◌≡◌, ◌≤◌, ◌-◌};
ghost use Rattle.numbers.specs.Sums.{pick};
ghost use Rattle.calendar.specs.Answers.{answer_of};
ghost use Rattle.supply.specs.Amounts.{THOUSAND};
ghost use Rattle.type_1.specs.MonthConsumption.{SmallBasis};
ghost use Rattle.type_1.specs.DayShare.{day_of, MOST_DIVISOR};

use numbers::Refusal;
use supply::THOUSAND;
use temperature::Fraction;

// C_d: a part of C_m over a divisor, rounded once.
#[tactic(auto, unfolding(crate::specs::DayShare::day_of))]
pub fn day_of_month(basis: Option<Fraction>, part: u64, divisor: u64) -> Result<u64, Refusal>
    requires basis_small { SmallBasis basis }
    requires part_small { part ≤ THOUSAND }
    requires divisor_in_range { (1 ≤ divisor) × (divisor ≤ MOST_DIVISOR) }
    ensures { answer_of result ≡ day_of basis part divisor }
{
    let m = basis.ok_or(Refusal::NoBasis)?;
    supply::limited_to(numbers::nearest(part * m.top, m.bottom * divisor))
}

// What the working days have of a whole, or what is left to the others.
pub fn share_of(working: bool, whole: u64, of_working: u64) -> u64
    requires { of_working ≤ whole }
    ensures { result ≡ pick working of_working (whole - of_working) }
{
    if working {
        of_working
    } else {
        whole - of_working
    }
}
