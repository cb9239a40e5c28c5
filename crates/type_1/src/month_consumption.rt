// C_m, a month's consumption of a Type 1 point.
ghost use Rattle.std.specs.Prelude.{◌≡◌, true, ◌≤◌};
ghost use Rattle.temperature.specs.Temperature.{MOST_DAYS, Corrects};
ghost use Rattle.supply.specs.Amounts.{THOUSAND, MOST_C_c, amount_right};
ghost use Rattle.type_1.specs.MonthConsumption.{month_34, month_other};

use supply::THOUSAND;
use temperature::Fraction;

// The months that a yearly flow is divided by.
const MONTHS_OF_A_YEAR: u64 = 12;

// The parts of C_c.
const TEN_THOUSAND: u64 = 10000;

// C_m of toll 3.4: last year's month corrected, or the last month, or a twelfth of the yearly flow.
#[tactic(auto, unfolding(crate::specs::MonthConsumption::month_34))]
pub fn month_of_34(
    last_year: Option<u64>,
    correction: Fraction,
    last_month: Option<u64>,
    year_flow: Option<u64>,
) -> Option<Fraction>
    requires { (amount_right last_year ≡ true) × Corrects correction }
    ensures { result ≡ month_34 last_year correction last_month year_flow }
{
    match (last_year, last_month, year_flow) {
        (Some(v), _, _) => Some(Fraction {
            top: v * correction.top,
            bottom: correction.bottom,
        }),
        (None, Some(v), _) => Some(Fraction { top: v, bottom: 1 }),
        (None, None, Some(q)) => Some(Fraction {
            top: q,
            bottom: MONTHS_OF_A_YEAR,
        }),
        (None, None, None) => None,
    }
}

// C_m of the other tolls: last year's month times C_c, or the last month, or the daily flow for the month's days. (Beside
// `month_of_34`: two of the three fractions differ, and each stands as its definition does.)
#[tactic(auto, unfolding(crate::specs::MonthConsumption::month_other))]
pub fn month_of_other(
    last_year: Option<u64>,
    c_c: u32,
    last_month: Option<u64>,
    day_flow: Option<u64>,
    f_c: u32,
    days: u32,
) -> Option<Fraction>
    requires { (amount_right last_year ≡ true) × (amount_right day_flow ≡ true) × (c_c ≤ MOST_C_c) × (f_c ≤ THOUSAND) × (days ≤ MOST_DAYS) }
    ensures { result ≡ month_other last_year c_c last_month day_flow f_c days }
{
    match (last_year, last_month, day_flow) {
        (Some(v), _, _) => Some(Fraction {
            top: v * c_c as u64,
            bottom: TEN_THOUSAND,
        }),
        (None, Some(v), _) => Some(Fraction { top: v, bottom: 1 }),
        (None, None, Some(q)) => Some(Fraction {
            top: q * f_c as u64 * days as u64,
            bottom: THOUSAND,
        }),
        (None, None, None) => None,
    }
}
