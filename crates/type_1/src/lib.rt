// Type 1 points: a month's consumption, shared out over its days.
#![tactic(auto)]

mod day_share;
mod month_consumption;

ghost use Rattle.std.specs.Prelude.{◌≡◌, ◌≤◌, leb};
ghost use Rattle.numbers.specs.Lists.{both};
ghost use Rattle.calendar.specs.Days.{LAST_DAY};
ghost use Rattle.calendar.specs.Answers.{answer_of};
ghost use Rattle.supply.specs.Amounts.{THOUSAND, MOST_C_c, amount_right};
ghost use Rattle.type_1.specs.Type1.{last_days_right, toll_34_right, toll_34, other_toll};

use calendar::Calendar;
use numbers::Refusal;
use supply::THOUSAND;

// The most of C_c, in ten-thousandths.
const MOST_C_C: u32 = 30000;

// What is given for a point of toll 3.4: the gas day, the same month last year, the gas day's degree days and those of last year's month, the
// last month, Q_a.
#[derive(Clone, Copy)]
pub struct Toll34<'a> {
    pub day: u32,
    pub last_year: Option<u64>,
    pub g: u32,
    pub last_days: &'a [u32],
    pub last_month: Option<u64>,
    pub year_flow: Option<u64>,
}

// What is given for a point of another toll: the gas day and the holidays, the same month last year, C_c, the last month, Q_d, f_c, C_f.
#[derive(Clone, Copy)]
pub struct OtherToll<'a> {
    pub day: u32,
    pub holidays: &'a [u32],
    pub last_year: Option<u64>,
    pub c_c: u32,
    pub last_month: Option<u64>,
    pub day_flow: Option<u64>,
    pub f_c: u32,
    pub c_f: u32,
}

// Whether three amounts are in their range, or missing.
fn are_amounts(one: Option<u64>, two: Option<u64>, three: Option<u64>) -> bool
    ensures { result ≡ both (amount_right one) (both (amount_right two) (amount_right three)) }
{
    supply::is_amount(one) && supply::is_amount(two) && supply::is_amount(three)
}

// Whether there are as many degree days as the same month a year earlier has days, each in its range.
#[tactic(auto, using(months::proofs::Months::month_holds), unfolding(crate::specs::Type1::last_days_right))]
fn are_last_days(day: u32, last_days: &[u32]) -> bool
    requires { day ≤ LAST_DAY }
    ensures { result ≡ last_days_right day last_days.now }
{
    let month = months::month_of_day(day);
    last_days.len() == months::days_last_year(month) as usize
        && temperature::are_all_degrees(last_days)
}

// Whether the coefficients of the other tolls are in their ranges.
fn are_coefficients(c_c: u32, f_c: u32, c_f: u32) -> bool
    ensures { result ≡ both (leb c_c MOST_C_c) (both (leb f_c THOUSAND) (leb c_f THOUSAND)) }
{
    c_c <= MOST_C_C && f_c as u64 <= THOUSAND && c_f as u64 <= THOUSAND
}

impl Toll34<'_> {
    // Whether everything that is given is in its range.
    #[tactic(auto, unfolding(crate::specs::Type1::toll_34_right))]
    fn is_right(&self) -> bool
        ensures { result ≡ toll_34_right self.now.day self.now.last_year self.now.g self.now.last_days.now self.now.last_month self.now.year_flow }
    {
        calendar::is_gas_day(self.day)
            && are_amounts(self.last_year, self.last_month, self.year_flow)
            && temperature::are_degrees(self.g)
            && are_last_days(self.day, self.last_days)
    }
}

// The consumption of a Type 1 point of toll 3.4 on a gas day with g degree days.
#[tactic(auto, using(crate::proofs::Tolls::for_34), unfolding(crate::specs::Type1::toll_34, crate::specs::Type1::toll_34_right, calendar::specs::Answers::tested))]
pub fn toll_34(point: &Toll34) -> Result<u64, Refusal>
    ensures { answer_of result ≡ toll_34 point.now.day point.now.last_year point.now.g point.now.last_days.now point.now.last_month point.now.year_flow }
{
    if !point.is_right() {
        return Err(Refusal::OutOfRange);
    }
    let mean = temperature::mean_of(point.last_days);
    let correction = temperature::correction_of(point.g, mean);
    let basis = month_consumption::month_of_34(
        point.last_year,
        correction,
        point.last_month,
        point.year_flow,
    );
    let month = months::month_of_day(point.day);
    day_share::day_of_month(basis, 1, month.days as u64)
}

// The consumption of a Type 1 point of another toll on a gas day: working days share C_f of the month's, the others the rest.
#[tactic(auto, using(crate::proofs::Tolls::for_other), unfolding(crate::specs::Type1::other_toll, crate::specs::Type1::other_right, calendar::specs::Answers::tested, calendar::specs::DayTypes::is_working, months::specs::WorkingDays::N_res))]
pub fn other_toll(point: &OtherToll) -> Result<u64, Refusal>
    ensures { answer_of result ≡ other_toll point.now.day point.now.holidays.now point.now.last_year point.now.c_c point.now.last_month point.now.day_flow point.now.f_c point.now.c_f }
{
    let calendar = Calendar::of(point.day, point.holidays)?;
    if !are_amounts(point.last_year, point.last_month, point.day_flow)
        || !are_coefficients(point.c_c, point.f_c, point.c_f)
    {
        return Err(Refusal::OutOfRange);
    }
    let month = months::month_of_day(point.day);
    let basis = month_consumption::month_of_other(
        point.last_year,
        point.c_c,
        point.last_month,
        point.day_flow,
        point.f_c,
        month.days,
    );
    let working = calendar.day_type().is_working();
    let part = day_share::share_of(working, THOUSAND, point.c_f as u64);
    let lab = months::working_days(month, &calendar);
    let days = day_share::share_of(working, month.days as u64, lab as u64);
    day_share::day_of_month(basis, part, THOUSAND * days)
}
