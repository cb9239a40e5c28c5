// Months, the month of a gas day, and the working days of a month.
#![tactic(auto)]

ghost use Rattle.std.specs.Prelude.{◌≡◌, ◌≤◌, ◌<◌};
ghost use Rattle.numbers.specs.Sums.{bit};
ghost use Rattle.calendar.specs.Answers.{answer_of};
ghost use Rattle.calendar.specs.Days.{LAST_DAY};
ghost use Rattle.calendar.specs.DayTypes.{is_working};
ghost use Rattle.months.specs.Months.{FIRST_YEAR, MONTHS, month_days, length_of, month_of, last_year_days};
ghost use Rattle.months.specs.WorkingDays.{MASK_BITS, working_mask, N_lab, month_call};

use calendar::Calendar;
use numbers::Refusal;

// The year of day 0.
const FIRST_YEAR: u32 = 2016;

const MONTHS_OF_A_YEAR: u32 = 12;

// Four years, one of them a leap year.
const CYCLE_DAYS: u32 = 1461;

const CYCLE_MONTHS: u32 = 48;

#[derive(Clone, Copy)]
pub struct Month {
    pub year: u32,
    pub number: u32,
    pub first: u32,
    pub days: u32,
}

// A month: its first day, its days, its working days as a mask, and how many they are.
#[derive(Clone, Copy)]
pub struct MonthFigures {
    pub first: u32,
    pub days: u32,
    pub mask: u32,
    pub working: u32,
}

// The days of a month of a year, January being month 1.
#[tactic(auto, unfolding(crate::specs::Months::month_days, numbers::specs::Lists::has))]
fn days_of_month(year: u32, month: u32) -> u32
    ensures { result ≡ month_days year month }
{
    match month {
        2 => { if year % 4 == 0 { 29 } else { 28 } }
        4 | 6 | 9 | 11 => 30,
        _ => 31,
    }
}

// The days of a month counted from January 2016.
#[tactic(auto, unfolding(crate::specs::Months::length_of))]
fn length_of(n: u32) -> u32
    requires { n < MONTHS }
    ensures { result ≡ length_of n }
{
    days_of_month(FIRST_YEAR + n / MONTHS_OF_A_YEAR, 1 + n % MONTHS_OF_A_YEAR)
}

// The month of a gas day: whole cycles of four years, then month by month. (A `while`: a `for` over the months would need an answer for a
// day that lies in none of them.)
pub fn month_of_day(day: u32) -> Month
    requires { day ≤ LAST_DAY }
    ensures { result ≡ month_of day }
{
    let cycles = day / CYCLE_DAYS;
    let mut first = cycles * CYCLE_DAYS;
    let mut n = cycles * CYCLE_MONTHS;
    let mut days = length_of(n);
    while first + days <= day {
        first += days;
        n += 1;
        days = length_of(n);
    }
    Month {
        year: FIRST_YEAR + n / MONTHS_OF_A_YEAR,
        number: 1 + n % MONTHS_OF_A_YEAR,
        first,
        days,
    }
}

// The days of the same month a year earlier.
pub fn days_last_year(month: Month) -> u32
    requires { FIRST_YEAR ≤ month.year }
    ensures { result ≡ last_year_days month }
{
    days_of_month(month.year - 1, month.number)
}

// 1 if the day is a working day, else 0.
#[tactic(auto, unfolding(calendar::specs::DayTypes::is_working))]
fn working_bit(day: u32, calendar: &Calendar) -> u32
    ensures { result ≡ bit (is_working calendar.now.holidays.now day) }
{
    u32::from(calendar.type_of(day).is_working())
}

// The mask of the working days of a month, bit 0 for its first day. (The form of document 01.)
fn mask_of_month(month: Month, calendar: &Calendar) -> u32
    requires { (month.first ≤ LAST_DAY) × (month.days < MASK_BITS) }
    ensures { result ≡ working_mask calendar.now.holidays.now month }
{
    let mut mask = 0;
    for i in 0..month.days {
        mask += working_bit(month.first + i, calendar) << i;
    }
    mask
}

// N_lab, the working days of a month.
pub fn working_days(month: Month, calendar: &Calendar) -> u32
    requires { (month.first ≤ LAST_DAY) × (month.days < MASK_BITS) }
    ensures { result ≡ N_lab calendar.now.holidays.now month }
{
    mask_of_month(month, calendar).count_ones()
}

// The figures of the month of a gas day.
#[tactic(auto, unfolding(crate::specs::WorkingDays::month_call, calendar::specs::Answers::tested))]
pub fn month_figures(day: u32, holidays: &[u32]) -> Result<MonthFigures, Refusal>
    ensures { answer_of result ≡ month_call day holidays.now }
{
    let calendar = Calendar::of(day, holidays)?;
    let month = month_of_day(day);
    let mask = mask_of_month(month, &calendar);
    Ok(MonthFigures {
        first: month.first,
        days: month.days,
        mask,
        working: mask.count_ones(),
    })
}
