// Gas days, holidays, and the types of days.
#![tactic(auto)]

ghost use Rattle.std.specs.Prelude.{◌≡◌, true, false, IfOk, IfErr};
ghost use Rattle.numbers.specs.declared.Refusal.TheVariants.{OutOfRange};
ghost use Rattle.numbers.specs.Lists.{has, rising};
ghost use Rattle.calendar.specs.Answers.{answer_of};
ghost use Rattle.calendar.specs.Days.{is_gas_day, holidays_right, calendar_right};
ghost use Rattle.calendar.specs.DayTypes.{day_type, is_working_type, type_call};

use numbers::Refusal;

// 31 December 2099.
pub const LAST_DAY: u32 = 30680;

const MOST_HOLIDAYS: usize = 2000;

const WEEK: u32 = 7;

// The days of the week, counted from day 0, a Friday.
const SATURDAY: u32 = 1;

const SUNDAY: u32 = 2;

#[derive(Clone, Copy, Debug, PartialEq, Eq)]
pub enum DayType {
    Working,
    Saturday,
    SundayOrHoliday,
}

// A gas day and the holidays of its calendar, which rise. (Calls take the two apart and make this of them: they refuse wrong ones.)
#[derive(Clone, Copy)]
pub struct Calendar<'a> {
    pub day: u32,
    pub holidays: &'a [u32],
    pub ghost rises: { rising holidays.now ≡ true },
}

// Whether a number is that of a gas day.
pub fn is_gas_day(day: u32) -> bool
    ensures { result ≡ is_gas_day day }
{
    day <= LAST_DAY
}

// Whether each number is above the one before. (No early end: the loop is then done for several numbers at once.)
fn are_rising(numbers: &[u32]) -> bool
    ensures { result ≡ rising numbers.now }
{
    let mut rises = true;
    for i in 1..numbers.len() {
        rises &= numbers[i - 1] < numbers[i];
    }
    rises
}

// Whether the holidays are as stated: not too many, rising, each a gas day. Rising numbers are gas days if the last one is.
#[tactic(auto, unfolding(crate::specs::Days::holidays_right))]
fn are_holidays(holidays: &[u32]) -> bool
    ensures { result ≡ holidays_right holidays.now }
{
    if MOST_HOLIDAYS < holidays.len() || !are_rising(holidays) {
        return false;
    }
    match holidays.last() {
        Some(&last) => is_gas_day(last),
        None => true,
    }
}

// Whether a gas day and holidays are as stated.
#[tactic(auto, unfolding(crate::specs::Days::calendar_right))]
fn is_calendar(day: u32, holidays: &[u32]) -> bool
    ensures { result ≡ calendar_right day holidays.now }
{
    is_gas_day(day) && are_holidays(holidays)
}

impl<'a> Calendar<'a> {
    // A gas day and holidays, refused if they are not as stated.
    pub fn of(day: u32, holidays: &'a [u32]) -> Result<Calendar<'a>, Refusal>
        ensures given { IfOk result (λ c. (c.day ≡ day) × (c.holidays.now ≡ holidays.now) × (calendar_right day holidays.now ≡ true)) }
        ensures refused { IfErr result (λ r. (r ≡ OutOfRange) × (calendar_right day holidays.now ≡ false)) }
    {
        if is_calendar(day, holidays) {
            Ok(Calendar { day, holidays })
        } else {
            Err(Refusal::OutOfRange)
        }
    }

    // Whether a day is a holiday.
    fn is_holiday(&self, day: u32) -> bool
        ensures { result ≡ has day self.now.holidays.now }
    {
        self.holidays.binary_search(&day).is_ok()
    }

    // The type of a day.
    #[tactic(auto, unfolding(crate::specs::DayTypes::day_type))]
    pub fn type_of(&self, day: u32) -> DayType
        ensures { result ≡ day_type self.now.holidays.now day }
    {
        let weekday = day % WEEK;
        if weekday == SUNDAY || self.is_holiday(day) {
            DayType::SundayOrHoliday
        } else if weekday == SATURDAY {
            DayType::Saturday
        } else {
            DayType::Working
        }
    }

    // The type of the gas day.
    pub fn day_type(&self) -> DayType
        ensures { result ≡ day_type self.now.holidays.now self.now.day }
    {
        self.type_of(self.day)
    }
}

impl DayType {
    // Whether it is that of a working day. (A name over the derived equality, for calls that ask just this.)
    pub fn is_working(self) -> bool
        ensures { result ≡ is_working_type self }
    {
        self == DayType::Working
    }
}

// The type of a gas day.
#[tactic(auto, unfolding(crate::specs::DayTypes::type_call, crate::specs::Answers::tested))]
pub fn day_type(day: u32, holidays: &[u32]) -> Result<DayType, Refusal>
    ensures { answer_of result ≡ type_call day holidays.now }
{
    let calendar = Calendar::of(day, holidays)?;
    Ok(calendar.day_type())
}
