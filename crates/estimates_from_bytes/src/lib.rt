// Calls on supply points, readings and the calendar from bytes: an operation is a byte and its arguments, little-endian; what each call
// answers is printed. A call's function here answers Malformed where its arguments can't be read, and else what the call answers.
#![tactic(auto)]

ghost use Rattle.std.specs.Prelude.{◌≡◌, length, IsOk};
ghost use Rattle.console.specs.Input.{Onward};

use calendar::DayType;
use console::input::{Input, MOST_LENT, Malformed, Number, at_most, lent_numbers};
use console::{OnwardProgram, Stop, output};
use months::MonthFigures;
use numbers::Refusal;
use std::io::{Read, Write};
use std::{fmt, io};
use supply::{Flows, Toll};
use type_1::{OtherToll, Toll34};
use type_2::Year;
use values_from_bytes::{
    pass_winter, read_history, read_list, read_optional, read_own, read_winter,
};

// The most holidays and degree days of a list, and the most lists of winters that are read.
const MOST_HOLIDAYS: usize = 4000;

const MOST_DEGREE_DAYS: usize = 255;

const MOST_WINTERS: usize = 8;

// Two numbers of an answer.
#[derive(Clone, Copy)]
struct Two(u64, u64);

impl fmt::Display for Two {
    fn fmt<W: fmt::Write>(&self, f: &mut fmt::Formatter<W>) -> fmt::Result {
        write!(f, "{} {}", self.0, self.1)
    }
}

// ---- telemetered

fn read_toll(input: &mut Input) -> Result<Toll, Malformed>
    ensures { Onward input.old input.new }
{
    if input.flag()? {
        Ok(Toll::Toll34)
    } else {
        Ok(Toll::OtherToll)
    }
}

fn read_flows(input: &mut Input) -> Result<Flows, Malformed>
    ensures { Onward input.old input.new }
{
    Ok(Flows {
        toll: read_toll(input)?,
        yearly: read_optional(input)?,
        daily: read_optional(input)?,
        factor: u32::read(input)?,
    })
}

fn telemetered(input: &mut Input) -> Result<Result<Two, Refusal>, Malformed>
    ensures { Onward input.old input.new }
{
    let mut room = numbers::repeat::<_, MOST_HOLIDAYS>(0);
    let day = u32::read(input)?;
    let holidays = read_list::<u16, u32>(input, &mut room)?;
    let reading = read_optional(input)?;
    let own = read_own(input)?;
    let flows = read_flows(input)?;
    let count = u16::read(input)?;
    let history = read_history(input, count)?;
    let answer = telemetered::telemetered(
        day,
        holidays,
        reading,
        own,
        flows,
        history,
        count.into(),
    );
    Ok(answer.map(|estimate| Two(estimate.kwh, estimate.looked as u64)))
}

// ---- Type 1 and Type 2

fn toll_34(input: &mut Input) -> Result<Result<u64, Refusal>, Malformed>
    ensures { Onward input.old input.new }
{
    let mut room = numbers::repeat::<_, MOST_DEGREE_DAYS>(0);
    let point = Toll34 {
        day: u32::read(input)?,
        last_year: read_optional(input)?,
        g: u32::read(input)?,
        last_days: read_list::<u8, u32>(input, &mut room)?,
        last_month: read_optional(input)?,
        year_flow: read_optional(input)?,
    };
    Ok(type_1::toll_34(&point))
}

fn other_toll(input: &mut Input) -> Result<Result<u64, Refusal>, Malformed>
    ensures { Onward input.old input.new }
{
    let mut room = numbers::repeat::<_, MOST_HOLIDAYS>(0);
    let point = OtherToll {
        day: u32::read(input)?,
        holidays: read_list::<u16, u32>(input, &mut room)?,
        last_year: read_optional(input)?,
        c_c: u32::read(input)?,
        last_month: read_optional(input)?,
        day_flow: read_optional(input)?,
        f_c: u32::read(input)?,
        c_f: u32::read(input)?,
    };
    Ok(type_1::other_toll(&point))
}

fn type_2(input: &mut Input) -> Result<Result<u64, Refusal>, Malformed>
    ensures { Onward input.old input.new }
{
    let mut first_room = numbers::repeat::<_, MOST_DEGREE_DAYS>(0);
    let mut second_room = numbers::repeat::<_, MOST_DEGREE_DAYS>(0);
    let consumers = u32::read(input)?;
    let profile = u64::read(input)?;
    let g = u32::read(input)?;
    let winters = u8::read(input)?;
    at_most(winters.into(), MOST_WINTERS)?;
    let first = read_winter(input, 0 < winters, &mut first_room)?;
    let second = read_winter(input, 1 < winters, &mut second_room)?;
    for _ in 2..winters {
        pass_winter(input)?;
    }
    Ok(type_2::type_2(consumers, profile, g, winters, first, second))
}

fn profile(input: &mut Input) -> Result<Result<u64, Refusal>, Malformed>
    ensures { Onward input.old input.new }
{
    let f1 = u64::read(input)?;
    let f2 = u64::read(input)?;
    let nc1 = u32::read(input)?;
    let nc2 = u32::read(input)?;
    let n1 = u32::read(input)?;
    let n2 = u32::read(input)?;
    let one = Year {
        consumption: f1,
        consumers: nc1,
        days: n1,
    };
    let two = Year {
        consumption: f2,
        consumers: nc2,
        days: n2,
    };
    Ok(type_2::profile(one, two))
}

// ---- degree days, zones and provinces

fn degree_days(input: &mut Input) -> Result<Result<u64, Refusal>, Malformed>
    ensures { Onward input.old input.new }
{
    let tmin = i32::read(input)?;
    let tmax = i32::read(input)?;
    Ok(degree_days::degree_days(tmin, tmax))
}

fn zone(input: &mut Input) -> Result<Result<u64, Refusal>, Malformed>
    ensures { Onward input.old input.new }
{
    let hundredths = u32::read(input)?;
    Ok(zones::zone_of(hundredths))
}

fn province(input: &mut Input) -> Result<Result<Two, Refusal>, Malformed>
    ensures { Onward input.old input.new }
{
    let number = u32::read(input)?;
    let answer = zones::province_of(number);
    Ok(answer.map(|province| Two(province.mean.into(), province.zone.into())))
}

// ---- spreading a reading

// The answer, and the lent numbers after it.
fn print_spread<W: Write>(
    out: &mut W,
    reading: u64,
    weights: &[i64],
    lent: &mut [i64],
) -> io::Result<()> {
    match spread::spread(reading, weights, lent) {
        Ok(()) => write!(out, "spread")?,
        Err(refusal) => output::refusal(out, refusal)?,
    }
    output::amounts(out, lent)
}

fn spread<W: Write>(out: &mut W, input: &mut Input) -> Result<(), Stop>
    ensures { Onward input.old input.new }
{
    let mut room = numbers::repeat::<_, MOST_LENT>(0);
    let reading = u64::read(input)?;
    let weights = read_list::<u16, i64>(input, &mut room)?;
    let count = u16::read(input)?;
    let n = at_most(count.into(), MOST_LENT)?;
    let mut lent = lent_numbers();
    print_spread(out, reading, weights, &mut lent[..n])?;
    Ok(())
}

// ---- calendar

fn name_of(day_type: DayType) -> &'static str {
    match day_type {
        DayType::Working => "working",
        DayType::Saturday => "saturday",
        DayType::SundayOrHoliday => "sunday",
    }
}

fn day_type(input: &mut Input) -> Result<Result<&'static str, Refusal>, Malformed>
    ensures { Onward input.old input.new }
{
    let mut room = numbers::repeat::<_, MOST_HOLIDAYS>(0);
    let day = u32::read(input)?;
    let holidays = read_list::<u16, u32>(input, &mut room)?;
    Ok(calendar::day_type(day, holidays).map(name_of))
}

// A month's numbers.
#[derive(Clone, Copy)]
struct Figures(MonthFigures);

impl fmt::Display for Figures {
    fn fmt<W: fmt::Write>(&self, f: &mut fmt::Formatter<W>) -> fmt::Result {
        let MonthFigures {
            first,
            days,
            mask,
            working,
        } = self.0;
        write!(f, "{first} {days} {mask} {working}")
    }
}

fn month(input: &mut Input) -> Result<Result<Figures, Refusal>, Malformed>
    ensures { Onward input.old input.new }
{
    let mut room = numbers::repeat::<_, MOST_HOLIDAYS>(0);
    let day = u32::read(input)?;
    let holidays = read_list::<u16, u32>(input, &mut room)?;
    Ok(months::month_figures(day, holidays).map(Figures))
}

// ---- the operations

#[derive(Clone, Copy)]
struct Estimates;

impl OnwardProgram for Estimates {
    // (A match on the byte: an enum of the operations would be a second table of them, read here alone.)
    fn step<W: Write>(&mut self, out: &mut W, input: &mut Input) -> Result<(), Stop> {
        match u8::read(input)? {
            1 => output::answer(out, "telemetered", telemetered(input)?)?,
            2 => output::answer(out, "type1", toll_34(input)?)?,
            3 => output::answer(out, "type1", other_toll(input)?)?,
            4 => output::answer(out, "type2", type_2(input)?)?,
            5 => output::answer(out, "profile", profile(input)?)?,
            6 => output::answer(out, "degree-days", degree_days(input)?)?,
            7 => output::answer(out, "zone", zone(input)?)?,
            8 => output::answer(out, "province", province(input)?)?,
            9 => spread(out, input)?,
            10 => output::answer(out, "day-type", day_type(input)?)?,
            11 => output::answer(out, "month", month(input)?)?,
            _ => return Err(Stop::Malformed),
        }
        Ok(())
    }
}

// The operations one after the other, from bytes of any length; where there are no bytes nothing is printed.
pub fn run<W: Write>(out: &mut W, bytes: &[u8]) -> io::Result<()>
    ensures { length bytes.now ≡ 0 → IsOk result × (out.new ≡ out.old) }
{
    console::run_bytes(&mut Estimates, out, bytes)
}

// The same from all of an input.
pub fn run_input<R: Read, W: Write>(input: &mut R, out: &mut W) -> io::Result<()> {
    console::run(&mut Estimates, input, out)
}
