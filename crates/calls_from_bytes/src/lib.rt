// Calls on one point-day from bytes: an operation is a byte and its arguments, little-endian; what each call answers is printed.
#![tactic(auto)]

ghost use Rattle.std.specs.Prelude.{◌≡◌, true, ◌<◌, length, IsOk};
ghost use Rattle.point_day.specs.Limits.{USERS};
ghost use Rattle.point_day.specs.Day.{measurement_right};
ghost use Rattle.point_day.specs.Struct.{taken};
ghost use Rattle.console.specs.Input.{Onward};

use console::input::{Input, MOST_LENT, Number, at_most, lent_numbers};
use console::{OnwardProgram, Stop, output};
use day_report::REPORT_ROOM;
use point_day::{Accepted, Answer, KINDS, Measurement, Outcome, PointDay, Stage};
use std::io;
use std::io::{Read, Write};

// ---- a call's outcome

// The refusal, or the call's name and its value.
fn print_answer<W: Write>(out: &mut W, name: &str, answer: Answer) -> io::Result<()> {
    match answer {
        Err(refusal) => output::refusal(out, refusal)?,
        Ok(Accepted::Done) => write!(out, "{name}")?,
        Ok(Accepted::LossesAdded(kwh)) => write!(out, "{name} {kwh}")?,
        Ok(Accepted::RowsLookedAt(rows)) => write!(out, "{name} {rows}")?,
        Ok(Accepted::WithinTolerance(r)) => write!(out, "within {r}")?,
        Ok(Accepted::RevisionAssigned(r)) => write!(out, "{name} {r}")?,
    }
    writeln!(out)
}

// ---- show

fn stage_name(stage: Stage) -> &'static str {
    match stage {
        Stage::Provisional => "provisional",
        Stage::FinalProvisional => "final-provisional",
        Stage::FinalDefinitive => "final-definitive",
    }
}

fn print_measurement<W: Write>(out: &mut W, measurement: Option<Measurement>) -> io::Result<()>
    requires { measurement_right measurement ≡ true }
{
    match measurement {
        None => writeln!(out, " unmeasured"),
        Some(_) => writeln!(out, " net {}", state::net(measurement)),
    }
}

// A user's number, and consumption, losses and balance of each kind; then the revision.
fn print_user<W: Write>(out: &mut W, day: &PointDay, slot: usize) -> io::Result<()>
    requires { slot < USERS }
{
    write!(out, "user {}", day.users[slot])?;
    for cell in KINDS * slot..KINDS * slot + KINDS {
        write!(
            out,
            " {} {} {}",
            day.consumption[cell], day.losses[cell], day.balance[cell]
        )?;
    }
    writeln!(out, " {}", day.revision[slot])
}

// A point-day that is taken.
fn print_taken<W: Write>(out: &mut W, day: &PointDay) -> io::Result<()>
    requires { taken day.now ≡ true }
{
    let stage = stage_name(day.stage);
    let entered = if day.allotted { "allotted" } else { "entering" };
    write!(out, "day {stage} {entered} {}", day.count)?;
    print_measurement(out, day.measurement)?;
    for slot in 0..day.count {
        print_user(out, day, slot)?;
    }
    Ok(())
}

fn print_day<W: Write>(out: &mut W, day: &PointDay) -> io::Result<()> {
    match taken::test_day(day) {
        Ok(_) => print_taken(out, day),
        Err(refusal) => {
            output::refusal(out, refusal)?;
            writeln!(out)
        }
    }
}

// ---- inventory and day file

// The answer, and the lent numbers after it.
fn print_inventory<W: Write>(out: &mut W, day: PointDay, lent: &mut [i64]) -> io::Result<()> {
    match inventory::inventory(day, lent) {
        Ok(rows) => write!(out, "inventory {rows}")?,
        Err(refusal) => output::refusal(out, refusal)?,
    }
    output::amounts(out, lent)
}

fn print_report<W: Write>(out: &mut W, file: &[u8]) -> io::Result<()> {
    let mut text = numbers::repeat::<_, REPORT_ROOM>(0);
    let n = day_report::day_report(file, &mut text);
    out.write_all(&text[..n])
}

// ---- the operations

// The calls on one point-day, and how it is after them.
#[derive(Drop)]
struct Calls {
    day: PointDay,
}

impl Calls {
    fn fresh<W: Write>(&mut self, out: &mut W) -> Result<(), Stop> {
        self.day = point_day::fresh_day();
        writeln!(out, "fresh")?;
        Ok(())
    }

    // The point-day of the outcome; its answer is printed.
    fn settle<W: Write>(&mut self, out: &mut W, name: &str, outcome: Outcome) -> Result<(), Stop> {
        self.day = outcome.day;
        print_answer(out, name, outcome.answer)?;
        Ok(())
    }

    fn join<W: Write>(&mut self, out: &mut W, input: &mut Input) -> Result<(), Stop>
        ensures { Onward input.old input.new }
    {
        let user = u16::read(input)?;
        self.settle(out, "join", join::join(self.day, user))
    }

    fn line<W: Write>(&mut self, out: &mut W, input: &mut Input) -> Result<(), Stop>
        ensures { Onward input.old input.new }
    {
        let entry = arguments_from_bytes::read_line(input)?;
        let outcome = line::line(self.day, entry);
        self.settle(out, "line", outcome)
    }

    // (Beside `line`: the two differ in the call and in its name alone, and each is three lines.)
    fn edit<W: Write>(&mut self, out: &mut W, input: &mut Input) -> Result<(), Stop>
        ensures { Onward input.old input.new }
    {
        let entry = arguments_from_bytes::read_line(input)?;
        let outcome = line::line_by_edit(self.day, entry);
        self.settle(out, "edit", outcome)
    }

    fn measure<W: Write>(&mut self, out: &mut W, input: &mut Input) -> Result<(), Stop>
        ensures { Onward input.old input.new }
    {
        let emission = u64::read(input)?;
        let downstream = u64::read(input)?;
        self.settle(
            out,
            "measure",
            measure::measure(self.day, emission, downstream),
        )
    }

    fn stand_in<W: Write>(&mut self, out: &mut W, input: &mut Input) -> Result<(), Stop>
        ensures { Onward input.old input.new }
    {
        let rows = arguments_from_bytes::read_rows(input)?;
        self.settle(out, "stand-in", stand_in::stand_in(self.day, rows))
    }

    fn load<W: Write>(&mut self, out: &mut W, input: &mut Input) -> Result<(), Stop>
        ensures { Onward input.old input.new }
    {
        self.day = arguments_from_bytes::read_day(input)?;
        writeln!(out, "load")?;
        Ok(())
    }

    fn inventory<W: Write>(&self, out: &mut W, input: &mut Input) -> Result<(), Stop>
        ensures { Onward input.old input.new }
    {
        let count = u16::read(input)?;
        let n = at_most(count.into(), MOST_LENT)?;
        let mut lent = lent_numbers();
        print_inventory(out, self.day, &mut lent[..n])?;
        Ok(())
    }

    // The report on the day file; the point-day of the run stays.
    fn day_file<W: Write>(&self, out: &mut W, input: &mut Input) -> Result<(), Stop>
        ensures { Onward input.old input.new }
    {
        let count = u32::read(input)?;
        let file = input.bytes(count as usize)?;
        print_report(out, file)?;
        Ok(())
    }
}

impl OnwardProgram for Calls {
    // (A match on the byte: an enum of the operations would be a second table of them, read here alone.)
    fn step<W: Write>(&mut self, out: &mut W, input: &mut Input) -> Result<(), Stop> {
        match u8::read(input)? {
            0 => self.fresh(out),
            1 => self.join(out, input),
            2 => self.line(out, input),
            3 => self.edit(out, input),
            4 => self.measure(out, input),
            5 => self.settle(out, "allot", allot::allot(self.day)),
            6 => self.stand_in(out, input),
            7 => self.settle(out, "revise", revise::revise(self.day)),
            8 => self.settle(out, "start-final", start_final::start_final(self.day)),
            9 => Ok(print_day(out, &self.day)?),
            10 => self.load(out, input),
            11 => self.inventory(out, input),
            12 => self.day_file(out, input),
            _ => Err(Stop::Malformed),
        }
    }
}

// Before the first operation: a fresh point-day.
fn fresh_calls() -> Calls {
    Calls {
        day: point_day::fresh_day(),
    }
}

// The operations one after the other, from bytes of any length; where there are no bytes nothing is printed.
pub fn run<W: Write>(out: &mut W, bytes: &[u8]) -> io::Result<()>
    ensures { length bytes.now ≡ 0 → IsOk result × (out.new ≡ out.old) }
{
    console::run_bytes(&mut fresh_calls(), out, bytes)
}

// The same from all of an input.
pub fn run_input<R: Read, W: Write>(input: &mut R, out: &mut W) -> io::Result<()> {
    console::run(&mut fresh_calls(), input, out)
}
