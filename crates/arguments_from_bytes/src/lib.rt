// The arguments of the calls from bytes, little-endian.
#![tactic(auto)]

ghost use Rattle.std.specs.Prelude.{◌<◌};
ghost use Rattle.point_day.specs.Limits.{ROWS};
ghost use Rattle.console.specs.Input.{Onward};

use console::input::{Input, Malformed, Number};
use line::cells::LineEntry;
use point_day::{Measurement, PAIRS, PointDay, ROWS, Stage, StandInRows, USERS};

// ---- line

pub fn read_line(input: &mut Input) -> Result<LineEntry, Malformed>
    ensures { Onward input.old input.new }
{
    Ok(LineEntry {
        user: u16::read(input)?,
        kind: u8::read(input)?,
        consumption: u64::read(input)?,
        coefficient: u32::read(input)?.into(),
    })
}

// ---- stand-in

// The bytes of a pair: user and amount.
const PAIR_BYTES: usize = 10;

// Row i of a stand-in: its count, and as many pairs; those past the most users of a point-day are passed over.
fn read_row(input: &mut Input, i: usize, rows: &mut StandInRows) -> Result<(), Malformed>
    requires { i < ROWS }
    ensures { Onward input.old input.new }
{
    let count = usize::from(u16::read(input)?);
    rows.counts[i] = count;
    for j in 0..count.min(USERS) {
        rows.users[USERS * i + j] = u16::read(input)?;
        rows.amounts[USERS * i + j] = i64::read(input)?;
    }
    input.bytes(PAIR_BYTES * count.saturating_sub(USERS))?;
    Ok(())
}

pub fn read_rows(input: &mut Input) -> Result<StandInRows, Malformed>
    ensures { Onward input.old input.new }
{
    let mut rows = StandInRows {
        counts: numbers::repeat::<_, ROWS>(0),
        users: numbers::repeat::<_, PAIRS>(0),
        amounts: numbers::repeat::<_, PAIRS>(0),
    };
    for i in 0..ROWS {
        read_row(input, i, &mut rows)?;
    }
    Ok(rows)
}

// ---- load

// (A match on the byte: it is the format's table of stages, read here alone. A TryFrom would have to stand in point_day, with Stage.)
fn read_stage(input: &mut Input) -> Result<Stage, Malformed>
    ensures { Onward input.old input.new }
{
    match u8::read(input)? {
        0 => Ok(Stage::Provisional),
        1 => Ok(Stage::FinalProvisional),
        2 => Ok(Stage::FinalDefinitive),
        _ => Err(Malformed),
    }
}

fn read_measurement(input: &mut Input) -> Result<Option<Measurement>, Malformed>
    ensures { Onward input.old input.new }
{
    let measured = input.flag()?;
    let emission = u64::read(input)?;
    let downstream = u64::read(input)?;
    Ok(measured.then_some(Measurement {
        emission,
        downstream,
    }))
}

fn read_arrays(input: &mut Input, day: &mut PointDay) -> Result<(), Malformed>
    ensures { Onward input.old input.new }
{
    input.fill(&mut day.users)?;
    input.fill(&mut day.consumption)?;
    input.fill(&mut day.losses)?;
    input.fill(&mut day.balance)?;
    input.fill(&mut day.revision)
}

// The point-day that is loaded: stage, whether it is allotted, measurement and count of users, then its arrays.
pub fn read_day(input: &mut Input) -> Result<PointDay, Malformed>
    ensures { Onward input.old input.new }
{
    let stage = read_stage(input)?;
    let allotted = input.flag()?;
    let measurement = read_measurement(input)?;
    let count = usize::from(u16::read(input)?);
    let mut day = PointDay {
        stage,
        allotted,
        measurement,
        count,
        ..point_day::fresh_day()
    };
    read_arrays(input, &mut day)?;
    Ok(day)
}
