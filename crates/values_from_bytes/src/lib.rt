// What the calls on supply points, readings and the calendar take, from bytes: numbers, lists and histories, little-endian.
#![tactic(auto)]

ghost use Rattle.std.specs.Prelude.{◌≤◌, length, IfOk};
ghost use Rattle.console.specs.Input.{Onward};

use console::input::{Input, Malformed, Number};
use history::{ENTRIES, Entry, Reading};
use telemetered::own_value::OwnValue;

// The bytes of an entry: its tag and its value.
const ENTRY_BYTES: usize = 9;

// The bytes of a degree day.
const DEGREE_DAY_BYTES: usize = 4;

// The next optional value.
pub fn read_optional(input: &mut Input) -> Result<Option<u64>, Malformed>
    ensures { Onward input.old input.new }
{
    if input.flag()? {
        Ok(Some(u64::read(input)?))
    } else {
        Ok(None)
    }
}

// The next own value of a user, if one was sent: the value, its arrival and the length of the gas day.
pub fn read_own(input: &mut Input) -> Result<Option<OwnValue>, Malformed>
    ensures { Onward input.old input.new }
{
    let Some(kwh) = read_optional(input)? else {
        return Ok(None);
    };
    Ok(Some(OwnValue {
        kwh,
        arrival: u32::read(input)?,
        length: u32::read(input)?,
    }))
}

// The next list: a count, and that many numbers. More than there is room for is malformed.
pub fn read_list<'r, C: Number + Into<usize>, T: Number>(
    input: &mut Input,
    room: &'r mut [T],
) -> Result<&'r [T], Malformed>
    ensures within { IfOk result (λ xs. length xs.now ≤ length room.old) }
    ensures onward { Onward input.old input.new }
{
    let count = console::input::at_most(C::read(input)?.into(), room.len())?;
    let list = &mut room[..count];
    input.fill(list)?;
    Ok(list)
}

// The next list of a winter's degree days, if there is one. (A flag: at the calls the same test would stand twice.)
pub fn read_winter<'r>(
    input: &mut Input,
    there: bool,
    room: &'r mut [u32],
) -> Result<&'r [u32], Malformed>
    ensures within { IfOk result (λ xs. length xs.now ≤ length room.old) }
    ensures onward { Onward input.old input.new }
{
    if there {
        return read_list::<u8, u32>(input, room);
    }
    Ok(&[])
}

// Passes over the next list of a winter's degree days.
pub fn pass_winter(input: &mut Input) -> Result<(), Malformed>
    ensures { Onward input.old input.new }
{
    let count = usize::from(u8::read(input)?);
    input.bytes(DEGREE_DAY_BYTES * count)?;
    Ok(())
}

// The next entry of a history. (A match on the tag: it is the format's table of readings, and the value behind it goes into the reading,
// which no TryFrom of the tag has.)
fn read_entry(input: &mut Input) -> Result<Entry, Malformed>
    ensures { Onward input.old input.new }
{
    let tag = u8::read(input)?;
    let value = u64::read(input)?;
    let reading = match tag {
        0 => Reading::Nothing,
        1 => Reading::Real(value),
        2 => Reading::Estimated(value),
        3 => Reading::Own(value),
        _ => return Err(Malformed),
    };
    Ok(Entry { reading })
}

// The next history, whose count has been read; entries past the most of a history are passed over.
pub fn read_history(input: &mut Input, count: u16) -> Result<[Entry; ENTRIES], Malformed>
    ensures { Onward input.old input.new }
{
    let count = usize::from(count);
    let mut history = numbers::repeat::<_, ENTRIES>(Entry {
        reading: Reading::Nothing,
    });
    for entry in &mut history[..count.min(ENTRIES)] {
        *entry = read_entry(input)?;
    }
    input.bytes(ENTRY_BYTES * count.saturating_sub(ENTRIES))?;
    Ok(history)
}
