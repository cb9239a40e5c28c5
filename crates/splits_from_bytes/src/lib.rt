// Prorations from bytes. A case is an i64 amount, a u16 count of parties, a u32 weight for each and a u32 key for each, little-endian;
// its shares are printed on a line. The first case that is cut short or out of range ends the run.
#![tactic(auto)]

ghost use Rattle.std.specs.Prelude.{◌≡◌, ◌≤◌, length, IsOk};
ghost use Rattle.proration.specs.Proration.{PARTIES};
ghost use Rattle.console.specs.Input.{Onward};

use console::input::{Input, Malformed, Number, at_most};
use console::{OnwardProgram, Stop};
use proration::PARTIES;
use std::io;
use std::io::{Read, Write};
use wire::TextBuffer;

// The bytes of a share, at most, and of what stands after it.
const SHARE_BYTES: usize = 21;

const LINE_ROOM: usize = SHARE_BYTES * PARTIES;

// The next numbers of u32, as many as the list has places.
fn read_numbers(input: &mut Input, numbers: &mut [u64]) -> Result<(), Malformed>
    ensures { Onward input.old input.new }
{
    for x in numbers {
        *x = u32::read(input)?.into();
    }
    Ok(())
}

// The shares, if there are any, on a line, which is written whole.
#[tactic(auto, using(wire::proofs::Text::written_length))]
fn print_line<W: Write>(out: &mut W, shares: &[i64]) -> io::Result<()>
    requires { length shares.now ≤ PARTIES }
{
    let Some((&last, before)) = shares.split_last() else {
        return Ok(());
    };
    let mut room = numbers::repeat::<_, LINE_ROOM>(0);
    let mut text = TextBuffer::new(&mut room);
    for &share in before {
        text.push_decimal(share);
        text.push(b" ");
    }
    text.push_decimal(last);
    text.push(b"\n");
    let n = text.len;
    out.write_all(&room[..n])
}

// The split of an amount over the next weights and keys: its shares are printed. What is out of range is malformed.
fn run_split<W: Write>(
    out: &mut W,
    input: &mut Input,
    amount: i64,
    weights: &mut [u64],
    keys: &mut [u64],
    shares: &mut [i64],
) -> Result<(), Stop>
    requires { length shares.old ≤ PARTIES }
    ensures { Onward input.old input.new }
{
    read_numbers(input, weights)?;
    read_numbers(input, keys)?;
    if split::split(amount, weights, keys, shares).is_err() {
        return Err(Stop::Malformed);
    }
    print_line(out, shares)?;
    Ok(())
}

// The cases one after the other.
#[derive(Clone, Copy)]
struct Splits;

impl OnwardProgram for Splits {
    fn step<W: Write>(&mut self, out: &mut W, input: &mut Input) -> Result<(), Stop> {
        let amount = i64::read(input)?;
        let count = u16::read(input)?;
        let n = at_most(count.into(), PARTIES)?;
        let mut weights = numbers::repeat::<_, PARTIES>(0);
        let mut keys = numbers::repeat::<_, PARTIES>(0);
        let mut shares = numbers::repeat::<_, PARTIES>(0);
        run_split(
            out,
            input,
            amount,
            &mut weights[..n],
            &mut keys[..n],
            &mut shares[..n],
        )
    }
}

// Runs them from bytes of any length; where there are no bytes nothing is printed.
pub fn run<W: Write>(out: &mut W, bytes: &[u8]) -> io::Result<()>
    ensures { length bytes.now ≡ 0 → IsOk result × (out.new ≡ out.old) }
{
    console::run_bytes(&mut Splits, out, bytes)
}

// The same from all of an input.
pub fn run_input<R: Read, W: Write>(input: &mut R, out: &mut W) -> io::Result<()> {
    console::run(&mut Splits, input, out)
}
