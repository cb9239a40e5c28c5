// What the programs share: standard input, numbers read from it one after the other, what is printed, and a run.
#![tactic(auto)]

ghost use Rattle.std.specs.Prelude.{◌≡◌, ◌<◌, length, IsOk, OnOk};
ghost use Rattle.std.specs.Io.{ReadsAtMost};
ghost use Rattle.console.specs.Input.{Onward};

pub mod input;
pub mod output;

use input::{Input, Malformed};
use std::io;
use std::io::{Read, Write};

// The most bytes of a program's input.
pub const MOST_INPUT: usize = 1048576;

// Room for them and for one byte more, by which a longer input is known.
pub const INPUT_ROOM: usize = MOST_INPUT + 1;

// Why a run ends before its input does.
#[derive(Clone, Copy)]
pub enum Stop {
    Malformed,
    Failed(io::Error),
}

impl From<Malformed> for Stop {
    fn from(_malformed: Malformed) -> Stop {
        Stop::Malformed
    }
}

impl From<io::Error> for Stop {
    fn from(error: io::Error) -> Stop {
        Stop::Failed(error)
    }
}

// What runs the operations of an input.
pub trait Program {
    // Reads the next operation, runs it, and prints what it answers.
    fn step<W: Write>(&mut self, out: &mut W, input: &mut Input) -> Result<(), Stop>
        ensures { OnOk result (length input.new < length input.old) };
}

// A program whose operations go on in the bytes that they were given. Each is a `Program`.
pub trait OnwardProgram {
    // The same, and what is read next is of the same bytes.
    fn step<W: Write>(&mut self, out: &mut W, input: &mut Input) -> Result<(), Stop>
        ensures further { OnOk result (length input.new < length input.old) }
        ensures onward { Onward input.old input.new };
}

impl<P: OnwardProgram> Program for P {
    fn step<W: Write>(&mut self, out: &mut W, input: &mut Input) -> Result<(), Stop> {
        OnwardProgram::step(self, out, input)
    }
}

// Reads until the room is full or the input ends, and answers how many bytes it put there. (A loop by hand: the library fills a Vec, or the
// whole of a slice.)
pub fn read_full<R: Read>(input: &mut R, room: &mut [u8]) -> io::Result<usize>
    ensures { ReadsAtMost result room.new }
{
    let mut done = 0;
    while done < room.len() {
        let n = input.read(&mut room[done..])?;
        if n == 0 {
            break;
        }
        done += n;
    }
    Ok(done)
}

// The operations one after the other, until nothing is left (a `while`: it counts no index).
fn run_operations<P: Program, W: Write>(
    program: &mut P,
    out: &mut W,
    bytes: &[u8],
) -> Result<(), Stop>
    ensures { length bytes.now ≡ 0 → IsOk result × (program.new ≡ program.old) × (out.new ≡ out.old) }
{
    let mut input = Input::new(bytes);
    while !input.is_empty() {
        program.step(out, &mut input)?;
    }
    Ok(())
}

// The same, of bytes of any length. What is malformed is printed as that, after what came before it; where there are no bytes nothing is
// run or printed.
pub fn run_bytes<P: Program, W: Write>(program: &mut P, out: &mut W, bytes: &[u8]) -> io::Result<()>
    ensures { length bytes.now ≡ 0 → IsOk result × (program.new ≡ program.old) × (out.new ≡ out.old) }
{
    match run_operations(program, out, bytes) {
        Ok(()) => Ok(()),
        Err(Stop::Malformed) => output::malformed(out),
        Err(Stop::Failed(error)) => Err(error),
    }
}

// The same from all of an input. What is longer than a program takes is malformed, and none of it is run.
pub fn run<P: Program, R: Read, W: Write>(
    program: &mut P,
    input: &mut R,
    out: &mut W,
) -> io::Result<()> {
    let mut room = numbers::repeat::<_, INPUT_ROOM>(0);
    let n = read_full(input, &mut room)?;
    if MOST_INPUT < n {
        return output::malformed(out);
    }
    run_bytes(program, out, &room[..n])
}

#[cfg(test)]
mod tests {
    use super::*;
    use input::Number;
    use std::test::Fail;

    // Reads two bytes and leaves another in place of what follows; then that one.
    #[derive(Drop)]
    struct Replaces {
        operations: u8,
        last: u8,
    }

    impl Program for Replaces {
        fn step<W: Write>(&mut self, _out: &mut W, input: &mut Input) -> Result<(), Stop> {
            self.operations = self.operations.saturating_add(1);
            if u16::read(input).is_ok() {
                *input = Input::new(b"\x07");
            } else {
                self.last = u8::read(input)?;
            }
            Ok(())
        }
    }

    // What is left after an operation is what the next one gets, whatever bytes they are.
    #[test]
    fn runs_what_is_left(rt: HostRuntime) -> Result<(), Fail> {
        let mut program = Replaces {
            operations: 0,
            last: 0,
        };
        run_bytes(&mut program, &mut io::sink(), b"\x01\x02\x03\x04\x05")?;
        assert_eq!(rt; program.operations, 2);
        assert_eq!(rt; program.last, 7);
        Ok(())
    }

    // Adds up numbers of two bytes, and prints each sum.
    #[derive(Drop)]
    struct Sum {
        sum: u16,
    }

    impl OnwardProgram for Sum {
        fn step<W: Write>(&mut self, out: &mut W, input: &mut Input) -> Result<(), Stop> {
            self.sum = self.sum.wrapping_add(u16::read(input)?);
            writeln!(out, "{}", self.sum)?;
            Ok(())
        }
    }

    // One that goes on in its own bytes is run to their end.
    #[test]
    fn runs_onward(rt: HostRuntime) -> Result<(), Fail> {
        let mut out = [0; 8];
        run_bytes(&mut Sum { sum: 0 }, &mut &mut out[..], b"\x01\0\x02\0")?;
        assert_eq!(rt; out.as_slice(), b"1\n3\n\0\0\0\0".as_slice());
        Ok(())
    }

    // Where they are cut short, malformed is printed after what came before.
    #[test]
    fn runs_to_the_cut(rt: HostRuntime) -> Result<(), Fail> {
        let mut out = [0; 16];
        run_bytes(&mut Sum { sum: 0 }, &mut &mut out[..], b"\x01\0\x02\0\x05")?;
        assert_eq!(rt; out.as_slice(), b"1\n3\nmalformed\n\0\0".as_slice());
        Ok(())
    }
}
