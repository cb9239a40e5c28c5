// What the programs print alike. Nothing is promised about the bytes.
use numbers::Refusal;
use std::fmt::Display;
use std::io;
use std::io::Write;

// Each with a space before it, to the end of the line.
pub fn amounts<W: Write>(out: &mut W, xs: &[i64]) -> io::Result<()> {
    for x in xs {
        write!(out, " {x}")?;
    }
    writeln!(out)
}

pub fn malformed<W: Write>(out: &mut W) -> io::Result<()> {
    writeln!(out, "malformed")
}

// A refusal, on a line that may go on.
pub fn refusal<W: Write>(out: &mut W, refusal: Refusal) -> io::Result<()> {
    write!(out, "refused {}", u8::from(refusal))
}

// The value under its name, or the refusal.
pub fn answer<W: Write, T: Display + Drop>(
    out: &mut W,
    name: &str,
    answer: Result<T, Refusal>,
) -> io::Result<()> {
    match answer {
        Ok(value) => write!(out, "{name} {value}")?,
        Err(refused) => refusal(out, refused)?,
    }
    writeln!(out)
}
