// Reads a day file from standard input and prints its report.
#![tactic(auto)]

use day_file::ENOUGH_BYTES;
use day_report::REPORT_ROOM;
use std::io;
use std::io::Write;

fn main(rt: HostRuntime) -> io::Result<()> {
    let mut input = [0u8; ENOUGH_BYTES];
    let n = console::read_full(&mut rt.reader(), &mut input)?;
    let mut output = [0u8; REPORT_ROOM];
    let m = day_report::day_report(&input[..n], &mut output);
    io::writer(&rt).write_all(&output[..m])
}
