// Runs calls on one point-day from standard input; the stored ones are lists of calls.
#![tactic(auto)]

use std::io;

fn main(rt: HostRuntime) -> io::Result<()> {
    let mut input = rt.reader();
    let mut out = io::writer(&rt);
    calls_from_bytes::run_input(&mut input, &mut out)
}
