// Runs calls on supply points, readings and the calendar from standard input; the stored ones have own values with their arrivals, and end
// with one cut short.
#![tactic(auto)]

use std::io;

fn main(rt: HostRuntime) -> io::Result<()> {
    let mut input = rt.reader();
    let mut out = io::writer(&rt);
    estimates_from_bytes::run_input(&mut input, &mut out)
}
