// Runs prorations from standard input.
#![tactic(auto)]

use std::io;

fn main(rt: HostRuntime) -> io::Result<()> {
    let mut input = rt.reader();
    let mut out = io::writer(&rt);
    splits_from_bytes::run_input(&mut input, &mut out)
}
