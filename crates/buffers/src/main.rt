// Lengths: making in buffers of any length, runs with lists and answer buffers that fit or don't, and the largest table; printed one line each.
// `stdout` has the lines that 01 asks for.
#![tactic(auto)]

mod largest;
mod making;
mod runs;

use std::io;

fn main(rt: HostRuntime) -> io::Result<()> {
    making::all(&rt)?;
    runs::all(&rt)?;
    largest::all(&rt)
}
