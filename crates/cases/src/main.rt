// 01's cases, run over the delivered calls and printed, one line each. A line has the case's name, what was asked, what the call
// answered, and what became of the words that it was lent; `stdout` has the lines that 01 asks for.
#![tactic(auto)]

mod choosing;
mod codes;
mod edges;
mod exchanges;
mod rows;

use std::io;

fn main(rt: HostRuntime) -> io::Result<()> {
    rows::all(&rt)?;
    edges::all(&rt)?;
    choosing::all(&rt)?;
    exchanges::all(&rt)?;
    codes::all(&rt)
}
