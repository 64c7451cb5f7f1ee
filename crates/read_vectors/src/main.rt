// Runs vectors through the public calls of the leaves (cursor, name) and prints a line for each: the call, what it was
// given, and what it answered. compare/ has the Rust print the same lines.
#![tactic(auto)]

mod names;
mod numbers;
mod parts;
mod say;
mod texts;

use std::io;

fn main(rt: HostRuntime) -> io::Result<()> {
    numbers::run(&rt)?;
    parts::run(&rt)?;
    texts::run(&rt)?;
    names::run(&rt)
}
