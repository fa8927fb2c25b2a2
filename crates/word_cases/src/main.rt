//! The paths of command lines: of those that are commands, and why others are none. The gate compares what it prints with `stdout`.
#![tactic(auto)]

mod words;

use std::io;

fn main(rt: HostRuntime) -> io::Result<()> {
    words::show(&rt)
}
