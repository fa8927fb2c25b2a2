//! Calls on fractions and on boxes that no whole run shows. The gate compares what it prints with `stdout`.
#![tactic(auto)]

mod boxes;
mod fractions;

use std::io;

fn main(rt: HostRuntime) -> io::Result<()> {
    fractions::show(&rt)?;
    boxes::show(&rt)
}
