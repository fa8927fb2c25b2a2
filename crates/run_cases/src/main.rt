//! Whole runs in pieces, runs whose source, sink or disk fails at each call in turn, and commands with several workers.
//! The gate compares what it prints with `stdout`.
#![tactic(auto)]

mod disk_faults;
mod faults;
mod runs;
mod workers;

use anyhow::Result;

fn main(rt: HostRuntime) -> Result<()> {
    runs::show(&rt)?;
    faults::show(&rt)?;
    disk_faults::show(&rt)?;
    workers::show(&rt)
}
