//! Calls on what is outside of the program that no whole run shows: the fakes of sources, sinks and disks, which fail where they are listed. The gate
//! compares what it prints with `stdout`.
#![tactic(auto)]

mod disks;
mod sinks;
mod sources;
mod texts;

use std::io;

fn main(rt: HostRuntime) -> io::Result<()> {
    sources::show(&rt)?;
    sinks::show(&rt)?;
    disks::show(&rt)
}
