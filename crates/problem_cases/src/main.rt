//! Calls on problems that no whole run shows, the verdicts on boxes, and the model of a seed. The gate compares what it prints with `stdout`.
#![tactic(auto)]

mod drills;
mod problems;
mod verdicts;

use anyhow::Result;

fn main(rt: HostRuntime) -> Result<()> {
    problems::show(&rt)?;
    verdicts::show(&rt)?;
    drills::show(&rt)
}
