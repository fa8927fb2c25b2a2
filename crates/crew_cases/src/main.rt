//! Searches by several workers. The gate compares what it prints with `stdout`: the answers, which are the same whatever the order of the workers.
#![tactic(auto)]

mod searches;

use anyhow::Result;

fn main(rt: HostRuntime) -> Result<()> {
    searches::show(&rt)
}
