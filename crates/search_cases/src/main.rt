//! Searches that go on with a greater budget, the tree of one of them, and journals. The gate compares what it prints with `stdout`.
#![tactic(auto)]

mod growing;
mod journal_cases;
mod searches;
mod trees;

use anyhow::Result;

fn main(rt: HostRuntime) -> Result<()> {
    searches::show(&rt)?;
    trees::show(&rt)?;
    journal_cases::show(&rt)?;
    Ok(())
}
