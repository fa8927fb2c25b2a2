//! Answers of linear programs over boxes, and the columns that pseudo-costs of such answers choose. The gate compares what it prints with `stdout`.
#![tactic(auto)]

mod pseudo_costs;
mod relaxations;

use anyhow::Result;

fn main(rt: HostRuntime) -> Result<()> {
    relaxations::show(&rt)?;
    pseudo_costs::show(&rt)
}
