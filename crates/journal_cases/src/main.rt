//! Commands over journals, their groups and upgrades, and changed copies of one.
//! The gate compares what it prints with `stdout`.
#![tactic(auto)]

mod altered;
mod groups;
mod journals;
mod upgrades;

use anyhow::Result;

fn main(rt: HostRuntime) -> Result<()> {
    journals::show_first(&rt)?;
    journals::show_others(&rt)?;
    groups::show(&rt)?;
    upgrades::show(&rt)?;
    altered::show(&rt)
}
