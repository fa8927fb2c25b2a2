//! Linear programs by each form of the tableau, on whole numbers, on scaled ones and on exact fractions: some that were worked out by hand, and
//! 1,000 random ones, of which it counts those where the forms differ; and runs by dictionaries that earlier ones have left. The gate compares what
//! it prints with `stdout`.
#![tactic(auto)]

mod comparison;
mod ends;
mod kept;
mod programs;
mod worked;

use anyhow::Result;

/// How many random programs are compared.
const PROGRAMS: u32 = 1_000;

fn main(rt: HostRuntime) -> Result<()> {
    worked::show(&rt)?;
    kept::show(&rt)?;
    comparison::show(&rt, PROGRAMS)
}
