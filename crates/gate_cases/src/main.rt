//! Two workers' gates to one pool, which one thread asks in a given order. `make test` compares what it prints with `stdout`.
#![tactic(auto)]

mod asks;
mod findings;
mod gates;

use anyhow::Result;

fn main(rt: HostRuntime) -> Result<()> {
    gates::show(&rt)
}
