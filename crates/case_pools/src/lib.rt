//! Pools of searches with their journals in memory, for programs of cases and of measurements.
#![tactic(auto)]

mod pools;

pub use pools::{drop_pool, memory_pool, with_budget};
