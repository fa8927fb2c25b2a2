//! The incumbent of a search: the best feasible point so far.
#![tactic(auto)]

mod best;
pub mod laws;

pub use best::{Best, Incumbent};
