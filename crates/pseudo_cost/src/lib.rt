//! Pseudo-costs: by how much a split of each column raised the aim, which is the objective that a search minimises, so far, and the column to split by them.
#![tactic(auto)]

mod column_gains;
mod costs;
mod gains;
pub mod laws;
mod side;

pub use costs::Costs;
pub use gains::{LARGEST_GAIN, gain};
pub use side::Side;
