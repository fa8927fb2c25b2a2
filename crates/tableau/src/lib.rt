//! Exact tableaus of a linear program, and the least-index run of the dual simplex over them.
#![tactic(auto)]

mod answers;
mod bounds;
mod elimination;
mod entering;
mod entries;
mod entry;
pub mod laws;
mod leaving;
mod multiple;
mod parts;
mod pivot;
mod place;
mod program;
mod reading;
mod run;
mod sparse_row;
mod start;
mod status;
mod tableau;
mod values;

pub use answers::{named_multipliers, turn_into_multipliers};
pub use bounds::{Bounds, Direction};
pub use entry::Entry;
pub use parts::TableauRows;
pub use place::Place;
pub use program::LinearProgram;
pub use status::BasisStatus;
pub use tableau::Tableau;
