//! The lines of a free MPS text, and its numbers.
#![tactic(auto)]

mod decimals;
mod lines;
mod values;

pub use decimals::{NumFault, decimal};
pub use lines::{Line, Lines};
pub use values::{Value, value_of};
