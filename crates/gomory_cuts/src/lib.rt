//! Chvátal-Gomory cuts, separated from the tableau that a run of the dual simplex left.
//!
//! The row of a basic column with a fractional value gives multipliers of the problem's rows and of the cuts. Multipliers of bound rows make the
//! combination's coefficients whole, and its right side is rounded up. What the point violates is a cut.
#![tactic(auto)]

mod candidate;
mod filled_column;
mod filling;
mod gomory;
pub mod laws;
mod multiplier;
mod separation;
mod sign;
mod violation;

pub use separation::separate;
