//! Scaled linear programs: a program of fractions as one of whole numbers, whose run is read with scales.
#![tactic(auto)]

mod answers;
mod conversion;
pub mod laws;
mod making;
mod reading;
mod run;
mod scaled_program;
mod scaled_tableau;
mod scales;
mod unscaling;

pub use run::ScaledRunEnd;
pub use scaled_program::ScaledProgram;
pub use scaled_tableau::ScaledTableau;
