//! The model of a seed, which the command `drill` solves: a multidimensional knapsack as text in free MPS.
#![tactic(auto)]

mod generator;
mod instance;
mod text;

pub use text::generate;
