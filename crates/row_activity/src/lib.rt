//! What the rows and the aim, which is the objective that a search minimises, tell of a box, by their least and greatest values over it.
#![tactic(auto)]

mod activity;
mod verdict;

pub use activity::{high, low};
pub use verdict::{Sign, Verdict, box_verdict};
