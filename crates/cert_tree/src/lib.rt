//! The certificates of finished searches are valid.
#![tactic(auto)]

pub mod laws;
