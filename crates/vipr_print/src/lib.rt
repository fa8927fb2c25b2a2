//! Certificates as VIPR 1.0 text.
#![tactic(auto)]

mod fault;
mod from_feed;
pub mod laws;
mod lines;
mod pieces;
mod printing;
mod short_pieces;
mod sizes;

pub use fault::PrintFault;
pub use from_feed::print_feed;
pub use pieces::push_number;
pub use printing::print;
