//! Certificates of searches that have ended, and the laws of certificates.
#![tactic(auto)]

mod certificate;
mod closings;
mod feed_place;
pub mod laws;
mod layout;
mod lines;
mod multipliers;
mod numbers;
mod part;
mod path_setters;
mod setters;
mod stream;

pub use certificate::{feed, merge};
pub use stream::Feed;
