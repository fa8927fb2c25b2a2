//! VIPR certificates as values, what makes one valid, and that a valid one's claim is true.
#![tactic(auto)]

mod certificate;
mod feed;
mod head;
mod line;

pub use certificate::{Cert, Goal, Part, Points};
pub use feed::LineFeed;
pub use head::CertHead;
pub use line::{CertRow, CertRows, Derived, Label, Why};
