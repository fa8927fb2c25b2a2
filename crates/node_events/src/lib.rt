//! The events of a search: what is done to its tree, its cuts and its incumbent, as plain values.
//!
//! Rows have numbers by which multipliers name them: first the problem's rows, then for each column the row of its lower bound and that of its
//! upper bound, then the cuts, each kind in its order. So with r rows and n columns, column j has the bound rows r + 2j (lower) and r + 2j + 1
//! (upper), and cut i has the number r + 2n + i.
#![tactic(auto)]

mod event;
mod mult;
mod proof;
mod rational_point;
mod reason;

pub use event::Event;
pub use mult::Mult;
pub use proof::Proof;
pub use rational_point::RationalPoint;
pub use reason::Reason;
