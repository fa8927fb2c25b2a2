//! The state of a search as a machine over events: which events are admitted, and what each changes.
//!
//! A state is what its history of events makes of the problem: the tree of nodes, which of them are open, the cuts, the incumbent, and which
//! worker holds which node.
#![tactic(auto)]

mod admit;
mod changes;
mod entry;
mod judge;
pub mod laws;
mod made;
mod making;
mod parts;
mod relaxed;
mod split_place;
mod split_rule;
mod state;

pub use admit::Admit;
pub use entry::{Entry, Holder};
pub use made::Made;
pub use split_place::{SplitPlace, middle};
pub use state::State;
