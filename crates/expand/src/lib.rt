//! The work on one node: what is found of it, and the events that settle it.
//!
//! A finding is computed by the node's box and by the cuts and the cutoff that are known then. It is settled by the cuts and the incumbent that are
//! there when its events are applied, so what another worker did in between makes no finding useless.
#![tactic(auto)]

mod branching;
mod closing;
mod columns;
mod corners;
mod cuts;
mod expansion;
mod finding;
pub mod laws;
mod mults;
mod notes;
mod optimum;
mod origin;
mod relaxing;
mod settlement;
mod settling;
mod subproblem;
mod whole_point;

pub use expansion::expand;
pub use finding::Finding;
pub use mults::Mults;
pub use origin::Origin;
pub use settlement::{Branching, Settlement};
pub use settling::settle;
pub use subproblem::Subproblem;
