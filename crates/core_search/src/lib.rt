//! A search by one worker, as events of a state: the open node of greatest number is next. What is found of it is settled, and where that are cuts, it
//! is looked at again.
#![tactic(auto)]

mod deciding;
mod events;
pub mod laws;
mod node_loop;
mod open_node;
mod process;
mod step;
mod worker;

pub use node_loop::{Ending, search};
