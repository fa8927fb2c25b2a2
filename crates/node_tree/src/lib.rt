//! The tree of a search over boxes: each node's box is the root's, cut by the branches on the way to the node.
#![tactic(auto)]

mod branch;
pub mod laws;
mod limits;
mod nodes;
mod tree;
mod walk;

pub use branch::{Branch, Side};
pub use limits::MOST_NODES;
pub use tree::Tree;
