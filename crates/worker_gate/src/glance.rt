// What a worker is told of its node.

use derivation_book::Cut;
use fraction::Frac;
use node_tree::Branch;
use problem_box::IntBox;

/// What a worker is told of the node that it holds.
#[derive(Drop)]
pub struct Glance {
    /// The cuts from a number on, in the order in which they were made.
    pub cuts: Vec<Cut>,
    /// The incumbent's aim, if there is an incumbent.
    pub cutoff: Option<Frac>,
    /// The node's box.
    pub area: IntBox,
    /// The branch that leads to the node, with the node that was split; none at node 0.
    pub branch: Option<Branch>,
}
