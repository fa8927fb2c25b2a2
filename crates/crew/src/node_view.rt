//! What a worker knows of a node that it looks at.

use fraction::Frac;
use node_tree::Branch;
use problem_box::IntBox;

/// What a worker knows of a node that it looks at.
pub(crate) struct NodeView {
    /// The node's box.
    pub area: IntBox,
    /// The incumbent's aim, if there is an incumbent.
    pub cutoff: Option<Frac>,
    /// The branch that leads to the node; none at node 0.
    pub branch: Option<Branch>,
}

/// By hand (docs/DECISIONS.md, entry 98).
impl Drop for NodeView {
    fn drop(self) {
        let NodeView {
            area: _,
            cutoff: _,
            branch: _,
        } = self;
    }
}
