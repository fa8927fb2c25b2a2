// The split that made a node.

use fraction::Frac;
use pseudo_cost::Side;

/// The split that made a node, where its reason was a fractional optimum that this worker had found.
#[derive(Clone, Copy)]
pub struct Origin {
    /// The column.
    pub column: usize,
    /// The node's side of the split.
    pub side: Side,
    /// The parent's optimal value.
    pub value: Frac,
}
