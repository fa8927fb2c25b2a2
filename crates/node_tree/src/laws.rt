//! Laws of trees.

ghost use Rattle.node_tree.specs.Laws.{AreBoxes, SplitsShareBoxes};

use crate::tree::Tree;

/// The boxes of a tree: node 0 has the root's, and each other node its parent's, cut by the branch that leads to it. So each box has the root's
/// columns, and where no bound of the root is larger than some size, no bound of a box is.
pub fn boxes_are_cut(tree: &Tree)
    ensures { AreBoxes tree.now }
{
    tree.conditions_hold();
}

/// A split keeps the boxes of the nodes that were there, and the two new nodes share out the box of the node that is split.
pub fn splits_share_boxes(tree: &Tree)
    ensures { SplitsShareBoxes tree.now }
{
    tree.conditions_hold();
}
