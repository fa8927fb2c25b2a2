// Search trees.
ghost use Rattle.std.specs.Prelude.{◌≡◌, ◌<◌, ◌≤◌, ◌+◌, ◌*◌, ◌↔◌, ◌<ℤ◌, ◌≤ℤ◌, [], ◌∷◌, None, IsTrue, IfOk, IfSome, OnOk, OnErr, length, slice_get};
ghost use Rattle.std.specs.Option.{ForSome};
ghost use Rattle.node_tree.specs.Limits.{most_nodes};
ghost use Rattle.node_tree.specs.Nodes.{no_node, branch_at, parent_at, children_at};
ghost use Rattle.node_tree.specs.Paths.{path_at, box_at, bound_on, setter, setting};
ghost use Rattle.node_tree.specs.Splits.{with_split};
ghost use Rattle.node_tree.specs.Trees.{IsTree};

use crate::branch::{Branch, Side};
use crate::nodes::Nodes;
use crate::walk::bound_on;
use problem_box::IntBox;
use std::alloc::{AllocError, Global};
use std::marker::Model;

/// A tree of nodes over a box, seen as the root's box, the list of the nodes, and how many splits fit into the room that is there.
///
/// Node 0 is the root. A node is split at a number in one column: its left child takes the numbers up to that, and its right child those
/// above, the two having the next two numbers in this order. There are at most `MOST_NODES` nodes.
///
/// The box of one node is kept, since the boxes that are asked for next are mostly those of nodes near it (docs/DECISIONS.md, entry 62).
pub struct Tree {
    nodes: Nodes,
    /// The node whose box is kept.
    place: u32,
    area: IntBox,
}

/// By hand (docs/DECISIONS.md, entry 98).
impl Drop for Tree {
    fn drop(self) {
        let Tree {
            nodes: _,
            place: _,
            area: _,
        } = self;
    }
}

impl Model for Tree {
    ghost use Rattle.std.specs.Prelude.{◌≡◌, ◌<◌, length};
    ghost use Rattle.node_tree.specs.Nodes.{Tree};
    ghost use Rattle.node_tree.specs.Paths.{box_at};

    ghost Value = { Tree };

    ghost view = { λ t. t.nodes };

    ghost invariant = { λ t. (t.place < length t.nodes.nodes) × (t.area ≡ box_at t.nodes t.place) };
}

impl Tree {
    /// The tree of node 0 alone. The one error is want of memory.
    pub fn make(alloc: Global, root: IntBox) -> Result<Tree, AllocError>
        ensures { IfOk result (λ t. t ≡ record { root = root; nodes = no_node ∷ []; room = t.room }) }
    {
        let area = root.copy(alloc)?;
        let nodes = Nodes::make(alloc, root)?;
        Ok(Tree {
            nodes,
            place: 0,
            area,
        })
    }

    /// How many nodes there are.
    pub fn len(&self) -> usize
        ensures { result ≡ length self.now.nodes }
    {
        self.nodes.len()
    }

    /// The root's box.
    pub fn root(&self) -> &IntBox
        ensures { result.now ≡ self.now.root }
    {
        self.nodes.root()
    }

    /// The branch that leads to a node that is there; none at node 0. It comes from a node of a smaller number.
    pub fn branch(&self, node: u32) -> Option<Branch>
        requires { node < length self.now.nodes }
        ensures { result ≡ branch_at self.now node }
    {
        self.nodes.entry(node).node.branch
    }

    /// The parent of a node that is there; none at node 0.
    pub fn parent(&self, node: u32) -> Option<u32>
        requires { node < length self.now.nodes }
        ensures { result ≡ parent_at self.now node }
    {
        match self.branch(node) {
            Some(branch) => Some(branch.parent),
            None => None,
        }
    }

    /// The children of a node that is there, the left one first; none where it is a leaf.
    pub fn children(&self, node: u32) -> Option<(u32, u32)>
        requires { node < length self.now.nodes }
        ensures { result ≡ children_at self.now node }
    {
        self.conditions_hold();
        match self.nodes.entry(node).node.first_child {
            Some(first) => Some((first, first + 1)),
            None => None,
        }
    }

    /// Whether a node that is there was not split.
    pub fn is_leaf(&self, node: u32) -> bool
        requires { node < length self.now.nodes }
        ensures { IsTrue result ↔ (children_at self.now node ≡ None) }
    {
        self.nodes.entry(node).node.first_child.is_none()
    }

    /// Makes room for so many splits, after which they take no memory. The one error is want of memory, and then all is as before.
    pub fn reserve(&mut self, splits: usize) -> Result<(), AllocError>
        requires { length self.old.nodes + 2 * splits ≤ most_nodes }
        ensures same { self.new ≡ record self.old { room = self.new.room } }
        ensures kept { self.old.room ≤ self.new.room }
        ensures ok { OnOk result (splits ≤ self.new.room) }
        ensures err { OnErr result (self.new ≡ self.old) }
    {
        self.nodes.reserve(splits)
    }

    /// Splits a leaf: the next two nodes are its children, by `x <= bound` and by `x >= bound + 1` in the column. It takes no memory.
    ///
    /// There is room, and the column's span in the leaf's box has both numbers.
    pub fn split(&mut self, node: u32, column: u32, bound: i64)
        requires room { 0 < self.old.room }
        requires few { length self.old.nodes + 2 ≤ most_nodes }
        requires node_there { node < length self.old.nodes }
        requires leaf { children_at self.old node ≡ None }
        requires column_there { column < length self.old.root }
        requires inside { ForSome (slice_get (box_at self.old node) column) (λ s. (s.lo ≤ℤ bound) × (bound <ℤ s.hi)) }
        ensures { self.new ≡ with_split self.old node column bound }
    {
        self.conditions_hold();
        self.nodes.walk(&mut self.area, self.place, node);
        self.place = node;
        let span = self.area.span(column as usize);
        self.nodes.split(node, column, bound, span);
    }

    /// Keeps the box of a node that is there. It takes no memory, and as many steps as there are branches between the node whose box was kept
    /// and this one.
    pub fn move_to(&mut self, node: u32)
        requires { node < length self.old.nodes }
        ensures { self.new ≡ self.old }
    {
        self.nodes.walk(&mut self.area, self.place, node);
        self.place = node;
    }

    /// The box that is kept, where it is that of the node.
    pub fn kept_box(&self, node: u32) -> Option<&IntBox>
        ensures { IfSome result (λ b. b.now ≡ box_at self.now node) }
    {
        if node == self.place {
            Some(&self.area)
        } else {
            None
        }
    }

    /// Makes the box of one node that of another. Both are there. It takes no memory, and as many steps as there are branches between them.
    pub fn walk(&self, area: &mut IntBox, from: u32, to: u32)
        requires from_there { from < length self.now.nodes }
        requires to_there { to < length self.now.nodes }
        requires here { area.old ≡ box_at self.now from }
        ensures { area.new ≡ box_at self.now to }
    {
        self.nodes.walk(area, from, to);
    }

    /// A copy of the box of a node that is there. It takes as many steps as there are branches between the node whose box is kept and this one.
    /// The one error is want of memory.
    pub fn box_of(&self, alloc: Global, node: u32) -> Result<IntBox, AllocError>
        requires { node < length self.now.nodes }
        ensures { IfOk result (λ b. b ≡ box_at self.now node) }
    {
        let mut area = self.area.copy(alloc)?;
        self.nodes.walk(&mut area, self.place, node);
        Ok(area)
    }

    /// The deepest node on the path of a node that is there whose branch set the bound; none where the bound is the root's.
    pub fn source_of(&self, node: u32, column: u32, side: Side) -> Option<u32>
        requires { node < length self.now.nodes }
        ensures { result ≡ setter column side (path_at self.now node) }
    {
        match self.setting(node, column, side) {
            Some((source, _)) => Some(source),
            None => None,
        }
    }

    /// The bound of a column that is there in the box of a node that is there. It takes no memory.
    pub fn bound_of(&self, node: u32, column: u32, side: Side) -> i64
        requires node_there { node < length self.now.nodes }
        requires column_there { column < length self.now.root }
        ensures { ForSome (slice_get (box_at self.now node) column) (λ s. result ≡ bound_on side s) }
    {
        match self.setting(node, column, side) {
            Some((_, branch)) => branch.bound,
            None => bound_on(self.root().span(column as usize), side),
        }
    }

    /// Each tree keeps to its conditions. This computes nothing: its contract is for callers' proofs.
    pub fn conditions_hold(&self)
        ensures tree { IsTree self.now }
        ensures few { length self.now.nodes ≤ most_nodes }
    {
        self.nodes.conditions_hold();
    }

    /// The deepest branch on the path of a node that is there that set the bound, with its node.
    fn setting(&self, node: u32, column: u32, side: Side) -> Option<(u32, Branch)>
        requires { node < length self.now.nodes }
        ensures { result ≡ setting column side (path_at self.now node) }
    {
        self.conditions_hold();
        let mut at = node;
        while let Some(branch) = self.branch(at) {
            if branch.sets(column, side) {
                return Some((at, branch));
            }
            at = branch.parent;
        }
        None
    }
}
