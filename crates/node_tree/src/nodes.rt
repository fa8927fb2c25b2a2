// The nodes of a tree, with the bounds that their branches replaced.
ghost use Rattle.std.specs.Prelude.{◌≡◌, ◌<◌, ◌≤◌, ◌+◌, ◌*◌, ◌<ℤ◌, ◌≤ℤ◌, [], ◌∷◌, None, Some, IfOk, OnOk, OnErr, length, slice_get};
ghost use Rattle.node_tree.specs.declared.branch.Branch.{Branch as BranchValue};
ghost use Rattle.node_tree.specs.Limits.{most_nodes};
ghost use Rattle.node_tree.specs.Nodes.{no_node, node_at, branch_at, children_at};
ghost use Rattle.node_tree.specs.Paths.{box_at};
ghost use Rattle.node_tree.specs.Splits.{with_split};
ghost use Rattle.node_tree.specs.Trees.{IsTree};
ghost use Rattle.node_tree.specs.Replaced.{IsReplacedBy};

use crate::branch::{Branch, Node, Side};
use problem_box::{IntBox, Span};
use std::alloc::{AllocError, Global};
use std::marker::Model;

/// A node with the bound that its branch replaced, by which the box of its parent is made of its own.
#[derive(Clone, Copy)]
pub struct Entry {
    /// The node.
    pub node: Node,
    /// The bound of the branch's column and side in the parent's box; 0 at node 0.
    pub replaced: i64,
}

/// The nodes of a tree over a box, seen as the tree.
#[derive(Drop)]
pub struct Nodes {
    root: IntBox,
    entries: Vec<Entry>,
}

impl Model for Nodes {
    ghost use Rattle.std.specs.Prelude.{◌-◌, ◌/◌, vec_len};
    ghost use Rattle.std.specs.Vec.{vec_capacity};
    ghost use Rattle.node_tree.specs.Nodes.{Tree};

    ghost Value = { Tree };

    ghost use Rattle.node_tree.specs.Entries.{nodes_of, replaced_of};
    ghost use Rattle.node_tree.specs.Replaced.{IsKept};

    ghost view = { λ t. record { root = t.root; nodes = nodes_of t.entries.items; room = (vec_capacity t.entries - vec_len t.entries) / 2 } };

    ghost invariant = { λ t. IsKept (record { root = t.root; nodes = nodes_of t.entries.items; room = (vec_capacity t.entries - vec_len t.entries) / 2 }) (replaced_of t.entries.items) };
}

/// A leaf that a branch leads to, with the bound that the branch replaced.
fn leaf(branch: Branch, replaced: i64) -> Entry
    ensures { result ≡ record { node = record { branch = Some branch; first_child = None }; replaced = replaced } }
{
    let node = Node {
        branch: Some(branch),
        first_child: None,
    };
    Entry { node, replaced }
}

impl Nodes {
    /// Node 0 alone. The one error is want of memory.
    pub fn make(alloc: Global, root: IntBox) -> Result<Nodes, AllocError>
        ensures { IfOk result (λ t. t ≡ record { root = root; nodes = no_node ∷ []; room = t.room }) }
    {
        let node = Node {
            branch: None,
            first_child: None,
        };
        let mut entries = Vec::new(alloc);
        entries.push(Entry { node, replaced: 0 })?;
        Ok(Nodes { root, entries })
    }

    /// How many nodes there are.
    pub fn len(&self) -> usize
        ensures { result ≡ length self.now.nodes }
    {
        self.entries.len()
    }

    /// The root's box.
    pub fn root(&self) -> &IntBox
        ensures { result.now ≡ self.now.root }
    {
        &self.root
    }

    /// A node that is there, with the bound that its branch replaced.
    pub fn entry(&self, node: u32) -> Entry
        requires { node < length self.now.nodes }
        ensures node { result.node ≡ node_at self.now node }
        ensures replaced { (b : BranchValue) → branch_at self.now node ≡ Some b → IsReplacedBy self.now b result.replaced }
    {
        self.entries[node as usize]
    }

    /// Makes room for so many splits, after which they take no memory. The one error is want of memory, and then all is as before.
    pub fn reserve(&mut self, splits: usize) -> Result<(), AllocError>
        requires { length self.old.nodes + 2 * splits ≤ most_nodes }
        ensures same { self.new ≡ record self.old { room = self.new.room } }
        ensures kept { self.old.room ≤ self.new.room }
        ensures ok { OnOk result (splits ≤ self.new.room) }
        ensures err { OnErr result (self.new ≡ self.old) }
    {
        self.entries.reserve(2 * splits)?;
        Ok(())
    }

    /// Splits a leaf in a column that has this span in the leaf's box: the next two nodes are its children, by `x <= bound` and by
    /// `x >= bound + 1`. It takes no memory.
    pub fn split(&mut self, node: u32, column: u32, bound: i64, span: Span)
        requires room { 0 < self.old.room }
        requires few { length self.old.nodes + 2 ≤ most_nodes }
        requires node_there { node < length self.old.nodes }
        requires leaf { children_at self.old node ≡ None }
        requires column_there { column < length self.old.root }
        requires span { slice_get (box_at self.old node) column ≡ Some span }
        requires low { span.lo ≤ℤ bound }
        requires high { bound <ℤ span.hi }
        ensures { self.new ≡ with_split self.old node column bound }
    {
        let first = self.entries.len() as u32;
        let parent = &mut self.entries[node as usize];
        parent.node.first_child = Some(first);
        let left = Branch {
            parent: node,
            column,
            side: Side::High,
            bound,
        };
        let right = Branch {
            parent: node,
            column,
            side: Side::Low,
            bound: bound + 1,
        };
        self.entries.push_reserved(leaf(left, span.hi));
        self.entries.push_reserved(leaf(right, span.lo));
    }

    /// Each tree keeps to its conditions. This computes nothing: its contract is for callers' proofs.
    pub fn conditions_hold(&self)
        ensures tree { IsTree self.now }
        ensures few { length self.now.nodes ≤ most_nodes }
    {
        let _entries = &self.entries;
    }
}
