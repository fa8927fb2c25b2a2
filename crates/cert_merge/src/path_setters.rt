// Setters that are moved along a tree.
//
// A parent's number is smaller than its child's. So where two nodes differ, the one of the greater number isn't above the other, and the next
// node up from it is tried: the walk is as long as the way between the nodes, however deep they are.
ghost use Rattle.std.specs.Prelude.{◌≡◌, ◌<◌, Some, IfOk, OnOk, length};
ghost use Rattle.node_tree.specs.Nodes.{branch_at, parent_at};
ghost use Rattle.cert_merge.specs.Kept.{AreKept, IsWay};

use crate::setters::Setters;
use node_tree::{Branch, Tree};
use std::alloc::{AllocError, Global};

/// The setters of one node of a tree, with those that the branches on its path replaced, by which the setters of its parent are made of its own
/// (docs/DECISIONS.md, entry 62).
#[derive(Drop)]
pub struct PathSetters {
    /// The node.
    pub place: u32,
    /// Its setters.
    pub table: Setters,
    /// For each node on its path the node, if any, that set the bound of the branch's column and side at the branch's parent.
    pub replaced: Vec<Option<u32>>,
}

/// The branch that leads to a node that is there and isn't node 0.
pub fn branch_to(tree: &Tree, node: u32) -> Branch
    requires there { node < length tree.now.nodes }
    requires below { 0 < node }
    ensures { branch_at tree.now node ≡ Some result }
{
    tree.conditions_hold();
    let Some(branch) = tree.branch(node) else {
        unreachable!();
    };
    branch
}

impl PathSetters {
    /// Those of node 0. The one error is want of memory.
    pub fn make(alloc: Global, tree: &Tree) -> Result<PathSetters, AllocError>
        ensures { IfOk result (AreKept tree.now) }
    {
        tree.conditions_hold();
        let table = Setters::new(alloc, tree.root().len())?;
        let replaced = vec![in alloc; None; tree.len()]?;
        Ok(PathSetters {
            place: 0,
            table,
            replaced,
        })
    }

    /// Makes the setters of a node that isn't node 0 those of its parent.
    fn leave(&mut self, tree: &Tree)
        requires kept { AreKept tree.now self.old }
        requires below { 0 < self.old.place }
        ensures kept { AreKept tree.now self.new }
        ensures up { self.new.place < self.old.place }
    {
        tree.conditions_hold();
        let branch = branch_to(tree, self.place);
        let replaced = self.replaced[self.place as usize];
        self.table
            .set(branch.column as usize, branch.side, replaced);
        self.place = branch.parent;
    }

    /// Makes the setters of a node those of a child.
    fn enter(&mut self, tree: &Tree, node: u32)
        requires kept { AreKept tree.now self.old }
        requires child { parent_at tree.now node ≡ Some self.old.place }
        ensures kept { AreKept tree.now self.new }
        ensures down { self.new.place ≡ node }
    {
        tree.conditions_hold();
        let branch = branch_to(tree, node);
        let column = branch.column as usize;
        self.replaced[node as usize] = self.table.get(column, branch.side);
        self.table.set(column, branch.side, Some(node));
        self.place = node;
    }

    /// Makes the setters of a node those of the deepest node above both this one and another that is there. It gives the way from there down to the
    /// other: its nodes without the first one, the last one first. The one error is want of memory.
    fn climb(&mut self, alloc: Global, tree: &Tree, node: u32) -> Result<Vec<u32>, AllocError>
        requires kept { AreKept tree.now self.old }
        requires there { node < length tree.now.nodes }
        ensures kept { AreKept tree.now self.new }
        ensures way { IfOk result (λ w. IsWay tree.now self.new.place node w.items) }
    {
        tree.conditions_hold();
        let mut way = Vec::new(alloc);
        let mut other = node;
        while self.place != other {
            if self.place > other {
                self.leave(tree);
            } else {
                way.push(other)?;
                other = branch_to(tree, other).parent;
            }
        }
        Ok(way)
    }

    /// Makes the setters of a node those of one below it, to which a way leads down.
    fn descend(&mut self, tree: &Tree, mut way: Vec<u32>, _node: u32)
        requires kept { AreKept tree.now self.old }
        requires way { IsWay tree.now self.old.place _node way.items }
        ensures kept { AreKept tree.now self.new }
        ensures there { self.new.place ≡ _node }
    {
        while let Some(next) = way.pop() {
            self.enter(tree, next);
        }
    }

    /// Makes the setters of one node those of another that is there. It takes as many steps as there are branches between them. The one error is want
    /// of memory.
    pub fn walk(&mut self, alloc: Global, tree: &Tree, node: u32) -> Result<(), AllocError>
        requires kept { AreKept tree.now self.old }
        requires there { node < length tree.now.nodes }
        ensures kept { AreKept tree.now self.new }
        ensures there { OnOk result (self.new.place ≡ node) }
    {
        let way = self.climb(alloc, tree, node)?;
        self.descend(tree, way, node);
        Ok(())
    }
}
