// Boxes that are moved along a tree.
//
// A parent's number is smaller than its child's. So where two nodes differ, the one of the greater number isn't above the other, and the next
// node up from it is tried: the walk is as long as the way between the nodes, however deep they are.
ghost use Rattle.std.specs.Prelude.{◌≡◌, ◌<◌, length};
ghost use Rattle.node_tree.specs.Paths.{box_at, bound_on};
ghost use Rattle.node_tree.specs.Cuts.{cut_on};
ghost use Rattle.node_tree.specs.Walks.{up, IsAbove, tighter, tightened, tightened_at};

use crate::branch::{Branch, Side};
use crate::nodes::Nodes;
use problem_box::{IntBox, Span};

/// A bound of a span.
pub fn bound_on(span: Span, side: Side) -> i64
    ensures { result ≡ bound_on side span }
{
    match side {
        Side::Low => span.lo,
        Side::High => span.hi,
    }
}

/// Sets a bound of a column that is there.
fn set_bound(area: &mut IntBox, column: u32, side: Side, bound: i64)
    requires { column < length area.old }
    ensures { area.new ≡ cut_on side area.old column bound }
{
    match side {
        Side::Low => area.set_low(column as usize, bound),
        Side::High => area.set_high(column as usize, bound),
    }
}

/// The tighter one of two bounds.
fn tighter(side: Side, first: i64, second: i64) -> i64
    ensures { result ≡ tighter side first second }
{
    match side {
        Side::Low => first.max(second),
        Side::High => first.min(second),
    }
}

/// Sets the bound of a branch, unless the box has a tighter one.
fn tighten(area: &mut IntBox, branch: Branch)
    requires { branch.column < length area.old }
    ensures { area.new ≡ tightened branch area.old }
{
    let bound = bound_on(area.span(branch.column as usize), branch.side);
    let tighter = tighter(branch.side, bound, branch.bound);
    set_bound(area, branch.column, branch.side, tighter);
}

impl Nodes {
    /// The parent of a node that is there; node 0 for node 0.
    fn up(&self, node: u32) -> u32
        requires { node < length self.now.nodes }
        ensures { result ≡ up self.now node }
    {
        match self.entry(node).node.branch {
            Some(branch) => branch.parent,
            None => node,
        }
    }

    /// Makes the box of a node that of its parent, which is given.
    fn leave(&self, area: &mut IntBox, node: u32) -> u32
        requires there { node < length self.now.nodes }
        requires here { area.old ≡ box_at self.now node }
        ensures up { result ≡ up self.now node }
        ensures moved { area.new ≡ box_at self.now (up self.now node) }
    {
        self.conditions_hold();
        let entry = self.entry(node);
        match entry.node.branch {
            Some(branch) => {
                set_bound(area, branch.column, branch.side, entry.replaced);
                branch.parent
            }
            None => node,
        }
    }

    /// Tightens a box by the branch that leads to a node, and gives the node's parent.
    fn enter(&self, area: &mut IntBox, node: u32) -> u32
        requires there { node < length self.now.nodes }
        requires columns { length area.old ≡ length self.now.root }
        ensures up { result ≡ up self.now node }
        ensures tightened { area.new ≡ tightened_at self.now node area.old }
    {
        self.conditions_hold();
        match self.entry(node).node.branch {
            Some(branch) => {
                tighten(area, branch);
                branch.parent
            }
            None => node,
        }
    }

    /// Makes the box of a node that of the deepest node above both this one and another, which is given. Both are there.
    fn climb(&self, area: &mut IntBox, from: u32, to: u32) -> u32
        requires from_there { from < length self.now.nodes }
        requires to_there { to < length self.now.nodes }
        requires here { area.old ≡ box_at self.now from }
        ensures there { result < length self.now.nodes }
        ensures above { IsAbove self.now result to }
        ensures moved { area.new ≡ box_at self.now result }
    {
        self.conditions_hold();
        let mut at = from;
        let mut other = to;
        while at != other {
            if at > other {
                at = self.leave(area, at);
            } else {
                other = self.up(other);
            }
        }
        at
    }

    /// Makes the box of a node that of a node below it. Branches are taken from the lower node up: the deepest one of a bound is the tightest,
    /// so their order doesn't matter.
    fn descend(&self, area: &mut IntBox, top: u32, node: u32)
        requires there { node < length self.now.nodes }
        requires above { IsAbove self.now top node }
        requires here { area.old ≡ box_at self.now top }
        ensures { area.new ≡ box_at self.now node }
    {
        self.conditions_hold();
        let mut at = node;
        while at != top {
            at = self.enter(area, at);
        }
    }

    /// Makes the box of one node that of another. Both are there. It takes no memory, and as many steps as there are branches between them.
    pub fn walk(&self, area: &mut IntBox, from: u32, to: u32)
        requires from_there { from < length self.now.nodes }
        requires to_there { to < length self.now.nodes }
        requires here { area.old ≡ box_at self.now from }
        ensures { area.new ≡ box_at self.now to }
    {
        let top = self.climb(area, from, to);
        self.descend(area, top, to);
    }
}
