// Nodes and the branches that lead to them.
ghost use Rattle.std.specs.Prelude.{◌≡◌, ◌==◌, ◌&&◌};

/// Which bound of its column a branch sets.
#[derive(Clone, Copy, Debug, PartialEq, Eq)]
pub enum Side {
    /// The lower bound: `x >= bound`.
    Low,
    /// The upper bound: `x <= bound`.
    High,
}

/// The branch that leads to a node: where it starts, and the bound that it sets.
#[derive(Clone, Copy, Debug, PartialEq, Eq)]
pub struct Branch {
    /// The node that was split.
    pub parent: u32,
    /// The column whose bound is set.
    pub column: u32,
    /// Which of its bounds.
    pub side: Side,
    /// The bound.
    pub bound: i64,
}

impl Branch {
    ghost use Rattle.node_tree.specs.Paths.{is_same_side};

    /// Whether the branch sets this bound.
    pub fn sets(&self, column: u32, side: Side) -> bool
        ensures { result ≡ (column == self.now.column && is_same_side side self.now.side) }
    {
        column == self.column && side == self.side
    }
}

/// A node of a tree.
#[derive(Clone, Copy, Debug, PartialEq, Eq)]
pub struct Node {
    /// The branch that leads to it; none at node 0.
    pub branch: Option<Branch>,
    /// The first of its two children, if it was split. The other one has the next number.
    pub first_child: Option<u32>,
}
