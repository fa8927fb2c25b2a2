// What happens in a search.
ghost use Rattle.std.specs.Prelude.{◌≡◌, IfOk};

use crate::mult::Mult;
use crate::proof::Proof;
use crate::reason::Reason;
use problem::Point;
use std::alloc::{AllocError, Global};

/// One step of a search. Nodes and columns are numbered from 0.
#[derive(Drop)]
pub enum Event {
    /// A worker takes an open node, which nobody holds.
    Claim {
        /// The node.
        node: u32,
    },
    /// A worker gives back the node that it holds, which stays open.
    Release {
        /// The node.
        node: u32,
    },
    /// A cut: the rounded combination of rows.
    Cut {
        /// The combination's rows with their factors. They may be rows of the problem, bound rows and earlier cuts.
        mult: Mult,
    },
    /// A feasible point that is better than the incumbent becomes the incumbent.
    Offer {
        /// The point.
        point: Point,
    },
    /// A node is split in two: the left child with `x <= bound` in the column, then the right child with `x >= bound + 1`.
    Split {
        /// The node.
        node: u32,
        /// The column whose span is split.
        column: u32,
        /// The upper bound of the left child in the column.
        bound: i64,
        /// Why the node is split.
        reason: Reason,
    },
    /// A node is closed: its box has no feasible point that is better than the incumbent.
    Close {
        /// The node.
        node: u32,
        /// Why that is so.
        proof: Proof,
    },
}

impl Event {
    /// An equal event. The one error is want of memory.
    pub fn copy(&self, alloc: Global) -> Result<Event, AllocError>
        ensures { IfOk result (λ e. e ≡ self.now) }
    {
        let copy = match self {
            Event::Claim { node } => Event::Claim { node: *node },
            Event::Release { node } => Event::Release { node: *node },
            Event::Cut { mult } => Event::Cut {
                mult: mult.copy(alloc)?,
            },
            Event::Offer { point } => Event::Offer {
                point: point.copy(alloc)?,
            },
            Event::Split {
                node,
                column,
                bound,
                reason,
            } => Event::Split {
                node: *node,
                column: *column,
                bound: *bound,
                reason: reason.copy(alloc)?,
            },
            Event::Close { node, proof } => Event::Close {
                node: *node,
                proof: proof.copy(alloc)?,
            },
        };
        Ok(copy)
    }
}
