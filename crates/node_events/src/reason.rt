// Why a node is split.
ghost use Rattle.std.specs.Prelude.{◌≡◌, IfOk};

use crate::rational_point::RationalPoint;
use std::alloc::{AllocError, Global};

/// Why a node is split: what the linear program of the problem's rows and the first cuts over the node's box gave, where nothing closes the node.
#[derive(Drop)]
pub enum Reason {
    /// A point of the relaxation that isn't whole in the column, with an aim below the cutoff.
    Fractional {
        /// How many cuts the point satisfies, in the order in which they were made.
        cuts: u32,
        /// The point.
        point: RationalPoint,
    },
    /// The dual simplex met a fraction that is too large.
    Cramped {
        /// How many cuts the linear program had.
        cuts: u32,
        /// How many pivots were whole before.
        pivots: u32,
    },
    /// The dual simplex met its limit on pivots.
    Stalled {
        /// How many cuts the linear program had.
        cuts: u32,
    },
}

impl Reason {
    /// An equal reason. The one error is want of memory.
    pub fn copy(&self, alloc: Global) -> Result<Reason, AllocError>
        ensures { IfOk result (λ r. r ≡ self.now) }
    {
        let copy = match self {
            Reason::Fractional { cuts, point } => Reason::Fractional {
                cuts: *cuts,
                point: point.copy(alloc)?,
            },
            Reason::Cramped { cuts, pivots } => Reason::Cramped {
                cuts: *cuts,
                pivots: *pivots,
            },
            Reason::Stalled { cuts } => Reason::Stalled { cuts: *cuts },
        };
        Ok(copy)
    }
}
