// What a worker finds for a node.

use crate::mults::Mults;
use fraction::Frac;
use node_events::{Mult, Proof, RationalPoint, Reason};
use problem::Point;

/// What a worker finds for a node that it holds, by the node's box, the cuts and the cutoff that it knows. No event yet: events are decided by what
/// the cuts and the cutoff are then.
#[derive(Drop)]
pub enum Finding {
    /// Cuts that separate the optimum of the node's relaxation from the whole points.
    Cuts {
        /// For each cut the combination's rows with their factors.
        mults: Mults,
    },
    /// The proof closes the node.
    Shut {
        /// The proof.
        proof: Proof,
    },
    /// The one point of the node's box is feasible.
    Whole {
        /// The point.
        point: Point,
    },
    /// The optimum of the node's relaxation.
    Solved {
        /// How many cuts the relaxation has, in the order in which they were made.
        cuts: u32,
        /// The point.
        point: RationalPoint,
        /// A combination of rows and cuts that bounds the aim over the node's box by the optimum.
        mult: Mult,
        /// The optimal value.
        value: Frac,
        /// The column in which the node may be split; none where the point is whole.
        column: Option<u32>,
    },
    /// The dual simplex came to no answer.
    Loose {
        /// Why it didn't.
        reason: Reason,
        /// The column in which the node may be split.
        column: u32,
        /// The upper bound of the left child in the column.
        bound: i64,
    },
}
