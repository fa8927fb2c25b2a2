//! The answers of the dual simplex.

use fraction::Frac;
use node_events::{Mult, RationalPoint};

/// What the dual simplex answers of a relaxation: of a problem's rows and some cuts over a box.
#[derive(Drop)]
pub enum Answer {
    /// No rational point of the box satisfies the rows and cuts.
    Infeasible {
        /// A combination of them that no point of the box satisfies.
        mult: Mult,
    },
    /// The relaxation's least aim, which is the objective that a search minimises.
    Optimal {
        /// A point of the relaxation that has it.
        point: RationalPoint,
        /// A combination of rows and cuts that bounds the aim over the box by it.
        mult: Mult,
        /// The least aim.
        value: Frac,
    },
    /// A fraction was too large.
    Cramped {
        /// How many pivots were whole before.
        pivots: u32,
    },
    /// The limit on pivots was met.
    Stalled,
}
