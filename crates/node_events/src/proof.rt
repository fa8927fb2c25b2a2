// Why a node holds no better point.
ghost use Rattle.std.specs.Prelude.{◌≡◌, IfOk};

use crate::mult::Mult;
use std::alloc::{AllocError, Global};

/// Why no point of a node's box is feasible and better than the incumbent. Multipliers name rows of the problem and cuts, and no bound rows.
#[derive(Drop)]
pub enum Proof {
    /// The bounds of a column cross: the box has no point.
    Empty {
        /// The column whose lower bound is above its upper one.
        column: u32,
    },
    /// A combination of rows that no point of the box satisfies.
    Refute {
        /// The combination's rows with their factors.
        mult: Mult,
    },
    /// A combination of rows that bounds the aim, which is the objective that a search minimises, over the box from below, by the incumbent's value at least.
    Bound {
        /// The combination's rows with their factors.
        mult: Mult,
        /// Whether the bound is rounded up, as it may be where the objective is whole.
        rounded: bool,
    },
}

impl Proof {
    /// An equal proof. The one error is want of memory.
    pub fn copy(&self, alloc: Global) -> Result<Proof, AllocError>
        ensures { IfOk result (λ p. p ≡ self.now) }
    {
        let copy = match self {
            Proof::Empty { column } => Proof::Empty { column: *column },
            Proof::Refute { mult } => Proof::Refute {
                mult: mult.copy(alloc)?,
            },
            Proof::Bound { mult, rounded } => Proof::Bound {
                mult: mult.copy(alloc)?,
                rounded: *rounded,
            },
        };
        Ok(copy)
    }
}
