// Where a variable is.

ghost use Rattle.std.specs.Prelude.{◌≡◌};
ghost use Rattle.tableau.specs.Pivot.{status_after};

use crate::bounds::Direction;

/// Whether a variable is basic, or else at which of its bounds it is.
#[derive(Clone, Copy, Debug, PartialEq, Eq)]
pub enum BasisStatus {
    /// In the basis: a row of the tableau says its value.
    Basic,
    /// Nonbasic, at its lower bound.
    AtLower,
    /// Nonbasic, at its upper bound.
    AtUpper,
}

impl BasisStatus {
    /// Where a leaving variable is then, by the direction that it took.
    pub(crate) fn after(direction: Direction) -> BasisStatus
        ensures { result ≡ status_after direction }
    {
        match direction {
            Direction::Rise => BasisStatus::AtLower,
            Direction::Fall => BasisStatus::AtUpper,
        }
    }
}
