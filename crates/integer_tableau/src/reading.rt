// What a tableau says of one variable.

ghost use Rattle.std.specs.Prelude.{◌≡◌, ◌<◌, length};
ghost use Rattle.tableau.specs.Tableau.{status_of};
ghost use Rattle.integer_tableau.specs.IntegerTableau.{status};

use crate::integer_tableau::IntegerTableau;
use crate::position::Position;
use tableau::BasisStatus;

/// Whether a variable at this position is basic, or else at which of its bounds it is.
fn status(position: Position, at_upper: bool) -> BasisStatus
    ensures { result ≡ status position at_upper }
{
    match position {
        Position::InBasis => BasisStatus::Basic,
        Position::InColumn(_) => {
            if at_upper {
                BasisStatus::AtUpper
            } else {
                BasisStatus::AtLower
            }
        }
    }
}

impl IntegerTableau {
    /// Whether a variable is basic, or else at which of its bounds it is.
    pub fn status(&self, variable: usize) -> BasisStatus
        requires { variable < length self.now.statuses }
        ensures { result ≡ status_of self.now variable }
    {
        status(self.positions[variable], self.at_upper[variable])
    }
}
