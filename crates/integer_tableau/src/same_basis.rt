// Whether a basis is that of a dictionary: whether the variables of its columns are nonbasic.

ghost use Rattle.std.specs.Prelude.{◌≡◌, ◌≢◌, ◌<◌, ℕ, length, slice_index_or, IsTrue};

use crate::position::Position;

/// Whether a variable is basic.
fn is_basic(position: Position) -> bool
    ensures yes { IsTrue result → position ≡ Position.InBasis }
    ensures no { position ≡ Position.InBasis → IsTrue result }
{
    match position {
        Position::InBasis => true,
        Position::InColumn(_) => false,
    }
}

/// Whether each of these variables is nonbasic by these positions.
pub(crate) fn are_nonbasic(positions: &[Position], variables: &[usize]) -> bool
    requires { (k : ℕ) → k < length variables.now → slice_index_or variables.now k 0 < length positions.now }
    ensures { IsTrue result → (k : ℕ) → k < length variables.now → slice_index_or positions.now (slice_index_or variables.now k 0) Position.InBasis ≢ Position.InBasis }
{
    for variable in variables {
        if is_basic(positions[*variable]) {
            return false;
        }
    }
    true
}
