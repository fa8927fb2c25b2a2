// The leaving variable.

ghost use Rattle.std.specs.Prelude.{◌≡◌, ◌<◌, length, IfSome};
ghost use Rattle.tableau.specs.Leaving.{leaving_at, leaving_from};

use crate::bounds::{Bounds, Direction};
use crate::status::BasisStatus;
use fraction::Frac;

/// In which direction a basic variable outside its bounds has to go.
fn leaving_at(status: BasisStatus, bounds: &Bounds, value: Frac) -> Option<Direction>
    ensures { result ≡ leaving_at status bounds.now value }
{
    match status {
        BasisStatus::Basic => bounds.violation(value),
        BasisStatus::AtLower | BasisStatus::AtUpper => None,
    }
}

/// The least basic variable outside its bounds, if there is one, and the direction in which it has to go.
pub(crate) fn leaving(
    statuses: &[BasisStatus],
    bounds: &[Bounds],
    values: &[Frac],
) -> Option<(usize, Direction)>
    requires bounds_there { length bounds.now ≡ length statuses.now }
    requires values_there { length values.now ≡ length statuses.now }
    ensures value { result ≡ leaving_from 0 statuses.now bounds.now values.now }
    ensures within { IfSome result (λ l. l.0 < length statuses.now) }
{
    for (i, status) in statuses.iter().enumerate() {
        if let Some(direction) = leaving_at(*status, &bounds[i], values[i]) {
            return Some((i, direction));
        }
    }
    None
}
