// What a tableau asks for next.

ghost use Rattle.std.specs.Prelude.{◌≡◌, ◌<◌, length, None};
ghost use Rattle.tableau.specs.Leaving.{leaving_from};
ghost use Rattle.tableau.specs.Entering.{entering_from};
ghost use Rattle.tableau.specs.Place.{place_entering, place_leaving, PlaceIsWithin};

use crate::bounds::{Bounds, Direction};
use crate::entering::entering;
use crate::leaving::leaving;
use crate::sparse_row::SparseRow;
use crate::status::BasisStatus;
use fraction::Frac;

/// What a tableau asks for next. Variables are numbered from 0: first the columns, then the values of the rows.
#[derive(Clone, Copy, Debug, PartialEq, Eq)]
pub enum Place {
    /// Each basic variable is within its bounds: the tableau is optimal.
    Done,
    /// This basic variable is outside its bounds, and no variable can bring it back: the linear program has no point.
    NoColumn { row: usize },
    /// Variable `row` leaves the basis, and variable `column` enters it.
    Pivot { row: usize, column: usize },
    /// A ratio is cramped.
    Cramped,
}

/// The place where this variable leaves the basis.
fn place_leaving(
    row: usize,
    direction: Direction,
    statuses: &[BasisStatus],
    bounds: &[Bounds],
    reduced_costs: &SparseRow,
    leaving_row: &SparseRow,
) -> Place
    requires bounds_there { length bounds.now ≡ length statuses.now }
    requires costs_there { length reduced_costs.now ≡ length statuses.now }
    requires row_there { row < length statuses.now }
    ensures within { PlaceIsWithin (length statuses.now) result }
    ensures value { result ≡ place_entering row (entering_from 0 direction None statuses.now bounds.now reduced_costs.now leaving_row.now) }
{
    match entering(direction, statuses, bounds, reduced_costs, leaving_row) {
        None => Place::Cramped,
        Some(None) => Place::NoColumn { row },
        Some(Some((column, _))) => Place::Pivot { row, column },
    }
}

/// The place of a tableau of these parts.
pub(crate) fn place_of(
    statuses: &[BasisStatus],
    bounds: &[Bounds],
    values: &[Frac],
    reduced_costs: &SparseRow,
    rows: &[SparseRow],
) -> Place
    requires bounds_there { length bounds.now ≡ length statuses.now }
    requires values_there { length values.now ≡ length statuses.now }
    requires costs_there { length reduced_costs.now ≡ length statuses.now }
    requires rows_there { length rows.now ≡ length statuses.now }
    ensures within { PlaceIsWithin (length statuses.now) result }
    ensures value { result ≡ place_leaving (leaving_from 0 statuses.now bounds.now values.now) statuses.now bounds.now reduced_costs.now rows.now }
{
    match leaving(statuses, bounds, values) {
        None => Place::Done,
        Some((row, direction)) => {
            place_leaving(row, direction, statuses, bounds, reduced_costs, &rows[row])
        }
    }
}
