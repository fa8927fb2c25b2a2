// The entering variable, by the ratio test.

ghost use Rattle.std.specs.Prelude.{◌≡◌, ◌<◌, ◌+◌, length, slice_index_or, None, IfSome, IsTrue};
ghost use Rattle.tableau.specs.Elimination.{entry};
ghost use Rattle.tableau.specs.Leaving.{unbounded};
ghost use Rattle.tableau.specs.Entering.{is_eligible, better, with_ratio, entering_from};
ghost use Rattle.tableau.specs.SparseSteps.{entering_by_entries};
ghost use Rattle.tableau.specs.declared.status.BasisStatus.TheVariants.{Basic};

use crate::bounds::{Bounds, Direction};
use crate::entry::Entry;
use crate::sparse_row::SparseRow;
use crate::status::BasisStatus;
use fraction::Frac;
use std::cmp::Ordering;

/// Whether the leaving variable goes its direction where this nonbasic variable goes away from its bound.
fn is_eligible(direction: Direction, status: BasisStatus, coefficient: Frac) -> bool
    ensures { result ≡ is_eligible direction status coefficient }
{
    match (direction, status) {
        (_, BasisStatus::Basic) => false,
        (Direction::Rise, BasisStatus::AtLower) | (Direction::Fall, BasisStatus::AtUpper) => {
            coefficient.numer() > 0
        }
        (Direction::Rise, BasisStatus::AtUpper) | (Direction::Fall, BasisStatus::AtLower) => {
            coefficient.numer() < 0
        }
    }
}

/// The variable of least ratio so far, with its ratio, or this one.
fn better(variable: usize, ratio: Frac, best: Option<(usize, Frac)>) -> Option<(usize, Frac)>
    ensures { result ≡ better variable ratio best }
{
    match best {
        None => Some((variable, ratio)),
        Some((held, least)) => {
            if ratio.cmp(least) == Ordering::Less {
                Some((variable, ratio))
            } else {
                Some((held, least))
            }
        }
    }
}

/// The variable of least ratio so far, with one variable more; none where its ratio is cramped.
fn with_ratio(
    variable: usize,
    direction: Direction,
    best: Option<(usize, Frac)>,
    status: BasisStatus,
    bounds: &Bounds,
    reduced_costs: &SparseRow,
    coefficient: Frac,
) -> Option<Option<(usize, Frac)>>
    ensures { result ≡ with_ratio variable direction best status bounds.now (entry reduced_costs.now variable) coefficient }
{
    if is_eligible(direction, status, coefficient) && bounds.differ() {
        let ratio = reduced_costs
            .coefficient(variable)
            .abs()
            .div(coefficient.abs())?;
        Some(better(variable, ratio, best))
    } else {
        Some(best)
    }
}

/// The same for an entry of the leaving row.
fn with_entry_ratio(
    term: &Entry,
    direction: Direction,
    best: Option<(usize, Frac)>,
    statuses: &[BasisStatus],
    bounds: &[Bounds],
    reduced_costs: &SparseRow,
) -> Option<Option<(usize, Frac)>>
    requires { length bounds.now ≡ length statuses.now }
    ensures value { result ≡ with_ratio term.now.0 direction best (slice_index_or statuses.now term.now.0 Basic) (slice_index_or bounds.now term.now.0 unbounded) (entry reduced_costs.now term.now.0) term.now.1 }
    ensures within { IfSome best (λ b. b.0 < length statuses.now) → IfSome result (λ next. IfSome next (λ b. b.0 < length statuses.now)) }
{
    let variable = term.index();
    if variable >= statuses.len() {
        return Some(best);
    }
    with_ratio(
        variable,
        direction,
        best,
        statuses[variable],
        &bounds[variable],
        reduced_costs,
        term.coefficient(),
    )
}

/// The variable of least ratio among entries of the leaving row; none where a ratio is cramped.
fn least_ratio(
    entries: &[Entry],
    direction: Direction,
    statuses: &[BasisStatus],
    bounds: &[Bounds],
    reduced_costs: &SparseRow,
) -> Option<Option<(usize, Frac)>>
    requires { length bounds.now ≡ length statuses.now }
    ensures value { result ≡ entering_by_entries direction None statuses.now bounds.now reduced_costs.now entries.now }
    ensures within { IfSome result (λ best. IfSome best (λ b. b.0 < length statuses.now)) }
{
    let mut best = None;
    for term in entries {
        best = with_entry_ratio(term, direction, best, statuses, bounds, reduced_costs)?;
    }
    Some(best)
}

/// The entering variable, if one is eligible, with its ratio; none where a ratio is cramped.
pub(crate) fn entering(
    direction: Direction,
    statuses: &[BasisStatus],
    bounds: &[Bounds],
    reduced_costs: &SparseRow,
    row: &SparseRow,
) -> Option<Option<(usize, Frac)>>
    requires bounds_there { length bounds.now ≡ length statuses.now }
    requires costs_there { length reduced_costs.now ≡ length statuses.now }
    ensures value { result ≡ entering_from 0 direction None statuses.now bounds.now reduced_costs.now row.now }
    ensures within { IfSome result (λ best. IfSome best (λ b. b.0 < length statuses.now)) }
{
    least_ratio(row.entries(), direction, statuses, bounds, reduced_costs)
}
