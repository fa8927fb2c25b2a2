// The entering variable, by the ratio test.

ghost use Rattle.std.specs.Prelude.{◌≡◌, ◌<◌, ◌&&◌, List, false, length, slice_index_or, IfSome, None};
ghost use Rattle.tableau.specs.Leaving.{bounds_differ};
ghost use Rattle.integer_tableau.specs.IntegerTableau.{bound_status, fraction_bounds};
ghost use Rattle.integer_tableau.specs.Positions.{AreNonbasic};
ghost use Rattle.integer_tableau.specs.Entering.{candidate_if_there, candidate_of, comes_first, entering_by_numerators, first_of, is_eligible_at};
ghost use Rattle.integer_tableau.specs.declared.position.Position.{Position};

use crate::integer_bounds::IntegerBounds;
use crate::pivot::is_upper;
use tableau::Direction;

/// A variable that may enter, with its ratio: the sizes of the numerators of its reduced cost and of its coefficient.
#[derive(Clone, Copy)]
pub(crate) struct Candidate {
    pub(crate) variable: usize,
    pub(crate) reduced_cost: u64,
    pub(crate) coefficient: u64,
}

/// The best before any is found. Its ratio is greater than that of each variable that may enter.
pub(crate) const NO_CANDIDATE: Candidate = Candidate {
    variable: 0,
    reduced_cost: 1,
    coefficient: 0,
};

/// Whether the new one comes first: its ratio is less, or it is the same and its number is less.
#[inline(always)]
pub(crate) fn comes_first(new: Candidate, best: Candidate) -> bool
    ensures { result ≡ comes_first new best }
{
    let new_product = u128::from(new.reduced_cost) * u128::from(best.coefficient);
    let best_product = u128::from(best.reduced_cost) * u128::from(new.coefficient);
    new_product < best_product || new_product == best_product && new.variable < best.variable
}

/// Whether the leaving variable goes its direction where this nonbasic variable goes away from its bound.
fn is_eligible(direction: Direction, at_upper: bool, numerator: i64) -> bool
    ensures { result ≡ is_eligible_at direction at_upper numerator }
{
    match (direction, at_upper) {
        (Direction::Rise, false) | (Direction::Fall, true) => numerator > 0,
        (Direction::Rise, true) | (Direction::Fall, false) => numerator < 0,
    }
}

/// Whether a nonbasic variable may enter: it is eligible, and isn't fixed. It is a call of its own, since few are asked.
#[inline(never)]
pub(crate) fn may_enter(
    direction: Direction,
    at_upper: bool,
    bounds: &IntegerBounds,
    numerator: i64,
) -> bool
    ensures { result ≡ (is_eligible_at direction at_upper numerator && bounds_differ (fraction_bounds bounds.now)) }
{
    is_eligible(direction, at_upper, numerator) && bounds.differ()
}

/// The same as `may_enter`, of a variable that is free or not. The conditions that hold are counted: of `&` the compiler would make branches, which the
/// processor guesses badly (docs/DECISIONS.md, entry 96).
#[inline(always)]
pub(crate) fn enters(direction: Direction, at_upper: bool, free: bool, numerator: i64) -> bool
    ensures { result ≡ (is_eligible_at direction at_upper numerator && free) }
{
    let rises = at_upper == is_upper(direction);
    let agrees = (numerator > 0) == rises;
    u8::from(numerator != 0) + u8::from(agrees) + u8::from(free) == 3
}

/// The best so far, with one nonbasic variable more, of these numerators. Few come first by their ratio, and half of them may enter:
/// the processor guesses the first well, so it is tested first.
#[inline(always)]
fn with_candidate(
    variable: usize,
    direction: Direction,
    best: Candidate,
    at_upper: &[bool],
    bounds: &[IntegerBounds],
    reduced_cost: i64,
    numerator: i64,
) -> Candidate
    requires at_upper_there { variable < length at_upper.now }
    requires bounds_there { variable < length bounds.now }
    requires great { best.coefficient ≡ 0 → 0 < best.reduced_cost }
    ensures value { candidate_if_there result ≡ first_of (candidate_of variable direction (bound_status (slice_index_or at_upper.now variable false)) (fraction_bounds (slice_index_or bounds.now variable record { lower = None; upper = None })) reduced_cost numerator) (candidate_if_there best) }
    ensures great { result.coefficient ≡ 0 → 0 < result.reduced_cost }
{
    let new = Candidate {
        variable,
        reduced_cost: reduced_cost.unsigned_abs(),
        coefficient: numerator.unsigned_abs(),
    };
    if comes_first(new, best)
        && may_enter(direction, at_upper[variable], &bounds[variable], numerator)
    {
        new
    } else {
        best
    }
}

/// The eligible variable of least ratio; the first on a tie. Basic variables can't enter, so the nonbasic ones alone are gone through:
/// by column, and so not in the order of their numbers.
pub(crate) fn entering(
    direction: Direction,
    nonbasic: &[usize],
    at_upper: &[bool],
    bounds: &[IntegerBounds],
    reduced_costs: &[i64],
    row: &[i64],
) -> Option<Candidate>
    requires nonbasic_are { (positions : List Position) × AreNonbasic positions nonbasic.now × (length at_upper.now ≡ length positions) }
    requires bounds_there { length bounds.now ≡ length at_upper.now }
    requires reduced_costs_there { length reduced_costs.now ≡ length nonbasic.now }
    requires row_there { length row.now ≡ length nonbasic.now }
    ensures value { (positions : List Position) → AreNonbasic positions nonbasic.now → length at_upper.now ≡ length positions → result ≡ entering_by_numerators 0 direction None positions at_upper.now bounds.now reduced_costs.now row.now }
    ensures within { IfSome result (λ b. b.variable < length at_upper.now) }
{
    let mut best = NO_CANDIDATE;
    for (column, variable) in nonbasic.iter().enumerate() {
        best = with_candidate(
            *variable,
            direction,
            best,
            at_upper,
            bounds,
            reduced_costs[column],
            row[column],
        );
    }
    if best.coefficient == 0 {
        None
    } else {
        Some(best)
    }
}
