// The best candidate, and the columns up to it whose edges aren't noted yet.

ghost use Rattle.std.specs.Prelude.{◌≡◌, ◌<◌, ◌&&◌, ◌⊎◌, ℕ, List, false, filter, length, nat_abs, not, slice_index_or, true, IfOk, None, OnOk, Some};
ghost use Rattle.tableau.specs.Leaving.{bounds_differ};
ghost use Rattle.integer_tableau.specs.Entering.{candidate_if_there, candidate_of, comes_first, entering_by_numerators, first_of};
ghost use Rattle.integer_tableau.specs.Exits.{column_candidate, is_behind, is_between, variable_enters};
ghost use Rattle.integer_tableau.specs.IntegerTableau.{bound_status, fraction_bounds};
ghost use Rattle.integer_tableau.specs.Numbers.{number_at};
ghost use Rattle.integer_tableau.specs.Positions.{AreNonbasic};
ghost use Rattle.integer_tableau.specs.RankedColumns.{AreRanked, IsWithColumn, ranked_candidate};
ghost use Rattle.integer_tableau.specs.declared.position.Position.{Position};

use crate::entering::{Candidate, NO_CANDIDATE, comes_first, may_enter};
use crate::integer_bounds::IntegerBounds;
use crate::ranked_column::RankedColumn;
use std::alloc::AllocError;
use tableau::Direction;

/// The best so far, with one nonbasic variable more, of these numerators. Its column is put behind the others, if it has a coefficient, comes behind the last
/// candidate, if there is one, and before the best so far. What doesn't come behind the last candidate may not enter. The one error is want of memory.
///
/// Two thirds of the columns don't come first by their ratio, and this test is the cheapest, so it is made first.
#[inline(always)]
fn with_column(
    columns: &mut Vec<RankedColumn>,
    column: usize,
    variable: usize,
    direction: Direction,
    last: Option<Candidate>,
    best: Candidate,
    at_upper: &[bool],
    bounds: &[IntegerBounds],
    reduced_cost: i64,
    coefficient: i64,
) -> Result<Candidate, AllocError>
    requires at_upper_there { variable < length at_upper.now }
    requires bounds_there { variable < length bounds.now }
    requires great { best.coefficient ≡ 0 → 0 < best.reduced_cost }
    requires noted { is_behind last record { variable = variable; reduced_cost = nat_abs reduced_cost; coefficient = nat_abs coefficient } ≡ false → variable_enters direction at_upper.now bounds.now variable coefficient ≡ false }
    ensures value { IfOk result (λ b. candidate_if_there b ≡ first_of (candidate_of variable direction (bound_status (slice_index_or at_upper.now variable false)) (fraction_bounds (slice_index_or bounds.now variable record { lower = None; upper = None })) reduced_cost coefficient) (candidate_if_there best)) }
    ensures better { IfOk result (λ b. (b ≡ best) ⊎ ((0 < b.coefficient) × (comes_first b best ≡ true))) }
    ensures columns { OnOk result (((comes_first record { variable = variable; reduced_cost = nat_abs reduced_cost; coefficient = nat_abs coefficient } best ≡ false) × (columns.new.items ≡ columns.old.items)) ⊎ ((comes_first record { variable = variable; reduced_cost = nat_abs reduced_cost; coefficient = nat_abs coefficient } best ≡ true) × IsWithColumn column variable reduced_cost coefficient last columns.old.items columns.new.items)) }
{
    let new = Candidate {
        variable,
        reduced_cost: reduced_cost.unsigned_abs(),
        coefficient: coefficient.unsigned_abs(),
    };
    if !comes_first(new, best) {
        return Ok(best);
    }
    let Some(ranked) = RankedColumn::behind(column, variable, reduced_cost, coefficient, last)
    else {
        return Ok(best);
    };
    columns.push(ranked)?;
    if may_enter(
        direction,
        at_upper[variable],
        &bounds[variable],
        coefficient,
    ) {
        Ok(new)
    } else {
        Ok(best)
    }
}

/// Drops the columns that come behind the best candidate.
fn drop_behind(columns: &mut Vec<RankedColumn>, best: Candidate)
    ensures { columns.new.items ≡ filter (λ c. not (comes_first best (ranked_candidate c))) columns.old.items }
{
    columns.retain(move |ranked| !comes_first(best, ranked.candidate()));
}

/// Makes the list that of the columns with a coefficient in the row that come behind the last candidate, if there is one, and not behind the eligible variable
/// of least ratio, by rising number. Whether there is an eligible variable. What doesn't come behind the last candidate may not enter. The one error is want of
/// memory.
///
/// As the best so far only comes earlier, no column that comes behind it is wanted.
pub(crate) fn rank_to_best(
    columns: &mut Vec<RankedColumn>,
    direction: Direction,
    nonbasic: &[usize],
    at_upper: &[bool],
    bounds: &[IntegerBounds],
    reduced_costs: &[i64],
    row: &[i64],
    last: Option<Candidate>,
) -> Result<bool, AllocError>
    requires nonbasic_are { (positions : List Position) × AreNonbasic positions nonbasic.now × (length at_upper.now ≡ length positions) }
    requires bounds_there { length bounds.now ≡ length at_upper.now }
    requires reduced_costs_there { length reduced_costs.now ≡ length nonbasic.now }
    requires row_there { length row.now ≡ length nonbasic.now }
    requires noted { (k : ℕ) → k < length nonbasic.now → is_behind last (column_candidate nonbasic.now reduced_costs.now row.now k) ≡ false → variable_enters direction at_upper.now bounds.now (slice_index_or nonbasic.now k 0) (number_at row.now k) ≡ false }
    ensures none { IfOk result (λ b. b ≡ false → (positions : List Position) → AreNonbasic positions nonbasic.now → length at_upper.now ≡ length positions → entering_by_numerators 0 direction None positions at_upper.now bounds.now reduced_costs.now row.now ≡ None) }
    ensures some { IfOk result (λ b. b ≡ true → (best : Candidate) × ((positions : List Position) → AreNonbasic positions nonbasic.now → length at_upper.now ≡ length positions → entering_by_numerators 0 direction None positions at_upper.now bounds.now reduced_costs.now row.now ≡ Some best) × AreRanked nonbasic.now reduced_costs.now row.now (λ k. is_between last best (column_candidate nonbasic.now reduced_costs.now row.now k)) (length nonbasic.now) columns.new.items) }
{
    columns.clear();
    let mut best = NO_CANDIDATE;
    for (column, variable) in nonbasic.iter().enumerate() {
        best = with_column(
            columns,
            column,
            *variable,
            direction,
            last,
            best,
            at_upper,
            bounds,
            reduced_costs[column],
            row[column],
        )?;
    }
    if best.coefficient == 0 {
        return Ok(false);
    }
    drop_behind(columns, best);
    Ok(true)
}
