// The tableau at the start.

ghost use Rattle.std.specs.Prelude.{◌≡◌, ℕ, ◌<◌, ◌≤◌, [], length, replicate, slice_index_or, IsTrue, IfOk, IfSome, Some, None};
ghost use Rattle.tableau.specs.LinearProgram.{variables, over};
ghost use Rattle.tableau.specs.Start.{started};
ghost use Rattle.integer_tableau.specs.Range.{size_limit};
ghost use Rattle.integer_tableau.specs.Combined.{bound_size, total_bound_size};
ghost use Rattle.integer_tableau.specs.Start.{start_number};

use crate::basic_solution::BasicSolution;
use crate::dictionary::Dictionaries;
use crate::integer_bounds::IntegerBounds;
use crate::integer_program::IntegerProgram;
use crate::integer_row::IntegerRow;
use crate::integer_tableau::IntegerTableau;
use crate::range::SIZE_LIMIT;
use crate::start_sums::StartSums;
use problem_box::IntBox;
use std::alloc::{AllocError, Global};

/// The value of a column of this cost.
pub(crate) fn start_number(cost: i64, bounds: &IntegerBounds) -> i64
    ensures { result ≡ start_number cost bounds.now }
{
    if cost < 0 {
        bounds.upper.unwrap_or(0)
    } else {
        bounds.lower.unwrap_or(0)
    }
}

/// So many rows without numerators. The one error is want of memory.
pub(crate) fn empty_rows(alloc: Global, count: usize) -> Result<Vec<IntegerRow>, AllocError>
    ensures { IfOk result (λ v. v.items ≡ replicate count []) }
{
    let mut rows = Vec::with_capacity(alloc, count)?;
    for _i in 0..count {
        rows.push(IntegerRow::empty(alloc))?;
    }
    Ok(rows)
}

/// Whether the sizes of all bounds add up to less than `SIZE_LIMIT`.
pub(crate) fn has_room(bounds: &[IntegerBounds]) -> bool
    ensures { IsTrue result → total_bound_size bounds.now < size_limit }
{
    let mut total = 0u64;
    for own in bounds {
        match total.checked_add(own.size()) {
            Some(more) => total = more,
            None => return false,
        }
    }
    total < SIZE_LIMIT
}

/// The greatest size of the columns' bounds.
pub(crate) fn reach_of(bounds: &[IntegerBounds], columns: usize) -> u64
    requires { columns ≤ length bounds.now }
    ensures { (j : ℕ) → j < columns → bound_size (slice_index_or bounds.now j (record { lower = None; upper = None })) ≤ result }
{
    let mut reach = 0;
    for column in 0..columns {
        reach = reach.max(bounds[column].size());
    }
    reach
}

impl IntegerTableau {
    /// The tableau of a linear program over a box at the start, where the rows' values are basic and each column is at the bound that its cost
    /// asks for. None where the numbers are too large. The one error is want of memory.
    pub fn start(
        alloc: Global,
        program: &IntegerProgram,
        area: &IntBox,
    ) -> Result<Option<IntegerTableau>, AllocError>
        requires { length area.now ≡ length program.now.costs }
        ensures value { IfOk result (λ o. IfSome o (λ t. started (over program.now area.now) ≡ Some t)) }
        ensures size { IfOk result (λ o. IfSome o (λ t. length t.statuses ≡ variables program.now)) }
        ensures pivots { IfOk result (λ o. IfSome o (λ t. t.pivots ≡ 0)) }
    {
        let start = Dictionaries::at_start(alloc, program.rows.len(), &program.costs)?;
        let Some(solution) = BasicSolution::start(
            alloc,
            &None,
            &mut StartSums::new(alloc),
            &program.costs,
            area,
            &program.bounds,
            &mut BasicSolution::empty(alloc),
        )?
        else {
            return Ok(None);
        };
        let tableau = solution.into_tableau(
            alloc,
            &program.numbers,
            &program.rows,
            program.weight,
            &start,
            0,
        )?;
        Ok(Some(tableau))
    }
}
