// The cuts that are found of a node.
ghost use Rattle.std.specs.Prelude.{◌≡◌, ◌<◌, ◌≤◌, IfOk, IfSome, Some, length};
ghost use Rattle.problem.specs.Limits.{most_cuts};
ghost use Rattle.problem.specs.Linear.{Multipliers};
ghost use Rattle.dual_simplex.specs.declared.answer.Answer.TheVariants.{Optimal};
ghost use Rattle.dual_simplex.specs.Answers.{linear_program, run, answer};
ghost use Rattle.expand.specs.Columns.{fractional_columns};
ghost use Rattle.expand.specs.Expansion.{cuts_found};

use crate::mults::Mults;
use crate::optimum::is_reached;
use crate::subproblem::Subproblem;
use dual_simplex::FinalTableau;
use fraction::Frac;
use gomory_cuts::separate;
use node_events::RationalPoint;
use std::alloc::{AllocError, Global};

/// The cuts that separate an optimum, as many as there is room for: none where its point is whole, or its bound reaches the cutoff. The one error is
/// want of memory.
pub(crate) fn cuts_found(
    alloc: Global,
    subproblem: &Subproblem,
    tableau: &Option<FinalTableau>,
    point: &RationalPoint,
    value: Frac,
    columns: &[usize],
    room: usize,
) -> Result<Mults, AllocError>
    requires few { length subproblem.now.book.now.cuts ≤ most_cuts }
    requires area { length subproblem.now.area.now ≡ length subproblem.now.problem.now.spans }
    requires tableau { 0 < room → IfSome (run (linear_program subproblem.now.problem.now subproblem.now.book.now.cuts subproblem.now.area.now)).tableau (λ t. tableau.now ≡ Some t) }
    requires optimal { (mult : Multipliers) × (answer subproblem.now.problem.now subproblem.now.book.now.cuts subproblem.now.area.now ≡ Optimal point.now mult value) }
    requires point { length point.now ≡ length subproblem.now.problem.now.spans }
    requires columns { columns.now ≡ fractional_columns point.now }
    ensures { IfOk result (λ m. m ≡ cuts_found subproblem.now.problem.now subproblem.now.book.now.cuts subproblem.now.area.now subproblem.now.cutoff room point.now value) }
{
    if room == 0 || columns.is_empty() || is_reached(subproblem.problem, subproblem.cutoff, value) {
        return Ok(Mults::make(Vec::new(alloc)));
    }
    let Some(tableau) = tableau else {
        return Ok(Mults::make(Vec::new(alloc)));
    };
    let mults = separate(alloc, tableau, subproblem.problem, subproblem.book, point)?;
    Ok(Mults::make(mults).first(room))
}
