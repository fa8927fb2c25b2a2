//! The multipliers of a Chvátal-Gomory cut.

ghost use Rattle.std.specs.Prelude.{◌≡◌, ◌<◌, ◌≤◌, ◌++◌, IfOk, OnOk, All, length};
ghost use Rattle.derivation_book.specs.Known.{known_lines};
ghost use Rattle.gomory_cuts.specs.Multipliers.{filled};

use crate::filling::fillings;
use derivation_book::Book;
use dual_simplex::FinalTableau;
use problem::{Problem, Term, Terms};
use std::alloc::{AllocError, Global};

/// Puts terms behind others. The one error is want of memory.
fn append(terms: &mut Terms, more: &[Term]) -> Result<(), AllocError>
    ensures { OnOk result (terms.new ≡ terms.old ++ more.now) }
{
    for term in more {
        let (column, coefficient) = term.pair();
        terms.push(column, coefficient)?;
    }
    Ok(())
}

/// One list of terms behind another. The one error is want of memory.
pub(crate) fn joined(alloc: Global, front: &Terms, back: &Terms) -> Result<Terms, AllocError>
    ensures { IfOk result (λ t. t ≡ front.now ++ back.now) }
{
    let mut all = Terms::with_capacity(alloc, front.len().saturating_add(back.len()))?;
    append(&mut all, front.as_slice())?;
    append(&mut all, back.as_slice())?;
    Ok(all)
}

/// The multipliers of rows and of cuts, with the fillings between them that make the coefficients whole; none exactly where a step is cramped. The
/// one error is want of memory.
pub(crate) fn filled(
    alloc: Global,
    tableau: &FinalTableau,
    problem: &Problem,
    book: &Book,
    of_rows: &Terms,
    of_cuts: &Terms,
) -> Result<Option<Terms>, AllocError>
    requires columns { length problem.now.spans ≤ length tableau.now.statuses }
    requires known { All (λ m. m.0 < length (known_lines problem.now book.now.cuts)) (of_rows.now ++ of_cuts.now) }
    ensures { IfOk result (λ o. o ≡ filled problem.now book.now.cuts tableau.now of_rows.now of_cuts.now) }
{
    problem.limits_hold();
    let plain = joined(alloc, of_rows, of_cuts)?;
    let Some(coefficients) = book.combined_columns(alloc, problem, plain.as_slice())? else {
        return Ok(None);
    };
    let Some(of_bounds) = fillings(alloc, tableau, problem.rows() as u32, &coefficients)? else {
        return Ok(None);
    };
    let front = joined(alloc, of_rows, &of_bounds)?;
    Ok(Some(joined(alloc, &front, of_cuts)?))
}
