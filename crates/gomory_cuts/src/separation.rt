//! The cuts that separate a point.

ghost use Rattle.std.specs.Prelude.{◌≡◌, ◌<◌, ◌≤◌, ◌++◌, ◌∷◌, ◌&&◌, nat_eq, IfOk, OnOk, List, Option, length, drop, take};
ghost use Rattle.std.specs.Ordering.{int_eq};
ghost use Rattle.problem.specs.Linear.{Multipliers};
ghost use Rattle.tableau.specs.Tableau.{row_of};
ghost use Rattle.gomory_cuts.specs.declared.sign.Sign.TheVariants.{Plus, Minus};
ghost use Rattle.gomory_cuts.specs.Separation.{cut_at, is_fractional, cuts_at, is_same, is_found, with_cuts, most_separated, separation};
ghost use Rattle.dual_simplex.specs.Sizes.{most_numbered_cuts};

use crate::candidate::is_refused;
use crate::gomory::filled;
use crate::multiplier::{of_cuts, of_rows};
use crate::sign::Sign;
use crate::violation::has_violated_row;
use derivation_book::Book;
use dual_simplex::{FinalTableau, PointSums};
use fraction::Frac;
use node_events::{Mult, RationalPoint};
use problem::{Problem, Term};
use std::alloc::{AllocError, Global};
use tableau::BasisStatus;

/// How many cuts are separated at most.
const MOST_SEPARATED: usize = 4;

/// The multipliers of the cut that a column's row gives with a sign; none exactly where a step is cramped, or the point violates no such cut. Of the row,
/// what stands behind the columns is given. The one error is want of memory.
fn cut_at(
    alloc: Global,
    tableau: &FinalTableau,
    problem: &Problem,
    book: &Book,
    point: &PointSums,
    column: usize,
    rest: &[Frac],
    sign: Sign,
) -> Result<Option<Mult>, AllocError>
    requires few { length book.now.cuts < most_numbered_cuts }
    requires columns { length problem.now.spans ≤ length tableau.now.statuses }
    requires rest { rest.now ≡ drop (length problem.now.spans) (row_of tableau.now column) }
    ensures { IfOk result (λ o. o ≡ cut_at problem.now book.now.cuts tableau.now point.now column sign) }
{
    let Some(of_rows) = of_rows(alloc, problem, sign, rest)? else {
        return Ok(None);
    };
    let Some(of_cuts) = of_cuts(alloc, problem, book, sign, rest)? else {
        return Ok(None);
    };
    // Deep in a tree 99 of 100 candidates are refused.
    if is_refused(alloc, tableau, problem, book, point, &of_rows, &of_cuts)? {
        return Ok(None);
    }
    let Some(multipliers) = filled(alloc, tableau, problem, book, &of_rows, &of_cuts)? else {
        return Ok(None);
    };
    let mult = Mult::make(multipliers);
    if has_violated_row(alloc, problem, book, point, &mult)? {
        Ok(Some(mult))
    } else {
        Ok(None)
    }
}

/// Whether a column is basic, and its number at the point isn't whole.
fn is_fractional(tableau: &FinalTableau, point: &RationalPoint, column: usize) -> bool
    requires there { column < length tableau.now.statuses }
    requires number { column < length point.now }
    ensures { result ≡ is_fractional tableau.now point.now column }
{
    match tableau.status(column) {
        BasisStatus::Basic => point.get(column).denom() != 1,
        BasisStatus::AtLower | BasisStatus::AtUpper => false,
    }
}

/// Whether both are the same number with the same multiplier.
fn is_same_pair(a: (u32, Frac), b: (u32, Frac)) -> bool
    ensures { result ≡ nat_eq a.0 b.0 && int_eq a.1.num b.1.num && nat_eq a.1.den b.1.den }
{
    a.0 == b.0 && a.1.numer() == b.1.numer() && a.1.denom() == b.1.denom()
}

/// Whether both are the same multipliers.
fn is_same(a: &[Term], b: &[Term]) -> bool
    ensures { result ≡ is_same a.now b.now }
{
    for (i, multiplier) in a.iter().enumerate() {
        if i >= b.len() {
            return false;
        }
        if !is_same_pair(multiplier.pair(), b[i].pair()) {
            return false;
        }
    }
    a.len() == b.len()
}

/// Whether these multipliers are among those that are found.
fn is_found(mult: &Mult, found: &[Mult]) -> bool
    ensures { result ≡ is_found mult.now found.now }
{
    for other in found {
        if is_same(mult.as_slice(), other.as_slice()) {
            return true;
        }
    }
    false
}

/// Adds the cut of a column's row and a sign, if it is there and new and there is place for one more. The one error is want of memory.
fn add_cut(
    alloc: Global,
    tableau: &FinalTableau,
    problem: &Problem,
    book: &Book,
    point: &PointSums,
    column: usize,
    rest: &[Frac],
    sign: Sign,
    found: &mut Vec<Mult>,
) -> Result<(), AllocError>
    requires few { length book.now.cuts < most_numbered_cuts }
    requires columns { length problem.now.spans ≤ length tableau.now.statuses }
    requires rest { rest.now ≡ drop (length problem.now.spans) (row_of tableau.now column) }
    requires few_found { length found.old.items ≤ most_separated }
    ensures value { OnOk result ((rest : List (Option Multipliers)) → take most_separated (with_cuts found.new.items rest) ≡ take most_separated (with_cuts found.old.items (cut_at problem.now book.now.cuts tableau.now point.now column sign ∷ rest))) }
    ensures few_found { OnOk result (length found.new.items ≤ most_separated) }
{
    if found.len() == MOST_SEPARATED {
        return Ok(());
    }
    if let Some(mult) = cut_at(alloc, tableau, problem, book, point, column, rest, sign)? {
        if !is_found(&mult, found) {
            found.push(mult)?;
        }
    }
    Ok(())
}

/// Adds the cuts of a column's row with both signs, those that are there and new, as long as there is place. The one error is want of memory.
fn add_cuts_of_row(
    alloc: Global,
    tableau: &FinalTableau,
    problem: &Problem,
    book: &Book,
    point: &PointSums,
    column: usize,
    rest: &[Frac],
    found: &mut Vec<Mult>,
) -> Result<(), AllocError>
    requires few { length book.now.cuts < most_numbered_cuts }
    requires columns { length problem.now.spans ≤ length tableau.now.statuses }
    requires rest { rest.now ≡ drop (length problem.now.spans) (row_of tableau.now column) }
    requires few_found { length found.old.items ≤ most_separated }
    ensures value { OnOk result ((rest : List (Option Multipliers)) → take most_separated (with_cuts found.new.items rest) ≡ take most_separated (with_cuts found.old.items (cut_at problem.now book.now.cuts tableau.now point.now column Plus ∷ cut_at problem.now book.now.cuts tableau.now point.now column Minus ∷ rest))) }
    ensures few_found { OnOk result (length found.new.items ≤ most_separated) }
{
    add_cut(
        alloc,
        tableau,
        problem,
        book,
        point,
        column,
        rest,
        Sign::Plus,
        found,
    )?;
    add_cut(
        alloc,
        tableau,
        problem,
        book,
        point,
        column,
        rest,
        Sign::Minus,
        found,
    )?;
    Ok(())
}

/// Adds the cuts of a column, if it is basic and its number isn't whole. The one error is want of memory.
fn add_cuts(
    alloc: Global,
    tableau: &FinalTableau,
    problem: &Problem,
    book: &Book,
    point: &RationalPoint,
    sums: &PointSums,
    column: usize,
    found: &mut Vec<Mult>,
) -> Result<(), AllocError>
    requires few { length book.now.cuts < most_numbered_cuts }
    requires columns { length problem.now.spans ≤ length tableau.now.statuses }
    requires column { column < length problem.now.spans }
    requires point { length point.now ≡ length problem.now.spans }
    requires same { sums.now ≡ point.now }
    requires few_found { length found.old.items ≤ most_separated }
    ensures value { OnOk result ((rest : List (Option Multipliers)) → take most_separated (with_cuts found.new.items rest) ≡ take most_separated (with_cuts found.old.items (cuts_at problem.now book.now.cuts tableau.now point.now column ++ rest))) }
    ensures few_found { OnOk result (length found.new.items ≤ most_separated) }
{
    // A row takes long to read, and where there is no place for its cuts it isn't.
    if found.len() == MOST_SEPARATED || !is_fractional(tableau, point, column) {
        return Ok(());
    }
    let rest = tableau.coefficients_from(alloc, column, problem.columns())?;
    add_cuts_of_row(alloc, tableau, problem, book, sums, column, &rest, found)?;
    Ok(())
}

/// The multipliers of at most four cuts that the point violates, over the problem's rows, its bound rows and the book's cuts.
///
/// Each basic column whose number at the point isn't whole gives the cut of its row, and that of its row times -1, in the order of the columns. What
/// was found already is passed over. The tableau is one of the problem and some of the first cuts, and the point has a number for each column. The
/// one error is want of memory.
pub fn separate(
    alloc: Global,
    tableau: &FinalTableau,
    problem: &Problem,
    book: &Book,
    point: &RationalPoint,
) -> Result<Vec<Mult>, AllocError>
    requires few { length book.now.cuts < most_numbered_cuts }
    requires columns { length problem.now.spans ≤ length tableau.now.statuses }
    requires point { length point.now ≡ length problem.now.spans }
    ensures { IfOk result (λ v. v.items ≡ separation problem.now book.now.cuts tableau.now point.now) }
{
    problem.limits_hold();
    let columns = problem.columns();
    let sums = PointSums::make(alloc, point)?;
    let mut found = Vec::new(alloc);
    for column in 0..columns {
        add_cuts(
            alloc, tableau, problem, book, point, &sums, column, &mut found,
        )?;
    }
    Ok(found)
}
