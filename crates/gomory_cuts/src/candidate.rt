//! The rows of candidates by whole numbers. Most candidates are refused, and so they cost no fractions.

ghost use Rattle.std.specs.Prelude.{◌≡◌, ◌<◌, ◌≤◌, ◌++◌, IfOk, IfSome, IsTrue, All, length, map, None};
ghost use Rattle.std.specs.Option.{option_and_then};
ghost use Rattle.fraction.specs.Rational.{frac, whole, ceil};
ghost use Rattle.derivation_book.specs.Known.{known_lines};
ghost use Rattle.derivation_book.specs.Sums.{sums_of};
ghost use Rattle.derivation_book.specs.Rounded.{nonzero_terms};
ghost use Rattle.derivation_book.specs.OverOne.{sums_over};
ghost use Rattle.derivation_book.specs.Sizes.{denominator_limit};
ghost use Rattle.gomory_cuts.specs.Multipliers.{filled};
ghost use Rattle.gomory_cuts.specs.Separation.{if_violated};
ghost use Rattle.gomory_cuts.specs.Candidate.{fractions, counted_columns, filled_side, counted_candidate};

use crate::filled_column::add_column;
use crate::gomory::joined;
use crate::violation::is_satisfied;
use derivation_book::{Book, CombinedNumerators};
use dual_simplex::{FinalTableau, PointSums};
use fraction::Frac;
use problem::{Problem, Row, Sense, Terms};
use std::alloc::{AllocError, Global};

/// The right side rounded up, from its numerator; none where this is the least number of 128 bits.
fn rounded_side(side: i128, denominator: u64) -> Option<Frac>
    requires positive { 0 < denominator }
    requires small { denominator < denominator_limit }
    ensures { IfSome result (λ r. r ≡ whole (ceil (frac side denominator))) }
{
    if side == i128::MIN {
        return None;
    }
    Some(Frac::of(Frac::make(side, denominator as i128).ceil()))
}

/// The terms of the row that a candidate gives, if it gives one, but those in whose columns the point's number is 0, and its right side's numerator, from
/// the numbers of the combination of its rows and cuts. None where this gives up, since a number is too large. The one error is want of memory.
fn filled_numbers(
    alloc: Global,
    tableau: &FinalTableau,
    problem: &Problem,
    point: &PointSums,
    numerators: &CombinedNumerators,
) -> Result<Option<(Terms, i128)>, AllocError>
    requires positive { 0 < numerators.now.denominator }
    requires small { numerators.now.denominator < denominator_limit }
    requires long { length numerators.now.coefficients.items ≡ length problem.now.spans }
    requires columns { length problem.now.spans ≤ length tableau.now.statuses }
    ensures terms { IfOk result (λ o. IfSome o (λ r. r.0 ≡ nonzero_terms 0 (counted_columns point.now tableau.now 0 (fractions numerators.now.denominator numerators.now.coefficients.items)))) }
    ensures side { IfOk result (λ o. IfSome o (λ r. frac r.1 numerators.now.denominator ≡ filled_side tableau.now 0 (fractions numerators.now.denominator numerators.now.coefficients.items) problem.now.spans (frac numerators.now.side numerators.now.denominator))) }
{
    problem.limits_hold();
    let mut terms = Terms::with_capacity(alloc, numerators.coefficients.len())?;
    let mut side = numerators.side;
    for (column, numerator) in numerators.coefficients.iter().enumerate() {
        // Most numerators of a cut are 0.
        if *numerator != 0 {
            let added = add_column(
                &mut terms,
                side,
                column as u32,
                *numerator,
                numerators.denominator,
                tableau.status(column),
                problem.root().span(column),
                point.is_zero_at(column),
            )?;
            match added {
                Some(sum) => side = sum,
                None => return Ok(None),
            }
        }
    }
    Ok(Some((terms, side)))
}

/// The row that a candidate gives, if it gives one, but those of its terms, likewise.
fn candidate_row(
    alloc: Global,
    tableau: &FinalTableau,
    problem: &Problem,
    point: &PointSums,
    numerators: &CombinedNumerators,
) -> Result<Option<Row>, AllocError>
    requires positive { 0 < numerators.now.denominator }
    requires small { numerators.now.denominator < denominator_limit }
    requires long { length numerators.now.coefficients.items ≡ length problem.now.spans }
    requires columns { length problem.now.spans ≤ length tableau.now.statuses }
    ensures { IfOk result (λ o. IfSome o (λ r. r ≡ counted_candidate point.now tableau.now problem.now.spans (sums_over numerators.now.denominator (sums_of (map whole numerators.now.coefficients.items) (whole numerators.now.side))))) }
{
    let Some((terms, side)) = filled_numbers(alloc, tableau, problem, point, numerators)? else {
        return Ok(None);
    };
    match rounded_side(side, numerators.denominator) {
        Some(rhs) => Ok(Some(Row::make(Sense::G, rhs, terms))),
        None => Ok(None),
    }
}

/// Whether whole numbers tell that the point violates no cut of these multipliers of rows and of cuts. Where they tell nothing the answer is false. The
/// one error is want of memory.
pub(crate) fn is_refused(
    alloc: Global,
    tableau: &FinalTableau,
    problem: &Problem,
    book: &Book,
    point: &PointSums,
    of_rows: &Terms,
    of_cuts: &Terms,
) -> Result<bool, AllocError>
    requires columns { length problem.now.spans ≤ length tableau.now.statuses }
    requires known { All (λ m. m.0 < length (known_lines problem.now book.now.cuts)) (of_rows.now ++ of_cuts.now) }
    ensures { IfOk result (λ b. IsTrue b → option_and_then (if_violated problem.now book.now.cuts point.now) (filled problem.now book.now.cuts tableau.now of_rows.now of_cuts.now) ≡ None) }
{
    let plain = joined(alloc, of_rows, of_cuts)?;
    let Some(numerators) = book.numerators(alloc, problem, plain.as_slice())? else {
        return Ok(false);
    };
    match candidate_row(alloc, tableau, problem, point, &numerators)? {
        Some(row) => Ok(is_satisfied(point, &row)),
        None => Ok(false),
    }
}
