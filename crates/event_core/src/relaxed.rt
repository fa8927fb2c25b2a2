// The test of points whose numbers need not be whole.
ghost use Rattle.std.specs.Prelude.{◌≡◌, ◌≤◌, IfOk, length, take};
ghost use Rattle.std.specs.List.{list_all};
ghost use Rattle.problem.specs.declared.row.Row.{Row as RowValue};
ghost use Rattle.problem.specs.Rising.{AreRising};
ghost use Rattle.problem.specs.Directions.{aim};
ghost use Rattle.derivation_book.specs.declared.cut.Cut.{Cut};
ghost use Rattle.derivation_book.specs.Legal.{has_whole_objective};
ghost use Rattle.dual_simplex.specs.PointSums.{checked_sum};
ghost use Rattle.event_core.specs.Feasibility.{stands};
ghost use Rattle.event_core.specs.Relaxed.{lies_in, lies_in_box, satisfies_row, is_relaxed, is_below_cutoff};

use derivation_book::{Book, reaches};
use dual_simplex::{PointSums, checked_sum};
use fraction::Frac;
use node_events::RationalPoint;
use problem::{Problem, Row, Sense};
use problem_box::{IntBox, Span};
use std::alloc::{AllocError, Global};
use std::cmp::Ordering;

/// From so many rows on, their sums take longer than the preparation of the point that makes them short.
const WORTH_PREPARING: usize = 4;

/// Whether the number lies between the ends of the span.
fn lies_in(span: Span, number: Frac) -> bool
    ensures { result ≡ lies_in span number }
{
    let low = Frac::of(i128::from(span.lo));
    let high = Frac::of(i128::from(span.hi));
    low.cmp(number).is_le() && number.cmp(high).is_le()
}

/// Whether the point has one number per span, each between the span's ends.
fn lies_in_box(area: &IntBox, point: &RationalPoint) -> bool
    ensures { result ≡ lies_in_box area.now point.now }
{
    if area.len() != point.len() {
        return false;
    }
    for column in 0..area.len() {
        let span = area.span(column);
        let number = point.get(column);
        if !lies_in(span, number) {
            return false;
        }
    }
    true
}

/// Whether a value that compares so with the right side of a row of this sense satisfies it.
fn stands(sense: Sense, ordering: Ordering) -> bool
    ensures { result ≡ stands sense ordering }
{
    match sense {
        Sense::G => ordering.is_ge(),
        Sense::L => ordering.is_le(),
        Sense::E => ordering.is_eq(),
    }
}

/// Whether the sum of a row whose columns rise is there, and satisfies the row.
fn satisfies_row(sums: &PointSums, row: &Row) -> bool
    requires { AreRising row.now.terms }
    ensures { result ≡ satisfies_row sums.now row.now }
{
    match sums.compare(row.terms.as_slice(), row.rhs) {
        Some(ordering) => stands(row.sense, ordering),
        None => false,
    }
}

/// Whether the point satisfies each row of the problem, and each sum is there.
fn satisfies_rows(problem: &Problem, sums: &PointSums) -> bool
    ensures { result ≡ list_all (λ (r : RowValue). satisfies_row sums.now r) problem.now.rows }
{
    problem.limits_hold();
    for index in 0..problem.rows() {
        let row = problem.row(index);
        if !satisfies_row(sums, row) {
            return false;
        }
    }
    true
}

/// Whether the point satisfies each of the first cuts, and each sum is there.
fn satisfies_cuts(book: &Book, cuts: usize, sums: &PointSums) -> bool
    requires { cuts ≤ length book.now.cuts }
    ensures { result ≡ list_all (λ (c : Cut). satisfies_row sums.now c.row) (take cuts book.now.cuts) }
{
    for index in 0..cuts {
        let row = book.cut(index);
        if !satisfies_row(sums, row) {
            return false;
        }
    }
    true
}

/// The point for the sums of so many rows, prepared unless they are few. The one error is want of memory.
fn sums_of(alloc: Global, point: &RationalPoint, rows: usize) -> Result<PointSums<'_>, AllocError>
    ensures { IfOk result (λ s. s ≡ point.now) }
{
    if rows < WORTH_PREPARING {
        return Ok(PointSums::plain(point));
    }
    PointSums::make(alloc, point)
}

/// Whether the point lies in the box and satisfies all rows and the first cuts, and each sum is there. The one error is want of memory.
pub fn is_relaxed(
    alloc: Global,
    problem: &Problem,
    book: &Book,
    cuts: usize,
    area: &IntBox,
    point: &RationalPoint,
) -> Result<bool, AllocError>
    requires { cuts ≤ length book.now.cuts }
    ensures { IfOk result (λ b. b ≡ is_relaxed problem.now (take cuts book.now.cuts) area.now point.now) }
{
    if !lies_in_box(area, point) {
        return Ok(false);
    }
    let sums = sums_of(alloc, point, problem.rows().saturating_add(cuts))?;
    Ok(satisfies_rows(problem, &sums) && satisfies_cuts(book, cuts, &sums))
}

/// Whether the objective is whole.
fn has_whole_objective(problem: &Problem) -> bool
    ensures { result ≡ has_whole_objective problem.now }
{
    problem.whole_objective()
}

/// Whether the sum of the aim is there, and, rounded up where the objective is whole, below the cutoff, if there is one.
pub fn is_below_cutoff(problem: &Problem, cutoff: Option<Frac>, point: &RationalPoint) -> bool
    ensures { result ≡ is_below_cutoff problem.now cutoff (checked_sum (aim problem.now) point.now) }
{
    problem.limits_hold();
    match checked_sum(point, problem.aim().as_slice()) {
        Some(value) => !reaches(cutoff, has_whole_objective(problem), Some(value)),
        None => false,
    }
}
