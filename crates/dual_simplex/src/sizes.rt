//! Whether the numbers of a relaxation are whole and small.

ghost use Rattle.std.specs.Prelude.{◌≤◌, IsTrue, All, length, take};
ghost use Rattle.problem.specs.declared.row.Row.{Row as RowValue};
ghost use Rattle.problem.specs.Limited.{IsModestSpan};
ghost use Rattle.problem.specs.Rising.{AreRising};
ghost use Rattle.derivation_book.specs.declared.cut.Cut.{Cut};
ghost use Rattle.dual_simplex.specs.Sizes.{IsIntegerTo, HasIntegers, IsIntegerRow, IsIntegerRelaxation, largest_integer};

use derivation_book::Book;
use fraction::Frac;
use problem::{LARGEST_BOUND, Problem, Row, Term};
use problem_box::{IntBox, Span};

/// The largest size of a coefficient or a right side of a relaxation of small whole numbers: 2^50.
pub(crate) const LARGEST_INTEGER: u128 = 1 << 50;

/// The most cuts of a relaxation of small whole numbers, beside the problem's rows.
const MOST_SMALL_CUTS: usize = 1_000;

/// Whether this is a whole number of size at most `LARGEST_INTEGER`.
fn is_small(number: Frac) -> bool
    ensures { IsTrue result → IsIntegerTo largest_integer number }
{
    number.is_whole() && number.numer().unsigned_abs() <= LARGEST_INTEGER
}

/// Whether the coefficients of terms whose columns rise are such numbers.
fn are_small(terms: &[Term]) -> bool
    requires { AreRising terms.now }
    ensures { IsTrue result → HasIntegers terms.now }
{
    for term in terms {
        if !is_small(term.coefficient()) {
            return false;
        }
    }
    true
}

/// Whether the coefficients and the right side of a row whose columns rise are such numbers.
fn is_small_row(row: &Row) -> bool
    requires { AreRising row.now.terms }
    ensures { IsTrue result → IsIntegerRow row.now }
{
    is_small(row.rhs) && are_small(row.terms.as_slice())
}

/// Whether each row of the problem is one of such numbers.
fn are_small_rows(problem: &Problem) -> bool
    ensures { IsTrue result → All IsIntegerRow problem.now.rows }
{
    problem.limits_hold();
    for index in 0..problem.rows() {
        if !is_small_row(problem.row(index)) {
            return false;
        }
    }
    true
}

/// Whether each of the first cuts is one of such numbers.
fn are_small_cuts(book: &Book, cuts: usize) -> bool
    requires { cuts ≤ length book.now.cuts }
    ensures { IsTrue result → All (λ (c : Cut). IsIntegerRow c.row) (take cuts book.now.cuts) }
{
    for index in 0..cuts {
        if !is_small_row(book.cut(index)) {
            return false;
        }
    }
    true
}

/// Whether all numbers of a problem's aim and rows and of the first cuts are whole and small, and the cuts are few.
pub(crate) fn is_integer_relaxation(problem: &Problem, book: &Book, cuts: usize) -> bool
    requires { cuts ≤ length book.now.cuts }
    ensures { IsTrue result → IsIntegerRelaxation problem.now (take cuts book.now.cuts) }
{
    problem.limits_hold();
    cuts <= MOST_SMALL_CUTS
        && are_small(problem.aim().as_slice())
        && are_small_rows(problem)
        && are_small_cuts(book, cuts)
}

/// Whether the bounds of a span have size at most `LARGEST_BOUND`.
fn is_modest_span(span: Span) -> bool
    ensures { IsTrue result → IsModestSpan span }
{
    span.lo.unsigned_abs() <= u64::from(LARGEST_BOUND)
        && span.hi.unsigned_abs() <= u64::from(LARGEST_BOUND)
}

/// Whether each bound of a box has size at most `LARGEST_BOUND`.
pub(crate) fn is_modest(area: &IntBox) -> bool
    ensures { IsTrue result → All IsModestSpan area.now }
{
    for column in 0..area.len() {
        if !is_modest_span(area.span(column)) {
            return false;
        }
    }
    true
}
