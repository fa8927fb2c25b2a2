//! Whether the sums at a rational point are there.

ghost use Rattle.std.specs.Prelude.{◌≡◌, ◌≤◌, IfOk, is_some, length, take};
ghost use Rattle.std.specs.List.{list_all};
ghost use Rattle.problem.specs.declared.row.Row.{Row as RowValue};
ghost use Rattle.problem.specs.Rising.{AreRising};
ghost use Rattle.derivation_book.specs.declared.cut.Cut.{Cut};
ghost use Rattle.dual_simplex.specs.PointSums.{checked_sum, sums_fit};

use crate::prepared_sums::PointSums;
use derivation_book::Book;
use fraction::Frac;
use node_events::RationalPoint;
use problem::{Problem, Term};
use std::alloc::{AllocError, Global};

/// Whether the sum of these terms, whose columns rise, is there.
fn sum_fits(terms: &[Term], sums: &PointSums) -> bool
    requires { AreRising terms.now }
    ensures { result ≡ is_some (checked_sum terms.now sums.now) }
{
    // With any right side, there is an order exactly where there is a sum.
    sums.compare(terms, Frac::of(0)).is_some()
}

/// Whether the sum of each row of the problem is there.
fn row_sums_fit(problem: &Problem, sums: &PointSums) -> bool
    ensures { result ≡ list_all (λ (r : RowValue). is_some (checked_sum r.terms sums.now)) problem.now.rows }
{
    problem.limits_hold();
    for index in 0..problem.rows() {
        let row = problem.row(index);
        if !sum_fits(row.terms.as_slice(), sums) {
            return false;
        }
    }
    true
}

/// Whether the sum of each of the first cuts is there.
fn cut_sums_fit(book: &Book, cuts: usize, sums: &PointSums) -> bool
    requires { cuts ≤ length book.now.cuts }
    ensures { result ≡ list_all (λ (c : Cut). is_some (checked_sum c.row.terms sums.now)) (take cuts book.now.cuts) }
{
    for index in 0..cuts {
        let row = book.cut(index);
        if !sum_fits(row.terms.as_slice(), sums) {
            return false;
        }
    }
    true
}

/// Whether the sums of the aim, of each row and of the first cuts at a point are there. The one error is want of memory.
pub(crate) fn sums_fit(
    alloc: Global,
    problem: &Problem,
    book: &Book,
    cuts: usize,
    point: &RationalPoint,
) -> Result<bool, AllocError>
    requires { cuts ≤ length book.now.cuts }
    ensures { IfOk result (λ b. b ≡ sums_fit problem.now (take cuts book.now.cuts) point.now) }
{
    problem.limits_hold();
    let sums = PointSums::make(alloc, point)?;
    Ok(
        sum_fits(problem.aim().as_slice(), &sums)
            && row_sums_fit(problem, &sums)
            && cut_sums_fit(book, cuts, &sums),
    )
}
