//! Whether a point violates a cut.

ghost use Rattle.std.specs.Prelude.{◌≡◌, IfOk, IsTrue, Some, None, false, if◌then◌else◌};
ghost use Rattle.std.specs.Ordering.{is_lt};
ghost use Rattle.fraction.specs.Checked.{compare};
ghost use Rattle.problem.specs.Rising.{AreRising};
ghost use Rattle.dual_simplex.specs.Relaxation.{rational_value};
ghost use Rattle.gomory_cuts.specs.Separation.{is_violated, if_violated};

use derivation_book::Book;
use dual_simplex::PointSums;
use node_events::Mult;
use problem::{Problem, Row};
use std::alloc::{AllocError, Global};

/// Whether the sum of a G row at the point is there, and less than the right side.
pub(crate) fn is_violated(point: &PointSums, row: &Row) -> bool
    requires { AreRising row.now.terms }
    ensures { result ≡ is_violated point.now row.now }
{
    match point.compare(row.terms.as_slice(), row.rhs) {
        Some(ordering) => ordering.is_lt(),
        None => false,
    }
}

/// Whether the sum of a G row at the point is told, and not less than the right side.
pub(crate) fn is_satisfied(point: &PointSums, row: &Row) -> bool
    requires { AreRising row.now.terms }
    ensures { IsTrue result → is_lt (compare (rational_value row.now.terms point.now) row.now.rhs) ≡ false }
{
    match point.compare(row.terms.as_slice(), row.rhs) {
        Some(ordering) => !ordering.is_lt(),
        None => false,
    }
}

/// Whether the rounded row of these multipliers is there, and the point violates it. The one error is want of memory.
pub(crate) fn has_violated_row(
    alloc: Global,
    problem: &Problem,
    book: &Book,
    point: &PointSums,
    mult: &Mult,
) -> Result<bool, AllocError>
    ensures { IfOk result (λ b. if_violated problem.now book.now.cuts point.now mult.now ≡ (if b then Some mult.now else None)) }
{
    match book.cg_row(alloc, problem, mult)? {
        Some(row) => Ok(is_violated(point, &row)),
        None => Ok(false),
    }
}
