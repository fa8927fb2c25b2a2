//! Laws of separation.

ghost use Rattle.gomory_cuts.specs.Laws.{SeparationsSeparate, RoundedRowsHold};

use derivation_book::Book;
use problem::Problem;

/// What is separated from a point are at most four different cuts that it violates.
pub fn separations_separate()
    ensures { SeparationsSeparate }
{}

/// Where a book holds cuts of the problem, a rounded row over them holds at each feasible point.
pub fn rounded_rows_hold(problem: &Problem, _book: &Book)
    ensures { RoundedRowsHold problem.now _book.now.cuts }
{
    problem.limits_hold();
}
