//! Laws of cuts and prices.

ghost use Rattle.derivation_book.specs.Laws.{CutsHold, RoundedRowsFollow, PricesAreExact, PricesBound, ProofsAreDecided, LegalProofsClose, RoundedRowsStay, LegalProofsStay};

use crate::book::Book;
use problem::Problem;

/// Where a book holds cuts of the problem, each holds at each feasible point.
pub fn cuts_hold(problem: &Problem, _book: &Book)
    ensures { CutsHold problem.now _book.now.cuts }
{
    problem.limits_hold();
}

/// There too, a rounded row follows from the known lines by rounding.
pub fn rounded_rows_follow(problem: &Problem, _book: &Book)
    ensures { RoundedRowsFollow problem.now _book.now.cuts }
{
    problem.limits_hold();
}

/// A price is the exact sum, and at most the target's value at each point of the box that satisfies the named rows.
pub fn prices_bound(_problem: &Problem, _book: &Book)
    ensures exact { PricesAreExact _problem.now _book.now.cuts }
    ensures bound { PricesBound _problem.now _book.now.cuts }
{}

/// The test of proofs says what its definition means.
pub fn proofs_are_decided(_problem: &Problem, _book: &Book)
    ensures { ProofsAreDecided _problem.now _book.now.cuts }
{}

/// Where a book holds cuts of the problem and a proof is legal, each feasible point of the box has an aim of at least the cutoff; without a
/// cutoff the box has none.
pub fn legal_proofs_close(problem: &Problem, _book: &Book)
    ensures { LegalProofsClose problem.now _book.now.cuts }
{
    problem.limits_hold();
}

/// What is shown stays shown: a rounded row is one also over more cuts, and a legal proof is legal also with more cuts and under a smaller cutoff.
pub fn proofs_stay(_problem: &Problem, _book: &Book)
    ensures rows { RoundedRowsStay _problem.now _book.now.cuts }
    ensures proofs { LegalProofsStay _problem.now _book.now.cuts }
{}
