// What is known when a node is looked at.

use derivation_book::Book;
use fraction::Frac;
use problem::Problem;
use problem_box::IntBox;

/// What is known when a node is looked at.
#[derive(Clone, Copy)]
pub struct Subproblem<'a> {
    /// The problem.
    pub problem: &'a Problem,
    /// The problem's cuts.
    pub book: &'a Book,
    /// The node's box.
    pub area: &'a IntBox,
    /// The incumbent's aim, if there is an incumbent.
    pub cutoff: Option<Frac>,
}
