//! The coefficients of a combination, without its right side.

ghost use Rattle.std.specs.Prelude.{◌≡◌, ◌<◌, IfOk, IfSome, IfNone, MatchBool, All, length, Some, None};
ghost use Rattle.fraction.specs.Fits.{FitsFraction};
ghost use Rattle.cert_rows.specs.Lines.{row_at};
ghost use Rattle.derivation_book.specs.Known.{known_lines};
ghost use Rattle.derivation_book.specs.Sums.{combined_columns};
ghost use Rattle.derivation_book.specs.Adding.{columns_added};

use crate::book::Book;
use crate::combination::{add_term, add_terms, zeros};
use crate::place::Place;
use fraction::Frac;
use problem::{Problem, Term};
use std::alloc::{AllocError, Global};

impl Book {
    /// Adds a multiple of a known row's coefficients. Where that is cramped the answer is false, and the sums are of no more use.
    fn add_coefficients(
        &self,
        problem: &Problem,
        number: u32,
        factor: Frac,
        sums: &mut [Frac],
    ) -> bool
        requires known { number < length (known_lines problem.now self.now.cuts) }
        requires held { All FitsFraction sums.old }
        ensures sums { let added = columns_added sums.old 0 factor (row_at (known_lines problem.now self.now.cuts) number).terms in MatchBool result (added ≡ Some sums.new) (added ≡ None) }
        ensures held { All FitsFraction sums.new }
    {
        problem.limits_hold();
        match self.place(problem, number) {
            Place::Given(index) => add_terms(sums, factor, problem.row(index).terms.as_slice()),
            Place::Lower(column) => add_term(sums, factor, column as u32, Frac::of(1)),
            Place::Upper(column) => add_term(sums, factor, column as u32, Frac::of(1)),
            Place::OfCut(index) => add_terms(sums, factor, self.cut(index).terms.as_slice()),
        }
    }

    /// The coefficients of a combination of known rows by sums of fractions, column 0 first; none exactly where a product or a sum is cramped. The one
    /// error is want of memory.
    pub(crate) fn columns_by_fractions(
        &self,
        alloc: Global,
        problem: &Problem,
        mult: &[Term],
    ) -> Result<Option<Vec<Frac>>, AllocError>
        requires { All (λ m. m.0 < length (known_lines problem.now self.now.cuts)) mult.now }
        ensures some { IfOk result (λ o. IfSome o (λ v. combined_columns (known_lines problem.now self.now.cuts) mult.now 0 (length problem.now.spans) ≡ Some v.items)) }
        ensures none { IfOk result (λ o. IfNone o (combined_columns (known_lines problem.now self.now.cuts) mult.now 0 (length problem.now.spans) ≡ None)) }
    {
        let mut sums = zeros(alloc, problem.columns())?;
        for multiplier in mult {
            let (number, factor) = multiplier.pair();
            if !self.add_coefficients(problem, number, factor, &mut sums) {
                return Ok(None);
            }
        }
        Ok(Some(sums))
    }
}
