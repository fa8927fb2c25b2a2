//! Combinations by whole numbers, where all multipliers are taken over one denominator and all rows are whole.

ghost use Rattle.std.specs.Prelude.{◌≡◌, ◌<◌, IsTrue, IfOk, IfSome, IfNone, All, length, Some, None};
ghost use Rattle.fraction.specs.Rational.{whole};
ghost use Rattle.cert_rows.specs.Lines.{row_at};
ghost use Rattle.derivation_book.specs.Known.{known_lines};
ghost use Rattle.derivation_book.specs.Sums.{combined, combined_columns};
ghost use Rattle.derivation_book.specs.Adding.{row_added};
ghost use Rattle.derivation_book.specs.OverOne.{IsWholeRow, sums_over};
ghost use Rattle.derivation_book.specs.Sizes.{denominator_limit};

use crate::book::Book;
use crate::combination::Combination;
use crate::integer_sums::IntegerSums;
use crate::place::Place;
use crate::whole_sums::{common_denominator, times};
use fraction::Frac;
use problem::{Problem, Term};
use std::alloc::{AllocError, Global};

impl Book {
    /// Adds a multiple of a known row of whole numbers. Where a number isn't whole or a sum is too large the answer is false, and the sums are of no
    /// more use.
    fn add_whole_row(
        &self,
        problem: &Problem,
        number: u32,
        factor: i64,
        sums: &mut IntegerSums,
    ) -> bool
        requires { number < length (known_lines problem.now self.now.cuts) }
        ensures added { IsTrue result → row_added sums.old (whole factor) (row_at (known_lines problem.now self.now.cuts) number) ≡ Some sums.new }
        ensures whole { IsTrue result → IsWholeRow (row_at (known_lines problem.now self.now.cuts) number) }
    {
        problem.limits_hold();
        match self.place(problem, number) {
            Place::Given(index) => sums.add_row(factor, problem.row(index)),
            Place::Lower(column) => sums.add_bound(factor, column, problem.root().span(column).lo),
            Place::Upper(column) => sums.add_bound(factor, column, problem.root().span(column).hi),
            Place::OfCut(index) => sums.add_row(factor, self.cut(index)),
        }
    }

    /// A denominator, and the numerators over it of the combination of known rows; none where this gives up: for a row that isn't whole, for multipliers
    /// without a small common denominator, or where a number is too large. The one error is want of memory.
    pub(crate) fn scaled_sums(
        &self,
        alloc: Global,
        problem: &Problem,
        mult: &[Term],
    ) -> Result<Option<(u64, IntegerSums)>, AllocError>
        requires { All (λ m. m.0 < length (known_lines problem.now self.now.cuts)) mult.now }
        ensures positive { IfOk result (λ o. IfSome o (λ s. 0 < s.0)) }
        ensures small { IfOk result (λ o. IfSome o (λ s. s.0 < denominator_limit)) }
        ensures sums { IfOk result (λ o. IfSome o (λ s. combined (known_lines problem.now self.now.cuts) mult.now (length problem.now.spans) ≡ Some (sums_over s.0 s.1))) }
    {
        let Some(denominator) = common_denominator(mult) else {
            return Ok(None);
        };
        let mut sums = IntegerSums::zero(alloc, problem.columns())?;
        for multiplier in mult {
            let (number, factor) = multiplier.pair();
            let Some(scaled) = times(factor, denominator) else {
                return Ok(None);
            };
            if !self.add_whole_row(problem, number, scaled, &mut sums) {
                return Ok(None);
            }
        }
        Ok(Some((denominator, sums)))
    }

    /// The combination of known rows by whole numbers; none where this gives up, likewise. The one error is want of memory.
    fn combine_by_integers(
        &self,
        alloc: Global,
        problem: &Problem,
        mult: &[Term],
    ) -> Result<Option<Combination>, AllocError>
        requires { All (λ m. m.0 < length (known_lines problem.now self.now.cuts)) mult.now }
        ensures { IfOk result (λ o. IfSome o (λ s. combined (known_lines problem.now self.now.cuts) mult.now (length problem.now.spans) ≡ Some s)) }
    {
        match self.scaled_sums(alloc, problem, mult)? {
            Some((denominator, sums)) => Ok(Some(sums.over(alloc, denominator)?)),
            None => Ok(None),
        }
    }

    /// The coefficients of a combination of known rows, likewise.
    fn columns_by_integers(
        &self,
        alloc: Global,
        problem: &Problem,
        mult: &[Term],
    ) -> Result<Option<Vec<Frac>>, AllocError>
        requires { All (λ m. m.0 < length (known_lines problem.now self.now.cuts)) mult.now }
        ensures { IfOk result (λ o. IfSome o (λ v. combined_columns (known_lines problem.now self.now.cuts) mult.now 0 (length problem.now.spans) ≡ Some v.items)) }
    {
        match self.scaled_sums(alloc, problem, mult)? {
            Some((denominator, sums)) => Ok(Some(sums.coefficients_over(alloc, denominator)?)),
            None => Ok(None),
        }
    }

    /// The combination of known rows; none exactly where a product or a sum is cramped. The one error is want of memory.
    pub(crate) fn combine(
        &self,
        alloc: Global,
        problem: &Problem,
        mult: &[Term],
    ) -> Result<Option<Combination>, AllocError>
        requires { All (λ m. m.0 < length (known_lines problem.now self.now.cuts)) mult.now }
        ensures { IfOk result (λ r. r ≡ combined (known_lines problem.now self.now.cuts) mult.now (length problem.now.spans)) }
    {
        match self.combine_by_integers(alloc, problem, mult)? {
            Some(sums) => Ok(Some(sums)),
            None => self.combine_by_fractions(alloc, problem, mult),
        }
    }

    /// The coefficients of a combination of known rows, column 0 first; none exactly where a product or a sum is cramped. The one error is want of
    /// memory.
    pub fn combined_columns(
        &self,
        alloc: Global,
        problem: &Problem,
        mult: &[Term],
    ) -> Result<Option<Vec<Frac>>, AllocError>
        requires { All (λ m. m.0 < length (known_lines problem.now self.now.cuts)) mult.now }
        ensures some { IfOk result (λ o. IfSome o (λ v. combined_columns (known_lines problem.now self.now.cuts) mult.now 0 (length problem.now.spans) ≡ Some v.items)) }
        ensures none { IfOk result (λ o. IfNone o (combined_columns (known_lines problem.now self.now.cuts) mult.now 0 (length problem.now.spans) ≡ None)) }
    {
        match self.columns_by_integers(alloc, problem, mult)? {
            Some(sums) => Ok(Some(sums)),
            None => self.columns_by_fractions(alloc, problem, mult),
        }
    }
}
