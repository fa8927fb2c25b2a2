//! The numbers of combinations as whole numbers over one denominator.

ghost use Rattle.std.specs.Prelude.{◌≡◌, ◌<◌, IfOk, IfSome, All, length, map, Some};
ghost use Rattle.fraction.specs.Rational.{whole};
ghost use Rattle.derivation_book.specs.Known.{known_lines};
ghost use Rattle.derivation_book.specs.Sums.{combined, sums_of};
ghost use Rattle.derivation_book.specs.OverOne.{sums_over};
ghost use Rattle.derivation_book.specs.Sizes.{denominator_limit};

use crate::book::Book;
use problem::{Problem, Term};
use std::alloc::{AllocError, Global};

/// The numbers of a combination, as numerators over one denominator.
#[derive(Drop)]
pub struct CombinedNumerators {
    /// The denominator.
    pub denominator: u64,
    /// The numerators of the coefficients, column 0 first.
    pub coefficients: Vec<i128>,
    /// The numerator of the right side.
    pub side: i128,
}

impl Book {
    /// The numbers of a combination of known rows over one denominator, which take no fractions.
    ///
    /// None where this gives up: for a row that isn't whole, for multipliers without a small common denominator, or where a number is too large. Where
    /// there is an answer, no product and no sum of the combination is cramped. The one error is want of memory.
    pub fn numerators(
        &self,
        alloc: Global,
        problem: &Problem,
        mult: &[Term],
    ) -> Result<Option<CombinedNumerators>, AllocError>
        requires { All (λ m. m.0 < length (known_lines problem.now self.now.cuts)) mult.now }
        ensures positive { IfOk result (λ o. IfSome o (λ n. 0 < n.denominator)) }
        ensures small { IfOk result (λ o. IfSome o (λ n. n.denominator < denominator_limit)) }
        ensures sums { IfOk result (λ o. IfSome o (λ n. combined (known_lines problem.now self.now.cuts) mult.now (length problem.now.spans) ≡ Some (sums_over n.denominator (sums_of (map whole n.coefficients.items) (whole n.side))))) }
    {
        match self.scaled_sums(alloc, problem, mult)? {
            Some((denominator, sums)) => Ok(Some(CombinedNumerators {
                denominator,
                coefficients: sums.coefficients,
                side: sums.side,
            })),
            None => Ok(None),
        }
    }
}
