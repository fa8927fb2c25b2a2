//! The rows of cuts.

ghost use Rattle.std.specs.Prelude.{◌≡◌, ◌<◌, ◌^◌, ◌+◌, IfOk, length};
ghost use Rattle.std.specs.List.{list_all};
ghost use Rattle.derivation_book.specs.Known.{known_lines};
ghost use Rattle.derivation_book.specs.Rounded.{has_right_sign, is_usable, is_cut_coefficient, nonzero_terms, rounded_sums, rounded_row};

use crate::book::Book;
use crate::combination::Combination;
use fraction::Frac;
use node_events::Mult;
use problem::{LARGEST_CUT_COEFFICIENT, Problem, Row, Sense, Term, Terms};
use std::alloc::{AllocError, Global};

/// Whether the multiplier of a row of this sense has the right sign in a combination for a G row.
fn has_right_sign(sense: Sense, factor: Frac) -> bool
    ensures { result ≡ has_right_sign sense factor }
{
    match sense {
        Sense::G => factor.numer() >= 0,
        Sense::L => factor.numer() <= 0,
        Sense::E => true,
    }
}

/// Whether this is a whole number of size at most `LARGEST_CUT_COEFFICIENT`.
fn is_cut_coefficient(coefficient: Frac) -> bool
    ensures { result ≡ is_cut_coefficient coefficient }
{
    coefficient.denom() == 1 && coefficient.numer().unsigned_abs() <= LARGEST_CUT_COEFFICIENT
}

/// Whether each coefficient is one that a cut may have.
fn are_cut_coefficients(coefficients: &[Frac]) -> bool
    ensures { result ≡ list_all is_cut_coefficient coefficients.now }
{
    coefficients
        .iter()
        .all(|coefficient| is_cut_coefficient(*coefficient))
}

/// How many coefficients aren't 0.
fn nonzero_count(coefficients: &[Frac]) -> usize
    ensures { result ≡ length (nonzero_terms 0 coefficients.now) }
{
    let mut count = 0;
    for coefficient in coefficients {
        if coefficient.numer() != 0 {
            count += 1;
        }
    }
    count
}

/// The coefficients that aren't 0, with their columns.
fn nonzero_terms(alloc: Global, coefficients: &[Frac]) -> Result<Terms, AllocError>
    requires { length coefficients.now < 2 ^ 32 }
    ensures { IfOk result (λ t. t ≡ nonzero_terms 0 coefficients.now) }
{
    let mut terms = Terms::with_capacity(alloc, nonzero_count(coefficients))?;
    for (column, coefficient) in coefficients.iter().enumerate() {
        if coefficient.numer() != 0 {
            terms.push(column as u32, *coefficient)?;
        }
    }
    Ok(terms)
}

impl Combination {
    /// The row for a cut, if each coefficient is one that a cut may have. The one error is want of memory.
    fn rounded(&self, alloc: Global) -> Result<Option<Row>, AllocError>
        requires { length self.now.coefficients < 2 ^ 32 }
        ensures { IfOk result (λ r. r ≡ rounded_sums self.now) }
    {
        if !are_cut_coefficients(&self.coefficients) {
            return Ok(None);
        }
        let terms = nonzero_terms(alloc, &self.coefficients)?;
        Ok(Some(Row::make(Sense::G, Frac::of(self.side.ceil()), terms)))
    }
}

impl Book {
    /// Whether a multiplier names a known row and has the right sign.
    pub(crate) fn is_usable(&self, problem: &Problem, number: u32, factor: Frac) -> bool
        ensures { result ≡ is_usable (known_lines problem.now self.now.cuts) (number, factor) }
    {
        if number as usize >= self.known(problem) {
            return false;
        }
        has_right_sign(self.sense(problem, number), factor)
    }

    /// Whether each multiplier names a known row and has the right sign.
    fn are_usable(&self, problem: &Problem, mult: &[Term]) -> bool
        ensures { result ≡ list_all (is_usable (known_lines problem.now self.now.cuts)) mult.now }
    {
        for multiplier in mult {
            let (number, factor) = multiplier.pair();
            if !self.is_usable(problem, number, factor) {
                return false;
            }
        }
        true
    }

    /// The row of the cut that these multipliers give: the combination of rows, bound rows and cuts, its right side rounded up.
    ///
    /// There is none exactly where a number isn't known, a sign is wrong, a product or a sum is cramped, or a coefficient isn't whole or is above
    /// `LARGEST_CUT_COEFFICIENT` in size. The one error is want of memory.
    pub fn cg_row(
        &self,
        alloc: Global,
        problem: &Problem,
        mult: &Mult,
    ) -> Result<Option<Row>, AllocError>
        ensures { IfOk result (λ r. r ≡ rounded_row problem.now self.now.cuts mult.now) }
    {
        if !self.are_usable(problem, mult.as_slice()) {
            return Ok(None);
        }
        problem.limits_hold();
        match self.combine(alloc, problem, mult.as_slice())? {
            Some(sums) => sums.rounded(alloc),
            None => Ok(None),
        }
    }
}
