//! Sums of multiples of rows of whole numbers, over all columns.

ghost use Rattle.std.specs.Prelude.{◌≡◌, ◌<◌, ◌*ℤ◌, [], ◌∷◌, pos, IfOk, IfSome, IsTrue, All, map, replicate, Some};
ghost use Rattle.fraction.specs.Rational.{whole, frac};
ghost use Rattle.fraction.specs.Whole.{IsWhole};
ghost use Rattle.problem.specs.Rising.{AreRising};
ghost use Rattle.derivation_book.specs.Sums.{with_product, sums_of};
ghost use Rattle.derivation_book.specs.Adding.{columns_added, row_added};
ghost use Rattle.derivation_book.specs.OverOne.{IsWholeRow, over, sums_over};
ghost use Rattle.derivation_book.specs.Places.{lower_row_at, upper_row_at};
ghost use Rattle.derivation_book.specs.Sizes.{denominator_limit};
ghost use Rattle.derivation_book.specs.IntegerSums.{FitsInteger};

use crate::combination::{Combination, short, short_product};
use fraction::Frac;
use problem::{Row, Term};
use std::alloc::{AllocError, Global};
use std::marker::Model;

/// A whole number for each column, and one for the right side. Contracts see the combination of these numbers.
#[derive(Drop)]
pub(crate) struct IntegerSums {
    pub(crate) coefficients: Vec<i128>,
    pub(crate) side: i128,
}

impl Model for IntegerSums {
    ghost use Rattle.std.specs.Prelude.{All, map};
    ghost use Rattle.fraction.specs.Rational.{whole};
    ghost use Rattle.derivation_book.specs.Sums.{Sums, sums_of};
    ghost use Rattle.derivation_book.specs.IntegerSums.{FitsInteger};

    ghost Value = { Sums };

    ghost view = { λ s. sums_of (map whole s.coefficients.items) (whole s.side) };

    ghost invariant = { λ s. All FitsInteger s.coefficients.items × FitsInteger s.side };
}

/// The sum with a product more; none where its size is above 2^127 - 1.
#[inline(always)]
fn with_product(total: i128, factor: i64, number: i64) -> Option<i128>
    requires { FitsInteger total }
    ensures value { IfSome result (λ t. with_product (whole total) (whole factor) (whole number) ≡ Some (whole t)) }
    ensures fits { IfSome result (λ t. FitsInteger t) }
{
    let sum = total.checked_add(short_product(factor, number))?;
    if sum == i128::MIN { None } else { Some(sum) }
}

/// Adds a multiple of one term; false where its coefficient isn't whole or has more than 64 bits, its column isn't there, or the sum is too large.
#[inline(always)]
fn add_term(sums: &mut [i128], factor: i64, term: &Term) -> bool
    requires { All FitsInteger sums.old }
    ensures added { IsTrue result → columns_added (map whole sums.old) 0 (whole factor) (term.now ∷ []) ≡ Some (map whole sums.new) }
    ensures whole { IsTrue result → IsWhole term.now.1 }
    ensures held { All FitsInteger sums.new }
{
    let Some(number) = term.integer() else {
        return false;
    };
    let column = term.column() as usize;
    if column >= sums.len() {
        return false;
    }
    match with_product(sums[column], factor, number) {
        Some(sum) => {
            sums[column] = sum;
            true
        }
        None => false,
    }
}

/// Adds a multiple of terms whose columns rise; false where one of them can't be added so.
fn add_terms(sums: &mut [i128], factor: i64, terms: &[Term]) -> bool
    requires held { All FitsInteger sums.old }
    requires rising { AreRising terms.now }
    ensures added { IsTrue result → columns_added (map whole sums.old) 0 (whole factor) terms.now ≡ Some (map whole sums.new) }
    ensures whole { IsTrue result → All (λ t. IsWhole t.1) terms.now }
    ensures held { All FitsInteger sums.new }
{
    for term in terms {
        if !add_term(sums, factor, term) {
            return false;
        }
    }
    true
}

/// The quotient, where it is whole and the number has 64 bits.
#[inline(always)]
fn whole_quotient(number: i128, denominator: u64) -> Option<i64>
    requires positive { 0 < denominator }
    requires small { denominator < denominator_limit }
    ensures { IfSome result (λ q. number ≡ q *ℤ pos denominator) }
{
    let Ok(short) = i64::try_from(number) else {
        return None;
    };
    let divisor = denominator as i64;
    if short % divisor == 0 {
        Some(short / divisor)
    } else {
        None
    }
}

/// A whole number over the denominator.
#[inline(always)]
fn number_over(number: i128, denominator: u64) -> Frac
    requires positive { 0 < denominator }
    requires small { denominator < denominator_limit }
    requires fits { FitsInteger number }
    ensures { result ≡ frac number denominator }
{
    if number == 0 {
        return Frac::of(0);
    }
    // Most sums of a cut are whole, and need no greatest common divisor.
    match whole_quotient(number, denominator) {
        Some(quotient) => Frac::of(i128::from(quotient)),
        None => Frac::make(number, denominator as i128),
    }
}

/// Whole numbers over the denominator. The one error is want of memory.
fn numbers_over(alloc: Global, numbers: &[i128], denominator: u64) -> Result<Vec<Frac>, AllocError>
    requires positive { 0 < denominator }
    requires small { denominator < denominator_limit }
    requires fit { All FitsInteger numbers.now }
    ensures { IfOk result (λ v. v.items ≡ map (over denominator) (map whole numbers.now)) }
{
    let mut fractions = Vec::with_capacity(alloc, numbers.len())?;
    for number in numbers {
        fractions.push(number_over(*number, denominator))?;
    }
    Ok(fractions)
}

impl IntegerSums {
    /// Sums of nothing. The one error is want of memory.
    pub(crate) fn zero(alloc: Global, columns: usize) -> Result<IntegerSums, AllocError>
        ensures { IfOk result (λ s. s ≡ sums_of (replicate columns (whole (pos 0))) (whole (pos 0))) }
    {
        let coefficients = vec![in alloc; 0; columns]?;
        Ok(IntegerSums {
            coefficients,
            side: 0,
        })
    }

    /// Adds a multiple of a row whose columns rise. Where a number isn't whole or a sum is too large the answer is false, and the sums are of no more
    /// use.
    pub(crate) fn add_row(&mut self, factor: i64, row: &Row) -> bool
        requires { AreRising row.now.terms }
        ensures added { IsTrue result → row_added self.old (whole factor) row.now ≡ Some self.new }
        ensures whole { IsTrue result → IsWholeRow row.now }
    {
        let Some(side) = short(row.rhs) else {
            return false;
        };
        match with_product(self.side, factor, side) {
            Some(side) => {
                self.side = side;
                add_terms(&mut self.coefficients, factor, row.terms.as_slice())
            }
            None => false,
        }
    }

    /// Adds a multiple of the row of a column's bound, likewise.
    pub(crate) fn add_bound(&mut self, factor: i64, column: usize, bound: i64) -> bool
        ensures lower { IsTrue result → row_added self.old (whole factor) (lower_row_at column bound) ≡ Some self.new }
        ensures upper { IsTrue result → row_added self.old (whole factor) (upper_row_at column bound) ≡ Some self.new }
    {
        if column >= self.coefficients.len() {
            return false;
        }
        let own = self.coefficients[column];
        match (
            with_product(self.side, factor, bound),
            with_product(own, factor, 1),
        ) {
            (Some(side), Some(sum)) => {
                self.side = side;
                self.coefficients[column] = sum;
                true
            }
            _ => false,
        }
    }

    /// The coefficients over the denominator. The one error is want of memory.
    pub(crate) fn coefficients_over(
        &self,
        alloc: Global,
        denominator: u64,
    ) -> Result<Vec<Frac>, AllocError>
        requires positive { 0 < denominator }
        requires small { denominator < denominator_limit }
        ensures { IfOk result (λ v. v.items ≡ map (over denominator) self.now.coefficients) }
    {
        numbers_over(alloc, &self.coefficients, denominator)
    }

    /// All numbers over the denominator. The one error is want of memory.
    pub(crate) fn over(&self, alloc: Global, denominator: u64) -> Result<Combination, AllocError>
        requires positive { 0 < denominator }
        requires small { denominator < denominator_limit }
        ensures { IfOk result (λ c. c ≡ sums_over denominator self.now) }
    {
        let coefficients = self.coefficients_over(alloc, denominator)?;
        Ok(Combination {
            coefficients,
            side: number_over(self.side, denominator),
        })
    }
}
