//! Sums of multiples of rows, over all columns.

ghost use Rattle.std.specs.Prelude.{◌≡◌, ◌<◌, ◌^◌, ◌≤◌, ◌+ℤ◌, ◌*ℤ◌, [], ◌∷◌, pos, nat_abs, IfOk, IfSome, IsTrue, MatchBool, All, replicate, length, drop, false, Some, None};
ghost use Rattle.fraction.specs.Rational.{whole};
ghost use Rattle.problem.specs.Rising.{AreRising};
ghost use Rattle.derivation_book.specs.Sums.{with_product, sums_of};
ghost use Rattle.fraction.specs.Fits.{FitsFraction};
ghost use Rattle.derivation_book.specs.Adding.{columns_added, row_added};
ghost use Rattle.derivation_book.specs.Places.{lower_row_at, upper_row_at};

use fraction::Frac;
use problem::{Row, Term};
use std::alloc::{AllocError, Global};
use std::marker::Model;

/// A coefficient for each column, and a right side.
#[derive(Drop)]
pub struct Combination {
    pub(crate) coefficients: Vec<Frac>,
    pub(crate) side: Frac,
}

impl Model for Combination {
    ghost use Rattle.std.specs.Prelude.{All};
    ghost use Rattle.derivation_book.specs.Sums.{Sums, sums_of};
    ghost use Rattle.fraction.specs.Fits.{FitsFraction};

    ghost Value = { Sums };

    ghost view = { λ c. sums_of c.coefficients.items c.side };

    ghost invariant = { λ c. All FitsFraction c.coefficients.items × FitsFraction c.side };
}

/// The number, where it is whole and has 64 bits.
#[inline(always)]
pub(crate) fn short(number: Frac) -> Option<i64>
    ensures { IfSome result (λ z. number ≡ whole z) }
{
    if !number.is_whole() {
        return None;
    }
    match i64::try_from(number.numer()) {
        Ok(short) => Some(short),
        Err(_) => None,
    }
}

/// The product of two numbers of 64 bits, which needs no test.
#[inline(always)]
pub(crate) fn short_product(factor: i64, number: i64) -> i128
    ensures value { result ≡ factor *ℤ number }
    ensures small { nat_abs result ≤ 2 ^ 126 }
{
    i128::from(factor) * i128::from(number)
}

/// The sum of a number of 64 bits with such a product, which needs no test.
#[inline(always)]
fn short_sum(total: i64, product: i128) -> i128
    requires { nat_abs product ≤ 2 ^ 126 }
    ensures value { result ≡ total +ℤ product }
    ensures small { nat_abs result < 2 ^ 127 }
{
    i128::from(total) + product
}

/// The sum with a product more, where all three are whole numbers of 64 bits, as nearly all are.
#[inline(always)]
pub(crate) fn with_short_product(total: Frac, factor: Frac, number: Frac) -> Option<Frac>
    ensures { IfSome result (λ t. with_product total factor number ≡ Some t) }
{
    match (short(total), short(factor), short(number)) {
        (Some(total), Some(factor), Some(number)) => {
            let product = short_product(factor, number);
            Some(Frac::of(short_sum(total, product)))
        }
        _ => None,
    }
}

/// The sum with a product more; none exactly where the product or the sum is cramped.
pub(crate) fn with_product(total: Frac, factor: Frac, number: Frac) -> Option<Frac>
    ensures { result ≡ with_product total factor number }
{
    total.add(factor.mul(number)?)
}

/// So many zeros.
pub(crate) fn zeros(alloc: Global, count: usize) -> Result<Vec<Frac>, AllocError>
    ensures { IfOk result (λ v. v.items ≡ replicate count (whole (pos 0))) }
{
    vec![in alloc; Frac::of(0); count]
}

/// Adds a multiple of one term, if its column is there. Where that is cramped the answer is false.
pub(crate) fn add_term(sums: &mut [Frac], factor: Frac, column: u32, coefficient: Frac) -> bool
    requires { All FitsFraction sums.old }
    ensures sums { let added = columns_added sums.old 0 factor ((column, coefficient) ∷ []) in MatchBool result (added ≡ Some sums.new) (added ≡ None) }
    ensures held { All FitsFraction sums.new }
{
    let column = column as usize;
    if column >= sums.len() {
        return true;
    }
    match with_product(sums[column], factor, coefficient) {
        Some(sum) => {
            sums[column] = sum;
            true
        }
        None => false,
    }
}

/// Adds a multiple of one term, if its column is there, and all numbers are whole and have 64 bits. Else the answer is false, and nothing changes.
#[inline(always)]
fn add_short_term(sums: &mut [Frac], factor: Frac, term: &Term) -> bool
    requires { All FitsFraction sums.old }
    ensures added { IsTrue result → columns_added sums.old 0 factor (term.now ∷ []) ≡ Some sums.new }
    ensures same { result ≡ false → sums.new ≡ sums.old }
    ensures held { All FitsFraction sums.new }
{
    let (column, coefficient) = term.pair();
    let column = column as usize;
    if column >= sums.len() {
        return false;
    }
    match with_short_product(sums[column], factor, coefficient) {
        Some(sum) => {
            sums[column] = sum;
            true
        }
        None => false,
    }
}

/// Adds a multiple of the first terms, as many as `add_short_term` adds, and gives their number.
fn add_short_terms(sums: &mut [Frac], factor: Frac, terms: &[Term]) -> usize
    requires held { All FitsFraction sums.old }
    requires rising { AreRising terms.now }
    ensures some { result ≤ length terms.now }
    ensures rising { AreRising (drop result terms.now) }
    ensures left { columns_added sums.new 0 factor (drop result terms.now) ≡ columns_added sums.old 0 factor terms.now }
    ensures held { All FitsFraction sums.new }
{
    for (index, term) in terms.iter().enumerate() {
        if !add_short_term(sums, factor, term) {
            return index;
        }
    }
    terms.len()
}

/// Adds a multiple of terms whose columns rise, of any numbers. Where that is cramped the answer is false.
fn add_any_terms(sums: &mut [Frac], factor: Frac, terms: &[Term]) -> bool
    requires held { All FitsFraction sums.old }
    requires rising { AreRising terms.now }
    ensures sums { let added = columns_added sums.old 0 factor terms.now in MatchBool result (added ≡ Some sums.new) (added ≡ None) }
    ensures held { All FitsFraction sums.new }
{
    for term in terms {
        let (column, coefficient) = term.pair();
        if !add_term(sums, factor, column, coefficient) {
            return false;
        }
    }
    true
}

/// Adds a multiple of terms whose columns rise. Where that is cramped the answer is false.
pub(crate) fn add_terms(sums: &mut [Frac], factor: Frac, terms: &[Term]) -> bool
    requires held { All FitsFraction sums.old }
    requires rising { AreRising terms.now }
    ensures sums { let added = columns_added sums.old 0 factor terms.now in MatchBool result (added ≡ Some sums.new) (added ≡ None) }
    ensures held { All FitsFraction sums.new }
{
    let added = add_short_terms(sums, factor, terms);
    add_any_terms(sums, factor, &terms[added..])
}

impl Combination {
    /// Sums of nothing. The one error is want of memory.
    pub(crate) fn zero(alloc: Global, columns: usize) -> Result<Combination, AllocError>
        ensures { IfOk result (λ c. c ≡ sums_of (replicate columns (whole (pos 0))) (whole (pos 0))) }
    {
        let coefficients = zeros(alloc, columns)?;
        Ok(Combination {
            coefficients,
            side: Frac::of(0),
        })
    }

    /// Adds a multiple of a row whose columns rise. Where that is cramped the answer is false, and the sums are of no more use.
    pub(crate) fn add_row(&mut self, factor: Frac, row: &Row) -> bool
        requires { AreRising row.now.terms }
        ensures { let added = row_added self.old factor row.now in MatchBool result (added ≡ Some self.new) (added ≡ None) }
    {
        match with_product(self.side, factor, row.rhs) {
            Some(side) => {
                self.side = side;
                add_terms(&mut self.coefficients, factor, row.terms.as_slice())
            }
            None => false,
        }
    }

    /// Adds a multiple of the row of a column's bound, likewise.
    pub(crate) fn add_bound(&mut self, factor: Frac, column: u32, bound: i64) -> bool
        ensures lower { let added = row_added self.old factor (lower_row_at column bound) in MatchBool result (added ≡ Some self.new) (added ≡ None) }
        ensures upper { let added = row_added self.old factor (upper_row_at column bound) in MatchBool result (added ≡ Some self.new) (added ≡ None) }
    {
        match with_product(self.side, factor, Frac::of(bound as i128)) {
            Some(side) => {
                self.side = side;
                add_term(&mut self.coefficients, factor, column, Frac::of(1))
            }
            None => false,
        }
    }
}
