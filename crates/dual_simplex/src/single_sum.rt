//! One sum at a point, in whole numbers over a common denominator. No numerator is kept: for one sum that would take longer than it saves.

ghost use Rattle.std.specs.Prelude.{◌≡◌, ◌<◌, ◌≤◌, ◌*◌, ◌+◌, ◌^◌, nat_abs, nat_lt, length, IfSome, Some, if◌then◌else◌};
ghost use Rattle.fraction.specs.Rational.{frac};
ghost use Rattle.problem.specs.Rising.{AreRising};
ghost use Rattle.problem.specs.Limits.{most_columns};
ghost use Rattle.derivation_book.specs.Sums.{with_product};
ghost use Rattle.dual_simplex.specs.Relaxation.{rational_at};
ghost use Rattle.dual_simplex.specs.PointSums.{checked_sum};
ghost use Rattle.dual_simplex.specs.Scaled.{IsDenominator, largest_product};

use crate::narrow_sums::small_coefficient;
use crate::point_sums::checked_sum;
use crate::scaled_point::{common_denominator, numerator_over, product};
use fraction::Frac;
use node_events::RationalPoint;
use problem::{MOST_COLUMNS, Term};

/// The numerator of a number over a denominator, in 64 bits; none where it isn't whole or doesn't fit.
#[inline(always)]
fn narrow_numerator(number: Frac, denominator: u64) -> Option<i64>
    requires denominator { IsDenominator denominator }
    requires narrow { denominator < 2 ^ 63 }
    ensures { IfSome result (λ z. frac z denominator ≡ number) }
{
    // Nearly all numbers of a vertex are whole.
    if number.is_whole() {
        let Ok(whole) = i64::try_from(number.numer()) else {
            return None;
        };
        let numerator = whole.checked_mul(denominator as i64)?;
        return Some(numerator);
    }
    let numerator = numerator_over(number, u128::from(denominator))?;
    match i64::try_from(numerator) {
        Ok(narrow) => Some(narrow),
        Err(_) => None,
    }
}

/// The numerator of a sum with the product of a term more, if the term's column is there; none where a number isn't whole over the denominator, or is
/// large.
#[inline(always)]
fn with_term(point: &RationalPoint, denominator: u64, total: i128, term: &Term) -> Option<i128>
    requires denominator { IsDenominator denominator }
    requires narrow { denominator < 2 ^ 63 }
    requires total { nat_abs total ≤ most_columns * largest_product }
    ensures value { IfSome result (λ t. (if nat_lt term.now.0 (length point.now) then with_product (frac total denominator) term.now.1 (rational_at point.now term.now.0) else Some (frac total denominator)) ≡ Some (frac t denominator)) }
    ensures small { IfSome result (λ t. nat_abs t ≤ nat_abs total + largest_product) }
{
    let column = term.column() as usize;
    if column >= point.len() {
        return Some(total);
    }
    let coefficient = small_coefficient(term)?;
    let numerator = narrow_numerator(point.get(column), denominator)?;
    Some(total + product(coefficient, i128::from(numerator)))
}

/// A common denominator of a point's numbers, in 63 bits; none where it doesn't fit.
fn narrow_denominator(point: &RationalPoint) -> Option<u64>
    ensures denominator { IfSome result IsDenominator }
    ensures narrow { IfSome result (λ d. d < 2 ^ 63) }
{
    let denominator = common_denominator(point)?;
    if denominator < 1 << 63 {
        Some(denominator as u64)
    } else {
        None
    }
}

/// The numerator of the sum of coefficient times number over a denominator, where the columns of the terms rise; none where there are more than
/// `MOST_COLUMNS` terms, or a number isn't whole over the denominator, or is large.
// Inlined, the loop would keep its numbers in memory, since its callers leave it too few registers.
#[inline(never)]
fn numerator_of_sum(point: &RationalPoint, denominator: u64, terms: &[Term]) -> Option<i128>
    requires denominator { IsDenominator denominator }
    requires narrow { denominator < 2 ^ 63 }
    requires rising { AreRising terms.now }
    ensures value { IfSome result (λ t. checked_sum terms.now point.now ≡ Some (frac t denominator)) }
    ensures small { IfSome result (λ t. nat_abs t < 2 ^ 127) }
{
    if terms.len() > MOST_COLUMNS {
        return None;
    }
    let mut total = 0;
    for term in terms {
        total = with_term(point, denominator, total, term)?;
    }
    Some(total)
}

/// The sum of coefficient times number, where the columns of the terms rise, if whole numbers tell it. No step of the sum in fractions is cramped then.
fn integer_sum(point: &RationalPoint, terms: &[Term]) -> Option<Frac>
    requires { AreRising terms.now }
    ensures { IfSome result (λ v. checked_sum terms.now point.now ≡ Some v) }
{
    let denominator = narrow_denominator(point)?;
    let numerator = numerator_of_sum(point, denominator, terms)?;
    Some(Frac::make(numerator, i128::from(denominator)))
}

/// The sum of coefficient times number over the columns, as `checked_sum` gives it, where the columns of the terms rise. Whole numbers tell nearly each.
pub(crate) fn single_sum(point: &RationalPoint, terms: &[Term]) -> Option<Frac>
    requires { AreRising terms.now }
    ensures { result ≡ checked_sum terms.now point.now }
{
    match integer_sum(point, terms) {
        Some(sum) => Some(sum),
        None => checked_sum(point, terms),
    }
}
