//! Points over one common denominator, whose sums are compared in whole numbers.

ghost use Rattle.std.specs.Prelude.{◌≡◌, ◌<◌, ◌≤◌, ◌*◌, ◌+◌, ◌^◌, ◌+ℤ◌, ◌*ℤ◌, nat_abs, IfOk, IfSome, Some, option_map, pos};
ghost use Rattle.fraction.specs.Rational.{frac, whole};
ghost use Rattle.fraction.specs.Checked.{compare};
ghost use Rattle.problem.specs.Rising.{AreRising};
ghost use Rattle.problem.specs.Limits.{most_columns};
ghost use Rattle.dual_simplex.specs.PointSums.{checked_sum};
ghost use Rattle.dual_simplex.specs.Sizes.{IsIntegerTo, largest_integer};
ghost use Rattle.dual_simplex.specs.Scaled.{point_over, numerator_at, IsDenominator, AreNumerators, IsSumOver, largest_numerator, largest_factor, largest_product};

use crate::narrow_sums::{self, narrow_numerators, small_coefficient};
use crate::sizes::LARGEST_INTEGER;
use fraction::Frac;
use node_events::RationalPoint;
use problem::{MOST_COLUMNS, Term};
use std::alloc::{AllocError, Global};
use std::cmp::Ordering;
use std::marker::Model;

/// The largest denominator, and the largest size of a numerator: 2^74.
const LARGEST_NUMERATOR: u128 = 1 << 74;

/// A point over one common denominator, seen as the point itself (docs/DECISIONS.md, entry 54).
pub(crate) struct ScaledPoint {
    denominator: u128,
    /// The numerators of the numbers, column 0 first.
    numerators: Vec<i128>,
    /// The same numerators, where each of them fits into 64 bits.
    narrow: Option<Vec<i64>>,
}

/// By hand (docs/DECISIONS.md, entry 98).
impl Drop for ScaledPoint {
    fn drop(self) {
        let ScaledPoint {
            denominator: _,
            numerators: _,
            narrow: _,
        } = self;
    }
}

impl Model for ScaledPoint {
    ghost use Rattle.std.specs.Prelude.{◌≡◌, List, IfSome};
    ghost use Rattle.std.specs.Coded.{coded_list};
    ghost use Rattle.fraction.specs.Rational.{ℚ};
    ghost use Rattle.fraction.specs.Code.{code_ℚ};
    ghost use Rattle.dual_simplex.specs.Scaled.{point_over, IsDenominator, AreNumerators};

    ghost Value = { List ℚ };

    ghost coded = { coded_list code_ℚ };

    ghost view = { λ p. point_over p.denominator p.numerators.items };

    ghost invariant = { λ p. IsDenominator p.denominator × AreNumerators p.numerators.items × IfSome p.narrow (λ v. v.items ≡ p.numerators.items) };
}

// ---- the denominator

/// A common multiple of a denominator and another one, the least where the first isn't one already; none where it is above 2^74.
fn with_denominator(common: u128, other: u128) -> Option<u128>
    requires common { IsDenominator common }
    requires positive { 0 < other }
    requires small { other < 2 ^ 127 }
    ensures { IfSome result IsDenominator }
{
    // Most numbers of a vertex are whole, and most others have one denominator.
    if other == 1 || other == common || common % other == 0 {
        return Some(common);
    }
    let factor = Frac::make(common as i128, other as i128).denom();
    let multiple = common.checked_mul(factor)?;
    if multiple <= LARGEST_NUMERATOR {
        Some(multiple)
    } else {
        None
    }
}

/// A common multiple of a denominator and that of a number; none where it is above 2^74.
fn with_number(common: u128, number: Frac) -> Option<u128>
    requires { IsDenominator common }
    ensures { IfSome result IsDenominator }
{
    number.limits_hold();
    with_denominator(common, number.denom())
}

/// A common multiple of the denominators of a point's numbers; none where it is above 2^74.
pub(crate) fn common_denominator(point: &RationalPoint) -> Option<u128>
    ensures { IfSome result IsDenominator }
{
    let mut common = 1;
    for column in 0..point.len() {
        common = with_number(common, point.get(column))?;
    }
    Some(common)
}

// ---- the numerators

/// The product, where its size is at most 2^74.
fn small_multiple(number: i128, factor: u128) -> Option<i128>
    requires { factor ≤ largest_numerator }
    ensures value { IfSome result (λ z. z ≡ number *ℤ pos factor) }
    ensures small { IfSome result (λ z. nat_abs z ≤ largest_numerator) }
{
    let multiple = number.checked_mul(factor as i128)?;
    if multiple.unsigned_abs() <= LARGEST_NUMERATOR {
        Some(multiple)
    } else {
        None
    }
}

/// By what the other denominator has to be multiplied to give the first; none where there is no such number.
fn factor_to(denominator: u128, other: u128) -> Option<u128>
    requires positive { 0 < other }
    ensures factor { IfSome result (λ f. f * other ≡ denominator) }
    ensures small { IfSome result (λ f. f ≤ denominator) }
{
    // A division takes ten times as long as the test.
    if other == 1 {
        return Some(denominator);
    }
    if other == denominator {
        return Some(1);
    }
    if denominator % other != 0 {
        return None;
    }
    Some(denominator / other)
}

/// The numerator of a number over a denominator; none where it isn't whole, or its size is above 2^74.
pub(crate) fn numerator_over(number: Frac, denominator: u128) -> Option<i128>
    requires { IsDenominator denominator }
    ensures value { IfSome result (λ z. frac z denominator ≡ number) }
    ensures small { IfSome result (λ z. nat_abs z ≤ largest_numerator) }
{
    let factor = factor_to(denominator, number.denom())?;
    small_multiple(number.numer(), factor)
}

/// The numerators of a point's numbers over a denominator; none where one of them isn't whole, or its size is above 2^74. The one error is want of
/// memory.
fn numerators_over(
    alloc: Global,
    point: &RationalPoint,
    denominator: u128,
) -> Result<Option<Vec<i128>>, AllocError>
    requires { IsDenominator denominator }
    ensures point { IfOk result (λ o. IfSome o (λ v. point_over denominator v.items ≡ point.now)) }
    ensures small { IfOk result (λ o. IfSome o (λ v. AreNumerators v.items)) }
{
    let mut numerators = Vec::with_capacity(alloc, point.len())?;
    for column in 0..point.len() {
        let Some(numerator) = numerator_over(point.get(column), denominator) else {
            return Ok(None);
        };
        numerators.push(numerator)?;
    }
    Ok(Some(numerators))
}

// ---- sums

/// The number, where it is whole and its size is at most `most`.
#[inline(always)]
fn integer_to(number: Frac, most: u128) -> Option<i128>
    ensures value { IfSome result (λ z. z ≡ number.num) }
    ensures integer { IfSome result (λ _. IsIntegerTo most number) }
{
    if number.is_whole() && number.numer().unsigned_abs() <= most {
        Some(number.numer())
    } else {
        None
    }
}

/// The numerator in a column, and 0 where there is no such column.
#[inline(always)]
fn numerator_in(numerators: &[i128], column: u32) -> i128
    requires { AreNumerators numerators.now }
    ensures value { result ≡ numerator_at numerators.now column }
    ensures small { nat_abs result ≤ largest_numerator }
{
    let column = column as usize;
    if column < numerators.len() {
        numerators[column]
    } else {
        0
    }
}

/// The product of a coefficient and a numerator.
#[inline(always)]
pub(crate) fn product(coefficient: i128, numerator: i128) -> i128
    requires coefficient { nat_abs coefficient ≤ largest_factor }
    requires numerator { nat_abs numerator ≤ largest_numerator }
    ensures value { result ≡ coefficient *ℤ numerator }
    ensures small { nat_abs result ≤ largest_product }
{
    coefficient * numerator
}

/// The numerator of a sum with one term more; none where the coefficient isn't whole, or its size is above 2^40.
#[inline(always)]
fn with_term(numerators: &[i128], total: i128, term: &Term) -> Option<i128>
    requires numerators { AreNumerators numerators.now }
    requires total { nat_abs total ≤ most_columns * largest_product }
    ensures value { IfSome result (λ t. t ≡ total +ℤ term.now.1.num *ℤ numerator_at numerators.now term.now.0) }
    ensures small { IfSome result (λ t. nat_abs t ≤ nat_abs total + largest_product) }
    ensures integer { IfSome result (λ _. IsIntegerTo largest_factor term.now.1) }
{
    let coefficient = small_coefficient(term)?;
    Some(total + product(coefficient, numerator_in(numerators, term.column())))
}

/// The numerator of the sum of coefficient times number, where the columns of the terms rise; none where there are more than `MOST_COLUMNS` terms, or a
/// coefficient isn't whole, or its size is above 2^40.
#[inline(never)]
fn numerator_of_sum(numerators: &[i128], terms: &[Term]) -> Option<i128>
    requires numerators { AreNumerators numerators.now }
    requires rising { AreRising terms.now }
    ensures value { IfSome result (IsSumOver terms.now numerators.now) }
    ensures small { IfSome result (λ t. nat_abs t < 2 ^ 127) }
{
    if terms.len() > MOST_COLUMNS {
        return None;
    }
    let mut total = 0;
    for term in terms {
        total = with_term(numerators, total, term)?;
    }
    Some(total)
}

/// The same by the numerators of 64 bits, where they are there.
fn narrow_or_wide_sum(
    numerators: &[i128],
    narrow: &Option<Vec<i64>>,
    terms: &[Term],
) -> Option<i128>
    requires numerators { AreNumerators numerators.now }
    requires same { IfSome narrow.now (λ v. v.items ≡ numerators.now) }
    requires rising { AreRising terms.now }
    ensures value { IfSome result (IsSumOver terms.now numerators.now) }
    ensures small { IfSome result (λ t. nat_abs t < 2 ^ 127) }
{
    match narrow {
        Some(narrow) => narrow_sums::numerator_of_sum(narrow, terms),
        None => numerator_of_sum(numerators, terms),
    }
}

/// The numerator of a whole number over a denominator.
#[inline(always)]
fn numerator_of_side(side: i128, denominator: u128) -> i128
    requires side { nat_abs side ≤ largest_integer }
    requires denominator { IsDenominator denominator }
    ensures { result ≡ side *ℤ pos denominator }
{
    side * denominator as i128
}

impl ScaledPoint {
    /// The point over a common denominator; none where its numbers are too large for that. The one error is want of memory.
    pub(crate) fn make(
        alloc: Global,
        point: &RationalPoint,
    ) -> Result<Option<ScaledPoint>, AllocError>
        ensures { IfOk result (λ o. IfSome o (λ p. p ≡ point.now)) }
    {
        let Some(denominator) = common_denominator(point) else {
            return Ok(None);
        };
        let Some(numerators) = numerators_over(alloc, point, denominator)? else {
            return Ok(None);
        };
        let narrow = narrow_numerators(alloc, &numerators)?;
        Ok(Some(ScaledPoint {
            denominator,
            numerators,
            narrow,
        }))
    }

    /// How the sum of coefficient times number, where the columns of the terms rise, compares with a right side.
    ///
    /// None where there are more than `MOST_COLUMNS` terms, or a coefficient or the right side isn't whole or is large. Where there is an answer, no step of
    /// the sum in fractions is cramped.
    pub(crate) fn compare(&self, terms: &[Term], rhs: Frac) -> Option<Ordering>
        requires { AreRising terms.now }
        ensures { IfSome result (λ o. option_map (λ v. compare v rhs) (checked_sum terms.now self.now) ≡ Some o) }
    {
        let side = integer_to(rhs, LARGEST_INTEGER)?;
        let sum = narrow_or_wide_sum(&self.numerators, &self.narrow, terms)?;
        Some(sum.cmp(&numerator_of_side(side, self.denominator)))
    }
}
