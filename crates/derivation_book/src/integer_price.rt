//! Prices by whole numbers, of combinations whose numbers are whole numbers over one denominator.

ghost use Rattle.std.specs.Prelude.{◌≡◌, ℕ, ◌<◌, ◌≤◌, ◌+◌, ◌*◌, ◌^◌, ◌+ℤ◌, ◌-ℤ◌, ◌*ℤ◌, pos, nat_abs, int_lt, length, map, IfSome, Some, if◌then◌else◌};
ghost use Rattle.fraction.specs.Rational.{frac, whole};
ghost use Rattle.fraction.specs.Checked.{sub_checked};
ghost use Rattle.problem.specs.Rising.{AreRising};
ghost use Rattle.problem.specs.Limits.{most_columns};
ghost use Rattle.derivation_book.specs.OverOne.{over};
ghost use Rattle.derivation_book.specs.Price.{with_bound, with_reduced_cost, with_columns};
ghost use Rattle.derivation_book.specs.Sizes.{denominator_limit, largest_left, largest_price_bound, largest_addend};

use crate::integer_sums::IntegerSums;
use crate::price::wanted_at;
use fraction::Frac;
use problem::{MOST_COLUMNS, Term};
use problem_box::{IntBox, Span};

/// The largest size of a numerator that is left of a column: 2^84 (docs/DECISIONS.md, entry 88).
const LARGEST_LEFT: u128 = 1 << 84;

/// The largest size of a bound that such a numerator is multiplied with: 2^30.
const LARGEST_PRICE_BOUND: u64 = 1 << 30;

/// The largest size of an addend of a price, as the right side's numerator is one: 2^114.
const LARGEST_ADDEND: u128 = 1 << 114;

/// The product of a number of 64 bits with a natural one of 62.
#[inline(always)]
fn scaled(number: i64, denominator: u64) -> i128
    requires { denominator < denominator_limit }
    ensures value { result ≡ number *ℤ pos denominator }
    ensures small { nat_abs result < 2 ^ 126 }
{
    i128::from(number) * i128::from(denominator as i64)
}

/// The numerator of a whole number over the denominator, less another numerator.
#[inline(always)]
fn difference(number: i64, denominator: u64, numerator: i128) -> i128
    requires denominator { denominator < denominator_limit }
    requires numerator { nat_abs numerator ≤ largest_left }
    ensures value { result ≡ number *ℤ pos denominator -ℤ numerator }
    ensures small { nat_abs (number *ℤ pos denominator) < 2 ^ 126 }
{
    scaled(number, denominator) - numerator
}

/// What a numerator over the denominator leaves of a whole number, as a numerator; none where the number isn't whole, or a size is too large.
#[inline(always)]
fn left_numerator(wanted: Frac, numerator: i128, denominator: u64) -> Option<i128>
    requires positive { 0 < denominator }
    requires small { denominator < denominator_limit }
    ensures value { IfSome result (λ z. sub_checked wanted (frac numerator denominator) ≡ Some (frac z denominator)) }
    ensures small { IfSome result (λ z. nat_abs z ≤ largest_left) }
{
    if !wanted.is_whole() || numerator.unsigned_abs() > LARGEST_LEFT {
        return None;
    }
    let Ok(number) = i64::try_from(wanted.numer()) else {
        return None;
    };
    let left = difference(number, denominator, numerator);
    if left.unsigned_abs() <= LARGEST_LEFT {
        Some(left)
    } else {
        None
    }
}

/// The product of what is left of a column and the bound that it takes.
#[inline(always)]
fn bound_product(left: i128, bound: i64) -> i128
    requires left { nat_abs left ≤ largest_left }
    requires bound { nat_abs bound ≤ largest_price_bound }
    ensures value { result ≡ left *ℤ bound }
    ensures small { nat_abs result ≤ largest_addend }
{
    left * i128::from(bound)
}

/// The sum with such a product more.
#[inline(always)]
fn with_product(total: i128, left: i128, bound: i64) -> i128
    requires total { nat_abs total ≤ (most_columns + 1) * largest_addend }
    requires left { nat_abs left ≤ largest_left }
    requires bound { nat_abs bound ≤ largest_price_bound }
    ensures value { result ≡ total +ℤ left *ℤ bound }
    ensures small { nat_abs result ≤ nat_abs total + largest_addend }
{
    total + bound_product(left, bound)
}

/// The bound of a column that a numerator left over takes.
#[inline(always)]
fn bound_taken(left: i128, span: Span) -> i64
    ensures { result ≡ (if int_lt (pos 0) left then span.lo else span.hi) }
{
    if left > 0 { span.lo } else { span.hi }
}

/// The numerator of a sum with what is left of a column times the bound that it takes; none where that bound is too large.
#[inline(always)]
fn with_left(total: i128, left: i128, span: Span) -> Option<i128>
    requires total { nat_abs total ≤ (most_columns + 1) * largest_addend }
    requires left { nat_abs left ≤ largest_left }
    ensures value { IfSome result (λ t. (d : ℕ) → 0 < d → d < denominator_limit → with_bound (frac total d) (frac left d) span ≡ Some (frac t d)) }
    ensures small { IfSome result (λ t. nat_abs t ≤ nat_abs total + largest_addend) }
{
    if left == 0 {
        return Some(total);
    }
    let bound = bound_taken(left, span);
    if bound.unsigned_abs() <= LARGEST_PRICE_BOUND {
        Some(with_product(total, left, bound))
    } else {
        None
    }
}

/// The numerator of a sum with what a combination leaves of a target at one column; none where this gives up.
#[inline(always)]
fn with_column(
    total: i128,
    wanted: Frac,
    combined: i128,
    span: Span,
    denominator: u64,
) -> Option<i128>
    requires total { nat_abs total ≤ (most_columns + 1) * largest_addend }
    requires positive { 0 < denominator }
    requires denominator_small { denominator < denominator_limit }
    ensures value { IfSome result (λ t. with_reduced_cost (frac total denominator) wanted (frac combined denominator) span ≡ Some (frac t denominator)) }
    ensures small { IfSome result (λ t. nat_abs t ≤ nat_abs total + largest_addend) }
{
    let left = left_numerator(wanted, combined, denominator)?;
    with_left(total, left, span)
}

/// The numerator of the sum with what numerators over the denominator leave of a target at each column; none where this gives up.
fn price_numerator(
    side: i128,
    target: &[Term],
    coefficients: &[i128],
    area: &IntBox,
    denominator: u64,
) -> Option<i128>
    requires side { nat_abs side ≤ largest_addend }
    requires positive { 0 < denominator }
    requires denominator_small { denominator < denominator_limit }
    requires columns { length area.now ≡ length coefficients.now }
    requires rising { AreRising target.now }
    ensures value { IfSome result (λ t. with_columns (frac side denominator) target.now 0 (map (over denominator) (map whole coefficients.now)) area.now ≡ Some (frac t denominator)) }
    ensures small { IfSome result (λ t. nat_abs t < 2 ^ 127) }
{
    if coefficients.len() > MOST_COLUMNS {
        return None;
    }
    let mut total = side;
    let mut next = 0;
    for (column, combined) in coefficients.iter().enumerate() {
        let (wanted, after) = wanted_at(target, next, column);
        total = with_column(total, wanted, *combined, area.span(column), denominator)?;
        next = after;
    }
    Some(total)
}

impl IntegerSums {
    /// The price over a box, where the combination has the numerators of its numbers over the denominator; none where this gives up: where the target
    /// isn't whole, or a number is too large.
    pub(crate) fn integer_price(
        &self,
        denominator: u64,
        area: &IntBox,
        target: &[Term],
    ) -> Option<Frac>
        requires positive { 0 < denominator }
        requires small { denominator < denominator_limit }
        requires columns { length area.now ≡ length self.now.coefficients }
        requires rising { AreRising target.now }
        ensures { IfSome result (λ v. with_columns (over denominator self.now.side) target.now 0 (map (over denominator) self.now.coefficients) area.now ≡ Some v) }
    {
        let side = self.side;
        if side.unsigned_abs() > LARGEST_ADDEND {
            return None;
        }
        let numerator = price_numerator(side, target, &self.coefficients, area, denominator)?;
        Some(Frac::make(numerator, denominator as i128))
    }
}
