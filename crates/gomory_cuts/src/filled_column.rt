//! What a filling does to one column, by whole numbers.

ghost use Rattle.std.specs.Prelude.{◌≡◌, ◌<◌, ◌≤◌, ◌^◌, ◌+◌, ◌++◌, ◌∷◌, ◌+ℤ◌, ◌*ℤ◌, List, pos, nat_abs, IfOk, IfSome, OnOk, if◌then◌else◌};
ghost use Rattle.std.specs.Int.{int_div_euclid, int_rem_euclid};
ghost use Rattle.fraction.specs.Rational.{ℚ, frac, whole};
ghost use Rattle.derivation_book.specs.Rounded.{nonzero_terms};
ghost use Rattle.derivation_book.specs.Sizes.{denominator_limit};
ghost use Rattle.tableau.specs.Elimination.{zero_ℚ};
ghost use Rattle.gomory_cuts.specs.Multipliers.{is_at_upper};
ghost use Rattle.gomory_cuts.specs.Candidate.{whole_to, bound_at, counted, side_with};

use fraction::Frac;
use problem::Terms;
use problem_box::Span;
use std::alloc::AllocError;
use tableau::BasisStatus;

/// The whole coefficient that a filling makes of a numerator over a denominator, and the filling's own numerator.
#[derive(Clone, Copy)]
struct Filled {
    coefficient: i128,
    filling: i64,
}

/// Whether a variable is at its upper bound.
#[inline(always)]
fn is_at_upper(status: BasisStatus) -> bool
    ensures { result ≡ is_at_upper status }
{
    match status {
        BasisStatus::AtUpper => true,
        BasisStatus::AtLower | BasisStatus::Basic => false,
    }
}

/// The product of two numbers of 64 bits, which needs no test.
#[inline(always)]
fn short_product(factor: i64, number: i64) -> i128
    ensures value { result ≡ factor *ℤ number }
    ensures small { nat_abs result ≤ 2 ^ 126 }
{
    i128::from(factor) * i128::from(number)
}

/// What is left of a numerator above its quotient times the denominator: to divide once more would take far longer.
#[inline(always)]
fn remainder(numerator: i64, denominator: u64, quotient: i64) -> i64
    requires positive { 0 < denominator }
    requires small { denominator < denominator_limit }
    requires quotient { quotient ≡ int_div_euclid numerator (pos denominator) }
    ensures { result ≡ int_rem_euclid numerator (pos denominator) }
{
    (i128::from(numerator) - short_product(quotient, denominator as i64)) as i64
}

/// What the filling makes of a numerator over a denominator: rounded down at the upper bound, else up.
#[inline(always)]
fn filled_numerator(status: BasisStatus, numerator: i64, denominator: u64) -> Filled
    requires positive { 0 < denominator }
    requires small { denominator < denominator_limit }
    ensures coefficient { result.coefficient ≡ whole_to status (frac numerator denominator) }
    ensures filling { result.coefficient *ℤ pos denominator ≡ numerator +ℤ result.filling }
    ensures small_coefficient { nat_abs result.coefficient ≤ 2 ^ 63 }
{
    let divisor = denominator as i64;
    let quotient = numerator.div_euclid(divisor);
    let part = remainder(numerator, denominator, quotient);
    let down = i128::from(quotient);
    if part == 0 {
        Filled {
            coefficient: down,
            filling: 0,
        }
    } else if is_at_upper(status) {
        Filled {
            coefficient: down,
            filling: -part,
        }
    } else {
        Filled {
            coefficient: down + 1,
            filling: divisor - part,
        }
    }
}

/// The bound whose row fills: the upper one where the column is at its upper bound, else the lower one.
#[inline(always)]
fn bound_at(status: BasisStatus, span: Span) -> i64
    ensures { result ≡ bound_at status span }
{
    match status {
        BasisStatus::AtUpper => span.hi,
        BasisStatus::AtLower | BasisStatus::Basic => span.lo,
    }
}

/// The numerator of a right side with a multiple of a bound more; none where that is too large.
#[inline(always)]
fn with_bound(side: i128, filling: i64, bound: i64) -> Option<i128>
    ensures { IfSome result (λ s. s ≡ side +ℤ filling *ℤ bound) }
{
    let sum = side.checked_add(short_product(filling, bound))?;
    Some(sum)
}

/// Puts a column's whole coefficient behind the terms, unless it is 0. The one error is want of memory.
#[inline(always)]
fn push_whole(terms: &mut Terms, column: u32, coefficient: i128) -> Result<(), AllocError>
    requires { nat_abs coefficient ≤ 2 ^ 63 }
    ensures { OnOk result ((others : List ℚ) → terms.new ++ nonzero_terms (column + 1) others ≡ terms.old ++ nonzero_terms column (whole coefficient ∷ others)) }
{
    if coefficient != 0 {
        terms.push(column, Frac::of(coefficient))?;
    }
    Ok(())
}

/// The same, but for a column in which the point's number is 0.
#[inline(always)]
fn push_counted(
    terms: &mut Terms,
    column: u32,
    coefficient: i128,
    at_zero: bool,
) -> Result<(), AllocError>
    requires { nat_abs coefficient ≤ 2 ^ 63 }
    ensures { OnOk result ((others : List ℚ) → terms.new ++ nonzero_terms (column + 1) others ≡ terms.old ++ nonzero_terms column ((if at_zero then zero_ℚ else whole coefficient) ∷ others)) }
{
    if at_zero {
        Ok(())
    } else {
        push_whole(terms, column, coefficient)
    }
}

/// Puts what the filling makes of a column's numerator behind the terms, unless the point's number is 0 in the column, and gives the numerator of the
/// right side with the filling's bound row; none where a number is too large. The one error is want of memory.
#[inline(always)]
pub(crate) fn add_column(
    terms: &mut Terms,
    side: i128,
    column: u32,
    numerator: i128,
    denominator: u64,
    status: BasisStatus,
    span: Span,
    at_zero: bool,
) -> Result<Option<i128>, AllocError>
    requires positive { 0 < denominator }
    requires small { denominator < denominator_limit }
    ensures terms { IfOk result (λ o. IfSome o (λ _. (others : List ℚ) → terms.new ++ nonzero_terms (column + 1) others ≡ terms.old ++ nonzero_terms column (counted at_zero status (frac numerator denominator) ∷ others))) }
    ensures side { IfOk result (λ o. IfSome o (λ s. frac s denominator ≡ side_with status (frac numerator denominator) span (frac side denominator))) }
{
    let bound = bound_at(status, span);
    // Most columns are at the bound 0, and a division takes long.
    if at_zero && bound == 0 {
        return Ok(Some(side));
    }
    let Ok(short) = i64::try_from(numerator) else {
        return Ok(None);
    };
    let filled = filled_numerator(status, short, denominator);
    push_counted(terms, column, filled.coefficient, at_zero)?;
    Ok(with_bound(side, filled.filling, bound))
}
