//! Sums over numerators of 64 bits, whose products take one multiplication each.

ghost use Rattle.std.specs.Prelude.{◌≡◌, ◌<◌, ◌≤◌, ◌*◌, ◌+◌, ◌^◌, ◌+ℤ◌, ◌*ℤ◌, nat_abs, IfOk, IfSome};
ghost use Rattle.problem.specs.Rising.{AreRising};
ghost use Rattle.problem.specs.Limits.{most_columns};
ghost use Rattle.dual_simplex.specs.Sizes.{IsIntegerTo};
ghost use Rattle.dual_simplex.specs.Scaled.{numerator_at, AreNumerators, IsSumOver, largest_numerator, largest_factor, largest_product};

use crate::scaled_point::product;
use problem::{MOST_COLUMNS, Term};
use std::alloc::{AllocError, Global};

/// The largest size of a coefficient that a numerator is multiplied with: 2^40.
const LARGEST_FACTOR: i64 = 1 << 40;

/// The numerators in 64 bits; none where one of them doesn't fit. The one error is want of memory.
pub(crate) fn narrow_numerators(
    alloc: Global,
    numerators: &[i128],
) -> Result<Option<Vec<i64>>, AllocError>
    ensures { IfOk result (λ o. IfSome o (λ v. v.items ≡ numerators.now)) }
{
    let mut narrow = Vec::with_capacity(alloc, numerators.len())?;
    for numerator in numerators {
        let Ok(number) = i64::try_from(*numerator) else {
            return Ok(None);
        };
        narrow.push(number)?;
    }
    Ok(Some(narrow))
}

/// The coefficient of a term, where it is whole and its size is at most 2^40.
#[inline(always)]
pub(crate) fn small_coefficient(term: &Term) -> Option<i128>
    ensures value { IfSome result (λ z. z ≡ term.now.1.num) }
    ensures integer { IfSome result (λ _. IsIntegerTo largest_factor term.now.1) }
{
    let number = term.integer()?;
    // Both sides are compared, since that takes less time than the size.
    if -LARGEST_FACTOR <= number && number <= LARGEST_FACTOR {
        Some(i128::from(number))
    } else {
        None
    }
}

/// The numerator in a column, and 0 where there is no such column.
#[inline(always)]
fn numerator_in(numerators: &[i64], column: u32) -> i128
    ensures value { result ≡ numerator_at numerators.now column }
    ensures small { nat_abs result ≤ largest_numerator }
{
    let column = column as usize;
    if column < numerators.len() {
        i128::from(numerators[column])
    } else {
        0
    }
}

/// The numerator of a sum with one term more; none where the coefficient isn't whole, or its size is above 2^40.
#[inline(always)]
fn with_term(numerators: &[i64], total: i128, term: &Term) -> Option<i128>
    requires { nat_abs total ≤ most_columns * largest_product }
    ensures value { IfSome result (λ t. t ≡ total +ℤ term.now.1.num *ℤ numerator_at numerators.now term.now.0) }
    ensures small { IfSome result (λ t. nat_abs t ≤ nat_abs total + largest_product) }
    ensures integer { IfSome result (λ _. IsIntegerTo largest_factor term.now.1) }
{
    let coefficient = small_coefficient(term)?;
    Some(total + product(coefficient, numerator_in(numerators, term.column())))
}

/// The numerator of the sum of coefficient times number, where the columns of the terms rise; none where there are more than `MOST_COLUMNS` terms, or a
/// coefficient isn't whole, or its size is above 2^40.
// Inlined, the loop would keep the numerators' place in memory, since its callers leave it too few registers.
#[inline(never)]
pub(crate) fn numerator_of_sum(numerators: &[i64], terms: &[Term]) -> Option<i128>
    requires numerators { AreNumerators numerators.now }
    requires rising { AreRising terms.now }
    ensures value { IfSome result (IsSumOver terms.now numerators.now) }
    ensures small { IfSome result (λ t. nat_abs t < 2 ^ 127) }
{
    if terms.len() > MOST_COLUMNS {
        return None;
    }
    let mut total = 0;
    for term in terms {
        total = with_term(numerators, total, term)?;
    }
    Some(total)
}
