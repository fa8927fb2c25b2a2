// Arithmetic on numbers of 128 bits, each operation of which may be too large.

ghost use Rattle.std.specs.Prelude.{◌≡◌, ◌+ℤ◌, ◌-ℤ◌, ◌*ℤ◌, IfSome};
ghost use Rattle.integer_tableau.specs.Substitution.{quotient_numerator};

use crate::divisor::Divisor;
use crate::wide::trial_quotient;

/// The product of two numbers of 64 bits.
#[inline(always)]
pub(crate) fn product(a: i64, b: i64) -> i128
    ensures { result ≡ a *ℤ b }
{
    i128::from(a) * i128::from(b)
}

/// `value - a * b`, if it has 128 bits.
pub(crate) fn less_product(value: i128, a: i64, b: i64) -> Option<i128>
    ensures { IfSome result (λ v. v ≡ value -ℤ a *ℤ b) }
{
    value.checked_sub(product(a, b))
}

/// `value * factor`, if it has 128 bits. A value of 64 bits takes one multiplication.
pub(crate) fn times(value: i128, factor: i64) -> Option<i128>
    ensures { IfSome result (λ v. v ≡ value *ℤ factor) }
{
    match i64::try_from(value) {
        Ok(number) => Some(product(number, factor)),
        Err(_) => value.checked_mul(i128::from(factor)),
    }
}

/// `a + b`, if it has 128 bits.
pub(crate) fn sum(a: i128, b: i128) -> Option<i128>
    ensures { IfSome result (λ v. v ≡ a +ℤ b) }
{
    a.checked_add(b)
}

/// The quotient, where the division is exact and the quotient has 64 bits.
pub(crate) fn exact_quotient(dividend: i128, divisor: Divisor) -> Option<i64>
    ensures { IfSome result (λ v. v *ℤ divisor.number ≡ dividend) }
{
    let quotient = trial_quotient(dividend, divisor.zeros, divisor.inverse);
    if product(quotient, divisor.number) == dividend {
        Some(quotient)
    } else {
        None
    }
}

/// The numerator of `-value / pivot` over the size of the pivot.
pub(crate) fn quotient_numerator(pivot: i64, value: i128) -> Option<i128>
    ensures { IfSome result (λ v. v ≡ quotient_numerator pivot value) }
{
    if pivot >= 0 {
        value.checked_neg()
    } else {
        Some(value)
    }
}
