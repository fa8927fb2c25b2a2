// The inner loop of a pivot, with products of 128 bits.

ghost use Rattle.std.specs.Prelude.{◌≡◌, ◌<◌, ◌≤◌, ◌^◌, ◌-◌, nat_abs, ◌-ℤ◌, ◌*ℤ◌, length, IsTrue};
ghost use Rattle.integer_tableau.specs.Numbers.{IsWithin};
ghost use Rattle.integer_tableau.specs.Range.{size_limit};
ghost use Rattle.integer_tableau.specs.Substitution.{IsDifference};

/// The low 64 bits.
const LOW: u128 = 0xFFFF_FFFF_FFFF_FFFF;

/// The product of a number of 64 bits and one of 62 bits.
#[inline(always)]
fn product(a: i64, b: i64) -> i128
    requires { nat_abs b < size_limit }
    ensures value { result ≡ a *ℤ b }
    ensures small { nat_abs result ≤ 2 ^ 125 }
{
    i128::from(a) * i128::from(b)
}

/// `s * q - a * m`.
#[inline(always)]
fn determinant(a: i64, m: i64, s: i64, q: i64) -> i128
    requires m_small { nat_abs m < size_limit }
    requires q_small { nat_abs q < size_limit }
    ensures value { result ≡ s *ℤ q -ℤ a *ℤ m }
    ensures small { nat_abs result ≤ 2 ^ 126 }
{
    product(s, q) - product(a, m)
}

/// The quotient by the number that ends in so many zeros, and whose rest has this inverse modulo 2^64, where the quotient is whole and has
/// 64 bits.
#[inline(always)]
pub(crate) fn trial_quotient(dividend: i128, zeros: u32, inverse: i64) -> i64 {
    let low = ((dividend >> (zeros & 63)).cast_unsigned() & LOW) as u64;
    low.cast_signed().wrapping_mul(inverse)
}

/// By how much the product of quotient and denominator differs from the dividend; 0 only where it doesn't.
#[inline(always)]
fn discrepancy(quotient: i64, denominator: i64, dividend: i128) -> u128
    requires denominator_small { nat_abs denominator < size_limit }
    requires dividend_small { nat_abs dividend ≤ 2 ^ 126 }
    ensures { result ≡ 0 → quotient *ℤ denominator ≡ dividend }
{
    (product(quotient, denominator) - dividend).cast_unsigned()
}

/// The source's numbers times their factor, less the row's times theirs, divided by the denominator; false where a division isn't exact.
///
/// `zeros` and `inverse` are those of the denominator, but nothing rests on them: each quotient is tested. It is a call of its own, and the
/// row's factor is below 0 where a tableau pivots: where the compiler sees that a factor isn't negative, it multiplies in more steps.
#[inline(never)]
pub(crate) fn substitute_wide(
    row: &mut [i64],
    source: &[i64],
    row_factor: i64,
    source_factor: i64,
    denominator: i64,
    zeros: u32,
    inverse: i64,
) -> bool
    requires same_width { length row.old ≡ length source.now }
    requires row_small { IsWithin (size_limit - 1) row.old }
    requires source_small { IsWithin (size_limit - 1) source.now }
    requires row_factor_small { nat_abs row_factor < size_limit }
    requires source_factor_small { nat_abs source_factor < size_limit }
    requires denominator_small { nat_abs denominator < size_limit }
    ensures { IsTrue result → IsDifference denominator row_factor source_factor row.old source.now row.new }
{
    let mut differences = 0;
    for (i, number) in row.iter_mut().enumerate() {
        let dividend = determinant(*number, row_factor, source[i], source_factor);
        let quotient = trial_quotient(dividend, zeros, inverse);
        differences |= discrepancy(quotient, denominator, dividend);
        *number = quotient;
    }
    differences == 0
}
