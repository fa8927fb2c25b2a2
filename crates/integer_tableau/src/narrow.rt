// The inner loop of a pivot where the numbers before the division have 64 bits.

ghost use Rattle.std.specs.Prelude.{◌≡◌, ℕ, ◌+◌, ◌*◌, ◌%◌, ◌<◌, ◌≤◌, ◌^◌, ℤ, pos, nat_abs, ◌+ℤ◌, ◌*ℤ◌, length, slice_set, IsTrue};
ghost use Rattle.std.specs.Int.{w64, int_wrap};
ghost use Rattle.integer_tableau.specs.Numbers.{number_at};
ghost use Rattle.integer_tableau.specs.Range.{size_limit};
ghost use Rattle.integer_tableau.specs.Substitution.{IsSubstituted};

use crate::divisor::Divisor;

/// The product modulo 2^64.
#[inline(always)]
fn low_product(a: i64, b: i64) -> i64
    ensures { result ≡ int_wrap w64 (a *ℤ b) }
{
    a.wrapping_mul(b)
}

/// `a * e + s * q` modulo 2^64.
#[inline(always)]
fn low_sum(a: i64, e: i64, s: i64, q: i64) -> i64
    ensures { result ≡ int_wrap w64 (a *ℤ e +ℤ s *ℤ q) }
{
    a.wrapping_mul(e).wrapping_add(s.wrapping_mul(q))
}

/// The sum of the number and the reach modulo 2^64. It is below twice the reach only where the number's size is at most the reach. Where the
/// reach is a multiple of a power of 2, the sum is one only where the number is.
#[inline(always)]
fn raised(number: i64, reach: u64) -> u64
    requires { reach ≤ size_limit }
    ensures size { result < 2 * reach → nat_abs number ≤ reach }
    ensures whole { (k : ℕ) → k < 64 → reach % 2 ^ k ≡ 0 → result % 2 ^ k ≡ 0 → nat_abs number % 2 ^ k ≡ 0 }
{
    number.cast_unsigned().wrapping_add(reach)
}

/// The quotient by a power of 2, rounded down.
#[inline(always)]
fn shifted(number: i64, zeros: u32) -> i64
    requires { zeros < 64 }
    ensures { nat_abs number % 2 ^ zeros ≡ 0 → result *ℤ pos (2 ^ zeros) ≡ number }
{
    number >> zeros
}

/// The number at a place times its factor, plus the source's times its own, divided by the divisor; its sum before the division, raised.
///
/// The quotients are those of the factors by the divisor's odd part, modulo 2^64. The new number is right where the raised sum says so.
#[inline(always)]
fn substitute_at(
    row: &mut [i64],
    source: &[i64],
    at: usize,
    row_quotient: i64,
    source_quotient: i64,
    divisor: Divisor,
) -> u64
    requires within_row { at < length row.old }
    requires within_source { at < length source.now }
    ensures others { row.new ≡ slice_set row.old at (number_at row.new at) }
    ensures exact { (e q : ℤ) → row_quotient ≡ int_wrap w64 (e *ℤ divisor.inverse) → source_quotient ≡ int_wrap w64 (q *ℤ divisor.inverse) → nat_abs (number_at row.old at) * nat_abs e + nat_abs (number_at source.now at) * nat_abs q < 2 ^ 63 → result < 2 * divisor.reach → result % 2 ^ divisor.zeros ≡ 0 → number_at row.new at *ℤ divisor.number ≡ number_at row.old at *ℤ e +ℤ number_at source.now at *ℤ q }
{
    let sum = low_sum(row[at], row_quotient, source[at], source_quotient);
    row[at] = shifted(sum, divisor.zeros);
    raised(sum, divisor.reach)
}

/// The row's numbers times their factor, plus the source's times theirs, divided by the divisor; false where a division isn't exact, or a
/// quotient is too large for the divisor's reach.
///
/// The factors are divided by the odd part first, modulo 2^64, so that a number of the row takes two multiplications. The numbers are taken
/// two by two, with one test for each pair, which keeps the compiler from vectors (docs/DECISIONS.md, entry 99). It is a call of its own, as
/// the wide one is.
#[inline(never)]
pub(crate) fn substitute_narrow(
    row: &mut [i64],
    source: &[i64],
    row_factor: i64,
    source_factor: i64,
    divisor: Divisor,
) -> bool
    requires same_width { length row.old ≡ length source.now }
    requires fits { (k : ℕ) → nat_abs (number_at row.old k) * nat_abs row_factor + nat_abs (number_at source.now k) * nat_abs source_factor < 2 ^ 63 }
    ensures { IsTrue result → IsSubstituted divisor.number row_factor source_factor row.old source.now row.new }
{
    let zeros = divisor.zeros;
    let reach = divisor.reach;
    let row_quotient = low_product(row_factor, divisor.inverse);
    let source_quotient = low_product(source_factor, divisor.inverse);
    let mut raised_sums = 0;
    let mut at = 0;
    while row.len() - at >= 2 {
        raised_sums |= substitute_at(row, source, at, row_quotient, source_quotient, divisor);
        raised_sums |= substitute_at(row, source, at + 1, row_quotient, source_quotient, divisor);
        if raised_sums >= 2 * reach {
            return false;
        }
        at += 2;
    }
    if at < row.len() {
        raised_sums |= substitute_at(row, source, at, row_quotient, source_quotient, divisor);
    }
    raised_sums < 2 * reach && raised_sums % (1 << zeros) == 0
}
