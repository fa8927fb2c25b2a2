// A denominator that many numbers are divided by.

ghost use Rattle.std.specs.Prelude.{◌≡◌, ◌*◌, ◌%◌, ◌<◌, ◌≤◌, ◌^◌, pos, nat_abs, ◌*ℤ◌, ◌<ℤ◌, IsTrue};
ghost use Rattle.std.specs.Int.{w64, int_wrap};
ghost use Rattle.integer_tableau.specs.Range.{size_limit};

use crate::range::SIZE_LIMIT;

/// A number to divide by, above 0: its odd part times a power of 2.
///
/// The inverse of the odd part gives whole quotients modulo 2^64. That it is the inverse is tested, and not proved: the reach is 0 where it
/// isn't, and nothing rests on it then.
#[derive(Clone, Copy)]
pub(crate) struct Divisor {
    pub(crate) number: i64,
    /// The odd part.
    pub(crate) odd: i64,
    /// How many zeros the number ends in.
    pub(crate) zeros: u32,
    /// The inverse of the odd part modulo 2^64.
    pub(crate) inverse: i64,
    /// A power of 2 that ends in at least as many zeros: a number of at most this size has a product of 63 bits with the odd part.
    pub(crate) reach: u64,
    ghost positive: { pos 0 <ℤ number },
    ghost small: { nat_abs number < size_limit },
    ghost few_zeros: { zeros < 64 },
    ghost parts: { 0 < reach → odd *ℤ pos (2 ^ zeros) ≡ number },
    ghost inverts: { 0 < reach → int_wrap w64 (odd *ℤ inverse) ≡ pos 1 },
    ghost reach_small: { reach ≤ size_limit },
    ghost reach_whole: { reach % 2 ^ zeros ≡ 0 },
    ghost within: { reach * nat_abs odd < 2 ^ 63 },
}

impl Divisor {
    /// The divisor of a number above 0 and below `SIZE_LIMIT`.
    pub(crate) fn make(number: i64) -> Divisor
        requires positive { pos 0 <ℤ number }
        requires small { nat_abs number < size_limit }
        ensures { result.number ≡ number }
    {
        let zeros = number.trailing_zeros() & 63;
        let odd = number >> zeros;
        let inverse = inverse_of(odd);
        Divisor {
            number,
            odd,
            zeros,
            inverse,
            reach: reach_of(number, odd, zeros, inverse),
        }
    }

    /// The number itself.
    #[inline(always)]
    pub(crate) fn number(self) -> i64
        ensures { result ≡ self.number }
    {
        self.number
    }
}

/// The inverse of an odd number modulo 2^64, by Newton's steps, each of which doubles its right bits.
fn inverse_of(odd: i64) -> i64 {
    let mut inverse = odd;
    for _ in 0..5 {
        inverse = inverse.wrapping_mul(2i64.wrapping_sub(odd.wrapping_mul(inverse)));
    }
    inverse
}

/// Whether the number is this part of it times 2^zeros.
fn is_split(number: i64, odd: i64, zeros: u32) -> bool
    requires { zeros < 64 }
    ensures { IsTrue result → odd *ℤ pos (2 ^ zeros) ≡ number }
{
    i128::from(odd) * i128::from(1u64 << zeros) == i128::from(number)
}

/// The greatest power of 2 whose product with the odd part is below 2^63; 0 where it has fewer zeros than the number, or the odd part or its
/// inverse isn't right.
fn reach_of(number: i64, odd: i64, zeros: u32, inverse: i64) -> u64
    requires { zeros < 64 }
    ensures parts { 0 < result → odd *ℤ pos (2 ^ zeros) ≡ number }
    ensures inverts { 0 < result → int_wrap w64 (odd *ℤ inverse) ≡ pos 1 }
    ensures small { result ≤ size_limit }
    ensures whole { result % 2 ^ zeros ≡ 0 }
    ensures within { result * nat_abs odd < 2 ^ 63 }
{
    let power = 1u64 << (odd.leading_zeros().saturating_sub(1) & 63);
    let product = u128::from(power) * u128::from(odd.unsigned_abs());
    if is_split(number, odd, zeros)
        && odd.wrapping_mul(inverse) == 1
        && power <= SIZE_LIMIT
        && power % (1 << zeros) == 0
        && product < 1 << 63
    {
        power
    } else {
        0
    }
}
