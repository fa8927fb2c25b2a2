//! A fraction of 128 bits, and its operations.

ghost use Prim.Native.Nat.{◌∣◌};
ghost use Rattle.fraction.specs.Gcd.{gcd};
ghost use Rattle.std.specs.Int.{w64};
ghost use Rattle.std.specs.Int.RustNames.{FitsSigned};
ghost use Rattle.std.specs.Prelude.{◌≡◌, ◌↔◌, ◌<◌, ◌^◌, ◌*◌, ◌<ℤ◌, IsTrue, pos, nat_abs, neg_ℤ, ◌+ℤ◌, ◌*ℤ◌};
ghost use Rattle.fraction.specs.Rational.{◌+ℚ◌, ◌*ℚ◌, frac, neg_ℚ, whole, inv_ℚ, floor, ceil};
ghost use Rattle.fraction.specs.Lowest.{IsLowest};
ghost use Rattle.fraction.specs.Fits.{FitsFraction};
ghost use Rattle.std.specs.Option.{IfSome, option_map};
ghost use Rattle.fraction.specs.Checked.{small_integer, add_checked, sub_checked, mul_checked, div_checked, abs_ℚ, compare};

use crate::divisors::{gcd, short_gcd};
use crate::numbers::{
    floor_quotient, held_product, narrow_product, part, quotient, scaled, short_cross, short_part,
    short_product, short_quotient, small_product, small_sum, with_sign,
};
use crate::products::compared;
use std::cmp::Ordering;
use std::marker::Model;

/// A rational number, kept in lowest terms: the denominator is at least 1, and both parts are at most 2^127 - 1 in size. Zero is 0/1.
///
/// An operation that answers `Option` gives the exact value, or `None` exactly where one of the numbers that it multiplies or adds up
/// on its way is larger than that (docs/DECISIONS.md, entry 4). Contracts see the rational number itself.
#[derive(Clone, Copy, PartialEq, Eq)]
pub struct Frac {
    num: i128,
    den: u128,
    ghost lowest: { IsLowest num den },
}

impl Model for Frac {
    ghost use Rattle.std.specs.Prelude.{◌<◌, ◌^◌, nat_abs};
    ghost use Rattle.fraction.specs.Rational.{ℚ};
    ghost use Rattle.fraction.specs.Code.{code_ℚ};

    ghost Value = { ℚ };

    ghost coded = { code_ℚ };

    ghost view = { λ f. record { num = f.num; den = f.den; lowest = f.lowest } };

    ghost invariant = { λ f. (nat_abs f.num < 2 ^ 127) × (f.den < 2 ^ 127) };

    ghost inverse = { λ q. record { num = q.num; den = q.den; lowest = q.lowest } };
}

/// The fraction of two numbers that are in lowest terms.
#[inline(always)]
pub(crate) fn made(num: i128, den: u128) -> Frac
    requires lowest { IsLowest num den }
    requires num_small { nat_abs num < 2 ^ 127 }
    requires den_small { den < 2 ^ 127 }
    ensures value { result ≡ frac num den }
    ensures numerator { result.num ≡ num }
    ensures denominator { result.den ≡ den }
{
    Frac { num, den }
}

/// The fraction `num / den`, brought to lowest terms.
fn reduced(num: i128, den: u128) -> Frac
    requires positive { 0 < den }
    requires num_small { nat_abs num < 2 ^ 127 }
    requires den_small { den < 2 ^ 127 }
    ensures { result ≡ frac num den }
{
    let divisor = gcd(num.unsigned_abs(), den);
    made(quotient(num, divisor), part(den, divisor))
}

/// The fraction `num / (den * by)`, brought to lowest terms, where num and that denominator have in common what num and divisor have.
#[inline(always)]
fn reduced_sum(num: i128, den: u128, by: u128, divisor: u128) -> Frac
    requires positive { 0 < den * by }
    requires divisor_positive { 0 < divisor }
    requires num_small { nat_abs num < 2 ^ 127 }
    requires den_small { den * by < 2 ^ 127 }
    requires divides { divisor ∣ den }
    requires shared { gcd (nat_abs num) divisor ≡ gcd (nat_abs num) (den * by) }
    ensures { result ≡ frac num (den * by) }
{
    let common = gcd(num.unsigned_abs(), divisor);
    made(quotient(num, common), part(den, common) * by)
}

/// The sum of a/b and c/d, whose parts have 63 bits. It is always there.
#[inline(always)]
fn short_sum(a: i64, b: u64, c: i64, d: u64) -> Frac
    requires first { IsLowest a b }
    requires second { IsLowest c d }
    requires b_small { b < 2 ^ 63 }
    requires d_small { d < 2 ^ 63 }
    ensures { result ≡ frac a b +ℚ frac c d }
{
    let divisor = short_gcd(b, d);
    let by = short_part(d, divisor);
    let num = short_cross(a, by, c, short_part(b, divisor));
    reduced_sum(num, u128::from(b), u128::from(by), u128::from(divisor))
}

/// The product of a/b and c/d, whose parts have 63 bits. It is always there.
#[inline(always)]
fn short_mul(a: i64, b: u64, c: i64, d: u64) -> Frac
    requires first { IsLowest a b }
    requires second { IsLowest c d }
    requires b_small { b < 2 ^ 63 }
    requires d_small { d < 2 ^ 63 }
    ensures { result ≡ frac a b *ℚ frac c d }
{
    let left = short_gcd(a.unsigned_abs(), d);
    let right = short_gcd(c.unsigned_abs(), b);
    let num = narrow_product(short_quotient(a, left), short_quotient(c, right));
    made(
        num,
        short_product(short_part(b, right), short_part(d, left)),
    )
}

/// The sum of two whole numbers.
#[inline(always)]
fn whole_sum(a: i128, b: i128) -> Option<Frac>
    ensures { result ≡ option_map whole (small_integer (a +ℤ b)) }
{
    Some(Frac::of(small_sum(a, b)?))
}

/// The product of two whole numbers.
#[inline(always)]
fn whole_product(a: i128, b: i128) -> Option<Frac>
    ensures { result ≡ option_map whole (small_integer (a *ℤ b)) }
{
    Some(Frac::of(small_product(a, b)?))
}

impl Frac {
    /// The whole number `n`, which isn't the least `i128`.
    #[inline(always)]
    pub fn of(n: i128) -> Frac
        requires { nat_abs n < 2 ^ 127 }
        ensures { result ≡ whole n }
    {
        made(n, 1)
    }

    /// The numerator, whose sign is that of the number.
    #[inline]
    pub fn numer(&self) -> i128
        ensures { result ≡ self.now.num }
    {
        self.num
    }

    /// The denominator, at least 1.
    #[inline]
    pub fn denom(&self) -> u128
        ensures { result ≡ self.now.den }
    {
        self.den
    }

    /// Both parts of each fraction have 127 bits. This computes nothing: its contract is for callers' proofs (docs/DECISIONS.md, entry 30).
    #[inline(always)]
    pub fn limits_hold(&self)
        ensures { FitsFraction self.now }
    {
        let _num = self.num;
    }

    /// The number with the other sign. It is always there.
    #[inline]
    pub fn neg(self) -> Frac
        ensures value { result ≡ neg_ℚ self }
        ensures numerator { result.num ≡ neg_ℤ self.num }
        ensures denominator { result.den ≡ self.den }
    {
        made(-self.num, self.den)
    }

    /// The fraction `num / den` in lowest terms. `den` is at least 1, and `num` isn't the least `i128`.
    pub fn make(num: i128, den: i128) -> Frac
        requires num_small { nat_abs num < 2 ^ 127 }
        requires den_positive { pos 0 <ℤ den }
        ensures { result ≡ frac num (nat_abs den) }
    {
        reduced(num, den.unsigned_abs())
    }

    /// The absolute value. It is always there.
    #[inline]
    pub fn abs(self) -> Frac
        ensures value { result ≡ abs_ℚ self }
        ensures size { nat_abs result.num ≡ nat_abs self.num }
    {
        if self.num < 0 { self.neg() } else { self }
    }

    /// The difference, as the sum with `other.neg()`. `None` exactly where that sum is.
    #[inline]
    pub fn sub(self, other: Frac) -> Option<Frac>
        ensures { result ≡ sub_checked self other }
    {
        self.add(other.neg())
    }

    /// The reciprocal, with the sign on its numerator.
    #[inline]
    fn recip(self) -> Frac
        requires { 0 < nat_abs self.num }
        ensures { result ≡ inv_ℚ self }
    {
        made(with_sign(self.num, self.den), self.num.unsigned_abs())
    }

    /// The quotient, as the product with the reciprocal. `other` isn't 0. `None` exactly where that product is.
    #[inline]
    pub fn div(self, other: Frac) -> Option<Frac>
        requires { 0 < nat_abs other.num }
        ensures { result ≡ div_checked self other }
    {
        self.mul(other.recip())
    }

    /// The greatest whole number that is at most this one.
    #[inline]
    pub fn floor(self) -> i128
        ensures value { result ≡ floor self }
        ensures small { nat_abs result < 2 ^ 127 }
    {
        floor_quotient(self.num, self.den)
    }

    /// The least whole number that is at least this one.
    #[inline]
    pub fn ceil(self) -> i128
        ensures value { result ≡ ceil self }
        ensures small { nat_abs result < 2 ^ 127 }
    {
        -floor_quotient(-self.num, self.den)
    }

    /// Whether this is a whole number.
    #[inline]
    pub fn is_whole(self) -> bool
        ensures { IsTrue result ↔ (self.den ≡ 1) }
    {
        self.den == 1
    }

    /// Whether both are whole numbers: denominators are at least 1, so that one comparison tells it.
    #[inline(always)]
    fn are_whole(self, other: Frac) -> bool
        ensures { IsTrue result ↔ ((self.den ≡ 1) × (other.den ≡ 1)) }
    {
        self.den + other.den == 2
    }

    /// The sum of a/b and c/d, reduced. With g the greatest common divisor of b and d, it is `None` exactly where a(d/g), c(b/g), their
    /// sum or b(d/g) is above 2^127 - 1 in size.
    #[inline(always)]
    pub fn add(self, other: Frac) -> Option<Frac>
        ensures { result ≡ add_checked self other }
    {
        if self.are_whole(other) {
            return whole_sum(self.num, other.num);
        }
        self.add_apart(other)
    }

    /// As `add_over`, whose answer is kept in a place of its own, so that a sum of whole numbers needs none in memory.
    #[inline(always)]
    fn add_apart(self, other: Frac) -> Option<Frac>
        ensures { result ≡ add_checked self other }
    {
        match self.add_over(other) {
            Some(sum) => Some(sum),
            None => None,
        }
    }

    /// The parts, if both have 63 bits.
    #[inline(always)]
    fn short_parts(self) -> Option<(i64, u64)>
        ensures { IfSome result (λ p. (p.0 ≡ self.num) × (p.1 ≡ self.den) × FitsSigned w64 p.0 × (p.1 < 2 ^ 63)) }
    {
        match (i64::try_from(self.num), i64::try_from(self.den)) {
            (Ok(num), Ok(den)) => Some((num, den as u64)),
            _ => None,
        }
    }

    /// The sum over the least common denominator. Parts of 63 bits go the short way.
    #[inline(never)]
    fn add_over(self, other: Frac) -> Option<Frac>
        ensures { result ≡ add_checked self other }
    {
        match (self.short_parts(), other.short_parts()) {
            (Some((a, b)), Some((c, d))) => Some(short_sum(a, b, c, d)),
            _ => self.add_wide(other),
        }
    }

    /// The sum over the least common denominator, where parts may have more than 63 bits.
    #[inline(always)]
    fn add_wide(self, other: Frac) -> Option<Frac>
        ensures { result ≡ add_checked self other }
    {
        let divisor = gcd(self.den, other.den);
        let by = part(other.den, divisor);
        let left = scaled(self.num, by)?;
        let right = scaled(other.num, part(self.den, divisor))?;
        let num = small_sum(left, right)?;
        held_product(self.den, by)?;
        Some(reduced_sum(num, self.den, by, divisor))
    }

    /// The product of a/b and c/d. Each numerator is reduced against the other's denominator first; it is `None` exactly where then the
    /// product of the numerators or that of the denominators is above 2^127 - 1 in size.
    #[inline(always)]
    pub fn mul(self, other: Frac) -> Option<Frac>
        ensures { result ≡ mul_checked self other }
    {
        if self.are_whole(other) {
            return whole_product(self.num, other.num);
        }
        self.mul_apart(other)
    }

    /// As `mul_over`, whose answer is kept in a place of its own.
    #[inline(always)]
    fn mul_apart(self, other: Frac) -> Option<Frac>
        ensures { result ≡ mul_checked self other }
    {
        match self.mul_over(other) {
            Some(product) => Some(product),
            None => None,
        }
    }

    /// The product, each numerator reduced against the other's denominator. Parts of 63 bits go the short way.
    #[inline(never)]
    fn mul_over(self, other: Frac) -> Option<Frac>
        ensures { result ≡ mul_checked self other }
    {
        match (self.short_parts(), other.short_parts()) {
            (Some((a, b)), Some((c, d))) => Some(short_mul(a, b, c, d)),
            _ => self.mul_wide(other),
        }
    }

    /// The product, each numerator reduced against the other's denominator, where parts may have more than 63 bits.
    #[inline(never)]
    fn mul_wide(self, other: Frac) -> Option<Frac>
        ensures { result ≡ mul_checked self other }
    {
        let left = gcd(self.num.unsigned_abs(), other.den);
        let right = gcd(other.num.unsigned_abs(), self.den);
        let num = small_product(quotient(self.num, left), quotient(other.num, right))?;
        let den = held_product(part(self.den, right), part(other.den, left))?;
        Some(made(num, den))
    }

    /// How this number compares with another. The answer is always there: where 128 bits are too few it multiplies in 256.
    #[inline(always)]
    pub fn cmp(self, other: Frac) -> Ordering
        ensures { result ≡ compare self other }
    {
        if self.den == other.den {
            self.num.cmp(&other.num)
        } else {
            compared(self.num, other.den, other.num, self.den)
        }
    }
}
