//! Multipliers over one denominator.

ghost use Rattle.std.specs.Prelude.{◌≡◌, ◌<◌, ◌%◌, IsTrue, IfSome};
ghost use Rattle.fraction.specs.Rational.{frac};
ghost use Rattle.derivation_book.specs.Sizes.{denominator_limit};

use fraction::Frac;
use problem::Term;

/// Common denominators are below this.
const LIMIT: u128 = 1 << 62;

/// Whether a fraction's denominator divides the number.
fn is_multiple(number: u64, factor: Frac) -> bool
    ensures { IsTrue result → number % factor.den ≡ 0 }
{
    match u64::try_from(factor.denom()) {
        Ok(denominator) => number % denominator == 0,
        Err(_) => false,
    }
}

/// A multiple of a number that is a multiple of a fraction's denominator too, the least one; none where it is too large.
fn common_multiple(number: u64, factor: Frac) -> Option<u64>
    requires positive { 0 < number }
    requires small { number < denominator_limit }
    ensures positive { IfSome result (λ n. 0 < n) }
    ensures small { IfSome result (λ n. n < denominator_limit) }
{
    // Most multipliers are whole, and the denominators of the others are mostly the same few.
    if factor.is_whole() || is_multiple(number, factor) {
        return Some(number);
    }
    factor.limits_hold();
    // In lowest terms, the number over the denominator has that part of the denominator which the number lacks.
    let lacking = Frac::make(number as i128, factor.denom() as i128).denom();
    if lacking >= LIMIT {
        return None;
    }
    let multiple = number as u128 * lacking;
    if multiple < LIMIT {
        Some(multiple as u64)
    } else {
        None
    }
}

/// A number that each multiplier's denominator divides; none where it is too large.
pub(crate) fn common_denominator(mult: &[Term]) -> Option<u64>
    ensures positive { IfSome result (λ n. 0 < n) }
    ensures small { IfSome result (λ n. n < denominator_limit) }
{
    let mut denominator = 1;
    for multiplier in mult {
        let (_, factor) = multiplier.pair();
        denominator = common_multiple(denominator, factor)?;
    }
    Some(denominator)
}

/// A multiplier times the denominator; none where that isn't whole, or has more than 64 bits.
pub(crate) fn times(factor: Frac, denominator: u64) -> Option<i64>
    requires positive { 0 < denominator }
    requires small { denominator < denominator_limit }
    ensures { IfSome result (λ z. factor ≡ frac z denominator) }
{
    let Ok(numerator) = i64::try_from(factor.numer()) else {
        return None;
    };
    let Ok(part) = u64::try_from(factor.denom()) else {
        return None;
    };
    if denominator % part != 0 {
        return None;
    }
    let scaled = numerator.checked_mul((denominator / part) as i64)?;
    Some(scaled)
}
