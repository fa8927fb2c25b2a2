// Steps of one coefficient.

ghost use Rattle.std.specs.Prelude.{◌≡◌, ◌<◌, pos, nat_abs};
ghost use Rattle.std.specs.Ordering.{int_eq};
ghost use Rattle.tableau.specs.Elimination.{add_multiple, negative_quotient};

use fraction::Frac;

/// Whether a number is 0.
#[inline]
pub(crate) fn is_zero(number: Frac) -> bool
    ensures { result ≡ int_eq number.num (pos 0) }
{
    number.numer() == 0
}

/// `number + factor * other`; none exactly where the product or the sum is cramped.
#[inline]
pub(crate) fn add_multiple(factor: Frac, number: Frac, other: Frac) -> Option<Frac>
    ensures { result ≡ add_multiple factor number other }
{
    let product = factor.mul(other)?;
    number.add(product)
}

/// `-number / pivot`; none exactly where this is cramped. The pivot isn't 0.
#[inline]
pub(crate) fn negative_quotient(pivot: Frac, number: Frac) -> Option<Frac>
    requires { 0 < nat_abs pivot.num }
    ensures { result ≡ negative_quotient pivot number }
{
    number.neg().div(pivot)
}
