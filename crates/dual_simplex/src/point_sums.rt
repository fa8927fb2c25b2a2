//! Sums at points whose numbers need not be whole.

ghost use Rattle.std.specs.Prelude.{◌≡◌, length, nat_lt, Some, if◌then◌else◌};
ghost use Rattle.problem.specs.Rising.{AreRising};
ghost use Rattle.derivation_book.specs.Sums.{with_product};
ghost use Rattle.dual_simplex.specs.Relaxation.{rational_at};
ghost use Rattle.dual_simplex.specs.PointSums.{checked_sum};

use fraction::Frac;
use node_events::RationalPoint;
use problem::Term;

/// The sum with a product more; none exactly where the product or the sum is cramped.
fn with_product(total: Frac, coefficient: Frac, number: Frac) -> Option<Frac>
    ensures { result ≡ with_product total coefficient number }
{
    // Most numbers of a vertex are 0.
    if number.numer() == 0 {
        total.limits_hold();
        return Some(total);
    }
    total.add(coefficient.mul(number)?)
}

/// The sum with the product of a term, if the term's column is there; none exactly where that is cramped.
fn with_term(point: &RationalPoint, total: Frac, term: &Term) -> Option<Frac>
    ensures { result ≡ (if nat_lt term.now.0 (length point.now) then with_product total term.now.1 (rational_at point.now term.now.0) else Some total) }
{
    let column = term.column() as usize;
    if column < point.len() {
        with_product(total, term.coefficient(), point.get(column))
    } else {
        Some(total)
    }
}

/// The sum of coefficient times number over the columns, where the columns of the terms rise; none exactly where a product or a sum on the way is
/// cramped.
pub fn checked_sum(point: &RationalPoint, terms: &[Term]) -> Option<Frac>
    requires { AreRising terms.now }
    ensures { result ≡ checked_sum terms.now point.now }
{
    let mut total = Frac::of(0);
    for term in terms {
        total = with_term(point, total, term)?;
    }
    Some(total)
}
