// The least and the greatest value of a sum of terms over a box.
ghost use Rattle.std.specs.Prelude.{◌≡◌, ◌<◌, ◌^◌, ◌+ℤ◌, ◌*ℤ◌, nat_abs, length};
ghost use Rattle.fraction.specs.Rational.{◌+ℚ◌, ◌*ℚ◌, whole};
ghost use Rattle.problem.specs.Limited.{AreLimited};
ghost use Rattle.row_activity.specs.Activity.{low_end, high_end, end_for, sum_of_ends, low_of, high_of, IsLimitedBox};
ghost use Rattle.row_activity.specs.Fitting.{FitsWithProduct};
ghost use Rattle.row_activity.specs.IntegerSums.{IsIntegerSum};
ghost use Rattle.row_activity.specs.Extremes.{IsLeast, IsGreatest};

use fraction::Frac;
use problem::{Term, Terms};
use problem_box::{IntBox, Span};

/// Which value over a span is looked for.
#[derive(Clone, Copy)]
enum Extreme {
    Least,
    Greatest,
}

/// The end of a span at which its product with a coefficient is least, or greatest.
#[inline(always)]
fn end_for(extreme: Extreme, coefficient: Frac, span: Span) -> i64
    ensures { result ≡ end_for extreme coefficient span }
{
    match (extreme, 0 < coefficient.numer()) {
        (Extreme::Least, true) | (Extreme::Greatest, false) => span.lo,
        (Extreme::Least, false) | (Extreme::Greatest, true) => span.hi,
    }
}

/// The sum with a product added, where neither of them is cramped.
#[inline(always)]
fn with_product(total: Frac, coefficient: Frac, number: i64) -> Frac
    requires { FitsWithProduct total coefficient number }
    ensures { result ≡ total +ℚ coefficient *ℚ whole number }
{
    let Some(product) = coefficient.mul(Frac::of(number as i128)) else {
        unreachable!()
    };
    let Some(sum) = total.add(product) else {
        unreachable!()
    };
    sum
}

/// The sum with a coefficient's product with an end of a span added, where neither of them is cramped.
#[inline(always)]
fn with_end(extreme: Extreme, total: Frac, coefficient: Frac, span: Span) -> Frac
    requires { FitsWithProduct total coefficient (end_for extreme coefficient span) }
    ensures { result ≡ total +ℚ coefficient *ℚ whole (end_for extreme coefficient span) }
{
    with_product(total, coefficient, end_for(extreme, coefficient, span))
}

/// The product of two numbers of 64 bits, which needs no test.
#[inline(always)]
fn integer_product(coefficient: i64, number: i64) -> i128
    ensures { result ≡ coefficient *ℤ number }
{
    i128::from(coefficient) * i128::from(number)
}

/// The sum with a whole coefficient's product with an end of a span added, in plain 128 bits.
#[inline(always)]
fn with_integer_end(extreme: Extreme, total: i128, coefficient: i64, span: Span) -> i128
    requires { nat_abs (total +ℤ coefficient *ℤ end_for extreme (whole coefficient) span) < 2 ^ 127 }
    ensures { result ≡ total +ℤ coefficient *ℤ end_for extreme (whole coefficient) span }
{
    let end = end_for(extreme, Frac::of(coefficient as i128), span);
    total + integer_product(coefficient, end)
}

/// The sum over the first terms of each coefficient times an end of its column's span, and how many terms these are: those before the first
/// whose coefficient isn't whole or has more than 64 bits.
///
/// Nearly all coefficients are whole, and the limits of a problem leave room for the sum in 128 bits. So most sums take no fraction, and no
/// test of size.
#[inline(always)]
fn integer_sum(extreme: Extreme, terms: &[Term], area: &IntBox) -> (i128, usize)
    requires limited { AreLimited (length area.now) terms.now }
    requires limited_box { IsLimitedBox area.now }
    ensures { IsIntegerSum (end_for extreme) area.now terms.now result.1 result.0 }
{
    let mut total: i128 = 0;
    for (index, term) in terms.iter().enumerate() {
        let Some(coefficient) = term.integer() else {
            return (total, index);
        };
        let span = area.span(term.column() as usize);
        total = with_integer_end(extreme, total, coefficient, span);
    }
    (total, terms.len())
}

/// The sum of each coefficient times an end of its column's span.
#[inline(always)]
fn sum_of_ends(extreme: Extreme, terms: &Terms, area: &IntBox) -> Frac
    requires limited { AreLimited (length area.now) terms.now }
    requires limited_box { IsLimitedBox area.now }
    ensures { result ≡ sum_of_ends (end_for extreme) area.now terms.now }
{
    let items = terms.as_slice();
    let (sum, count) = integer_sum(extreme, items, area);
    let mut total = Frac::of(sum);
    for term in &items[count..] {
        let (column, coefficient) = term.pair();
        total = with_end(extreme, total, coefficient, area.span(column as usize));
    }
    total
}

/// The least value of the terms over the points of a box that isn't empty.
///
/// The conditions are those of a problem's rows and objective over a box with a span for each of its columns. It takes no memory.
pub fn low(terms: &Terms, area: &IntBox) -> Frac
    requires limited { AreLimited (length area.now) terms.now }
    requires limited_box { IsLimitedBox area.now }
    ensures value { result ≡ low_of area.now terms.now }
    ensures least { IsLeast area.now terms.now result }
{
    sum_of_ends(Extreme::Least, terms, area)
}

/// The greatest value of the terms over the points of a box that isn't empty, under the conditions of `low`. It takes no memory.
pub fn high(terms: &Terms, area: &IntBox) -> Frac
    requires limited { AreLimited (length area.now) terms.now }
    requires limited_box { IsLimitedBox area.now }
    ensures value { result ≡ high_of area.now terms.now }
    ensures greatest { IsGreatest area.now terms.now result }
{
    sum_of_ends(Extreme::Greatest, terms, area)
}

/// The sums over the first terms as `integer_sum` gives them for the least and for the greatest value, and how many terms these are.
#[inline(always)]
fn integer_range(terms: &[Term], area: &IntBox) -> (i128, i128, usize)
    requires limited { AreLimited (length area.now) terms.now }
    requires limited_box { IsLimitedBox area.now }
    ensures low { IsIntegerSum low_end area.now terms.now result.2 result.0 }
    ensures high { IsIntegerSum high_end area.now terms.now result.2 result.1 }
{
    let mut low: i128 = 0;
    let mut high: i128 = 0;
    for (index, term) in terms.iter().enumerate() {
        let Some(coefficient) = term.integer() else {
            return (low, high, index);
        };
        let span = area.span(term.column() as usize);
        low = with_integer_end(Extreme::Least, low, coefficient, span);
        high = with_integer_end(Extreme::Greatest, high, coefficient, span);
    }
    (low, high, terms.len())
}

/// The least and the greatest value of the terms over the points of a box that isn't empty, both in one pass.
pub(crate) fn range(terms: &Terms, area: &IntBox) -> (Frac, Frac)
    requires limited { AreLimited (length area.now) terms.now }
    requires limited_box { IsLimitedBox area.now }
    ensures low { result.0 ≡ low_of area.now terms.now }
    ensures high { result.1 ≡ high_of area.now terms.now }
{
    let items = terms.as_slice();
    let (low_sum, high_sum, count) = integer_range(items, area);
    let mut low = Frac::of(low_sum);
    let mut high = Frac::of(high_sum);
    for term in &items[count..] {
        let (column, coefficient) = term.pair();
        let span = area.span(column as usize);
        low = with_end(Extreme::Least, low, coefficient, span);
        high = with_end(Extreme::Greatest, high, coefficient, span);
    }
    (low, high)
}
