//! The price of a combination.

ghost use Rattle.std.specs.Prelude.{◌≡◌, ◌<◌, ◌≤◌, ◌^◌, ◌+◌, ◌-ℤ◌, ℕ, pos, nat_abs, IfOk, IfSome, IsSome, All, length, map, drop, slice_index_or, Some};
ghost use Rattle.fraction.specs.Rational.{whole, ◌+ℚ◌, neg_ℚ};
ghost use Rattle.fraction.specs.Checked.{sub_checked};
ghost use Rattle.problem.specs.Linear.{coefficient};
ghost use Rattle.problem.specs.Rising.{RiseFrom, AreRising};
ghost use Rattle.cert_rows.specs.Combination.{combined_terms};
ghost use Rattle.derivation_book.specs.Known.{known_lines};
ghost use Rattle.derivation_book.specs.OverOne.{over};
ghost use Rattle.derivation_book.specs.Price.{with_bound, with_reduced_cost, with_columns, price, reduced_cost, HasPrice};
ghost use Rattle.derivation_book.specs.Sizes.{denominator_limit};

use crate::book::Book;
use crate::combination::{Combination, short, with_product, with_short_product};
use crate::integer_sums::IntegerSums;
use fraction::Frac;
use node_events::Mult;
use problem::{Problem, Term};
use problem_box::{IntBox, Span};
use std::alloc::{AllocError, Global};

/// The sum with what is left of a column times the bound that it takes; none exactly where that is cramped.
fn with_bound(total: Frac, left: Frac, span: Span) -> Option<Frac>
    ensures { result ≡ with_bound total left span }
{
    if left.numer() == 0 {
        return Some(total);
    }
    let bound = if left.numer() > 0 { span.lo } else { span.hi };
    with_product(total, left, Frac::of(bound as i128))
}

/// The sum with what a combination leaves of a target at one column; none exactly where that is cramped.
fn with_reduced_cost(total: Frac, wanted: Frac, combined: Frac, span: Span) -> Option<Frac>
    ensures { result ≡ with_reduced_cost total wanted combined span }
{
    let left = wanted.sub(combined)?;
    with_bound(total, left, span)
}

/// The target's coefficient at a column, where the terms before `next` are of earlier columns; and the number of the first term behind the column.
#[inline(always)]
pub(crate) fn wanted_at(target: &[Term], next: usize, column: usize) -> (Frac, usize)
    requires { RiseFrom column (drop next target.now) }
    ensures coefficient { result.0 ≡ coefficient (drop next target.now) column }
    ensures rising { RiseFrom (column + 1) (drop result.1 target.now) }
    ensures later { (j : ℕ) → column < j → coefficient (drop result.1 target.now) j ≡ coefficient (drop next target.now) j }
{
    if next >= target.len() {
        return (Frac::of(0), next);
    }
    let term = &target[next];
    if term.column() as usize == column {
        (term.coefficient(), next + 1)
    } else {
        (Frac::of(0), next)
    }
}

/// How far a sum over the columns has come.
#[derive(Clone, Copy)]
struct Reached {
    /// The sum over the columns before `column`.
    total: Frac,
    /// The number of the target's first term that isn't of one of these.
    next: usize,
    column: usize,
}

/// As `with_bound`, where all numbers are whole and have 64 bits; none where one isn't so.
#[inline(always)]
fn with_short_bound(total: Frac, left: Frac, span: Span) -> Option<Frac>
    ensures { IfSome result (λ t. with_bound total left span ≡ Some t) }
{
    if left.numer() == 0 {
        return Some(total);
    }
    let bound = if left.numer() > 0 { span.lo } else { span.hi };
    with_short_product(total, left, Frac::of(bound as i128))
}

/// The difference of two numbers of 64 bits, which needs no test.
#[inline(always)]
fn short_difference(wanted: i64, combined: i64) -> i128
    ensures value { result ≡ wanted -ℤ combined }
    ensures small { nat_abs result < 2 ^ 127 }
{
    i128::from(wanted) - i128::from(combined)
}

/// What a number leaves of another, likewise.
#[inline(always)]
fn short_left(wanted: Frac, combined: Frac) -> Option<Frac>
    ensures { IfSome result (λ r. sub_checked wanted combined ≡ Some r) }
{
    match (short(wanted), short(combined)) {
        (Some(wanted), Some(combined)) => Some(Frac::of(short_difference(wanted, combined))),
        _ => None,
    }
}

/// As `with_reduced_cost`, likewise.
#[inline(always)]
fn with_short_cost(total: Frac, wanted: Frac, combined: Frac, span: Span) -> Option<Frac>
    ensures { IfSome result (λ t. with_reduced_cost total wanted combined span ≡ Some t) }
{
    let left = short_left(wanted, combined)?;
    with_short_bound(total, left, span)
}

/// The sum with what coefficients leave of a target at the first columns, as many as `with_short_cost` takes.
fn with_short_columns(side: Frac, target: &[Term], coefficients: &[Frac], area: &IntBox) -> Reached
    requires columns { length area.now ≡ length coefficients.now }
    requires rising { AreRising target.now }
    ensures rising { RiseFrom result.column (drop result.next target.now) }
    ensures left { with_columns result.total (drop result.next target.now) result.column (drop result.column coefficients.now) (drop result.column area.now) ≡ with_columns side target.now 0 coefficients.now area.now }
{
    let mut total = side;
    let mut next = 0;
    for (column, combined) in coefficients.iter().enumerate() {
        let (wanted, after) = wanted_at(target, next, column);
        match with_short_cost(total, wanted, *combined, area.span(column)) {
            Some(sum) => total = sum,
            None => {
                return Reached {
                    total,
                    next,
                    column,
                };
            }
        }
        next = after;
    }
    Reached {
        total,
        next,
        column: coefficients.len(),
    }
}

/// The sum with what coefficients leave of a target at each column that wasn't reached; none exactly where that is cramped.
fn with_other_columns(
    reached: Reached,
    target: &[Term],
    coefficients: &[Frac],
    area: &IntBox,
) -> Option<Frac>
    requires columns { length area.now ≡ length coefficients.now }
    requires rising { RiseFrom reached.column (drop reached.next target.now) }
    ensures { result ≡ with_columns reached.total (drop reached.next target.now) reached.column (drop reached.column coefficients.now) (drop reached.column area.now) }
{
    let mut total = reached.total;
    let mut next = reached.next;
    for column in reached.column..coefficients.len() {
        let (wanted, after) = wanted_at(target, next, column);
        total = with_reduced_cost(total, wanted, coefficients[column], area.span(column))?;
        next = after;
    }
    Some(total)
}

/// The sum with what coefficients leave of a target at each column; none exactly where that is cramped.
fn with_columns(side: Frac, target: &[Term], coefficients: &[Frac], area: &IntBox) -> Option<Frac>
    requires columns { length area.now ≡ length coefficients.now }
    requires rising { AreRising target.now }
    ensures { result ≡ with_columns side target.now 0 coefficients.now area.now }
{
    let reached = with_short_columns(side, target, coefficients, area);
    with_other_columns(reached, target, coefficients, area)
}

/// What coefficients leave of a target at each column, no difference being cramped. The one error is want of memory.
fn left_over(alloc: Global, target: &[Term], coefficients: &[Frac]) -> Result<Vec<Frac>, AllocError>
    requires rising { AreRising target.now }
    requires fits { (j : ℕ) → j < length coefficients.now → IsSome (sub_checked (coefficient target.now j) (slice_index_or coefficients.now j (whole (pos 0)))) }
    ensures length { IfOk result (λ v. length v.items ≡ length coefficients.now) }
    ensures left { IfOk result (λ v. (j : ℕ) → j < length coefficients.now → slice_index_or v.items j (whole (pos 0)) ≡ coefficient target.now j +ℚ neg_ℚ (slice_index_or coefficients.now j (whole (pos 0)))) }
{
    let mut items = Vec::with_capacity(alloc, coefficients.len())?;
    let mut next = 0;
    for (column, combined) in coefficients.iter().enumerate() {
        let (wanted, after) = wanted_at(target, next, column);
        match wanted.sub(*combined) {
            Some(left) => items.push(left)?,
            None => unreachable!(),
        }
        next = after;
    }
    Ok(items)
}

impl Combination {
    /// The price over a box with a span for each column; none exactly where that is cramped.
    fn price(&self, area: &IntBox, target: &[Term]) -> Option<Frac>
        requires columns { length area.now ≡ length self.now.coefficients }
        requires rising { AreRising target.now }
        ensures { result ≡ with_columns self.now.side target.now 0 self.now.coefficients area.now }
    {
        with_columns(self.side, target, &self.coefficients, area)
    }

    /// What is left of a target at each column, no difference being cramped. The one error is want of memory.
    fn left_over(&self, alloc: Global, target: &[Term]) -> Result<Vec<Frac>, AllocError>
        requires rising { AreRising target.now }
        requires fits { (j : ℕ) → j < length self.now.coefficients → IsSome (sub_checked (coefficient target.now j) (slice_index_or self.now.coefficients j (whole (pos 0)))) }
        ensures length { IfOk result (λ v. length v.items ≡ length self.now.coefficients) }
        ensures left { IfOk result (λ v. (j : ℕ) → j < length self.now.coefficients → slice_index_or v.items j (whole (pos 0)) ≡ coefficient target.now j +ℚ neg_ℚ (slice_index_or self.now.coefficients j (whole (pos 0)))) }
    {
        left_over(alloc, target, &self.coefficients)
    }
}

impl IntegerSums {
    /// The price over a box of the combination that has these numbers over the denominator; none exactly where that is cramped. The one error is want
    /// of memory.
    fn price_over(
        &self,
        alloc: Global,
        denominator: u64,
        area: &IntBox,
        target: &[Term],
    ) -> Result<Option<Frac>, AllocError>
        requires positive { 0 < denominator }
        requires small { denominator < denominator_limit }
        requires columns { length area.now ≡ length self.now.coefficients }
        requires rising { AreRising target.now }
        ensures { IfOk result (λ p. p ≡ with_columns (over denominator self.now.side) target.now 0 (map (over denominator) self.now.coefficients) area.now) }
    {
        match self.integer_price(denominator, area, target) {
            Some(price) => Ok(Some(price)),
            None => Ok(self.over(alloc, denominator)?.price(area, target)),
        }
    }
}

impl Book {
    /// What a combination of known rows shows that a target is at least, over a box with a span for each column: the combination's right side, and
    /// what it leaves of each column of the target times the bound that makes this least. The target's columns rise.
    ///
    /// There is none exactly where a product or a sum is cramped. The one error is want of memory.
    pub fn price(
        &self,
        alloc: Global,
        problem: &Problem,
        area: &IntBox,
        target: &[Term],
        mult: &Mult,
    ) -> Result<Option<Frac>, AllocError>
        requires known { All (λ m. m.0 < length (known_lines problem.now self.now.cuts)) mult.now }
        requires columns { length area.now ≡ length problem.now.spans }
        requires rising { AreRising target.now }
        ensures { IfOk result (λ v. v ≡ price problem.now self.now.cuts area.now target.now mult.now) }
    {
        let mult = mult.as_slice();
        if let Some((denominator, sums)) = self.scaled_sums(alloc, problem, mult)? {
            return sums.price_over(alloc, denominator, area, target);
        }
        match self.combine_by_fractions(alloc, problem, mult)? {
            Some(sums) => Ok(sums.price(area, target)),
            None => Ok(None),
        }
    }

    /// What a combination of known rows leaves of each column of a target, where it has a price over some box. The target's columns rise.
    ///
    /// The one error is want of memory.
    pub fn reduced_costs(
        &self,
        alloc: Global,
        problem: &Problem,
        target: &[Term],
        mult: &Mult,
    ) -> Result<Vec<Frac>, AllocError>
        requires known { All (λ m. m.0 < length (known_lines problem.now self.now.cuts)) mult.now }
        requires rising { AreRising target.now }
        requires priced { HasPrice problem.now self.now.cuts target.now mult.now }
        ensures length { IfOk result (λ v. length v.items ≡ length problem.now.spans) }
        ensures costs { IfOk result (λ v. (j : ℕ) → j < length problem.now.spans → slice_index_or v.items j (whole (pos 0)) ≡ reduced_cost target.now (combined_terms (known_lines problem.now self.now.cuts) mult.now) j) }
    {
        match self.combine(alloc, problem, mult.as_slice())? {
            Some(sums) => sums.left_over(alloc, target),
            None => unreachable!(),
        }
    }
}
