// Where a node may be split, and for which reason.
ghost use Rattle.std.specs.Prelude.{◌≡◌, ◌<◌, ◌≤◌, ◌+ℤ◌, ◌<ℤ◌, int_le, IfOk, length, take, slice_get, All};
ghost use Rattle.std.specs.List.{list_all};
ghost use Rattle.std.specs.Ordering.{int_eq};
ghost use Rattle.fraction.specs.Rational.{floor_div};
ghost use Rattle.problem_box.specs.declared.span.Span.{Span as SpanValue};
ghost use Rattle.problem.specs.Limited.{IsModestSpan};
ghost use Rattle.problem.specs.Limits.{most_cuts};
ghost use Rattle.dual_simplex.specs.Relaxation.{rational_at};
ghost use Rattle.dual_simplex.specs.Answers.{answer};
ghost use Rattle.dual_simplex.specs.Prepared.{IsKept};
ghost use Rattle.dual_simplex.specs.Sizes.{most_numbered_cuts};
ghost use Rattle.event_core.specs.Splits.{has_both, cuts_of, is_between, is_middle, is_cramped, is_stalled, is_fractional, is_given, is_reason};

use crate::relaxed::{is_below_cutoff, is_relaxed};
use crate::split_place::{SplitPlace, middle};
use derivation_book::Book;
use dual_simplex::KeptRelaxation;
use fraction::Frac;
use node_events::{RationalPoint, Reason};
use problem::Problem;
use problem_box::{IntBox, Span};
use std::alloc::{AllocError, Global};

/// Whether the column is there, and its span has the bound and the number after it.
pub fn has_both(area: &IntBox, column: u32, bound: i64) -> bool
    ensures { result ≡ has_both (slice_get area.now column) bound }
{
    let column = column as usize;
    if column >= area.len() {
        return false;
    }
    let span = area.span(column);
    span.lo <= bound && bound < span.hi
}

/// Whether the bound is half the sum of the bounds of a span that is free, rounded down.
fn is_half(span: Span, bound: i64) -> bool
    requires modest { IsModestSpan span }
    requires free { span.lo <ℤ span.hi }
    ensures { result ≡ int_eq bound (floor_div (span.lo +ℤ span.hi) 2) }
{
    bound == middle(span)
}

/// Whether the column is the least one with more than one number, and the bound is the middle of its span.
fn is_middle(area: &IntBox, column: u32, bound: i64) -> bool
    requires { All IsModestSpan area.now }
    ensures { result ≡ is_middle area.now column bound }
{
    match area.first_free() {
        Some(first) => first == column as usize && is_half(area.span(first), bound),
        None => false,
    }
}

/// The point's number in the column, and 0 where there is no such column.
fn number_in(point: &RationalPoint, column: u32) -> Frac
    ensures { result ≡ rational_at point.now column }
{
    let column = column as usize;
    if column < point.len() {
        point.get(column)
    } else {
        Frac::of(0)
    }
}

/// Whether the number isn't whole, and has this floor.
fn is_between(number: Frac, bound: i64) -> bool
    ensures { result ≡ is_between number bound }
{
    !number.is_whole() && number.floor() == i128::from(bound)
}

/// Whether the run with the first cuts is cramped after so many pivots. The one error is want of memory.
fn is_cramped(
    alloc: Global,
    problem: &Problem,
    book: &Book,
    kept: &mut KeptRelaxation,
    cuts: usize,
    area: &IntBox,
    pivots: u32,
) -> Result<bool, AllocError>
    requires kept { IsKept problem.now book.now.cuts kept.old }
    requires few { cuts ≤ length book.now.cuts }
    requires numbered { cuts < most_numbered_cuts }
    requires columns { length area.now ≡ length problem.now.spans }
    ensures value { IfOk result (λ b. b ≡ is_cramped pivots (answer problem.now (take cuts book.now.cuts) area.now)) }
    ensures kept { IsKept problem.now book.now.cuts kept.new }
{
    kept.is_cramped_after(alloc, problem, book, cuts, area, pivots)
}

/// Whether the run with the first cuts is stalled. The one error is want of memory.
fn is_stalled(
    alloc: Global,
    problem: &Problem,
    book: &Book,
    kept: &mut KeptRelaxation,
    cuts: usize,
    area: &IntBox,
) -> Result<bool, AllocError>
    requires kept { IsKept problem.now book.now.cuts kept.old }
    requires few { cuts ≤ length book.now.cuts }
    requires numbered { cuts < most_numbered_cuts }
    requires columns { length area.now ≡ length problem.now.spans }
    ensures value { IfOk result (λ b. b ≡ is_stalled (answer problem.now (take cuts book.now.cuts) area.now)) }
    ensures kept { IsKept problem.now book.now.cuts kept.new }
{
    kept.is_stalled(alloc, problem, book, cuts, area)
}

/// How many cuts the reason's linear program has.
fn cuts_of(reason: &Reason) -> u32
    ensures { result ≡ cuts_of reason.now }
{
    match reason {
        Reason::Fractional { cuts, .. } => *cuts,
        Reason::Cramped { cuts, .. } => *cuts,
        Reason::Stalled { cuts } => *cuts,
    }
}

/// Whether the point's number in the column lies between the bound and the number after it, and the point is one of the linear program with the first
/// cuts whose aim is below the cutoff. The one error is want of memory.
fn is_fractional(
    alloc: Global,
    problem: &Problem,
    book: &Book,
    cuts: usize,
    area: &IntBox,
    cutoff: Option<Frac>,
    at: SplitPlace,
    point: &RationalPoint,
) -> Result<bool, AllocError>
    requires { cuts ≤ length book.now.cuts }
    ensures { IfOk result (λ b. b ≡ is_fractional problem.now (take cuts book.now.cuts) area.now cutoff at.column at.bound point.now) }
{
    if !is_between(number_in(point, at.column), at.bound) {
        return Ok(false);
    }
    let relaxed = is_relaxed(alloc, problem, book, cuts, area, point)?;
    Ok(relaxed && is_below_cutoff(problem, cutoff, point))
}

/// Whether what the reason says is so, where its cuts are there. The one error is want of memory.
fn is_given(
    alloc: Global,
    problem: &Problem,
    book: &Book,
    kept: &mut KeptRelaxation,
    area: &IntBox,
    cutoff: Option<Frac>,
    at: SplitPlace,
    reason: &Reason,
) -> Result<bool, AllocError>
    requires kept { IsKept problem.now book.now.cuts kept.old }
    requires few { cuts_of reason.now ≤ length book.now.cuts }
    requires few_cuts { length book.now.cuts ≤ most_cuts }
    requires columns { length area.now ≡ length problem.now.spans }
    requires modest { All IsModestSpan area.now }
    ensures value { IfOk result (λ b. b ≡ is_given problem.now book.now.cuts area.now cutoff at.column at.bound reason.now) }
    ensures kept { IsKept problem.now book.now.cuts kept.new }
{
    match reason {
        Reason::Fractional { cuts, point } => {
            is_fractional(
                alloc,
                problem,
                book,
                *cuts as usize,
                area,
                cutoff,
                at,
                point,
            )
        }
        Reason::Cramped { cuts, pivots } => {
            if !is_middle(area, at.column, at.bound) {
                return Ok(false);
            }
            is_cramped(alloc, problem, book, kept, *cuts as usize, area, *pivots)
        }
        Reason::Stalled { cuts } => {
            if !is_middle(area, at.column, at.bound) {
                return Ok(false);
            }
            is_stalled(alloc, problem, book, kept, *cuts as usize, area)
        }
    }
}

/// Whether each span has a number.
fn is_nonempty(area: &IntBox) -> bool
    ensures { result ≡ list_all (λ (s : SpanValue). int_le s.lo s.hi) area.now }
{
    match area.empty_at() {
        Some(_) => false,
        None => true,
    }
}

/// Whether the reason holds for a split of the box, whose spans are as many as the problem's columns and not larger than those may be. The one error
/// is want of memory.
pub fn is_reason(
    alloc: Global,
    problem: &Problem,
    book: &Book,
    kept: &mut KeptRelaxation,
    area: &IntBox,
    cutoff: Option<Frac>,
    at: SplitPlace,
    reason: &Reason,
) -> Result<bool, AllocError>
    requires kept { IsKept problem.now book.now.cuts kept.old }
    requires few_cuts { length book.now.cuts ≤ most_cuts }
    requires columns { length area.now ≡ length problem.now.spans }
    requires modest { All IsModestSpan area.now }
    ensures value { IfOk result (λ b. b ≡ is_reason problem.now book.now.cuts area.now cutoff at.column at.bound reason.now) }
    ensures kept { IsKept problem.now book.now.cuts kept.new }
{
    if !is_nonempty(area) || cuts_of(reason) as usize > book.len() {
        return Ok(false);
    }
    is_given(alloc, problem, book, kept, area, cutoff, at, reason)
}
