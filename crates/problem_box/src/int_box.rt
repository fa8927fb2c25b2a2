// One span per column.
ghost use Rattle.std.specs.Prelude.{◌≡◌, ◌<◌, ◌≤ℤ◌, ◌<ℤ◌, ◌↔◌, IsTrue, length, slice_get, Some, All, IfSome, IfNone, IfOk};
ghost use Rattle.std.specs.Option.{ForSome};
ghost use Rattle.problem_box.specs.Boxes.{IsInBox, is_in_box};
ghost use Rattle.problem_box.specs.Changes.{IsFirstEmpty, IsFirstFree, IsFixed, cut_high, cut_low};

use crate::span::Span;
use std::alloc::{AllocError, Global};
use std::marker::Model;

/// One span per column, seen as the list of the spans. Columns are numbered from 0.
#[derive(Debug, Drop)]
pub struct IntBox {
    spans: Vec<Span>,
}

impl Model for IntBox {
    ghost use Rattle.std.specs.Prelude.{List};
    ghost use Rattle.problem_box.specs.declared.span.Span.{Span};

    ghost Value = { List Span };

    ghost view = { λ b. b.spans.items };
}

impl IntBox {
    /// The box of these spans, column 0 first.
    pub fn make(spans: Vec<Span>) -> IntBox
        ensures { result ≡ spans.items }
    {
        IntBox { spans }
    }

    /// How many columns the box has.
    pub fn len(&self) -> usize
        ensures { result ≡ length self.now }
    {
        self.spans.len()
    }

    /// Whether the box has no column.
    pub fn is_empty(&self) -> bool
        ensures { IsTrue result ↔ (length self.now ≡ 0) }
    {
        self.spans.is_empty()
    }

    /// The span of a column that is there.
    pub fn span(&self, column: usize) -> Span
        requires { column < length self.now }
        ensures { slice_get self.now column ≡ Some result }
    {
        self.spans[column]
    }

    /// The least column whose lower bound is above its upper one, if there is one.
    pub fn empty_at(&self) -> Option<usize>
        ensures found { IfSome result (λ j. IsFirstEmpty self.now j) }
        ensures none { IfNone result (All (λ s. s.lo ≤ℤ s.hi) self.now) }
    {
        for (j, span) in self.spans.iter().enumerate() {
            if span.is_empty() {
                return Some(j);
            }
        }
        None
    }

    /// Whether each span has exactly one number.
    pub fn is_fixed(&self) -> bool
        ensures { IsTrue result ↔ IsFixed self.now }
    {
        for span in &self.spans {
            if !span.is_fixed() {
                return false;
            }
        }
        true
    }

    /// The least column whose lower bound is below its upper one, if there is one.
    pub fn first_free(&self) -> Option<usize>
        ensures found { IfSome result (λ j. IsFirstFree self.now j) }
        ensures none { IfNone result (All (λ s. s.hi ≤ℤ s.lo) self.now) }
    {
        for (j, span) in self.spans.iter().enumerate() {
            if span.is_free() {
                return Some(j);
            }
        }
        None
    }

    /// Sets a column's upper bound to a smaller one that the span has. No other bound changes.
    pub fn cut_high(&mut self, column: usize, bound: i64)
        requires there { column < length self.old }
        requires inside { ForSome (slice_get self.old column) (λ s. (s.lo ≤ℤ bound) × (bound <ℤ s.hi)) }
        ensures { self.new ≡ cut_high self.old column bound }
    {
        self.set_high(column, bound);
    }

    /// Sets a column's lower bound to a greater one that the span has. No other bound changes.
    pub fn cut_low(&mut self, column: usize, bound: i64)
        requires there { column < length self.old }
        requires inside { ForSome (slice_get self.old column) (λ s. (s.lo <ℤ bound) × (bound ≤ℤ s.hi)) }
        ensures { self.new ≡ cut_low self.old column bound }
    {
        self.set_low(column, bound);
    }

    /// Sets a column's upper bound, also to a greater one. No other bound changes.
    pub fn set_high(&mut self, column: usize, bound: i64)
        requires { column < length self.old }
        ensures { self.new ≡ cut_high self.old column bound }
    {
        let span = self.span(column);
        self.spans[column] = span.with_high(bound);
    }

    /// Sets a column's lower bound, also to a smaller one. No other bound changes.
    pub fn set_low(&mut self, column: usize, bound: i64)
        requires { column < length self.old }
        ensures { self.new ≡ cut_low self.old column bound }
    {
        let span = self.span(column);
        self.spans[column] = span.with_low(bound);
    }

    /// Whether the point has one number per column, each in its span.
    pub fn holds(&self, point: &[i64]) -> bool
        ensures { IsTrue result ↔ IsInBox self.now point.now }
    {
        if point.len() != self.spans.len() {
            return false;
        }
        are_within(&self.spans, point)
    }

    /// An equal box. Its one error is want of memory.
    pub fn copy(&self, alloc: Global) -> Result<IntBox, AllocError>
        ensures { IfOk result (λ b. b ≡ self.now) }
    {
        let mut spans = Vec::new(alloc);
        spans.extend_from_slice(&self.spans)?;
        Ok(IntBox { spans })
    }
}

/// Whether each number lies in the span of its column.
fn are_within(spans: &[Span], point: &[i64]) -> bool
    requires { length point.now ≡ length spans.now }
    ensures { result ≡ is_in_box spans.now point.now }
{
    for (j, span) in spans.iter().enumerate() {
        if !span.holds(point[j]) {
            return false;
        }
    }
    true
}
