//! Boxes of one to three columns: what they say of themselves, cuts, and points.

ghost use Rattle.std.specs.Prelude.{◌<◌, ◌≤ℤ◌, ◌<ℤ◌, length, slice_get};
ghost use Rattle.std.specs.Option.{ForSome};

use case_tools::Spans;
use problem_box::{IntBox, Span};
use std::alloc::{AllocError, Global};
use std::io;

/// Prints a box with what it says of itself.
fn show_box<R: Print>(rt: &R, area: &IntBox) -> io::Result<()> {
    let (spans, columns) = (Spans(area), area.len());
    let (free, empty) = (area.first_free(), area.empty_at());
    println!(rt; "box {spans}: columns {columns}, first free {free:?}, empty at {empty:?}")?;
    let (is_fixed, is_empty) = (area.is_fixed(), area.is_empty());
    println!(rt; "box {spans}: fixed {is_fixed}, no column {is_empty}")
}

/// Prints whether a box holds a point.
fn show_point<R: Print>(rt: &R, area: &IntBox, point: &[i64]) -> io::Result<()> {
    let (spans, holds) = (Spans(area), area.holds(point));
    println!(rt; "box {spans} holds {point:?}: {holds}")
}

/// The box of three columns: one fixed, one free, one empty.
fn three_columns(alloc: Global) -> Result<IntBox, AllocError> {
    let spans = vec![in alloc;
        Span { lo: 1, hi: 1 },
        Span { lo: 0, hi: 4 },
        Span { lo: 3, hi: 2 },
    ]?;
    let area = IntBox::make(spans);
    area.copy(alloc)
}

/// The box of one fixed column.
fn one_column(alloc: Global) -> Result<IntBox, AllocError> {
    let spans = vec![in alloc; Span { lo: -2, hi: -2 }]?;
    Ok(IntBox::make(spans))
}

/// The half of a box up to this number in a column.
fn low_half(alloc: Global, area: &IntBox, column: usize, bound: i64) -> Result<IntBox, AllocError>
    requires there { column < length area.now }
    requires inside { ForSome (slice_get area.now column) (λ s. (s.lo ≤ℤ bound) × (bound <ℤ s.hi)) }
{
    let mut low = area.copy(alloc)?;
    low.cut_high(column, bound);
    Ok(low)
}

/// The half of a box from this number on in a column.
fn high_half(alloc: Global, area: &IntBox, column: usize, bound: i64) -> Result<IntBox, AllocError>
    requires there { column < length area.now }
    requires inside { ForSome (slice_get area.now column) (λ s. (s.lo <ℤ bound) × (bound ≤ℤ s.hi)) }
{
    let mut high = area.copy(alloc)?;
    high.cut_low(column, bound);
    Ok(high)
}

/// Prints a box that is split at this number, and both halves.
fn show_split<R: Print>(
    rt: &R,
    area: &IntBox,
    bound: i64,
    low: &IntBox,
    high: &IntBox,
) -> io::Result<()> {
    let (spans, low, high) = (Spans(area), Spans(low), Spans(high));
    println!(rt; "box {spans} split at {bound}: {low} and {high}")
}

/// Prints both halves of a box that is split at this number in a column where it can be.
fn show_halves<R: Print + Alloc<A = Global>>(
    rt: &R,
    area: &IntBox,
    column: usize,
    bound: i64,
) -> io::Result<()> {
    if column >= area.len() {
        return Ok(());
    }
    let span = area.span(column);
    if bound < span.lo || span.hi <= bound {
        return Ok(());
    }
    let low = low_half(rt.alloc(), area, column, bound)?;
    let high = high_half(rt.alloc(), area, column, bound + 1)?;
    show_split(rt, area, bound, &low, &high)
}

/// Prints the calls on a box of three columns.
fn show_mixed<R: Print + Alloc<A = Global>>(rt: &R, area: &IntBox) -> io::Result<()> {
    show_box(rt, area)?;
    show_point(rt, area, &[1, 2, 3])?;
    show_halves(rt, area, 1, 2)
}

/// Prints the calls on a box of three columns: one fixed, one free, one empty.
fn show_three_columns<R: Print + Alloc<A = Global>>(rt: &R) -> io::Result<()> {
    let area = three_columns(rt.alloc())?;
    show_mixed(rt, &area)
}

/// Prints the calls on a box of one column that is fixed.
fn show_fixed<R: Print>(rt: &R, area: &IntBox) -> io::Result<()> {
    show_box(rt, area)?;
    show_point(rt, area, &[-2])?;
    show_point(rt, area, &[-1])?;
    show_point(rt, area, &[-2, -2])
}

/// Prints the calls on the box of one column.
fn show_one_column<R: Print + Alloc<A = Global>>(rt: &R) -> io::Result<()> {
    let area = one_column(rt.alloc())?;
    show_fixed(rt, &area)
}

/// Prints the calls on boxes.
pub(crate) fn show<R: Print + Alloc<A = Global>>(rt: &R) -> io::Result<()> {
    show_three_columns(rt)?;
    show_one_column(rt)?;
    let none = IntBox::make(Vec::new(rt.alloc()));
    show_box(rt, &none)
}
