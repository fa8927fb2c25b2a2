//! The spans of the columns, and the faults that are judged at the end.

ghost use Rattle.std.specs.Prelude.{◌≡◌, ◌<◌, IfOk, IfErr, None, Ok, Some, length, slice_get};
ghost use Rattle.mps_reader.specs.BoundTables.{spans_or_fault};
ghost use Rattle.mps_reader.specs.TextTables.{IsFaultOf};
ghost use Rattle.mps_reader.specs.Meaning.{column_end_fault, or_lower, or_upper, span};
ghost use Rattle.mps_reader.specs.Tables.{table};

use crate::bounds::Bounds;
use crate::kinds::{Column, Kind};
use crate::limits::ColumnBounds;
use crate::reading::ReadFault;
use indexmap::IndexMap;
use problem_box::Span;
use std::alloc::Global;
use std::hash::BuildHasher;

/// The upper bound, where there is none the one that is given for all columns.
fn or_upper(upper: Option<u32>, bound: Option<i64>) -> Option<i64>
    ensures { result ≡ or_upper upper bound }
{
    match bound {
        Some(bound) => Some(bound),
        None => match upper {
            Some(upper) => Some(i64::from(upper)),
            None => None,
        },
    }
}

/// The lower bound, where there is none the negative of the upper one that is given for all columns.
fn or_lower(upper: Option<u32>, bound: Option<i64>) -> Option<i64>
    ensures { result ≡ or_lower upper bound }
{
    match bound {
        Some(bound) => Some(bound),
        None => match upper {
            Some(upper) => Some(-i64::from(upper)),
            None => None,
        },
    }
}

/// The span of a column, or its fault at the end.
fn span_or_fault(upper: Option<u32>, is_marked: bool, limits: ColumnBounds) -> Result<Span, Kind>
    ensures fine { IfOk result (λ s. column_end_fault upper is_marked limits ≡ None) }
    ensures span { IfOk result (λ s. s ≡ span upper limits) }
    ensures fault { IfErr result (λ k. column_end_fault upper is_marked limits ≡ Some k) }
{
    if !is_marked && !limits.is_whole {
        return Err(Kind::Continuous);
    }
    if limits.is_upper_negative && !limits.has_lower_line {
        return Err(Kind::NegativeUpper);
    }
    let Some(lo) = or_lower(upper, limits.lower) else {
        return Err(Kind::NoBound);
    };
    let Some(hi) = or_upper(upper, limits.upper) else {
        return Err(Kind::NoBound);
    };
    Ok(Span { lo, hi })
}

/// The column at an index.
fn column_at<'a, B: BuildHasher + Drop>(
    columns: &IndexMap<&'a [u8], Column, B>,
    index: usize,
) -> (&'a [u8], Column)
    requires { index < length columns.now.entries }
    ensures { slice_get (table columns.now.entries) index ≡ Some (result.0.now, result.1) }
{
    let (name, column) = columns.get_index(index).unwrap();
    (*name, *column)
}

/// The spans of all columns, or the first column's fault at its first line.
pub fn spans_or_fault<'a, B: BuildHasher + Drop>(
    alloc: Global,
    upper: Option<u32>,
    columns: &IndexMap<&'a [u8], Column, B>,
    bounds: &Bounds<'a, B>,
) -> Result<Vec<Span>, ReadFault>
    ensures spans { IfOk result (λ v. spans_or_fault upper (table bounds.now.limits.entries) (table columns.now.entries) ≡ Ok v.items) }
    ensures fault { IfErr result (λ f. IsFaultOf f (spans_or_fault upper (table bounds.now.limits.entries) (table columns.now.entries))) }
{
    let mut spans = Vec::new(alloc);
    for index in 0..columns.len() {
        let (name, column) = column_at(columns, index);
        match span_or_fault(upper, column.is_marked, bounds.limits_of(name)) {
            Ok(span) => {
                if spans.push(span).is_err() {
                    return Err(ReadFault::Memory);
                }
            }
            Err(kind) => {
                return Err(ReadFault::Refused {
                    line: column.line,
                    kind,
                });
            }
        }
    }
    Ok(spans)
}
