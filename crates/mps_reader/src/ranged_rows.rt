//! The rows and the objective of a problem, where a ranged row gives two rows.

ghost use Rattle.std.specs.Prelude.{◌≡◌, ℕ, ◌++◌, ◌<◌, OnOk, IfOk, IfSome, All, None, Some, get_or, length, slice_get};
ghost use Rattle.std.specs.Option.{option_or};
ghost use Rattle.fraction.specs.Checked.{abs_ℚ};
ghost use Rattle.fraction.specs.Rational.{◌+ℚ◌, neg_ℚ};
ghost use Rattle.problem.specs.Rising.{AreNonzero, AreRising};
ghost use Rattle.mps_reader.specs.Building.{objective_with, side_of};
ghost use Rattle.mps_reader.specs.Meaning.{range_of, ranged_rows, rows_from};
ghost use Rattle.mps_reader.specs.RangedRows.{IsTextNumber};
ghost use Rattle.mps_reader.specs.RowState.{kept_terms};
ghost use Rattle.mps_reader.specs.RowsMade.{made_objective, made_rows};
ghost use Rattle.mps_reader.specs.Tables.{table};

use crate::building::{Parts, side_at};
use crate::kinds::RowType;
use crate::row_table::RowTable;
use crate::rows::is_counted;
use crate::side_table::SideTable;
use fraction::Frac;
use indexmap::IndexMap;
use problem::{Row, Sense, Terms};
use std::alloc::{AllocError, Global};
use std::hash::BuildHasher;

/// The sum of two numbers of a text.
#[tactic(auto, using(crate::proofs::RangedRows::sum_is))]
fn sum(left: Frac, right: Frac) -> Frac
    requires left { IsTextNumber left }
    requires right { IsTextNumber right }
    ensures { result ≡ left +ℚ right }
{
    left.add(right).unwrap()
}

/// The size of a range.
fn size_of(range: Frac) -> Frac
    requires { IsTextNumber range }
    ensures value { result ≡ abs_ℚ range }
    ensures held { IsTextNumber result }
{
    range.abs()
}

/// The number with the other sign.
fn negated(number: Frac) -> Frac
    requires { IsTextNumber number }
    ensures value { result ≡ neg_ℚ number }
    ensures held { IsTextNumber result }
{
    number.neg()
}

/// The least and the greatest value of a ranged row.
fn range_of(kind: RowType, rhs: Frac, range: Frac) -> (Frac, Frac)
    requires rhs { IsTextNumber rhs }
    requires range { IsTextNumber range }
    ensures { result ≡ range_of kind rhs range }
{
    match kind {
        RowType::N => (rhs, rhs),
        RowType::G => (rhs, sum(rhs, size_of(range))),
        RowType::L => (sum(rhs, negated(size_of(range))), rhs),
        RowType::E => {
            if range.numer() < 0 {
                (sum(rhs, range), rhs)
            } else {
                (rhs, sum(rhs, range))
            }
        }
    }
}

/// Takes a ranged row as a G row and an L row. The one error is want of memory.
fn take_ranged(
    alloc: Global,
    parts: &mut Parts,
    ends: (Frac, Frac),
    terms: Terms,
) -> Result<(), AllocError>
    requires rising { AreRising terms }
    requires nonzero { AreNonzero terms }
    ensures rows { OnOk result (parts.new.rows.items ≡ parts.old.rows.items ++ ranged_rows ends terms) }
    ensures objective { OnOk result (parts.new.objective ≡ parts.old.objective) }
{
    let copy = terms.copy(alloc)?;
    parts.rows.push(Row::make(Sense::G, ends.0, copy))?;
    parts.rows.push(Row::make(Sense::L, ends.1, terms))?;
    Ok(())
}

/// Takes a row of the text with its range, where it has one. The one error is want of memory.
fn take_row(
    alloc: Global,
    parts: &mut Parts,
    kind: RowType,
    rhs: Frac,
    range: Option<Frac>,
    terms: Terms,
) -> Result<(), AllocError>
    requires rising { AreRising terms }
    requires nonzero { AreNonzero terms }
    requires rhs { IsTextNumber rhs }
    requires range { IfSome range (λ q. IsTextNumber q) }
    ensures rows { OnOk result (parts.new.rows.items ≡ parts.old.rows.items ++ rows_from kind rhs range terms) }
    ensures objective { OnOk result (parts.new.objective ≡ option_or parts.old.objective (objective_with kind terms)) }
{
    match range {
        Some(range) if is_counted(kind) => {
            take_ranged(alloc, parts, range_of(kind, rhs, range), terms)
        }
        _ => parts.take(kind, rhs, terms),
    }
}

/// The name and the type of the row at an index.
fn row_at<'a, B: BuildHasher + Drop>(
    rows: &IndexMap<&'a [u8], RowType, B>,
    index: usize,
) -> (&'a [u8], RowType)
    requires { index < length rows.now.entries }
    ensures { slice_get (table rows.now.entries) index ≡ Some (result.0.now, result.1) }
{
    let (name, kind) = rows.get_index(index).unwrap();
    (*name, *kind)
}

/// The rows of the problem, and the terms of the first N row where there is one, in one pass over the rows.
///
/// In each row the columns rise and no number is 0. The one error is want of memory.
pub fn ranged_parts<'a, B: BuildHasher + Drop>(
    alloc: Global,
    rows: &IndexMap<&'a [u8], RowType, B>,
    sides: &SideTable,
    ranges: &SideTable,
    terms: RowTable,
) -> Result<Parts, AllocError>
    requires count { length terms ≡ length rows.now.entries }
    requires rising { All (λ t. AreRising (kept_terms t)) terms }
    requires nonzero { All (λ t. AreNonzero (kept_terms t)) terms }
    requires sides { (i : ℕ) → IsTextNumber (side_of (get_or sides.now i None)) }
    requires ranges { (i : ℕ) → IfSome (get_or ranges.now i None) (λ q. IsTextNumber q) }
    ensures rows { IfOk result (λ p. p.rows.items ≡ made_rows sides.now ranges.now 0 (table rows.now.entries) terms) }
    ensures objective { IfOk result (λ p. p.objective ≡ made_objective (table rows.now.entries) terms) }
{
    let mut parts = Parts {
        rows: Vec::new(alloc),
        objective: None,
    };
    let mut left = terms;
    for index in 0..rows.len() {
        let (_, kind) = row_at(rows, index);
        take_row(
            alloc,
            &mut parts,
            kind,
            side_at(sides, index),
            ranges.number_at(index),
            left.take_terms(index),
        )?;
    }
    Ok(parts)
}
