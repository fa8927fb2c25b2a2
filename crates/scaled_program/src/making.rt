// Scales under which a linear program is one of whole numbers. No contract says that they are: each number is tested where it is scaled.

ghost use Rattle.std.specs.Prelude.{◌≡◌, ℕ, ◌+◌, ◌<◌, ◌≤◌, length, slice_index_or, IfOk, IfSome};

use crate::scaled_program::ScaledProgram;
use crate::scales::Scales;
use fraction::Frac;
use integer_tableau::IntegerProgram;
use std::alloc::{AllocError, Global};
use std::rc::RcSlice;
use tableau::{Bounds, Entry, LinearProgram};

/// The least common multiple, if it has 64 bits.
fn common_multiple(a: u64, b: u64) -> Option<u64>
    requires a_positive { 0 < a }
    requires b_positive { 0 < b }
    ensures { IfSome result (λ m. 0 < m) }
{
    if a % b == 0 {
        return Some(a);
    }
    let factor = Frac::make(i128::from(a), i128::from(b)).denom();
    a.checked_mul(u64::try_from(factor).ok()?)
}

/// A scale that makes a fraction whole too.
fn with_fraction(scale: u64, fraction: Frac) -> Option<u64>
    requires { 0 < scale }
    ensures { IfSome result (λ m. 0 < m) }
{
    match u64::try_from(fraction.denom()) {
        Ok(denominator) => common_multiple(scale, denominator),
        Err(_) => None,
    }
}

/// A scale that makes fractions whole too.
fn with_fractions(scale: u64, fractions: &[Frac]) -> Option<u64>
    requires { 0 < scale }
    ensures { IfSome result (λ m. 0 < m) }
{
    let mut scale = scale;
    for fraction in fractions {
        scale = with_fraction(scale, *fraction)?;
    }
    Some(scale)
}

/// A scale that makes the coefficients of entries whole too.
fn with_entries(scale: u64, entries: &[Entry]) -> Option<u64>
    requires { 0 < scale }
    ensures { IfSome result (λ m. 0 < m) }
{
    let mut scale = scale;
    for entry in entries {
        scale = with_fraction(scale, entry.coefficient())?;
    }
    Some(scale)
}

/// A scale that makes a bound whole too.
fn with_bound(scale: u64, bound: &Option<Frac>) -> Option<u64>
    requires { 0 < scale }
    ensures { IfSome result (λ m. 0 < m) }
{
    match *bound {
        Some(fraction) => with_fraction(scale, fraction),
        None => Some(scale),
    }
}

/// The scale of a row of these entries and these bounds. A coefficient that is 0 is whole by any scale.
fn row_scale(entries: &[Entry], bounds: &Bounds) -> Option<u64>
    ensures { IfSome result (λ m. 0 < m) }
{
    let scale = with_entries(1, entries)?;
    let scale = with_bound(scale, &bounds.lower)?;
    with_bound(scale, &bounds.upper)
}

/// The scale of each row; none where one is too large. The one error is want of memory.
fn row_scales(alloc: Global, program: &LinearProgram) -> Result<Option<Vec<u64>>, AllocError>
    ensures count { IfOk result (λ o. IfSome o (λ v. length v.items ≡ length program.now.rows)) }
    ensures positive { IfOk result (λ o. IfSome o (λ v. (i : ℕ) → i < length v.items → 0 < slice_index_or v.items i 1)) }
{
    let mut scales = Vec::with_capacity(alloc, program.rows())?;
    let bounds = program.bounds();
    let columns = program.columns();
    for i in 0..program.rows() {
        match row_scale(program.entries(i), &bounds[columns + i]) {
            Some(scale) => scales.push(scale)?,
            None => return Ok(None),
        }
    }
    Ok(Some(scales))
}

/// The greatest scale.
fn greatest_scale(scales: &[u64], cost_scale: u64) -> u64
    ensures costs { cost_scale ≤ result }
    ensures rows { (i : ℕ) → i < length scales.now → slice_index_or scales.now i 1 ≤ result }
{
    let mut greatest = cost_scale;
    for scale in scales {
        greatest = greatest.max(*scale);
    }
    greatest
}

impl ScaledProgram {
    /// The same linear program, by the least scales under which its numbers are whole. None where a scale or a number is too large. The one
    /// error is want of memory.
    pub fn of(alloc: Global, program: &LinearProgram) -> Result<Option<ScaledProgram>, AllocError>
        ensures { IfOk result (λ o. IfSome o (λ p. p ≡ program.now)) }
    {
        let costs = program.costs(alloc)?;
        let Some(cost_scale) = with_fractions(1, &costs) else {
            return Ok(None);
        };
        let Some(scales) = row_scales(alloc, program)? else {
            return Ok(None);
        };
        let Some(integers) = IntegerProgram::scaled(alloc, program, &scales, cost_scale)? else {
            return Ok(None);
        };
        let greatest = greatest_scale(&scales, cost_scale);
        Ok(Some(ScaledProgram {
            program: integers,
            scales: Scales {
                rows: RcSlice::from_vec(scales)?,
                costs: cost_scale,
                greatest,
            },
        }))
    }
}
