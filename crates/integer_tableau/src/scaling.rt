// Linear programs of fractions as programs of whole numbers, whose rows and costs are so many times their own.

ghost use Rattle.std.specs.Prelude.{◌≡◌, ℕ, ◌+◌, ◌-◌, ◌<◌, [], length, map, IfOk, IfSome, slice_index_or};
ghost use Rattle.std.specs.Option.{option_map};
ghost use Rattle.fraction.specs.Rational.{whole};
ghost use Rattle.integer_tableau.specs.IntegerTableau.{fraction_bounds};
ghost use Rattle.integer_tableau.specs.Entries.{entry_by};
ghost use Rattle.integer_tableau.specs.Scales.{scale_at, scaled_by, bounds_over, AreScaledBounds, AreScaledRows, unscaled_program};

use crate::integer_bounds::IntegerBounds;
use crate::integer_program::{IntegerProgram, integer, small_weight};
use crate::integer_row::IntegerRow;
use crate::program_row::{ProgramEntry, ProgramRow};
use fraction::Frac;
use std::alloc::{AllocError, Global};
use std::rc::RcSlice;
use tableau::{Bounds, Entry, LinearProgram};

/// The whole number that a fraction is so many times; none where that isn't whole, or has more than 64 bits.
fn scaled_integer(fraction: Frac, scale: u64) -> Option<i64>
    requires { 0 < scale }
    ensures { IfSome result (λ z. scaled_by 1 scale (whole z) ≡ fraction) }
{
    let product = fraction.mul(Frac::of(i128::from(scale)))?;
    integer(product)
}

/// The whole numbers that fractions are so many times; none where one isn't whole, or is too large. The one error is want of memory.
fn scaled_integers(
    alloc: Global,
    fractions: &[Frac],
    scale: u64,
) -> Result<Option<Vec<i64>>, AllocError>
    requires { 0 < scale }
    ensures { IfOk result (λ o. IfSome o (λ v. map (λ z. scaled_by 1 scale (whole z)) v.items ≡ fractions.now)) }
{
    let mut numbers = Vec::with_capacity(alloc, fractions.len())?;
    for fraction in fractions {
        match scaled_integer(*fraction, scale) {
            Some(number) => numbers.push(number)?,
            None => return Ok(None),
        }
    }
    Ok(Some(numbers))
}

/// The objective of a linear program, so many times, in whole numbers; none where one isn't whole, or is too large. The one error is want of
/// memory.
fn scaled_costs(
    alloc: Global,
    program: &LinearProgram,
    scale: u64,
) -> Result<Option<IntegerRow>, AllocError>
    requires { 0 < scale }
    ensures { IfOk result (λ o. IfSome o (λ r. map (λ z. scaled_by 1 scale (whole z)) r ≡ program.now.costs)) }
{
    let costs = program.costs(alloc)?;
    match scaled_integers(alloc, &costs, scale)? {
        Some(numbers) => Ok(Some(IntegerRow::make(numbers))),
        None => Ok(None),
    }
}

/// A bound, so many times, as a whole number, which may not be there; none where it isn't whole, or is too large.
fn scaled_bound(bound: &Option<Frac>, scale: u64) -> Option<Option<i64>>
    requires { 0 < scale }
    ensures { IfSome result (λ b. option_map (scaled_by 1 scale) (option_map whole b) ≡ bound.now) }
{
    match *bound {
        Some(fraction) => match scaled_integer(fraction, scale) {
            Some(number) => Some(Some(number)),
            None => None,
        },
        None => Some(None),
    }
}

/// The bounds of a variable, so many times, as whole numbers; none where one isn't whole, or is too large.
fn scaled_bounds(bounds: &Bounds, scale: u64) -> Option<IntegerBounds>
    requires { 0 < scale }
    ensures { IfSome result (λ b. bounds_over scale (fraction_bounds b) ≡ bounds.now) }
{
    let lower = scaled_bound(&bounds.lower, scale)?;
    let upper = scaled_bound(&bounds.upper, scale)?;
    Some(IntegerBounds { lower, upper })
}

/// The scale of a variable: 1 of a column, and that of its row of another one.
fn scale_of(variable: usize, columns: usize, scales: &[u64]) -> u64
    requires { variable < columns + length scales.now }
    ensures { result ≡ scale_at columns scales.now variable }
{
    if variable < columns {
        1
    } else {
        scales[variable - columns]
    }
}

/// The bounds of all variables, so many times, as whole numbers; none where one isn't whole, or is too large. The one error is want of memory.
fn all_scaled_bounds(
    alloc: Global,
    all: &[Bounds],
    columns: usize,
    scales: &[u64],
) -> Result<Option<Vec<IntegerBounds>>, AllocError>
    requires there { length all.now ≡ columns + length scales.now }
    requires positive { (i : ℕ) → 0 < scale_at columns scales.now i }
    ensures count { IfOk result (λ o. IfSome o (λ v. length v.items ≡ length all.now)) }
    ensures value { IfOk result (λ o. IfSome o (λ v. AreScaledBounds columns scales.now v.items all.now)) }
{
    let mut integers = Vec::with_capacity(alloc, all.len())?;
    for (i, bounds) in all.iter().enumerate() {
        match scaled_bounds(bounds, scale_of(i, columns, scales)) {
            Some(bounds) => integers.push(bounds)?,
            None => return Ok(None),
        }
    }
    Ok(Some(integers))
}

/// An entry, so many times, in whole numbers; none where its coefficient isn't whole then, or is too large.
fn scaled_entry(entry: &Entry, scale: u64) -> Option<ProgramEntry>
    requires { 0 < scale }
    ensures { IfSome result (λ e. entry_by (λ z. scaled_by 1 scale (whole z)) e ≡ entry.now) }
{
    let number = scaled_integer(entry.coefficient(), scale)?;
    Some(ProgramEntry {
        place: entry.index(),
        number,
    })
}

/// The same for several entries. The one error is want of memory.
fn scaled_entries(
    alloc: Global,
    entries: &[Entry],
    scale: u64,
) -> Result<Option<Vec<ProgramEntry>>, AllocError>
    requires { 0 < scale }
    ensures { IfOk result (λ o. IfSome o (λ v. map (entry_by (λ z. scaled_by 1 scale (whole z))) v.items ≡ entries.now)) }
{
    let mut integers = Vec::with_capacity(alloc, entries.len())?;
    for entry in entries {
        match scaled_entry(entry, scale) {
            Some(integer) => integers.push(integer)?,
            None => return Ok(None),
        }
    }
    Ok(Some(integers))
}

/// A row of a linear program, so many times, in whole numbers; none where one isn't whole, or is too large. The one error is want of memory.
fn scaled_row(
    alloc: Global,
    program: &LinearProgram,
    row: usize,
    scale: u64,
) -> Result<Option<ProgramRow>, AllocError>
    requires there { row < length program.now.rows }
    requires positive { 0 < scale }
    ensures value { IfOk result (λ o. IfSome o (λ r. map (λ z. scaled_by 1 scale (whole z)) r ≡ slice_index_or program.now.rows row [])) }
    ensures width { IfOk result (λ o. IfSome o (λ r. length r ≡ length program.now.costs)) }
{
    match scaled_entries(alloc, program.entries(row), scale)? {
        Some(entries) => Ok(Some(ProgramRow::make(program.columns(), entries))),
        None => Ok(None),
    }
}

/// The rows of a linear program, each so many times, in whole numbers; none where one isn't whole, or is too large. The one error is want of
/// memory.
fn scaled_rows(
    alloc: Global,
    program: &LinearProgram,
    scales: &[u64],
) -> Result<Option<Vec<ProgramRow>>, AllocError>
    requires there { length scales.now ≡ length program.now.rows }
    requires positive { (i : ℕ) → i < length scales.now → 0 < slice_index_or scales.now i 1 }
    ensures count { IfOk result (λ o. IfSome o (λ v. length v.items ≡ length program.now.rows)) }
    ensures value { IfOk result (λ o. IfSome o (λ v. AreScaledRows scales.now v.items program.now.rows)) }
    ensures width { IfOk result (λ o. IfSome o (λ v. (i : ℕ) → i < length v.items → length (slice_index_or v.items i []) ≡ length program.now.costs)) }
{
    let mut rows = Vec::with_capacity(alloc, program.rows())?;
    for i in 0..program.rows() {
        match scaled_row(alloc, program, i, scales[i])? {
            Some(row) => rows.push(row)?,
            None => return Ok(None),
        }
    }
    Ok(Some(rows))
}

impl IntegerProgram {
    /// The linear program whose rows and costs are so many times those of this one, in whole numbers. None where a number isn't whole, or is
    /// too large. The one error is want of memory.
    pub fn scaled(
        alloc: Global,
        program: &LinearProgram,
        scales: &[u64],
        cost_scale: u64,
    ) -> Result<Option<IntegerProgram>, AllocError>
        requires there { length scales.now ≡ length program.now.rows }
        requires positive { (i : ℕ) → i < length scales.now → 0 < slice_index_or scales.now i 1 }
        requires cost_positive { 0 < cost_scale }
        ensures { IfOk result (λ o. IfSome o (λ p. unscaled_program (scale_at (length p.costs) scales.now) cost_scale p ≡ program.now)) }
    {
        let Some(costs) = scaled_costs(alloc, program, cost_scale)? else {
            return Ok(None);
        };
        let Some(rows) = scaled_rows(alloc, program, scales)? else {
            return Ok(None);
        };
        let Some(bounds) = all_scaled_bounds(alloc, program.bounds(), program.columns(), scales)?
        else {
            return Ok(None);
        };
        let Some(weight) = small_weight(&costs, &rows) else {
            return Ok(None);
        };
        let numbers = Vec::from_slice(alloc, program.numbers())?;
        let rows = RcSlice::from_vec(rows)?;
        Ok(Some(IntegerProgram::from_parts(alloc, rows, weight, costs, bounds, numbers)))
    }
}
