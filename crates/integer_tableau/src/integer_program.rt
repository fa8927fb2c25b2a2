// Linear programs of whole numbers.

ghost use Rattle.std.specs.Prelude.{◌≡◌, ℕ, ◌<◌, ◌≤◌, ◌-◌, [], length, map, IfOk, IfSome, IsTrue, slice_index_or};
ghost use Rattle.fraction.specs.Rational.{whole};
ghost use Rattle.std.specs.Option.{option_map};
ghost use Rattle.tableau.specs.WellFormed.{IsIntegral};
ghost use Rattle.integer_tableau.specs.Numbers.{IsWithin, total_size};
ghost use Rattle.integer_tableau.specs.Entries.{entry_by};
ghost use Rattle.integer_tableau.specs.Range.{size_limit};
ghost use Rattle.integer_tableau.specs.IntegerTableau.{fraction_bounds};
ghost use Rattle.integer_tableau.specs.IntegerProgram.{column_bounds, fraction_program, CanStart};

use crate::coefficient_columns::CoefficientColumns;
use crate::dictionary_store::DictionaryStore;
use crate::integer_bounds::IntegerBounds;
use crate::integer_row::IntegerRow;
use crate::program_row::{ProgramEntry, ProgramRow};
use crate::range::SIZE_LIMIT;
use crate::start_sums::StartSums;
use fraction::Frac;
use problem_box::Span;
use std::alloc::{AllocError, Global};
use std::marker::Model;
use std::rc::RcSlice;
use tableau::{Bounds, Entry, LinearProgram};

/// A linear program of whole numbers, made ready for tableaus over many boxes. Contracts see the linear program itself.
pub struct IntegerProgram {
    /// The tableaus share them (docs/DECISIONS.md, entry 53).
    pub(crate) rows: RcSlice<ProgramRow>,
    /// The coefficients of the rows by column; none where they are too many, or too few of them aren't 0.
    pub(crate) columns: Option<CoefficientColumns>,
    /// The sums of rows at the start of the last run over a box.
    pub(crate) start_sums: StartSums,
    /// No row has coefficients that are greater together.
    pub(crate) weight: u64,
    pub(crate) costs: IntegerRow,
    pub(crate) bounds: Vec<IntegerBounds>,
    pub(crate) numbers: Vec<u32>,
    /// What runs over boxes leave for later ones.
    pub(crate) store: DictionaryStore,
}

/// By hand (docs/DECISIONS.md, entry 98).
impl Drop for IntegerProgram {
    fn drop(self) {
        let IntegerProgram {
            rows: _,
            columns: _,
            start_sums: _,
            weight: _,
            costs: _,
            bounds: _,
            numbers: _,
            store: _,
        } = self;
    }
}

impl Model for IntegerProgram {
    ghost use Rattle.tableau.specs.LinearProgram.{LinearProgram as Described};
    ghost use Rattle.integer_tableau.specs.IntegerProgram.{fraction_program, CanStart};
    ghost use Rattle.std.specs.Prelude.{IfSome};
    ghost use Rattle.integer_tableau.specs.Kept.{AreKept};
    ghost use Rattle.integer_tableau.specs.RowSums.{AreColumnsOf, AreColumnSums};

    ghost Value = { Described };

    ghost view = { λ p. fraction_program p.rows.items.value.items p.costs p.bounds.items p.numbers.items };

    ghost invariant = { λ p. CanStart p.rows.items.value.items p.weight p.costs p.bounds.items × AreKept p.rows.items.value.items p.weight p.costs p.store.kept × IfSome p.columns (AreColumnsOf p.rows.items.value.items) × AreColumnSums p.rows.items.value.items p.start_sums.values.items p.start_sums.sums.items };
}

/// The whole number of a fraction; none where it isn't whole, or has more than 64 bits.
pub(crate) fn integer(fraction: Frac) -> Option<i64>
    ensures { IfSome result (λ z. whole z ≡ fraction) }
{
    if !fraction.is_whole() {
        return None;
    }
    match i64::try_from(fraction.numer()) {
        Ok(number) => Some(number),
        Err(_) => None,
    }
}

/// The whole numbers of fractions; none where one isn't whole, or is too large. The one error is want of memory.
fn integers(alloc: Global, fractions: &[Frac]) -> Result<Option<Vec<i64>>, AllocError>
    ensures { IfOk result (λ o. IfSome o (λ v. map whole v.items ≡ fractions.now)) }
{
    let mut numbers = Vec::with_capacity(alloc, fractions.len())?;
    for fraction in fractions {
        match integer(*fraction) {
            Some(number) => numbers.push(number)?,
            None => return Ok(None),
        }
    }
    Ok(Some(numbers))
}

/// A bound as a whole number, which may not be there; none where it isn't whole, or is too large.
fn integer_bound(bound: &Option<Frac>) -> Option<Option<i64>>
    ensures { IfSome result (λ b. option_map whole b ≡ bound.now) }
{
    match *bound {
        Some(fraction) => match integer(fraction) {
            Some(number) => Some(Some(number)),
            None => None,
        },
        None => Some(None),
    }
}

/// The bounds of a variable as whole numbers; none where one isn't whole, or is too large.
fn integer_bounds(bounds: &Bounds) -> Option<IntegerBounds>
    ensures { IfSome result (λ b. fraction_bounds b ≡ bounds.now) }
{
    let lower = integer_bound(&bounds.lower)?;
    let upper = integer_bound(&bounds.upper)?;
    Some(IntegerBounds { lower, upper })
}

/// The same for all variables. The one error is want of memory.
fn all_bounds(alloc: Global, all: &[Bounds]) -> Result<Option<Vec<IntegerBounds>>, AllocError>
    ensures { IfOk result (λ o. IfSome o (λ v. map fraction_bounds v.items ≡ all.now)) }
{
    let mut integers = Vec::with_capacity(alloc, all.len())?;
    for bounds in all {
        match integer_bounds(bounds) {
            Some(bounds) => integers.push(bounds)?,
            None => return Ok(None),
        }
    }
    Ok(Some(integers))
}

/// The objective of a linear program in whole numbers; none where one isn't whole, or is too large. The one error is want of memory.
fn integer_costs(alloc: Global, program: &LinearProgram) -> Result<Option<IntegerRow>, AllocError>
    ensures { IfOk result (λ o. IfSome o (λ r. map whole r ≡ program.now.costs)) }
{
    let costs = program.costs(alloc)?;
    match integers(alloc, &costs)? {
        Some(numbers) => Ok(Some(IntegerRow::make(numbers))),
        None => Ok(None),
    }
}

/// An entry in whole numbers; none where its coefficient isn't whole, or is too large.
fn integer_entry(entry: &Entry) -> Option<ProgramEntry>
    ensures { IfSome result (λ e. entry_by whole e ≡ entry.now) }
{
    let number = integer(entry.coefficient())?;
    Some(ProgramEntry {
        place: entry.index(),
        number,
    })
}

/// The same for several entries. The one error is want of memory.
fn integer_entries(
    alloc: Global,
    entries: &[Entry],
) -> Result<Option<Vec<ProgramEntry>>, AllocError>
    ensures { IfOk result (λ o. IfSome o (λ v. map (entry_by whole) v.items ≡ entries.now)) }
{
    let mut integers = Vec::with_capacity(alloc, entries.len())?;
    for entry in entries {
        match integer_entry(entry) {
            Some(integer) => integers.push(integer)?,
            None => return Ok(None),
        }
    }
    Ok(Some(integers))
}

/// A row of a linear program in whole numbers; none where one isn't whole, or is too large. The one error is want of memory.
fn integer_row(
    alloc: Global,
    program: &LinearProgram,
    row: usize,
) -> Result<Option<ProgramRow>, AllocError>
    requires { row < length program.now.rows }
    ensures value { IfOk result (λ o. IfSome o (λ r. map whole r ≡ slice_index_or program.now.rows row [])) }
    ensures width { IfOk result (λ o. IfSome o (λ r. length r ≡ length program.now.costs)) }
{
    match integer_entries(alloc, program.entries(row))? {
        Some(entries) => Ok(Some(ProgramRow::make(program.columns(), entries))),
        None => Ok(None),
    }
}

/// The rows of a linear program in whole numbers; none where one isn't whole, or is too large. The one error is want of memory.
fn integer_rows(
    alloc: Global,
    program: &LinearProgram,
) -> Result<Option<Vec<ProgramRow>>, AllocError>
    ensures value { IfOk result (λ o. IfSome o (λ v. map (map whole) v.items ≡ program.now.rows)) }
    ensures width { IfOk result (λ o. IfSome o (λ v. (i : ℕ) → i < length v.items → length (slice_index_or v.items i []) ≡ length program.now.costs)) }
{
    let mut rows = Vec::with_capacity(alloc, program.rows())?;
    for i in 0..program.rows() {
        match integer_row(alloc, program, i)? {
            Some(row) => rows.push(row)?,
            None => return Ok(None),
        }
    }
    Ok(Some(rows))
}

/// Whether the numbers of each row are below `SIZE_LIMIT` in size.
fn are_within(rows: &[ProgramRow]) -> bool
    ensures { IsTrue result → (v : ℕ) → v < length rows.now → IsWithin (size_limit - 1) (slice_index_or rows.now v []) }
{
    for row in rows {
        if !row.is_within() {
            return false;
        }
    }
    true
}

/// The greatest sum of the sizes in a row, if each has 64 bits.
fn greatest_weight(rows: &[ProgramRow]) -> Option<u64>
    ensures { IfSome result (λ w. (v : ℕ) → v < length rows.now → total_size (slice_index_or rows.now v []) ≤ w) }
{
    let mut weight = 0u64;
    for row in rows {
        weight = weight.max(row.weight()?);
    }
    Some(weight)
}

/// The greatest sum of the sizes in a row, if it and all numbers of the costs and the rows are below `SIZE_LIMIT` in size.
pub(crate) fn small_weight(costs: &IntegerRow, rows: &[ProgramRow]) -> Option<u64>
    ensures weights { IfSome result (λ w. (v : ℕ) → v < length rows.now → total_size (slice_index_or rows.now v []) ≤ w) }
    ensures small { IfSome result (λ w. w < size_limit) }
    ensures costs_within { IfSome result (λ w. IsWithin (size_limit - 1) costs.now) }
    ensures rows_within { IfSome result (λ w. (v : ℕ) → v < length rows.now → IsWithin (size_limit - 1) (slice_index_or rows.now v [])) }
{
    let weight = greatest_weight(rows)?;
    if costs.is_within() && are_within(rows) && weight < SIZE_LIMIT {
        Some(weight)
    } else {
        None
    }
}

/// The bounds of a column.
pub(crate) fn column_bounds(span: Span) -> IntegerBounds
    ensures { result ≡ column_bounds span }
{
    IntegerBounds {
        lower: Some(span.lo),
        upper: Some(span.hi),
    }
}

impl IntegerProgram {
    /// The same linear program. None where a number isn't whole, or is too large. The one error is want of memory.
    pub fn of(alloc: Global, program: &LinearProgram) -> Result<Option<IntegerProgram>, AllocError>
        ensures value { IfOk result (λ o. IfSome o (λ p. p ≡ program.now)) }
        ensures integral { IfOk result (λ o. IfSome o (λ p. IsIntegral p)) }
    {
        let Some(costs) = integer_costs(alloc, program)? else {
            return Ok(None);
        };
        let Some(rows) = integer_rows(alloc, program)? else {
            return Ok(None);
        };
        let Some(bounds) = all_bounds(alloc, program.bounds())? else {
            return Ok(None);
        };
        let Some(weight) = small_weight(&costs, &rows) else {
            return Ok(None);
        };
        let numbers = Vec::from_slice(alloc, program.numbers())?;
        let rows = RcSlice::from_vec(rows)?;
        Ok(Some(IntegerProgram::from_parts(alloc, rows, weight, costs, bounds, numbers)))
    }

    /// The linear program of these parts, for which nothing is kept yet.
    pub(crate) fn from_parts(
        alloc: Global,
        rows: RcSlice<ProgramRow>,
        weight: u64,
        costs: IntegerRow,
        bounds: Vec<IntegerBounds>,
        numbers: Vec<u32>,
    ) -> IntegerProgram
        requires { CanStart rows.items.value.items weight costs bounds.items }
        ensures { result ≡ fraction_program rows.items.value.items costs bounds.items numbers.items }
    {
        let columns = CoefficientColumns::make(alloc, &rows, costs.width(), weight);
        IntegerProgram {
            rows,
            columns,
            start_sums: StartSums::new(alloc),
            weight,
            costs,
            bounds,
            numbers,
            store: DictionaryStore::new(alloc),
        }
    }

    /// How many pivots of runs over boxes went to a dictionary that an earlier pivot had left. No contract tells: it is there for tests.
    pub fn kept_pivots(&self) -> u64 {
        self.store.met()
    }

    /// How many columns there are.
    pub fn columns(&self) -> usize
        ensures { result ≡ length self.now.costs }
    {
        self.costs.width()
    }
}
