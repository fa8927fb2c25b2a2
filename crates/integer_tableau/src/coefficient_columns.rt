// The coefficients of a linear program's rows, column by column.

ghost use Rattle.std.specs.Prelude.{◌≡◌, ◌≢◌, ◌<◌, ◌≤◌, ◌+◌, ◌*◌, ℕ, ℤ, List, [], pos, length, slice_index_or, IfSome};
ghost use Rattle.integer_tableau.specs.Numbers.{number_at, total_size};
ghost use Rattle.integer_tableau.specs.RowSums.{AreColumnsOf};

use crate::program_row::ProgramRow;
use std::alloc::Global;

/// As many coefficients are kept at most: more would take much memory.
const MOST_COEFFICIENTS: usize = 1 << 17;

/// Where fewer than one coefficient in so many isn't 0, a row's value costs less by the row itself than by a sum that is kept.
const SPARSE: usize = 8;

/// The coefficients, also those that are 0: the ones of a column stand one behind another.
#[derive(Drop)]
pub(crate) struct CoefficientColumns {
    /// How many a column has.
    pub(crate) rows: usize,
    /// How many columns there are.
    pub(crate) width: usize,
    /// No row has coefficients that are greater together.
    pub(crate) weight: u64,
    pub(crate) numbers: Vec<i64>,
}

/// How many coefficients of rows aren't 0, about.
fn entry_count(program_rows: &[ProgramRow]) -> usize {
    let mut count = 0usize;
    for row in program_rows {
        count = count.saturating_add(row.entries().len());
    }
    count
}

/// Puts the coefficients of a row into its place of each column.
fn put_row(numbers: &mut [i64], rows: usize, row: usize, coefficients: &ProgramRow)
    requires there { row < rows }
    requires count { length numbers.old ≡ length coefficients.now * rows }
    requires zero { (j : ℕ) → j < length coefficients.now → number_at numbers.old (j * rows + row) ≡ pos 0 }
    ensures put { (j : ℕ) → j < length coefficients.now → number_at numbers.new (j * rows + row) ≡ number_at coefficients.now j }
    ensures others { (j i : ℕ) → i < rows → i ≢ row → number_at numbers.new (j * rows + i) ≡ number_at numbers.old (j * rows + i) }
{
    for entry in coefficients.entries() {
        numbers[entry.place * rows + row] = entry.number;
    }
}

/// Puts the coefficients of all rows into their columns, so many.
fn put_rows(numbers: &mut [i64], program_rows: &[ProgramRow], width: usize)
    requires full { (i : ℕ) → i < length program_rows.now → length (slice_index_or program_rows.now i []) ≡ width }
    requires count { length numbers.old ≡ width * length program_rows.now }
    requires zero { (k : ℕ) → number_at numbers.old k ≡ pos 0 }
    ensures { (i j : ℕ) → i < length program_rows.now → j < width → number_at numbers.new (j * length program_rows.now + i) ≡ number_at (slice_index_or program_rows.now i []) j }
{
    let rows = program_rows.len();
    for (row, coefficients) in program_rows.iter().enumerate() {
        put_row(numbers, rows, row, coefficients);
    }
}

impl CoefficientColumns {
    /// The coefficients of rows of this width, none of which is heavier than the weight, by column. None where they are too many, where
    /// too few of them aren't 0, and where memory is wanting.
    pub(crate) fn make(
        alloc: Global,
        program_rows: &[ProgramRow],
        width: usize,
        weight: u64,
    ) -> Option<CoefficientColumns>
        requires full { (i : ℕ) → i < length program_rows.now → length (slice_index_or program_rows.now i []) ≡ width }
        requires weights { (i : ℕ) → i < length program_rows.now → total_size (slice_index_or program_rows.now i []) ≤ weight }
        ensures { IfSome result (λ c. AreColumnsOf program_rows.now c) }
    {
        let rows = program_rows.len();
        let count = width.checked_mul(rows)?;
        if count > MOST_COEFFICIENTS || entry_count(program_rows) < count / SPARSE {
            return None;
        }
        let mut numbers = Vec::from_elem(alloc, 0, count).ok()?;
        put_rows(&mut numbers, program_rows, width);
        Some(CoefficientColumns {
            rows,
            width,
            weight,
            numbers,
        })
    }

    /// The coefficients of a column.
    #[inline(always)]
    pub(crate) fn column(&self, j: usize) -> &[i64]
        requires there { j < self.now.width }
        requires columns { (ps : List (List ℤ)) × AreColumnsOf ps self.now }
        ensures count { length result.now ≡ self.now.rows }
        ensures each { (ps : List (List ℤ)) → AreColumnsOf ps self.now → (i : ℕ) → i < self.now.rows → number_at result.now i ≡ number_at (slice_index_or ps i []) j }
    {
        let from = j * self.rows;
        &self.numbers[from..from + self.rows]
    }
}
