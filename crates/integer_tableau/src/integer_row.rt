// Rows of numerators.

ghost use Rattle.std.specs.Prelude.{◌≡◌, ℕ, List, [], ◌<◌, ◌*◌, ◌≤◌, ◌-◌, pos, nat_abs, neg_ℤ, ◌<ℤ◌, length, IsTrue, OnOk, IfSome, IsSome, replicate, slice_index_or, slice_set};
ghost use Rattle.integer_tableau.specs.Numbers.{number_at, IsWithin};
ghost use Rattle.integer_tableau.specs.Range.{size_limit};
ghost use Rattle.integer_tableau.specs.Arena.{rows_by};
ghost use Rattle.integer_tableau.specs.BasicColumns.{basic_from};
ghost use Rattle.integer_tableau.specs.Combined.{combined_row};
ghost use Rattle.integer_tableau.specs.Positions.{AreNonbasic};
ghost use Rattle.integer_tableau.specs.Substitution.{IsSubstituted, IsSolvedFor, IsSubstitutedRow, IsSolvedRow, IsSubstitutedIfFull, substituted_size};

use crate::divisor::Divisor;
use crate::low_sums;
use crate::position::Position;
use crate::program_row::ProgramRow;
use crate::range::SIZE_LIMIT;
use crate::substitution::substitute;
use std::alloc::{AllocError, Global};
use std::marker::Model;

/// A row of numerators over the tableau's denominator, seen as the list of them. The bound on their sizes only spares looks at them.
#[derive(Drop)]
pub(crate) struct IntegerRow {
    numerators: Vec<i64>,
    size: u64,
}

impl Model for IntegerRow {
    ghost use Rattle.std.specs.Prelude.{List, ℤ};
    ghost use Rattle.std.specs.Coded.{coded_list, coded_ℤ};
    ghost use Rattle.integer_tableau.specs.Numbers.{IsWithin};

    ghost Value = { List ℤ };

    ghost coded = { coded_list coded_ℤ };

    ghost view = { λ r. r.numerators.items };

    ghost invariant = { λ r. IsWithin r.size r.numerators.items };
}

/// The greatest size.
pub(crate) fn greatest_size(row: &[i64]) -> u64
    ensures { IsWithin result row.now }
{
    let mut size = 0;
    for number in row {
        size = size.max(number.unsigned_abs());
    }
    size
}

/// Turns each number's sign.
fn negate(row: &mut [i64])
    requires { IsWithin (size_limit - 1) row.old }
    ensures { (k : ℕ) → number_at row.new k ≡ neg_ℤ (number_at row.old k) }
{
    for number in row.iter_mut() {
        *number = -*number;
    }
}

/// A bound on the sizes of a row after a substitution, if the numbers before the division have 64 bits. Else the row is to be looked
/// through: the bounds grow faster than the numbers, and small ones go the short way.
#[inline(always)]
fn substituted_size(
    row_size: u64,
    row_factor: i64,
    source_size: u64,
    source_factor: i64,
    denominator: i64,
) -> Option<u64>
    requires row_factor_small { nat_abs row_factor < size_limit }
    requires source_factor_small { nat_abs source_factor < size_limit }
    requires denominator_there { 0 < nat_abs denominator }
    ensures { IfSome result (λ b. b ≡ substituted_size row_size (nat_abs row_factor) source_size (nat_abs source_factor) (nat_abs denominator)) }
{
    if row_size >= SIZE_LIMIT || source_size >= SIZE_LIMIT {
        return None;
    }
    let size = u128::from(row_size) * u128::from(row_factor.unsigned_abs())
        + u128::from(source_size) * u128::from(source_factor.unsigned_abs());
    let size = u64::try_from(size).ok()?;
    Some(size / denominator.unsigned_abs())
}

/// Substitutes the variable of a column in a row, by its solved row. The answer is a bound on the new sizes, none where a division isn't
/// exact; the sizes bound the rows.
#[inline(always)]
pub(crate) fn substitute_column(
    row: &mut [i64],
    row_size: u64,
    column: usize,
    source: &[i64],
    source_size: u64,
    pivot_size: i64,
    divisor: Divisor,
) -> Option<u64>
    requires column { column < length row.old }
    requires same_width { length row.old ≡ length source.now }
    requires row_small { IsWithin (size_limit - 1) row.old }
    requires source_small { IsWithin (size_limit - 1) source.now }
    requires row_within { IsWithin row_size row.old }
    requires source_within { IsWithin source_size source.now }
    requires pivot_size_small { nat_abs pivot_size < size_limit }
    ensures numbers { IsSome result → IsSubstituted divisor.number pivot_size (number_at row.old column) (slice_set row.old column (pos 0)) source.now row.new }
    ensures within { IfSome result (λ b. IsWithin b row.new) }
{
    let factor = row[column];
    row[column] = 0;
    if !substitute(
        row,
        source,
        pivot_size,
        factor,
        divisor,
        row_size,
        source_size,
    ) {
        return None;
    }
    match substituted_size(row_size, pivot_size, source_size, factor, divisor.number()) {
        Some(size) => Some(size),
        None => Some(greatest_size(row)),
    }
}

/// Solves a row of this denominator for the variable of a column.
#[inline(always)]
fn solve_column(row: &mut [i64], column: usize, denominator: i64)
    requires column { column < length row.old }
    requires row_small { IsWithin (size_limit - 1) row.old }
    requires denominator_positive { pos 0 <ℤ denominator }
    requires denominator_small { nat_abs denominator < size_limit }
    ensures { IsSolvedFor (number_at row.old column) column (nat_abs denominator) row.old row.new }
{
    let pivot = row[column];
    row[column] = -denominator;
    if pivot >= 0 {
        negate(row);
    }
}

impl IntegerRow {
    /// The row of these numerators.
    pub(crate) fn make(numerators: Vec<i64>) -> IntegerRow
        ensures { result ≡ numerators.items }
    {
        let size = greatest_size(&numerators);
        IntegerRow { numerators, size }
    }

    /// A row without numerators.
    pub(crate) fn empty(alloc: Global) -> IntegerRow
        ensures { result ≡ [] }
    {
        IntegerRow::make(Vec::new(alloc))
    }

    /// The numerators.
    pub(crate) fn numerators(&self) -> &[i64]
        ensures { result.now ≡ self.now }
    {
        &self.numerators
    }

    /// The numerator in a column, 0 past the end.
    #[inline(always)]
    pub(crate) fn numerator(&self, column: usize) -> i64
        ensures { result ≡ number_at self.now column }
    {
        if column < self.numerators.len() {
            self.numerators[column]
        } else {
            0
        }
    }

    /// Where its memory comes from.
    pub(crate) fn allocator(&self) -> Global {
        *self.numerators.allocator()
    }

    /// How many columns there are.
    #[inline(always)]
    pub(crate) fn width(&self) -> usize
        ensures { result ≡ length self.now }
    {
        self.numerators.len()
    }

    /// A bound on the sizes.
    #[inline(always)]
    pub(crate) fn bound(&self) -> u64
        ensures { IsWithin result self.now }
    {
        self.size
    }

    /// Makes the bound on the sizes the greatest of them.
    pub(crate) fn look(&mut self)
        ensures { self.new ≡ self.old }
    {
        self.size = greatest_size(&self.numerators);
    }

    /// Takes all numerators out of the row.
    pub(crate) fn clear(&mut self)
        ensures { self.new ≡ [] }
    {
        self.numerators.clear();
        self.size = 0;
    }

    /// Puts these numerators in the place of the row's own. The one error is want of memory, after which there are none.
    pub(crate) fn put(&mut self, numerators: &[i64]) -> Result<(), AllocError>
        ensures { OnOk result (self.new ≡ numerators.now) }
    {
        self.clear();
        self.numerators.extend_from_slice(numerators)?;
        self.size = greatest_size(&self.numerators);
        Ok(())
    }

    /// Puts so many zeros into the row. The one error is want of memory, after which there are none.
    fn fill(&mut self, width: usize) -> Result<(), AllocError>
        ensures { OnOk result (self.new ≡ replicate width (pos 0)) }
    {
        self.clear();
        self.numerators.resize(width, 0)
    }

    /// Makes the row the combination of the columns by coefficients, whose numbers are known to be small; false where memory is wanting, a
    /// column's row hasn't as many numbers, or they aren't small.
    pub(crate) fn combine_small(
        &mut self,
        coefficients: &ProgramRow,
        positions: &[Position],
        rows: &[IntegerRow],
        denominator: i64,
    ) -> bool
        requires rows_there { length rows.now ≡ length coefficients.now }
        requires positions_there { length coefficients.now ≤ length positions.now }
        requires positive { pos 0 <ℤ denominator }
        requires small { IsWithin (size_limit - 1) (combined_row (nat_abs denominator) positions.now rows.now coefficients.now) }
        ensures { IsTrue result → self.new ≡ combined_row (nat_abs denominator) positions.now rows.now coefficients.now }
    {
        if self.fill(rows.len()).is_err() {
            return false;
        }
        let is_full = low_sums::add_columns(
            &mut self.numerators,
            coefficients,
            positions,
            rows,
            denominator,
        );
        self.size = greatest_size(&self.numerators);
        is_full && self.is_small()
    }

    /// The same of a dictionary that is kept, by the coefficients of all columns.
    pub(crate) fn combine_kept(
        &mut self,
        coefficients: &[i64],
        nonbasic: &[usize],
        basic_columns: &[usize],
        rows: &[i64],
        denominator: i64,
    ) -> bool
        requires rows_there { length rows.now ≡ length basic_columns.now * length nonbasic.now }
        requires columns_there { (p : ℕ) → p < length basic_columns.now → slice_index_or basic_columns.now p 0 < length coefficients.now }
        ensures { IsTrue result → (positions : List Position) → AreNonbasic positions nonbasic.now → length coefficients.now ≤ length positions → basic_columns.now ≡ basic_from 0 (length coefficients.now) positions → length coefficients.now ≡ length nonbasic.now
            → IsWithin (size_limit - 1) (combined_row (nat_abs denominator) positions (rows_by (length nonbasic.now) basic_columns.now rows.now) coefficients.now) → pos 0 <ℤ denominator
            → self.new ≡ combined_row (nat_abs denominator) positions (rows_by (length nonbasic.now) basic_columns.now rows.now) coefficients.now }
    {
        if self.fill(nonbasic.len()).is_err() {
            return false;
        }
        low_sums::put_nonbasic(&mut self.numerators, coefficients, nonbasic, denominator);
        low_sums::add_basic(&mut self.numerators, coefficients, basic_columns, rows);
        self.size = greatest_size(&self.numerators);
        self.is_small()
    }

    /// Whether each number is below `SIZE_LIMIT` in size.
    pub(crate) fn is_within(&self) -> bool
        ensures { IsTrue result → IsWithin (size_limit - 1) self.now }
    {
        self.size < SIZE_LIMIT || greatest_size(&self.numerators) < SIZE_LIMIT
    }

    /// Whether each number is below `SIZE_LIMIT` in size: by the bound or, where that is larger, by a look at each.
    #[inline(always)]
    fn is_small(&mut self) -> bool
        ensures same { self.new ≡ self.old }
        ensures small { IsTrue result → IsWithin (size_limit - 1) self.new }
    {
        if self.size >= SIZE_LIMIT {
            self.size = greatest_size(&self.numerators);
        }
        self.size < SIZE_LIMIT
    }

    /// Substitutes the variable of a column, by its solved row; false where that isn't exact or small.
    pub(crate) fn substitute(
        &mut self,
        column: usize,
        source: &IntegerRow,
        pivot_size: i64,
        divisor: Divisor,
    ) -> bool
        requires column { column < length self.old }
        requires same_width { length self.old ≡ length source.now }
        requires source_small { IsWithin (size_limit - 1) source.now }
        requires pivot_size_small { nat_abs pivot_size < size_limit }
        ensures { IsTrue result → IsSubstitutedRow divisor.number pivot_size column source.now self.old self.new }
    {
        if !self.is_small() {
            return false;
        }
        if self.numerators[column] == 0 && pivot_size == divisor.number() {
            return true;
        }
        match substitute_column(
            &mut self.numerators,
            self.size,
            column,
            &source.numerators,
            source.size,
            pivot_size,
            divisor,
        ) {
            Some(size) => {
                self.size = size;
                self.is_small()
            }
            None => {
                self.numerators.clear();
                self.size = 0;
                false
            }
        }
    }

    /// The same where the row has the source's width; another row stays.
    pub(crate) fn substitute_if_full(
        &mut self,
        column: usize,
        source: &IntegerRow,
        pivot_size: i64,
        divisor: Divisor,
    ) -> bool
        requires column { column < length source.now }
        requires source_small { IsWithin (size_limit - 1) source.now }
        requires pivot_size_small { nat_abs pivot_size < size_limit }
        ensures { IsTrue result → IsSubstitutedIfFull divisor.number pivot_size column source.now self.old self.new }
    {
        if self.width() == source.width() {
            self.substitute(column, source, pivot_size, divisor)
        } else {
            true
        }
    }

    /// Solves the row, of this denominator, for the variable of a column; false where that isn't small.
    pub(crate) fn solve(&mut self, column: usize, denominator: i64) -> bool
        requires column { column < length self.old }
        requires denominator_positive { pos 0 <ℤ denominator }
        requires denominator_small { nat_abs denominator < size_limit }
        ensures { IsTrue result → IsSolvedRow column (nat_abs denominator) self.old self.new }
    {
        if !self.is_small() {
            return false;
        }
        solve_column(&mut self.numerators, column, denominator);
        self.size = self.size.max(denominator.unsigned_abs());
        self.is_small()
    }
}
