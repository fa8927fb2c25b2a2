// Combinations of columns: what a row of the linear program says of its variable.

ghost use Rattle.std.specs.Prelude.{◌≡◌, ℕ, ◌+◌, ◌*◌, ◌-◌, ◌<◌, ◌≤◌, ◌^◌, [], pos, nat_abs, ◌+ℤ◌, ◌*ℤ◌, ◌<ℤ◌, length, IfOk, IsTrue, slice_index_or};
ghost use Rattle.integer_tableau.specs.Numbers.{number_at, IsWithin, total_size};
ghost use Rattle.integer_tableau.specs.Range.{size_limit};
ghost use Rattle.integer_tableau.specs.Combined.{numerator_of, combined, value_numerator, value_numerators, combined_value};
ghost use Rattle.integer_tableau.specs.Positions.{products};

use crate::integer_row::IntegerRow;
use crate::position::Position;
use crate::program_row::ProgramRow;
use crate::wide_numbers::product;
use std::alloc::{AllocError, Global};

// ---- values

/// The numerator of a column's value over the denominator.
#[inline(always)]
pub(crate) fn column_value(
    position: Position,
    nonbasic_value: i64,
    value: i64,
    denominator: i64,
) -> i64
    requires { nat_abs nonbasic_value * nat_abs denominator < 2 ^ 63 }
    ensures { result ≡ value_numerator denominator position nonbasic_value value }
{
    match position {
        Position::InBasis => value,
        Position::InColumn(_) => nonbasic_value * denominator,
    }
}

/// A coefficient times the numerator of a column's value.
#[inline(always)]
fn value_term(
    coefficient: i64,
    position: Position,
    nonbasic_value: i64,
    value: i64,
    denominator: i64,
) -> i128
    requires { nat_abs nonbasic_value * nat_abs denominator < 2 ^ 63 }
    ensures { result ≡ coefficient *ℤ value_numerator denominator position nonbasic_value value }
{
    product(
        coefficient,
        column_value(position, nonbasic_value, value, denominator),
    )
}

/// The numerators of the columns' values over the denominator. The one error is want of memory.
pub(crate) fn column_numerators(
    alloc: Global,
    positions: &[Position],
    nonbasic_values: &[i64],
    values: &[i64],
    denominator: i64,
) -> Result<Vec<i64>, AllocError>
    requires positions_there { length values.now ≤ length positions.now }
    requires nonbasic_values_there { length values.now ≤ length nonbasic_values.now }
    requires near { (j : ℕ) → j < length values.now → nat_abs (number_at nonbasic_values.now j) * nat_abs denominator < 2 ^ 63 }
    ensures value { IfOk result (λ v. v.items ≡ value_numerators denominator positions.now nonbasic_values.now values.now) }
    ensures count { IfOk result (λ v. length v.items ≡ length values.now) }
{
    let mut all = Vec::with_capacity(alloc, values.len())?;
    for (j, value) in values.iter().enumerate() {
        all.push(column_value(positions[j], nonbasic_values[j], *value, denominator))?;
    }
    Ok(all)
}

/// The sum of the products of a row's coefficients and as many numbers.
pub(crate) fn sum_of_products(coefficients: &ProgramRow, numbers: &[i64]) -> i128
    requires width { length numbers.now ≡ length coefficients.now }
    requires light { total_size coefficients.now < size_limit }
    ensures { result ≡ products coefficients.now numbers.now }
{
    let entries = coefficients.entries();
    let mut total = 0;
    for entry in entries {
        total += product(entry.number, numbers[entry.place]);
    }
    total
}

/// The same where no sum on the way has more than 63 bits.
pub(crate) fn narrow_sum_of_products(coefficients: &ProgramRow, numbers: &[i64]) -> i64
    requires width { length numbers.now ≡ length coefficients.now }
    requires small { (size : ℕ) × IsWithin size numbers.now × (total_size coefficients.now * size < 2 ^ 63) }
    ensures { result ≡ products coefficients.now numbers.now }
{
    let entries = coefficients.entries();
    let mut total = 0;
    for entry in entries {
        total += entry.number * numbers[entry.place];
    }
    total
}

/// The numerator of the value of a row's variable.
pub(crate) fn combined_value(
    coefficients: &ProgramRow,
    positions: &[Position],
    nonbasic_values: &[i64],
    values: &[i64],
    denominator: i64,
) -> i128
    requires values_there { length values.now ≡ length coefficients.now }
    requires positions_there { length coefficients.now ≤ length positions.now }
    requires nonbasic_values_there { length coefficients.now ≤ length nonbasic_values.now }
    requires light { total_size coefficients.now < size_limit }
    requires near { (j : ℕ) → j < length coefficients.now → nat_abs (number_at nonbasic_values.now j) * nat_abs denominator < 2 ^ 63 }
    ensures { result ≡ combined_value denominator coefficients.now positions.now nonbasic_values.now values.now }
{
    let entries = coefficients.entries();
    let mut total = 0;
    for entry in entries {
        let j = entry.place;
        total += value_term(
            entry.number,
            positions[j],
            nonbasic_values[j],
            values[j],
            denominator,
        );
    }
    total
}

// ---- rows

/// Adds a multiple of a row to sums.
fn add_multiple(sums: &mut [i128], row: &[i64], factor: i64)
    requires width { length row.now ≡ length sums.old }
    requires row_small { IsWithin (size_limit - 1) row.now }
    requires room { (k : ℕ) → nat_abs (number_at sums.old k) + size_limit * nat_abs factor < 2 ^ 126 }
    ensures { (k : ℕ) → number_at sums.new k ≡ number_at sums.old k +ℤ factor *ℤ number_at row.now k }
{
    for (k, number) in sums.iter_mut().enumerate() {
        *number += product(factor, row[k]);
    }
}

/// Adds a product to the sum of a column.
fn add_product(sums: &mut [i128], column: usize, factor: i64, denominator: i64)
    requires there { column < length sums.old }
    requires positive { pos 0 <ℤ denominator }
    requires small { nat_abs denominator < size_limit }
    requires room { nat_abs (number_at sums.old column) + size_limit * nat_abs factor < 2 ^ 126 }
    ensures { (k : ℕ) → number_at sums.new k ≡ number_at sums.old k +ℤ factor *ℤ numerator_of (nat_abs denominator) [] (Position.InColumn column) k }
{
    sums[column] += product(factor, denominator);
}

/// Adds what a column says, times its coefficient, to the sums; false where the row hasn't as many numbers.
fn add_column(
    sums: &mut [i128],
    coefficient: i64,
    position: Position,
    row: &IntegerRow,
    denominator: i64,
) -> bool
    requires positive { pos 0 <ℤ denominator }
    requires small { nat_abs denominator < size_limit }
    requires row_small { IsWithin (size_limit - 1) row.now }
    requires room { (k : ℕ) → nat_abs (number_at sums.old k) + size_limit * nat_abs coefficient < 2 ^ 126 }
    ensures { IsTrue result → (k : ℕ) → number_at sums.new k ≡ number_at sums.old k +ℤ coefficient *ℤ numerator_of (nat_abs denominator) row.now position k }
{
    match position {
        Position::InBasis => {
            if row.width() != sums.len() {
                return false;
            }
            add_multiple(sums, row.numerators(), coefficient);
        }
        Position::InColumn(column) => {
            if column >= sums.len() {
                return false;
            }
            add_product(sums, column, coefficient, denominator);
        }
    }
    true
}

/// Adds up what the columns say, each times its coefficient; false where a row hasn't as many numbers. No sum on the way has more than 127
/// bits: these are often larger than the whole ones.
pub(crate) fn add_columns(
    sums: &mut [i128],
    coefficients: &ProgramRow,
    positions: &[Position],
    rows: &[IntegerRow],
    denominator: i64,
) -> bool
    requires zero { (k : ℕ) → number_at sums.old k ≡ pos 0 }
    requires rows_there { length rows.now ≡ length coefficients.now }
    requires positions_there { length coefficients.now ≤ length positions.now }
    requires positive { pos 0 <ℤ denominator }
    requires small { nat_abs denominator < size_limit }
    requires light { total_size coefficients.now < size_limit }
    requires rows_small { (j : ℕ) → j < length rows.now → IsWithin (size_limit - 1) (slice_index_or rows.now j []) }
    ensures { IsTrue result → (k : ℕ) → number_at sums.new k ≡ combined (nat_abs denominator) coefficients.now positions.now rows.now k }
{
    let entries = coefficients.entries();
    for entry in entries {
        let j = entry.place;
        if !add_column(sums, entry.number, positions[j], &rows[j], denominator) {
            return false;
        }
    }
    true
}
