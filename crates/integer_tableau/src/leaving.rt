// The leaving variable.

ghost use Rattle.std.specs.Prelude.{◌≡◌, ℕ, ◌+◌, ◌*◌, ◌<◌, ◌≤◌, ◌^◌, [], map, drop, pos, nat_abs, ◌<ℤ◌, length, IfOk, IfSome, IsTrue, slice_index_or};
ghost use Rattle.integer_tableau.specs.Numbers.{number_at, IsWithin, total_size};
ghost use Rattle.integer_tableau.specs.Range.{size_limit};
ghost use Rattle.integer_tableau.specs.BasicColumns.{basic_from};
ghost use Rattle.integer_tableau.specs.Combined.{combined_value, expanded_values};
ghost use Rattle.integer_tableau.specs.Positions.{products};
ghost use Rattle.integer_tableau.specs.Leaving.{violation_at, leaving_by_numerators};

use crate::combination::{column_numerators, narrow_sum_of_products, sum_of_products};
use crate::integer_bounds::IntegerBounds;
use crate::integer_row::greatest_size;
use crate::position::Position;
use crate::program_row::ProgramRow;
use std::alloc::{AllocError, Global};
use tableau::Direction;

/// The least basic column outside its bounds, if there is one, and the direction in which it has to go.
pub(crate) fn leaving_column(
    positions: &[Position],
    bounds: &[IntegerBounds],
    values: &[i64],
    basic_columns: &[usize],
    denominator: i64,
) -> Option<(usize, Direction)>
    requires positions_there { length values.now ≤ length positions.now }
    requires bounds_there { length values.now ≤ length bounds.now }
    requires basic { basic_columns.now ≡ basic_from 0 (length values.now) positions.now }
    requires positive { pos 0 <ℤ denominator }
    ensures value { result ≡ leaving_by_numerators (nat_abs denominator) 0 positions.now bounds.now values.now }
    ensures within { IfSome result (λ l. l.0 < length values.now) }
{
    for column in basic_columns {
        let j = *column;
        if let Some(direction) = bounds[j].violation(i128::from(values[j]), denominator) {
            return Some((j, direction));
        }
    }
    None
}

/// Whether a row's sizes, times this size, come to less than 64 bits.
#[inline(always)]
fn is_narrow(coefficients: &ProgramRow, size: u64) -> bool
    ensures { IsTrue result → total_size coefficients.now * size < 2 ^ 63 }
{
    match coefficients.weight() {
        Some(weight) => u128::from(weight) * u128::from(size) < 1 << 63,
        None => false,
    }
}

/// The numerator of the value of a row's variable, by those of the columns' values, which have at most this size.
#[inline(always)]
fn row_value(coefficients: &ProgramRow, numerators: &[i64], size: u64) -> i128
    requires width { length numerators.now ≡ length coefficients.now }
    requires within { IsWithin size numerators.now }
    requires light { total_size coefficients.now < size_limit }
    ensures { result ≡ products coefficients.now numerators.now }
{
    if is_narrow(coefficients, size) {
        i128::from(narrow_sum_of_products(coefficients, numerators))
    } else {
        sum_of_products(coefficients, numerators)
    }
}

/// In which direction the variable of a row has to go, if it is basic and outside its bounds.
fn row_violation(
    position: Position,
    bounds: &IntegerBounds,
    coefficients: &ProgramRow,
    numerators: &[i64],
    size: u64,
    denominator: i64,
) -> Option<Direction>
    requires width { length numerators.now ≡ length coefficients.now }
    requires within { IsWithin size numerators.now }
    requires light { total_size coefficients.now < size_limit }
    requires positive { pos 0 <ℤ denominator }
    ensures { result ≡ violation_at (nat_abs denominator) position bounds.now (products coefficients.now numerators.now) }
{
    match position {
        Position::InBasis => {
            bounds.violation(row_value(coefficients, numerators, size), denominator)
        }
        Position::InColumn(_) => None,
    }
}

/// The same for the variables of rows, by the numerators of the columns' values, which have at most this size.
fn leaving_row(
    program_rows: &[ProgramRow],
    positions: &[Position],
    bounds: &[IntegerBounds],
    numerators: &[i64],
    size: u64,
    denominator: i64,
) -> Option<(usize, Direction)>
    requires positions_there { length positions.now ≡ length numerators.now + length program_rows.now }
    requires bounds_there { length bounds.now ≡ length positions.now }
    requires within { IsWithin size numerators.now }
    requires full { (i : ℕ) → i < length program_rows.now → length (slice_index_or program_rows.now i []) ≡ length numerators.now }
    requires light { (i : ℕ) → i < length program_rows.now → total_size (slice_index_or program_rows.now i []) < size_limit }
    requires positive { pos 0 <ℤ denominator }
    ensures value { result ≡ leaving_by_numerators (nat_abs denominator) (length numerators.now) (drop (length numerators.now) positions.now) (drop (length numerators.now) bounds.now) (map (λ a. products a numerators.now) program_rows.now) }
    ensures within { IfSome result (λ l. l.0 < length positions.now) }
{
    let columns = numerators.len();
    for (i, coefficients) in program_rows.iter().enumerate() {
        let variable = columns + i;
        if let Some(direction) = row_violation(
            positions[variable],
            &bounds[variable],
            coefficients,
            numerators,
            size,
            denominator,
        ) {
            return Some((variable, direction));
        }
    }
    None
}

/// The least basic variable outside its bounds, if there is one, and the direction in which it has to go. The one error is want of memory.
pub(crate) fn leaving(
    alloc: Global,
    program_rows: &[ProgramRow],
    positions: &[Position],
    bounds: &[IntegerBounds],
    nonbasic_values: &[i64],
    values: &[i64],
    basic_columns: &[usize],
    denominator: i64,
) -> Result<Option<(usize, Direction)>, AllocError>
    requires positions_there { length positions.now ≡ length values.now + length program_rows.now }
    requires bounds_there { length bounds.now ≡ length positions.now }
    requires nonbasic_values_there { length nonbasic_values.now ≡ length positions.now }
    requires full { (i : ℕ) → i < length program_rows.now → length (slice_index_or program_rows.now i []) ≡ length values.now }
    requires light { (i : ℕ) → i < length program_rows.now → total_size (slice_index_or program_rows.now i []) < size_limit }
    requires near { (j : ℕ) → j < length values.now → nat_abs (number_at nonbasic_values.now j) * nat_abs denominator < 2 ^ 63 }
    requires basic { basic_columns.now ≡ basic_from 0 (length values.now) positions.now }
    requires positive { pos 0 <ℤ denominator }
    ensures value { IfOk result (λ l. l ≡ leaving_by_numerators (nat_abs denominator) 0 positions.now bounds.now (expanded_values (nat_abs denominator) program_rows.now positions.now nonbasic_values.now values.now)) }
    ensures within { IfOk result (λ o. IfSome o (λ l. l.0 < length positions.now)) }
{
    match leaving_column(positions, bounds, values, basic_columns, denominator) {
        Some(found) => Ok(Some(found)),
        None => {
            let numerators = column_numerators(
                alloc,
                positions,
                nonbasic_values,
                values,
                denominator,
            )?;
            let size = greatest_size(&numerators);
            Ok(leaving_row(
                program_rows,
                positions,
                bounds,
                &numerators,
                size,
                denominator,
            ))
        }
    }
}
