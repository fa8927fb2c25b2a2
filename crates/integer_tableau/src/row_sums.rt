// The values of rows by sums over the nonbasic columns, which are kept: only the basic columns have to be summed up anew.

ghost use Rattle.std.specs.Prelude.{◌≡◌, ◌<◌, ◌≤◌, ◌+◌, ◌*◌, ◌^◌, ℕ, ℤ, List, [], pos, nat_abs, ◌+ℤ◌, ◌*ℤ◌, ◌<ℤ◌, length, slice_index_or, slice_set, IfOk, IfSome, IsTrue, None};
ghost use Rattle.std.specs.Int.{w64, int_wrap};
ghost use Rattle.integer_tableau.specs.BasicColumns.{basic_from};
ghost use Rattle.integer_tableau.specs.Combined.{combined_value, expanded_values};
ghost use Rattle.integer_tableau.specs.Leaving.{leaving_by_numerators, violation_at};
ghost use Rattle.integer_tableau.specs.Numbers.{number_at, total_size};
ghost use Rattle.integer_tableau.specs.Range.{size_limit};
ghost use Rattle.integer_tableau.specs.RowSums.{AreColumnsOf, AreRowSums, AreSummed, IsNarrow, basic_products};

use crate::coefficient_columns::CoefficientColumns;
use crate::integer_bounds::IntegerBounds;
use crate::leaving::{leaving, leaving_column};
use crate::low_sums::{add_multiple, multiple_sum};
use crate::pivot::value_of;
use crate::position::Position;
use crate::program_row::ProgramRow;
use std::alloc::{AllocError, Global};
use tableau::Direction;

// ---- values

/// The numerator of a row's value modulo 2^64, by the sum over the nonbasic columns.
#[inline(always)]
fn row_value(
    columns: &CoefficientColumns,
    row: usize,
    sum: i64,
    denominator: i64,
    basic_columns: &[usize],
    values: &[i64],
) -> i64
    requires columns { (ps : List (List ℤ)) × AreColumnsOf ps columns.now }
    requires there { row < columns.now.rows }
    requires values_there { length values.now ≡ columns.now.width }
    requires basic_there { (p : ℕ) → p < length basic_columns.now → slice_index_or basic_columns.now p 0 < length values.now }
    ensures { (ps : List (List ℤ)) → AreColumnsOf ps columns.now → int_wrap w64 result ≡ int_wrap w64 (denominator *ℤ sum +ℤ basic_products (slice_index_or ps row []) values.now basic_columns.now) }
{
    let mut value = multiple_sum(0, denominator, sum);
    for column in basic_columns {
        let j = *column;
        value = multiple_sum(value, columns.numbers[j * columns.rows + row], values[j]);
    }
    value
}

/// The greatest size of these columns' values.
fn greatest_size(basic_columns: &[usize], values: &[i64]) -> u64
    requires { (p : ℕ) → p < length basic_columns.now → slice_index_or basic_columns.now p 0 < length values.now }
    ensures { (p : ℕ) → p < length basic_columns.now → nat_abs (number_at values.now (slice_index_or basic_columns.now p 0)) ≤ result }
{
    let mut size = 0;
    for column in basic_columns {
        size = size.max(values[*column].unsigned_abs());
    }
    size
}

/// Whether rows of this weight have values of 64 bits, where no nonbasic column has a greater value than `reach`.
fn is_narrow(
    weight: u64,
    reach: u64,
    denominator: i64,
    basic_columns: &[usize],
    values: &[i64],
) -> bool
    requires { (p : ℕ) → p < length basic_columns.now → slice_index_or basic_columns.now p 0 < length values.now }
    ensures { IsTrue result → IsNarrow weight reach denominator basic_columns.now values.now }
{
    let nonbasic = u128::from(reach) * u128::from(denominator.unsigned_abs());
    let basic = u128::from(greatest_size(basic_columns, values));
    let size = nonbasic.max(basic);
    size < 1 << 63 && u128::from(weight) * size < 1 << 63
}

// ---- the leaving row

/// In which direction the variable of a row has to go, if it is basic and outside its bounds, by the sum over the nonbasic columns.
#[inline(always)]
fn sum_violation(
    columns: &CoefficientColumns,
    row: usize,
    sum: i64,
    positions: &[Position],
    bounds: &[IntegerBounds],
    values: &[i64],
    basic_columns: &[usize],
    denominator: i64,
) -> Option<Direction>
    requires columns { (ps : List (List ℤ)) × AreColumnsOf ps columns.now }
    requires there { row < columns.now.rows }
    requires values_there { length values.now ≡ columns.now.width }
    requires positions_there { length positions.now ≡ length values.now + columns.now.rows }
    requires bounds_there { length bounds.now ≡ length positions.now }
    requires basic { basic_columns.now ≡ basic_from 0 (length values.now) positions.now }
    requires positive { pos 0 <ℤ denominator }
    ensures { (ps : List (List ℤ)) (reach : ℕ) (xs sums : List ℤ) → AreColumnsOf ps columns.now → AreSummed ps columns.now.weight reach positions.now xs sums values.now basic_columns.now denominator → sum ≡ number_at sums row → row < length sums → result ≡ violation_at (nat_abs denominator) (slice_index_or positions.now (length values.now + row) Position.InBasis) (slice_index_or bounds.now (length values.now + row) (record { lower = None; upper = None })) (combined_value (pos (nat_abs denominator)) (slice_index_or ps row []) positions.now xs values.now) }
{
    let variable = values.len() + row;
    match positions[variable] {
        Position::InBasis => {
            let value = row_value(columns, row, sum, denominator, basic_columns, values);
            bounds[variable].violation(i128::from(value), denominator)
        }
        Position::InColumn(_) => None,
    }
}

/// The least basic variable of a row outside its bounds, if there is one, and the direction in which it has to go, by the sums over the nonbasic columns. It
/// is the one that leaves where no column does.
fn leaving_by_sums(
    columns: &CoefficientColumns,
    positions: &[Position],
    bounds: &[IntegerBounds],
    row_sums: &[i64],
    values: &[i64],
    basic_columns: &[usize],
    denominator: i64,
) -> Option<(usize, Direction)>
    requires columns { (ps : List (List ℤ)) × AreColumnsOf ps columns.now }
    requires sums_there { length row_sums.now ≡ columns.now.rows }
    requires values_there { length values.now ≡ columns.now.width }
    requires positions_there { length positions.now ≡ length values.now + columns.now.rows }
    requires bounds_there { length bounds.now ≡ length positions.now }
    requires basic { basic_columns.now ≡ basic_from 0 (length values.now) positions.now }
    requires positive { pos 0 <ℤ denominator }
    ensures value { (ps : List (List ℤ)) (reach : ℕ) (xs : List ℤ) → AreColumnsOf ps columns.now → AreSummed ps columns.now.weight reach positions.now xs row_sums.now values.now basic_columns.now denominator → leaving_by_numerators (nat_abs denominator) 0 positions.now bounds.now values.now ≡ None → result ≡ leaving_by_numerators (nat_abs denominator) 0 positions.now bounds.now (expanded_values (nat_abs denominator) ps positions.now xs values.now) }
    ensures within { IfSome result (λ l. l.0 < length positions.now) }
{
    for (row, sum) in row_sums.iter().enumerate() {
        if let Some(direction) = sum_violation(
            columns,
            row,
            *sum,
            positions,
            bounds,
            values,
            basic_columns,
            denominator,
        ) {
            return Some((values.len() + row, direction));
        }
    }
    None
}

/// Whether the sums are those of all rows, and the numbers small enough for them.
fn are_of_use(
    columns: &CoefficientColumns,
    row_sums: &[i64],
    reach: u64,
    values: &[i64],
    basic_columns: &[usize],
    denominator: i64,
) -> bool
    requires { (p : ℕ) → p < length basic_columns.now → slice_index_or basic_columns.now p 0 < length values.now }
    ensures sums { IsTrue result → length row_sums.now ≡ columns.now.rows }
    ensures values { IsTrue result → length values.now ≡ columns.now.width }
    ensures narrow { IsTrue result → IsNarrow columns.now.weight reach denominator basic_columns.now values.now }
{
    row_sums.len() == columns.rows
        && values.len() == columns.width
        && is_narrow(columns.weight, reach, denominator, basic_columns, values)
}

/// The least basic variable outside its bounds, if there is one, and the direction in which it has to go: as `leaving` has it, but by the sums of rows where
/// they are kept and the numbers are small. The one error is want of memory.
pub(crate) fn leaving_with_sums(
    alloc: Global,
    columns: &Option<CoefficientColumns>,
    row_sums: &[i64],
    reach: u64,
    program_rows: &[ProgramRow],
    positions: &[Position],
    bounds: &[IntegerBounds],
    nonbasic_values: &[i64],
    values: &[i64],
    basic_columns: &[usize],
    denominator: i64,
) -> Result<Option<(usize, Direction)>, AllocError>
    requires columns { IfSome columns.now (AreColumnsOf program_rows.now) }
    requires sums { AreRowSums program_rows.now positions.now nonbasic_values.now row_sums.now }
    requires bounded { (j : ℕ) → j < length values.now → nat_abs (number_at nonbasic_values.now j) ≤ reach }
    requires positions_there { length positions.now ≡ length values.now + length program_rows.now }
    requires bounds_there { length bounds.now ≡ length positions.now }
    requires nonbasic_values_there { length nonbasic_values.now ≡ length positions.now }
    requires full { (i : ℕ) → i < length program_rows.now → length (slice_index_or program_rows.now i []) ≡ length values.now }
    requires light { (i : ℕ) → i < length program_rows.now → total_size (slice_index_or program_rows.now i []) < size_limit }
    requires near { (j : ℕ) → j < length values.now → nat_abs (number_at nonbasic_values.now j) * nat_abs denominator < 2 ^ 63 }
    requires basic { basic_columns.now ≡ basic_from 0 (length values.now) positions.now }
    requires positive { pos 0 <ℤ denominator }
    ensures value { IfOk result (λ l. l ≡ leaving_by_numerators (nat_abs denominator) 0 positions.now bounds.now (expanded_values (nat_abs denominator) program_rows.now positions.now nonbasic_values.now values.now)) }
    ensures within { IfOk result (λ o. IfSome o (λ l. l.0 < length positions.now)) }
{
    if let Some(found) = leaving_column(positions, bounds, values, basic_columns, denominator) {
        return Ok(Some(found));
    }
    if let Some(columns) = columns {
        if are_of_use(columns, row_sums, reach, values, basic_columns, denominator) {
            return Ok(leaving_by_sums(
                columns,
                positions,
                bounds,
                row_sums,
                values,
                basic_columns,
                denominator,
            ));
        }
    }
    leaving(
        alloc,
        program_rows,
        positions,
        bounds,
        nonbasic_values,
        values,
        basic_columns,
        denominator,
    )
}

/// The numerator of a variable's value: as `value_of` has it, but for a row by its sum where the sums are kept and the numbers are small.
#[inline(always)]
pub(crate) fn value_with_sums(
    columns: &Option<CoefficientColumns>,
    row_sums: &[i64],
    reach: u64,
    variable: usize,
    program_rows: &[ProgramRow],
    positions: &[Position],
    nonbasic_values: &[i64],
    values: &[i64],
    basic_columns: &[usize],
    denominator: i64,
) -> i128
    requires columns { IfSome columns.now (AreColumnsOf program_rows.now) }
    requires sums { AreRowSums program_rows.now positions.now nonbasic_values.now row_sums.now }
    requires bounded { (j : ℕ) → j < length values.now → nat_abs (number_at nonbasic_values.now j) ≤ reach }
    requires positions_there { length positions.now ≡ length values.now + length program_rows.now }
    requires nonbasic_values_there { length nonbasic_values.now ≡ length positions.now }
    requires variable_there { variable < length positions.now }
    requires full { (i : ℕ) → i < length program_rows.now → length (slice_index_or program_rows.now i []) ≡ length values.now }
    requires light { (i : ℕ) → i < length program_rows.now → total_size (slice_index_or program_rows.now i []) < size_limit }
    requires near { (j : ℕ) → j < length values.now → nat_abs (number_at nonbasic_values.now j) * nat_abs denominator < 2 ^ 63 }
    requires basic { basic_columns.now ≡ basic_from 0 (length values.now) positions.now }
    requires positive { pos 0 <ℤ denominator }
    ensures { result ≡ number_at (expanded_values (nat_abs denominator) program_rows.now positions.now nonbasic_values.now values.now) variable }
{
    if variable < values.len() {
        return i128::from(values[variable]);
    }
    if let Some(columns) = columns {
        if are_of_use(columns, row_sums, reach, values, basic_columns, denominator) {
            let row = variable - values.len();
            let sum = row_sums[row];
            let value = row_value(columns, row, sum, denominator, basic_columns, values);
            return i128::from(value);
        }
    }
    value_of(
        variable,
        program_rows,
        positions,
        nonbasic_values,
        values,
        denominator,
    )
}

// ---- what changes the sums

/// Adds a column times a factor to the sums of rows; that of a row's variable is none.
pub(crate) fn add_column(
    row_sums: &mut [i64],
    columns: &CoefficientColumns,
    column: usize,
    factor: i64,
)
    requires columns { (ps : List (List ℤ)) × AreColumnsOf ps columns.now }
    requires sums_there { length row_sums.old ≡ columns.now.rows }
    ensures { (ps : List (List ℤ)) → AreColumnsOf ps columns.now → (i : ℕ) → i < length row_sums.old → int_wrap w64 (number_at row_sums.new i) ≡ int_wrap w64 (number_at row_sums.old i +ℤ factor *ℤ number_at (slice_index_or ps i []) column) }
{
    if column < columns.width && factor != 0 {
        add_multiple(row_sums, columns.column(column), factor);
    }
}

/// Changes the sums of rows by a turn: the leaving variable goes to a bound, the entering one leaves the value that it had.
fn turn_sums(
    row_sums: &mut [i64],
    columns: &CoefficientColumns,
    leaving: usize,
    bound: i64,
    entering: usize,
    left: i64,
)
    requires columns { (ps : List (List ℤ)) × AreColumnsOf ps columns.now }
    requires sums_there { length row_sums.old ≡ columns.now.rows }
    ensures { (ps : List (List ℤ)) (positions : List Position) (xs : List ℤ) (k j : ℕ) → AreColumnsOf ps columns.now → AreRowSums ps positions xs row_sums.old → length xs ≡ length positions → leaving < length positions → entering < length positions → slice_index_or positions leaving Position.InBasis ≡ Position.InBasis → slice_index_or positions entering Position.InBasis ≡ Position.InColumn j → number_at xs entering ≡ left → AreRowSums ps (slice_set (slice_set positions leaving (Position.InColumn k)) entering Position.InBasis) (slice_set (slice_set xs leaving bound) entering (pos 0)) row_sums.new }
{
    add_column(row_sums, columns, leaving, bound);
    add_column(row_sums, columns, entering, left.wrapping_neg());
}

/// The same where the sums are kept. Without the columns none are, and sums that aren't those of all rows are dropped.
pub(crate) fn turn_kept_sums(
    row_sums: &mut Vec<i64>,
    columns: &Option<CoefficientColumns>,
    leaving: usize,
    bound: i64,
    entering: usize,
    left: i64,
)
    requires { (ps : List (List ℤ)) × IfSome columns.now (AreColumnsOf ps) }
    ensures { (ps : List (List ℤ)) (positions : List Position) (xs : List ℤ) (k j : ℕ) → IfSome columns.now (AreColumnsOf ps) → AreRowSums ps positions xs row_sums.old.items → length xs ≡ length positions → leaving < length positions → entering < length positions → slice_index_or positions leaving Position.InBasis ≡ Position.InBasis → slice_index_or positions entering Position.InBasis ≡ Position.InColumn j → number_at xs entering ≡ left → AreRowSums ps (slice_set (slice_set positions leaving (Position.InColumn k)) entering Position.InBasis) (slice_set (slice_set xs leaving bound) entering (pos 0)) row_sums.new.items }
{
    if let Some(columns) = columns {
        if row_sums.len() == columns.rows {
            turn_sums(row_sums, columns, leaving, bound, entering, left);
            return;
        }
    }
    row_sums.clear();
}
