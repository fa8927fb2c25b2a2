// The denominator of all numbers.

ghost use Rattle.std.specs.Prelude.{◌≡◌, ℕ, ◌+◌, ◌*◌, ◌<◌, ◌≤◌, ◌^◌, [], pos, nat_abs, ◌*ℤ◌, ◌<ℤ◌, length, IsTrue, IfSome, List, slice_index_or};
ghost use Rattle.integer_tableau.specs.Numbers.{number_at, total_size};
ghost use Rattle.integer_tableau.specs.Range.{size_limit};
ghost use Rattle.integer_tableau.specs.Combined.{IsCompact, expanded, value_numerator, combined_value};
ghost use Rattle.integer_tableau.specs.Denominator.{ArePartsOf, HasDenominator};
ghost use Rattle.integer_tableau.specs.IntegerTableau.{IntegerTableau as WholeTableau, tableau_of};

use crate::combination::{column_value, combined_value};
use crate::integer_row::IntegerRow;
use crate::integer_tableau::IntegerTableau;
use crate::position::Position;
use crate::program_row::ProgramRow;
use crate::range::SIZE_LIMIT;
use crate::wide_numbers::product;

/// The greatest size of the numerators of the columns' values.
fn greatest_numerator(
    positions: &[Position],
    nonbasic_values: &[i64],
    values: &[i64],
    denominator: i64,
) -> u64
    requires positions_there { length values.now ≤ length positions.now }
    requires nonbasic_values_there { length values.now ≤ length nonbasic_values.now }
    requires near { (j : ℕ) → j < length values.now → nat_abs (number_at nonbasic_values.now j) * nat_abs denominator < 2 ^ 63 }
    ensures { (j : ℕ) → j < length values.now → nat_abs (value_numerator denominator (slice_index_or positions.now j Position.InBasis) (number_at nonbasic_values.now j) (number_at values.now j)) ≤ result }
{
    let mut greatest = 0;
    for (j, value) in values.iter().enumerate() {
        let numerator = column_value(positions[j], nonbasic_values[j], *value, denominator);
        greatest = greatest.max(numerator.unsigned_abs());
    }
    greatest
}

/// Whether rows of this weight make the values of basic variables small, where no column's value has a greater numerator.
fn is_light(weight: u64, greatest: u64) -> bool
    ensures { IsTrue result → weight * greatest ≤ size_limit }
{
    u128::from(weight) * u128::from(greatest) <= u128::from(SIZE_LIMIT)
}

/// Whether the numerator of a nonbasic variable's value is at most `SIZE_LIMIT` in size; true of a basic one.
fn is_small_if_nonbasic(position: Position, nonbasic_value: i64, denominator: i64) -> bool
    ensures { IsTrue result → (k : ℕ) → position ≡ Position.InColumn k → nat_abs (nonbasic_value *ℤ denominator) ≤ size_limit }
{
    match position {
        Position::InBasis => true,
        Position::InColumn(_) => {
            product(nonbasic_value, denominator).unsigned_abs() <= u128::from(SIZE_LIMIT)
        }
    }
}

/// Whether this is so of each variable from `first` on.
fn are_nonbasic_small(
    first: usize,
    positions: &[Position],
    nonbasic_values: &[i64],
    denominator: i64,
) -> bool
    requires { length nonbasic_values.now ≡ length positions.now }
    ensures { IsTrue result → (v k : ℕ) → first ≤ v → v < length positions.now → slice_index_or positions.now v Position.InBasis ≡ Position.InColumn k → nat_abs (number_at nonbasic_values.now v *ℤ denominator) ≤ size_limit }
{
    for v in first..positions.len() {
        if !is_small_if_nonbasic(positions[v], nonbasic_values[v], denominator) {
            return false;
        }
    }
    true
}

/// The numerator of the value of a row's variable.
fn row_value(
    position: Position,
    nonbasic_value: i64,
    coefficients: &ProgramRow,
    positions: &[Position],
    nonbasic_values: &[i64],
    values: &[i64],
    denominator: i64,
) -> i128
    requires values_there { length values.now ≡ length coefficients.now }
    requires positions_there { length coefficients.now ≤ length positions.now }
    requires nonbasic_values_there { length coefficients.now ≤ length nonbasic_values.now }
    requires light { total_size coefficients.now < size_limit }
    requires near { (j : ℕ) → j < length coefficients.now → nat_abs (number_at nonbasic_values.now j) * nat_abs denominator < 2 ^ 63 }
    ensures { result ≡ value_numerator denominator position nonbasic_value (combined_value denominator coefficients.now positions.now nonbasic_values.now values.now) }
{
    match position {
        Position::InBasis => combined_value(
            coefficients,
            positions,
            nonbasic_values,
            values,
            denominator,
        ),
        Position::InColumn(_) => product(nonbasic_value, denominator),
    }
}

/// Whether the numerators of the values of the rows' variables are at most `SIZE_LIMIT` in size, by a look at each.
fn are_rows_small_by_look(
    program_rows: &[ProgramRow],
    positions: &[Position],
    nonbasic_values: &[i64],
    values: &[i64],
    denominator: i64,
) -> bool
    requires positions_there { length positions.now ≡ length values.now + length program_rows.now }
    requires nonbasic_values_there { length nonbasic_values.now ≡ length positions.now }
    requires full { (i : ℕ) → i < length program_rows.now → length (slice_index_or program_rows.now i []) ≡ length values.now }
    requires light { (i : ℕ) → i < length program_rows.now → total_size (slice_index_or program_rows.now i []) < size_limit }
    requires near { (j : ℕ) → j < length values.now → nat_abs (number_at nonbasic_values.now j) * nat_abs denominator < 2 ^ 63 }
    ensures { IsTrue result → (i : ℕ) → i < length program_rows.now → nat_abs (value_numerator denominator (slice_index_or positions.now (length values.now + i) Position.InBasis) (number_at nonbasic_values.now (length values.now + i)) (combined_value denominator (slice_index_or program_rows.now i []) positions.now nonbasic_values.now values.now)) ≤ size_limit }
{
    let columns = values.len();
    for (i, coefficients) in program_rows.iter().enumerate() {
        let numerator = row_value(
            positions[columns + i],
            nonbasic_values[columns + i],
            coefficients,
            positions,
            nonbasic_values,
            values,
            denominator,
        );
        if numerator.unsigned_abs() > u128::from(SIZE_LIMIT) {
            return false;
        }
    }
    true
}

/// The same by the weight of the rows and the greatest numerator of a column's value or, where that doesn't tell it, by a look at each.
fn are_rows_small(
    program_rows: &[ProgramRow],
    weight: u64,
    greatest: u64,
    positions: &[Position],
    nonbasic_values: &[i64],
    values: &[i64],
    denominator: i64,
) -> bool
    requires positions_there { length positions.now ≡ length values.now + length program_rows.now }
    requires nonbasic_values_there { length nonbasic_values.now ≡ length positions.now }
    requires full { (i : ℕ) → i < length program_rows.now → length (slice_index_or program_rows.now i []) ≡ length values.now }
    requires weights { (i : ℕ) → i < length program_rows.now → total_size (slice_index_or program_rows.now i []) ≤ weight }
    requires light { (i : ℕ) → i < length program_rows.now → total_size (slice_index_or program_rows.now i []) < size_limit }
    requires near { (j : ℕ) → j < length values.now → nat_abs (number_at nonbasic_values.now j) * nat_abs denominator < 2 ^ 63 }
    requires greatest { (j : ℕ) → j < length values.now → nat_abs (value_numerator denominator (slice_index_or positions.now j Position.InBasis) (number_at nonbasic_values.now j) (number_at values.now j)) ≤ greatest }
    ensures { IsTrue result → (i : ℕ) → i < length program_rows.now → nat_abs (value_numerator denominator (slice_index_or positions.now (length values.now + i) Position.InBasis) (number_at nonbasic_values.now (length values.now + i)) (combined_value denominator (slice_index_or program_rows.now i []) positions.now nonbasic_values.now values.now)) ≤ size_limit }
{
    if is_light(weight, greatest)
        && are_nonbasic_small(values.len(), positions, nonbasic_values, denominator)
    {
        return true;
    }
    are_rows_small_by_look(
        program_rows,
        positions,
        nonbasic_values,
        values,
        denominator,
    )
}

/// A denominator of all numbers of a tableau of these parts, where none is greater in size than `SIZE_LIMIT` over it; none where one is.
pub(crate) fn common_denominator(
    program_rows: &[ProgramRow],
    weight: u64,
    positions: &[Position],
    nonbasic_values: &[i64],
    values: &[i64],
    denominator: i64,
) -> Option<u64>
    requires positive { pos 0 <ℤ denominator }
    requires parts { (reach : ℕ) × (t : WholeTableau) × IsCompact program_rows.now weight reach t × ArePartsOf t positions.now nonbasic_values.now values.now denominator }
    ensures { (reach columns : ℕ) (numbers : List ℕ) (t : WholeTableau) → IsCompact program_rows.now weight reach t → ArePartsOf t positions.now nonbasic_values.now values.now denominator
        → IfSome result (λ d. HasDenominator d (tableau_of columns numbers (expanded program_rows.now t))) }
{
    let greatest = greatest_numerator(positions, nonbasic_values, values, denominator);
    if greatest > SIZE_LIMIT
        || !are_rows_small(
            program_rows,
            weight,
            greatest,
            positions,
            nonbasic_values,
            values,
            denominator,
        )
    {
        return None;
    }
    Some(denominator.unsigned_abs())
}

impl IntegerTableau {
    /// A denominator of all numbers, where none is greater in size than `SIZE_LIMIT` over it; none where one is.
    pub fn common_denominator(&self) -> Option<u64>
        ensures { IfSome result (λ d. HasDenominator d self.now) }
    {
        common_denominator(
            &self.fixed.rows,
            self.fixed.weight,
            &self.positions,
            &self.nonbasic_values,
            &self.values,
            self.denominator,
        )
    }
}
