// The values of the columns.

ghost use Rattle.std.specs.Prelude.{◌≡◌, ℕ, ◌<◌, [], pos, nat_abs, ◌-ℤ◌, ◌*ℤ◌, ◌+ℤ◌, ◌<ℤ◌, length, IsTrue, IfSome, slice_index_or, slice_set};
ghost use Rattle.integer_tableau.specs.Numbers.{number_at};
ghost use Rattle.integer_tableau.specs.BasicColumns.{HaveRows};
ghost use Rattle.integer_tableau.specs.Substitution.{quotient_numerator};
ghost use Rattle.integer_tableau.specs.Pivot.{IsSubstitutedValue, AreSubstitutedValues};

use crate::divisor::Divisor;
use crate::integer_row::IntegerRow;
use crate::wide_numbers::{exact_quotient, less_product, quotient_numerator, sum, times};

/// The numerator of the entering variable's value, over the size of the pivot: the leaving variable, whose value this is so far, goes to
/// its bound, and the entering one leaves its own.
pub(crate) fn entering_value(
    value: i128,
    pivot: i64,
    nonbasic_value: i64,
    denominator: i64,
    bound: i64,
) -> Option<i128>
    ensures { IfSome result (λ v. v ≡ quotient_numerator pivot (value -ℤ pivot *ℤ nonbasic_value -ℤ denominator *ℤ bound)) }
{
    let rest = less_product(value, pivot, nonbasic_value)?;
    let rest = less_product(rest, denominator, bound)?;
    quotient_numerator(pivot, rest)
}

/// The numerator of another variable's value, where the division by the denominator is exact.
pub(crate) fn substituted_value(
    value: i64,
    factor: i64,
    nonbasic_value: i64,
    pivot_size: i64,
    entering: i128,
    divisor: Divisor,
) -> Option<i64>
    ensures { IfSome result (λ v. v *ℤ divisor.number ≡ (value -ℤ factor *ℤ nonbasic_value) *ℤ pivot_size +ℤ entering *ℤ factor) }
{
    let rest = less_product(i128::from(value), factor, nonbasic_value)?;
    let rest = times(rest, pivot_size)?;
    let part = times(entering, factor)?;
    let total = sum(rest, part)?;
    exact_quotient(total, divisor)
}

/// The same of a variable with this row, if the row has the width.
#[inline(always)]
fn value_after(
    value: i64,
    row: &IntegerRow,
    width: usize,
    column: usize,
    nonbasic_value: i64,
    pivot_size: i64,
    entering: i128,
    divisor: Divisor,
) -> Option<i64>
    ensures { IfSome result (λ after. IsSubstitutedValue width column nonbasic_value pivot_size entering divisor.number row.now value after) }
{
    if row.width() == width {
        substituted_value(
            value,
            row.numerator(column),
            nonbasic_value,
            pivot_size,
            entering,
            divisor,
        )
    } else {
        Some(value)
    }
}

/// The values of all columns whose rows have the width; false where one isn't exact, or is too large.
fn substitute_values(
    values: &mut [i64],
    rows: &[IntegerRow],
    basic_columns: &[usize],
    width: usize,
    column: usize,
    nonbasic_value: i64,
    pivot_size: i64,
    entering: i128,
    divisor: Divisor,
) -> bool
    requires values_there { length values.old ≡ length rows.now }
    requires listed { HaveRows basic_columns.now rows.now }
    requires column { column < width }
    ensures { IsTrue result → (v : ℕ) → v < length values.old → IsSubstitutedValue width column nonbasic_value pivot_size entering divisor.number (slice_index_or rows.now v []) (number_at values.old v) (number_at values.new v) }
{
    for basic in basic_columns {
        let v = *basic;
        match value_after(
            values[v],
            &rows[v],
            width,
            column,
            nonbasic_value,
            pivot_size,
            entering,
            divisor,
        ) {
            Some(after) => values[v] = after,
            None => return false,
        }
    }
    true
}

/// Puts the value of the entering variable into its place, if it is a column; false where it is too large.
pub(crate) fn put_value(values: &mut [i64], entering: usize, value: i128) -> bool
    ensures { IsTrue result → values.new ≡ slice_set values.old entering value }
{
    if entering < values.len() {
        match i64::try_from(value) {
            Ok(number) => {
                values[entering] = number;
                true
            }
            Err(_) => false,
        }
    } else {
        true
    }
}

/// The values after a pivot, in which the leaving variable, of this value, goes to the bound; false where one isn't exact, or is too large.
pub(crate) fn change_values(
    values: &mut [i64],
    rows: &[IntegerRow],
    basic_columns: &[usize],
    width: usize,
    entering: usize,
    column: usize,
    pivot: i64,
    leaving_value: i128,
    nonbasic_value: i64,
    bound: i64,
    pivot_size: i64,
    divisor: Divisor,
) -> bool
    requires values_there { length rows.now ≡ length values.old }
    requires listed { HaveRows basic_columns.now rows.now }
    requires column { column < width }
    ensures { IsTrue result → AreSubstitutedValues entering column divisor.number pivot_size nonbasic_value (quotient_numerator pivot (leaving_value -ℤ pivot *ℤ nonbasic_value -ℤ divisor.number *ℤ bound)) width rows.now values.old values.new }
{
    match entering_value(
        leaving_value,
        pivot,
        nonbasic_value,
        divisor.number(),
        bound,
    ) {
        Some(value) => {
            substitute_values(
                values,
                rows,
                basic_columns,
                width,
                column,
                nonbasic_value,
                pivot_size,
                value,
                divisor,
            ) && put_value(values, entering, value)
        }
        None => false,
    }
}
