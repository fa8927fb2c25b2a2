// The elimination of a variable from rows and reduced costs.

ghost use Rattle.std.specs.Prelude.{◌≡◌, ◌≢◌, ℕ, ◌<◌, ◌-◌, List, ℤ, [], pos, nat_abs, ◌<ℤ◌, length, IsTrue, slice_index_or, slice_set};
ghost use Rattle.integer_tableau.specs.Numbers.{number_at, IsWithin};
ghost use Rattle.integer_tableau.specs.BasicColumns.{HaveRows};
ghost use Rattle.integer_tableau.specs.Range.{size_limit};
ghost use Rattle.integer_tableau.specs.Substitution.{IsSubstitutedIfFull};
ghost use Rattle.integer_tableau.specs.Pivot.{IsEliminated};

use crate::divisor::Divisor;
use crate::integer_row::IntegerRow;
use std::mem;

/// Substitutes the variable of a column in each row of the source's width; false where one isn't exact or small.
fn substitute_all(
    rows: &mut [IntegerRow],
    basic_columns: &[usize],
    column: usize,
    source: &IntegerRow,
    pivot_size: i64,
    divisor: Divisor,
) -> bool
    requires column { column < length source.now }
    requires source_small { IsWithin (size_limit - 1) source.now }
    requires pivot_size_small { nat_abs pivot_size < size_limit }
    requires listed { HaveRows basic_columns.now rows.old }
    ensures { IsTrue result → (v : ℕ) → v < length rows.old → IsSubstitutedIfFull divisor.number pivot_size column source.now (slice_index_or rows.old v []) (slice_index_or rows.new v []) }
{
    for basic in basic_columns {
        if !rows[*basic].substitute_if_full(column, source, pivot_size, divisor) {
            return false;
        }
    }
    true
}

/// Puts the row of the entering variable into its place, if it is a column.
fn put_row(rows: &mut [IntegerRow], entering: usize, row: &mut IntegerRow)
    ensures { rows.new ≡ slice_set rows.old entering row.old }
{
    if entering < rows.len() {
        mem::swap(&mut rows[entering], row);
    }
}

/// Solves the row of the leaving variable for the entering one, and substitutes this in the columns' rows, of which the leaving variable has
/// none, and in the reduced costs. False where a number isn't exact or small.
pub(crate) fn eliminate(
    rows: &mut [IntegerRow],
    basic_columns: &[usize],
    leaving_row: &mut IntegerRow,
    reduced_costs: &mut IntegerRow,
    entering: usize,
    column: usize,
    pivot_size: i64,
    divisor: Divisor,
) -> bool
    requires width { length leaving_row.old ≡ length reduced_costs.old }
    requires listed { HaveRows basic_columns.now rows.old }
    requires column { column < length reduced_costs.old }
    requires pivot { 0 < nat_abs (number_at leaving_row.old column) }
    requires size { pivot_size ≡ pos (nat_abs (number_at leaving_row.old column)) }
    ensures { IsTrue result → (new : List ℤ) × IsEliminated entering column (nat_abs divisor.number) (nat_abs pivot_size) leaving_row.old new rows.old rows.new reduced_costs.old reduced_costs.new }
{
    if !leaving_row.solve(column, divisor.number()) {
        return false;
    }
    if !substitute_all(
        rows,
        basic_columns,
        column,
        leaving_row,
        pivot_size,
        divisor,
    ) {
        return false;
    }
    if !reduced_costs.substitute(column, leaving_row, pivot_size, divisor) {
        return false;
    }
    put_row(rows, entering, leaving_row);
    true
}
