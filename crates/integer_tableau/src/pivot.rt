// Pivots.

ghost use Rattle.std.specs.Prelude.{◌≡◌, ℕ, ◌+◌, ◌*◌, ◌-◌, ◌<◌, ◌≤◌, ◌^◌, List, ℤ, [], pos, nat_abs, ◌-ℤ◌, ◌*ℤ◌, ◌<ℤ◌, length, slice_index_or, slice_set, IsTrue, IfSome, Some};
ghost use Rattle.tableau.specs.Pivot.{pivoted};
ghost use Rattle.integer_tableau.specs.Numbers.{number_at, IsWithin, total_size};
ghost use Rattle.integer_tableau.specs.Range.{size_limit};
ghost use Rattle.integer_tableau.specs.Substitution.{quotient_numerator};
ghost use Rattle.integer_tableau.specs.IntegerTableau.{of_parts};
ghost use Rattle.integer_tableau.specs.Positions.{AreNonbasic};
ghost use Rattle.integer_tableau.specs.BasicColumns.{basic_from, HaveRows};
ghost use Rattle.integer_tableau.specs.Combined.{expanded_rows, expanded_values, IsCompact};
ghost use Rattle.integer_tableau.specs.Pivot.{is_upper, IsPivotOf, AreSubstitutedValues, IsEliminated, IsExchange, IsPivoted};

use crate::basic_columns::exchange_columns;
use crate::combination::combined_value;
use crate::combined_sizes::are_combinations_small;
use crate::divisor::Divisor;
use crate::elimination::eliminate;
use crate::integer_bounds::IntegerBounds;
use crate::integer_row::IntegerRow;
use crate::integer_tableau::IntegerTableau;
use crate::position::Position;
use crate::program_row::ProgramRow;
use crate::values::change_values;
use std::mem;
use tableau::Direction;

/// Whether a leaving variable goes to its upper bound.
pub(crate) fn is_upper(direction: Direction) -> bool
    ensures { result ≡ is_upper direction }
{
    match direction {
        Direction::Rise => false,
        Direction::Fall => true,
    }
}

/// The size of a pivot, if it isn't 0.
pub(crate) fn size_of(pivot: i64) -> Option<i64>
    ensures { IfSome result (λ e. (e ≡ pos (nat_abs pivot)) × (0 < nat_abs pivot)) }
{
    if pivot > 0 {
        Some(pivot)
    } else if pivot < 0 {
        pivot.checked_neg()
    } else {
        None
    }
}

/// Whether the value of no nonbasic column has more than 63 bits over the denominator.
pub(crate) fn is_near(reach: u64, denominator: i64) -> bool
    ensures { IsTrue result → reach * nat_abs denominator < 2 ^ 63 }
{
    u128::from(reach) * u128::from(denominator.unsigned_abs()) < 1 << 63
}

/// The numerator of a variable's value, if it is basic.
pub(crate) fn value_of(
    variable: usize,
    program_rows: &[ProgramRow],
    positions: &[Position],
    nonbasic_values: &[i64],
    values: &[i64],
    denominator: i64,
) -> i128
    requires positions_there { length positions.now ≡ length values.now + length program_rows.now }
    requires nonbasic_values_there { length nonbasic_values.now ≡ length positions.now }
    requires variable_there { variable < length positions.now }
    requires full { (i : ℕ) → i < length program_rows.now → length (slice_index_or program_rows.now i []) ≡ length values.now }
    requires light { (i : ℕ) → i < length program_rows.now → total_size (slice_index_or program_rows.now i []) < size_limit }
    requires near { (j : ℕ) → j < length values.now → nat_abs (number_at nonbasic_values.now j) * nat_abs denominator < 2 ^ 63 }
    requires positive { pos 0 <ℤ denominator }
    ensures { result ≡ number_at (expanded_values (nat_abs denominator) program_rows.now positions.now nonbasic_values.now values.now) variable }
{
    if variable < values.len() {
        i128::from(values[variable])
    } else {
        combined_value(
            &program_rows[variable - values.len()],
            positions,
            nonbasic_values,
            values,
            denominator,
        )
    }
}

/// Puts the row of a basic variable into `room`, if it isn't kept; false where memory is wanting.
pub(crate) fn put_row(
    room: &mut IntegerRow,
    program_rows: &[ProgramRow],
    positions: &[Position],
    rows: &[IntegerRow],
    denominator: i64,
    leaving: usize,
) -> bool
    requires positions_there { length positions.now ≡ length rows.now + length program_rows.now }
    requires leaving_there { leaving < length positions.now }
    requires basic { slice_index_or positions.now leaving Position.InBasis ≡ Position.InBasis }
    requires full { (i : ℕ) → i < length program_rows.now → length (slice_index_or program_rows.now i []) ≡ length rows.now }
    requires positive { pos 0 <ℤ denominator }
    requires small { IsWithin (size_limit - 1) (slice_index_or (expanded_rows (nat_abs denominator) program_rows.now positions.now rows.now) leaving []) }
    ensures { IsTrue result → length rows.now ≤ leaving → room.new ≡ slice_index_or (expanded_rows (nat_abs denominator) program_rows.now positions.now rows.now) leaving [] }
{
    let columns = rows.len();
    if leaving < columns {
        return true;
    }
    room.combine_small(
        &program_rows[leaving - columns],
        positions,
        rows,
        denominator,
    )
}

/// Takes the row of a variable out of the rows into `leaving_row`, and leaves none in its place; one that isn't kept is there already.
fn take_row(rows: &mut [IntegerRow], leaving_row: &mut IntegerRow, leaving: usize)
    ensures kept { leaving < length rows.old → leaving_row.new ≡ slice_index_or rows.old leaving [] }
    ensures made { length rows.old ≤ leaving → leaving_row.new ≡ leaving_row.old }
    ensures rows { rows.new ≡ slice_set rows.old leaving [] }
{
    if leaving < rows.len() {
        leaving_row.clear();
        mem::swap(&mut rows[leaving], leaving_row);
    }
}

/// A pivot that can be made.
#[derive(Clone, Copy)]
struct Exchange {
    /// The column of the entering variable, which the leaving one takes.
    column: usize,
    /// The coefficient of the entering variable in the leaving row.
    pivot: i64,
    /// Its size, which is the new denominator.
    size: i64,
    /// In which direction the leaving variable goes.
    direction: Direction,
    /// To which bound it goes.
    bound: i64,
}

/// The pivot that exchanges two variables, if it can be made.
fn exchange_of(
    bounds: &[IntegerBounds],
    positions: &[Position],
    leaving_row: &IntegerRow,
    value: i128,
    denominator: i64,
    leaving: usize,
    entering: usize,
) -> Option<Exchange>
    requires positive { pos 0 <ℤ denominator }
    requires leaving_there { leaving < length positions.now }
    requires entering_there { entering < length positions.now }
    requires basic { slice_index_or positions.now leaving Position.InBasis ≡ Position.InBasis }
    requires bounds_there { length bounds.now ≡ length positions.now }
    ensures pivot { IfSome result (λ e. e.pivot ≡ number_at leaving_row.now e.column) }
    ensures size { IfSome result (λ e. e.size ≡ pos (nat_abs (number_at leaving_row.now e.column))) }
    ensures there { IfSome result (λ e. IsPivotOf bounds.now positions.now leaving_row.now value (nat_abs denominator) leaving entering e.column e.direction e.bound) }
{
    let Position::InColumn(column) = positions[entering] else {
        return None;
    };
    let pivot = leaving_row.numerator(column);
    let size = size_of(pivot)?;
    let direction = bounds[leaving].violation(value, denominator)?;
    let bound = bounds[leaving].violated(direction);
    Some(Exchange {
        column,
        pivot,
        size,
        direction,
        bound,
    })
}

/// Takes the leaving row out of the rows, into `leaving_row`, where it is already if it isn't kept. The answer is the numerator of the leaving
/// variable's value, and the pivot, if it can be made.
fn leave(
    bounds: &[IntegerBounds],
    program_rows: &[ProgramRow],
    positions: &[Position],
    nonbasic_values: &[i64],
    rows: &mut [IntegerRow],
    leaving_row: &mut IntegerRow,
    values: &[i64],
    denominator: i64,
    leaving: usize,
    entering: usize,
) -> Option<(i128, Exchange)>
    requires positive { pos 0 <ℤ denominator }
    requires leaving_there { leaving < length positions.now }
    requires entering_there { entering < length positions.now }
    requires basic { slice_index_or positions.now leaving Position.InBasis ≡ Position.InBasis }
    requires bounds_there { length bounds.now ≡ length positions.now }
    requires nonbasic_values_there { length nonbasic_values.now ≡ length positions.now }
    requires positions_there { length positions.now ≡ length rows.old + length program_rows.now }
    requires values_there { length values.now ≡ length rows.old }
    requires full { (i : ℕ) → i < length program_rows.now → length (slice_index_or program_rows.now i []) ≡ length rows.old }
    requires light { (i : ℕ) → i < length program_rows.now → total_size (slice_index_or program_rows.now i []) < size_limit }
    requires near { (j : ℕ) → j < length values.now → nat_abs (number_at nonbasic_values.now j) * nat_abs denominator < 2 ^ 63 }
    requires made { length rows.old ≤ leaving → leaving_row.old ≡ slice_index_or (expanded_rows (nat_abs denominator) program_rows.now positions.now rows.old) leaving [] }
    ensures value { IfSome result (λ e. e.0 ≡ number_at (expanded_values (nat_abs denominator) program_rows.now positions.now nonbasic_values.now values.now) leaving) }
    ensures row { IfSome result (λ e. leaving_row.new ≡ slice_index_or (expanded_rows (nat_abs denominator) program_rows.now positions.now rows.old) leaving []) }
    ensures rows { IfSome result (λ e. rows.new ≡ slice_set rows.old leaving []) }
    ensures pivot { IfSome result (λ e. e.1.pivot ≡ number_at leaving_row.new e.1.column) }
    ensures size { IfSome result (λ e. e.1.size ≡ pos (nat_abs (number_at leaving_row.new e.1.column))) }
    ensures there { IfSome result (λ e. IsPivotOf bounds.now positions.now leaving_row.new e.0 (nat_abs denominator) leaving entering e.1.column e.1.direction e.1.bound) }
{
    let value = value_of(
        leaving,
        program_rows,
        positions,
        nonbasic_values,
        values,
        denominator,
    );
    take_row(rows, leaving_row, leaving);
    let exchange = exchange_of(
        bounds,
        positions,
        leaving_row,
        value,
        denominator,
        leaving,
        entering,
    )?;
    Some((value, exchange))
}

/// Makes the pivot in the numbers of a tableau, from which the leaving row was taken; false where they grow too large, or a division isn't
/// exact.
fn exchange_numbers(
    rows: &mut [IntegerRow],
    leaving_row: &mut IntegerRow,
    reduced_costs: &mut IntegerRow,
    values: &mut [i64],
    basic_columns: &[usize],
    value: i128,
    left: i64,
    denominator: i64,
    entering: usize,
    exchange: Exchange,
) -> bool
    requires positive { pos 0 <ℤ denominator }
    requires small { nat_abs denominator < size_limit }
    requires listed { HaveRows basic_columns.now rows.old }
    requires values_there { length values.old ≡ length rows.old }
    requires width { length leaving_row.old ≡ length reduced_costs.old }
    requires column { exchange.column < length reduced_costs.old }
    requires coefficient { 0 < nat_abs (number_at leaving_row.old exchange.column) }
    requires pivot { exchange.pivot ≡ number_at leaving_row.old exchange.column }
    requires size { exchange.size ≡ pos (nat_abs (number_at leaving_row.old exchange.column)) }
    ensures rows { IsTrue result → (solved : List ℤ) × IsEliminated entering exchange.column (nat_abs denominator) (nat_abs exchange.size) leaving_row.old solved rows.old rows.new reduced_costs.old reduced_costs.new }
    ensures values { IsTrue result → AreSubstitutedValues entering exchange.column denominator exchange.size left (quotient_numerator exchange.pivot (value -ℤ exchange.pivot *ℤ left -ℤ denominator *ℤ exchange.bound)) (length reduced_costs.old) rows.old values.old values.new }
{
    let divisor = Divisor::make(denominator);
    let width = reduced_costs.width();
    if !change_values(
        values,
        rows,
        basic_columns,
        width,
        entering,
        exchange.column,
        exchange.pivot,
        value,
        left,
        exchange.bound,
        exchange.size,
        divisor,
    ) {
        return false;
    }
    eliminate(
        rows,
        basic_columns,
        leaving_row,
        reduced_costs,
        entering,
        exchange.column,
        exchange.size,
        divisor,
    )
}

/// Exchanges two variables in the parts of a tableau; `leaving_row` holds the leaving row if it isn't kept. The answer is the new denominator,
/// or none where the pivot is given up; the parts are of no use then.
pub(crate) fn pivot_parts(
    bounds: &[IntegerBounds],
    program_rows: &[ProgramRow],
    weight: u64,
    reach: u64,
    positions: &mut [Position],
    nonbasic: &mut [usize],
    at_upper: &mut [bool],
    nonbasic_values: &mut [i64],
    rows: &mut [IntegerRow],
    leaving_row: &mut IntegerRow,
    reduced_costs: &mut IntegerRow,
    values: &mut [i64],
    basic_columns: &mut Vec<usize>,
    denominator: i64,
    pivots: u64,
    leaving: usize,
    entering: usize,
) -> Option<i64>
    requires compact { IsCompact program_rows.now weight reach (of_parts bounds.now positions.old at_upper.old nonbasic_values.old rows.old reduced_costs.old values.old denominator pivots) }
    requires positive { pos 0 <ℤ denominator }
    requires leaving_there { leaving < length positions.old }
    requires entering_there { entering < length positions.old }
    requires bounds_there { length bounds.now ≡ length positions.old }
    requires at_upper_there { length at_upper.old ≡ length positions.old }
    requires nonbasic_values_there { length nonbasic_values.old ≡ length positions.old }
    requires positions_there { length positions.old ≡ length rows.old + length program_rows.now }
    requires values_there { length values.old ≡ length rows.old }
    requires nonbasic_are { AreNonbasic positions.old nonbasic.old }
    requires basic_are { basic_columns.old.items ≡ basic_from 0 (length rows.old) positions.old }
    requires made { length rows.old ≤ leaving → leaving_row.old ≡ slice_index_or (expanded_rows (nat_abs denominator) program_rows.now positions.old rows.old) leaving [] }
    ensures nonbasic { IfSome result (λ e. AreNonbasic positions.new nonbasic.new) }
    ensures basic { IfSome result (λ e. basic_columns.new.items ≡ basic_from 0 (length rows.new) positions.new) }
    ensures pivoted { IfSome result (λ e. IsPivoted program_rows.now weight reach leaving entering (of_parts bounds.now positions.old at_upper.old nonbasic_values.old rows.old reduced_costs.old values.old denominator pivots) (of_parts bounds.now positions.new at_upper.new nonbasic_values.new rows.new reduced_costs.new values.new e (pivots + 1)) × (pos 0 <ℤ e)) }
    ensures exchanged { IfSome result (λ e. IsExchange leaving entering positions.old positions.new nonbasic_values.old nonbasic_values.new) }
{
    let Position::InBasis = positions[leaving] else {
        return None;
    };
    let (value, exchange) = leave(
        bounds,
        program_rows,
        positions,
        nonbasic_values,
        rows,
        leaving_row,
        values,
        denominator,
        leaving,
        entering,
    )?;
    if !exchange_numbers(
        rows,
        leaving_row,
        reduced_costs,
        values,
        basic_columns,
        value,
        nonbasic_values[entering],
        denominator,
        entering,
        exchange,
    ) {
        return None;
    }
    if !exchange_columns(basic_columns, rows.len(), leaving, entering) {
        return None;
    }
    nonbasic_values[leaving] = exchange.bound;
    nonbasic_values[entering] = 0;
    positions[leaving] = Position::InColumn(exchange.column);
    positions[entering] = Position::InBasis;
    nonbasic[exchange.column] = leaving;
    at_upper[leaving] = is_upper(exchange.direction);
    at_upper[entering] = false;
    if !is_near(reach, exchange.size)
        || !are_combinations_small(
            leaving_row.allocator(),
            program_rows,
            weight,
            positions,
            rows,
            basic_columns,
            exchange.size,
        )
    {
        return None;
    }
    Some(exchange.size)
}

impl IntegerTableau {
    /// Takes variable `leaving` out of the basis, to the bound that it violates, and variable `entering` into it. None where this is given
    /// up: where the numbers grow too large, and where no place asks for it, since `leaving` isn't basic or violates no bound, or `entering`
    /// is basic or has no coefficient in its row.
    pub fn pivot(self, leaving: usize, entering: usize) -> Option<IntegerTableau>
        requires leaving_there { leaving < length self.statuses }
        requires entering_there { entering < length self.statuses }
        requires room { self.pivots + 1 < 2 ^ 64 }
        ensures value { IfSome result (λ t. pivoted leaving entering self ≡ Some t) }
        ensures counted { IfSome result (λ t. t.pivots ≡ self.pivots + 1) }
    {
        let mut running = self.into_running();
        if !running.turn_alone(leaving, entering) {
            return None;
        }
        Some(running.into_tableau())
    }
}
