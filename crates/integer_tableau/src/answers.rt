// What a tableau answers: the point, and the multipliers of rows that it names.

ghost use Rattle.std.specs.Prelude.{◌≡◌, ◌*◌, ◌-◌, ◌<◌, ◌≤◌, pos, nat_abs, ◌<ℤ◌, length, drop, IfOk, if◌then◌else◌};
ghost use Rattle.tableau.specs.Leaving.{is_below};
ghost use Rattle.tableau.specs.Multipliers.{point_of, mult_of_cost, direction_of, row_multipliers, mult_of_row};
ghost use Rattle.tableau.specs.Tableau.{row_of};
ghost use Rattle.tableau.specs.declared.bounds.Direction.TheVariants.{Rise, Fall};
ghost use Rattle.integer_tableau.specs.Numbers.{number_at, IsWithin};
ghost use Rattle.integer_tableau.specs.Range.{size_limit};
ghost use Rattle.integer_tableau.specs.Positions.{coefficient, coefficients};
ghost use Rattle.integer_tableau.specs.IntegerTableau.{fraction_bounds, value, values_of};
ghost use Rattle.integer_tableau.specs.Combined.{combined_row};

use crate::integer_bounds::{IntegerBounds, is_below};
use crate::integer_row::IntegerRow;
use crate::integer_tableau::IntegerTableau;
use crate::named_coefficients::named_coefficients;
use crate::pivot::value_of;
use crate::position::Position;
use crate::program_row::ProgramRow;
use fraction::Frac;
use problem::Terms;
use std::alloc::{AllocError, Global};
use tableau::{Direction, named_multipliers, turn_into_multipliers};

// ---- values

/// The value of a column, by its bound where it is nonbasic, or by its numerator where it is basic.
fn column_value(position: Position, nonbasic_value: i64, numerator: i64, denominator: i64) -> Frac
    requires { pos 0 <ℤ denominator }
    ensures { result ≡ value (nat_abs denominator) position nonbasic_value numerator }
{
    match position {
        Position::InBasis => Frac::make(i128::from(numerator), i128::from(denominator)),
        Position::InColumn(_) => Frac::of(i128::from(nonbasic_value)),
    }
}

/// The values of the columns. The one error is want of memory.
pub(crate) fn column_values(
    alloc: Global,
    positions: &[Position],
    nonbasic_values: &[i64],
    values: &[i64],
    denominator: i64,
) -> Result<Vec<Frac>, AllocError>
    requires positive { pos 0 <ℤ denominator }
    requires positions_there { length values.now ≤ length positions.now }
    requires nonbasic_values_there { length values.now ≤ length nonbasic_values.now }
    ensures { IfOk result (λ v. v.items ≡ values_of (nat_abs denominator) positions.now nonbasic_values.now values.now) }
{
    let mut all = Vec::with_capacity(alloc, values.len())?;
    for (j, value) in values.iter().enumerate() {
        all.push(column_value(positions[j], nonbasic_values[j], *value, denominator))?;
    }
    Ok(all)
}

/// Whether a variable's value is below its lower bound.
fn is_below_bounds(
    bounds: &IntegerBounds,
    position: Position,
    nonbasic_value: i64,
    numerator: i128,
    denominator: i64,
) -> bool
    requires { pos 0 <ℤ denominator }
    ensures { result ≡ is_below (value (nat_abs denominator) position nonbasic_value numerator) (fraction_bounds bounds.now).lower }
{
    match position {
        Position::InBasis => is_below(numerator, bounds.lower, denominator),
        Position::InColumn(_) => is_below(i128::from(nonbasic_value), bounds.lower, 1),
    }
}

/// The direction back to its bounds of a variable that is outside of them.
fn direction_of(
    bounds: &IntegerBounds,
    position: Position,
    nonbasic_value: i64,
    numerator: i128,
    denominator: i64,
) -> Direction
    requires { pos 0 <ℤ denominator }
    ensures { result ≡ (if is_below (value (nat_abs denominator) position nonbasic_value numerator) (fraction_bounds bounds.now).lower then Rise else Fall) }
{
    if is_below_bounds(bounds, position, nonbasic_value, numerator, denominator) {
        Direction::Rise
    } else {
        Direction::Fall
    }
}

// ---- coefficients

/// The numerator in a column, 0 past the end.
pub(crate) fn numerator_in(row: &[i64], column: usize) -> i64
    ensures { result ≡ number_at row.now column }
{
    if column < row.len() { row[column] } else { 0 }
}

/// The coefficient of a variable in a row.
fn coefficient(position: Position, row: &[i64], denominator: i64) -> Frac
    requires { pos 0 <ℤ denominator }
    ensures { result ≡ coefficient (nat_abs denominator) row.now position }
{
    match position {
        Position::InBasis => Frac::of(0),
        Position::InColumn(column) => {
            Frac::make(
                i128::from(numerator_in(row, column)),
                i128::from(denominator),
            )
        }
    }
}

/// The coefficients of variables in a row. The one error is want of memory.
pub(crate) fn coefficients(
    alloc: Global,
    positions: &[Position],
    row: &[i64],
    denominator: i64,
) -> Result<Vec<Frac>, AllocError>
    requires { pos 0 <ℤ denominator }
    ensures { IfOk result (λ v. v.items ≡ coefficients (nat_abs denominator) positions.now row.now) }
{
    let mut all = Vec::with_capacity(alloc, positions.len())?;
    for position in positions {
        all.push(coefficient(*position, row, denominator))?;
    }
    Ok(all)
}

/// The coefficients of the variables from `first` on in the row of a row's variable, whose numbers are small. The one error is want of memory.
fn combined_coefficients(
    alloc: Global,
    first: usize,
    program_row: &ProgramRow,
    positions: &[Position],
    rows: &[IntegerRow],
    denominator: i64,
) -> Result<Vec<Frac>, AllocError>
    requires positive { pos 0 <ℤ denominator }
    requires rows_there { length rows.now ≡ length program_row.now }
    requires positions_there { length program_row.now ≤ length positions.now }
    requires first_there { first ≤ length positions.now }
    requires small { IsWithin (size_limit - 1) (combined_row (nat_abs denominator) positions.now rows.now program_row.now) }
    ensures { IfOk result (λ v. v.items ≡ coefficients (nat_abs denominator) (drop first positions.now) (combined_row (nat_abs denominator) positions.now rows.now program_row.now)) }
{
    let mut row = IntegerRow::empty(alloc);
    if !row.combine_small(program_row, positions, rows, denominator) {
        return Err(AllocError);
    }
    coefficients(alloc, &positions[first..], row.numerators(), denominator)
}

impl IntegerTableau {
    /// The values of the columns. The one error is want of memory.
    pub fn point(&self, alloc: Global) -> Result<Vec<Frac>, AllocError>
        ensures { IfOk result (λ v. v.items ≡ point_of self.now) }
    {
        column_values(
            alloc,
            &self.positions,
            &self.nonbasic_values,
            &self.values,
            self.denominator,
        )
    }

    /// How many columns there are.
    pub fn columns(&self) -> usize
        ensures { result ≡ self.now.columns }
    {
        self.rows.len()
    }

    /// The numbers by which multipliers name the rows.
    pub fn numbers(&self) -> &[u32]
        ensures { result.now ≡ self.now.numbers }
    {
        &self.fixed.numbers
    }

    /// For each row the reduced cost of its variable. The one error is want of memory.
    pub fn cost_multipliers(&self, alloc: Global) -> Result<Vec<Frac>, AllocError>
        ensures { IfOk result (λ v. v.items ≡ drop self.now.columns self.now.reduced_costs) }
    {
        let columns = self.rows.len();
        coefficients(
            alloc,
            &self.positions[columns..],
            self.reduced_costs.numerators(),
            self.denominator,
        )
    }

    /// For each row, by its number, the reduced cost of its variable, but those that are 0. The one error is want of memory.
    pub fn mult_of_cost(&self, alloc: Global) -> Result<Terms, AllocError>
        ensures { IfOk result (λ m. m ≡ mult_of_cost self.now) }
    {
        named_coefficients(
            alloc,
            self.numbers(),
            &self.positions[self.rows.len()..],
            self.reduced_costs.numerators(),
            self.denominator,
        )
    }

    /// The direction back to its bounds of a variable that is outside of them.
    fn direction_of(&self, row: usize) -> Direction
        requires { row < length self.now.statuses }
        ensures { result ≡ direction_of self.now row }
    {
        let numerator = value_of(
            row,
            &self.fixed.rows,
            &self.positions,
            &self.nonbasic_values,
            &self.values,
            self.denominator,
        );
        direction_of(
            &self.fixed.bounds[row],
            self.positions[row],
            self.nonbasic_values[row],
            numerator,
            self.denominator,
        )
    }

    /// The coefficients of the variables from `first` on in the row of a basic variable; none for another one. The one error is want of memory.
    pub fn coefficients_from(
        &self,
        alloc: Global,
        variable: usize,
        first: usize,
    ) -> Result<Vec<Frac>, AllocError>
        requires variable_there { variable < length self.now.statuses }
        requires first_there { first ≤ length self.now.statuses }
        ensures { IfOk result (λ v. v.items ≡ drop first (row_of self.now variable)) }
    {
        let Position::InBasis = self.positions[variable] else {
            return Ok(Vec::new(alloc));
        };
        let columns = self.rows.len();
        if variable < columns {
            coefficients(
                alloc,
                &self.positions[first..],
                self.rows[variable].numerators(),
                self.denominator,
            )
        } else {
            combined_coefficients(
                alloc,
                first,
                self.fixed.row(variable - columns),
                &self.positions,
                &self.rows,
                self.denominator,
            )
        }
    }

    /// For each row its multiplier in what the row of variable `row`, which is outside its bounds, says of the box. The one error is want of
    /// memory.
    pub fn row_multipliers(&self, alloc: Global, row: usize) -> Result<Vec<Frac>, AllocError>
        requires { row < length self.now.statuses }
        ensures { IfOk result (λ v. v.items ≡ drop self.now.columns (row_multipliers (direction_of self.now row) row (row_of self.now row))) }
    {
        let direction = self.direction_of(row);
        let columns = self.rows.len();
        let mut multipliers = self.coefficients_from(alloc, row, columns)?;
        let place = if row < columns {
            self.positions.len()
        } else {
            row - columns
        };
        turn_into_multipliers(direction, place, &mut multipliers);
        Ok(multipliers)
    }

    /// For each row, by its number, its multiplier in what the row of variable `row`, which is outside its bounds, says of the box, but those
    /// that are 0. The one error is want of memory.
    pub fn mult_of_row(&self, alloc: Global, row: usize) -> Result<Terms, AllocError>
        requires { row < length self.now.statuses }
        ensures { IfOk result (λ m. m ≡ mult_of_row self.now row) }
    {
        let multipliers = self.row_multipliers(alloc, row)?;
        named_multipliers(alloc, self.numbers(), 0, &multipliers)
    }
}
