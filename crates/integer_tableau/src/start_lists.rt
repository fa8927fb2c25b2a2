// The lists of a solution at the start, in those that an earlier run left.

ghost use Rattle.std.specs.Prelude.{◌≡◌, ◌≤◌, ◌-◌, ◌++◌, pos, drop, length, map, replicate, false, OnOk};
ghost use Rattle.integer_tableau.specs.Exits.{are_free};
ghost use Rattle.integer_tableau.specs.IntegerProgram.{column_bounds};
ghost use Rattle.integer_tableau.specs.Start.{columns_from, is_negative, start_numbers};

use crate::integer_bounds::IntegerBounds;
use crate::integer_program::column_bounds;
use crate::position::Position;
use crate::start::start_number;
use problem_box::IntBox;
use std::alloc::AllocError;

/// Makes a list that of so many zeros, in the room that it has where that is enough. The one error is want of memory.
pub(crate) fn put_zeros(list: &mut Vec<i64>, count: usize) -> Result<(), AllocError>
    ensures { OnOk result (list.new.items ≡ replicate count (pos 0)) }
{
    list.clear();
    list.resize(count, 0)
}

/// The same of truth values.
fn put_no(list: &mut Vec<bool>, count: usize) -> Result<(), AllocError>
    ensures { OnOk result (list.new.items ≡ replicate count false) }
{
    list.clear();
    list.resize(count, false)
}

/// The same of positions in the basis.
fn put_basic(list: &mut Vec<Position>, count: usize) -> Result<(), AllocError>
    ensures { OnOk result (list.new.items ≡ replicate count Position.InBasis) }
{
    list.clear();
    list.resize(count, Position::InBasis)
}

/// Puts the bounds of the columns of a box over the first ones.
fn put_box(bounds: &mut [IntegerBounds], area: &IntBox)
    requires { length area.now ≤ length bounds.old }
    ensures { bounds.new ≡ map column_bounds area.now ++ drop (length area.now) bounds.old }
{
    for column in 0..area.len() {
        bounds[column] = column_bounds(area.span(column));
    }
}

/// Puts so many columns over the first positions.
fn put_columns(positions: &mut [Position], columns: usize)
    requires { columns ≤ length positions.old }
    ensures { positions.new ≡ columns_from 0 columns ++ drop columns positions.old }
{
    for column in 0..columns {
        positions[column] = Position::InColumn(column);
    }
}

/// Puts whether each column is at its upper bound over the first ones.
fn put_sides(at_upper: &mut [bool], costs: &[i64])
    requires { length costs.now ≤ length at_upper.old }
    ensures { at_upper.new ≡ map is_negative costs.now ++ drop (length costs.now) at_upper.old }
{
    for (column, cost) in costs.iter().enumerate() {
        at_upper[column] = *cost < 0;
    }
}

/// Puts the value of each column over the first ones.
fn put_column_numbers(numbers: &mut [i64], costs: &[i64], bounds: &[IntegerBounds])
    requires numbers_there { length costs.now ≤ length numbers.old }
    requires bounds_there { length costs.now ≤ length bounds.now }
    ensures { numbers.new ≡ start_numbers costs.now bounds.now ++ drop (length costs.now) numbers.old }
{
    for (column, cost) in costs.iter().enumerate() {
        numbers[column] = start_number(*cost, &bounds[column]);
    }
}

/// Puts whether each variable isn't fixed over the first ones.
fn put_each_free(free: &mut [bool], bounds: &[IntegerBounds])
    requires { length bounds.now ≤ length free.old }
    ensures { free.new ≡ are_free bounds.now ++ drop (length bounds.now) free.old }
{
    for (variable, own) in bounds.iter().enumerate() {
        free[variable] = own.differ();
    }
}

/// Makes a list that of the bounds of the columns of a box, and behind them those of the rows, which stand behind these columns'. The one error is want of
/// memory.
pub(crate) fn put_bounds(
    list: &mut Vec<IntegerBounds>,
    area: &IntBox,
    bounds: &[IntegerBounds],
) -> Result<(), AllocError>
    requires { length area.now ≤ length bounds.now }
    ensures { OnOk result (list.new.items ≡ map column_bounds area.now ++ drop (length area.now) bounds.now) }
{
    list.clear();
    list.extend_from_slice(bounds)?;
    put_box(list, area);
    Ok(())
}

/// Makes a list that of the positions of so many variables, of which the columns are nonbasic. The one error is want of memory.
pub(crate) fn put_positions(
    list: &mut Vec<Position>,
    columns: usize,
    count: usize,
) -> Result<(), AllocError>
    requires { columns ≤ count }
    ensures { OnOk result (list.new.items ≡ columns_from 0 columns ++ replicate (count - columns) Position.InBasis) }
{
    put_basic(list, count)?;
    put_columns(list, columns);
    Ok(())
}

/// Makes a list tell of so many variables whether each is at its upper bound. The one error is want of memory.
pub(crate) fn put_at_upper(
    list: &mut Vec<bool>,
    costs: &[i64],
    count: usize,
) -> Result<(), AllocError>
    requires { length costs.now ≤ count }
    ensures { OnOk result (list.new.items ≡ map is_negative costs.now ++ replicate (count - length costs.now) false) }
{
    put_no(list, count)?;
    put_sides(list, costs);
    Ok(())
}

/// Makes a list that of the bounds at which so many variables are; 0 for each row. The one error is want of memory.
pub(crate) fn put_numbers(
    list: &mut Vec<i64>,
    costs: &[i64],
    bounds: &[IntegerBounds],
) -> Result<(), AllocError>
    requires { length costs.now ≤ length bounds.now }
    ensures { OnOk result (list.new.items ≡ start_numbers costs.now bounds.now ++ replicate (length bounds.now - length costs.now) (pos 0)) }
{
    put_zeros(list, bounds.len())?;
    put_column_numbers(list, costs, bounds);
    Ok(())
}

/// Makes a list tell of each variable whether it isn't fixed at these bounds. The one error is want of memory.
pub(crate) fn put_free(list: &mut Vec<bool>, bounds: &[IntegerBounds]) -> Result<(), AllocError>
    ensures { OnOk result (list.new.items ≡ are_free bounds.now) }
{
    put_no(list, bounds.len())?;
    put_each_free(list, bounds);
    Ok(())
}
