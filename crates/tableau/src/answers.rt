// What a tableau answers: the point, and the multipliers of rows that it names.

ghost use Rattle.std.specs.Prelude.{◌≡◌, ◌<◌, ◌≤◌, ◌++◌, map, drop, length, slice_set, IfOk, OnOk, if◌then◌else◌};
ghost use Rattle.fraction.specs.Rational.{neg_ℚ};
ghost use Rattle.problem.specs.Linear.{Multipliers};
ghost use Rattle.tableau.specs.Leaving.{is_below};
ghost use Rattle.tableau.specs.Multipliers.{with_multiplier, numbered, point_of, mult_of_cost, row_multipliers, mult_of_row};
ghost use Rattle.tableau.specs.declared.bounds.Direction.TheVariants.{Rise, Fall};

use crate::bounds::{Bounds, Direction, is_below};
use crate::tableau::Tableau;
use fraction::Frac;
use problem::Terms;
use std::alloc::{AllocError, Global};

/// Puts the number of a row with its multiplier behind the others, unless this is 0. The one error is want of memory.
fn push_multiplier(multipliers: &mut Terms, number: u32, multiplier: Frac) -> Result<(), AllocError>
    ensures { OnOk result ((others : Multipliers) → multipliers.new ++ others ≡ multipliers.old ++ with_multiplier number multiplier others) }
{
    if multiplier.numer() != 0 {
        multipliers.push(number, multiplier)?;
    }
    Ok(())
}

/// How many numbers aren't 0.
fn nonzero_count(numbers: &[Frac]) -> usize
    ensures { result ≤ length numbers.now }
{
    let mut count = 0;
    for number in numbers {
        if number.numer() != 0 {
            count += 1;
        }
    }
    count
}

/// The numbers of rows with their multipliers, but those that are 0. The one error is want of memory.
fn numbered(alloc: Global, numbers: &[u32], multipliers: &[Frac]) -> Result<Terms, AllocError>
    ensures { IfOk result (λ m. m ≡ numbered numbers.now multipliers.now) }
{
    let mut named = Terms::with_capacity(alloc, nonzero_count(multipliers))?;
    for (i, number) in numbers.iter().enumerate() {
        if i >= multipliers.len() {
            return Ok(named);
        }
        push_multiplier(&mut named, *number, multipliers[i])?;
    }
    Ok(named)
}

/// The direction back to the bounds of a value that is outside of them.
fn direction_of(bounds: &Bounds, value: Frac) -> Direction
    ensures { result ≡ (if is_below value bounds.now.lower then Rise else Fall) }
{
    if is_below(value, &bounds.lower) {
        Direction::Rise
    } else {
        Direction::Fall
    }
}

/// Turns each number's sign.
fn negate(numbers: &mut [Frac])
    ensures { numbers.new ≡ map neg_ℚ numbers.old }
{
    for number in numbers.iter_mut() {
        *number = number.neg();
    }
}

/// Puts a number into a place, if the list has that place.
fn put(numbers: &mut [Frac], place: usize, number: Frac)
    ensures { numbers.new ≡ slice_set numbers.old place number }
{
    if place < numbers.len() {
        numbers[place] = number;
    }
}

/// Makes the multipliers of all variables out of the coefficients of a leaving row.
pub fn turn_into_multipliers(direction: Direction, row: usize, coefficients: &mut [Frac])
    ensures { coefficients.new ≡ row_multipliers direction row coefficients.old }
{
    match direction {
        Direction::Rise => {
            negate(coefficients);
            put(coefficients, row, Frac::of(1));
        }
        Direction::Fall => put(coefficients, row, Frac::of(-1)),
    }
}

/// The multipliers behind those of the columns; none where there are no more than those.
fn behind(multipliers: &[Frac], columns: usize) -> &[Frac]
    ensures { result.now ≡ drop columns multipliers.now }
{
    if columns < multipliers.len() {
        &multipliers[columns..]
    } else {
        &[]
    }
}

/// Of the multipliers of all variables those of the rows, by their numbers, but those that are 0. The one error is want of memory.
pub fn named_multipliers(
    alloc: Global,
    numbers: &[u32],
    columns: usize,
    multipliers: &[Frac],
) -> Result<Terms, AllocError>
    ensures { IfOk result (λ m. m ≡ numbered numbers.now (drop columns multipliers.now)) }
{
    numbered(alloc, numbers, behind(multipliers, columns))
}

impl Tableau {
    /// The values of the columns. The one error is want of memory.
    pub fn point(&self, alloc: Global) -> Result<Vec<Frac>, AllocError>
        ensures { IfOk result (λ v. v.items ≡ point_of self.now) }
    {
        Vec::from_slice(alloc, &self.values[..self.columns])
    }

    /// For each row, by its number, the reduced cost of its variable, but those that are 0. The one error is want of memory.
    pub fn mult_of_cost(&self, alloc: Global) -> Result<Terms, AllocError>
        ensures { IfOk result (λ m. m ≡ mult_of_cost self.now) }
    {
        let reduced_costs = self.reduced_costs.dense(alloc)?;
        named_multipliers(alloc, &self.numbers, self.columns, &reduced_costs)
    }

    /// For each row, by its number, its multiplier in what the row of variable `row`, which is outside its bounds, says of the box, but those
    /// that are 0. The one error is want of memory.
    pub fn mult_of_row(&self, alloc: Global, row: usize) -> Result<Terms, AllocError>
        requires { row < length self.now.statuses }
        ensures { IfOk result (λ m. m ≡ mult_of_row self.now row) }
    {
        let direction = direction_of(&self.bounds[row], self.values[row]);
        let mut multipliers = self.rows[row].dense(alloc)?;
        turn_into_multipliers(direction, row, &mut multipliers);
        named_multipliers(alloc, &self.numbers, self.columns, &multipliers)
    }
}
