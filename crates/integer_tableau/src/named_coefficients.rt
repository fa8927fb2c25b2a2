// The coefficients of rows' variables in a row, by the numbers that name the rows.

ghost use Rattle.std.specs.Prelude.{◌≡◌, ◌≤◌, ◌++◌, pos, nat_abs, ◌<ℤ◌, length, IfOk, OnOk};
ghost use Rattle.fraction.specs.Rational.{frac};
ghost use Rattle.problem.specs.Linear.{Multipliers};
ghost use Rattle.tableau.specs.Multipliers.{numbered, with_multiplier};
ghost use Rattle.integer_tableau.specs.Positions.{coefficient, coefficients, numerator};

use crate::answers::numerator_in;
use crate::position::Position;
use fraction::Frac;
use problem::Terms;
use std::alloc::{AllocError, Global};

/// The numerator of a variable in a row, 0 for a basic one.
#[inline(always)]
fn numerator(position: Position, row: &[i64]) -> i64
    ensures { result ≡ numerator row.now position }
{
    match position {
        Position::InBasis => 0,
        Position::InColumn(column) => numerator_in(row, column),
    }
}

/// How many variables have a numerator that isn't 0.
fn nonzero_count(positions: &[Position], row: &[i64]) -> usize
    ensures { result ≤ length positions.now }
{
    let mut count = 0;
    for position in positions {
        if numerator(*position, row) != 0 {
            count += 1;
        }
    }
    count
}

/// The fraction of these two numbers.
#[inline(always)]
fn fraction(numerator: i64, denominator: i64) -> Frac
    requires { pos 0 <ℤ denominator }
    ensures { result ≡ frac numerator (nat_abs denominator) }
{
    Frac::make(i128::from(numerator), i128::from(denominator))
}

/// Puts the number of a row with the coefficient of its variable behind the others, unless this is 0. The one error is want of memory.
fn push_coefficient(
    named: &mut Terms,
    number: u32,
    position: Position,
    row: &[i64],
    denominator: i64,
) -> Result<(), AllocError>
    requires { pos 0 <ℤ denominator }
    ensures { OnOk result ((others : Multipliers) → named.new ++ others ≡ named.old ++ with_multiplier number (coefficient (nat_abs denominator) row.now position) others) }
{
    let numerator = numerator(position, row);
    if numerator != 0 {
        named.push(number, fraction(numerator, denominator))?;
    }
    Ok(())
}

/// The numbers of rows with the coefficients of these variables in a row, but those that are 0. The one error is want of memory.
///
/// Most rows' variables are basic, so no list of all coefficients is made.
pub(crate) fn named_coefficients(
    alloc: Global,
    numbers: &[u32],
    positions: &[Position],
    row: &[i64],
    denominator: i64,
) -> Result<Terms, AllocError>
    requires { pos 0 <ℤ denominator }
    ensures { IfOk result (λ m. m ≡ numbered numbers.now (coefficients (nat_abs denominator) positions.now row.now)) }
{
    let mut named = Terms::with_capacity(alloc, nonzero_count(positions, row))?;
    for (i, number) in numbers.iter().enumerate() {
        if i >= positions.len() {
            return Ok(named);
        }
        push_coefficient(&mut named, *number, positions[i], row, denominator)?;
    }
    Ok(named)
}
