//! The multipliers of rows and of cuts.

ghost use Rattle.std.specs.Prelude.{◌≡◌, ◌<◌, ◌+◌, ◌++◌, IfOk, OnOk, length, map};
ghost use Rattle.problem.specs.Linear.{Multipliers};
ghost use Rattle.derivation_book.specs.declared.cut.Cut.{Cut};
ghost use Rattle.derivation_book.specs.Known.{first_cut};
ghost use Rattle.tableau.specs.Elimination.{entry};
ghost use Rattle.tableau.specs.Multipliers.{with_multiplier};
ghost use Rattle.gomory_cuts.specs.Multipliers.{above_floor, below_ceiling, multiplier, row_multipliers};
ghost use Rattle.dual_simplex.specs.Sizes.{most_numbered_cuts};

use crate::sign::{Sign, signed};
use derivation_book::Book;
use fraction::Frac;
use problem::{Problem, Sense, Terms};
use std::alloc::{AllocError, Global};

/// The fractional part; none exactly where it is cramped.
fn above_floor(number: Frac) -> Option<Frac>
    ensures { result ≡ above_floor number }
{
    number.sub(Frac::of(number.floor()))
}

/// What is missing to the next whole number, with the sign -; none exactly where it is cramped.
fn below_ceiling(number: Frac) -> Option<Frac>
    ensures { result ≡ below_ceiling number }
{
    number.sub(Frac::of(number.ceil()))
}

/// The multiplier of a row whose variable has this coefficient; none exactly where it is cramped.
#[inline(always)]
fn multiplier(sign: Sign, sense: Sense, coefficient: Frac) -> Option<Frac>
    ensures { result ≡ multiplier sign sense coefficient }
{
    // That of a basic variable is 0, and most rows' variables are basic.
    if coefficient.numer() == 0 {
        return Some(coefficient);
    }
    multiplier_by_sense(sign, sense, coefficient)
}

/// The same by the row's sense.
#[inline(never)]
fn multiplier_by_sense(sign: Sign, sense: Sense, coefficient: Frac) -> Option<Frac>
    ensures { result ≡ multiplier sign sense coefficient }
{
    match sense {
        Sense::G => above_floor(signed(sign, coefficient)),
        Sense::L => below_ceiling(signed(sign, coefficient)),
        Sense::E => {
            let part = above_floor(coefficient)?;
            Some(signed(sign, part))
        }
    }
}

/// The coefficient of a variable in a row, 0 past its end.
fn entry(row: &[Frac], variable: usize) -> Frac
    ensures { result ≡ entry row.now variable }
{
    if variable < row.len() {
        row[variable]
    } else {
        Frac::of(0)
    }
}

/// Puts a number with its multiplier behind the others, unless this is 0. The one error is want of memory.
pub(crate) fn push_multiplier(
    multipliers: &mut Terms,
    number: u32,
    multiplier: Frac,
) -> Result<(), AllocError>
    ensures { OnOk result ((others : Multipliers) → multipliers.new ++ others ≡ multipliers.old ++ with_multiplier number multiplier others) }
{
    if multiplier.numer() != 0 {
        multipliers.push(number, multiplier)?;
    }
    Ok(())
}

/// The multipliers of the problem's rows from what stands behind the columns in a row of the tableau; none exactly where one is cramped. The one error
/// is want of memory.
pub(crate) fn of_rows(
    alloc: Global,
    problem: &Problem,
    sign: Sign,
    rest: &[Frac],
) -> Result<Option<Terms>, AllocError>
    ensures { IfOk result (λ o. o ≡ row_multipliers sign rest.now 0 0 problem.now.rows) }
{
    problem.limits_hold();
    let mut multipliers = Terms::with_capacity(alloc, problem.rows())?;
    for index in 0..problem.rows() {
        match multiplier(sign, problem.row(index).sense, entry(rest, index)) {
            Some(factor) => push_multiplier(&mut multipliers, index as u32, factor)?,
            None => return Ok(None),
        }
    }
    Ok(Some(multipliers))
}

/// The multipliers of a book's cuts from what stands behind the columns in a row of the tableau; none exactly where one is cramped. The one error is
/// want of memory.
pub(crate) fn of_cuts(
    alloc: Global,
    problem: &Problem,
    book: &Book,
    sign: Sign,
    rest: &[Frac],
) -> Result<Option<Terms>, AllocError>
    requires { length book.now.cuts < most_numbered_cuts }
    ensures { IfOk result (λ o. o ≡ row_multipliers sign rest.now (length problem.now.rows) (first_cut problem.now) (map (λ (c : Cut). c.row) book.now.cuts)) }
{
    problem.limits_hold();
    let variable = problem.rows();
    let number = variable + 2 * problem.columns();
    let mut multipliers = Terms::with_capacity(alloc, book.len())?;
    for index in 0..book.len() {
        match multiplier(sign, book.cut(index).sense, entry(rest, variable + index)) {
            Some(factor) => push_multiplier(&mut multipliers, (number + index) as u32, factor)?,
            None => return Ok(None),
        }
    }
    Ok(Some(multipliers))
}
