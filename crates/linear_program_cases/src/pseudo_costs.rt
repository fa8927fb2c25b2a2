// Gains of children over their parents, and the columns that pseudo-costs choose.

ghost use Rattle.std.specs.Prelude.{◌≡◌, ◌<◌, All, length};

use anyhow::Result;
use fraction::Frac;
use pseudo_cost::{Costs, LARGEST_GAIN, Side, gain};
use std::alloc::Global;
use std::io;

/// Prints the gain of a child's value over its parent's.
fn show_gain<R: Print>(rt: &R, value: Frac, parent: Frac) -> io::Result<()> {
    let gain = gain(value, parent);
    println!(rt; "pseudo-cost gain of {value} over {parent}: {gain:?}")
}

/// Prints which of some columns is chosen.
fn show_choice<R: Print>(rt: &R, costs: &Costs, columns: &[usize]) -> io::Result<()>
    requires some { 0 < length columns.now }
    requires there { All (λ j. j < length costs.now) columns.now }
{
    let column = costs.choose(columns);
    println!(rt; "pseudo-cost choice of {columns:?}: {column}")
}

/// Prints gains.
fn show_gains<R: Print>(rt: &R) -> io::Result<()> {
    show_gain(rt, Frac::make(7, 2), Frac::of(3))?;
    show_gain(rt, Frac::make(1, 3), Frac::of(0))?;
    show_gain(rt, Frac::of(3), Frac::make(7, 2))?;
    show_gain(rt, Frac::of(10_000_000), Frac::of(0))?;
    show_gain(rt, Frac::of(1 << 126), Frac::of(0))
}

/// Prints choices of columns between notes.
fn show_choices<R: Print>(rt: &R, costs: &mut Costs) -> Result<()>
    requires { length costs.old ≡ 4 }
{
    costs.note(0, Side::Down, 5);
    costs.note(0, Side::Up, 3);
    costs.note(1, Side::Down, 9);
    show_choice(rt, costs, &[1, 2, 0])?;
    show_choice(rt, costs, &[2, 3])?;
    costs.note(0, Side::Down, 0);
    costs.note(0, Side::Down, 0);
    show_choice(rt, costs, &[0, 1])?;
    costs.note(3, Side::Up, LARGEST_GAIN);
    Ok(show_choice(rt, costs, &[0, 1, 2, 3])?)
}

/// Prints gains, and choices of four columns.
pub(crate) fn show<R: Print + Alloc<A = Global>>(rt: &R) -> Result<()> {
    show_gains(rt)?;
    let mut costs = Costs::make(rt.alloc(), 4)?;
    show_choices(rt, &mut costs)
}
