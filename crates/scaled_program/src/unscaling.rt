// Numbers of a scaled tableau, read as those of the program itself.

ghost use Rattle.std.specs.Prelude.{◌≡◌, ◌+◌, ◌*◌, ◌^◌, ◌<◌, ◌≤◌, nat_abs, length, IfOk};
ghost use Rattle.integer_tableau.specs.Range.{size_limit};
ghost use Rattle.integer_tableau.specs.Scales.{AreScalesTo, scale_at, scaled_by, unscaled_row};
ghost use Rattle.scaled_program.specs.Sizes.{AreSmallTimes};

use crate::scales::Scales;
use fraction::Frac;
use std::alloc::{AllocError, Global};

/// So many times a number, over a unit.
fn scaled_by(number: Frac, times: u64, unit: u64) -> Frac
    requires positive { 0 < unit }
    requires numerator { nat_abs number.num * times ≤ size_limit }
    requires denominator { number.den * unit < size_limit }
    ensures { result ≡ scaled_by times unit number }
{
    let numerator = number.numer() * i128::from(times);
    let denominator = number.denom() * u128::from(unit);
    Frac::make(numerator, denominator.cast_signed())
}

/// The numbers of the variables from `first` on in a row that is `unit` times the program's own. Of all variables, those of so many columns come
/// first, and then those of rows' variables. The one error is want of memory.
pub(crate) fn unscaled_row(
    alloc: Global,
    numbers: &[Frac],
    first: usize,
    columns: usize,
    scales: &Scales,
    unit: u64,
) -> Result<Vec<Frac>, AllocError>
    requires positive { 0 < unit }
    requires unit_small { unit ≤ scales.now.greatest }
    requires scales { AreScalesTo scales.now.greatest scales.now.rows.items.value.items scales.now.costs }
    requires small { AreSmallTimes scales.now.greatest numbers.now }
    requires few { first + length numbers.now < 2 ^ 64 }
    ensures { IfOk result (λ v. v.items ≡ unscaled_row (scale_at columns scales.now.rows.items.value.items) unit first numbers.now) }
{
    let mut all = Vec::with_capacity(alloc, numbers.len())?;
    for (i, number) in numbers.iter().enumerate() {
        all.push(scaled_by(*number, scales.of(first + i, columns), unit))?;
    }
    Ok(all)
}
