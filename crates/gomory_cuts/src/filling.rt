//! The multipliers of bound rows, which make coefficients whole.

ghost use Rattle.std.specs.Prelude.{◌≡◌, ◌<◌, ◌≤◌, ◌+◌, ◌*◌, ◌^◌, IfOk, length};
ghost use Rattle.gomory_cuts.specs.Multipliers.{filling, bound_number, fillings};

use crate::multiplier::push_multiplier;
use dual_simplex::FinalTableau;
use fraction::Frac;
use problem::Terms;
use std::alloc::{AllocError, Global};
use tableau::BasisStatus;

/// The multiplier of a bound row that makes a coefficient whole; none exactly where it is cramped.
fn filling(status: BasisStatus, coefficient: Frac) -> Option<Frac>
    ensures { result ≡ filling status coefficient }
{
    if coefficient.denom() == 1 {
        return Some(Frac::of(0));
    }
    match status {
        BasisStatus::AtUpper => Frac::of(coefficient.floor()).sub(coefficient),
        BasisStatus::AtLower | BasisStatus::Basic => {
            Frac::of(coefficient.ceil()).sub(coefficient)
        }
    }
}

/// The number of that bound row, where the first one of column 0 has the number `first`.
fn bound_number(first: u32, column: u32, status: BasisStatus) -> u32
    requires { first + 2 * column + 1 < 2 ^ 32 }
    ensures { result ≡ bound_number first column status }
{
    match status {
        BasisStatus::AtUpper => first + 2 * column + 1,
        BasisStatus::AtLower | BasisStatus::Basic => first + 2 * column,
    }
}

/// The multipliers of bound rows that make these coefficients whole, column 0 first; none exactly where one is cramped. The one error is want of
/// memory.
pub(crate) fn fillings(
    alloc: Global,
    tableau: &FinalTableau,
    first: u32,
    coefficients: &[Frac],
) -> Result<Option<Terms>, AllocError>
    requires numbered { first + 2 * length coefficients.now < 2 ^ 32 }
    requires there { length coefficients.now ≤ length tableau.now.statuses }
    ensures { IfOk result (λ o. o ≡ fillings first tableau.now 0 coefficients.now) }
{
    let mut multipliers = Terms::with_capacity(alloc, coefficients.len())?;
    for (column, coefficient) in coefficients.iter().enumerate() {
        let status = tableau.status(column);
        match filling(status, *coefficient) {
            Some(factor) => push_multiplier(
                &mut multipliers,
                bound_number(first, column as u32, status),
                factor,
            )?,
            None => return Ok(None),
        }
    }
    Ok(Some(multipliers))
}
