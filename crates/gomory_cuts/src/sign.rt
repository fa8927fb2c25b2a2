//! The sign with which a row of the tableau is taken.

ghost use Rattle.std.specs.Prelude.{◌≡◌};
ghost use Rattle.gomory_cuts.specs.Multipliers.{signed};

use fraction::Frac;

/// The sign with which a row of the tableau is taken.
#[derive(Clone, Copy)]
pub(crate) enum Sign {
    /// As it is.
    Plus,
    /// Times -1.
    Minus,
}

/// The number with this sign.
pub(crate) fn signed(sign: Sign, number: Frac) -> Frac
    ensures { result ≡ signed sign number }
{
    match sign {
        Sign::Plus => number,
        Sign::Minus => number.neg(),
    }
}
