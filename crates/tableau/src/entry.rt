// One coefficient of a row.

ghost use Rattle.std.specs.Prelude.{◌≡◌};

use fraction::Frac;
use std::marker::Model;

/// A variable with its coefficient in a row, seen as the pair of them.
#[derive(Drop)]
pub struct Entry {
    variable: u32,
    coefficient: Frac,
}

impl Model for Entry {
    ghost use Rattle.std.specs.Prelude.{ℕ};
    ghost use Rattle.std.specs.Coded.{coded×, coded_ℕ};
    ghost use Rattle.fraction.specs.Rational.{ℚ};
    ghost use Rattle.fraction.specs.Code.{code_ℚ};

    ghost Value = { ℕ × ℚ };

    ghost coded = { coded× coded_ℕ code_ℚ };

    ghost view = { λ e. (e.variable, e.coefficient) };
}

impl Entry {
    /// The entry of a variable and its coefficient.
    #[inline]
    pub(crate) fn make(variable: u32, coefficient: Frac) -> Entry
        ensures { result ≡ (variable, coefficient) }
    {
        Entry {
            variable,
            coefficient,
        }
    }

    /// The variable.
    #[inline]
    pub(crate) fn variable(&self) -> u32
        ensures { result ≡ self.now.0 }
    {
        self.variable
    }

    /// The variable, as the number of a place in a list.
    #[inline]
    pub fn index(&self) -> usize
        ensures { result ≡ self.now.0 }
    {
        self.variable as usize
    }

    /// The coefficient.
    #[inline]
    pub fn coefficient(&self) -> Frac
        ensures { result ≡ self.now.1 }
    {
        self.coefficient
    }
}
