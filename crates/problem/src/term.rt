//! A column with its coefficient.

ghost use Rattle.std.specs.Prelude.{◌≡◌, IfOk};
ghost use Rattle.fraction.specs.Narrow.{narrow_integer};

use fraction::{Frac, NarrowFrac};
use std::alloc::{AllocError, Global};
use std::marker::Model;

/// A column with its coefficient, seen as the pair of them.
///
/// Tables have many terms, and nearly all coefficients fit into 64 bits: such a term takes 24 bytes. A wider coefficient lies apart
/// (docs/DECISIONS.md, entry 24).
#[derive(Drop)]
pub struct Term {
    form: Form,
}

/// How the coefficient is kept.
#[derive(Drop)]
enum Form {
    Narrow {
        column: u32,
        coefficient: NarrowFrac,
    },
    Wide {
        column: u32,
        coefficient: Box<Frac>,
    },
}

const _: () = prove!(size_of::<Term>() == 24);

impl Model for Term {
    ghost use Rattle.std.specs.Prelude.{ℕ};
    ghost use Rattle.std.specs.Coded.{coded×, coded_ℕ};
    ghost use Rattle.fraction.specs.Rational.{ℚ};
    ghost use Rattle.fraction.specs.Code.{code_ℚ};

    ghost Value = { ℕ × ℚ };

    ghost coded = { coded× coded_ℕ code_ℚ };

    ghost use Rattle.problem.specs.Forms.{pair_of, IsNarrowWhereItFits};

    ghost view = { λ t. pair_of t.form };

    ghost invariant = { λ t. IsNarrowWhereItFits t.form };
}

impl Term {
    /// The term of a column and its coefficient. The one error is want of memory.
    pub fn make(alloc: Global, column: u32, coefficient: Frac) -> Result<Term, AllocError>
        ensures { IfOk result (λ t. t ≡ (column, coefficient)) }
    {
        let form = match coefficient.narrow() {
            Some(coefficient) => Form::Narrow {
                column,
                coefficient,
            },
            None => Form::Wide {
                column,
                coefficient: Box::new(alloc, coefficient)?,
            },
        };
        Ok(Term { form })
    }

    /// An equal term. The one error is want of memory.
    pub fn copy(&self, alloc: Global) -> Result<Term, AllocError>
        ensures { IfOk result (λ t. t ≡ self.now) }
    {
        let form = match &self.form {
            Form::Narrow {
                column,
                coefficient,
            } => Form::Narrow {
                column: *column,
                coefficient: *coefficient,
            },
            Form::Wide {
                column,
                coefficient,
            } => Form::Wide {
                column: *column,
                coefficient: Box::new(alloc, **coefficient)?,
            },
        };
        Ok(Term { form })
    }

    /// The column.
    #[inline]
    pub fn column(&self) -> u32
        ensures { result ≡ self.now.0 }
    {
        match &self.form {
            Form::Narrow { column, .. } => *column,
            Form::Wide { column, .. } => *column,
        }
    }

    /// The coefficient.
    #[inline]
    pub fn coefficient(&self) -> Frac
        ensures { result ≡ self.now.1 }
    {
        match &self.form {
            Form::Narrow { coefficient, .. } => coefficient.wide(),
            Form::Wide { coefficient, .. } => **coefficient,
        }
    }

    /// The coefficient, where it is a whole number and its size is below 2^63.
    #[inline(always)]
    pub fn integer(&self) -> Option<i64>
        ensures { result ≡ narrow_integer self.now.1 }
    {
        match &self.form {
            Form::Narrow { coefficient, .. } => coefficient.integer(),
            Form::Wide { .. } => None,
        }
    }

    /// The column and the coefficient.
    #[inline]
    pub fn pair(&self) -> (u32, Frac)
        ensures { result ≡ self.now }
    {
        (self.column(), self.coefficient())
    }
}
