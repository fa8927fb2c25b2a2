// Multipliers of rows.
ghost use Rattle.std.specs.Prelude.{◌≡◌, ◌↔◌, [], ◌∷◌, pos, IsTrue, IfOk, length};
ghost use Rattle.fraction.specs.Rational.{whole};
ghost use Rattle.problem.specs.Rising.{AreRising, AreNonzero};

use fraction::Frac;
use problem::{Term, Terms};
use std::alloc::{AllocError, Global};
use std::marker::Model;

/// Numbers of rows with their factors, seen as a list of pairs. The numbers rise, and no factor is 0.
#[derive(Drop)]
pub struct Mult {
    terms: Terms,
}

impl Model for Mult {
    ghost use Rattle.std.specs.Prelude.{List, ℕ};
    ghost use Rattle.std.specs.Coded.{coded_list, coded×, coded_ℕ};
    ghost use Rattle.fraction.specs.Rational.{ℚ};
    ghost use Rattle.fraction.specs.Code.{code_ℚ};
    ghost use Rattle.problem.specs.Rising.{AreRising, AreNonzero};

    ghost Value = { List (ℕ × ℚ) };

    ghost coded = { coded_list (coded× coded_ℕ code_ℚ) };

    ghost view = { λ m. m.terms };

    ghost invariant = { λ m. AreRising m.terms × AreNonzero m.terms };
}

impl Mult {
    /// The multipliers of these terms, the number of a row standing in the place of a column. The numbers rise, and no factor is 0.
    pub fn make(terms: Terms) -> Mult
        requires rising { AreRising terms }
        requires nonzero { AreNonzero terms }
        ensures { result ≡ terms }
    {
        Mult { terms }
    }

    /// No multipliers.
    pub fn none(alloc: Global) -> Mult
        ensures { result ≡ [] }
    {
        Mult {
            terms: Terms::new(alloc),
        }
    }

    /// One row with its factor, which is not 0. The one error is want of memory.
    pub fn single(alloc: Global, row: u32, factor: Frac) -> Result<Mult, AllocError>
        requires { factor ≡ whole (pos 0) → ⊥ }
        ensures { IfOk result (λ m. m ≡ (row, factor) ∷ []) }
    {
        let mut terms = Terms::new(alloc);
        terms.push(row, factor)?;
        Ok(Mult { terms })
    }

    /// How many rows are named.
    pub fn len(&self) -> usize
        ensures { result ≡ length self.now }
    {
        self.terms.len()
    }

    /// Whether no row is named.
    pub fn is_empty(&self) -> bool
        ensures { IsTrue result ↔ (length self.now ≡ 0) }
    {
        self.terms.len() == 0
    }

    /// The rows with their factors, by rising number.
    pub fn as_slice(&self) -> &[Term]
        ensures items { result.now ≡ self.now }
        ensures rising { AreRising self.now }
        ensures nonzero { AreNonzero self.now }
    {
        self.terms.as_slice()
    }

    /// The same as terms, the number of a row standing in the place of a column.
    pub fn terms(&self) -> &Terms
        ensures { result.now ≡ self.now }
    {
        &self.terms
    }

    /// Equal multipliers. The one error is want of memory.
    pub fn copy(&self, alloc: Global) -> Result<Mult, AllocError>
        ensures { IfOk result (λ m. m ≡ self.now) }
    {
        let terms = self.terms.copy(alloc)?;
        Ok(Mult { terms })
    }
}
