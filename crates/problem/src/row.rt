// Rows of an integer program.
ghost use Rattle.std.specs.Prelude.{◌≡◌, ◌<◌, ◌↔◌, IsTrue, IfOk, All, length};
ghost use Rattle.fraction.specs.Rational.{◌≤ℚ◌};
ghost use Rattle.problem.specs.Rows.{Satisfies};
ghost use Rattle.problem.specs.Modest.{AreModest, IsModestPoint};
ghost use Rattle.problem.specs.Rising.{AreRising, AreNonzero};

use crate::terms::Terms;
use fraction::Frac;
use std::alloc::{AllocError, Global};
use std::cmp::Ordering;

/// How a value stands to the right side of a row.
#[derive(Clone, Copy, Debug, PartialEq, Eq)]
pub enum Sense {
    /// at least
    G,
    /// at most
    L,
    /// equal
    E,
}

/// A row: its terms' value stands to its right side as its sense says.
#[derive(Drop)]
pub struct Row {
    pub sense: Sense,
    pub rhs: Frac,
    pub terms: Terms,
}

/// Whether a number is at most another.
fn is_at_most(a: Frac, b: Frac) -> bool
    ensures { IsTrue result ↔ (a ≤ℚ b) }
{
    match a.cmp(b) {
        Ordering::Greater => false,
        _ => true,
    }
}

impl Row {
    /// The row of these parts. Its columns rise, and no coefficient is zero.
    pub fn make(sense: Sense, rhs: Frac, terms: Terms) -> Row
        requires rising { AreRising terms }
        requires nonzero { AreNonzero terms }
        ensures { result ≡ record { sense = sense; rhs = rhs; terms = terms } }
    {
        Row { sense, rhs, terms }
    }

    /// An equal row. The one error is want of memory.
    pub fn copy(&self, alloc: Global) -> Result<Row, AllocError>
        ensures { IfOk result (λ r. r ≡ self.now) }
    {
        let terms = self.terms.copy(alloc)?;
        Ok(Row {
            sense: self.sense,
            rhs: self.rhs,
            terms,
        })
    }

    /// Whether a point that has each column satisfies the row, where the coefficients and the numbers are modest.
    pub fn is_satisfied(&self, point: &[i64]) -> bool
        requires columns { All (λ t. t.0 < length point.now) self.now.terms }
        requires modest { AreModest self.now.terms }
        requires modest_point { IsModestPoint point.now }
        ensures { IsTrue result ↔ Satisfies point.now self.now }
    {
        let value = self.terms.value(point);
        match self.sense {
            Sense::G => is_at_most(self.rhs, value),
            Sense::L => is_at_most(value, self.rhs),
            Sense::E => fraction::same(value, self.rhs),
        }
    }
}
