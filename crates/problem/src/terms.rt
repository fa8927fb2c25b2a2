// Columns with their coefficients.
ghost use Rattle.std.specs.Prelude.{◌≡◌, ◌<◌, ◌↔◌, ◌++◌, ◌∷◌, [], IsTrue, IfOk, OnOk, OnErr, All, length};
ghost use Rattle.problem.specs.Directions.{directed, negated};
ghost use Rattle.problem.specs.Linear.{value};
ghost use Rattle.problem.specs.Checked.{add_product, checked_value};
ghost use Rattle.problem.specs.Modest.{AreModest, IsModestPoint};
ghost use Rattle.fraction.specs.Whole.{IsWhole};

use crate::objective_sense::ObjectiveSense;
use crate::term::Term;
use fraction::Frac;
use std::alloc::{AllocError, Global};
use std::marker::Model;

/// Columns with their coefficients, seen as a list of pairs.
#[derive(Drop)]
pub struct Terms {
    items: Vec<Term>,
}

impl Model for Terms {
    ghost use Rattle.std.specs.Prelude.{List, ℕ};
    ghost use Rattle.std.specs.Coded.{coded_list, coded×, coded_ℕ};
    ghost use Rattle.fraction.specs.Rational.{ℚ};
    ghost use Rattle.fraction.specs.Code.{code_ℚ};

    ghost Value = { List (ℕ × ℚ) };

    ghost coded = { coded_list (coded× coded_ℕ code_ℚ) };

    ghost view = { λ t. t.items.items };
}

/// The sum with one more term, unless it is cramped.
fn add_product(total: Frac, coefficient: Frac, number: i64) -> Option<Frac>
    ensures { result ≡ add_product total coefficient number }
{
    let product = coefficient.mul(Frac::of(number as i128))?;
    total.add(product)
}

impl Terms {
    /// No terms.
    pub fn new(alloc: Global) -> Terms
        ensures { result ≡ [] }
    {
        Terms {
            items: Vec::new(alloc),
        }
    }

    /// No terms, with room for so many. The one error is want of memory.
    pub fn with_capacity(alloc: Global, room: usize) -> Result<Terms, AllocError>
        ensures { IfOk result (λ t. t ≡ []) }
    {
        let items = Vec::with_capacity(alloc, room)?;
        Ok(Terms { items })
    }

    /// The terms of these pairs of a column and its coefficient. The one error is want of memory.
    pub fn make(alloc: Global, pairs: &[(u32, Frac)]) -> Result<Terms, AllocError>
        ensures { IfOk result (λ t. t ≡ pairs.now) }
    {
        let mut items = Vec::with_capacity(alloc, pairs.len())?;
        for pair in pairs {
            items.push(Term::make(alloc, pair.0, pair.1)?)?;
        }
        Ok(Terms { items })
    }

    /// Puts a term behind the others. The one error is want of memory, after which the terms are as before.
    pub fn push(&mut self, column: u32, coefficient: Frac) -> Result<(), AllocError>
        ensures ok { OnOk result (self.new ≡ self.old ++ (column, coefficient) ∷ []) }
        ensures err { OnErr result (self.new ≡ self.old) }
    {
        let term = Term::make(*self.items.allocator(), column, coefficient)?;
        // A problem has many lists of terms, so each takes little more room than it needs.
        if self.items.len() == self.items.capacity() {
            self.items.reserve_exact(self.items.len() / 4 + 1)?;
        }
        self.items.push(term)?;
        Ok(())
    }

    /// How many terms there are.
    pub fn len(&self) -> usize
        ensures { result ≡ length self.now }
    {
        self.items.len()
    }

    /// The terms.
    pub fn as_slice(&self) -> &[Term]
        ensures { result.now ≡ self.now }
    {
        self.items.as_slice()
    }

    /// Equal terms. The one error is want of memory.
    pub fn copy(&self, alloc: Global) -> Result<Terms, AllocError>
        ensures { IfOk result (λ t. t ≡ self.now) }
    {
        let mut items = Vec::with_capacity(alloc, self.items.len())?;
        for term in &self.items {
            items.push(term.copy(alloc)?)?;
        }
        Ok(Terms { items })
    }

    /// The terms with each coefficient negated. The one error is want of memory.
    pub fn negated(&self, alloc: Global) -> Result<Terms, AllocError>
        ensures { IfOk result (λ t. t ≡ negated self.now) }
    {
        let mut items = Vec::with_capacity(alloc, self.items.len())?;
        for term in &self.items {
            items.push(Term::make(alloc, term.column(), term.coefficient().neg())?)?;
        }
        Ok(Terms { items })
    }

    /// These terms, negated where the objective is maximised. The one error is want of memory.
    pub fn directed(self, alloc: Global, sense: ObjectiveSense) -> Result<Terms, AllocError>
        ensures { IfOk result (λ t. t ≡ directed sense self) }
    {
        match sense {
            ObjectiveSense::Minimise => Ok(self),
            ObjectiveSense::Maximise => self.negated(alloc),
        }
    }

    /// Whether each coefficient is a whole number.
    pub fn are_whole(&self) -> bool
        ensures { IsTrue result ↔ All (λ t. IsWhole t.1) self.now }
    {
        all_whole(&self.items)
    }

    /// The sum of coefficient times number, from 0 and in order; none exactly where a product or a sum on the way is cramped.
    pub fn checked_value(&self, point: &[i64]) -> Option<Frac>
        requires { All (λ t. t.0 < length point.now) self.now }
        ensures { result ≡ checked_value self.now point.now }
    {
        let mut total = Frac::of(0);
        for term in &self.items {
            total = add_product(total, term.coefficient(), point[term.column() as usize])?;
        }
        Some(total)
    }

    /// The sum of coefficient times number at a point that has each column, where the coefficients and the numbers are modest.
    pub fn value(&self, point: &[i64]) -> Frac
        requires columns { All (λ t. t.0 < length point.now) self.now }
        requires modest { AreModest self.now }
        requires modest_point { IsModestPoint point.now }
        ensures { result ≡ value self.now point.now }
    {
        match self.checked_value(point) {
            Some(value) => value,
            None => Frac::of(0),
        }
    }
}

/// Whether each coefficient is a whole number.
fn all_whole(items: &[Term]) -> bool
    ensures { IsTrue result ↔ All (λ t. IsWhole t.1) items.now }
{
    for item in items {
        if !item.coefficient().is_whole() {
            return false;
        }
    }
    true
}
