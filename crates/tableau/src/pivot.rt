// Pivots.

ghost use Rattle.std.specs.Prelude.{◌≡◌, ◌<◌, ◌+◌, ◌^◌, length, IsTrue, OnOk, OnErr, IfOk, MatchBool, Some, None};
ghost use Rattle.tableau.specs.Pivot.{eliminated, basis_exchanged, revalued, exchanged, pivoted};

use crate::bounds::Direction;
use crate::elimination::eliminate;
use crate::status::BasisStatus;
use crate::tableau::Tableau;
use crate::values::compute_values;
use fraction::Frac;
use std::alloc::{AllocError, Global};

impl Tableau {
    /// Takes variable `row` out of the basis, to the bound that it violates, and variable `column` into it; false where an operation is
    /// cramped, after which the number of pivots alone is told. A place asks for no pivot that is false for another reason: that `row`
    /// violates no bound, or has no coefficient of `column`. The one error is want of memory, after which the tableau is as before.
    pub fn pivot(&mut self, alloc: Global, row: usize, column: usize) -> Result<bool, AllocError>
        requires row_there { row < length self.old.statuses }
        requires column_there { column < length self.old.statuses }
        requires room { self.old.pivots + 1 < 2 ^ 64 }
        ensures value { IfOk result (λ b. MatchBool b (pivoted row column self.old ≡ Some self.new) ((pivoted row column self.old ≡ None) × (self.new.pivots ≡ self.old.pivots))) }
        ensures counted { IfOk result (λ b. IsTrue b → self.new.pivots ≡ self.old.pivots + 1) }
        ensures unchanged { OnErr result (self.new ≡ self.old) }
    {
        match self.bounds[row].violation(self.values[row]) {
            Some(direction) => self.exchange(alloc, row, column, direction),
            None => Ok(false),
        }
    }

    /// The same for a variable that is to go in this direction.
    fn exchange(
        &mut self,
        alloc: Global,
        row: usize,
        column: usize,
        direction: Direction,
    ) -> Result<bool, AllocError>
        requires row_there { row < length self.old.statuses }
        requires column_there { column < length self.old.statuses }
        requires room { self.old.pivots + 1 < 2 ^ 64 }
        ensures value { IfOk result (λ b. MatchBool b (exchanged row column direction self.old ≡ Some self.new) ((exchanged row column direction self.old ≡ None) × (self.new.pivots ≡ self.old.pivots))) }
        ensures counted { IfOk result (λ b. IsTrue b → self.new.pivots ≡ self.old.pivots + 1) }
        ensures unchanged { OnErr result (self.new ≡ self.old) }
    {
        if !self.eliminate(alloc, row, column)? {
            return Ok(false);
        }
        self.exchange_basis(row, column, direction);
        Ok(self.revalue())
    }

    /// Solves row `row` for `column`, and substitutes this in each other row and in the reduced costs; false exactly where this is cramped.
    fn eliminate(&mut self, alloc: Global, row: usize, column: usize) -> Result<bool, AllocError>
        requires { row < length self.old.statuses }
        ensures value { IfOk result (λ b. MatchBool b (eliminated row column self.old ≡ Some self.new) (eliminated row column self.old ≡ None)) }
        ensures statuses { self.new.statuses ≡ self.old.statuses }
        ensures pivots { self.new.pivots ≡ self.old.pivots }
        ensures unchanged { OnErr result (self.new ≡ self.old) }
    {
        eliminate(
            alloc,
            &mut self.rows,
            &mut self.reduced_costs,
            row,
            column,
            &mut self.work,
        )
    }

    /// Puts variable `column` into the basis in place of variable `row`.
    fn exchange_basis(&mut self, row: usize, column: usize, direction: Direction)
        requires row_there { row < length self.old.statuses }
        requires column_there { column < length self.old.statuses }
        ensures { self.new ≡ basis_exchanged row column direction self.old }
    {
        self.rows.swap(row, column);
        self.statuses[row] = BasisStatus::after(direction);
        self.statuses[column] = BasisStatus::Basic;
        self.nonbasic_values[row] = self.bounds[row].violated(direction);
        self.nonbasic_values[column] = Frac::of(0);
    }

    /// Computes the values anew; false exactly where one is cramped.
    fn revalue(&mut self) -> bool
        requires { self.old.pivots + 1 < 2 ^ 64 }
        ensures value { MatchBool result (revalued self.old ≡ Some self.new) ((revalued self.old ≡ None) × (self.new.pivots ≡ self.old.pivots)) }
        ensures counted { IsTrue result → self.new.pivots ≡ self.old.pivots + 1 }
    {
        if compute_values(
            &mut self.values,
            &self.statuses,
            &self.nonbasic_values,
            &self.rows,
        ) {
            self.pivots += 1;
            true
        } else {
            false
        }
    }
}
