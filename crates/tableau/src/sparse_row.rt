// Rows that keep the coefficients alone that aren't 0.

ghost use Rattle.std.specs.Prelude.{◌≡◌, ◌<◌, ◌≤◌, ◌+◌, ◌^◌, ◌++◌, [], negsuc, nat_abs, length, drop, slice_set, All, IfOk, OnOk, MatchBool, Some, None};
ghost use Rattle.std.specs.Option.{option_map};
ghost use Rattle.problem.specs.Linear.{Terms as Pairs};
ghost use Rattle.fraction.specs.Rational.{ℚ, whole};
ghost use Rattle.fraction.specs.Fits.{FitsFraction};
ghost use Rattle.fraction.specs.Checked.{dot_checked};
ghost use Rattle.problem.specs.Rising.{AreRising};
ghost use Rattle.tableau.specs.Elimination.{zero_ℚ, entry, add_multiple, substituted, negative_quotients, solved_for};
ghost use Rattle.tableau.specs.LinearProgram.{coefficients_from};
ghost use Rattle.tableau.specs.Start.{padded};
ghost use Rattle.tableau.specs.Sparse.{IsSparse, HasFraction, nonzeros, without, own_entry, first_coefficient};
ghost use Rattle.tableau.specs.SparseSteps.{Continues, sum_over_entries, entry_quotients};

use crate::entries::{Entries, front, rest};
use crate::entry::Entry;
use crate::multiple::{add_multiple, is_zero};
use fraction::Frac;
use problem::Terms;
use std::alloc::{AllocError, Global};
use std::marker::Model;

/// The coefficients of a row, seen as the list of all of them.
///
/// The row keeps those alone that aren't 0, by rising variable: an operation with a 0 changes nothing and is never cramped.
#[derive(Drop)]
pub(crate) struct SparseRow {
    width: usize,
    entries: Entries,
}

impl Model for SparseRow {
    ghost use Rattle.std.specs.Prelude.{List};
    ghost use Rattle.std.specs.Coded.{coded_list};
    ghost use Rattle.fraction.specs.Rational.{ℚ};
    ghost use Rattle.fraction.specs.Code.{code_ℚ};
    ghost use Rattle.tableau.specs.LinearProgram.{coefficients_from};
    ghost use Rattle.tableau.specs.Sparse.{IsSparse};

    ghost Value = { List ℚ };

    ghost coded = { coded_list code_ℚ };

    ghost view = { λ r. coefficients_from 0 r.width r.entries };

    ghost invariant = { λ r. IsSparse r.width r.entries };
}

/// The coefficient of a variable among entries that rise, 0 where it has none.
fn coefficient_in(entries: &[Entry], position: usize, variable: usize) -> Frac
    requires { position ≤ length entries.now }
    ensures { result ≡ first_coefficient variable (drop position entries.now) }
{
    if position < entries.len() && entries[position].index() == variable {
        entries[position].coefficient()
    } else {
        Frac::of(0)
    }
}

/// The value at a place, 0 past the end.
fn value_at(values: &[Frac], place: usize) -> Frac
    ensures { result ≡ entry values.now place }
{
    if place < values.len() {
        values[place]
    } else {
        Frac::of(0)
    }
}

/// The sum with an entry's coefficient times its variable's value; none exactly where this is cramped.
fn add_product(sum: Frac, term: &Entry, values: &[Frac]) -> Option<Frac>
    ensures { result ≡ add_multiple term.now.1 sum (entry values.now term.now.0) }
{
    sum.limits_hold();
    let value = value_at(values, term.index());
    if is_zero(value) {
        return Some(sum);
    }
    add_multiple(term.coefficient(), sum, value)
}

/// The sum from 0 of coefficient times value; none exactly where a product or a sum is cramped.
fn sum_over(entries: &[Entry], values: &[Frac]) -> Option<Frac>
    ensures { result ≡ sum_over_entries zero_ℚ entries.now values.now }
{
    let mut sum = Frac::of(0);
    for entry in entries {
        sum = add_product(sum, entry, values)?;
    }
    Some(sum)
}

impl SparseRow {
    /// A row without coefficients.
    pub(crate) fn empty(alloc: Global) -> SparseRow
        ensures { result ≡ [] }
    {
        SparseRow {
            width: 0,
            entries: Entries::new(alloc),
        }
    }

    /// The coefficients of terms, whose columns rise, in so many columns. The one error is want of memory.
    pub(crate) fn of_terms(
        alloc: Global,
        width: usize,
        terms: &Terms,
    ) -> Result<SparseRow, AllocError>
        requires { AreRising terms.now }
        ensures { IfOk result (λ r. r ≡ coefficients_from 0 width terms.now) }
    {
        let mut entries = Entries::new(alloc);
        entries.push_terms(width, terms.as_slice())?;
        Ok(SparseRow { width, entries })
    }

    /// The row of these coefficients. The one error is want of memory.
    pub(crate) fn of_coefficients(
        alloc: Global,
        coefficients: &[Frac],
    ) -> Result<SparseRow, AllocError>
        requires { length coefficients.now < 2 ^ 32 }
        ensures { IfOk result (λ r. r ≡ coefficients.now) }
    {
        let width = coefficients.len();
        let mut entries = Entries::new(alloc);
        entries.push_nonzeros(coefficients)?;
        Ok(SparseRow { width, entries })
    }

    /// How many coefficients there are, with those that are 0.
    pub(crate) fn width(&self) -> usize
        ensures { result ≡ length self.now }
    {
        self.width
    }

    /// Puts zeros behind the coefficients.
    pub(crate) fn pad(&mut self, zeros: usize)
        requires { length self.old + zeros < 2 ^ 64 }
        ensures { self.new ≡ padded zeros self.old }
    {
        self.width += zeros;
    }

    /// The coefficient of a variable, 0 past the row's end.
    pub(crate) fn coefficient(&self, variable: usize) -> Frac
        ensures { result ≡ entry self.now variable }
    {
        let position = self.entries.position(variable);
        coefficient_in(self.entries.as_slice(), position, variable)
    }

    /// Each coefficient keeps to the limits of fractions. This computes nothing: its contract is for callers' proofs.
    pub(crate) fn limits_hold(&self)
        ensures { All FitsFraction self.now }
    {
        let _width = self.width;
    }

    /// The variables with their coefficients that aren't 0.
    pub(crate) fn entries(&self) -> &[Entry]
        ensures { result.now ≡ nonzeros 0 self.now }
    {
        self.entries.as_slice()
    }

    /// All coefficients. The one error is want of memory.
    pub(crate) fn dense(&self, alloc: Global) -> Result<Vec<Frac>, AllocError>
        ensures { IfOk result (λ v. v.items ≡ self.now) }
    {
        self.dense_from(alloc, 0)
    }

    /// The coefficients of the variables from `first` on. The one error is want of memory.
    pub(crate) fn dense_from(&self, alloc: Global, first: usize) -> Result<Vec<Frac>, AllocError>
        ensures { IfOk result (λ v. v.items ≡ drop first self.now) }
    {
        let width = self.width();
        let mut coefficients = Vec::with_capacity(alloc, width.saturating_sub(first))?;
        for variable in first..width {
            coefficients.push(self.coefficient(variable))?;
        }
        Ok(coefficients)
    }

    /// The sum from 0 of coefficient times value; none exactly where a product or a sum is cramped.
    pub(crate) fn value_over(&self, values: &[Frac]) -> Option<Frac>
        ensures { result ≡ dot_checked self.now values.now }
    {
        sum_over(self.entries.as_slice(), values)
    }

    /// Makes this the row of so many coefficients with copies of these entries, in room of its own that fits them (docs/DECISIONS.md, entry 90). The
    /// one error is want of memory; the row is empty then.
    fn set(&mut self, width: usize, entries: &Entries) -> Result<(), AllocError>
        requires { IsSparse width entries.now }
        ensures { OnOk result (self.new ≡ coefficients_from 0 width entries.now) }
    {
        match self.entries.copy_from(entries) {
            Ok(()) => {
                self.width = width;
                Ok(())
            }
            Err(error) => {
                self.width = 0;
                self.entries.clear();
                Err(error)
            }
        }
    }

    /// Makes another row of this one, in which a variable is substituted by what the source says of it; false exactly where this is cramped.
    /// The one error is want of memory.
    pub(crate) fn substitute_into(
        &self,
        variable: usize,
        source: &SparseRow,
        spare: &mut Entries,
        into: &mut SparseRow,
    ) -> Result<bool, AllocError>
        ensures { IfOk result (λ b. let row = substituted variable source.now self.now in MatchBool b (row ≡ Some into.new) (row ≡ None)) }
    {
        let factor = self.coefficient(variable);
        spare.clear();
        if !spare.push_merged(
            self.width,
            self.entries.as_slice(),
            variable,
            factor,
            source.entries.as_slice(),
        )? {
            return Ok(false);
        }
        into.set(self.width, spare)?;
        Ok(true)
    }

    /// Makes another row of this one, which is that of variable `row`, solved for variable `column`; false exactly where this is cramped, or
    /// where `column` has the coefficient 0. The one error is want of memory.
    pub(crate) fn solve_into(
        &self,
        row: usize,
        column: usize,
        spare: &mut Entries,
        into: &mut SparseRow,
    ) -> Result<bool, AllocError>
        requires { row < 2 ^ 32 }
        ensures { IfOk result (λ b. let solved = solved_for row column self.now in MatchBool b (solved ≡ Some into.new) (solved ≡ None)) }
    {
        let pivot = self.coefficient(column);
        if is_zero(pivot) {
            return Ok(false);
        }
        spare.clear();
        if !self.push_solved(row, column, pivot, spare)? {
            return Ok(false);
        }
        into.set(self.width, spare)?;
        Ok(true)
    }

    /// Puts the entries of the solved row behind none; false exactly where this is cramped.
    fn push_solved(
        &self,
        row: usize,
        column: usize,
        pivot: Frac,
        spare: &mut Entries,
    ) -> Result<bool, AllocError>
        requires fits { row < 2 ^ 32 }
        requires nonzero { 0 < nat_abs pivot.num }
        requires none { spare.old ≡ [] }
        ensures entries { IfOk result (λ b. let m = option_map (nonzeros 0) (negative_quotients pivot (slice_set (slice_set self.now row (whole (negsuc 0))) column zero_ℚ)) in MatchBool b (m ≡ Some spare.new) (m ≡ None)) }
        ensures fractions { OnOk result (All HasFraction spare.new) }
    {
        let earlier = self.entries.position(row);
        let later = self.entries.position(row + 1);
        if !spare.push_quotients(pivot, column, front(self.entries.as_slice(), earlier))? {
            return Ok(false);
        }
        if !self.push_own(row, column, pivot, spare)? {
            return Ok(false);
        }
        if !spare.push_quotients(pivot, column, rest(self.entries.as_slice(), later))? {
            return Ok(false);
        }
        Ok(true)
    }

    /// Puts the quotient of variable `row` itself behind the others, whose coefficient is -1 then, unless this is past the row's end.
    fn push_own(
        &self,
        row: usize,
        column: usize,
        pivot: Frac,
        spare: &mut Entries,
    ) -> Result<bool, AllocError>
        requires fits { row < 2 ^ 32 }
        requires nonzero { 0 < nat_abs pivot.num }
        ensures entries { IfOk result (λ b. (others : Pairs) → let m = entry_quotients pivot (without column (own_entry (length self.now) row) ++ others) in MatchBool b (Continues spare.old spare.new m (entry_quotients pivot others)) (m ≡ None)) }
        ensures fractions { All HasFraction spare.old → OnOk result (All HasFraction spare.new) }
    {
        if row >= self.width() {
            return Ok(true);
        }
        spare.push_quotient(pivot, column, &Entry::make(row as u32, Frac::of(-1)))
    }
}
