// The same tableau over fractions.

ghost use Rattle.std.specs.Prelude.{◌≡◌, ℕ, ◌<◌, ◌≤◌, ◌^◌, map, length, IfOk};
ghost use Rattle.std.specs.Option.{option_map};
ghost use Rattle.fraction.specs.Rational.{whole};
ghost use Rattle.tableau.specs.Tableau.{row_of, value_of};
ghost use Rattle.integer_tableau.specs.IntegerTableau.{fraction_bounds};

use crate::answers::coefficients;
use crate::integer_bounds::IntegerBounds;
use crate::integer_tableau::IntegerTableau;
use crate::pivot::value_of;
use crate::position::Position;
use fraction::Frac;
use std::alloc::{AllocError, Global};
use tableau::{BasisStatus, Bounds, Tableau, TableauRows};

/// A bound as a fraction, if it is there.
fn fraction_bound(bound: Option<i64>) -> Option<Frac>
    ensures { result ≡ option_map whole bound }
{
    match bound {
        Some(number) => Some(Frac::of(i128::from(number))),
        None => None,
    }
}

/// The bounds of variables as fractions. The one error is want of memory.
fn all_bounds(alloc: Global, bounds: &[IntegerBounds]) -> Result<Vec<Bounds>, AllocError>
    ensures { IfOk result (λ v. v.items ≡ map fraction_bounds bounds.now) }
{
    let mut all = Vec::with_capacity(alloc, bounds.len())?;
    for own in bounds {
        let lower = fraction_bound(own.lower);
        let upper = fraction_bound(own.upper);
        all.push(Bounds { lower, upper })?;
    }
    Ok(all)
}

/// Whole numbers as fractions. The one error is want of memory.
fn whole_numbers(alloc: Global, numbers: &[i64]) -> Result<Vec<Frac>, AllocError>
    ensures { IfOk result (λ v. v.items ≡ map whole numbers.now) }
{
    let mut all = Vec::with_capacity(alloc, numbers.len())?;
    for number in numbers {
        all.push(Frac::of(i128::from(*number)))?;
    }
    Ok(all)
}

impl IntegerTableau {
    /// There are no more columns than variables, and no row has more coefficients; a number of 64 bits counts them. This computes nothing: its
    /// contract is for callers' proofs.
    pub fn sizes_hold(&self)
        ensures columns { self.now.columns ≤ length self.now.statuses }
        ensures few { length self.now.statuses < 2 ^ 64 }
        ensures rows { (i : ℕ) → i < length self.now.statuses → length (row_of self.now i) ≤ length self.now.statuses }
    {
        let _pivots = self.pivots;
    }

    /// The bounds of each variable. The one error is want of memory.
    pub fn all_bounds(&self, alloc: Global) -> Result<Vec<Bounds>, AllocError>
        ensures { IfOk result (λ v. v.items ≡ self.now.bounds) }
    {
        all_bounds(alloc, &self.fixed.bounds)
    }

    /// The bound at which each variable is that isn't basic; 0 for a basic one. The one error is want of memory.
    pub fn all_nonbasic_values(&self, alloc: Global) -> Result<Vec<Frac>, AllocError>
        ensures { IfOk result (λ v. v.items ≡ self.now.nonbasic_values) }
    {
        whole_numbers(alloc, &self.nonbasic_values)
    }

    /// The value of a variable.
    fn value(&self, variable: usize) -> Frac
        requires { variable < length self.now.statuses }
        ensures { result ≡ value_of self.now variable }
    {
        match self.positions[variable] {
            Position::InBasis => {
                let numerator = value_of(
                    variable,
                    &self.fixed.rows,
                    &self.positions,
                    &self.nonbasic_values,
                    &self.values,
                    self.denominator,
                );
                Frac::make(numerator, i128::from(self.denominator))
            }
            Position::InColumn(_) => Frac::of(i128::from(self.nonbasic_values[variable])),
        }
    }

    /// The value of each variable. The one error is want of memory.
    pub fn all_values(&self, alloc: Global) -> Result<Vec<Frac>, AllocError>
        ensures { IfOk result (λ v. v.items ≡ self.now.values) }
    {
        let mut values = Vec::with_capacity(alloc, self.positions.len())?;
        for variable in 0..self.positions.len() {
            values.push(self.value(variable))?;
        }
        Ok(values)
    }

    /// Where each variable is. The one error is want of memory.
    pub fn all_statuses(&self, alloc: Global) -> Result<Vec<BasisStatus>, AllocError>
        ensures { IfOk result (λ v. v.items ≡ self.now.statuses) }
    {
        let mut statuses = Vec::with_capacity(alloc, self.positions.len())?;
        for variable in 0..self.positions.len() {
            statuses.push(self.status(variable))?;
        }
        Ok(statuses)
    }

    /// The row of each variable. The one error is want of memory.
    fn all_rows(&self, alloc: Global) -> Result<TableauRows, AllocError>
        requires { length self.now.statuses < 2 ^ 32 }
        ensures { IfOk result (λ r. r ≡ self.now.rows) }
    {
        let mut rows = TableauRows::new(alloc);
        for variable in 0..self.positions.len() {
            let row = self.coefficients_from(alloc, variable, 0)?;
            rows.push(alloc, &row)?;
        }
        Ok(rows)
    }

    /// The reduced cost of each variable. The one error is want of memory.
    pub fn all_reduced_costs(&self, alloc: Global) -> Result<Vec<Frac>, AllocError>
        ensures { IfOk result (λ v. v.items ≡ self.now.reduced_costs) }
    {
        coefficients(
            alloc,
            &self.positions,
            self.reduced_costs.numerators(),
            self.denominator,
        )
    }

    /// The same tableau over fractions, from which the run goes on where that on whole numbers is given up. The one error is want of memory.
    pub fn fractions(&self, alloc: Global) -> Result<Tableau, AllocError>
        requires { length self.now.statuses < 2 ^ 32 }
        ensures { IfOk result (λ t. t ≡ self.now) }
    {
        let numbers = Vec::from_slice(alloc, &self.fixed.numbers)?;
        let bounds = self.all_bounds(alloc)?;
        let statuses = self.all_statuses(alloc)?;
        let nonbasic_values = self.all_nonbasic_values(alloc)?;
        let rows = self.all_rows(alloc)?;
        let reduced_costs = self.all_reduced_costs(alloc)?;
        let values = self.all_values(alloc)?;
        Tableau::of_parts(
            alloc,
            self.rows.len(),
            numbers,
            bounds,
            statuses,
            nonbasic_values,
            rows,
            &reduced_costs,
            values,
            self.pivots,
        )
    }
}
