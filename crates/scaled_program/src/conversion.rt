// The same tableau over fractions.

ghost use Rattle.std.specs.Prelude.{◌≡◌, ◌<◌, ◌^◌, length, IfOk, IfSome};
ghost use Rattle.std.specs.Option.{option_map};
ghost use Rattle.integer_tableau.specs.Scales.{AreScalesTo, all_bounds, bounds_over, scale_at, scaled_by, unscaled_values};

use crate::scaled_tableau::ScaledTableau;
use crate::scales::Scales;
use crate::unscaling::unscaled_row;
use fraction::Frac;
use std::alloc::{AllocError, Global};
use tableau::{Bounds, Tableau, TableauRows};

/// A number over a unit; none where that is too large.
fn number_over(number: Frac, unit: u64) -> Option<Frac>
    requires { 0 < unit }
    ensures { IfSome result (λ q. q ≡ scaled_by 1 unit number) }
{
    number.mul(Frac::make(1, i128::from(unit)))
}

/// A bound over a unit, which may not be there; none where it is too large.
fn bound_over(bound: Option<Frac>, unit: u64) -> Option<Option<Frac>>
    requires { 0 < unit }
    ensures { IfSome result (λ b. b ≡ option_map (scaled_by 1 unit) bound) }
{
    match bound {
        Some(number) => match number_over(number, unit) {
            Some(number) => Some(Some(number)),
            None => None,
        },
        None => Some(None),
    }
}

/// The bounds of a variable over a unit; none where one is too large.
fn bounds_over(bounds: &Bounds, unit: u64) -> Option<Bounds>
    requires { 0 < unit }
    ensures { IfSome result (λ b. b ≡ bounds_over unit bounds.now) }
{
    let lower = bound_over(bounds.lower, unit)?;
    let upper = bound_over(bounds.upper, unit)?;
    Some(Bounds { lower, upper })
}

/// The bounds of all variables over their scales; none where one is too large. The one error is want of memory.
fn unscaled_bounds(
    alloc: Global,
    bounds: &[Bounds],
    columns: usize,
    scales: &Scales,
) -> Result<Option<Vec<Bounds>>, AllocError>
    requires { AreScalesTo scales.now.greatest scales.now.rows.items.value.items scales.now.costs }
    ensures { IfOk result (λ o. IfSome o (λ v. v.items ≡ all_bounds (scale_at columns scales.now.rows.items.value.items) 0 bounds.now)) }
{
    let mut all = Vec::with_capacity(alloc, bounds.len())?;
    for (i, scaled) in bounds.iter().enumerate() {
        match bounds_over(scaled, scales.of(i, columns)) {
            Some(own) => all.push(own)?,
            None => return Ok(None),
        }
    }
    Ok(Some(all))
}

/// The values of all variables over their scales; none where one is too large. The one error is want of memory.
fn unscaled_values(
    alloc: Global,
    values: &[Frac],
    columns: usize,
    scales: &Scales,
) -> Result<Option<Vec<Frac>>, AllocError>
    requires { AreScalesTo scales.now.greatest scales.now.rows.items.value.items scales.now.costs }
    ensures { IfOk result (λ o. IfSome o (λ v. v.items ≡ unscaled_values (scale_at columns scales.now.rows.items.value.items) 0 values.now)) }
{
    let mut all = Vec::with_capacity(alloc, values.len())?;
    for (i, scaled) in values.iter().enumerate() {
        match number_over(*scaled, scales.of(i, columns)) {
            Some(own) => all.push(own)?,
            None => return Ok(None),
        }
    }
    Ok(Some(all))
}

impl ScaledTableau {
    /// The bounds of each variable; none where one is too large. The one error is want of memory.
    fn all_bounds(&self, alloc: Global) -> Result<Option<Vec<Bounds>>, AllocError>
        ensures { IfOk result (λ o. IfSome o (λ v. v.items ≡ self.now.bounds)) }
    {
        let columns = self.tableau.columns();
        let scaled = self.tableau.all_bounds(alloc)?;
        unscaled_bounds(alloc, &scaled, columns, &self.scales)
    }

    /// The bound at which each variable is that isn't basic, and 0 for a basic one; none where one is too large. The one error is want of memory.
    fn all_nonbasic_values(&self, alloc: Global) -> Result<Option<Vec<Frac>>, AllocError>
        ensures { IfOk result (λ o. IfSome o (λ v. v.items ≡ self.now.nonbasic_values)) }
    {
        let columns = self.tableau.columns();
        let scaled = self.tableau.all_nonbasic_values(alloc)?;
        unscaled_values(alloc, &scaled, columns, &self.scales)
    }

    /// The value of each variable; none where one is too large. The one error is want of memory.
    fn all_values(&self, alloc: Global) -> Result<Option<Vec<Frac>>, AllocError>
        ensures { IfOk result (λ o. IfSome o (λ v. v.items ≡ self.now.values)) }
    {
        let columns = self.tableau.columns();
        let scaled = self.tableau.all_values(alloc)?;
        unscaled_values(alloc, &scaled, columns, &self.scales)
    }

    /// The row of each variable, of which there are so many. The one error is want of memory.
    fn all_rows(&self, alloc: Global, variables: usize) -> Result<TableauRows, AllocError>
        requires variables { variables ≡ length self.now.statuses }
        requires few { variables < 2 ^ 32 }
        ensures { IfOk result (λ r. r ≡ self.now.rows) }
    {
        self.tableau.sizes_hold();
        let mut rows = TableauRows::new(alloc);
        for variable in 0..variables {
            let row = self.coefficients_from(alloc, variable, 0)?;
            rows.push(alloc, &row)?;
        }
        Ok(rows)
    }

    /// The reduced cost of each variable. The one error is want of memory.
    fn all_reduced_costs(&self, alloc: Global) -> Result<Vec<Frac>, AllocError>
        ensures { IfOk result (λ v. v.items ≡ self.now.reduced_costs) }
    {
        let columns = self.tableau.columns();
        let scaled = self.tableau.all_reduced_costs(alloc)?;
        unscaled_row(alloc, &scaled, 0, columns, &self.scales, self.scales.costs)
    }

    /// The same tableau over fractions, from which the run goes on where that on scaled numbers is given up. None where a number is too large for
    /// that. The one error is want of memory.
    pub fn fractions(&self, alloc: Global) -> Result<Option<Tableau>, AllocError>
        requires { length self.now.statuses < 2 ^ 32 }
        ensures { IfOk result (λ o. IfSome o (λ t. t ≡ self.now)) }
    {
        self.tableau.sizes_hold();
        let Some(bounds) = self.all_bounds(alloc)? else {
            return Ok(None);
        };
        let Some(nonbasic_values) = self.all_nonbasic_values(alloc)? else {
            return Ok(None);
        };
        let Some(values) = self.all_values(alloc)? else {
            return Ok(None);
        };
        let numbers = Vec::from_slice(alloc, self.tableau.numbers())?;
        let statuses = self.tableau.all_statuses(alloc)?;
        let rows = self.all_rows(alloc, statuses.len())?;
        let reduced_costs = self.all_reduced_costs(alloc)?;
        let tableau = Tableau::of_parts(
            alloc,
            self.tableau.columns(),
            numbers,
            bounds,
            statuses,
            nonbasic_values,
            rows,
            &reduced_costs,
            values,
            self.tableau.pivots(),
        )?;
        Ok(Some(tableau))
    }
}
