// The tableau at the start.

ghost use Rattle.std.specs.Prelude.{◌≡◌, ◌<◌, ◌≤◌, ◌+◌, ◌++◌, ◌^◌, [], length, map, replicate, All, IfOk, IfSome, OnOk, MatchBool, Some, None, List};
ghost use Rattle.std.specs.Option.{option_map};
ghost use Rattle.tableau.specs.Pivot.{computed_values};
ghost use Rattle.fraction.specs.Rational.{ℚ};
ghost use Rattle.tableau.specs.Elimination.{zero_ℚ};
ghost use Rattle.tableau.specs.LinearProgram.{variables};
ghost use Rattle.tableau.specs.Start.{start_status, start_value, start_values, padded, slack_basis, started};
ghost use Rattle.tableau.specs.declared.status.BasisStatus.TheVariants.{Basic};

use crate::bounds::{Bounds, bound_or_zero};
use crate::elimination::Workspace;
use crate::program::LinearProgram;
use crate::sparse_row::SparseRow;
use crate::status::BasisStatus;
use crate::tableau::Tableau;
use crate::values::compute_values;
use fraction::Frac;
use std::alloc::{AllocError, Global};

/// Puts zeros behind the numbers. The one error is want of memory.
fn pad(numbers: &mut Vec<Frac>, count: usize) -> Result<(), AllocError>
    ensures value { OnOk result (numbers.new.items ≡ padded count numbers.old.items) }
    ensures count { OnOk result (length numbers.new.items ≡ length numbers.old.items + count) }
{
    for _ in 0..count {
        numbers.push(Frac::of(0))?;
    }
    Ok(())
}

/// Zeros behind the coefficients of each row.
fn pad_rows(rows: &mut [SparseRow], zeros: usize)
    requires { All (λ (r : List ℚ). length r + zeros < 2 ^ 64) rows.old }
    ensures { rows.new ≡ map (padded zeros) rows.old }
{
    for row in rows.iter_mut() {
        row.pad(zeros);
    }
}

/// At which bound a column of this cost is.
fn start_status(cost: Frac) -> BasisStatus
    ensures { result ≡ start_status cost }
{
    if cost.numer() < 0 {
        BasisStatus::AtUpper
    } else {
        BasisStatus::AtLower
    }
}

/// The value of a column of this cost.
fn start_value(cost: Frac, bounds: &Bounds) -> Frac
    ensures { result ≡ start_value cost bounds.now }
{
    if cost.numer() < 0 {
        bound_or_zero(&bounds.upper)
    } else {
        bound_or_zero(&bounds.lower)
    }
}

/// Where each column is. The one error is want of memory.
fn column_statuses(alloc: Global, costs: &[Frac]) -> Result<Vec<BasisStatus>, AllocError>
    ensures { IfOk result (λ v. v.items ≡ map start_status costs.now) }
{
    let mut statuses = Vec::new(alloc);
    for cost in costs {
        statuses.push(start_status(*cost))?;
    }
    Ok(statuses)
}

/// Where each variable is, so many rows being basic. The one error is want of memory.
fn start_statuses(
    alloc: Global,
    costs: &[Frac],
    rows: usize,
) -> Result<Vec<BasisStatus>, AllocError>
    ensures value { IfOk result (λ v. v.items ≡ map start_status costs.now ++ replicate rows Basic) }
    ensures count { IfOk result (λ v. length v.items ≡ length costs.now + rows) }
{
    let mut statuses = column_statuses(alloc, costs)?;
    for _ in 0..rows {
        statuses.push(BasisStatus::Basic)?;
    }
    Ok(statuses)
}

/// The value of each column. The one error is want of memory.
fn column_values(alloc: Global, costs: &[Frac], bounds: &[Bounds]) -> Result<Vec<Frac>, AllocError>
    requires { length costs.now ≤ length bounds.now }
    ensures value { IfOk result (λ v. v.items ≡ start_values costs.now bounds.now) }
    ensures count { IfOk result (λ v. length v.items ≡ length costs.now) }
{
    let mut values = Vec::new(alloc);
    for (column, cost) in costs.iter().enumerate() {
        values.push(start_value(*cost, &bounds[column]))?;
    }
    Ok(values)
}

/// So many rows without coefficients. The one error is want of memory.
fn empty_rows(alloc: Global, count: usize) -> Result<Vec<SparseRow>, AllocError>
    ensures { IfOk result (λ v. v.items ≡ replicate count []) }
{
    let mut rows = Vec::new(alloc);
    for _ in 0..count {
        rows.push(SparseRow::empty(alloc))?;
    }
    Ok(rows)
}

/// What the tableau at the start says of each variable, but for its row.
#[derive(Drop)]
struct StartLists {
    statuses: Vec<BasisStatus>,
    nonbasic_values: Vec<Frac>,
    values: Vec<Frac>,
}

/// The lists of the tableau at the start, with values that are still 0. The one error is want of memory.
fn start_lists(
    alloc: Global,
    costs: &SparseRow,
    bounds: &[Bounds],
    rows: usize,
) -> Result<StartLists, AllocError>
    requires { length costs.now ≤ length bounds.now }
    ensures statuses { IfOk result (λ l. l.statuses.items ≡ map start_status costs.now ++ replicate rows Basic) }
    ensures nonbasic_values { IfOk result (λ l. l.nonbasic_values.items ≡ padded rows (start_values costs.now bounds.now)) }
    ensures values { IfOk result (λ l. l.values.items ≡ replicate (length costs.now + rows) zero_ℚ) }
    ensures count { IfOk result (λ l. (length l.statuses.items ≡ length costs.now + rows) × (length l.nonbasic_values.items ≡ length costs.now + rows) × (length l.values.items ≡ length costs.now + rows)) }
{
    let dense = costs.dense(alloc)?;
    let statuses = start_statuses(alloc, &dense, rows)?;
    let mut nonbasic_values = column_values(alloc, &dense, bounds)?;
    pad(&mut nonbasic_values, rows)?;
    let values = Vec::from_elem(alloc, Frac::of(0), statuses.len())?;
    Ok(StartLists {
        statuses,
        nonbasic_values,
        values,
    })
}

/// An empty row for each column and behind them these rows, which it takes, padded with zeros. The one error is want of memory.
fn start_rows(
    alloc: Global,
    columns: usize,
    rows: &mut Vec<SparseRow>,
) -> Result<Vec<SparseRow>, AllocError>
    requires { All (λ (r : List ℚ). length r + length rows.old.items < 2 ^ 64) rows.old.items }
    ensures value { IfOk result (λ v. v.items ≡ replicate columns [] ++ map (padded (length rows.old.items)) rows.old.items) }
    ensures count { IfOk result (λ v. length v.items ≡ columns + length rows.old.items) }
{
    let zeros = rows.len();
    pad_rows(rows, zeros);
    let mut all_rows = empty_rows(alloc, columns)?;
    all_rows.append(rows)?;
    Ok(all_rows)
}

impl LinearProgram {
    /// The tableau whose basis is the rows' values, with values that are still 0. The one error is want of memory.
    fn slack_basis(self, alloc: Global) -> Result<Tableau, AllocError>
        ensures { IfOk result (λ t. t ≡ slack_basis self) }
    {
        let LinearProgram {
            mut rows,
            costs,
            bounds,
            numbers,
        } = self;
        let columns = costs.width();
        let count = rows.len();
        let StartLists {
            statuses,
            nonbasic_values,
            values,
        } = start_lists(alloc, &costs, &bounds, count)?;
        let rows = start_rows(alloc, columns, &mut rows)?;
        let mut reduced_costs = costs;
        reduced_costs.pad(count);
        Ok(Tableau {
            columns,
            numbers,
            bounds,
            statuses,
            nonbasic_values,
            rows,
            reduced_costs,
            values,
            pivots: 0,
            work: Workspace::new(alloc),
        })
    }
}

impl Tableau {
    /// The tableau of a linear program at the start, where the rows' values are basic and each column is at the bound that its cost asks
    /// for; none exactly where a value is cramped. The one error is want of memory.
    pub fn start(alloc: Global, program: LinearProgram) -> Result<Option<Tableau>, AllocError>
        ensures value { IfOk result (λ t. t ≡ started program) }
        ensures size { IfOk result (λ t. IfSome t (λ t. length t.statuses ≡ variables program)) }
        ensures pivots { IfOk result (λ t. IfSome t (λ t. t.pivots ≡ 0)) }
    {
        let mut tableau = program.slack_basis(alloc)?;
        if tableau.compute_values() {
            Ok(Some(tableau))
        } else {
            Ok(None)
        }
    }

    /// Computes the values; false exactly where one is cramped.
    fn compute_values(&mut self) -> bool
        ensures { let computed = computed_values self.old.nonbasic_values self.old.statuses self.old.nonbasic_values self.old.rows in MatchBool result (Some self.new ≡ option_map (λ values. record self.old { values = values }) computed) (computed ≡ None) }
    {
        compute_values(
            &mut self.values,
            &self.statuses,
            &self.nonbasic_values,
            &self.rows,
        )
    }
}
