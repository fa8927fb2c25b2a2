// The sums of rows at the start of a run, which are kept for the next one: its box differs in a few columns only.

ghost use Rattle.std.specs.Prelude.{◌≡◌, ◌≢◌, ◌<◌, ◌≤◌, ℕ, ℤ, List, length, slice_index_or, IfSome, OnOk};
ghost use Rattle.integer_tableau.specs.Numbers.{number_at};
ghost use Rattle.integer_tableau.specs.RowSums.{AreColumnsOf, AreColumnSums, AreRowSums};

use crate::coefficient_columns::CoefficientColumns;
use crate::position::Position;
use crate::row_sums::add_column;
use std::alloc::{AllocError, Global};

/// The values that the columns had at the start of the last run, and the sums of rows over them, modulo 2^64.
#[derive(Drop)]
pub(crate) struct StartSums {
    pub(crate) values: Vec<i64>,
    pub(crate) sums: Vec<i64>,
}

/// Gives the columns other values, and changes the sums of rows with each.
fn change_values(
    values: &mut [i64],
    sums: &mut [i64],
    columns: &CoefficientColumns,
    nonbasic_values: &[i64],
)
    requires columns { (ps : List (List ℤ)) × AreColumnsOf ps columns.now }
    requires values_there { length values.old ≡ columns.now.width }
    requires sums_there { length sums.old ≡ columns.now.rows }
    requires others_there { columns.now.width ≤ length nonbasic_values.now }
    ensures values { (j : ℕ) → j < length values.old → number_at values.new j ≡ number_at nonbasic_values.now j }
    ensures sums { (ps : List (List ℤ)) → AreColumnsOf ps columns.now → AreColumnSums ps values.old sums.old → AreColumnSums ps values.new sums.new }
{
    for (column, value) in values.iter_mut().enumerate() {
        let new = nonbasic_values[column];
        add_column(sums, columns, column, new.wrapping_sub(*value));
        *value = new;
    }
}

impl StartSums {
    /// None yet.
    pub(crate) fn new(alloc: Global) -> StartSums
        ensures { (ps : List (List ℤ)) → AreColumnSums ps result.values.items result.sums.items }
    {
        StartSums {
            values: Vec::new(alloc),
            sums: Vec::new(alloc),
        }
    }

    /// Begins with values of 0 where there aren't as many as columns. The one error is want of memory.
    fn begin(&mut self, alloc: Global, columns: &CoefficientColumns) -> Result<(), AllocError>
        ensures values_there { OnOk result (length self.new.values.items ≡ columns.now.width) }
        ensures sums_there { OnOk result (length self.new.sums.items ≡ columns.now.rows) }
        ensures sums { (ps : List (List ℤ)) → AreColumnSums ps self.old.values.items self.old.sums.items → AreColumnSums ps self.new.values.items self.new.sums.items }
    {
        if self.values.len() != columns.width || self.sums.len() != columns.rows {
            let values = Vec::from_elem(alloc, 0, columns.width)?;
            let sums = Vec::from_elem(alloc, 0, columns.rows)?;
            self.values = values;
            self.sums = sums;
        }
        Ok(())
    }

    /// Gives the columns these values. The one error is want of memory.
    fn take_values(
        &mut self,
        alloc: Global,
        columns: &CoefficientColumns,
        nonbasic_values: &[i64],
    ) -> Result<(), AllocError>
        requires columns { (ps : List (List ℤ)) × AreColumnsOf ps columns.now }
        requires values_there { columns.now.width ≤ length nonbasic_values.now }
        ensures count { OnOk result (length self.new.values.items ≡ columns.now.width) }
        ensures rows { OnOk result (length self.new.sums.items ≡ columns.now.rows) }
        ensures values { OnOk result ((j : ℕ) → j < columns.now.width → number_at self.new.values.items j ≡ number_at nonbasic_values.now j) }
        ensures sums { (ps : List (List ℤ)) → AreColumnsOf ps columns.now → AreColumnSums ps self.old.values.items self.old.sums.items → AreColumnSums ps self.new.values.items self.new.sums.items }
    {
        self.begin(alloc, columns)?;
        change_values(&mut self.values, &mut self.sums, columns, nonbasic_values);
        Ok(())
    }

    /// Makes a list that of the sums of rows where no column is basic and the columns have these values; it is empty without the columns, or where they
    /// aren't so many. The one error is want of memory.
    pub(crate) fn put_row_sums(
        &mut self,
        alloc: Global,
        row_sums: &mut Vec<i64>,
        columns: &Option<CoefficientColumns>,
        width: usize,
        nonbasic_values: &[i64],
    ) -> Result<(), AllocError>
        requires columns { (ps : List (List ℤ)) × IfSome columns.now (AreColumnsOf ps) }
        requires values_there { width ≤ length nonbasic_values.now }
        ensures value { OnOk result ((ps : List (List ℤ)) (positions : List Position) → IfSome columns.now (AreColumnsOf ps) → AreColumnSums ps self.old.values.items self.old.sums.items → width ≤ length positions → ((j : ℕ) → j < width → slice_index_or positions j Position.InBasis ≢ Position.InBasis) → AreRowSums ps positions nonbasic_values.now row_sums.new.items) }
        ensures sums { (ps : List (List ℤ)) → IfSome columns.now (AreColumnsOf ps) → AreColumnSums ps self.old.values.items self.old.sums.items → AreColumnSums ps self.new.values.items self.new.sums.items }
    {
        row_sums.clear();
        if let Some(columns) = columns {
            if columns.width == width && self.take_values(alloc, columns, nonbasic_values).is_ok() {
                row_sums.extend_from_slice(&self.sums)?;
            }
        }
        Ok(())
    }
}
