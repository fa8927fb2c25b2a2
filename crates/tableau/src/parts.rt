// Tableaus from their parts.

ghost use Rattle.std.specs.Prelude.{◌≡◌, ◌<◌, ◌≤◌, ◌++◌, ◌∷◌, ◌^◌, [], length, IfOk, OnOk, OnErr};

use crate::bounds::Bounds;
use crate::elimination::Workspace;
use crate::sparse_row::SparseRow;
use crate::status::BasisStatus;
use crate::tableau::Tableau;
use fraction::Frac;
use std::alloc::{AllocError, Global};
use std::marker::Model;

/// The rows of a tableau that is being made, seen as the list of them.
#[derive(Drop)]
pub struct TableauRows {
    rows: Vec<SparseRow>,
}

impl Model for TableauRows {
    ghost use Rattle.std.specs.Prelude.{List};
    ghost use Rattle.std.specs.Coded.{coded_list};
    ghost use Rattle.fraction.specs.Rational.{ℚ};
    ghost use Rattle.fraction.specs.Code.{code_ℚ};

    ghost Value = { List (List ℚ) };

    ghost coded = { coded_list (coded_list code_ℚ) };

    ghost view = { λ r. r.rows.items };
}

impl TableauRows {
    /// No rows.
    pub fn new(alloc: Global) -> TableauRows
        ensures { result ≡ [] }
    {
        TableauRows {
            rows: Vec::new(alloc),
        }
    }

    /// Puts the row of these coefficients behind the others. The one error is want of memory, after which the rows are as before.
    pub fn push(&mut self, alloc: Global, coefficients: &[Frac]) -> Result<(), AllocError>
        requires { length coefficients.now < 2 ^ 32 }
        ensures ok { OnOk result (self.new ≡ self.old ++ coefficients.now ∷ []) }
        ensures err { OnErr result (self.new ≡ self.old) }
    {
        let row = SparseRow::of_coefficients(alloc, coefficients)?;
        self.rows.push(row)?;
        Ok(())
    }
}

impl Tableau {
    /// The tableau of these parts. Each list has one element for each variable, but `numbers` one for each row. The one error is want of
    /// memory.
    pub fn of_parts(
        alloc: Global,
        columns: usize,
        numbers: Vec<u32>,
        bounds: Vec<Bounds>,
        statuses: Vec<BasisStatus>,
        nonbasic_values: Vec<Frac>,
        rows: TableauRows,
        reduced_costs: &[Frac],
        values: Vec<Frac>,
        pivots: u64,
    ) -> Result<Tableau, AllocError>
        requires columns_there { columns ≤ length statuses.items }
        requires few { length statuses.items < 2 ^ 32 }
        requires bounds_there { length bounds.items ≡ length statuses.items }
        requires nonbasic_values_there { length nonbasic_values.items ≡ length statuses.items }
        requires rows_there { length rows ≡ length statuses.items }
        requires costs_there { length reduced_costs.now ≡ length statuses.items }
        requires values_there { length values.items ≡ length statuses.items }
        ensures { IfOk result (λ t. t ≡ record { columns = columns; numbers = numbers.items; bounds = bounds.items; statuses = statuses.items; nonbasic_values = nonbasic_values.items; rows = rows; reduced_costs = reduced_costs.now; values = values.items; pivots = pivots }) }
    {
        let TableauRows { rows } = rows;
        let reduced_costs = SparseRow::of_coefficients(alloc, reduced_costs)?;
        Ok(Tableau {
            columns,
            numbers,
            bounds,
            statuses,
            nonbasic_values,
            rows,
            reduced_costs,
            values,
            pivots,
            work: Workspace::new(alloc),
        })
    }
}
