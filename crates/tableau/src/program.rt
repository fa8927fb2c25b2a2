// Linear programs.

ghost use Rattle.std.specs.Prelude.{◌≡◌, ◌<◌, ◌≤◌, ◌+◌, ◌*◌, ◌^◌, [], length, map, slice_index_or, IfOk, OnOk, OnErr};
ghost use Rattle.problem.specs.Rising.{AreRising};
ghost use Rattle.problem.specs.Limits.{most_columns};
ghost use Rattle.tableau.specs.LinearProgram.{span_bounds, row_bounds, program_of, relaxation, with_row, with_cut};
ghost use Rattle.tableau.specs.Sparse.{nonzeros};

use crate::bounds::Bounds;
use crate::entry::Entry;
use crate::sparse_row::SparseRow;
use fraction::Frac;
use problem::{Problem, Row, Sense, Terms};
use problem_box::{IntBox, Span};
use std::alloc::{AllocError, Global};
use std::marker::Model;

/// The linear program of a problem's rows and some cuts over a box.
///
/// Multipliers name its rows by the numbers that these have among the problem's rows, two bound rows a column, and the cuts.
#[derive(Drop)]
pub struct LinearProgram {
    pub(crate) rows: Vec<SparseRow>,
    pub(crate) costs: SparseRow,
    pub(crate) bounds: Vec<Bounds>,
    pub(crate) numbers: Vec<u32>,
}

impl Model for LinearProgram {
    ghost use Rattle.std.specs.Prelude.{length, All, List, ◌≡◌, ◌+◌, ◌*◌, ◌<◌, ◌^◌};
    ghost use Rattle.fraction.specs.Rational.{ℚ};
    ghost use Rattle.tableau.specs.LinearProgram.{LinearProgram as Described};

    ghost Value = { Described };

    ghost view = { λ p. record { rows = p.rows.items; costs = p.costs; bounds = p.bounds.items; numbers = p.numbers.items } };

    ghost invariant = { λ p. (length p.bounds.items ≡ length p.costs + length p.rows.items) × (length p.numbers.items ≡ length p.rows.items) × All (λ (r : List ℚ). length r ≡ length p.costs) p.rows.items × (length p.rows.items + 2 * length p.costs < 2 ^ 32) };
}

/// The bounds of a column.
fn span_bounds(span: Span) -> Bounds
    ensures { result ≡ span_bounds span }
{
    Bounds {
        lower: Some(Frac::of(span.lo as i128)),
        upper: Some(Frac::of(span.hi as i128)),
    }
}

/// The bounds of a row's value.
fn row_bounds(row: &Row) -> Bounds
    ensures { result ≡ row_bounds row.now }
{
    match row.sense {
        Sense::G => Bounds {
            lower: Some(row.rhs),
            upper: None,
        },
        Sense::L => Bounds {
            lower: None,
            upper: Some(row.rhs),
        },
        Sense::E => Bounds {
            lower: Some(row.rhs),
            upper: Some(row.rhs),
        },
    }
}

/// The bounds of the columns.
fn column_bounds(alloc: Global, area: &IntBox) -> Result<Vec<Bounds>, AllocError>
    ensures { IfOk result (λ v. v.items ≡ map span_bounds area.now) }
{
    let mut bounds = Vec::with_capacity(alloc, area.len())?;
    for column in 0..area.len() {
        let Bounds { lower, upper } = span_bounds(area.span(column));
        bounds.push(Bounds { lower, upper })?;
    }
    Ok(bounds)
}

impl LinearProgram {
    /// The linear program of a problem's aim and rows over a box of its columns. The one error is want of memory.
    pub fn of(alloc: Global, problem: &Problem, area: &IntBox) -> Result<LinearProgram, AllocError>
        requires { length area.now ≡ length problem.now.spans }
        ensures { IfOk result (λ p. p ≡ relaxation problem.now [] area.now) }
    {
        problem.limits_hold();
        let mut program = LinearProgram::without_rows(alloc, problem.aim(), area)?;
        for i in 0..problem.rows() {
            program.push_row(alloc, problem.row(i), i as u32)?;
        }
        Ok(program)
    }

    /// The linear program of an objective, whose columns rise, over a box, without rows. The one error is want of memory.
    pub fn without_rows(
        alloc: Global,
        objective: &Terms,
        area: &IntBox,
    ) -> Result<LinearProgram, AllocError>
        requires rising { AreRising objective.now }
        requires few { length area.now ≤ most_columns }
        ensures { IfOk result (λ p. p ≡ program_of objective.now [] [] area.now) }
    {
        let costs = SparseRow::of_terms(alloc, area.len(), objective)?;
        let bounds = column_bounds(alloc, area)?;
        Ok(LinearProgram {
            rows: Vec::new(alloc),
            costs,
            bounds,
            numbers: Vec::new(alloc),
        })
    }

    /// Puts the row of a cut behind the others, whose columns rise. The one error is want of memory, after which all is as before.
    pub fn add_cut(&mut self, alloc: Global, row: &Row) -> Result<(), AllocError>
        requires rising { AreRising row.now.terms }
        requires room { length self.old.rows + 1 + 2 * length self.old.costs < 2 ^ 32 }
        ensures ok { OnOk result (self.new ≡ with_cut self.old row.now) }
        ensures err { OnErr result (self.new ≡ self.old) }
    {
        let number = self.rows.len() + 2 * self.costs.width();
        self.push_row(alloc, row, number as u32)
    }

    /// Puts a row, whose columns rise, behind the others, under this number. The one error is want of memory, after which all is as before.
    fn push_row(&mut self, alloc: Global, row: &Row, number: u32) -> Result<(), AllocError>
        requires rising { AreRising row.now.terms }
        requires room { length self.old.rows + 1 + 2 * length self.old.costs < 2 ^ 32 }
        ensures ok { OnOk result (self.new ≡ with_row self.old row.now number) }
        ensures err { OnErr result (self.new ≡ self.old) }
    {
        let coefficients = SparseRow::of_terms(alloc, self.costs.width(), &row.terms)?;
        self.rows.reserve(1)?;
        self.bounds.reserve(1)?;
        self.numbers.reserve(1)?;
        self.rows.push_reserved(coefficients);
        let Bounds { lower, upper } = row_bounds(row);
        self.bounds.push_reserved(Bounds { lower, upper });
        self.numbers.push_reserved(number);
        Ok(())
    }
}

// What other forms of a tableau read.
impl LinearProgram {
    /// How many columns there are.
    pub fn columns(&self) -> usize
        ensures { result ≡ length self.now.costs }
    {
        self.costs.width()
    }

    /// How many rows there are.
    pub fn rows(&self) -> usize
        ensures { result ≡ length self.now.rows }
    {
        self.rows.len()
    }

    /// The objective's coefficients. The one error is want of memory.
    pub fn costs(&self, alloc: Global) -> Result<Vec<Frac>, AllocError>
        ensures { IfOk result (λ v. v.items ≡ self.now.costs) }
    {
        self.costs.dense(alloc)
    }

    /// The coefficients of a row over the columns. The one error is want of memory.
    pub fn row(&self, alloc: Global, row: usize) -> Result<Vec<Frac>, AllocError>
        requires { row < length self.now.rows }
        ensures value { IfOk result (λ v. v.items ≡ slice_index_or self.now.rows row []) }
        ensures width { IfOk result (λ v. length v.items ≡ length self.now.costs) }
    {
        self.rows[row].dense(alloc)
    }

    /// The columns of a row with their coefficients, but those that are 0.
    pub fn entries(&self, row: usize) -> &[Entry]
        requires { row < length self.now.rows }
        ensures value { result.now ≡ nonzeros 0 (slice_index_or self.now.rows row []) }
        ensures width { length (slice_index_or self.now.rows row []) ≡ length self.now.costs }
    {
        self.rows[row].entries()
    }

    /// The bounds of the columns, then of the rows' values.
    pub fn bounds(&self) -> &[Bounds]
        ensures value { result.now ≡ self.now.bounds }
        ensures count { length result.now ≡ length self.now.costs + length self.now.rows }
    {
        &self.bounds
    }

    /// The numbers by which multipliers name the rows.
    pub fn numbers(&self) -> &[u32]
        ensures value { result.now ≡ self.now.numbers }
        ensures count { length result.now ≡ length self.now.rows }
    {
        &self.numbers
    }
}
