// Basic solutions: what a tableau has beside its dictionary.

ghost use Rattle.std.specs.Prelude.{◌≡◌, ◌<◌, ◌≤◌, ◌++◌, ℕ, ℤ, List, drop, length, map, slice_index_or, true, IfOk, IfSome};
ghost use Rattle.integer_tableau.specs.Exits.{IsOnceEach};
ghost use Rattle.integer_tableau.specs.IntegerProgram.{column_bounds};
ghost use Rattle.integer_tableau.specs.Kept.{IsAt, IsKept, IsStartSolution, kept_at, view_of};
ghost use Rattle.integer_tableau.specs.Positions.{AreNonbasic};
ghost use Rattle.integer_tableau.specs.RowSums.{AreColumnsOf, AreColumnSums, AreRowSums};
ghost use Rattle.integer_tableau.specs.Running.{IsRunning, running_view};

use crate::coefficient_columns::CoefficientColumns;
use crate::dictionary::Dictionaries;
use crate::integer_bounds::IntegerBounds;
use crate::integer_row::IntegerRow;
use crate::integer_tableau::{Fixed, IntegerTableau};
use crate::pivot::is_near;
use crate::position::Position;
use crate::program_row::ProgramRow;
use crate::running_tableau::RunningTableau;
use crate::start::{empty_rows, has_room, reach_of};
use crate::start_lists::{
    put_at_upper, put_bounds, put_free, put_numbers, put_positions, put_zeros,
};
use crate::start_sums::StartSums;
use problem_box::IntBox;
use std::alloc::{AllocError, Global};
use std::mem;
use std::rc::RcSlice;

/// A basic solution: a tableau but for its dictionary, which it shares with others.
#[derive(Drop)]
pub(crate) struct BasicSolution {
    pub(crate) bounds: Vec<IntegerBounds>,
    /// Which variables aren't fixed.
    pub(crate) free: Vec<bool>,
    /// No column has a greater bound.
    pub(crate) reach: u64,
    /// Which variables are basic. The columns of the others are matters of the dictionary, and may be others here.
    pub(crate) positions: Vec<Position>,
    pub(crate) at_upper: Vec<bool>,
    pub(crate) nonbasic_values: Vec<i64>,
    /// Of each column.
    pub(crate) values: Vec<i64>,
    /// Of each row, the sum over the nonbasic columns, modulo 2^64; none where they aren't kept.
    pub(crate) row_sums: Vec<i64>,
    pub(crate) pivots: u64,
}

/// What a tableau has of its linear program and its dictionary, in lists of its own.
#[derive(Drop)]
struct TableauParts {
    numbers: Vec<u32>,
    program_rows: RcSlice<ProgramRow>,
    positions: Vec<Position>,
    nonbasic: Vec<usize>,
    rows: Vec<IntegerRow>,
    reduced_costs: IntegerRow,
    basic_columns: Vec<usize>,
}

impl Dictionaries {
    /// The rows of a dictionary, none of a column that isn't basic. The one error is want of memory.
    pub(crate) fn rows_by_column(
        &self,
        alloc: Global,
        place: usize,
    ) -> Result<Vec<IntegerRow>, AllocError>
        requires there { place < length self.now.all }
        requires columns { (p : ℕ) → p < length (kept_at self.now.all place).basic_columns → slice_index_or (kept_at self.now.all place).basic_columns p 0 < self.now.width }
        requires once { IsOnceEach (kept_at self.now.all place).basic_columns }
        ensures { IfOk result (λ v. v.items ≡ (kept_at self.now.all place).rows) }
    {
        let mut rows = empty_rows(alloc, self.width)?;
        let numerators = self.rows(place);
        for (index, column) in self.basic_columns(place).iter().enumerate() {
            let from = index * self.width;
            let row = Vec::from_slice(alloc, &numerators[from..from + self.width])?;
            rows[*column] = IntegerRow::make(row);
        }
        Ok(rows)
    }

    /// The position of each variable in a dictionary. The one error is want of memory.
    pub(crate) fn positions(&self, alloc: Global, place: usize) -> Result<Vec<Position>, AllocError>
        requires there { place < length self.now.all }
        requires nonbasic { AreNonbasic (kept_at self.now.all place).positions (kept_at self.now.all place).nonbasic }
        ensures { IfOk result (λ v. v.items ≡ (kept_at self.now.all place).positions) }
    {
        let mut positions = Vec::from_elem(alloc, Position::InBasis, self.variables)?;
        for (column, variable) in self.nonbasic(place).iter().enumerate() {
            positions[*variable] = Position::InColumn(column);
        }
        Ok(positions)
    }

    /// What the tableau at a dictionary has of it and of its linear program. The one error is want of memory.
    fn tableau_parts(
        &self,
        alloc: Global,
        numbers: &[u32],
        program_rows: &RcSlice<ProgramRow>,
        place: usize,
    ) -> Result<TableauParts, AllocError>
        requires there { place < length self.now.all }
        requires kept { (ps : List (List ℤ)) × (weight : ℕ) × (costs : List ℤ) × IsKept ps weight costs (kept_at self.now.all place) }
        ensures { IfOk result (λ p. (p.numbers.items ≡ numbers.now) × (p.program_rows.items.value.items ≡ program_rows.now.items.value.items)
            × (p.positions.items ≡ (kept_at self.now.all place).positions) × (p.nonbasic.items ≡ (kept_at self.now.all place).nonbasic)
            × (p.rows.items ≡ (kept_at self.now.all place).rows) × (p.reduced_costs ≡ (kept_at self.now.all place).reduced_costs)
            × (p.basic_columns.items ≡ (kept_at self.now.all place).basic_columns)) }
    {
        let numbers = Vec::from_slice(alloc, numbers)?;
        let costs = Vec::from_slice(alloc, self.reduced_costs(place))?;
        let positions = self.positions(alloc, place)?;
        let nonbasic = Vec::from_slice(alloc, self.nonbasic(place))?;
        let basic_columns = Vec::from_slice(alloc, self.basic_columns(place))?;
        let rows = self.rows_by_column(alloc, place)?;
        let program_rows = program_rows.clone()?;
        Ok(TableauParts {
            numbers,
            program_rows,
            positions,
            nonbasic,
            rows,
            reduced_costs: IntegerRow::make(costs),
            basic_columns,
        })
    }
}

impl BasicSolution {
    /// Lists without room, which no dictionary has.
    pub(crate) fn empty(alloc: Global) -> BasicSolution {
        BasicSolution {
            bounds: Vec::new(alloc),
            free: Vec::new(alloc),
            reach: 0,
            positions: Vec::new(alloc),
            at_upper: Vec::new(alloc),
            nonbasic_values: Vec::new(alloc),
            values: Vec::new(alloc),
            row_sums: Vec::new(alloc),
            pivots: 0,
        }
    }

    /// Makes it the solution at the start over its bounds, where each column is at the bound that its cost asks for. Whether the numbers are small enough; else
    /// it is of no use. The one error is want of memory.
    fn put_start(
        &mut self,
        alloc: Global,
        columns: &Option<CoefficientColumns>,
        start_sums: &mut StartSums,
        costs: &IntegerRow,
    ) -> Result<bool, AllocError>
        requires there { length costs.now ≤ length self.old.bounds.items }
        requires columns { (ps : List (List ℤ)) × IfSome columns.now (AreColumnsOf ps) }
        ensures solution { IfOk result (λ b. b ≡ true → IsStartSolution columns.now start_sums.old costs.now self.old.bounds.items self.new) }
        ensures sums { (ps : List (List ℤ)) → IfSome columns.now (AreColumnsOf ps) → AreColumnSums ps start_sums.old.values.items start_sums.old.sums.items → AreColumnSums ps start_sums.new.values.items start_sums.new.sums.items }
    {
        let width = costs.width();
        let count = self.bounds.len();
        self.reach = reach_of(&self.bounds, width);
        if !has_room(&self.bounds) || !is_near(self.reach, 1) {
            return Ok(false);
        }
        self.pivots = 0;
        put_positions(&mut self.positions, width, count)?;
        put_at_upper(&mut self.at_upper, costs.numerators(), count)?;
        put_numbers(&mut self.nonbasic_values, costs.numerators(), &self.bounds)?;
        put_zeros(&mut self.values, width)?;
        put_free(&mut self.free, &self.bounds)?;
        start_sums.put_row_sums(
            alloc,
            &mut self.row_sums,
            columns,
            width,
            &self.nonbasic_values,
        )?;
        Ok(true)
    }

    /// The solution at the start over a box, where each column is at the bound that its cost asks for, in the spare lists; the bounds of rows stand behind
    /// others. None where the numbers are too large. The one error is want of memory.
    pub(crate) fn start(
        alloc: Global,
        columns: &Option<CoefficientColumns>,
        start_sums: &mut StartSums,
        costs: &IntegerRow,
        area: &IntBox,
        bounds: &[IntegerBounds],
        spare: &mut BasicSolution,
    ) -> Result<Option<BasicSolution>, AllocError>
        requires area { length area.now ≡ length costs.now }
        requires there { length costs.now ≤ length bounds.now }
        requires columns { (ps : List (List ℤ)) × IfSome columns.now (AreColumnsOf ps) }
        ensures solution { IfOk result (λ o. IfSome o (λ n. IsStartSolution columns.now start_sums.old costs.now (map column_bounds area.now ++ drop (length costs.now) bounds.now) n)) }
        ensures sums { (ps : List (List ℤ)) → IfSome columns.now (AreColumnsOf ps) → AreColumnSums ps start_sums.old.values.items start_sums.old.sums.items → AreColumnSums ps start_sums.new.values.items start_sums.new.sums.items }
    {
        put_bounds(&mut spare.bounds, area, bounds)?;
        if !spare.put_start(alloc, columns, start_sums, costs)? {
            return Ok(None);
        }
        Ok(Some(mem::replace(spare, BasicSolution::empty(alloc))))
    }

    /// The tableau of the solution, which has a copy of its dictionary. The one error is want of memory.
    pub(crate) fn into_tableau(
        self,
        alloc: Global,
        numbers: &[u32],
        program_rows: &RcSlice<ProgramRow>,
        weight: u64,
        dictionaries: &Dictionaries,
        place: usize,
    ) -> Result<IntegerTableau, AllocError>
        requires there { place < length dictionaries.now.all }
        requires kept { (costs : List ℤ) × IsKept program_rows.now.items.value.items weight costs (kept_at dictionaries.now.all place) }
        requires at { IsAt program_rows.now.items.value.items weight (kept_at dictionaries.now.all place) self }
        ensures { IfOk result (λ t. t ≡ view_of numbers.now program_rows.now.items.value.items (kept_at dictionaries.now.all place) self) }
    {
        match self.into_running(alloc, numbers, program_rows, weight, dictionaries, place) {
            Ok((running, _)) => Ok(running.into_tableau()),
            Err(error) => Err(error),
        }
    }

    /// The same by its parts, and the sums of rows. The one error is want of memory.
    pub(crate) fn into_running(
        self,
        alloc: Global,
        numbers: &[u32],
        program_rows: &RcSlice<ProgramRow>,
        weight: u64,
        dictionaries: &Dictionaries,
        place: usize,
    ) -> Result<(RunningTableau, Vec<i64>), AllocError>
        requires there { place < length dictionaries.now.all }
        requires kept { (costs : List ℤ) × IsKept program_rows.now.items.value.items weight costs (kept_at dictionaries.now.all place) }
        requires at { IsAt program_rows.now.items.value.items weight (kept_at dictionaries.now.all place) self }
        ensures running { IfOk result (λ p. IsRunning p.0) }
        ensures view { IfOk result (λ p. running_view p.0 ≡ view_of numbers.now program_rows.now.items.value.items (kept_at dictionaries.now.all place) self) }
        ensures pivots { IfOk result (λ p. p.0.pivots ≡ self.pivots) }
        ensures rows { IfOk result (λ p. p.0.fixed.rows.items.value.items ≡ program_rows.now.items.value.items) }
        ensures sums { IfOk result (λ p. AreRowSums p.0.fixed.rows.items.value.items p.0.positions.items p.0.nonbasic_values.items p.1.items) }
    {
        let own = dictionaries.tableau_parts(alloc, numbers, program_rows, place)?;
        let running = RunningTableau {
            fixed: Fixed {
                numbers: own.numbers,
                bounds: self.bounds,
                rows: own.program_rows,
                weight,
                reach: self.reach,
            },
            positions: own.positions,
            nonbasic: own.nonbasic,
            at_upper: self.at_upper,
            nonbasic_values: self.nonbasic_values,
            rows: own.rows,
            reduced_costs: own.reduced_costs,
            values: self.values,
            basic_columns: own.basic_columns,
            denominator: dictionaries.divisor(place).number(),
            pivots: self.pivots,
        };
        Ok((running, self.row_sums))
    }
}
