// The run of a linear program over a box.

ghost use Rattle.std.specs.Prelude.{◌≡◌, ◌≢◌, ◌≤◌, ◌++◌, drop, length, map, IfOk, IfErr, IfSome};
ghost use Rattle.tableau.specs.LinearProgram.{over};
ghost use Rattle.tableau.specs.Place.{PlaceIsWithin};
ghost use Rattle.integer_tableau.specs.FinalNumbers.{AreNumbersOver};
ghost use Rattle.integer_tableau.specs.IntegerProgram.{CanStart, column_bounds, fraction_program};
ghost use Rattle.integer_tableau.specs.Kept.{AreKept};
ghost use Rattle.integer_tableau.specs.RowSums.{AreColumnsOf, AreColumnSums};
ghost use Rattle.integer_tableau.specs.Run.{IsRunOver};
ghost use Rattle.integer_tableau.specs.StoredRun.{IsStoredRun};

use crate::basic_solution::BasicSolution;
use crate::coefficient_columns::CoefficientColumns;
use crate::dictionary::Dictionaries;
use crate::dictionary_store::DictionaryStore;
use crate::final_numbers::FinalNumbers;
use crate::integer_bounds::IntegerBounds;
use crate::integer_program::IntegerProgram;
use crate::integer_row::IntegerRow;
use crate::program_row::ProgramRow;
use crate::run::IntegerRunEnd;
use crate::start_sums::StartSums;
use crate::stored_run::{StoredEnd, run_alone, run_stored};
use problem_box::IntBox;
use std::alloc::{AllocError, Global};
use std::rc::RcSlice;
use tableau::Place;

/// How the run over a box from the start ends, with at most `cap` pivots: it goes by the dictionaries of the store where that is ready, else by a
/// tableau of its own. None where there is no start on such numbers. The error inside says that the run is given up, and how many pivots it made
/// before. The one error outside is want of memory.
fn end_over(
    alloc: Global,
    area: &IntBox,
    cap: u64,
    numbers: &[u32],
    program_rows: &RcSlice<ProgramRow>,
    columns: &Option<CoefficientColumns>,
    start_sums: &mut StartSums,
    weight: u64,
    costs: &IntegerRow,
    bounds: &[IntegerBounds],
    store: &mut DictionaryStore,
) -> Result<Option<Result<StoredEnd, u64>>, AllocError>
    requires program { CanStart program_rows.now.items.value.items weight costs.now bounds.now }
    requires area { length area.now ≡ length costs.now }
    requires columns { IfSome columns.now (AreColumnsOf program_rows.now.items.value.items) }
    requires sums { AreColumnSums program_rows.now.items.value.items start_sums.old.values.items start_sums.old.sums.items }
    requires kept { AreKept program_rows.now.items.value.items weight costs.now store.old.kept }
    ensures run { IfOk result (λ o. IfSome o (λ r. IfOk r (IsStoredRun numbers.now program_rows.now.items.value.items weight store.new.kept (fraction_program program_rows.now.items.value.items costs.now (map column_bounds area.now ++ drop (length costs.now) bounds.now) numbers.now) cap))) }
    ensures given_up { IfOk result (λ o. IfSome o (λ r. IfErr r (λ made. made ≤ cap))) }
    ensures sums { AreColumnSums program_rows.now.items.value.items start_sums.new.values.items start_sums.new.sums.items }
    ensures kept { AreKept program_rows.now.items.value.items weight costs.now store.new.kept }
{
    let ready = store.is_ready(program_rows.len(), costs);
    let spare = &mut store.spare;
    let Some(solution) = BasicSolution::start(
        alloc, columns, start_sums, costs, area, bounds, spare,
    )?
    else {
        return Ok(None);
    };
    if ready {
        return Ok(Some(run_stored(
            alloc,
            numbers,
            program_rows,
            columns,
            weight,
            store,
            solution,
            cap,
        )));
    }
    let start = Dictionaries::at_start(alloc, program_rows.len(), costs)?;
    Ok(Some(run_alone(
        alloc,
        numbers,
        program_rows,
        columns,
        weight,
        &start,
        0,
        solution,
        cap,
    )))
}

impl IntegerProgram {
    /// The run over a box from the start with at most `cap` pivots, each the one that the tableau before it asks for. Its place is a pivot
    /// exactly where it met the cap. None where there is no start on such numbers.
    ///
    /// The error inside says that the run is given up, and how many pivots it made before. The one error outside is want of memory. What the
    /// program keeps from one run to the next may change, and contracts don't see it.
    pub fn run_over(
        &mut self,
        alloc: Global,
        area: &IntBox,
        cap: u64,
    ) -> Result<Option<Result<IntegerRunEnd, u64>>, AllocError>
        requires { length area.now ≡ length self.old.costs }
        ensures value { IfOk result (λ o. IfSome o (λ r. IfOk r (λ e. IsRunOver (over self.old area.now) cap e.place e.tableau))) }
        ensures within { IfOk result (λ o. IfSome o (λ r. IfOk r (λ e. PlaceIsWithin (length e.tableau.statuses) e.place))) }
        ensures exact { IfOk result (λ o. IfSome o (λ r. IfOk r (λ e. e.place ≢ Place.Cramped))) }
        ensures capped { IfOk result (λ o. IfSome o (λ r. IfOk r (λ e. e.tableau.pivots ≤ cap))) }
        ensures given_up { IfOk result (λ o. IfSome o (λ r. IfErr r (λ made. made ≤ cap))) }
        ensures same { self.new ≡ self.old }
    {
        let end = match end_over(
            alloc,
            area,
            cap,
            &self.numbers,
            &self.rows,
            &self.columns,
            &mut self.start_sums,
            self.weight,
            &self.costs,
            &self.bounds,
            &mut self.store,
        )? {
            Some(Ok(end)) => end,
            Some(Err(made)) => return Ok(Some(Err(made))),
            None => return Ok(None),
        };
        Ok(Some(end.into_run_end(
            alloc,
            &self.numbers,
            &self.rows,
            self.weight,
            &self.store.kept,
        )))
    }

    /// The same run, of whose tableau nothing is told but these numbers: where it ends by what is kept, no tableau is made. None where there is no
    /// start on such numbers.
    ///
    /// The error inside says that the run is given up, and how many pivots it made before. The one error outside is want of memory. What the
    /// program keeps from one run to the next may change, and contracts don't see it.
    pub fn numbers_over(
        &mut self,
        alloc: Global,
        area: &IntBox,
        cap: u64,
    ) -> Result<Option<Result<FinalNumbers, u64>>, AllocError>
        requires { length area.now ≡ length self.old.costs }
        ensures value { IfOk result (λ o. IfSome o (λ r. IfOk r (AreNumbersOver (over self.old area.now) cap))) }
        ensures exact { IfOk result (λ o. IfSome o (λ r. IfOk r (λ n. n.place ≢ Place.Cramped))) }
        ensures capped { IfOk result (λ o. IfSome o (λ r. IfOk r (λ n. n.pivots ≤ cap))) }
        ensures given_up { IfOk result (λ o. IfSome o (λ r. IfErr r (λ made. made ≤ cap))) }
        ensures same { self.new ≡ self.old }
    {
        let end = match end_over(
            alloc,
            area,
            cap,
            &self.numbers,
            &self.rows,
            &self.columns,
            &mut self.start_sums,
            self.weight,
            &self.costs,
            &self.bounds,
            &mut self.store,
        )? {
            Some(Ok(end)) => end,
            Some(Err(made)) => return Ok(Some(Err(made))),
            None => return Ok(None),
        };
        let numbers = end.final_numbers(
            alloc,
            &self.numbers,
            &self.rows,
            self.weight,
            &self.store.kept,
            &mut self.store.spare,
        )?;
        Ok(Some(numbers))
    }
}
