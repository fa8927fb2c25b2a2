// Tableaus in the course of a run.

ghost use Rattle.std.specs.Prelude.{◌≡◌, ◌≢◌, ℕ, ◌+◌, ◌<◌, ◌≤◌, ◌^◌, length, IfErr, IfOk, IfSome, IsTrue, MatchOption, Some};
ghost use Rattle.tableau.specs.Pivot.{pivoted};
ghost use Rattle.tableau.specs.Place.{place, PlaceIsWithin};
ghost use Rattle.tableau.specs.Run.{EndsAs, StepsTo, run_from, step_at};
ghost use Rattle.integer_tableau.specs.RowSums.{AreColumnsOf, AreRowSums};
ghost use Rattle.integer_tableau.specs.Running.{HasRow, IsRunning, running_view};

use crate::coefficient_columns::CoefficientColumns;
use crate::integer_row::IntegerRow;
use crate::integer_tableau::{Fixed, IntegerTableau};
use crate::pivot::{pivot_parts, put_row};
use crate::place::place_where_leaving;
use crate::position::Position;
use crate::row_sums::{leaving_with_sums, turn_kept_sums};
use crate::run::IntegerRunEnd;
use tableau::Place;

/// A tableau in the course of a run: its parts, which contracts see. A step changes them where they are.
#[derive(Drop)]
pub(crate) struct RunningTableau {
    pub(crate) fixed: Fixed,
    pub(crate) positions: Vec<Position>,
    pub(crate) nonbasic: Vec<usize>,
    pub(crate) at_upper: Vec<bool>,
    pub(crate) nonbasic_values: Vec<i64>,
    pub(crate) rows: Vec<IntegerRow>,
    pub(crate) reduced_costs: IntegerRow,
    pub(crate) values: Vec<i64>,
    pub(crate) basic_columns: Vec<usize>,
    pub(crate) denominator: i64,
    pub(crate) pivots: u64,
}

impl IntegerTableau {
    /// The same by its parts.
    pub(crate) fn into_running(self) -> RunningTableau
        ensures running { IsRunning result }
        ensures view { running_view result ≡ self }
    {
        RunningTableau {
            fixed: self.fixed,
            positions: self.positions,
            nonbasic: self.nonbasic,
            at_upper: self.at_upper,
            nonbasic_values: self.nonbasic_values,
            rows: self.rows,
            reduced_costs: self.reduced_costs,
            values: self.values,
            basic_columns: self.basic_columns,
            denominator: self.denominator,
            pivots: self.pivots,
        }
    }
}

impl RunningTableau {
    /// The tableau of these parts.
    pub(crate) fn into_tableau(self) -> IntegerTableau
        requires { IsRunning self }
        ensures { result ≡ running_view self }
    {
        IntegerTableau {
            fixed: self.fixed,
            positions: self.positions,
            nonbasic: self.nonbasic,
            at_upper: self.at_upper,
            nonbasic_values: self.nonbasic_values,
            rows: self.rows,
            reduced_costs: self.reduced_costs,
            values: self.values,
            basic_columns: self.basic_columns,
            denominator: self.denominator,
            pivots: self.pivots,
        }
    }

    /// What the tableau asks for next; none where the numbers are too large, or memory is wanting. Where that is a pivot, and the leaving row isn't kept,
    /// it is put into `room`. The sums of rows are taken where they are kept.
    fn place(
        &self,
        columns: &Option<CoefficientColumns>,
        row_sums: &[i64],
        room: &mut IntegerRow,
    ) -> Option<Place>
        requires running { IsRunning self.now }
        requires columns { IfSome columns.now (AreColumnsOf self.now.fixed.rows.items.value.items) }
        requires sums { AreRowSums self.now.fixed.rows.items.value.items self.now.positions.items self.now.nonbasic_values.items row_sums.now }
        ensures value { IfSome result (λ p. p ≡ place (running_view self.now)) }
        ensures within { IfSome result (λ p. PlaceIsWithin (length self.now.positions.items) p) }
        ensures exact { IfSome result (λ p. p ≢ Place.Cramped) }
        ensures row { IfSome result (λ p. (r c : ℕ) → p ≡ Place.Pivot r c → HasRow self.now r room.new) }
    {
        let Ok(found) = leaving_with_sums(
            *self.rows.allocator(),
            columns,
            row_sums,
            self.fixed.reach,
            &self.fixed.rows,
            &self.positions,
            &self.fixed.bounds,
            &self.nonbasic_values,
            &self.values,
            &self.basic_columns,
            self.denominator,
        ) else {
            return None;
        };
        match found {
            None => Some(Place::Done),
            Some((row, direction)) => place_where_leaving(
                row,
                direction,
                &self.fixed.rows,
                &self.positions,
                &self.nonbasic,
                &self.at_upper,
                &self.fixed.bounds,
                &self.rows,
                room,
                &self.reduced_costs,
                self.denominator,
            ),
        }
    }

    /// Takes variable `leaving` out of the basis and variable `entering` into it, as `IntegerTableau::pivot` does; `room` holds the leaving row if it isn't
    /// kept. False where this is given up; the tableau is of no use then.
    fn turn(
        &mut self,
        columns: &Option<CoefficientColumns>,
        row_sums: &mut Vec<i64>,
        room: &mut IntegerRow,
        leaving: usize,
        entering: usize,
    ) -> bool
        requires running { IsRunning self.old }
        requires columns { IfSome columns.now (AreColumnsOf self.old.fixed.rows.items.value.items) }
        requires sums { AreRowSums self.old.fixed.rows.items.value.items self.old.positions.items self.old.nonbasic_values.items row_sums.old.items }
        requires leaving_there { leaving < length self.old.positions.items }
        requires entering_there { entering < length self.old.positions.items }
        requires row { HasRow self.old leaving room.old }
        requires room { self.old.pivots + 1 < 2 ^ 64 }
        ensures value { IsTrue result → pivoted leaving entering (running_view self.old) ≡ Some (running_view self.new) }
        ensures counted { IsTrue result → self.new.pivots ≡ self.old.pivots + 1 }
        ensures running { IsTrue result → IsRunning self.new }
        ensures same { self.new.fixed ≡ self.old.fixed }
        ensures sums { IsTrue result → AreRowSums self.new.fixed.rows.items.value.items self.new.positions.items self.new.nonbasic_values.items row_sums.new.items }
    {
        let left = self.nonbasic_values[entering];
        let Some(denominator) = pivot_parts(
            &self.fixed.bounds,
            &self.fixed.rows,
            self.fixed.weight,
            self.fixed.reach,
            &mut self.positions,
            &mut self.nonbasic,
            &mut self.at_upper,
            &mut self.nonbasic_values,
            &mut self.rows,
            room,
            &mut self.reduced_costs,
            &mut self.values,
            &mut self.basic_columns,
            self.denominator,
            self.pivots,
            leaving,
            entering,
        ) else {
            return false;
        };
        let bound = self.nonbasic_values[leaving];
        turn_kept_sums(row_sums, columns, leaving, bound, entering, left);
        self.denominator = denominator;
        self.pivots += 1;
        true
    }

    /// As `turn`, without sums of rows; the leaving row is made here if it isn't kept. False also where memory is wanting for it.
    pub(crate) fn turn_alone(&mut self, leaving: usize, entering: usize) -> bool
        requires running { IsRunning self.old }
        requires leaving_there { leaving < length self.old.positions.items }
        requires entering_there { entering < length self.old.positions.items }
        requires room { self.old.pivots + 1 < 2 ^ 64 }
        ensures value { IsTrue result → pivoted leaving entering (running_view self.old) ≡ Some (running_view self.new) }
        ensures counted { IsTrue result → self.new.pivots ≡ self.old.pivots + 1 }
        ensures running { IsTrue result → IsRunning self.new }
    {
        let Position::InBasis = self.positions[leaving] else {
            return false;
        };
        let alloc = *self.rows.allocator();
        let mut room = IntegerRow::empty(alloc);
        let mut row_sums = Vec::new(alloc);
        if !put_row(
            &mut room,
            &self.fixed.rows,
            &self.positions,
            &self.rows,
            self.denominator,
            leaving,
        ) {
            return false;
        }
        self.turn(&None, &mut row_sums, &mut room, leaving, entering)
    }

    /// One step of the run: where it ends, if it ends here; none where it is given up.
    pub(crate) fn step(
        &mut self,
        columns: &Option<CoefficientColumns>,
        row_sums: &mut Vec<i64>,
        room: &mut IntegerRow,
    ) -> Option<Option<Place>>
        requires running { IsRunning self.old }
        requires columns { IfSome columns.now (AreColumnsOf self.old.fixed.rows.items.value.items) }
        requires sums { AreRowSums self.old.fixed.rows.items.value.items self.old.positions.items self.old.nonbasic_values.items row_sums.old.items }
        requires room { self.old.pivots + 1 < 2 ^ 64 }
        ensures value { IfSome result (λ o. StepsTo (step_at (running_view self.old) (place (running_view self.old))) o (running_view self.new)) }
        ensures counted { IfSome result (λ o. MatchOption o (self.new.pivots ≡ self.old.pivots + 1) (λ _. self.new.pivots ≡ self.old.pivots)) }
        ensures within { IfSome result (λ o. IfSome o (λ p. PlaceIsWithin (length self.new.positions.items) p)) }
        ensures exact { IfSome result (λ o. IfSome o (λ p. p ≢ Place.Cramped)) }
        ensures running { IfSome result (λ o. IsRunning self.new) }
        ensures same { self.new.fixed ≡ self.old.fixed }
        ensures sums { IfSome result (λ o. AreRowSums self.new.fixed.rows.items.value.items self.new.positions.items self.new.nonbasic_values.items row_sums.new.items) }
    {
        let Some(place) = self.place(columns, row_sums, room) else {
            return None;
        };
        let Place::Pivot { row, column } = place else {
            return Some(Some(place));
        };
        if self.turn(columns, row_sums, room, row, column) {
            Some(None)
        } else {
            None
        }
    }

    /// The run with at most `cap` further pivots, as `IntegerTableau::run` makes it, by the columns of the linear program and the sums of its rows where they
    /// are kept.
    pub(crate) fn run(
        self,
        columns: &Option<CoefficientColumns>,
        row_sums: Vec<i64>,
        cap: u64,
    ) -> Result<IntegerRunEnd, u64>
        requires running { IsRunning self }
        requires columns { IfSome columns.now (AreColumnsOf self.fixed.rows.items.value.items) }
        requires sums { AreRowSums self.fixed.rows.items.value.items self.positions.items self.nonbasic_values.items row_sums.items }
        requires room { self.pivots + cap < 2 ^ 64 }
        ensures value { IfOk result (λ e. EndsAs (run_from cap (running_view self)) e.place e.tableau) }
        ensures within { IfOk result (λ e. PlaceIsWithin (length e.tableau.statuses) e.place) }
        ensures exact { IfOk result (λ e. e.place ≢ Place.Cramped) }
        ensures more { IfOk result (λ e. self.pivots ≤ e.tableau.pivots) }
        ensures capped { IfOk result (λ e. e.tableau.pivots ≤ self.pivots + cap) }
        ensures given_up { IfErr result (λ made. made ≤ cap) }
    {
        let mut running = self;
        let mut row_sums = row_sums;
        let mut room = IntegerRow::empty(*running.rows.allocator());
        for made in 0..cap {
            match running.step(columns, &mut row_sums, &mut room) {
                Some(None) => {}
                Some(Some(place)) => {
                    let tableau = running.into_tableau();
                    return Ok(IntegerRunEnd { place, tableau });
                }
                None => return Err(made),
            }
        }
        match running.place(columns, &row_sums, &mut room) {
            Some(place) => {
                let tableau = running.into_tableau();
                Ok(IntegerRunEnd { place, tableau })
            }
            None => Err(cap),
        }
    }
}
