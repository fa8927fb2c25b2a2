// What a turn changes of a solution.

ghost use Rattle.std.specs.Prelude.{◌≡◌, ◌<◌, ◌+◌, ◌*◌, ◌^◌, ◌+ℤ◌, ◌-ℤ◌, ◌*ℤ◌, ℕ, ℤ, pos, nat_abs, length, slice_index_or, IfSome, IsTrue};
ghost use Rattle.integer_tableau.specs.Arena.{flat_row};
ghost use Rattle.integer_tableau.specs.Kept.{kept_at};
ghost use Rattle.integer_tableau.specs.Numbers.{number_at};
ghost use Rattle.integer_tableau.specs.RowSums.{AreColumnsOf};
ghost use Rattle.integer_tableau.specs.StoredRun.{IsSolutionOf, IsTurnAt, IsTurned, dictionary_at};

use crate::basic_solution::BasicSolution;
use crate::coefficient_columns::CoefficientColumns;
use crate::dictionary::Dictionaries;
use crate::divisor::Divisor;
use crate::pivot::{is_near, is_upper, size_of};
use crate::position::Position;
use crate::program_row::ProgramRow;
use crate::request::Turn;
use crate::row_sums::{turn_kept_sums, value_with_sums};
use crate::values::{entering_value, put_value, substituted_value};

/// The values of the basic columns behind a turn, by the column of the entering variable in their rows; false where one isn't exact, or is too large.
#[inline(always)]
fn step_basic_values(
    values: &mut [i64],
    basic_columns: &[usize],
    rows: &[i64],
    width: usize,
    column: usize,
    left: i64,
    size: i64,
    entering: i128,
    divisor: Divisor,
) -> bool
    requires rise { (p q : ℕ) → p < q → q < length basic_columns.now → slice_index_or basic_columns.now p 0 < slice_index_or basic_columns.now q 0 }
    requires there { (p : ℕ) → p < length basic_columns.now → slice_index_or basic_columns.now p 0 < length values.old }
    requires rows_there { length rows.now ≡ length basic_columns.now * width }
    requires column { column < width }
    ensures basic { IsTrue result → (p : ℕ) → p < length basic_columns.now → number_at values.new (slice_index_or basic_columns.now p 0) *ℤ divisor.number ≡ (number_at values.old (slice_index_or basic_columns.now p 0) -ℤ number_at (flat_row width rows.now p) column *ℤ left) *ℤ size +ℤ entering *ℤ number_at (flat_row width rows.now p) column }
{
    for (index, basic) in basic_columns.iter().enumerate() {
        let v = *basic;
        let Some(after) = substituted_value(
            values[v],
            rows[index * width + column],
            left,
            size,
            entering,
            divisor,
        ) else {
            return false;
        };
        values[v] = after;
    }
    true
}

impl BasicSolution {
    /// Takes the solution along a turn, the size of whose pivot is this one; false where that is given up, since numbers grow too large.
    /// The solution is of no use then.
    #[inline(never)]
    pub(crate) fn turn(
        &mut self,
        program_rows: &[ProgramRow],
        columns: &Option<CoefficientColumns>,
        dictionaries: &Dictionaries,
        place: usize,
        turn: Turn,
        size: i64,
    ) -> bool
        requires solution { IsSolutionOf program_rows.now (kept_at dictionaries.now.all place) self.old }
        requires columns { IfSome columns.now (AreColumnsOf program_rows.now) }
        requires there { place < length dictionaries.now.all }
        requires turn { IsTurnAt program_rows.now (dictionary_at dictionaries.now place) self.old turn }
        requires size { size ≡ pos (nat_abs turn.coefficient) }
        requires some { 0 < nat_abs turn.coefficient }
        requires room { self.old.pivots + 1 < 2 ^ 64 }
        ensures turned { IsTrue result → (bound : ℤ) × IsTurned program_rows.now (dictionary_at dictionaries.now place) self.old turn size bound self.new }
        ensures near { IsTrue result → self.old.reach * nat_abs size < 2 ^ 63 }
    {
        if !is_near(self.reach, size) {
            return false;
        }
        let divisor = dictionaries.divisor(place);
        let basic_columns = dictionaries.basic_columns(place);
        let value = value_with_sums(
            columns,
            &self.row_sums,
            self.reach,
            turn.leaving,
            program_rows,
            &self.positions,
            &self.nonbasic_values,
            &self.values,
            basic_columns,
            divisor.number(),
        );
        let bound = self.bounds[turn.leaving].violated(turn.direction);
        let left = self.nonbasic_values[turn.entering];
        let Some(entering) = entering_value(value, turn.coefficient, left, divisor.number(), bound)
        else {
            return false;
        };
        if !step_basic_values(
            &mut self.values,
            basic_columns,
            dictionaries.rows(place),
            dictionaries.width,
            turn.column,
            left,
            size,
            entering,
            divisor,
        ) || !put_value(&mut self.values, turn.entering, entering)
        {
            return false;
        }
        turn_kept_sums(
            &mut self.row_sums,
            columns,
            turn.leaving,
            bound,
            turn.entering,
            left,
        );
        self.nonbasic_values[turn.leaving] = bound;
        self.nonbasic_values[turn.entering] = 0;
        self.positions[turn.leaving] = Position::InColumn(turn.column);
        self.positions[turn.entering] = Position::InBasis;
        self.at_upper[turn.leaving] = is_upper(turn.direction);
        self.at_upper[turn.entering] = false;
        self.pivots += 1;
        true
    }
}
