// Tableaus on whole numbers.

ghost use Rattle.std.specs.Prelude.{◌≡◌, ◌≢◌, ◌<◌, [], length, slice_index_or, IfSome};
ghost use Rattle.tableau.specs.Place.{place, PlaceIsWithin};

use crate::integer_bounds::IntegerBounds;
use crate::integer_row::IntegerRow;
use crate::leaving::leaving;
use crate::place::place_where_leaving;
use crate::position::Position;
use crate::program_row::ProgramRow;
use std::marker::Model;
use std::rc::RcSlice;
use tableau::Place;

/// What pivots leave as it is.
#[derive(Drop)]
pub(crate) struct Fixed {
    /// The numbers by which multipliers name the rows.
    pub(crate) numbers: Vec<u32>,
    pub(crate) bounds: Vec<IntegerBounds>,
    /// The coefficients of the linear program's rows, which its tableaus share.
    pub(crate) rows: RcSlice<ProgramRow>,
    /// No row has coefficients that are greater together.
    pub(crate) weight: u64,
    /// No column has a greater bound.
    pub(crate) reach: u64,
}

impl Fixed {
    /// The coefficients of a row of the linear program.
    pub(crate) fn row(&self, place: usize) -> &ProgramRow
        requires { place < length self.now.rows.items.value.items }
        ensures { result.now ≡ slice_index_or self.now.rows.items.value.items place [] }
    {
        &self.rows[place]
    }
}

/// A tableau of a linear program on whole numbers over one denominator. Contracts see the tableau of fractions that it stands for.
///
/// Variables are numbered from 0: first the columns, then the values of the rows. Rows and values are kept of the columns alone: those of
/// another variable are a combination of them, by the linear program's row. This is integer pivoting (Edmonds 1967), with the exact
/// divisions of Bareiss (1968). That a division is exact is tested. A call that would make numbers too large gives up.
#[derive(Drop)]
pub struct IntegerTableau {
    pub(crate) fixed: Fixed,
    pub(crate) positions: Vec<Position>,
    /// The variable of each column of the rows.
    pub(crate) nonbasic: Vec<usize>,
    pub(crate) at_upper: Vec<bool>,
    pub(crate) nonbasic_values: Vec<i64>,
    /// Of each column: none where it isn't basic.
    pub(crate) rows: Vec<IntegerRow>,
    pub(crate) reduced_costs: IntegerRow,
    /// Of each column.
    pub(crate) values: Vec<i64>,
    /// The basic columns, by rising number.
    pub(crate) basic_columns: Vec<usize>,
    pub(crate) denominator: i64,
    pub(crate) pivots: u64,
}

impl Model for IntegerTableau {
    ghost use Rattle.std.specs.Prelude.{◌≡◌, pos, ◌<ℤ◌, length};
    ghost use Rattle.tableau.specs.Tableau.{Tableau as Described};
    ghost use Rattle.integer_tableau.specs.IntegerTableau.{tableau_of, of_parts};
    ghost use Rattle.integer_tableau.specs.Combined.{expanded, IsCompact};
    ghost use Rattle.integer_tableau.specs.Positions.{AreNonbasic};
    ghost use Rattle.integer_tableau.specs.BasicColumns.{basic_from};

    ghost Value = { Described };

    ghost view = { λ t. tableau_of (length t.rows.items) t.fixed.numbers.items (expanded t.fixed.rows.items.value.items (of_parts t.fixed.bounds.items t.positions.items t.at_upper.items t.nonbasic_values.items t.rows.items t.reduced_costs t.values.items t.denominator t.pivots)) };

    ghost invariant = { λ t. IsCompact t.fixed.rows.items.value.items t.fixed.weight t.fixed.reach (of_parts t.fixed.bounds.items t.positions.items t.at_upper.items t.nonbasic_values.items t.rows.items t.reduced_costs t.values.items t.denominator t.pivots) × (pos 0 <ℤ t.denominator) × AreNonbasic t.positions.items t.nonbasic.items × (length t.nonbasic.items ≡ length t.rows.items) × (t.basic_columns.items ≡ basic_from 0 (length t.rows.items) t.positions.items) };
}

impl IntegerTableau {
    /// How many pivots led here.
    pub fn pivots(&self) -> u64
        ensures { result ≡ self.now.pivots }
    {
        self.pivots
    }

    /// What the tableau asks for next; none where the numbers are too large, or memory is wanting. It takes memory, which it gives back:
    /// for the columns' values where no column leaves, and for the row of a row's variable that leaves.
    pub fn next_place(&self) -> Option<Place>
        ensures value { IfSome result (λ p. p ≡ place self.now) }
        ensures within { IfSome result (λ p. PlaceIsWithin (length self.now.statuses) p) }
        ensures exact { IfSome result (λ p. p ≢ Place.Cramped) }
    {
        let Ok(found) = leaving(
            *self.rows.allocator(),
            &self.fixed.rows,
            &self.positions,
            &self.fixed.bounds,
            &self.nonbasic_values,
            &self.values,
            &self.basic_columns,
            self.denominator,
        ) else {
            return None;
        };
        match found {
            None => Some(Place::Done),
            Some((row, direction)) => place_where_leaving(
                row,
                direction,
                &self.fixed.rows,
                &self.positions,
                &self.nonbasic,
                &self.at_upper,
                &self.fixed.bounds,
                &self.rows,
                &mut IntegerRow::empty(*self.rows.allocator()),
                &self.reduced_costs,
                self.denominator,
            ),
        }
    }
}
