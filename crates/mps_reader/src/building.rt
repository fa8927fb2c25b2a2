//! The rows and the objective of a problem, from the reader's tables.

ghost use Rattle.std.specs.Prelude.{◌≡◌, ◌++◌, None, OnOk, get_or};
ghost use Rattle.std.specs.Option.{option_or};
ghost use Rattle.problem.specs.Rising.{AreRising, AreNonzero};
ghost use Rattle.mps_reader.specs.Building.{side_of, objective_with};
ghost use Rattle.mps_reader.specs.Meaning.{rows_from};

use crate::kinds::RowType;
use crate::side_table::SideTable;
use fraction::Frac;
use problem::{Row, Sense, Terms};
use std::alloc::AllocError;

/// The rows of a problem, and the objective where there is one.
#[derive(Drop)]
pub struct Parts {
    pub rows: Vec<Row>,
    pub objective: Option<Terms>,
}

impl Parts {
    /// Takes a row of the text: the first N row is the objective, a later one is dropped. The one error is want of memory.
    pub fn take(&mut self, kind: RowType, rhs: Frac, terms: Terms) -> Result<(), AllocError>
        requires rising { AreRising terms }
        requires nonzero { AreNonzero terms }
        ensures rows { OnOk result (self.new.rows.items ≡ self.old.rows.items ++ rows_from kind rhs None terms) }
        ensures objective { OnOk result (self.new.objective ≡ option_or self.old.objective (objective_with kind terms)) }
    {
        match kind {
            RowType::N => {
                if self.objective.is_none() {
                    self.objective = Some(terms);
                }
            }
            RowType::L => self.rows.push(Row::make(Sense::L, rhs, terms))?,
            RowType::G => self.rows.push(Row::make(Sense::G, rhs, terms))?,
            RowType::E => self.rows.push(Row::make(Sense::E, rhs, terms))?,
        }
        Ok(())
    }
}

/// The right side of a row: 0 where none is written.
pub fn side_at(sides: &SideTable, index: usize) -> Frac
    ensures { result ≡ side_of (get_or sides.now index None) }
{
    match sides.number_at(index) {
        Some(number) => number,
        None => Frac::of(0),
    }
}
