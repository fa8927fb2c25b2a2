//! The terms of a row.

ghost use Rattle.std.specs.Prelude.{◌≡◌, OnOk};
ghost use Rattle.mps_reader.specs.Meaning.{is_zero};
ghost use Rattle.mps_reader.specs.RowState.{with_term};

use fraction::Frac;
use problem::Terms;
use std::alloc::AllocError;

/// Whether a number is 0.
fn is_zero(number: Frac) -> bool
    ensures { result ≡ is_zero number }
{
    number.numer() == 0
}

/// A row that keeps its terms: its index, the place of the column that named it last, and its terms so far.
#[derive(Drop)]
pub struct TermRow {
    pub row: u32,
    pub named_by: Option<u16>,
    pub terms: Terms,
}

impl TermRow {
    /// Takes the number of the column at a place. A number that is 0 gives no term. The one error is want of memory.
    pub fn take(&mut self, place: u16, number: Frac) -> Result<(), AllocError>
        ensures row { self.new.row ≡ self.old.row }
        ensures named_by { self.new.named_by ≡ Some place }
        ensures terms { OnOk result (self.new.terms ≡ with_term place number self.old.terms) }
    {
        self.named_by = Some(place);
        if is_zero(number) {
            return Ok(());
        }
        self.terms.push(u32::from(place), number)
    }
}
