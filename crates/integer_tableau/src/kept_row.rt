// The row of a variable of a dictionary that is kept.

ghost use Rattle.std.specs.Prelude.{◌≡◌, ◌<◌, ℕ, ℤ, List, length, slice_index_or, OnOk};
ghost use Rattle.integer_tableau.specs.Kept.{IsKept, kept_at, row_in};

use crate::basic_columns::place_of;
use crate::dictionary::Dictionaries;
use crate::integer_row::IntegerRow;
use crate::position::Position;
use crate::program_row::ProgramRow;
use std::alloc::AllocError;

/// Makes a list that of the coefficients of a row, so many. The one error is want of memory.
fn spread(into: &mut Vec<i64>, row: &ProgramRow, width: usize) -> Result<(), AllocError>
    requires { width ≡ length row.now }
    ensures { OnOk result (into.new.items ≡ row.now) }
{
    into.clear();
    into.resize(width, 0)?;
    for entry in row.entries() {
        into[entry.place] = entry.number;
    }
    Ok(())
}

impl Dictionaries {
    /// Makes a row that of a basic variable of a dictionary. The one error is want of memory.
    pub(crate) fn put_row(
        &self,
        place: usize,
        program_rows: &[ProgramRow],
        variable: usize,
        coefficients: &mut Vec<i64>,
        row: &mut IntegerRow,
    ) -> Result<(), AllocError>
        requires there { place < length self.now.all }
        requires kept { (weight : ℕ) × (costs : List ℤ) × IsKept program_rows.now weight costs (kept_at self.now.all place) }
        requires variable_there { variable < length (kept_at self.now.all place).positions }
        requires basic { slice_index_or (kept_at self.now.all place).positions variable Position.InBasis ≡ Position.InBasis }
        ensures { OnOk result (row.new ≡ row_in program_rows.now (kept_at self.now.all place) variable) }
    {
        let rows = self.rows(place);
        let nonbasic = self.nonbasic(place);
        let basic_columns = self.basic_columns(place);
        let width = nonbasic.len();
        if variable < width {
            let from = place_of(basic_columns, variable) * width;
            return row.put(&rows[from..from + width]);
        }
        spread(coefficients, &program_rows[variable - width], width)?;
        let denominator = self.divisor(place).number();
        if row.combine_kept(coefficients, nonbasic, basic_columns, rows, denominator) {
            Ok(())
        } else {
            Err(AllocError)
        }
    }
}
