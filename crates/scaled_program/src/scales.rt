// How many times its own a program's rows and costs are taken.

ghost use Rattle.std.specs.Prelude.{◌≡◌, IfOk};
ghost use Rattle.integer_tableau.specs.Scales.{scale_at};

use std::alloc::AllocError;
use std::rc::RcSlice;

/// A scale for each row and one for the costs, and the greatest of them.
#[derive(Drop)]
pub(crate) struct Scales {
    pub(crate) rows: RcSlice<u64>,
    pub(crate) costs: u64,
    pub(crate) greatest: u64,
}

impl Scales {
    /// The same, for another tableau. The one error is want of memory.
    pub(crate) fn share(&self) -> Result<Scales, AllocError>
        ensures rows { IfOk result (λ s. s.rows.items.value.items ≡ self.now.rows.items.value.items) }
        ensures costs { IfOk result (λ s. s.costs ≡ self.now.costs) }
        ensures greatest { IfOk result (λ s. s.greatest ≡ self.now.greatest) }
    {
        Ok(Scales {
            rows: self.rows.clone()?,
            costs: self.costs,
            greatest: self.greatest,
        })
    }

    /// The scale of a variable where so many columns, which aren't scaled, come before the rows' variables.
    pub(crate) fn of(&self, variable: usize, columns: usize) -> u64
        ensures { result ≡ scale_at columns self.now.rows.items.value.items variable }
    {
        if variable < columns || variable - columns >= self.rows.len() {
            1
        } else {
            self.rows[variable - columns]
        }
    }
}
