// What a tableau says of one variable.

ghost use Rattle.std.specs.Prelude.{◌≡◌, ◌<◌, ◌≤◌, length, drop, IfOk};
ghost use Rattle.tableau.specs.Tableau.{status_of, row_of};

use crate::scaled_tableau::ScaledTableau;
use crate::unscaling::unscaled_row;
use fraction::Frac;
use std::alloc::{AllocError, Global};
use tableau::BasisStatus;

impl ScaledTableau {
    /// Whether a variable is basic, or else at which of its bounds it is.
    pub fn status(&self, variable: usize) -> BasisStatus
        requires { variable < length self.now.statuses }
        ensures { result ≡ status_of self.now variable }
    {
        self.tableau.status(variable)
    }

    /// The coefficients of the variables from `first` on in the row of a basic variable; none for another one. The one error is want of memory.
    pub fn coefficients_from(
        &self,
        alloc: Global,
        variable: usize,
        first: usize,
    ) -> Result<Vec<Frac>, AllocError>
        requires variable_there { variable < length self.now.statuses }
        requires first_there { first ≤ length self.now.statuses }
        ensures { IfOk result (λ v. v.items ≡ drop first (row_of self.now variable)) }
    {
        self.tableau.sizes_hold();
        let columns = self.tableau.columns();
        let unit = self.scales.of(variable, columns);
        let scaled = self.tableau.coefficients_from(alloc, variable, first)?;
        unscaled_row(alloc, &scaled, first, columns, &self.scales, unit)
    }
}
