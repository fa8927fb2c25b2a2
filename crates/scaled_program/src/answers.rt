// What a tableau answers: the point, and the multipliers of rows that it names.

ghost use Rattle.std.specs.Prelude.{◌≡◌, ◌<◌, length, IfOk};
ghost use Rattle.tableau.specs.Multipliers.{point_of, mult_of_cost, mult_of_row};

use crate::scaled_tableau::ScaledTableau;
use crate::unscaling::unscaled_row;
use fraction::Frac;
use problem::Terms;
use std::alloc::{AllocError, Global};
use tableau::named_multipliers;

impl ScaledTableau {
    /// The values of the columns. The one error is want of memory.
    pub fn point(&self, alloc: Global) -> Result<Vec<Frac>, AllocError>
        ensures { IfOk result (λ v. v.items ≡ point_of self.now) }
    {
        self.tableau.point(alloc)
    }

    /// For each row, by its number, the reduced cost of its variable, but those that are 0. The one error is want of memory.
    pub fn mult_of_cost(&self, alloc: Global) -> Result<Terms, AllocError>
        ensures { IfOk result (λ m. m ≡ mult_of_cost self.now) }
    {
        let scaled = self.tableau.cost_multipliers(alloc)?;
        let multipliers = unscaled_row(alloc, &scaled, 0, 0, &self.scales, self.scales.costs)?;
        named_multipliers(alloc, self.tableau.numbers(), 0, &multipliers)
    }

    /// For each row, by its number, its multiplier in what the row of variable `row`, which is outside its bounds, says of the box, but those
    /// that are 0. The one error is want of memory.
    pub fn mult_of_row(&self, alloc: Global, row: usize) -> Result<Terms, AllocError>
        requires { row < length self.now.statuses }
        ensures { IfOk result (λ m. m ≡ mult_of_row self.now row) }
    {
        let unit = self.scales.of(row, self.tableau.columns());
        let scaled = self.tableau.row_multipliers(alloc, row)?;
        let multipliers = unscaled_row(alloc, &scaled, 0, 0, &self.scales, unit)?;
        named_multipliers(alloc, self.tableau.numbers(), 0, &multipliers)
    }
}
