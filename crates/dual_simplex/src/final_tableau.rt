//! The tableau that a run left.

ghost use Rattle.std.specs.Prelude.{◌≡◌, ◌<◌, length, IfOk};
ghost use Rattle.tableau.specs.Multipliers.{point_of, mult_of_cost, mult_of_row};

use fraction::Frac;
use integer_tableau::IntegerTableau;
use problem::Terms;
use scaled_program::ScaledTableau;
use std::alloc::{AllocError, Global};
use std::marker::Model;
use tableau::Tableau;

/// The tableau that a run left, in the form in which the run made it. Contracts see the tableau of fractions.
pub struct FinalTableau {
    pub(crate) form: Form,
}

/// By hand (docs/DECISIONS.md, entry 98).
impl Drop for FinalTableau {
    fn drop(self) {
        let FinalTableau { form } = self;
        match form {
            Form::Integers(tableau) => drop(tableau),
            Form::Scaled(tableau) => drop(tableau),
            Form::Fractions(tableau) => drop(tableau),
        }
    }
}

/// How the numbers are kept.
#[derive(Drop)]
pub(crate) enum Form {
    /// Whole numbers over one denominator.
    Integers(IntegerTableau),
    /// Whole numbers that are so many times the tableau's own, over one denominator.
    Scaled(ScaledTableau),
    /// A fraction each.
    Fractions(Tableau),
}

impl Model for FinalTableau {
    ghost use Rattle.tableau.specs.Tableau.{Tableau as Described};
    ghost use Rattle.dual_simplex.specs.Forms.{tableau_of};

    ghost Value = { Described };

    ghost view = { λ t. tableau_of t.form };
}

impl FinalTableau {
    /// A tableau of whole numbers over one denominator.
    pub(crate) fn of_integers(tableau: IntegerTableau) -> FinalTableau
        ensures { result ≡ tableau }
    {
        FinalTableau {
            form: Form::Integers(tableau),
        }
    }

    /// A tableau of scaled whole numbers.
    pub(crate) fn of_scaled(tableau: ScaledTableau) -> FinalTableau
        ensures { result ≡ tableau }
    {
        FinalTableau {
            form: Form::Scaled(tableau),
        }
    }

    /// A tableau of fractions.
    pub(crate) fn of_fractions(tableau: Tableau) -> FinalTableau
        ensures { result ≡ tableau }
    {
        FinalTableau {
            form: Form::Fractions(tableau),
        }
    }

    /// How many pivots led here.
    pub fn pivots(&self) -> u64
        ensures { result ≡ self.now.pivots }
    {
        match &self.form {
            Form::Integers(tableau) => tableau.pivots(),
            Form::Scaled(tableau) => tableau.pivots(),
            Form::Fractions(tableau) => tableau.pivots(),
        }
    }

    /// The values of the columns. The one error is want of memory.
    pub fn point(&self, alloc: Global) -> Result<Vec<Frac>, AllocError>
        ensures { IfOk result (λ v. v.items ≡ point_of self.now) }
    {
        match &self.form {
            Form::Integers(tableau) => tableau.point(alloc),
            Form::Scaled(tableau) => tableau.point(alloc),
            Form::Fractions(tableau) => tableau.point(alloc),
        }
    }

    /// For each row, by its number, the reduced cost of its variable, but those that are 0. The one error is want of memory.
    pub fn mult_of_cost(&self, alloc: Global) -> Result<Terms, AllocError>
        ensures { IfOk result (λ m. m ≡ mult_of_cost self.now) }
    {
        match &self.form {
            Form::Integers(tableau) => tableau.mult_of_cost(alloc),
            Form::Scaled(tableau) => tableau.mult_of_cost(alloc),
            Form::Fractions(tableau) => tableau.mult_of_cost(alloc),
        }
    }

    /// For each row, by its number, its multiplier in what the row of variable `row`, which is outside its bounds, says of the box, but those
    /// that are 0. The one error is want of memory.
    pub fn mult_of_row(&self, alloc: Global, row: usize) -> Result<Terms, AllocError>
        requires { row < length self.now.statuses }
        ensures { IfOk result (λ m. m ≡ mult_of_row self.now row) }
    {
        match &self.form {
            Form::Integers(tableau) => tableau.mult_of_row(alloc, row),
            Form::Scaled(tableau) => tableau.mult_of_row(alloc, row),
            Form::Fractions(tableau) => tableau.mult_of_row(alloc, row),
        }
    }
}
