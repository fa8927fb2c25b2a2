// Tableaus.

ghost use Rattle.std.specs.Prelude.{◌≡◌, length};
ghost use Rattle.tableau.specs.Place.{place, PlaceIsWithin};

use crate::bounds::Bounds;
use crate::elimination::Workspace;
use crate::place::{Place, place_of};
use crate::sparse_row::SparseRow;
use crate::status::BasisStatus;
use fraction::Frac;
use std::marker::Model;

/// A tableau of a linear program over exact fractions: which variables are basic, and what each row says of its basic variable.
///
/// Variables are numbered from 0: first the columns, then the values of the rows. A row keeps those coefficients alone that aren't 0
/// (docs/DECISIONS.md, entry 91).
pub struct Tableau {
    pub(crate) columns: usize,
    pub(crate) numbers: Vec<u32>,
    pub(crate) bounds: Vec<Bounds>,
    pub(crate) statuses: Vec<BasisStatus>,
    pub(crate) nonbasic_values: Vec<Frac>,
    pub(crate) rows: Vec<SparseRow>,
    pub(crate) reduced_costs: SparseRow,
    pub(crate) values: Vec<Frac>,
    pub(crate) pivots: u64,
    pub(crate) work: Workspace,
}

/// By hand (docs/DECISIONS.md, entry 98).
impl Drop for Tableau {
    fn drop(self) {
        let Tableau {
            columns: _,
            numbers: _,
            bounds: _,
            statuses: _,
            nonbasic_values: _,
            rows: _,
            reduced_costs: _,
            values: _,
            pivots: _,
            work: _,
        } = self;
    }
}

impl Model for Tableau {
    ghost use Rattle.std.specs.Prelude.{length, ◌≡◌, ◌≤◌, ◌<◌, ◌^◌};
    ghost use Rattle.tableau.specs.Tableau.{Tableau as Described};

    ghost Value = { Described };

    ghost view = { λ t. record { columns = t.columns; numbers = t.numbers.items; bounds = t.bounds.items; statuses = t.statuses.items; nonbasic_values = t.nonbasic_values.items; rows = t.rows.items; reduced_costs = t.reduced_costs; values = t.values.items; pivots = t.pivots } };

    ghost invariant = { λ t. (t.columns ≤ length t.statuses.items) × (length t.bounds.items ≡ length t.statuses.items) × (length t.nonbasic_values.items ≡ length t.statuses.items) × (length t.rows.items ≡ length t.statuses.items) × (length t.reduced_costs ≡ length t.statuses.items) × (length t.values.items ≡ length t.statuses.items) × (length t.statuses.items < 2 ^ 32) };
}

impl Tableau {
    /// How many pivots led here.
    pub fn pivots(&self) -> u64
        ensures { result ≡ self.now.pivots }
    {
        self.pivots
    }

    /// What the tableau asks for next.
    pub fn next_place(&self) -> Place
        ensures within { PlaceIsWithin (length self.now.statuses) result }
        ensures value { result ≡ place self.now }
    {
        place_of(
            &self.statuses,
            &self.bounds,
            &self.values,
            &self.reduced_costs,
            &self.rows,
        )
    }
}
