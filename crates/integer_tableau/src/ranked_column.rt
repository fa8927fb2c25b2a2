// Columns with a coefficient in the leaving row.

ghost use Rattle.std.specs.Prelude.{◌≡◌, ◌<◌, ◌⊎◌, nat_abs, pos, false, true, IfSome, IfNone};
ghost use Rattle.integer_tableau.specs.Exits.{is_behind};

use crate::entering::{Candidate, comes_first};

/// A column with a coefficient in the leaving row, with what its ratio is made of. No coefficient is 0: only so are all ratios in one order.
#[derive(Clone, Copy)]
pub(crate) struct RankedColumn {
    pub(crate) column: usize,
    pub(crate) variable: usize,
    /// The size of the numerator of its reduced cost.
    pub(crate) reduced_cost: u64,
    pub(crate) coefficient: i64,
    ghost some: { 0 < nat_abs coefficient },
}

/// Whether a candidate comes behind the last one that is noted, if there is one.
#[inline(always)]
fn is_behind(last: Option<Candidate>, new: Candidate) -> bool
    ensures { result ≡ is_behind last new }
{
    match last {
        Some(noted) => comes_first(noted, new),
        None => true,
    }
}

impl RankedColumn {
    /// The column of these numerators, none where its coefficient is 0, and where it doesn't come behind the last candidate, if there is one.
    #[inline(always)]
    pub(crate) fn behind(
        column: usize,
        variable: usize,
        reduced_cost: i64,
        coefficient: i64,
        last: Option<Candidate>,
    ) -> Option<RankedColumn>
        ensures some { IfSome result (λ c. (c.column ≡ column) × (c.variable ≡ variable) × (c.reduced_cost ≡ nat_abs reduced_cost) × (c.coefficient ≡ coefficient)) }
        ensures wanted { IfSome result (λ c. is_behind last record { variable = variable; reduced_cost = nat_abs reduced_cost; coefficient = nat_abs coefficient } ≡ true) }
        ensures none { IfNone result ((coefficient ≡ pos 0) ⊎ (is_behind last record { variable = variable; reduced_cost = nat_abs reduced_cost; coefficient = nat_abs coefficient } ≡ false)) }
    {
        let new = Candidate {
            variable,
            reduced_cost: reduced_cost.unsigned_abs(),
            coefficient: coefficient.unsigned_abs(),
        };
        if !is_behind(last, new) {
            return None;
        }
        if coefficient == 0 {
            return None;
        }
        Some(RankedColumn {
            column,
            variable,
            reduced_cost: new.reduced_cost,
            coefficient,
        })
    }

    /// The candidate that its variable is.
    pub(crate) fn candidate(&self) -> Candidate
        ensures { result ≡ record { variable = self.now.variable; reduced_cost = self.now.reduced_cost; coefficient = nat_abs self.now.coefficient } }
    {
        Candidate {
            variable: self.variable,
            reduced_cost: self.reduced_cost,
            coefficient: self.coefficient.unsigned_abs(),
        }
    }
}
