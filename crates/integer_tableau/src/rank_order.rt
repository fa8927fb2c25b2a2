// The order in which columns enter, whatever the bounds are.

ghost use Rattle.std.specs.Prelude.{refl};
ghost use Rattle.std.specs.Cmp.{partial_equiv_from_equiv, eq_by_cmp_equiv, partial_order_from_agreeing_total};
ghost use Rattle.std.specs.Ordering.{as_partial_cmp, eq_by_cmp};
ghost use Rattle.integer_tableau.specs.RankedColumns.{rank_order};
ghost use Rattle.integer_tableau.specs.Lemmas.RankedColumns.{rank_total};

use crate::ranked_column::RankedColumn;
use std::cmp::Ordering;

/// The one of less ratio of reduced cost to coefficient comes first; where ratios are the same, that of less variable.
impl Ord for RankedColumn {
    ghost cmp = { rank_order };

    ghost total = { rank_total };

    ghost matches_partial_cmp = { λ x y. refl };

    ghost matches_eq = { λ x y. refl };

    fn cmp(&self, other: &RankedColumn) -> Ordering {
        let own_product = u128::from(self.reduced_cost)
            * u128::from(other.coefficient.unsigned_abs());
        let other_product = u128::from(other.reduced_cost)
            * u128::from(self.coefficient.unsigned_abs());
        own_product
            .cmp(&other_product)
            .then(self.variable.cmp(&other.variable))
    }
}

impl PartialOrd for RankedColumn {
    ghost partial_cmp = { as_partial_cmp rank_order };

    ghost laws = { partial_order_from_agreeing_total rank_order rank_total (λ x y. refl) (λ x y. refl) };

    fn partial_cmp(&self, other: &RankedColumn) -> Option<Ordering> {
        Some(self.cmp(other))
    }
}

impl PartialEq for RankedColumn {
    ghost eq = { eq_by_cmp rank_order };

    ghost laws = { partial_equiv_from_equiv (eq_by_cmp_equiv rank_total) };

    fn eq(&self, other: &RankedColumn) -> bool {
        self.cmp(other).is_eq()
    }
}

impl Eq for RankedColumn {
    ghost laws = { eq_by_cmp_equiv rank_total };
}
