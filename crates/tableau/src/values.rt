// The values of the variables.

ghost use Rattle.std.specs.Prelude.{◌≡◌, length, MatchBool, Some, None};
ghost use Rattle.tableau.specs.Pivot.{computed_value, computed_values};

use crate::sparse_row::SparseRow;
use crate::status::BasisStatus;
use fraction::Frac;

/// The value of a variable: its bound, or where it is basic the sum of its row over the nonbasic values; none exactly where this is cramped.
fn computed_value(
    status: BasisStatus,
    nonbasic_value: Frac,
    row: &SparseRow,
    nonbasic_values: &[Frac],
) -> Option<Frac>
    ensures { result ≡ computed_value nonbasic_values.now status nonbasic_value row.now }
{
    match status {
        BasisStatus::Basic => row.value_over(nonbasic_values),
        BasisStatus::AtLower | BasisStatus::AtUpper => Some(nonbasic_value),
    }
}

/// Computes each value anew; false exactly where one is cramped.
pub(crate) fn compute_values(
    values: &mut [Frac],
    statuses: &[BasisStatus],
    nonbasic_values: &[Frac],
    rows: &[SparseRow],
) -> bool
    requires statuses_there { length statuses.now ≡ length values.old }
    requires nonbasic_there { length nonbasic_values.now ≡ length values.old }
    requires rows_there { length rows.now ≡ length values.old }
    ensures { let computed = computed_values nonbasic_values.now statuses.now nonbasic_values.now rows.now in MatchBool result (computed ≡ Some values.new) (computed ≡ None) }
{
    for (i, value) in values.iter_mut().enumerate() {
        match computed_value(statuses[i], nonbasic_values[i], &rows[i], nonbasic_values) {
            Some(computed) => *value = computed,
            None => return false,
        }
    }
    true
}
