// A variable is substituted in a row: the short way or the long one.

ghost use Rattle.std.specs.Prelude.{◌≡◌, ◌+◌, ◌*◌, ◌<◌, ◌-◌, nat_abs, length, IsTrue};
ghost use Rattle.integer_tableau.specs.Numbers.{IsWithin};
ghost use Rattle.integer_tableau.specs.Range.{size_limit};
ghost use Rattle.integer_tableau.specs.Substitution.{IsSubstituted};

use crate::divisor::Divisor;
use crate::narrow::substitute_narrow;
use crate::range::SIZE_LIMIT;
use crate::wide::substitute_wide;

/// Whether the numbers before the division are below `SIZE_LIMIT` in size.
#[inline(always)]
fn is_narrow(row_size: u64, row_factor: i64, source_size: u64, source_factor: i64) -> bool
    requires row_factor_small { nat_abs row_factor < size_limit }
    requires source_factor_small { nat_abs source_factor < size_limit }
    ensures { IsTrue result → source_size * nat_abs source_factor + row_size * nat_abs row_factor < size_limit }
{
    let size = u128::from(source_size) * u128::from(source_factor.unsigned_abs())
        + u128::from(row_size) * u128::from(row_factor.unsigned_abs());
    size < u128::from(SIZE_LIMIT)
}

/// Each number times its factor, plus that of the source times its own, divided by the divisor; false where a division isn't exact. The
/// sizes bound the rows: where they are small, the numbers before the division have 64 bits.
#[inline(always)]
pub(crate) fn substitute(
    row: &mut [i64],
    source: &[i64],
    row_factor: i64,
    source_factor: i64,
    divisor: Divisor,
    row_size: u64,
    source_size: u64,
) -> bool
    requires same_width { length row.old ≡ length source.now }
    requires row_small { IsWithin (size_limit - 1) row.old }
    requires source_small { IsWithin (size_limit - 1) source.now }
    requires row_within { IsWithin row_size row.old }
    requires source_within { IsWithin source_size source.now }
    requires row_factor_small { nat_abs row_factor < size_limit }
    requires source_factor_small { nat_abs source_factor < size_limit }
    ensures { IsTrue result → IsSubstituted divisor.number row_factor source_factor row.old source.now row.new }
{
    if is_narrow(row_size, row_factor, source_size, source_factor) {
        substitute_narrow(row, source, row_factor, source_factor, divisor)
    } else {
        substitute_wide(
            row,
            source,
            -row_factor,
            source_factor,
            divisor.number,
            divisor.zeros,
            divisor.inverse,
        )
    }
}
