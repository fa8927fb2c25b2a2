// Combinations of columns modulo 2^64: the sums on the way are often larger than the whole ones.

ghost use Rattle.std.specs.Prelude.{◌≡◌, ℕ, ◌<◌, ◌≤◌, ◌*◌, slice_index_or, [], pos, nat_abs, ◌+ℤ◌, ◌*ℤ◌, ◌<ℤ◌, length, IsTrue};
ghost use Rattle.std.specs.Int.{w64, int_wrap};
ghost use Rattle.integer_tableau.specs.Numbers.{number_at};
ghost use Rattle.integer_tableau.specs.Arena.{basic_sum};
ghost use Rattle.integer_tableau.specs.Combined.{numerator_of, combined};

use crate::integer_row::IntegerRow;
use crate::position::Position;
use crate::program_row::ProgramRow;

/// `number + factor * other` modulo 2^64.
#[inline(always)]
pub(crate) fn multiple_sum(number: i64, factor: i64, other: i64) -> i64
    ensures { result ≡ int_wrap w64 (number +ℤ factor *ℤ other) }
{
    number.wrapping_add(factor.wrapping_mul(other))
}

/// Adds a multiple of a row to sums.
pub(crate) fn add_multiple(sums: &mut [i64], row: &[i64], factor: i64)
    requires { length row.now ≡ length sums.old }
    ensures { (k : ℕ) → k < length sums.old → int_wrap w64 (number_at sums.new k) ≡ int_wrap w64 (number_at sums.old k +ℤ factor *ℤ number_at row.now k) }
{
    for (k, number) in sums.iter_mut().enumerate() {
        *number = multiple_sum(*number, factor, row[k]);
    }
}

/// Adds a product to the sum of a column.
fn add_product(sums: &mut [i64], column: usize, factor: i64, denominator: i64)
    requires there { column < length sums.old }
    requires positive { pos 0 <ℤ denominator }
    ensures { (k : ℕ) → k < length sums.old → int_wrap w64 (number_at sums.new k) ≡ int_wrap w64 (number_at sums.old k +ℤ factor *ℤ numerator_of (nat_abs denominator) [] (Position.InColumn column) k) }
{
    sums[column] = multiple_sum(sums[column], factor, denominator);
}

/// Adds what a column says, times its coefficient, to the sums; false where the row hasn't as many numbers.
fn add_column(
    sums: &mut [i64],
    coefficient: i64,
    position: Position,
    row: &IntegerRow,
    denominator: i64,
) -> bool
    requires { pos 0 <ℤ denominator }
    ensures { IsTrue result → (k : ℕ) → k < length sums.old → int_wrap w64 (number_at sums.new k) ≡ int_wrap w64 (number_at sums.old k +ℤ coefficient *ℤ numerator_of (nat_abs denominator) row.now position k) }
{
    match position {
        Position::InBasis => {
            if row.width() != sums.len() {
                return false;
            }
            add_multiple(sums, row.numerators(), coefficient);
        }
        Position::InColumn(column) => {
            if column >= sums.len() {
                return false;
            }
            add_product(sums, column, coefficient, denominator);
        }
    }
    true
}

/// Adds up what the columns say, each times its coefficient; false where a row hasn't as many numbers.
pub(crate) fn add_columns(
    sums: &mut [i64],
    coefficients: &ProgramRow,
    positions: &[Position],
    rows: &[IntegerRow],
    denominator: i64,
) -> bool
    requires zero { (k : ℕ) → number_at sums.old k ≡ pos 0 }
    requires rows_there { length rows.now ≡ length coefficients.now }
    requires positions_there { length coefficients.now ≤ length positions.now }
    requires positive { pos 0 <ℤ denominator }
    ensures { IsTrue result → (k : ℕ) → k < length sums.old → int_wrap w64 (number_at sums.new k) ≡ int_wrap w64 (combined (nat_abs denominator) coefficients.now positions.now rows.now k) }
{
    let entries = coefficients.entries();
    for entry in entries {
        let j = entry.place;
        if !add_column(sums, entry.number, positions[j], &rows[j], denominator) {
            return false;
        }
    }
    true
}

/// Puts what the nonbasic variables say, each times its coefficient, into the sums; those of rows have none.
pub(crate) fn put_nonbasic(
    sums: &mut [i64],
    coefficients: &[i64],
    nonbasic: &[usize],
    denominator: i64,
)
    requires zero { (k : ℕ) → number_at sums.old k ≡ pos 0 }
    requires as_many { length nonbasic.now ≡ length sums.old }
    ensures { (k : ℕ) → k < length sums.old → int_wrap w64 (number_at sums.new k) ≡ int_wrap w64 (denominator *ℤ number_at coefficients.now (slice_index_or nonbasic.now k 0)) }
{
    for (column, variable) in nonbasic.iter().enumerate() {
        if *variable < coefficients.len() {
            sums[column] = multiple_sum(0, denominator, coefficients[*variable]);
        }
    }
}

/// Adds what the basic columns say, each times its coefficient, to the sums. Their rows stand one behind another.
pub(crate) fn add_basic(
    sums: &mut [i64],
    coefficients: &[i64],
    basic_columns: &[usize],
    rows: &[i64],
)
    requires rows_there { length rows.now ≡ length basic_columns.now * length sums.old }
    requires columns_there { (p : ℕ) → p < length basic_columns.now → slice_index_or basic_columns.now p 0 < length coefficients.now }
    ensures { (k : ℕ) → k < length sums.old → int_wrap w64 (number_at sums.new k) ≡ int_wrap w64 (number_at sums.old k +ℤ basic_sum (length sums.old) coefficients.now rows.now k 0 basic_columns.now) }
{
    let width = sums.len();
    for (index, column) in basic_columns.iter().enumerate() {
        let from = index * width;
        add_multiple(sums, &rows[from..from + width], coefficients[*column]);
    }
}
