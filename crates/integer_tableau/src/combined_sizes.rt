// The sizes of the rows that aren't kept.

ghost use Rattle.std.specs.Prelude.{◌≡◌, ℕ, ◌+◌, ◌-◌, ◌*◌, ◌<◌, ◌≤◌, [], pos, nat_abs, ◌<ℤ◌, length, slice_index_or, IsTrue, IfSome};
ghost use Rattle.integer_tableau.specs.Numbers.{number_at, IsWithin, total_size};
ghost use Rattle.integer_tableau.specs.Range.{size_limit};
ghost use Rattle.integer_tableau.specs.Combined.{combined, combined_row};
ghost use Rattle.integer_tableau.specs.Positions.{IsColumnOf};
ghost use Rattle.integer_tableau.specs.BasicColumns.{HaveRows};

use crate::combination::add_columns;
use crate::integer_row::IntegerRow;
use crate::position::Position;
use crate::program_row::ProgramRow;
use crate::range::SIZE_LIMIT;
use std::alloc::Global;

/// A bound on the sizes in all rows.
pub(crate) fn common_bound(rows: &[IntegerRow], basic_columns: &[usize]) -> u64
    requires { HaveRows basic_columns.now rows.now }
    ensures { (v : ℕ) → v < length rows.now → IsWithin result (slice_index_or rows.now v []) }
{
    let mut bound = 0;
    for column in basic_columns {
        bound = bound.max(rows[*column].bound());
    }
    bound
}

/// Makes the bound on the sizes of each row the greatest of them.
pub(crate) fn look_at_all(rows: &mut [IntegerRow], basic_columns: &[usize])
    requires { HaveRows basic_columns.now rows.old }
    ensures { rows.new ≡ rows.old }
{
    for column in basic_columns {
        rows[*column].look();
    }
}

/// Whether the bounds on the rows' sizes make all combinations small that have no greater weight.
fn are_bounds_small(
    weight: u64,
    rows: &[IntegerRow],
    basic_columns: &[usize],
    denominator: i64,
) -> bool
    requires light { weight < size_limit }
    requires listed { HaveRows basic_columns.now rows.now }
    ensures { IsTrue result → (most : ℕ) × (nat_abs denominator ≤ most) × ((v : ℕ) → v < length rows.now → IsWithin most (slice_index_or rows.now v [])) × (weight * most < size_limit) }
{
    let most = common_bound(rows, basic_columns).max(denominator.unsigned_abs());
    u128::from(weight) * u128::from(most) < u128::from(SIZE_LIMIT)
}

/// `total + size * bound`, if it has 64 bits.
#[inline(always)]
fn with_product(total: u64, size: u64, bound: u64) -> Option<u64>
    ensures { IfSome result (λ t. t ≡ total + size * bound) }
{
    total.checked_add(size.checked_mul(bound)?)
}

/// What bounds the sizes in a combination.
#[derive(Clone, Copy)]
struct SizeParts {
    /// A bound on what the basic columns say together.
    basic: u64,
    /// The greatest size of a coefficient of another column.
    nonbasic: u64,
}

/// The same with a column more, if it has 64 bits.
#[inline(always)]
fn with_column(
    parts: SizeParts,
    size: u64,
    position: Position,
    row: &IntegerRow,
) -> Option<SizeParts>
    ensures basic { IfSome result (λ p. (k : ℕ) → position ≡ Position.InBasis → parts.basic + size * nat_abs (number_at row.now k) ≤ p.basic) }
    ensures nonbasic { IfSome result (λ p. (k : ℕ) → position ≡ Position.InColumn k → size ≤ p.nonbasic) }
    ensures basic_more { IfSome result (λ p. parts.basic ≤ p.basic) }
    ensures nonbasic_more { IfSome result (λ p. parts.nonbasic ≤ p.nonbasic) }
{
    match position {
        Position::InBasis => {
            let basic = with_product(parts.basic, size, row.bound())?;
            Some(SizeParts {
                basic,
                nonbasic: parts.nonbasic,
            })
        }
        Position::InColumn(_) => Some(SizeParts {
            basic: parts.basic,
            nonbasic: parts.nonbasic.max(size),
        }),
    }
}

/// A bound on the sizes in a combination of the columns, if it has 64 bits. In a column of the row at most one nonbasic variable says
/// something, and this is the denominator.
pub(crate) fn combination_bound(
    coefficients: &ProgramRow,
    positions: &[Position],
    rows: &[IntegerRow],
    denominator: i64,
) -> Option<u64>
    requires rows_there { length rows.now ≡ length coefficients.now }
    requires positions_there { length coefficients.now ≤ length positions.now }
    requires apart { (v k : ℕ) → slice_index_or positions.now v Position.InBasis ≡ Position.InColumn k → IsColumnOf positions.now v k }
    ensures { IfSome result (λ b. (k : ℕ) → nat_abs (combined (nat_abs denominator) coefficients.now positions.now rows.now k) ≤ b) }
{
    let entries = coefficients.entries();
    let mut parts = SizeParts {
        basic: 0,
        nonbasic: 0,
    };
    for entry in entries {
        let j = entry.place;
        parts = with_column(parts, entry.number.unsigned_abs(), positions[j], &rows[j])?;
    }
    with_product(parts.basic, parts.nonbasic, denominator.unsigned_abs())
}

/// Whether the bounds on the rows' sizes make the combination's numbers smaller than `SIZE_LIMIT` in size.
fn is_small_by_bounds(
    coefficients: &ProgramRow,
    positions: &[Position],
    rows: &[IntegerRow],
    denominator: i64,
) -> bool
    requires rows_there { length rows.now ≡ length coefficients.now }
    requires positions_there { length coefficients.now ≤ length positions.now }
    requires apart { (v k : ℕ) → slice_index_or positions.now v Position.InBasis ≡ Position.InColumn k → IsColumnOf positions.now v k }
    ensures { IsTrue result → IsWithin (size_limit - 1) (combined_row (nat_abs denominator) positions.now rows.now coefficients.now) }
{
    match combination_bound(coefficients, positions, rows, denominator) {
        Some(bound) => bound < SIZE_LIMIT,
        None => false,
    }
}

/// Whether each number is below `SIZE_LIMIT` in size.
fn are_small(numbers: &[i128]) -> bool
    ensures { IsTrue result → IsWithin (size_limit - 1) numbers.now }
{
    for number in numbers {
        if number.unsigned_abs() >= u128::from(SIZE_LIMIT) {
            return false;
        }
    }
    true
}

/// Whether the combination's numbers are smaller than `SIZE_LIMIT` in size, by a look at each; false where memory is wanting, or a column's
/// row hasn't as many numbers.
fn is_small_by_look(
    alloc: Global,
    coefficients: &ProgramRow,
    positions: &[Position],
    rows: &[IntegerRow],
    denominator: i64,
) -> bool
    requires rows_there { length rows.now ≡ length coefficients.now }
    requires positions_there { length coefficients.now ≤ length positions.now }
    requires positive { pos 0 <ℤ denominator }
    requires small { nat_abs denominator < size_limit }
    requires light { total_size coefficients.now < size_limit }
    requires rows_small { (j : ℕ) → j < length rows.now → IsWithin (size_limit - 1) (slice_index_or rows.now j []) }
    ensures { IsTrue result → IsWithin (size_limit - 1) (combined_row (nat_abs denominator) positions.now rows.now coefficients.now) }
{
    let Ok(mut sums) = Vec::from_elem(alloc, 0, rows.len()) else {
        return false;
    };
    add_columns(&mut sums, coefficients, positions, rows, denominator) && are_small(&sums)
}

/// Whether each combination that is basic has numbers below `SIZE_LIMIT` in size.
fn are_small_by_look(
    alloc: Global,
    program_rows: &[ProgramRow],
    positions: &[Position],
    rows: &[IntegerRow],
    basic_columns: &[usize],
    denominator: i64,
) -> bool
    requires positions_there { length positions.now ≡ length rows.now + length program_rows.now }
    requires full { (i : ℕ) → i < length program_rows.now → length (slice_index_or program_rows.now i []) ≡ length rows.now }
    requires light { (i : ℕ) → i < length program_rows.now → total_size (slice_index_or program_rows.now i []) < size_limit }
    requires positive { pos 0 <ℤ denominator }
    requires apart { (v k : ℕ) → slice_index_or positions.now v Position.InBasis ≡ Position.InColumn k → IsColumnOf positions.now v k }
    requires listed { HaveRows basic_columns.now rows.now }
    ensures { IsTrue result → (i : ℕ) → i < length program_rows.now → slice_index_or positions.now (length rows.now + i) Position.InBasis ≡ Position.InBasis → IsWithin (size_limit - 1) (combined_row (nat_abs denominator) positions.now rows.now (slice_index_or program_rows.now i [])) }
{
    if common_bound(rows, basic_columns) >= SIZE_LIMIT || denominator.unsigned_abs() >= SIZE_LIMIT {
        return false;
    }
    let columns = rows.len();
    for (i, coefficients) in program_rows.iter().enumerate() {
        if positions[columns + i] == Position::InBasis
            && !is_small_by_bounds(coefficients, positions, rows, denominator)
            && !is_small_by_look(alloc, coefficients, positions, rows, denominator)
        {
            return false;
        }
    }
    true
}

/// Whether each combination that is basic has numbers below `SIZE_LIMIT` in size: by one bound for all, by a bound for each or, where that is too
/// large, by a look at its numbers, which takes memory.
pub(crate) fn are_combinations_small(
    alloc: Global,
    program_rows: &[ProgramRow],
    weight: u64,
    positions: &[Position],
    rows: &mut [IntegerRow],
    basic_columns: &[usize],
    denominator: i64,
) -> bool
    requires positions_there { length positions.now ≡ length rows.old + length program_rows.now }
    requires full { (i : ℕ) → i < length program_rows.now → length (slice_index_or program_rows.now i []) ≡ length rows.old }
    requires weights { (i : ℕ) → i < length program_rows.now → total_size (slice_index_or program_rows.now i []) ≤ weight }
    requires light { weight < size_limit }
    requires positive { pos 0 <ℤ denominator }
    requires apart { (v k : ℕ) → slice_index_or positions.now v Position.InBasis ≡ Position.InColumn k → IsColumnOf positions.now v k }
    requires listed { HaveRows basic_columns.now rows.old }
    ensures small { IsTrue result → (i : ℕ) → i < length program_rows.now → slice_index_or positions.now (length rows.old + i) Position.InBasis ≡ Position.InBasis → IsWithin (size_limit - 1) (combined_row (nat_abs denominator) positions.now rows.old (slice_index_or program_rows.now i [])) }
    ensures same { rows.new ≡ rows.old }
{
    if are_bounds_small(weight, rows, basic_columns, denominator) {
        return true;
    }
    look_at_all(rows, basic_columns);
    are_bounds_small(weight, rows, basic_columns, denominator)
        || are_small_by_look(
            alloc,
            program_rows,
            positions,
            rows,
            basic_columns,
            denominator,
        )
}
