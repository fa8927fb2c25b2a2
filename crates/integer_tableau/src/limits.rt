// Whether numbers are small many times over.

ghost use Rattle.std.specs.Prelude.{◌≡◌, ℕ, ◌+◌, ◌*◌, ◌<◌, ◌≤◌, [], pos, nat_abs, max, ◌<ℤ◌, length, IsTrue, IfSome, slice_index_or};
ghost use Rattle.integer_tableau.specs.Numbers.{IsWithin, total_size};
ghost use Rattle.integer_tableau.specs.Range.{size_limit};
ghost use Rattle.integer_tableau.specs.Combined.{combined};
ghost use Rattle.integer_tableau.specs.Positions.{IsColumnOf};
ghost use Rattle.integer_tableau.specs.BasicColumns.{HaveRows};
ghost use Rattle.integer_tableau.specs.Small.{AreNumbersWithin, IsKept, IsSmallTimes};

use crate::combined_sizes::{combination_bound, common_bound, look_at_all};
use crate::integer_row::IntegerRow;
use crate::integer_tableau::IntegerTableau;
use crate::position::Position;
use crate::program_row::ProgramRow;
use crate::range::SIZE_LIMIT;

/// A bound on the sizes that are kept.
fn kept_bound(
    rows: &[IntegerRow],
    basic_columns: &[usize],
    reduced_costs: &IntegerRow,
    denominator: i64,
) -> u64
    requires { HaveRows basic_columns.now rows.now }
    ensures denominator { nat_abs denominator ≤ result }
    ensures rows { (v : ℕ) → v < length rows.now → IsWithin result (slice_index_or rows.now v []) }
    ensures costs { IsWithin result reduced_costs.now }
{
    common_bound(rows, basic_columns)
        .max(reduced_costs.bound())
        .max(denominator.unsigned_abs())
}

/// The limit, or a greater one within which the combination is too, if it is that of a basic variable and the limit has 64 bits.
fn limit_with(
    limit: u64,
    position: Position,
    coefficients: &ProgramRow,
    positions: &[Position],
    rows: &[IntegerRow],
    denominator: i64,
) -> Option<u64>
    requires rows_there { length rows.now ≡ length coefficients.now }
    requires positions_there { length coefficients.now ≤ length positions.now }
    requires apart { (v k : ℕ) → slice_index_or positions.now v Position.InBasis ≡ Position.InColumn k → IsColumnOf positions.now v k }
    ensures more { IfSome result (λ l. limit ≤ l) }
    ensures within { IfSome result (λ l. position ≡ Position.InBasis → (k : ℕ) → nat_abs (combined (nat_abs denominator) coefficients.now positions.now rows.now k) ≤ l) }
{
    match position {
        Position::InBasis => {
            let bound = combination_bound(coefficients, positions, rows, denominator)?;
            Some(limit.max(bound))
        }
        Position::InColumn(_) => Some(limit),
    }
}

/// A bound on all sizes by a bound for each combination, if it has 64 bits.
fn limit_by_each(
    program_rows: &[ProgramRow],
    positions: &[Position],
    rows: &[IntegerRow],
    basic_columns: &[usize],
    reduced_costs: &IntegerRow,
    denominator: i64,
) -> Option<u64>
    requires positions_there { length positions.now ≡ length rows.now + length program_rows.now }
    requires full { (i : ℕ) → i < length program_rows.now → length (slice_index_or program_rows.now i []) ≡ length rows.now }
    requires apart { (v k : ℕ) → slice_index_or positions.now v Position.InBasis ≡ Position.InColumn k → IsColumnOf positions.now v k }
    requires listed { HaveRows basic_columns.now rows.now }
    ensures { IfSome result (λ l. AreNumbersWithin l (nat_abs denominator) program_rows.now positions.now rows.now reduced_costs.now) }
{
    let columns = rows.len();
    let mut limit = kept_bound(rows, basic_columns, reduced_costs, denominator);
    for (i, coefficients) in program_rows.iter().enumerate() {
        limit = limit_with(
            limit,
            positions[columns + i],
            coefficients,
            positions,
            rows,
            denominator,
        )?;
    }
    Some(limit)
}

/// Whether a limit is below 2^62 so many times.
fn is_small_times(limit: u64, times: u64) -> bool
    ensures { IsTrue result → limit * times < size_limit }
{
    u128::from(limit) * u128::from(times) < u128::from(SIZE_LIMIT)
}

/// Whether the sizes that are kept are small so many times even after a combination of this weight.
fn are_small_by_weight(
    weight: u64,
    rows: &[IntegerRow],
    basic_columns: &[usize],
    reduced_costs: &IntegerRow,
    denominator: i64,
    times: u64,
) -> bool
    requires { HaveRows basic_columns.now rows.now }
    ensures { IsTrue result → (most : ℕ) × IsKept most (nat_abs denominator) rows.now reduced_costs.now × (max weight 1 * most * times < size_limit) }
{
    let most = kept_bound(rows, basic_columns, reduced_costs, denominator);
    match weight.max(1).checked_mul(most) {
        Some(limit) => is_small_times(limit, times),
        None => false,
    }
}

impl IntegerTableau {
    /// Makes the bounds on sizes that spare looks at the numbers the least ones.
    pub fn look(&mut self)
        ensures { self.new ≡ self.old }
    {
        look_at_all(&mut self.rows, &self.basic_columns);
        self.reduced_costs.look();
    }

    /// Whether the denominator and all numerators are small so many times over, by the bounds on their sizes.
    pub fn is_small_times(&self, times: u64) -> bool
        ensures { IsTrue result → IsSmallTimes times self.now }
    {
        if are_small_by_weight(
            self.fixed.weight,
            &self.rows,
            &self.basic_columns,
            &self.reduced_costs,
            self.denominator,
            times,
        ) {
            return true;
        }
        match limit_by_each(
            &self.fixed.rows,
            &self.positions,
            &self.rows,
            &self.basic_columns,
            &self.reduced_costs,
            self.denominator,
        ) {
            Some(limit) => is_small_times(limit, times),
            None => false,
        }
    }
}
