// Dictionaries that are made by a pivot.

ghost use Rattle.std.specs.Prelude.{◌≡◌, ◌≢◌, ℕ, ◌<◌, ◌≤◌, ◌+◌, ◌*◌, ◌-◌, ◌++◌, ◌<ℤ◌, ℤ, List, [], ◌∷◌, pos, nat_abs, length, slice_index_or, slice_range, slice_set, IfNone, IfSome, IsTrue};
ghost use Rattle.integer_tableau.specs.Arena.{AreMadeRows, IsMadeRow, row_by};
ghost use Rattle.integer_tableau.specs.BasicColumns.{HaveRows, basic_exchanged, count_below};
ghost use Rattle.integer_tableau.specs.Kept.{AreCombinationsSmall, IsDictionaryBehind, IsKept, KeptDictionary, costs_of, kept_at, rows_of};
ghost use Rattle.integer_tableau.specs.Numbers.{IsWithin, total_size};
ghost use Rattle.integer_tableau.specs.Positions.{AreNonbasic, IsColumnOf};
ghost use Rattle.integer_tableau.specs.Range.{size_limit};
ghost use Rattle.integer_tableau.specs.Substitution.{IsSubstitutedRow};

use crate::basic_columns::{exchange_columns, place_of};
use crate::combined_sizes::are_combinations_small;
use crate::dictionary::{Dictionaries, Dictionary};
use crate::divisor::Divisor;
use crate::integer_row::{IntegerRow, greatest_size, substitute_column};
use crate::position::Position;
use crate::program_row::ProgramRow;
use crate::range::SIZE_LIMIT;
use crate::request::Turn;
use std::alloc::Global;

/// A bound on the sizes of a row, if these are below `SIZE_LIMIT`.
fn small_size(row: &[i64], bound: u64) -> Option<u64>
    requires { IsWithin bound row.now }
    ensures within { IfSome result (λ b. IsWithin b row.now) }
    ensures small { IfSome result (λ b. IsWithin (size_limit - 1) row.now) }
{
    if bound < SIZE_LIMIT {
        return Some(bound);
    }
    let size = greatest_size(row);
    if size < SIZE_LIMIT { Some(size) } else { None }
}

/// Substitutes the variable of a column in a row, by its solved row. The answer is a bound on its sizes, none where that isn't exact or small.
fn substitute_small(
    row: &mut [i64],
    size: u64,
    column: usize,
    solved: &IntegerRow,
    pivot_size: i64,
    divisor: Divisor,
) -> Option<u64>
    requires column { column < length row.old }
    requires same_width { length row.old ≡ length solved.now }
    requires row_small { IsWithin (size_limit - 1) row.old }
    requires row_within { IsWithin size row.old }
    requires source_small { IsWithin (size_limit - 1) solved.now }
    requires pivot_size_small { nat_abs pivot_size < size_limit }
    ensures row { IfSome result (λ b. IsSubstitutedRow divisor.number pivot_size column solved.now row.old row.new) }
    ensures within { IfSome result (λ b. IsWithin b row.new) }
{
    if row[column] == 0 && pivot_size == divisor.number() {
        return small_size(row, size);
    }
    let bound = substitute_column(
        row,
        size,
        column,
        solved.numerators(),
        solved.bound(),
        pivot_size,
        divisor,
    )?;
    small_size(row, bound)
}

/// Puts a copy of the row that begins at this place behind all, and substitutes the variable of a column there, by its solved row. The answer is a bound on its
/// sizes, none where that isn't exact or small, or memory is wanting.
fn push_substituted(
    numerators: &mut Vec<i64>,
    from: usize,
    size: u64,
    column: usize,
    solved: &IntegerRow,
    pivot_size: i64,
    divisor: Divisor,
) -> Option<u64>
    requires there { from + length solved.now ≤ length numerators.old.items }
    requires column { column < length solved.now }
    requires row_small { IsWithin (size_limit - 1) (slice_range numerators.old.items from (from + length solved.now)) }
    requires row_within { IsWithin size (slice_range numerators.old.items from (from + length solved.now)) }
    requires source_small { IsWithin (size_limit - 1) solved.now }
    requires pivot_size_small { nat_abs pivot_size < size_limit }
    ensures more { (more : List ℤ) × (numerators.new.items ≡ numerators.old.items ++ more) }
    ensures pushed { IfSome result (λ b. (row : List ℤ) × (numerators.new.items ≡ numerators.old.items ++ row) × IsSubstitutedRow divisor.number pivot_size column solved.now (slice_range numerators.old.items from (from + length solved.now)) row × IsWithin b row) }
{
    let start = numerators.len();
    let end = start.checked_add(solved.width())?;
    numerators.resize(end, 0).ok()?;
    let (before, row) = numerators.split_at_mut(start);
    row.copy_from_slice(&before[from..from + solved.width()]);
    let bound = substitute_small(row, size, column, solved, pivot_size, divisor)?;
    Some(bound)
}

/// Puts the row of a column behind a turn behind all, by those of the columns before it. The answer is a bound on its sizes, none where it
/// isn't exact or small, or memory is wanting.
#[inline(always)]
fn push_row(
    numerators: &mut Vec<i64>,
    own: Dictionary,
    old_columns: &[usize],
    column: usize,
    turn: Turn,
    solved: &IntegerRow,
    pivot_size: i64,
) -> Option<u64>
    requires there { own.numerators + own.count * length solved.now ≤ length numerators.old.items }
    requires count { length old_columns.now ≡ own.count }
    requires rise { (p q : ℕ) → p < q → q < length old_columns.now → slice_index_or old_columns.now p 0 < slice_index_or old_columns.now q 0 }
    requires known { column ≢ turn.entering → (q : ℕ) × (q < length old_columns.now) × (slice_index_or old_columns.now q 0 ≡ column) }
    requires column { turn.column < length solved.now }
    requires within { IsWithin own.size (rows_of (length solved.now) numerators.old.items own) }
    requires small { IsWithin (size_limit - 1) (rows_of (length solved.now) numerators.old.items own) }
    requires source_small { IsWithin (size_limit - 1) solved.now }
    requires pivot_size_small { nat_abs pivot_size < size_limit }
    ensures more { (more : List ℤ) × (numerators.new.items ≡ numerators.old.items ++ more) }
    ensures pushed { IfSome result (λ b. (row : List ℤ) × (numerators.new.items ≡ numerators.old.items ++ row)
        × IsMadeRow own.divisor.number pivot_size turn.column turn.entering solved.now (row_by (length solved.now) old_columns.now (rows_of (length solved.now) numerators.old.items own)) column row
        × IsWithin b row) }
{
    if column == turn.entering {
        numerators.extend_from_slice(solved.numerators()).ok()?;
        return Some(solved.bound());
    }
    let from = own.numerators + place_of(old_columns, column) * solved.width();
    push_substituted(
        numerators,
        from,
        own.size,
        turn.column,
        solved,
        pivot_size,
        own.divisor,
    )
}

/// Puts the rows of these columns behind a turn behind all, by those of the columns before it. The answer is a bound on their sizes, none
/// where one isn't exact or small, or memory is wanting.
fn push_rows(
    numerators: &mut Vec<i64>,
    own: Dictionary,
    old_columns: &[usize],
    columns: &[usize],
    turn: Turn,
    solved: &IntegerRow,
    pivot_size: i64,
) -> Option<u64>
    requires there { own.numerators + own.count * length solved.now ≤ length numerators.old.items }
    requires count { length old_columns.now ≡ own.count }
    requires rise { (p q : ℕ) → p < q → q < length old_columns.now → slice_index_or old_columns.now p 0 < slice_index_or old_columns.now q 0 }
    requires known { (p : ℕ) → p < length columns.now → slice_index_or columns.now p 0 ≢ turn.entering → (q : ℕ) × (q < length old_columns.now) × (slice_index_or old_columns.now q 0 ≡ slice_index_or columns.now p 0) }
    requires column { turn.column < length solved.now }
    requires within { IsWithin own.size (rows_of (length solved.now) numerators.old.items own) }
    requires small { IsWithin (size_limit - 1) (rows_of (length solved.now) numerators.old.items own) }
    requires source_small { IsWithin (size_limit - 1) solved.now }
    requires pivot_size_small { nat_abs pivot_size < size_limit }
    ensures more { (more : List ℤ) × (numerators.new.items ≡ numerators.old.items ++ more) }
    ensures pushed { IfSome result (λ b. (made : List ℤ) × (numerators.new.items ≡ numerators.old.items ++ made)
        × AreMadeRows own.divisor.number pivot_size turn.column turn.entering (length solved.now) solved.now (row_by (length solved.now) old_columns.now (rows_of (length solved.now) numerators.old.items own)) columns.now made
        × IsWithin b made) }
{
    let mut size = 0;
    for column in columns {
        let row = push_row(
            numerators,
            own,
            old_columns,
            *column,
            turn,
            solved,
            pivot_size,
        )?;
        size = size.max(row);
    }
    Some(size)
}

/// Puts the rows and the reduced costs behind a turn behind all. The answer is a bound on their sizes, none where one isn't exact or small,
/// or memory is wanting.
fn push_numerators(
    numerators: &mut Vec<i64>,
    own: Dictionary,
    old_columns: &[usize],
    columns: &[usize],
    turn: Turn,
    solved: &IntegerRow,
    pivot_size: i64,
) -> Option<u64>
    requires there { own.numerators + own.count * length solved.now + length solved.now ≤ length numerators.old.items }
    requires count { length old_columns.now ≡ own.count }
    requires rise { (p q : ℕ) → p < q → q < length old_columns.now → slice_index_or old_columns.now p 0 < slice_index_or old_columns.now q 0 }
    requires known { (p : ℕ) → p < length columns.now → slice_index_or columns.now p 0 ≢ turn.entering → (q : ℕ) × (q < length old_columns.now) × (slice_index_or old_columns.now q 0 ≡ slice_index_or columns.now p 0) }
    requires column { turn.column < length solved.now }
    requires within { IsWithin own.size (slice_range numerators.old.items own.numerators (own.numerators + own.count * length solved.now + length solved.now)) }
    requires rows_small { IsWithin (size_limit - 1) (rows_of (length solved.now) numerators.old.items own) }
    requires costs_small { IsWithin (size_limit - 1) (costs_of (length solved.now) numerators.old.items own) }
    requires source_small { IsWithin (size_limit - 1) solved.now }
    requires pivot_size_small { nat_abs pivot_size < size_limit }
    ensures more { (more : List ℤ) × (numerators.new.items ≡ numerators.old.items ++ more) }
    ensures pushed { IfSome result (λ b. (made : List ℤ) × (costs : List ℤ) × (numerators.new.items ≡ numerators.old.items ++ made ++ costs)
        × AreMadeRows own.divisor.number pivot_size turn.column turn.entering (length solved.now) solved.now (row_by (length solved.now) old_columns.now (rows_of (length solved.now) numerators.old.items own)) columns.now made
        × IsSubstitutedRow own.divisor.number pivot_size turn.column solved.now (costs_of (length solved.now) numerators.old.items own) costs
        × IsWithin b (made ++ costs)) }
{
    let rows_size = push_rows(
        numerators,
        own,
        old_columns,
        columns,
        turn,
        solved,
        pivot_size,
    )?;
    let costs_size = push_substituted(
        numerators,
        own.numerators + own.count * solved.width(),
        own.size,
        turn.column,
        solved,
        pivot_size,
        own.divisor,
    )?;
    Some(rows_size.max(costs_size))
}

/// Puts the variables of the columns behind a turn behind all; those before it begin at this place. None where memory is wanting.
fn push_nonbasic(nonbasic: &mut Vec<usize>, from: usize, width: usize, turn: Turn) -> Option<()>
    requires there { from + width ≤ length nonbasic.old.items }
    requires column { turn.column < width }
    ensures more { (more : List ℕ) × (nonbasic.new.items ≡ nonbasic.old.items ++ more) }
    ensures pushed { IfSome result (λ u. nonbasic.new.items ≡ nonbasic.old.items ++ slice_set (slice_range nonbasic.old.items from (from + width)) turn.column turn.leaving) }
{
    let start = nonbasic.len();
    let end = start.checked_add(width)?;
    nonbasic.resize(end, 0).ok()?;
    let (before, behind) = nonbasic.split_at_mut(start);
    behind.copy_from_slice(&before[from..from + width]);
    behind[turn.column] = turn.leaving;
    Some(())
}

/// Puts the basic columns behind a turn in the place of others, by those before it; false where memory is wanting.
fn put_columns(columns: &mut Vec<usize>, old: &[usize], width: usize, turn: Turn) -> bool
    requires { turn.leaving < width → count_below turn.leaving old.now < length old.now }
    ensures { IsTrue result → columns.new.items ≡ basic_exchanged width turn.leaving turn.entering old.now }
{
    columns.clear();
    columns.extend_from_slice(old).is_ok()
        && exchange_columns(columns, width, turn.leaving, turn.entering)
}

impl Dictionaries {
    /// Puts the dictionary behind a turn in, by the leaving row, solved for the variable that enters. None where a number isn't exact or small, or memory is
    /// wanting: then the lists may have more than their dictionaries.
    pub(crate) fn push_behind(
        &mut self,
        columns: &mut Vec<usize>,
        place: usize,
        turn: Turn,
        solved: &IntegerRow,
        pivot_size: i64,
        hash: u64,
    ) -> Option<()>
        requires kept { (ps : List (List ℤ)) × (weight : ℕ) × (costs : List ℤ) × IsKept ps weight costs (kept_at self.old.all place) }
        requires there { place < length self.old.all }
        requires leaving_there { turn.leaving < length (kept_at self.old.all place).positions }
        requires entering_there { turn.entering < length (kept_at self.old.all place).positions }
        requires leaving { slice_index_or (kept_at self.old.all place).positions turn.leaving Position.InBasis ≡ Position.InBasis }
        requires entering { slice_index_or (kept_at self.old.all place).positions turn.entering Position.InBasis ≡ Position.InColumn turn.column }
        requires width { length solved.now ≡ length (kept_at self.old.all place).rows }
        requires source_small { IsWithin (size_limit - 1) solved.now }
        requires positive { pos 0 <ℤ pivot_size }
        requires pivot_size_small { nat_abs pivot_size < size_limit }
        ensures exits { self.new.exits ≡ self.old.exits }
        ensures edges { self.new.edges ≡ self.old.edges }
        ensures variables { self.new.variables ≡ self.old.variables }
        ensures width { self.new.width ≡ self.old.width }
        ensures failed { IfNone result (self.new.all ≡ self.old.all) }
        ensures pushed { IfSome result (λ u. (d : KeptDictionary) × (self.new.all ≡ self.old.all ++ d ∷ []) × IsDictionaryBehind (kept_at self.old.all place) turn solved.now pivot_size d) }
    {
        let own = self.all[place];
        let old_columns = &self.basic_columns[own.basic_columns..own.basic_columns + own.count];
        if !put_columns(columns, old_columns, self.width, turn) {
            return None;
        }
        let numerators = self.numerators.len();
        let size = push_numerators(
            &mut self.numerators,
            own,
            old_columns,
            columns,
            turn,
            solved,
            pivot_size,
        )?;
        let nonbasic = self.nonbasic.len();
        push_nonbasic(&mut self.nonbasic, own.nonbasic, self.width, turn)?;
        let basic_columns = self.basic_columns.len();
        self.basic_columns.extend_from_slice(columns).ok()?;
        self.all
            .push(Dictionary {
                numerators,
                nonbasic,
                basic_columns,
                count: columns.len(),
                size,
                divisor: Divisor::make(pivot_size),
                hash,
                first_exit: 0,
                exits: 0,
            })
            .ok()?;
        Some(())
    }

    /// Whether the combinations of the rows of a dictionary are small.
    pub(crate) fn is_small(
        &self,
        alloc: Global,
        program_rows: &[ProgramRow],
        weight: u64,
        place: usize,
    ) -> bool
        requires there { place < length self.now.all }
        requires positions_there { length (kept_at self.now.all place).positions ≡ length (kept_at self.now.all place).rows + length program_rows.now }
        requires full { (i : ℕ) → i < length program_rows.now → length (slice_index_or program_rows.now i []) ≡ length (kept_at self.now.all place).rows }
        requires weights { (i : ℕ) → i < length program_rows.now → total_size (slice_index_or program_rows.now i []) ≤ weight }
        requires light { weight < size_limit }
        requires apart { (v k : ℕ) → slice_index_or (kept_at self.now.all place).positions v Position.InBasis ≡ Position.InColumn k → IsColumnOf (kept_at self.now.all place).positions v k }
        requires nonbasic { AreNonbasic (kept_at self.now.all place).positions (kept_at self.now.all place).nonbasic }
        requires listed { HaveRows (kept_at self.now.all place).basic_columns (kept_at self.now.all place).rows }
        requires positive { pos 0 <ℤ (kept_at self.now.all place).denominator }
        ensures { IsTrue result → AreCombinationsSmall program_rows.now (kept_at self.now.all place) }
    {
        let own = &self.all[place];
        let denominator = own.divisor.number();
        let size = own.size.max(denominator.unsigned_abs());
        if u128::from(weight) * u128::from(size) < u128::from(SIZE_LIMIT) {
            return true;
        }
        let Ok(mut rows) = self.rows_by_column(alloc, place) else {
            return false;
        };
        let Ok(positions) = self.positions(alloc, place) else {
            return false;
        };
        are_combinations_small(
            alloc,
            program_rows,
            weight,
            &positions,
            &mut rows,
            self.basic_columns(place),
            denominator,
        )
    }
}
