//! Lines of RHS and RANGES.

ghost use Rattle.std.specs.Prelude.{◌≡◌, ◌≢◌, ◌<◌, ◌∷◌, ◌==◌, ◌&&◌, ◌||◌, [], OnOk, IfOk, IfErr, IfSome, None, Some, true, false, if◌then◌else◌, length, nat_le, ◌+◌, pos};
ghost use Rattle.std.specs.Option.{option_map};
ghost use Rattle.fraction.specs.Rational.{whole};
ghost use Rattle.mps_reader.specs.Faults.{counted, differs, is_counted, side_fault, when};
ghost use Rattle.mps_reader.specs.RowsSoFar.{IsRowAt};
ghost use Rattle.mps_reader.specs.Sections.{RowValues, pairs_of};
ghost use Rattle.mps_reader.specs.SideLines.{HasSides, TakesFields, TakesRows, number_for};
ghost use Rattle.mps_reader.specs.Tables.{Stops, table, bytes_of, texts};
ghost use Rattle.mps_reader.specs.Words.{value_under};
ghost use Rattle.problem.specs.Limits.{most_rows};

use crate::kinds::{Kind, RowType, Stop};
use crate::numbers::side_number;
use crate::rows::is_counted;
use crate::side_table::SideTable;
use fraction::Frac;
use indexmap::IndexMap;
use problem::MOST_ROWS;
use std::hash::BuildHasher;

/// The numbers of the rows so far, the set's name, and how many of these rows count where they are ranges.
pub struct Sides<'a> {
    pub numbers: SideTable,
    pub group: Option<&'a [u8]>,
    pub ranged: usize,
}

/// By hand (docs/DECISIONS.md, entry 98).
impl<'a> Drop for Sides<'a> {
    fn drop(self) {
        let Sides {
            numbers: _,
            group: _,
            ranged: _,
        } = self;
    }
}

/// Whether a set's name differs from the one before.
pub fn differs(before: Option<&[u8]>, group: &[u8]) -> bool
    ensures { result ≡ differs (bytes_of before.entry) (Some group.now) }
{
    match before {
        Some(before) => before != group,
        None => false,
    }
}

/// A row's index and type, with the number that a line gives it.
#[derive(Clone, Copy)]
struct Given {
    index: usize,
    kind: RowType,
    number: Frac,
}

/// The index and the type of a row, where ROWS names it.
#[tactic(auto, using(crate::proofs::TableLemmas::value_under_table))]
fn row_in<'a, B: BuildHasher + Drop>(
    rows: &IndexMap<&'a [u8], RowType, B>,
    name: &'a [u8],
) -> Option<(usize, RowType)>
    ensures row { IfSome result (λ r. IsRowAt rows.now.entries name.now r.0) }
    ensures kind { option_map (λ r. r.1) result ≡ value_under (table rows.now.entries) name.now }
{
    let index = rows.get_index_of(name)?;
    Some((index, rows[index]))
}

/// Whether a row of this type counts once more in this section.
fn counts_twice(are_ranges: bool, kind: RowType) -> bool
    ensures { result ≡ (are_ranges && is_counted kind) }
{
    are_ranges && is_counted(kind)
}

/// The number that is kept of a row of this type: 0 where it doesn't count.
fn number_for(kind: RowType, number: Frac) -> Frac
    ensures { result ≡ (if is_counted kind then number else whole (pos 0)) }
{
    if is_counted(kind) {
        number
    } else {
        Frac::of(0)
    }
}

/// Whether the fields are one or two rows with their values.
fn are_pairs(fields: &[&[u8]]) -> bool
    ensures value { result ≡ ((length fields.now == 2) || (length fields.now == 4)) }
    ensures two { result ≡ false → length fields.now ≢ 2 }
    ensures four { result ≡ false → length fields.now ≢ 4 }
{
    fields.len() == 2 || fields.len() == 4
}

impl<'a> Sides<'a> {
    /// Whether there is no room for one more row where it counts, after so many rows and the ranged ones.
    fn is_full(&self, count: usize, counts: bool) -> bool
        ensures full { result ≡ (counts && nat_le most_rows (count + self.now.ranged)) }
        ensures few { result ≡ false → counts ≡ true → self.now.ranged < most_rows }
    {
        counts && count as u128 + self.ranged as u128 >= MOST_ROWS as u128
    }

    /// A row's index and type with its number, or why it isn't taken.
    fn judged<B: BuildHasher + Drop>(
        &self,
        rows: &IndexMap<&'a [u8], RowType, B>,
        count: usize,
        are_ranges: bool,
        row: &'a [u8],
        value: &'a [u8],
    ) -> Result<Given, Stop>
        requires { count ≡ counted (table rows.now.entries) }
        ensures row { IfOk result (λ g. IsRowAt rows.now.entries row.now g.index) }
        ensures kind { IfOk result (λ g. value_under (table rows.now.entries) row.now ≡ Some g.kind) }
        ensures number { IfOk result (λ g. g.number ≡ number_for g.kind value.now) }
        ensures few { IfOk result (λ g. (are_ranges && is_counted g.kind) ≡ true → self.now.ranged < most_rows) }
        ensures ok { (before : RowValues) → HasSides are_ranges (table rows.now.entries) self.now before → IfOk result (λ g.
            side_fault are_ranges (table rows.now.entries) before (row.now, value.now) ≡ None) }
        ensures err { (before : RowValues) → HasSides are_ranges (table rows.now.entries) self.now before → IfErr result (λ stop.
            Stops stop (side_fault are_ranges (table rows.now.entries) before (row.now, value.now))) }
    {
        let Some((index, kind)) = row_in(rows, row) else {
            return Err(Stop::Fault(Kind::UnknownRow));
        };
        if self.numbers.number_at(index).is_some() {
            return Err(Stop::Fault(Kind::Duplicate));
        }
        if self.is_full(count, counts_twice(are_ranges, kind)) {
            return Err(Stop::Fault(Kind::TooMany));
        }
        match side_number(value) {
            Ok(number) => Ok(Given {
                index,
                kind,
                number: number_for(kind, number),
            }),
            Err(stop) => Err(stop),
        }
    }

    /// Takes a row with its value after those before, or says why not.
    fn take<B: BuildHasher + Drop>(
        &mut self,
        rows: &IndexMap<&'a [u8], RowType, B>,
        count: usize,
        are_ranges: bool,
        row: &'a [u8],
        value: &'a [u8],
    ) -> Result<(), Stop>
        requires { count ≡ counted (table rows.now.entries) }
        ensures rows { TakesRows are_ranges (table rows.now.entries) None (Some ((row.now, value.now) ∷ [])) self.old self.new result }
        ensures group { OnOk result (bytes_of self.new.group ≡ bytes_of self.old.group) }
    {
        let given = match self.judged(rows, count, are_ranges, row, value) {
            Ok(given) => given,
            Err(stop) => return Err(stop),
        };
        if self.numbers.put(given.index, given.number).is_err() {
            return Err(Stop::Memory);
        }
        if counts_twice(are_ranges, given.kind) {
            self.ranged += 1;
        }
        Ok(())
    }

    /// Takes two rows with their values, or says why not.
    fn take_two<B: BuildHasher + Drop>(
        &mut self,
        rows: &IndexMap<&'a [u8], RowType, B>,
        count: usize,
        are_ranges: bool,
        row: &'a [u8],
        value: &'a [u8],
        second_row: &'a [u8],
        second_value: &'a [u8],
    ) -> Result<(), Stop>
        requires { count ≡ counted (table rows.now.entries) }
        ensures rows { TakesRows are_ranges (table rows.now.entries) None (Some ((row.now, value.now) ∷ (second_row.now, second_value.now) ∷ [])) self.old self.new result }
        ensures group { OnOk result (bytes_of self.new.group ≡ bytes_of self.old.group) }
    {
        match self.take(rows, count, are_ranges, row, value) {
            Ok(()) => self.take(rows, count, are_ranges, second_row, second_value),
            Err(stop) => Err(stop),
        }
    }

    /// Takes rows with their values behind a set's name or none, or says why not.
    fn take_pairs<B: BuildHasher + Drop>(
        &mut self,
        rows: &IndexMap<&'a [u8], RowType, B>,
        count: usize,
        are_ranges: bool,
        pairs: &[&'a [u8]],
    ) -> Result<(), Stop>
        requires { count ≡ counted (table rows.now.entries) }
        ensures rows { TakesRows are_ranges (table rows.now.entries) None (pairs_of (texts pairs.now)) self.old self.new result }
        ensures group { OnOk result (bytes_of self.new.group ≡ bytes_of self.old.group) }
    {
        match pairs {
            [row, value] => self.take(rows, count, are_ranges, row, value),
            [row, value, second_row, second_value] => self.take_two(
                rows,
                count,
                are_ranges,
                row,
                value,
                second_row,
                second_value,
            ),
            _ => Err(Stop::Fault(Kind::BadFields)),
        }
    }

    /// Takes rows with their values behind a set's name, or says why not.
    fn take_named<B: BuildHasher + Drop>(
        &mut self,
        rows: &IndexMap<&'a [u8], RowType, B>,
        count: usize,
        are_ranges: bool,
        group: &'a [u8],
        pairs: &[&'a [u8]],
    ) -> Result<(), Stop>
        requires { count ≡ counted (table rows.now.entries) }
        ensures rows { TakesRows are_ranges (table rows.now.entries) (when (differs (bytes_of self.old.group) (Some group.now)) Kind.ManySets) (pairs_of (texts pairs.now)) self.old self.new result }
        ensures group { OnOk result (bytes_of self.new.group ≡ Some group.now) }
    {
        if differs(self.group, group) {
            return Err(Stop::Fault(Kind::ManySets));
        }
        match self.take_pairs(rows, count, are_ranges, pairs) {
            Ok(()) => {
                self.group = Some(group);
                Ok(())
            }
            Err(stop) => Err(stop),
        }
    }

    /// Takes the fields of a line without a set's name, or says why not.
    fn take_plain<B: BuildHasher + Drop>(
        &mut self,
        rows: &IndexMap<&'a [u8], RowType, B>,
        count: usize,
        are_ranges: bool,
        fields: &[&'a [u8]],
    ) -> Result<(), Stop>
        requires count { count ≡ counted (table rows.now.entries) }
        requires three { length fields.now ≢ 3 }
        requires five { length fields.now ≢ 5 }
        ensures { TakesFields are_ranges (table rows.now.entries) (texts fields.now) self.old self.new result }
    {
        self.take_pairs(rows, count, are_ranges, fields)
    }

    /// Takes the fields of a line, or says why not: an odd count begins with a set's name.
    pub fn take_line<B: BuildHasher + Drop>(
        &mut self,
        rows: &IndexMap<&'a [u8], RowType, B>,
        count: usize,
        are_ranges: bool,
        fields: &[&'a [u8]],
    ) -> Result<(), Stop>
        requires { count ≡ counted (table rows.now.entries) }
        ensures { TakesFields are_ranges (table rows.now.entries) (texts fields.now) self.old self.new result }
    {
        match fields {
            [group, pairs @ ..] => {
                if are_pairs(pairs) {
                    return self.take_named(rows, count, are_ranges, group, pairs);
                }
                self.take_plain(rows, count, are_ranges, fields)
            }
            [] => self.take_plain(rows, count, are_ranges, fields),
        }
    }
}
