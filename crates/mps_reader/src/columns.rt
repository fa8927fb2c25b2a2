//! Lines of COLUMNS.

ghost use Rattle.std.specs.Prelude.{◌≡◌, ℕ, ◌∷◌, ◌<◌, if◌then◌else◌, false, OnOk, IfErr, IfOk, IfSome, None, Some, List, is_some, length};
ghost use denote.Ref.{Bor};
ghost use Rattle.mps_reader.specs.Words.{marker_of, value_under};
ghost use Rattle.mps_reader.specs.Sections.{is_same, last_of, columns_of, run_of, with_column, Entry, marker, is_behind_intorg, entries_of, data_line, pairs_of, with_pairs, entry};
ghost use Rattle.mps_reader.specs.Faults.{entry_fault, is_repeated, names_fault, pairs_fault, column_fault, ◌<|>◌};
ghost use Rattle.mps_lines.specs.Lines.{Line};
ghost use Rattle.mps_reader.specs.RowsSoFar.{IsRowAt, IsNew};
ghost use Rattle.mps_reader.specs.State.{HasEntries};
ghost use Rattle.mps_reader.specs.Tables.{texts, table, Stops, bytes_of, entry_of};

use crate::kinds::{Column, Kind, RowType, Stop};
use crate::names::{add, has};
use crate::numbers::number_in;
use crate::row_table::RowTable;
use indexmap::IndexMap;
use problem::MOST_COLUMNS;
use std::alloc::AllocError;
use std::hash::BuildHasher;

/// One row of a column, with its value as it is spelled.
#[derive(Clone, Copy)]
pub struct Cell<'a> {
    pub column: &'a [u8],
    pub row: &'a [u8],
    pub value: &'a [u8],
    pub line: u64,
    pub is_marked: bool,
}

/// The columns so far, the last one's name and place, and what the columns say of each row.
pub struct Columns<'a, B: BuildHasher + Drop> {
    pub columns: IndexMap<&'a [u8], Column, B>,
    pub last: Option<&'a [u8]>,
    pub place: u16,
    pub rows: RowTable,
}

/// By hand (docs/DECISIONS.md, entry 98).
impl<'a, B: BuildHasher + Drop> Drop for Columns<'a, B> {
    fn drop(self) {
        let Columns {
            columns: _,
            last: _,
            place: _,
            rows: _,
        } = self;
    }
}

/// Whether a marker begins whole columns.
fn marker_of(word: &[u8]) -> Option<bool>
    ensures { result ≡ marker_of word.now }
{
    if word == b"'INTORG'".as_slice() {
        return Some(true);
    }
    if word == b"'INTEND'".as_slice() {
        return Some(false);
    }
    None
}

/// What a marker's fields say.
fn marker(fields: &[&[u8]]) -> Option<bool>
    ensures { result ≡ marker (texts fields.now) }
{
    match fields {
        [_, word, which] if *word == b"'MARKER'".as_slice() => marker_of(which),
        _ => None,
    }
}

/// Whether a column is the last one.
fn is_same(last: Option<&[u8]>, column: &[u8]) -> bool
    ensures { result ≡ is_same (bytes_of last.entry) column.now }
{
    match last {
        Some(last) => column == last,
        None => false,
    }
}

impl<'a, B: BuildHasher + Drop> Columns<'a, B> {
    /// The index of a row, where ROWS names it.
    fn index_of(&self, rows: &IndexMap<&'a [u8], RowType, B>, name: &'a [u8]) -> Option<usize>
        ensures row { IfSome result (λ i. IsRowAt rows.now.entries name.now i) }
        ensures within { IfSome result (λ i. i < length self.now.rows) }
        ensures known { (entries : List Entry) → HasEntries self.now (table rows.now.entries) entries → is_some result ≡ is_some (value_under (table rows.now.entries) name.now) }
    {
        let index = rows.get_index_of(name)?;
        // Never so in a reader's tables, where each row of ROWS has its terms here.
        if index >= self.rows.len() {
            return None;
        }
        Some(index)
    }

    /// Whether the last column names an entry's row already, or the entry's column stands before the last one.
    fn is_repeated(&self, same: bool, index: usize, e: &Cell<'a>) -> bool
        requires { index < length self.now.rows }
        ensures new { same ≡ false → result ≡ is_some (value_under (table self.now.columns.entries) e.now.column.now) }
        ensures repeated { (es : List (Bor (List ℕ) × RowType)) (entries : List Entry) → HasEntries self.now (table es) entries → IsRowAt es e.now.row.now index
            → same ≡ is_same (last_of entries) e.now.column.now → result ≡ is_repeated (columns_of entries) (run_of entries) (is_same (last_of entries) e.now.column.now) (entry_of e.now) }
    {
        if same {
            self.rows.is_named_by(index, self.place)
        } else {
            has(&self.columns, e.column)
        }
    }

    /// The index of an entry's row, or what is wrong with its names.
    fn row_of(
        &self,
        rows: &IndexMap<&'a [u8], RowType, B>,
        same: bool,
        e: &Cell<'a>,
    ) -> Result<usize, Kind>
        ensures within { IfOk result (λ i. i < length self.now.rows) }
        ensures row { IfOk result (λ i. IsRowAt rows.now.entries e.now.row.now i) }
        ensures new { IfOk result (λ i. IsNew same (table self.now.columns.entries) e.now.column.now) }
        ensures ok { (entries : List Entry) → HasEntries self.now (table rows.now.entries) entries → same ≡ is_same (last_of entries) e.now.column.now
            → IfOk result (λ i. names_fault (table rows.now.entries) entries (entry_of e.now) ≡ None) }
        ensures err { (entries : List Entry) → HasEntries self.now (table rows.now.entries) entries → same ≡ is_same (last_of entries) e.now.column.now
            → IfErr result (λ k. names_fault (table rows.now.entries) entries (entry_of e.now) ≡ Some k) }
    {
        let Some(index) = self.index_of(rows, e.row) else {
            return Err(Kind::UnknownRow);
        };
        if self.is_repeated(same, index, e) {
            return Err(Kind::Duplicate);
        }
        if !same && self.columns.len() >= MOST_COLUMNS {
            return Err(Kind::TooMany);
        }
        Ok(index)
    }

    /// Makes an entry's column the last one. The one error is want of memory.
    fn stand_at(&mut self, same: bool, e: &Cell<'a>) -> Result<(), AllocError>
        requires { IsNew same (table self.old.columns.entries) e.now.column.now }
        ensures columns { OnOk result (table self.new.columns.entries ≡ with_column same (table self.old.columns.entries) (entry_of e.now)) }
        ensures last { OnOk result (bytes_of self.new.last ≡ (if same then bytes_of self.old.last else Some e.now.column.now)) }
        ensures place { OnOk result (self.new.place ≡ (if same then self.old.place else length (table self.old.columns.entries))) }
        ensures rows { OnOk result (self.new.rows ≡ self.old.rows) }
    {
        if same {
            return Ok(());
        }
        let place = self.columns.len() as u16;
        let column = Column {
            line: e.line,
            is_marked: e.is_marked,
        };
        add(&mut self.columns, e.column, column)?;
        self.last = Some(e.column);
        self.place = place;
        Ok(())
    }

    /// Takes an entry, or says why not.
    fn take(&mut self, rows: &IndexMap<&'a [u8], RowType, B>, e: &Cell<'a>) -> Result<(), Stop>
        ensures ok { (entries : List Entry) → HasEntries self.old (table rows.now.entries) entries → OnOk result (
            (entry_fault (table rows.now.entries) entries (entry_of e.now) ≡ None) × HasEntries self.new (table rows.now.entries) (entry_of e.now ∷ entries)) }
        ensures err { (entries : List Entry) → HasEntries self.old (table rows.now.entries) entries → IfErr result (λ stop.
            Stops stop (entry_fault (table rows.now.entries) entries (entry_of e.now))) }
    {
        let same = is_same(self.last, e.column);
        let index = match self.row_of(rows, same, e) {
            Ok(index) => index,
            Err(kind) => return Err(Stop::Fault(kind)),
        };
        let number = match number_in(e.value) {
            Ok(number) => number,
            Err(stop) => return Err(stop),
        };
        if self.stand_at(same, e).is_err() {
            return Err(Stop::Memory);
        }
        let place = self.place;
        match self.rows.take(index, place, number) {
            Ok(()) => Ok(()),
            Err(_) => Err(Stop::Memory),
        }
    }

    /// Takes two entries, or says why not.
    fn take_two(
        &mut self,
        rows: &IndexMap<&'a [u8], RowType, B>,
        first: &Cell<'a>,
        second: &Cell<'a>,
    ) -> Result<(), Stop>
        ensures ok { (entries : List Entry) → HasEntries self.old (table rows.now.entries) entries → OnOk result (
            ((entry_fault (table rows.now.entries) entries (entry_of first.now) <|> entry_fault (table rows.now.entries) (entry_of first.now ∷ entries) (entry_of second.now) <|> None) ≡ None)
            × HasEntries self.new (table rows.now.entries) (entry_of second.now ∷ entry_of first.now ∷ entries)) }
        ensures err { (entries : List Entry) → HasEntries self.old (table rows.now.entries) entries → IfErr result (λ stop.
            Stops stop (entry_fault (table rows.now.entries) entries (entry_of first.now) <|> entry_fault (table rows.now.entries) (entry_of first.now ∷ entries) (entry_of second.now) <|> None)) }
    {
        match self.take(rows, first) {
            Ok(()) => self.take(rows, second),
            Err(stop) => Err(stop),
        }
    }

    /// Takes the entries of a line, or says why not.
    fn take_pairs(
        &mut self,
        rows: &IndexMap<&'a [u8], RowType, B>,
        column: &'a [u8],
        rest: &[&'a [u8]],
        line: u64,
        is_marked: bool,
    ) -> Result<(), Stop>
        ensures ok { (entries : List Entry) → HasEntries self.old (table rows.now.entries) entries → OnOk result (
            (pairs_fault (table rows.now.entries) (entry line is_marked column.now) entries (pairs_of (texts rest.now)) ≡ None)
            × HasEntries self.new (table rows.now.entries) (with_pairs (entry line is_marked column.now) (pairs_of (texts rest.now)) entries)) }
        ensures err { (entries : List Entry) → HasEntries self.old (table rows.now.entries) entries → IfErr result (λ stop.
            Stops stop (pairs_fault (table rows.now.entries) (entry line is_marked column.now) entries (pairs_of (texts rest.now)))) }
    {
        match rest {
            [row, value] => self.take(
                rows,
                &Cell {
                    column,
                    row,
                    value,
                    line,
                    is_marked,
                },
            ),
            [row, value, second_row, second_value] => self.take_two(
                rows,
                &Cell {
                    column,
                    row,
                    value,
                    line,
                    is_marked,
                },
                &Cell {
                    column,
                    row: second_row,
                    value: second_value,
                    line,
                    is_marked,
                },
            ),
            _ => Err(Stop::Fault(Kind::BadFields)),
        }
    }

    /// Takes a line of COLUMNS, or says why not.
    pub fn take_line(
        &mut self,
        rows: &IndexMap<&'a [u8], RowType, B>,
        is_marked: &mut bool,
        number: u64,
        fields: &[&'a [u8]],
    ) -> Result<(), Stop>
        ensures ok { (earlier : List Line) → HasEntries self.old (table rows.now.entries) (entries_of earlier) → is_marked.old ≡ is_behind_intorg earlier → OnOk result (
            (column_fault (table rows.now.entries) earlier number (marker (texts fields.now)) (texts fields.now) ≡ None)
            × HasEntries self.new (table rows.now.entries) (entries_of (data_line number (texts fields.now) ∷ earlier))
            × (is_marked.new ≡ is_behind_intorg (data_line number (texts fields.now) ∷ earlier))) }
        ensures err { (earlier : List Line) → HasEntries self.old (table rows.now.entries) (entries_of earlier) → is_marked.old ≡ is_behind_intorg earlier → IfErr result (λ stop.
            Stops stop (column_fault (table rows.now.entries) earlier number (marker (texts fields.now)) (texts fields.now))) }
    {
        if let Some(begins) = marker(fields) {
            *is_marked = begins;
            return Ok(());
        }
        let [column, rest @ ..] = fields else {
            return Err(Stop::Fault(Kind::BadFields));
        };
        self.take_pairs(rows, column, rest, number, *is_marked)
    }
}
