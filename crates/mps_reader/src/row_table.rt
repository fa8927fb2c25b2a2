//! What the columns so far say of each row.

ghost use Rattle.std.specs.Prelude.{◌≡◌, ℕ, ◌++◌, ◌∷◌, ◌<◌, [], OnOk, IfSome, None, Some, get_or, length, set, slice_get, true};
ghost use Rattle.mps_reader.specs.RowState.{is_place, kept_terms, new_row, bare_row, with_number};
ghost use Rattle.mps_reader.specs.RowTable.{state_at};
ghost use Rattle.mps_reader.specs.declared.row_terms.TermRow.{TermRow};

use crate::row_terms::TermRow;
use fraction::Frac;
use problem::Terms;
use std::alloc::{AllocError, Global};
use std::marker::Model;

/// What the table has of a row. A text may have many rows that keep no terms, so this takes four bytes.
#[derive(Clone, Copy)]
enum RowEntry {
    /// It keeps no terms, and no column names it.
    Unnamed,
    /// It keeps no terms, and the column at this place named it last.
    NamedBy(u16),
    /// It keeps terms, at this index among the rows that do.
    Keeps(u16),
}

const _: () = prove!(size_of::<RowEntry>() == 4);

/// The rows of a text. Only those whose terms count keep them.
///
/// It is seen as the list of the rows: the terms of each so far where it keeps them, and the place of the column that named it last.
/// An entry leads to its row's terms where these say so by the row's index.
#[derive(Drop)]
pub struct RowTable {
    entries: Vec<RowEntry>,
    kept: Vec<TermRow>,
}

impl Model for RowTable {
    ghost use Rattle.std.specs.Prelude.{List};
    ghost use Rattle.std.specs.Coded.{coded_list};
    ghost use Rattle.mps_reader.specs.RowState.{RowState, code_RowState};

    ghost Value = { List RowState };

    ghost coded = { coded_list code_RowState };

    ghost use Rattle.mps_reader.specs.RowTable.{row_states};

    ghost view = { λ t. row_states t.kept.items t.entries.items };
}

/// The place of the column that named the row at an index last, by its entry.
fn last_place(kept: &[TermRow], index: usize, entry: RowEntry) -> Option<u16>
    ensures { result ≡ (state_at kept.now index entry).named_by }
{
    match entry {
        RowEntry::Unnamed => None,
        RowEntry::NamedBy(place) => Some(place),
        RowEntry::Keeps(spot) => {
            let own = kept.get(spot as usize)?;
            if own.row as usize != index {
                return None;
            }
            own.named_by
        }
    }
}

/// Where the terms of the row at an index stand among those that are kept.
fn spot_of(kept: &[TermRow], index: usize, entry: RowEntry) -> Option<usize>
    ensures within { IfSome result (λ s. s < length kept.now) }
    ensures entry { IfSome result (λ s. entry ≡ RowEntry.Keeps s) }
    ensures row { IfSome result (λ s. (r : TermRow) → slice_get kept.now s ≡ Some r → r.row ≡ index) }
    ensures none { result ≡ None → (state_at kept.now index entry).terms ≡ None }
{
    let RowEntry::Keeps(spot) = entry else {
        return None;
    };
    let spot = spot as usize;
    if kept.get(spot)?.row as usize != index {
        return None;
    }
    Some(spot)
}

impl RowTable {
    /// No rows.
    pub fn new(alloc: Global) -> RowTable
        ensures { result ≡ [] }
    {
        RowTable {
            entries: Vec::new(alloc),
            kept: Vec::new(alloc),
        }
    }

    /// How many rows there are.
    pub fn len(&self) -> usize
        ensures { result ≡ length self.now }
    {
        self.entries.len()
    }

    /// Puts a row that keeps its terms behind the others.
    fn push_kept(&mut self) -> Result<(), AllocError>
        ensures { OnOk result (self.new ≡ self.old ++ new_row true ∷ []) }
    {
        let (Ok(row), Ok(spot)) = (
            u32::try_from(self.entries.len()),
            u16::try_from(self.kept.len()),
        ) else {
            return Err(AllocError);
        };
        let terms = Terms::new(*self.entries.allocator());
        self.kept.push(TermRow {
            row,
            named_by: None,
            terms,
        })?;
        self.entries.push(RowEntry::Keeps(spot))?;
        Ok(())
    }

    /// Puts a row that no column names behind the others. The one error is want of memory.
    pub fn push(&mut self, keeps: bool) -> Result<(), AllocError>
        ensures { OnOk result (self.new ≡ self.old ++ new_row keeps ∷ []) }
    {
        if keeps {
            return self.push_kept();
        }
        self.entries.push(RowEntry::Unnamed)?;
        Ok(())
    }

    /// Whether the column at a place named the row at an index last.
    pub fn is_named_by(&self, index: usize, place: u16) -> bool
        requires { index < length self.now }
        ensures { result ≡ is_place (get_or self.now index bare_row).named_by place }
    {
        match last_place(&self.kept, index, self.entries[index]) {
            Some(last) => last == place,
            None => false,
        }
    }

    /// Takes the number of the column at a place for the row at an index. The one error is want of memory.
    pub fn take(&mut self, index: usize, place: u16, number: Frac) -> Result<(), AllocError>
        requires { index < length self.old }
        ensures { OnOk result (self.new ≡ set self.old index (with_number place number (get_or self.old index bare_row))) }
    {
        match spot_of(&self.kept, index, self.entries[index]) {
            Some(spot) => self.kept[spot].take(place, number),
            None => {
                self.entries[index] = RowEntry::NamedBy(place);
                Ok(())
            }
        }
    }

    /// Takes the terms of the row at an index out of the table.
    pub fn take_terms(&mut self, index: usize) -> Terms
        requires { index < length self.old }
        ensures terms { result ≡ kept_terms (get_or self.old index bare_row) }
        ensures rows { self.new ≡ set self.old index bare_row }
    {
        let none = Terms::new(*self.entries.allocator());
        let spot = spot_of(&self.kept, index, self.entries[index]);
        self.entries[index] = RowEntry::Unnamed;
        match spot {
            Some(spot) => std::mem::replace(&mut self.kept[spot].terms, none),
            None => none,
        }
    }
}
