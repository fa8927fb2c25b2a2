//! Lines of ROWS.

ghost use Rattle.std.specs.Prelude.{◌≡◌, ◌++◌, ◌∷◌, ◌==◌, ◌||◌, [], OnOk, IfOk, IfErr, None, Some};
ghost use Rattle.mps_reader.specs.Words.{row_type_of};
ghost use Rattle.mps_reader.specs.Sections.{row_entry};
ghost use Rattle.mps_reader.specs.Faults.{row_fault, typed_row_fault, is_counted, counted};
ghost use Rattle.mps_reader.specs.RowState.{new_row};
ghost use Rattle.mps_reader.specs.RowsSoFar.{new_rows};
ghost use Rattle.mps_reader.specs.Tables.{texts, table, Stops};

use crate::kinds::{Kind, RowType, Stop};
use crate::names::add;
use indexmap::IndexMap;
use problem::MOST_ROWS;
use std::hash::BuildHasher;

/// The type that a word names.
pub fn row_type_of(word: &[u8]) -> Option<RowType>
    ensures { result ≡ row_type_of word.now }
{
    if word == b"N".as_slice() {
        return Some(RowType::N);
    }
    if word == b"L".as_slice() {
        return Some(RowType::L);
    }
    if word == b"G".as_slice() {
        return Some(RowType::G);
    }
    if word == b"E".as_slice() {
        return Some(RowType::E);
    }
    None
}

/// Whether rows of this type count.
pub fn is_counted(kind: RowType) -> bool
    ensures { result ≡ is_counted kind }
{
    match kind {
        RowType::N => false,
        _ => true,
    }
}

/// Whether the terms of a row of this type count behind other rows, so many of which count: the first N row stands behind rows that all count.
fn keeps_terms(kind: RowType, count: usize, rows: usize) -> bool
    ensures { result ≡ (is_counted kind || (count == rows)) }
{
    is_counted(kind) || count == rows
}

/// Takes a row of this type and says whether its terms count, or says why not.
fn take_row<'a, B: BuildHasher + Drop>(
    rows: &mut IndexMap<&'a [u8], RowType, B>,
    count: &mut usize,
    kind: RowType,
    name: &'a [u8],
) -> Result<bool, Stop>
    requires { count.old ≡ counted (table rows.old.entries) }
    ensures fault { OnOk result (typed_row_fault (table rows.old.entries) name.now (Some kind) ≡ None) }
    ensures row { OnOk result (table rows.new.entries ≡ table rows.old.entries ++ (name.now, kind) ∷ []) }
    ensures keeps { IfOk result (λ keeps. new_rows (table rows.old.entries) ++ new_row keeps ∷ [] ≡ new_rows (table rows.new.entries)) }
    ensures err { IfErr result (λ e. Stops e (typed_row_fault (table rows.old.entries) name.now (Some kind))) }
    ensures count { OnOk result (count.new ≡ counted (table rows.new.entries)) }
{
    let keeps = keeps_terms(kind, *count, rows.len());
    match add(rows, name, kind) {
        Ok(true) => {}
        Ok(false) => return Err(Stop::Fault(Kind::Duplicate)),
        Err(_) => return Err(Stop::Memory),
    }
    if is_counted(kind) {
        if *count >= MOST_ROWS {
            return Err(Stop::Fault(Kind::TooMany));
        }
        *count += 1;
    }
    Ok(keeps)
}

/// Takes a line of ROWS and says whether the row's terms count, or says why not. Of rows of type N only those of the first one do.
pub fn row_line<'a, B: BuildHasher + Drop>(
    rows: &mut IndexMap<&'a [u8], RowType, B>,
    count: &mut usize,
    fields: &[&'a [u8]],
) -> Result<bool, Stop>
    requires { count.old ≡ counted (table rows.old.entries) }
    ensures ok { OnOk result ((row_fault (table rows.old.entries) (texts fields.now) ≡ None)
        × (table rows.new.entries ≡ table rows.old.entries ++ row_entry (texts fields.now))) }
    ensures keeps { IfOk result (λ keeps. new_rows (table rows.old.entries) ++ new_row keeps ∷ [] ≡ new_rows (table rows.new.entries)) }
    ensures err { IfErr result (λ e. Stops e (row_fault (table rows.old.entries) (texts fields.now))) }
    ensures count { OnOk result (count.new ≡ counted (table rows.new.entries)) }
{
    let [word, name] = fields else {
        return Err(Stop::Fault(Kind::BadFields));
    };
    let Some(kind) = row_type_of(word) else {
        return Err(Stop::Fault(Kind::BadFields));
    };
    take_row(rows, count, kind, *name)
}
