//! Words of sections and of bounds.

ghost use Rattle.std.specs.Prelude.{◌≡◌, ℕ, IfSome, None, Some, List, [], ◌∷◌, true, false, is_some, length};
ghost use Rattle.mps_reader.specs.Words.{bound_type_of, later_sections, plain_bound_types, section_of, sense_of, value_under};
ghost use Rattle.mps_reader.specs.Sections.{first_field};
ghost use Rattle.mps_reader.specs.Tables.{texts};

use crate::kinds::{BoundType, Section};
use problem::ObjectiveSense;

/// The section from RHS on that a word names.
fn later_section_of(word: &[u8]) -> Option<Section>
    ensures { result ≡ value_under later_sections word.now }
{
    if word == b"RHS".as_slice() {
        return Some(Section::Rhs);
    }
    if word == b"RANGES".as_slice() {
        return Some(Section::Ranges);
    }
    if word == b"BOUNDS".as_slice() {
        return Some(Section::Bounds);
    }
    if word == b"ENDATA".as_slice() {
        return Some(Section::EndData);
    }
    None
}

/// The section that a word names.
pub fn section_of(word: &[u8]) -> Option<Section>
    ensures { result ≡ section_of word.now }
{
    if word == b"NAME".as_slice() {
        return Some(Section::Name);
    }
    if word == b"OBJSENSE".as_slice() {
        return Some(Section::ObjSense);
    }
    if word == b"ROWS".as_slice() {
        return Some(Section::Rows);
    }
    if word == b"COLUMNS".as_slice() {
        return Some(Section::Columns);
    }
    later_section_of(word)
}

/// The sense of the objective that a word of OBJSENSE asks for.
pub fn sense_of(word: &[u8]) -> Option<ObjectiveSense>
    ensures { result ≡ sense_of word.now }
{
    if word == b"MIN".as_slice() {
        return Some(ObjectiveSense::Minimise);
    }
    if word == b"MINIMIZE".as_slice() {
        return Some(ObjectiveSense::Minimise);
    }
    if word == b"MAX".as_slice() {
        return Some(ObjectiveSense::Maximise);
    }
    if word == b"MAXIMIZE".as_slice() {
        return Some(ObjectiveSense::Maximise);
    }
    None
}

/// The first field, or nothing.
pub fn first_field<'a>(fields: &[&'a [u8]]) -> &'a [u8]
    ensures { result.now ≡ first_field (texts fields.now) }
{
    match fields {
        [first, ..] => *first,
        [] => b"".as_slice(),
    }
}

/// The type of a bound without a value that a word names.
fn plain_type_of(word: &[u8]) -> Option<BoundType>
    ensures { result ≡ value_under plain_bound_types word.now }
{
    if word == b"FR".as_slice() {
        return Some(BoundType::Fr);
    }
    if word == b"MI".as_slice() {
        return Some(BoundType::Mi);
    }
    if word == b"PL".as_slice() {
        return Some(BoundType::Pl);
    }
    if word == b"BV".as_slice() {
        return Some(BoundType::Bv);
    }
    None
}

/// The type of a bound that a word names.
pub fn bound_type_of(word: &[u8]) -> Option<BoundType>
    ensures { result ≡ bound_type_of word.now }
{
    if word == b"UP".as_slice() {
        return Some(BoundType::Up);
    }
    if word == b"LO".as_slice() {
        return Some(BoundType::Lo);
    }
    if word == b"FX".as_slice() {
        return Some(BoundType::Fx);
    }
    if word == b"LI".as_slice() {
        return Some(BoundType::Li);
    }
    if word == b"UI".as_slice() {
        return Some(BoundType::Ui);
    }
    plain_type_of(word)
}
