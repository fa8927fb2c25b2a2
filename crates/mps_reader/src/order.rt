//! The order of the sections.

ghost use Rattle.std.specs.Prelude.{◌≡◌, ◌==◌, ◌&&◌, ◌||◌, Some, not, drop, length};
ghost use Rattle.mps_reader.specs.Faults.{limits_fields, may_follow, rest_fault, sense_fault, stage, stage_of, word_fault};
ghost use Rattle.mps_reader.specs.SectionOrder.{HasOrder, order_after};
ghost use Rattle.mps_reader.specs.Sections.{Sections, asked};
ghost use Rattle.mps_reader.specs.Tables.{texts};

use crate::kinds::{Kind, Section};
use crate::words::sense_of;
use problem::ObjectiveSense;

/// The last section word, which of the later sections have come, whether OBJSENSE has its word, and which sense it asks for.
#[derive(Clone, Copy)]
pub struct Order {
    pub last: Option<Section>,
    pub has_rhs: bool,
    pub has_ranges: bool,
    pub has_bounds: bool,
    pub has_sense: bool,
    pub sense: ObjectiveSense,
}

/// How far the sections have come: 0 nothing, 1 NAME, 2 OBJSENSE, 3 ROWS, 4 COLUMNS or a later one, 5 ENDATA.
fn stage_of(last: Option<Section>) -> u8
    ensures { result ≡ stage_of last }
{
    match last {
        None => 0,
        Some(Section::Name) => 1,
        Some(Section::ObjSense) => 2,
        Some(Section::Rows) => 3,
        Some(Section::EndData) => 5,
        Some(Section::Columns | Section::Rhs | Section::Ranges | Section::Bounds) => 4,
    }
}

/// Whether the fields of a section's data lines have limits: from ROWS on, up to ENDATA.
pub fn limits_fields(last: Option<Section>) -> bool
    ensures { result ≡ limits_fields last }
{
    let stage = stage_of(last);
    stage == 3 || stage == 4
}

/// Whether a section may come now.
fn follows(order: Order, word: Section) -> bool
    ensures { (s : Sections) → HasOrder order s → result ≡ may_follow s.words word }
{
    let stage = stage_of(order.last);
    match word {
        Section::Name => stage == 0,
        Section::ObjSense => stage <= 1,
        Section::Rows => stage <= 2,
        Section::Columns => stage == 3,
        Section::Rhs => stage == 4 && !order.has_rhs,
        Section::Ranges => stage == 4 && !order.has_ranges,
        Section::Bounds => stage == 4 && !order.has_bounds,
        Section::EndData => stage == 4,
    }
}

/// What is wrong with a word of OBJSENSE.
pub fn sense_fault(word: &[u8]) -> Option<Kind>
    ensures { result ≡ sense_fault word.now }
{
    match sense_of(word) {
        Some(_) => None,
        None => Some(Kind::BadSection),
    }
}

/// The sense that the words of OBJSENSE ask for; without a word the objective is minimised.
pub fn asked(words: &[&[u8]]) -> ObjectiveSense
    ensures { result ≡ asked (texts words.now) }
{
    match words {
        [word, ..] => sense_of(word).unwrap_or(ObjectiveSense::Minimise),
        [] => ObjectiveSense::Minimise,
    }
}

/// What is wrong with the fields behind the section word.
fn rest_fault(word: Section, rest: &[&[u8]]) -> Option<Kind>
    ensures { result ≡ rest_fault word (texts rest.now) }
{
    match word {
        Section::Name => None,
        Section::ObjSense => match rest {
            [] => None,
            [sense] => sense_fault(sense),
            _ => Some(Kind::BadSection),
        },
        _ => match rest {
            [] => None,
            _ => Some(Kind::BadSection),
        },
    }
}

/// The fields behind the first one.
fn rest_of<'f, 'a>(fields: &'f [&'a [u8]]) -> &'f [&'a [u8]]
    ensures { texts result.now ≡ drop 1 (texts fields.now) }
{
    match fields {
        [_, rest @ ..] => rest,
        [] => fields,
    }
}

/// Whether a section may not come now, or OBJSENSE has no word yet.
fn is_out_of_order(order: Order, word: Section) -> bool
    ensures { (s : Sections) → HasOrder order s → result ≡ (not (may_follow s.words word) || ((stage s.words == 2) && (length s.senses == 0))) }
{
    !follows(order, word) || (stage_of(order.last) == 2 && !order.has_sense)
}

/// What is wrong with a line of this section after the order so far.
pub fn word_fault(order: Order, word: Section, fields: &[&[u8]]) -> Option<Kind>
    ensures { (s : Sections) → HasOrder order s → result ≡ word_fault s (drop 1 (texts fields.now)) (Some word) }
{
    if is_out_of_order(order, word) {
        return Some(Kind::BadSection);
    }
    rest_fault(word, rest_of(fields))
}

/// The order after a section line.
pub fn order_after(order: Order, word: Section, fields: &[&[u8]]) -> Order
    ensures { result ≡ order_after word (drop 1 (texts fields.now)) order }
{
    let mut new = order;
    new.last = Some(word);
    match word {
        Section::ObjSense => {
            new.has_sense = !rest_of(fields).is_empty();
            new.sense = asked(rest_of(fields));
        }
        Section::Rhs => new.has_rhs = true,
        Section::Ranges => new.has_ranges = true,
        Section::Bounds => new.has_bounds = true,
        Section::Name | Section::Rows | Section::Columns | Section::EndData => {}
    }
    new
}
