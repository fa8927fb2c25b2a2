//! One line after those before it.

ghost use Rattle.std.specs.Prelude.{◌≡◌, ◌&&◌, not, OnOk, true, false, Some};
ghost use Rattle.std.specs.List.{list_all};
ghost use Rattle.mps_lines.specs.Left.{seen};
ghost use Rattle.mps_reader.specs.Faults.{is_field, limits_fields};
ghost use Rattle.mps_reader.specs.Reading.{is_end};
ghost use Rattle.mps_reader.specs.SectionTables.{CountsRows, Steps, TakesLine, rest_of, with_section};
ghost use Rattle.mps_reader.specs.Sections.{first_field};
ghost use Rattle.mps_reader.specs.Words.{section_of};

use crate::fields::are_fields;
use crate::kinds::{Kind, Section, Stop};
use crate::order::{asked, limits_fields, order_after, sense_fault, word_fault};
use crate::rows::row_line;
use crate::tables::Tables;
use crate::words::{first_field, section_of};
use mps_lines::Line;
use std::hash::BuildHasher;

/// Takes the word of OBJSENSE on a data line, or says why not.
fn sense_line<'a, B: BuildHasher + Drop>(
    tables: &mut Tables<'a, B>,
    line: &Line<'a>,
) -> Result<(), Stop>
    requires { CountsRows tables.old }
    ensures line { TakesLine (Some Section.ObjSense) tables.old tables.new (seen line.now) result }
    ensures count { OnOk result (CountsRows tables.new) }
{
    let fields = line.fields.as_slice();
    if fields.len() != 1 || tables.order.has_sense {
        return Err(Stop::Fault(Kind::BadSection));
    }
    match sense_fault(first_field(fields)) {
        Some(kind) => Err(Stop::Fault(kind)),
        None => {
            tables.order.has_sense = true;
            tables.order.sense = asked(fields);
            Ok(())
        }
    }
}

/// Takes a line of ROWS, or says why not.
fn rows_line<'a, B: BuildHasher + Drop>(
    tables: &mut Tables<'a, B>,
    line: &Line<'a>,
) -> Result<(), Stop>
    requires { CountsRows tables.old }
    ensures line { TakesLine (Some Section.Rows) tables.old tables.new (seen line.now) result }
    ensures count { OnOk result (CountsRows tables.new) }
{
    let fields = line.fields.as_slice();
    let keeps = match row_line(&mut tables.rows, &mut tables.count, fields) {
        Ok(keeps) => keeps,
        Err(stop) => return Err(stop),
    };
    match tables.columns.rows.push(keeps) {
        Ok(()) => Ok(()),
        Err(_) => Err(Stop::Memory),
    }
}

/// Takes a line of COLUMNS, or says why not.
fn columns_line<'a, B: BuildHasher + Drop>(
    tables: &mut Tables<'a, B>,
    line: &Line<'a>,
) -> Result<(), Stop>
    requires { CountsRows tables.old }
    ensures line { TakesLine (Some Section.Columns) tables.old tables.new (seen line.now) result }
    ensures count { OnOk result (CountsRows tables.new) }
{
    let fields = line.fields.as_slice();
    tables
        .columns
        .take_line(&tables.rows, &mut tables.is_marked, line.number, fields)
}

/// Takes a line of RHS, or says why not.
fn rhs_line<'a, B: BuildHasher + Drop>(
    tables: &mut Tables<'a, B>,
    line: &Line<'a>,
) -> Result<(), Stop>
    requires { CountsRows tables.old }
    ensures line { TakesLine (Some Section.Rhs) tables.old tables.new (seen line.now) result }
    ensures count { OnOk result (CountsRows tables.new) }
{
    let fields = line.fields.as_slice();
    tables
        .rhs
        .take_line(&tables.rows, tables.count, false, fields)
}

/// Takes a line of RANGES, or says why not.
fn ranges_line<'a, B: BuildHasher + Drop>(
    tables: &mut Tables<'a, B>,
    line: &Line<'a>,
) -> Result<(), Stop>
    requires { CountsRows tables.old }
    ensures line { TakesLine (Some Section.Ranges) tables.old tables.new (seen line.now) result }
    ensures count { OnOk result (CountsRows tables.new) }
{
    let fields = line.fields.as_slice();
    tables
        .ranges
        .take_line(&tables.rows, tables.count, true, fields)
}

/// Takes a line of BOUNDS, or says why not.
fn bounds_line<'a, B: BuildHasher + Drop>(
    tables: &mut Tables<'a, B>,
    line: &Line<'a>,
) -> Result<(), Stop>
    requires { CountsRows tables.old }
    ensures line { TakesLine (Some Section.Bounds) tables.old tables.new (seen line.now) result }
    ensures count { OnOk result (CountsRows tables.new) }
{
    let fields = line.fields.as_slice();
    tables.bounds.take_line(&tables.columns.columns, fields)
}

/// Takes a data line with fields within the limits, or says why not.
fn section_line<'a, B: BuildHasher + Drop>(
    tables: &mut Tables<'a, B>,
    line: &Line<'a>,
) -> Result<(), Stop>
    requires { CountsRows tables.old }
    ensures line { TakesLine tables.old.order.last tables.old tables.new (seen line.now) result }
    ensures count { OnOk result (CountsRows tables.new) }
{
    match tables.order.last {
        Some(Section::ObjSense) => sense_line(tables, line),
        Some(Section::Rows) => rows_line(tables, line),
        Some(Section::Columns) => columns_line(tables, line),
        Some(Section::Rhs) => rhs_line(tables, line),
        Some(Section::Ranges) => ranges_line(tables, line),
        Some(Section::Bounds) => bounds_line(tables, line),
        Some(Section::Name | Section::EndData) | None => Err(Stop::Fault(Kind::BadSection)),
    }
}

/// Whether a data line has a field beyond the limits, in a section where fields have them.
fn has_bad_field<'a>(last: Option<Section>, line: &Line<'a>) -> bool
    ensures { result ≡ (limits_fields last && not (list_all is_field (seen line.now).fields)) }
{
    limits_fields(last) && !are_fields(line.fields.as_slice())
}

/// Takes a data line, or says why not.
fn data_line<'a, B: BuildHasher + Drop>(
    tables: &mut Tables<'a, B>,
    line: &Line<'a>,
) -> Result<bool, Stop>
    requires { CountsRows tables.old }
    ensures line { line.now.is_data ≡ true → Steps tables.old tables.new (seen line.now) result }
    ensures count { OnOk result (CountsRows tables.new) }
{
    if has_bad_field(tables.order.last, line) {
        return Err(Stop::Fault(Kind::BadFields));
    }
    match section_line(tables, line) {
        Ok(()) => Ok(false),
        Err(stop) => Err(stop),
    }
}

/// Keeps a section word that may stand here.
fn keep_word<'a, B: BuildHasher + Drop>(tables: &mut Tables<'a, B>, word: Section, line: &Line<'a>)
    ensures { tables.new ≡ with_section word (rest_of (seen line.now)) line.now.number tables.old }
{
    tables.order = order_after(tables.order, word, line.fields.as_slice());
    match word {
        Section::Rows => tables.rows_at = line.number,
        _ => {}
    }
}

/// Takes a line of this section word and says whether it is ENDATA, or says why not.
fn known_line<'a, B: BuildHasher + Drop>(
    tables: &mut Tables<'a, B>,
    word: Section,
    line: &Line<'a>,
) -> Result<bool, Stop>
    requires { CountsRows tables.old }
    ensures line { line.now.is_data ≡ false → section_of (first_field (seen line.now).fields) ≡ Some word → Steps tables.old tables.new (seen line.now) result }
    ensures count { OnOk result (CountsRows tables.new) }
{
    match word_fault(tables.order, word, line.fields.as_slice()) {
        Some(kind) => Err(Stop::Fault(kind)),
        None => {
            keep_word(tables, word, line);
            Ok(is_last(word))
        }
    }
}

/// Takes a section line and says whether it is ENDATA, or says why not.
fn word_line<'a, B: BuildHasher + Drop>(
    tables: &mut Tables<'a, B>,
    line: &Line<'a>,
) -> Result<bool, Stop>
    requires { CountsRows tables.old }
    ensures line { line.now.is_data ≡ false → Steps tables.old tables.new (seen line.now) result }
    ensures count { OnOk result (CountsRows tables.new) }
{
    match section_of(first_field(line.fields.as_slice())) {
        Some(word) => known_line(tables, word, line),
        None => Err(Stop::Fault(Kind::BadSection)),
    }
}

/// Whether a text ends with this section.
fn is_last(word: Section) -> bool
    ensures { result ≡ is_end (Some word) }
{
    match word {
        Section::EndData => true,
        _ => false,
    }
}

/// Takes a line and says whether it is ENDATA, or says why not.
pub fn step<'a, B: BuildHasher + Drop>(
    tables: &mut Tables<'a, B>,
    line: &Line<'a>,
) -> Result<bool, Stop>
    requires { CountsRows tables.old }
    ensures line { Steps tables.old tables.new (seen line.now) result }
    ensures count { OnOk result (CountsRows tables.new) }
{
    if line.is_data {
        data_line(tables, line)
    } else {
        word_line(tables, line)
    }
}
