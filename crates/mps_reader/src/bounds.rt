//! Lines of BOUNDS.

ghost use Rattle.std.specs.Prelude.{◌≡◌, ℕ, ◌∷◌, OnOk, IfErr, IfOk, List, None, Some, if◌then◌else◌};
ghost use Rattle.std.specs.Option.{option_map, option_or};
ghost use Rattle.std.specs.Str.{bytes_eq};
ghost use Rattle.mps_reader.specs.BoundLines.{with_limits};
ghost use Rattle.mps_reader.specs.BoundTables.{HasBounds, summary_in, bound_of};
ghost use Rattle.mps_reader.specs.Faults.{bound_fault, bound_line_fault, differs};
ghost use Rattle.mps_reader.specs.Sections.{Bound, Entry, bound_at, bound_set, columns_of, with_bound, bound_with_value, bound_without_value};
ghost use Rattle.mps_reader.specs.Tables.{Stops, table, bytes_of, texts};
ghost use Rattle.mps_reader.specs.Words.{value_under};

use crate::kinds::{BoundType, Column, Kind, Stop};
use crate::limits::{ColumnBounds, has_value, no_limits, with_line};
use crate::names::has;
use crate::sides::differs;
use crate::words::bound_type_of;
use indexmap::IndexMap;
use std::alloc::AllocError;
use std::hash::BuildHasher;

/// A line of BOUNDS: its type, a set's name or none, the column, and the value's field.
#[derive(Clone, Copy)]
pub struct Written<'a> {
    pub kind: BoundType,
    pub group: Option<&'a [u8]>,
    pub column: &'a [u8],
    pub value: &'a [u8],
}

/// What the lines so far say of their columns, and the set's name.
pub struct Bounds<'a, B: BuildHasher + Drop> {
    pub limits: IndexMap<&'a [u8], ColumnBounds, B>,
    pub group: Option<&'a [u8]>,
}

/// By hand (docs/DECISIONS.md, entry 98).
impl<'a, B: BuildHasher + Drop> Drop for Bounds<'a, B> {
    fn drop(self) {
        let Bounds {
            limits: _,
            group: _,
        } = self;
    }
}

/// What follows the type of a line whose value counts.
#[tactic(auto, using(crate::proofs::BoundTables::bound_with_value_none))]
fn bound_with_value<'a>(kind: BoundType, rest: &[&'a [u8]]) -> Option<Written<'a>>
    ensures { option_map bound_of result ≡ bound_with_value kind (texts rest.now) }
{
    match rest {
        [column, value] => Some(Written {
            kind,
            group: None,
            column,
            value,
        }),
        [group, column, value] => Some(Written {
            kind,
            group: Some(*group),
            column,
            value,
        }),
        _ => None,
    }
}

/// What follows the type of a line whose value is passed over.
#[tactic(auto, using(crate::proofs::BoundTables::bound_without_value_none))]
fn bound_without_value<'a>(kind: BoundType, rest: &[&'a [u8]]) -> Option<Written<'a>>
    ensures { option_map bound_of result ≡ bound_without_value kind (texts rest.now) }
{
    match rest {
        [column] => Some(Written {
            kind,
            group: None,
            column,
            value: b"".as_slice(),
        }),
        [group, column] | [group, column, _] => Some(Written {
            kind,
            group: Some(*group),
            column,
            value: b"".as_slice(),
        }),
        _ => None,
    }
}

/// What a line says, or nothing where its type or the count of its fields is wrong.
fn bound_at<'a>(fields: &[&'a [u8]]) -> Option<Written<'a>>
    ensures { option_map bound_of result ≡ bound_at (texts fields.now) }
{
    let [word, rest @ ..] = fields else {
        return None;
    };
    match bound_type_of(word) {
        Some(kind) if has_value(kind) => bound_with_value(kind, rest),
        Some(kind) => bound_without_value(kind, rest),
        None => None,
    }
}

/// The set's name after a line, where one is written.
fn later_set<'a>(before: Option<&'a [u8]>, group: Option<&'a [u8]>) -> Option<&'a [u8]>
    ensures { bytes_of result ≡ option_or (bytes_of group.entry) (bytes_of before.entry) }
{
    match group {
        Some(_) => group,
        None => before,
    }
}

impl<'a, B: BuildHasher + Drop> Bounds<'a, B> {
    /// What the lines so far say of a column.
    #[tactic(auto, using(crate::proofs::TableLemmas::value_under_table))]
    pub fn limits_of(&self, name: &'a [u8]) -> ColumnBounds
        ensures { result ≡ summary_in (table self.now.limits.entries) name.now }
    {
        match self.limits.get(name).copied() {
            Some(limits) => limits,
            None => no_limits(),
        }
    }

    /// Whether another set was named.
    fn has_other_set(&self, group: Option<&[u8]>) -> bool
        ensures { result ≡ differs (bytes_of self.now.group) (bytes_of group.entry) }
    {
        match group {
            Some(group) => differs(self.group, group),
            None => false,
        }
    }

    /// The limits of the line's column after the line, or why the line is refused.
    fn judged(
        &self,
        columns: &IndexMap<&'a [u8], Column, B>,
        line: &Written<'a>,
    ) -> Result<ColumnBounds, Stop>
        ensures ok { IfOk result (λ new. (bound_fault (table columns.now.entries) (bytes_of self.now.group) (bound_of line.now) ≡ None)
            × (new ≡ with_limits line.now.kind line.now.value.now (summary_in (table self.now.limits.entries) line.now.column.now))) }
        ensures err { IfErr result (λ stop. Stops stop (bound_fault (table columns.now.entries) (bytes_of self.now.group) (bound_of line.now))) }
    {
        if self.has_other_set(line.group) {
            return Err(Stop::Fault(Kind::ManySets));
        }
        if !has(columns, line.column) {
            return Err(Stop::Fault(Kind::UnknownColumn));
        }
        with_line(self.limits_of(line.column), line.kind, line.value)
    }

    /// Keeps the limits of a column and the set's name, where one is written. The one error is want of memory.
    fn keep(&mut self, line: &Written<'a>, limits: ColumnBounds) -> Result<(), AllocError>
        ensures limits { (name : List ℕ) → OnOk result (value_under (table self.new.limits.entries) name
            ≡ (if bytes_eq line.now.column.now name then Some limits else value_under (table self.old.limits.entries) name)) }
        ensures group { OnOk result (bytes_of self.new.group ≡ option_or (bytes_of line.now.group) (bytes_of self.old.group)) }
    {
        match self.limits.insert(line.column, limits) {
            Ok(_) => {
                self.group = later_set(self.group, line.group);
                Ok(())
            }
            Err(_) => Err(AllocError),
        }
    }

    /// Takes a line, or says why not.
    fn take(
        &mut self,
        columns: &IndexMap<&'a [u8], Column, B>,
        line: &Written<'a>,
    ) -> Result<(), Stop>
        ensures ok { (bounds : List Bound) → HasBounds self.old bounds → OnOk result (
            (bound_fault (table columns.now.entries) (bound_set bounds) (bound_of line.now) ≡ None) × HasBounds self.new (bound_of line.now ∷ bounds)) }
        ensures err { (bounds : List Bound) → HasBounds self.old bounds → IfErr result (λ stop.
            Stops stop (bound_fault (table columns.now.entries) (bound_set bounds) (bound_of line.now))) }
    {
        match self.judged(columns, line) {
            Ok(limits) => match self.keep(line, limits) {
                Ok(()) => Ok(()),
                Err(_) => Err(Stop::Memory),
            },
            Err(stop) => Err(stop),
        }
    }

    /// Takes the fields of a line, or says why not.
    pub fn take_line(
        &mut self,
        columns: &IndexMap<&'a [u8], Column, B>,
        fields: &[&'a [u8]],
    ) -> Result<(), Stop>
        ensures ok { (entries : List Entry) (bounds : List Bound) → table columns.now.entries ≡ columns_of entries → HasBounds self.old bounds → OnOk result (
            (bound_line_fault entries bounds (bound_at (texts fields.now)) ≡ None) × HasBounds self.new (with_bound (bound_at (texts fields.now)) bounds)) }
        ensures err { (entries : List Entry) (bounds : List Bound) → table columns.now.entries ≡ columns_of entries → HasBounds self.old bounds → IfErr result (λ stop.
            Stops stop (bound_line_fault entries bounds (bound_at (texts fields.now)))) }
    {
        match bound_at(fields) {
            Some(line) => self.take(columns, &line),
            None => Err(Stop::Fault(Kind::BadFields)),
        }
    }
}
