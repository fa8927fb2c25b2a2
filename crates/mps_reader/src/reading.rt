//! The lines of a text up to ENDATA.

ghost use Rattle.std.specs.Prelude.{◌≡◌, ◌≤◌, IfOk, IfErr, length};
ghost use Rattle.mps_reader.specs.TextTables.{HasSectionsOf, IsFaultOf, fault_at};
ghost use Rattle.mps_reader.specs.Reading.{sections_in, text_limit};
ghost use Rattle.mps_reader.specs.SectionTables.{CountsRows, HoldsSections};
ghost use Rattle.mps_reader.specs.Sections.{none_yet};

use crate::kinds::{Kind, Stop};
use crate::lines::line_count;
use crate::steps::step;
use crate::tables::Tables;
use mps_lines::Lines;
use std::alloc::Global;
use std::hash::BuildHasher;

/// Why a text gives no problem.
#[derive(Clone, Copy, Debug, PartialEq, Eq)]
pub enum ReadFault {
    /// The text's first fault with the number of its line, 0 where it stands at none.
    Refused { line: u64, kind: Kind },
    /// Memory is wanting.
    Memory,
}

/// The fault of a line that isn't taken.
fn fault_at(line: u64, stop: Stop) -> ReadFault
    ensures { result ≡ fault_at line stop }
{
    match stop {
        Stop::Fault(kind) => ReadFault::Refused { line, kind },
        Stop::Memory => ReadFault::Memory,
    }
}

/// Takes the lines of a text up to ENDATA into empty tables, or finds its first fault.
pub fn read_sections<'a, B: BuildHasher + Drop>(
    alloc: Global,
    empty: Tables<'a, B>,
    text: &'a [u8],
) -> Result<Tables<'a, B>, ReadFault>
    requires size { length text.now ≤ text_limit }
    requires empty { HoldsSections empty none_yet }
    requires count { CountsRows empty }
    ensures read { IfOk result (λ st. HasSectionsOf text.now st) }
    ensures refused { IfErr result (λ fault. IsFaultOf fault (sections_in text.now)) }
{
    let mut tables = empty;
    let mut lines = Lines::of(text);
    loop {
        match lines.next(alloc) {
            Ok(Some(line)) => match step(&mut tables, &line) {
                Ok(true) => return Ok(tables),
                Ok(false) => {}
                Err(stop) => return Err(fault_at(line.number, stop)),
            },
            Ok(None) => {
                return Err(ReadFault::Refused {
                    line: line_count(text),
                    kind: Kind::NoEnd,
                });
            }
            Err(_) => return Err(ReadFault::Memory),
        }
    }
}
