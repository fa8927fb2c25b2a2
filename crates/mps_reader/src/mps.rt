//! Reads a text of the whole profile.

ghost use Rattle.std.specs.Prelude.{◌≡◌, IfOk, IfErr};
ghost use Rattle.mps_reader.specs.Refusals.{IsModestUpper, IsRefusedWith};
ghost use Rattle.mps_reader.specs.Reading.{Reads};

use crate::empty::empty_tables;
use crate::kinds::Kind;
use crate::problems::problem_of;
use crate::reading::{ReadFault, read_sections};
use problem::Problem;
use std::alloc::Global;
use std::hash::BuildHasher;

/// The bytes that a text may have.
pub const TEXT_LIMIT: usize = 33_554_432;

/// The problem that a text reads as, or why it gives none.
///
/// `upper` is the upper bound of columns that have none, and its negative the lower bound of those that have none; it is at most `LARGEST_BOUND`.
/// `Refused` has the text's first fault with its line; `Memory` where memory is wanting. The keys of the names' hash change no answer.
pub fn read_mps<B: BuildHasher + Drop>(
    alloc: Global,
    keys: B,
    text: &[u8],
    upper: Option<u32>,
) -> Result<Problem, ReadFault>
    requires { IsModestUpper upper }
    ensures read { IfOk result (λ p. Reads text.now upper p) }
    ensures refused { IfErr result (λ fault. IsRefusedWith text.now upper fault) }
{
    if text.len() > TEXT_LIMIT {
        return Err(ReadFault::Refused {
            line: 0,
            kind: Kind::TooMany,
        });
    }
    let tables = match read_sections(alloc, empty_tables(alloc, &keys), text) {
        Ok(tables) => tables,
        Err(fault) => return Err(fault),
    };
    problem_of(alloc, tables, upper)
}
