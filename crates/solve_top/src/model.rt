// Reads the model of a command.
ghost use Rattle.std.specs.Prelude.{◌≡◌};
ghost use Rattle.mps_reader.specs.Refusals.{IsModestUpper};
ghost use Rattle.solve_top.specs.Changes.{source_change};
ghost use Rattle.solve_top.specs.Statuses.{kind_name};
ghost use Rattle.solve_top.specs.Outcomes.{IsReading, IsReadingOf};

use crate::outcome::Refusal;
use mps_reader::{Kind, TEXT_LIMIT, read_mps};
use outside::{ReadFault, Source, read_all};
use problem::Problem;
use std::alloc::Global;
use std::hash::BuildHasher;

/// A model: its text, and the problem that this reads as.
#[derive(Drop)]
pub struct Model {
    /// The text.
    pub text: Vec<u8>,
    /// The problem.
    pub problem: Problem,
}

/// The problem of a text, in which `upper` is the upper bound of columns that have none.
pub fn problem_of<B: BuildHasher + Drop>(
    alloc: Global,
    keys: B,
    text: &[u8],
    upper: Option<u32>,
) -> Result<Problem, Refusal>
    requires { IsModestUpper upper }
    ensures { IsReadingOf text.now upper result }
{
    match read_mps(alloc, keys, text, upper) {
        Ok(problem) => Ok(problem),
        Err(mps_reader::ReadFault::Refused { line, kind }) => Err(Refusal::Model { line, kind }),
        Err(mps_reader::ReadFault::Memory) => Err(Refusal::Memory),
    }
}

/// Reads a model to its end. `upper` is the upper bound of columns that have none.
pub fn read_model<B: BuildHasher + Drop, S: Source>(
    alloc: Global,
    keys: B,
    model: &mut S,
    upper: Option<u32>,
) -> Result<Model, Refusal>
    requires { IsModestUpper upper }
    ensures { IsReading (source_change S.tells S.left S.faults model.old model.new) upper result }
{
    let text = match read_all(alloc, model, TEXT_LIMIT) {
        Ok(text) => text,
        Err(ReadFault::Failed) => return Err(Refusal::Read),
        Err(ReadFault::Memory) => return Err(Refusal::Memory),
    };
    if text.len() > TEXT_LIMIT {
        return Err(Refusal::Model {
            line: 0,
            kind: Kind::TooMany,
        });
    }
    match problem_of(alloc, keys, &text, upper) {
        Ok(problem) => Ok(Model { text, problem }),
        Err(refusal) => Err(refusal),
    }
}
/// The name of a kind of fault.
pub fn kind_name(kind: Kind) -> &'static [u8]
    ensures { result.now ≡ kind_name kind }
{
    match kind {
        Kind::BadSection => b"BadSection",
        Kind::BadFields => b"BadFields",
        Kind::ManySets => b"ManySets",
        Kind::UnknownRow => b"UnknownRow",
        Kind::UnknownColumn => b"UnknownColumn",
        Kind::Duplicate => b"Duplicate",
        Kind::TooMany => b"TooMany",
        Kind::BadNumber => b"BadNumber",
        Kind::Infinite => b"Infinite",
        Kind::TooLarge => b"TooLarge",
        Kind::TooFine => b"TooFine",
        Kind::NoEnd => b"NoEnd",
        Kind::NoObjective => b"NoObjective",
        Kind::Continuous => b"Continuous",
        Kind::NegativeUpper => b"NegativeUpper",
        Kind::NoBound => b"NoBound",
    }
}
