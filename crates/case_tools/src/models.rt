// Problems, as the reader of models makes them.

ghost use Rattle.std.specs.Prelude.{IfOk, None};
ghost use Rattle.mps_reader.specs.Reading.{Reads};

use anyhow::{Result, bail};
use mps_reader::read_mps;
use problem::Problem;
use std::alloc::Global;
use std::hash::{BuildHasherDefault, DefaultHasher};

/// The problem of a text in free MPS, each column of which has its own bounds. A text that is refused is an error.
pub fn problem_of(alloc: Global, text: &[u8]) -> Result<Problem>
    ensures { IfOk result (λ p. Reads text.now None p) }
{
    let keys: BuildHasherDefault<DefaultHasher> = BuildHasherDefault::new();
    match read_mps(alloc, keys, text, None) {
        Ok(problem) => Ok(problem),
        Err(fault) => bail!("a model that is refused: {fault:?}"),
    }
}
