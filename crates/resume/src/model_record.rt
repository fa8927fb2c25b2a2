// The model of a journal's first payload.
ghost use Rattle.std.specs.Prelude.{◌≡◌, IfOk, IsErrOf};
ghost use Rattle.std.specs.Option.{ForSome};
ghost use Rattle.event_codec.specs.Models.{IsUpper};
ghost use Rattle.mps_reader.specs.Refusals.{IsModestUpper};
ghost use Rattle.resume.specs.Models.{bound_of, IsModelOf, IsNoModel};

use crate::fault::PayloadFault;
use event_codec::decode_model;
use mps_reader::{ReadFault, read_mps};
use problem::Problem;
use std::alloc::Global;
use std::hash::BuildHasher;

/// The upper bound as the reader of models takes it.
fn bound_of(upper: Option<i64>) -> Option<u32>
    requires { ForSome upper IsUpper }
    ensures value { result ≡ bound_of upper }
    ensures modest { IsModestUpper result }
{
    match upper {
        Some(upper) => Some(upper.unsigned_abs() as u32),
        None => None,
    }
}

/// The problem of a model's record. `Damaged`: the payload is the record of no model.
pub fn read_model<B: BuildHasher + Drop>(
    alloc: Global,
    keys: B,
    payload: &[u8],
) -> Result<Problem, PayloadFault>
    ensures read { IfOk result (λ p. IsModelOf payload.now p) }
    ensures damaged { IsErrOf result PayloadFault.Damaged → IsNoModel payload.now }
{
    let Ok(model) = decode_model(payload) else {
        return Err(PayloadFault::Damaged);
    };
    match read_mps(alloc, keys, model.text, bound_of(model.upper)) {
        Ok(problem) => Ok(problem),
        Err(ReadFault::Refused { .. }) => Err(PayloadFault::Damaged),
        Err(ReadFault::Memory) => Err(PayloadFault::Memory),
    }
}
