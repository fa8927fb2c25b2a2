// What the payloads of a journal stand for.
ghost use Rattle.std.specs.Prelude.{◌≡◌, ◌<◌, ◌≢◌, [], IfOk, IfErr, length};
ghost use Rattle.node_journal.specs.Views.{payloads_of};
ghost use Rattle.resume.specs.Models.{IsModelOf};
ghost use Rattle.node_pool.specs.Payloads.{model_in, is_upgraded};
ghost use Rattle.resume.specs.Journals.{IsReplayed};
ghost use Rattle.resume.specs.Refusals.{RefusesFirst, RefusesPayloads, RefusesPayloadsFor};

use crate::ResumeFault;
use crate::difference::first_difference;
use crate::model_record::read_model;
use crate::replay::replay;
use event_core::State;
use node_journal::Scanned;
use problem::Problem;
use std::alloc::Global;
use std::hash::BuildHasher;

/// The place of the first gate, behind the mark.
const FIRST_GATE: u64 = 8;

/// The state to which a journal leads, of whatever model it is, and whether it has the record of the upgrade.
pub fn read_search<B: BuildHasher + Drop>(
    alloc: Global,
    keys: B,
    scanned: &Scanned,
) -> Result<(State, bool), ResumeFault>
    ensures read { IfOk result (λ r. IsReplayed (payloads_of scanned.now) r.0) }
    ensures upgraded { IfOk result (λ r. r.1 ≡ is_upgraded (payloads_of scanned.now)) }
    ensures refused { IfErr result (λ e. RefusesPayloads e (payloads_of scanned.now)) }
{
    if scanned.count() == 0 {
        return Err(ResumeFault::NoModel);
    }
    match read_model(alloc, keys, scanned.payload(0)) {
        Ok(problem) => replay(alloc, scanned, problem),
        Err(fault) => Err(fault.behind(FIRST_GATE)),
    }
}

/// Why a journal is refused whose first payload isn't this record of a model.
fn other_model<B: BuildHasher + Drop>(
    alloc: Global,
    keys: B,
    first: &[u8],
    model: &[u8],
) -> ResumeFault
    requires { first.now ≢ model.now }
    ensures { RefusesFirst model.now result first.now }
{
    let _other = match read_model(alloc, keys, first) {
        Ok(problem) => problem,
        Err(fault) => return fault.behind(FIRST_GATE),
    };
    ResumeFault::OtherModel {
        at: first_difference(first, model) as u64,
    }
}

/// The state to which a journal leads that begins with this record of a model of this problem, and whether it has the record of the upgrade.
pub fn read_search_of<B: BuildHasher + Drop>(
    alloc: Global,
    keys: B,
    scanned: &Scanned,
    model: &[u8],
    problem: Problem,
) -> Result<(State, bool), ResumeFault>
    requires some { 0 < length (payloads_of scanned.now) }
    requires model { IsModelOf model.now problem }
    ensures problem { IfOk result (λ r. r.0.state.problem ≡ problem) }
    ensures model { IfOk result (λ r. model_in (payloads_of scanned.now) ≡ model.now) }
    ensures read { IfOk result (λ r. IsReplayed (payloads_of scanned.now) r.0) }
    ensures upgraded { IfOk result (λ r. r.1 ≡ is_upgraded (payloads_of scanned.now)) }
    ensures refused { IfErr result (λ e. RefusesPayloadsFor model.now e (payloads_of scanned.now)) }
{
    let first = scanned.payload(0);
    if first != model {
        return Err(other_model(alloc, keys, first, model));
    }
    replay(alloc, scanned, problem)
}
