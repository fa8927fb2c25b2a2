// Opens the journal of a command.
ghost use Rattle.std.specs.Prelude.{◌≡◌, ◌⊎◌, ◌≤◌, [], pos, true, None, IfErr, IfOk, option_map};
ghost use Rattle.outside.specs.Images.{AtRest};
ghost use Rattle.mps_reader.specs.Reading.{Reads};
ghost use Rattle.mps_reader.specs.Refusals.{IsModestUpper};
ghost use Rattle.node_journal.specs.Records.{records};
ghost use Rattle.node_journal.specs.Whole.{payloads_in};
ghost use Rattle.node_pool.specs.Payloads.{model_in};
ghost use Rattle.resume.specs.Journals.{IsFreshOrOf, IsReadFrom, StandsForSome};
ghost use Rattle.resume.specs.Refusals.{Refuses, RefusesPayloads, RefusesPayloadsFor};
ghost use Rattle.solve_top.specs.Changes.{IsUntouched, disk_change};
ghost use Rattle.solve_top.specs.Journals.{IsKeptUnopened, IsOpened, IsUnopened};
ghost use Rattle.solve_top.specs.Models.{StandsWith, record_of};
ghost use Rattle.node_tree.specs.Limits.{most_nodes};

use crate::model::Model;
use crate::outcome::Refusal;
use node_pool::Pool;
use outside::Disk;
use resume::{open_any, open_pool};
use std::alloc::Global;
use std::hash::BuildHasher;

// The upper bound as the record of a model has it.
fn recorded(upper: Option<u32>) -> Option<i64>
    ensures { result ≡ option_map pos upper }
{
    match upper {
        Some(upper) => Some(i64::from(upper)),
        None => None,
    }
}

/// The pool of the search of a model, which goes on from the journal where the disk has one (docs/DECISIONS.md, entry 47). `upper` is the upper bound
/// of columns that have none.
pub fn open_of<B: BuildHasher + Drop, D: Disk>(
    alloc: Global,
    keys: B,
    disk: D,
    model: Model,
    upper: Option<u32>,
    nodes: u32,
) -> Result<Pool<D>, (Refusal, D)>
    requires few { nodes ≤ most_nodes }
    requires modest { IsModestUpper upper }
    requires reads { Reads model.text.items upper model.problem }
    ensures read { IfOk result (λ p. IsReadFrom p.state) }
    ensures reads_as { IfOk result (λ p. Reads model.text.items upper p.state.state.problem) }
    ensures unheld { IfOk result (λ p. p.state.state.holds ≡ []) }
    ensures budget { IfOk result (λ p. p.budget ≡ nodes) }
    ensures halt { IfOk result (λ p. p.halt ≡ None) }
    ensures cause { IfOk result (λ p. D.count p.journal.disk ≡ D.count disk) }
    ensures opened { D.tells ≡ true → IfOk result (λ p. IsOpened (record_of model.text.items upper) p.state.state.problem p.state.history p.journal.opened (disk_change D.tells D.past D.now D.count disk p.journal.disk)) }
    ensures unopened { IfErr result (λ e. IsUnopened (λ f. Refuses (RefusesPayloadsFor (record_of model.text.items upper)) f (records (D.now disk).seen)) (disk_change D.tells D.past D.now D.count disk e.1) e.0) }
    ensures kept { D.tells ≡ true → AtRest (D.now disk) → IfErr result (λ e. IsKeptUnopened (record_of model.text.items upper) (disk_change D.tells D.past D.now D.count disk e.1)) }
    ensures spared { D.tells ≡ true → IfErr result (λ e. IsUntouched (disk_change D.tells D.past D.now D.count disk e.1) ⊎ IsFreshOrOf (record_of model.text.items upper) model.problem (D.now disk).seen) }
{
    let Model { text, problem } = model;
    match open_pool(alloc, keys, disk, text, problem, recorded(upper), nodes) {
        Ok(pool) => {
            pool.history_holds();
            Ok(pool)
        }
        Err((fault, disk)) => Err((Refusal::from(fault), disk)),
    }
}

/// The pool of the search that the journal on the disk has, of whatever model.
pub fn open_kept<B: BuildHasher + Drop, D: Disk>(
    alloc: Global,
    keys: B,
    disk: D,
    nodes: u32,
) -> Result<Pool<D>, (Refusal, D)>
    requires few { nodes ≤ most_nodes }
    ensures read { IfOk result (λ p. IsReadFrom p.state) }
    ensures unheld { IfOk result (λ p. p.state.state.holds ≡ []) }
    ensures budget { IfOk result (λ p. p.budget ≡ nodes) }
    ensures halt { IfOk result (λ p. p.halt ≡ None) }
    ensures cause { IfOk result (λ p. D.count p.journal.disk ≡ D.count disk) }
    ensures opened { D.tells ≡ true → IfOk result (λ p. IsOpened (model_in (payloads_in (D.now disk))) p.state.state.problem p.state.history p.journal.opened (disk_change D.tells D.past D.now D.count disk p.journal.disk)) }
    ensures unopened { IfErr result (λ e. IsUnopened (λ f. Refuses RefusesPayloads f (records (D.now disk).seen)) (disk_change D.tells D.past D.now D.count disk e.1) e.0) }
    ensures kept { D.tells ≡ true → AtRest (D.now disk) → IfErr result (λ e. IsKeptUnopened (model_in (payloads_in (D.now disk))) (disk_change D.tells D.past D.now D.count disk e.1)) }
    ensures stood { D.tells ≡ true → IfOk result (λ p. StandsWith p.state.state.problem p.state.history (D.now disk).seen) }
    ensures spared { D.tells ≡ true → IfErr result (λ e. IsUntouched (disk_change D.tells D.past D.now D.count disk e.1) ⊎ StandsForSome (D.now disk).seen) }
{
    match open_any(alloc, keys, disk, nodes) {
        Ok(pool) => {
            pool.history_holds();
            Ok(pool)
        }
        Err((fault, disk)) => Err((Refusal::from(fault), disk)),
    }
}
