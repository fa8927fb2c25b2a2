// A journal is opened: it is read and checked, then recovered, and then a pool.
ghost use Rattle.std.specs.Prelude.{◌≡◌, ◌⊎◌, ◌+◌, ◌≤◌, ◌<◌, ◌^◌, ℕ, List, [], ◌∷◌, ◌++◌, true, false, length, IfOk, IfErr, None};
ghost use Rattle.std.specs.Option.{ForSome};
ghost use Rattle.outside.specs.Faults.{Counts};
ghost use Rattle.outside.specs.Images.{AtRest, LeavesOnly, NoMomentPasses};
ghost use Rattle.event_codec.specs.Models.{model_code, IsUpper};
ghost use Rattle.event_core.specs.States.{first_state};
ghost use Rattle.node_journal.specs.Appends.{IsWithOrWithout};
ghost use Rattle.node_journal.specs.History.{ExtendsMoments, Keeps, KeepsHistory};
ghost use Rattle.node_journal.specs.Records.{records, Intact};
ghost use Rattle.node_journal.specs.Views.{payloads_of, IsScanOf};
ghost use Rattle.node_journal.specs.Whole.{payloads_in};
ghost use Rattle.node_pool.specs.Payloads.{model_in, is_upgraded, with_upgrade, IsJournalOf};
ghost use Rattle.resume.specs.Models.{IsTextOf};
ghost use Rattle.resume.specs.Journals.{StandsFor, StandsForSome, WasOpened, IsFreshOrOf, IsReadFrom, IsReadWith, IsReplayed};
ghost use Rattle.resume.specs.Refusals.{Refuses, RefusesPayloads, RefusesPayloadsFor, is_disk, is_refusal};
ghost use Rattle.resume.specs.Crashes.{IsAsBefore, IsAsBeforeOrBegun, IsUpgradedOrNot, LeavesHistory};
ghost use Rattle.node_tree.specs.Limits.{most_nodes};

use crate::ResumeFault;
use crate::reading::{read_search, read_search_of};
use event_codec::{encode_model, upgrade_record};
use event_core::State;
use node_journal::{AppendFault, Journal, Scanned, scan};
use node_pool::Pool;
use outside::Disk;
use problem::Problem;
use std::alloc::{AllocError, Global};
use std::hash::BuildHasher;

/// The pool of a state and its journal. The one error is want of memory.
fn make_pool<D: Disk>(
    alloc: Global,
    state: State,
    journal: Journal<D>,
    budget: u32,
) -> Result<Pool<D>, (ResumeFault, D)>
    requires few { budget ≤ most_nodes }
    requires unheld { state.state.holds ≡ [] }
    requires sound { journal.fault ≡ None }
    requires stands { D.tells ≡ true → IsJournalOf (payloads_in (D.now journal.disk)) state.history }
    requires upgraded { D.tells ≡ true → is_upgraded (payloads_in (D.now journal.disk)) ≡ true }
    ensures state { IfOk result (λ p. p.state ≡ state) }
    ensures journal { IfOk result (λ p. p.journal ≡ journal) }
    ensures budget { IfOk result (λ p. p.budget ≡ budget) }
    ensures halt { IfOk result (λ p. p.halt ≡ None) }
    ensures kept { D.tells ≡ true → IfOk result (λ p. Keeps (payloads_in (D.now p.journal.disk)) (D.now p.journal.disk)) }
    ensures rests { D.tells ≡ true → AtRest (D.now journal.disk) }
    ensures memory { IfErr result (λ e. e.0 ≡ ResumeFault.Memory) }
    ensures back { IfErr result (λ e. e.1 ≡ journal.disk) }
{
    journal.history_holds();
    match Pool::make(alloc, state, journal, budget) {
        Ok(pool) => Ok(pool),
        Err((_, journal)) => Err((ResumeFault::Memory, journal.into_disk())),
    }
}

/// Adds a payload to a journal. Where it can't be added, the disk comes back.
fn with_payload<D: Disk>(
    journal: Journal<D>,
    payload: &[u8],
) -> Result<Journal<D>, (ResumeFault, D)>
    requires sound { journal.fault ≡ None }
    requires small { length payload.now < 2 ^ 32 }
    ensures begun { D.tells ≡ true → journal.opened ≤ length (D.past journal.disk) }
    ensures held { D.tells ≡ true → Keeps (payloads_in (D.now journal.disk)) (D.now journal.disk) }
    ensures journal { D.tells ≡ true → IfOk result (λ j. payloads_in (D.now j.disk) ≡ payloads_in (D.now journal.disk) ++ payload.now ∷ []) }
    ensures sound { IfOk result (λ j. j.fault ≡ None) }
    ensures opened { IfOk result (λ j. j.opened ≡ journal.opened) }
    ensures rests_err { D.tells ≡ true → IfErr result (λ e. is_disk e.0 ≡ false → AtRest (D.now e.1)) }
    ensures any_moment { D.tells ≡ true → IfOk result (λ j. LeavesOnly (D.past journal.disk) (D.now journal.disk) (D.past j.disk) (D.now j.disk) (IsWithOrWithout (payloads_in (D.now journal.disk)) payload.now)) }
    ensures any_moment_err { D.tells ≡ true → IfErr result (λ e. LeavesOnly (D.past journal.disk) (D.now journal.disk) (D.past e.1) (D.now e.1) (IsWithOrWithout (payloads_in (D.now journal.disk)) payload.now)) }
    ensures kept { D.tells ≡ true → IfOk result (λ j. KeepsHistory journal.opened (D.past j.disk) (D.now j.disk) (payloads_in (D.now j.disk)) None) }
    ensures kept_err { D.tells ≡ true → IfErr result (λ e. LeavesHistory journal.opened (D.past e.1) (D.now e.1) (is_disk e.0)) }
    ensures continued { D.tells ≡ true → IfOk result (λ j. ExtendsMoments (D.past journal.disk ++ D.now journal.disk ∷ []) (D.past j.disk ++ D.now j.disk ∷ [])) }
    ensures continued_err { D.tells ≡ true → IfErr result (λ e. ExtendsMoments (D.past journal.disk ++ D.now journal.disk ∷ []) (D.past e.1 ++ D.now e.1 ∷ [])) }
    ensures cause { IfOk result (λ j. D.count j.disk ≡ D.count journal.disk) }
    ensures cause_err { IfErr result (λ e. Counts (D.count journal.disk) (D.count e.1) (is_disk e.0)) }
    ensures taken { IfErr result (λ e. is_refusal e.0 ≡ false) }
{
    let mut journal = journal;
    journal.history_holds();
    let appended = journal.append(payload);
    journal.history_holds();
    match appended {
        Ok(_) => Ok(journal),
        Err(AppendFault::Disk) => Err((ResumeFault::Disk, journal.into_disk())),
        Err(AppendFault::Memory) => Err((ResumeFault::Memory, journal.into_disk())),
    }
}

/// A journal with the record of the upgrade, which is added where it isn't there (docs/DECISIONS.md, entry 86).
fn upgrade<D: Disk>(journal: Journal<D>, upgraded: bool) -> Result<Journal<D>, (ResumeFault, D)>
    requires sound { journal.fault ≡ None }
    requires known { D.tells ≡ true → upgraded ≡ is_upgraded (payloads_in (D.now journal.disk)) }
    ensures begun { D.tells ≡ true → journal.opened ≤ length (D.past journal.disk) }
    ensures held { D.tells ≡ true → Keeps (payloads_in (D.now journal.disk)) (D.now journal.disk) }
    ensures journal { D.tells ≡ true → IfOk result (λ j. payloads_in (D.now j.disk) ≡ with_upgrade (payloads_in (D.now journal.disk))) }
    ensures sound { IfOk result (λ j. j.fault ≡ None) }
    ensures opened { IfOk result (λ j. j.opened ≡ journal.opened) }
    ensures rests_err { D.tells ≡ true → IfErr result (λ e. is_disk e.0 ≡ false → AtRest (D.now e.1)) }
    ensures any_moment { D.tells ≡ true → IfOk result (λ j. LeavesOnly (D.past journal.disk) (D.now journal.disk) (D.past j.disk) (D.now j.disk) (IsUpgradedOrNot (payloads_in (D.now journal.disk)))) }
    ensures any_moment_err { D.tells ≡ true → IfErr result (λ e. LeavesOnly (D.past journal.disk) (D.now journal.disk) (D.past e.1) (D.now e.1) (IsUpgradedOrNot (payloads_in (D.now journal.disk)))) }
    ensures kept { D.tells ≡ true → IfOk result (λ j. KeepsHistory journal.opened (D.past j.disk) (D.now j.disk) (payloads_in (D.now j.disk)) None) }
    ensures kept_err { D.tells ≡ true → IfErr result (λ e. LeavesHistory journal.opened (D.past e.1) (D.now e.1) (is_disk e.0)) }
    ensures continued { D.tells ≡ true → IfOk result (λ j. ExtendsMoments (D.past journal.disk ++ D.now journal.disk ∷ []) (D.past j.disk ++ D.now j.disk ∷ [])) }
    ensures continued_err { D.tells ≡ true → IfErr result (λ e. ExtendsMoments (D.past journal.disk ++ D.now journal.disk ∷ []) (D.past e.1 ++ D.now e.1 ∷ [])) }
    ensures cause { IfOk result (λ j. D.count j.disk ≡ D.count journal.disk) }
    ensures cause_err { IfErr result (λ e. Counts (D.count journal.disk) (D.count e.1) (is_disk e.0)) }
    ensures taken { IfErr result (λ e. is_refusal e.0 ≡ false) }
{
    journal.history_holds();
    if upgraded {
        return Ok(journal);
    }
    with_payload(journal, &upgrade_record())
}

/// The pool of a state and its journal, to which the record of the upgrade is added where it isn't there.
fn upgraded_pool<D: Disk>(
    alloc: Global,
    state: State,
    journal: Journal<D>,
    upgraded: bool,
    budget: u32,
) -> Result<Pool<D>, (ResumeFault, D)>
    requires few { budget ≤ most_nodes }
    requires unheld { state.state.holds ≡ [] }
    requires sound { journal.fault ≡ None }
    requires stands { D.tells ≡ true → IsJournalOf (payloads_in (D.now journal.disk)) state.history }
    requires known { D.tells ≡ true → upgraded ≡ is_upgraded (payloads_in (D.now journal.disk)) }
    ensures begun { D.tells ≡ true → journal.opened ≤ length (D.past journal.disk) }
    ensures held { D.tells ≡ true → Keeps (payloads_in (D.now journal.disk)) (D.now journal.disk) }
    ensures state { IfOk result (λ p. p.state ≡ state) }
    ensures journal { D.tells ≡ true → IfOk result (λ p. payloads_in (D.now p.journal.disk) ≡ with_upgrade (payloads_in (D.now journal.disk))) }
    ensures budget { IfOk result (λ p. p.budget ≡ budget) }
    ensures halt { IfOk result (λ p. p.halt ≡ None) }
    ensures still_held { D.tells ≡ true → IfOk result (λ p. Keeps (payloads_in (D.now p.journal.disk)) (D.now p.journal.disk)) }
    ensures opened { IfOk result (λ p. p.journal.opened ≡ journal.opened) }
    ensures any_moment { D.tells ≡ true → IfOk result (λ p. LeavesOnly (D.past journal.disk) (D.now journal.disk) (D.past p.journal.disk) (D.now p.journal.disk) (IsUpgradedOrNot (payloads_in (D.now journal.disk)))) }
    ensures any_moment_err { D.tells ≡ true → IfErr result (λ e. LeavesOnly (D.past journal.disk) (D.now journal.disk) (D.past e.1) (D.now e.1) (IsUpgradedOrNot (payloads_in (D.now journal.disk)))) }
    ensures kept { D.tells ≡ true → IfOk result (λ p. KeepsHistory journal.opened (D.past p.journal.disk) (D.now p.journal.disk) (payloads_in (D.now p.journal.disk)) None) }
    ensures kept_err { D.tells ≡ true → IfErr result (λ e. LeavesHistory journal.opened (D.past e.1) (D.now e.1) (is_disk e.0)) }
    ensures continued { D.tells ≡ true → IfOk result (λ p. ExtendsMoments (D.past journal.disk ++ D.now journal.disk ∷ []) (D.past p.journal.disk ++ D.now p.journal.disk ∷ [])) }
    ensures continued_err { D.tells ≡ true → IfErr result (λ e. ExtendsMoments (D.past journal.disk ++ D.now journal.disk ∷ []) (D.past e.1 ++ D.now e.1 ∷ [])) }
    ensures rests_err { D.tells ≡ true → IfErr result (λ e. is_disk e.0 ≡ false → AtRest (D.now e.1)) }
    ensures cause { IfOk result (λ p. D.count p.journal.disk ≡ D.count journal.disk) }
    ensures cause_err { IfErr result (λ e. Counts (D.count journal.disk) (D.count e.1) (is_disk e.0)) }
    ensures taken { IfErr result (λ e. is_refusal e.0 ≡ false) }
{
    match upgrade(journal, upgraded) {
        Ok(journal) => make_pool(alloc, state, journal, budget),
        Err(refused) => Err(refused),
    }
}

/// Goes on with a journal that was read, to which the record of the upgrade is added where it isn't there.
fn continue_journal<D: Disk>(
    alloc: Global,
    disk: D,
    scanned: Scanned,
    state: State,
    upgraded: bool,
    budget: u32,
) -> Result<Pool<D>, (ResumeFault, D)>
    requires few { budget ≤ most_nodes }
    requires scanned { D.tells ≡ true → IsScanOf (D.now disk).seen scanned }
    requires read { IsReplayed (payloads_of scanned) state }
    requires known { upgraded ≡ is_upgraded (payloads_of scanned) }
    ensures state { IfOk result (λ p. p.state ≡ state) }
    ensures journal { D.tells ≡ true → IfOk result (λ p. payloads_in (D.now p.journal.disk) ≡ with_upgrade (payloads_of scanned)) }
    ensures budget { IfOk result (λ p. p.budget ≡ budget) }
    ensures halt { IfOk result (λ p. p.halt ≡ None) }
    ensures kept { D.tells ≡ true → IfOk result (λ p. Keeps (payloads_in (D.now p.journal.disk)) (D.now p.journal.disk)) }
    ensures opened { D.tells ≡ true → IfOk result (λ p. p.journal.opened ≡ length (D.past disk) + 1) }
    ensures any_moment { D.tells ≡ true → AtRest (D.now disk) → IfOk result (λ p. LeavesOnly (D.past disk) (D.now disk) (D.past p.journal.disk) (D.now p.journal.disk) (IsAsBefore (records (D.now disk).seen))) }
    ensures any_moment_err { D.tells ≡ true → AtRest (D.now disk) → IfErr result (λ e. LeavesOnly (D.past disk) (D.now disk) (D.past e.1) (D.now e.1) (IsAsBefore (records (D.now disk).seen))) }
    ensures history { D.tells ≡ true → AtRest (D.now disk) → IfOk result (λ p. KeepsHistory (length (D.past disk)) (D.past p.journal.disk) (D.now p.journal.disk) (payloads_in (D.now p.journal.disk)) None) }
    ensures history_err { D.tells ≡ true → AtRest (D.now disk) → (ps : List (List ℕ)) → records (D.now disk).seen ≡ Intact ps → IfErr result (λ e. LeavesHistory (length (D.past disk)) (D.past e.1) (D.now e.1) (is_disk e.0)) }
    ensures rests_err { D.tells ≡ true → AtRest (D.now disk) → IfErr result (λ e. is_disk e.0 ≡ false → AtRest (D.now e.1)) }
    ensures cause { IfOk result (λ p. D.count p.journal.disk ≡ D.count disk) }
    ensures cause_err { IfErr result (λ e. Counts (D.count disk) (D.count e.1) (is_disk e.0)) }
    ensures taken { IfErr result (λ e. is_refusal e.0 ≡ false) }
{
    match Journal::recover(disk, scanned) {
        Ok(journal) => upgraded_pool(alloc, state, journal, upgraded, budget),
        Err(disk) => Err((ResumeFault::Disk, disk)),
    }
}

/// Makes an empty disk the journal of the record of a model.
fn begin_journal<D: Disk>(
    disk: D,
    scanned: Scanned,
    model: &[u8],
) -> Result<Journal<D>, (ResumeFault, D)>
    requires scanned { D.tells ≡ true → IsScanOf (D.now disk).seen scanned }
    requires none { payloads_of scanned ≡ [] }
    requires small { length model.now < 2 ^ 32 }
    ensures journal { D.tells ≡ true → IfOk result (λ j. payloads_in (D.now j.disk) ≡ model.now ∷ []) }
    ensures sound { IfOk result (λ j. j.fault ≡ None) }
    ensures before { D.tells ≡ true → records (D.now disk).seen ≡ Intact [] }
    ensures opened { D.tells ≡ true → IfOk result (λ j. j.opened ≡ length (D.past disk) + 1) }
    ensures any_moment { D.tells ≡ true → AtRest (D.now disk) → IfOk result (λ j. LeavesOnly (D.past disk) (D.now disk) (D.past j.disk) (D.now j.disk) (IsAsBeforeOrBegun (records (D.now disk).seen) model.now)) }
    ensures any_moment_err { D.tells ≡ true → AtRest (D.now disk) → IfErr result (λ e. LeavesOnly (D.past disk) (D.now disk) (D.past e.1) (D.now e.1) (IsAsBeforeOrBegun (records (D.now disk).seen) model.now)) }
    ensures history { D.tells ≡ true → AtRest (D.now disk) → IfOk result (λ j. KeepsHistory (length (D.past disk)) (D.past j.disk) (D.now j.disk) (payloads_in (D.now j.disk)) None) }
    ensures history_err { D.tells ≡ true → AtRest (D.now disk) → (ps : List (List ℕ)) → records (D.now disk).seen ≡ Intact ps → IfErr result (λ e. LeavesHistory (length (D.past disk)) (D.past e.1) (D.now e.1) (is_disk e.0)) }
    ensures rests_err { D.tells ≡ true → AtRest (D.now disk) → IfErr result (λ e. is_disk e.0 ≡ false → AtRest (D.now e.1)) }
    ensures cause { IfOk result (λ j. D.count j.disk ≡ D.count disk) }
    ensures cause_err { IfErr result (λ e. Counts (D.count disk) (D.count e.1) (is_disk e.0)) }
    ensures taken { IfErr result (λ e. is_refusal e.0 ≡ false) }
{
    match Journal::recover(disk, scanned) {
        Ok(journal) => with_payload(journal, model),
        Err(disk) => Err((ResumeFault::Disk, disk)),
    }
}

/// Makes an empty disk the journal of the records of a model and of the upgrade, and a pool in its first state.
fn begin_search<D: Disk>(
    alloc: Global,
    disk: D,
    scanned: Scanned,
    model: &[u8],
    problem: Problem,
    budget: u32,
) -> Result<Pool<D>, (ResumeFault, D)>
    requires few { budget ≤ most_nodes }
    requires scanned { D.tells ≡ true → IsScanOf (D.now disk).seen scanned }
    requires none { payloads_of scanned ≡ [] }
    requires small { length model.now < 2 ^ 32 }
    ensures state { IfOk result (λ p. p.state.state ≡ first_state problem) }
    ensures fresh { IfOk result (λ p. p.state.history ≡ []) }
    ensures journal { D.tells ≡ true → IfOk result (λ p. payloads_in (D.now p.journal.disk) ≡ with_upgrade (model.now ∷ [])) }
    ensures budget { IfOk result (λ p. p.budget ≡ budget) }
    ensures halt { IfOk result (λ p. p.halt ≡ None) }
    ensures kept { D.tells ≡ true → IfOk result (λ p. Keeps (payloads_in (D.now p.journal.disk)) (D.now p.journal.disk)) }
    ensures opened { D.tells ≡ true → IfOk result (λ p. p.journal.opened ≡ length (D.past disk) + 1) }
    ensures any_moment { D.tells ≡ true → AtRest (D.now disk) → IfOk result (λ p. LeavesOnly (D.past disk) (D.now disk) (D.past p.journal.disk) (D.now p.journal.disk) (IsAsBeforeOrBegun (records (D.now disk).seen) model.now)) }
    ensures any_moment_err { D.tells ≡ true → AtRest (D.now disk) → IfErr result (λ e. LeavesOnly (D.past disk) (D.now disk) (D.past e.1) (D.now e.1) (IsAsBeforeOrBegun (records (D.now disk).seen) model.now)) }
    ensures history { D.tells ≡ true → AtRest (D.now disk) → IfOk result (λ p. KeepsHistory (length (D.past disk)) (D.past p.journal.disk) (D.now p.journal.disk) (payloads_in (D.now p.journal.disk)) None) }
    ensures history_err { D.tells ≡ true → AtRest (D.now disk) → (ps : List (List ℕ)) → records (D.now disk).seen ≡ Intact ps → IfErr result (λ e. LeavesHistory (length (D.past disk)) (D.past e.1) (D.now e.1) (is_disk e.0)) }
    ensures rests_err { D.tells ≡ true → AtRest (D.now disk) → IfErr result (λ e. is_disk e.0 ≡ false → AtRest (D.now e.1)) }
    ensures cause { IfOk result (λ p. D.count p.journal.disk ≡ D.count disk) }
    ensures cause_err { IfErr result (λ e. Counts (D.count disk) (D.count e.1) (is_disk e.0)) }
    ensures taken { IfErr result (λ e. is_refusal e.0 ≡ false) }
{
    let Ok(state) = State::new(alloc, problem) else {
        return Err((ResumeFault::Memory, disk));
    };
    match begin_journal(disk, scanned, model) {
        Ok(journal) => upgraded_pool(alloc, state, journal, false, budget),
        Err(refused) => Err(refused),
    }
}

/// The pool of the search that the journal on a disk stands for, of whatever model it is. The model is the one of the first payload.
///
/// The journal is read and checked whole before anything is written. Then it is recovered, and the record of the upgrade is added where it isn't
/// there. `NotAJournal`, `Damaged` and `NoModel` come exactly where the content calls
/// for them, and leave the disk as it is; `Disk` comes only where the disk failed and counted it. The disk comes back with each of them.
pub fn open_any<B: BuildHasher + Drop, D: Disk>(
    alloc: Global,
    keys: B,
    disk: D,
    budget: u32,
) -> Result<Pool<D>, (ResumeFault, D)>
    requires { budget ≤ most_nodes }
    // The journal held payloads of this search, and it still does, with the record of the upgrade as the last one where it wasn't there.
    ensures held { D.tells ≡ true → IfOk result (λ p. WasOpened (D.now disk).seen p.state.state.problem p.state.history (payloads_in (D.now p.journal.disk))) }
    ensures stands { D.tells ≡ true → IfOk result (λ p. StandsFor p.state.state.problem (payloads_in (D.now p.journal.disk)) p.state.history) }
    // Also on a disk that tells nothing: what was read stands for the problem and the events.
    ensures read { IfOk result (λ p. IsReadFrom p.state) }
    ensures unheld { IfOk result (λ p. p.state.state.holds ≡ []) }
    ensures budget { IfOk result (λ p. p.budget ≡ budget) }
    ensures halt { IfOk result (λ p. p.halt ≡ None) }
    ensures kept { D.tells ≡ true → IfOk result (λ p. Keeps (payloads_in (D.now p.journal.disk)) (D.now p.journal.disk)) }
    ensures opened { D.tells ≡ true → IfOk result (λ p. p.journal.opened ≡ length (D.past disk) + 1) }
    ensures refused { D.tells ≡ true → IfErr result (λ e. Refuses RefusesPayloads e.0 (records (D.now disk).seen)) }
    // A refusal leaves the disk as it is.
    ensures untouched { IfErr result (λ e. is_refusal e.0 ≡ true → NoMomentPasses (D.past disk) (D.now disk) (D.past e.1) (D.now e.1)) }
    // Nothing is written, unless the disk held a journal.
    ensures spared { D.tells ≡ true → IfErr result (λ e. NoMomentPasses (D.past disk) (D.now disk) (D.past e.1) (D.now e.1) ⊎ StandsForSome (D.now disk).seen) }
    // Where the disk was at rest, a crash at any moment of the call leaves the payloads that were there, perhaps with the record of the upgrade.
    ensures any_moment { D.tells ≡ true → AtRest (D.now disk) → IfOk result (λ p. LeavesOnly (D.past disk) (D.now disk) (D.past p.journal.disk) (D.now p.journal.disk) (IsAsBefore (records (D.now disk).seen))) }
    ensures any_moment_err { D.tells ≡ true → AtRest (D.now disk) → IfErr result (λ e. LeavesOnly (D.past disk) (D.now disk) (D.past e.1) (D.now e.1) (IsAsBefore (records (D.now disk).seen))) }
    // Where the disk was at rest with a journal, what all crashes at one moment leave, all crashes at each later moment leave, from the first moment on.
    // Unless the disk failed, each leaves a prefix of the payloads at the end.
    ensures history { D.tells ≡ true → AtRest (D.now disk) → IfOk result (λ p. KeepsHistory (length (D.past disk)) (D.past p.journal.disk) (D.now p.journal.disk) (payloads_in (D.now p.journal.disk)) None) }
    ensures history_err { D.tells ≡ true → AtRest (D.now disk) → (ps : List (List ℕ)) → records (D.now disk).seen ≡ Intact ps → IfErr result (λ e. LeavesHistory (length (D.past disk)) (D.past e.1) (D.now e.1) (is_disk e.0)) }
    // Unless the disk failed, it comes back at rest.
    ensures rests_err { D.tells ≡ true → AtRest (D.now disk) → IfErr result (λ e. is_disk e.0 ≡ false → AtRest (D.now e.1)) }
    ensures cause { IfOk result (λ p. D.count p.journal.disk ≡ D.count disk) }
    ensures cause_err { IfErr result (λ e. Counts (D.count disk) (D.count e.1) (is_disk e.0)) }
{
    let mut disk = disk;
    let scanned = match scan(alloc, &mut disk) {
        Ok(scanned) => scanned,
        Err(fault) => return Err((ResumeFault::from(fault), disk)),
    };
    match read_search(alloc, keys, &scanned) {
        Ok((state, upgraded)) => { continue_journal(alloc, disk, scanned, state, upgraded, budget) }
        Err(fault) => Err((fault, disk)),
    }
}

/// The record of a model's text and upper bound, from 0 to `LARGEST_BOUND`, for which the text is let go of. The one error is want of memory.
fn record_of(alloc: Global, text: Vec<u8>, upper: Option<i64>) -> Result<Vec<u8>, AllocError>
    requires { ForSome upper IsUpper }
    ensures { IfOk result (λ v. v.items ≡ model_code text.items upper) }
{
    encode_model(alloc, &text, upper)
}

/// The pool of the search of this model: the one that the journal on a disk stands for, or on an empty disk one in its first state, whose journal
/// has the records of the model and of the upgrade alone. The problem is the one that the text reads as with this upper bound, which is 0 to `LARGEST_BOUND`.
/// The text is let go of once its record is made, before the journal is read (docs/DECISIONS.md, entry 89).
///
/// The journal is read and checked whole before anything is written (docs/DECISIONS.md, entry 48). Then it is recovered, and the record of the
/// upgrade is added where it isn't there. `NotAJournal`, `Damaged` and `OtherModel` come exactly where the content calls for them, and leave the disk
/// as it is; `Disk` comes only where the disk failed and counted it. The disk comes back with each of them.
pub fn open_pool<B: BuildHasher + Drop, D: Disk>(
    alloc: Global,
    keys: B,
    disk: D,
    text: Vec<u8>,
    problem: Problem,
    upper: Option<i64>,
    budget: u32,
) -> Result<Pool<D>, (ResumeFault, D)>
    requires few { budget ≤ most_nodes }
    requires model { IsTextOf text.items upper problem }
    // The journal held payloads of this search, and it still does, with the record of the upgrade as the last one where it wasn't there; or it held none.
    ensures held { D.tells ≡ true → IfOk result (λ p. WasOpened (D.now disk).seen problem p.state.history (payloads_in (D.now p.journal.disk)) ⊎ ((records (D.now disk).seen ≡ Intact []) × (p.state.history ≡ []))) }
    ensures stands { D.tells ≡ true → IfOk result (λ p. StandsFor problem (payloads_in (D.now p.journal.disk)) p.state.history) }
    ensures model { D.tells ≡ true → IfOk result (λ p. model_in (payloads_in (D.now p.journal.disk)) ≡ model_code text.items upper) }
    ensures problem { IfOk result (λ p. p.state.state.problem ≡ problem) }
    // Also on a disk that tells nothing: what was read stands for the problem and the events.
    ensures read { IfOk result (λ p. IsReadFrom p.state) }
    ensures of_model { IfOk result (λ p. IsReadWith (model_code text.items upper) p.state) }
    ensures unheld { IfOk result (λ p. p.state.state.holds ≡ []) }
    ensures budget { IfOk result (λ p. p.budget ≡ budget) }
    ensures halt { IfOk result (λ p. p.halt ≡ None) }
    ensures kept { D.tells ≡ true → IfOk result (λ p. Keeps (payloads_in (D.now p.journal.disk)) (D.now p.journal.disk)) }
    ensures opened { D.tells ≡ true → IfOk result (λ p. p.journal.opened ≡ length (D.past disk) + 1) }
    ensures refused { D.tells ≡ true → IfErr result (λ e. Refuses (RefusesPayloadsFor (model_code text.items upper)) e.0 (records (D.now disk).seen)) }
    // A refusal leaves the disk as it is.
    ensures untouched { IfErr result (λ e. is_refusal e.0 ≡ true → NoMomentPasses (D.past disk) (D.now disk) (D.past e.1) (D.now e.1)) }
    // Nothing is written, unless the disk was empty, or held a journal of this model.
    ensures spared { D.tells ≡ true → IfErr result (λ e. NoMomentPasses (D.past disk) (D.now disk) (D.past e.1) (D.now e.1) ⊎ IsFreshOrOf (model_code text.items upper) problem (D.now disk).seen) }
    // Where the disk was at rest, a crash at any moment of the call leaves the payloads that were there, or on an empty disk the model's record, each
    // perhaps with the record of the upgrade.
    ensures any_moment { D.tells ≡ true → AtRest (D.now disk) → IfOk result (λ p. LeavesOnly (D.past disk) (D.now disk) (D.past p.journal.disk) (D.now p.journal.disk) (IsAsBeforeOrBegun (records (D.now disk).seen) (model_code text.items upper))) }
    ensures any_moment_err { D.tells ≡ true → AtRest (D.now disk) → IfErr result (λ e. LeavesOnly (D.past disk) (D.now disk) (D.past e.1) (D.now e.1) (IsAsBeforeOrBegun (records (D.now disk).seen) (model_code text.items upper))) }
    // Where the disk was at rest with a journal, what all crashes at one moment leave, all crashes at each later moment leave, from the first moment on.
    // Unless the disk failed, each leaves a prefix of the payloads at the end.
    ensures history { D.tells ≡ true → AtRest (D.now disk) → IfOk result (λ p. KeepsHistory (length (D.past disk)) (D.past p.journal.disk) (D.now p.journal.disk) (payloads_in (D.now p.journal.disk)) None) }
    ensures history_err { D.tells ≡ true → AtRest (D.now disk) → (ps : List (List ℕ)) → records (D.now disk).seen ≡ Intact ps → IfErr result (λ e. LeavesHistory (length (D.past disk)) (D.past e.1) (D.now e.1) (is_disk e.0)) }
    // Unless the disk failed, it comes back at rest.
    ensures rests_err { D.tells ≡ true → AtRest (D.now disk) → IfErr result (λ e. is_disk e.0 ≡ false → AtRest (D.now e.1)) }
    ensures cause { IfOk result (λ p. D.count p.journal.disk ≡ D.count disk) }
    ensures cause_err { IfErr result (λ e. Counts (D.count disk) (D.count e.1) (is_disk e.0)) }
{
    let Ok(model) = record_of(alloc, text, upper) else {
        return Err((ResumeFault::Memory, disk));
    };
    let mut disk = disk;
    let scanned = match scan(alloc, &mut disk) {
        Ok(scanned) => scanned,
        Err(fault) => return Err((ResumeFault::from(fault), disk)),
    };
    if scanned.count() == 0 {
        return begin_search(alloc, disk, scanned, &model, problem, budget);
    }
    match read_search_of(alloc, keys, &scanned, &model, problem) {
        Ok((state, upgraded)) => { continue_journal(alloc, disk, scanned, state, upgraded, budget) }
        Err(fault) => Err((fault, disk)),
    }
}
