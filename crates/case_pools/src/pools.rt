// Pools with their journals in memory.
ghost use Rattle.std.specs.Prelude.{◌≡◌, ◌≤◌, [], true, IsTrue, IfOk, None};
ghost use Rattle.outside.specs.OnDisk.{disk_now};
ghost use Rattle.node_journal.specs.Whole.{payloads_in};
ghost use Rattle.event_core.specs.States.{first_state};
ghost use Rattle.node_pool.specs.Payloads.{IsJournalOf, is_upgraded};
ghost use Rattle.node_tree.specs.Limits.{most_nodes};

use anyhow::{Result, bail};
use event_codec::upgrade_record;
use event_core::State;
use node_journal::{Journal, scan};
use node_pool::Pool;
use outside::MemDisk;
use problem::Problem;
use std::alloc::Global;

/// The payload that stands for the model's record.
const MODEL: &[u8] = b"model";

/// A journal of no payload.
fn empty_journal(alloc: Global) -> Result<Journal<MemDisk>>
    ensures sound { IfOk result (λ j. j.fault ≡ None) }
    ensures empty { IfOk result (λ j. payloads_in (disk_now j.disk) ≡ []) }
{
    let mut disk = MemDisk::new(alloc);
    let Ok(scanned) = scan(alloc, &mut disk) else {
        bail!("an empty disk was not read");
    };
    match Journal::recover(disk, scanned) {
        Ok(journal) => Ok(journal),
        Err(_disk) => bail!("an empty journal was not made"),
    }
}

/// Whether the records of a model and of the upgrade were added to a journal.
fn add_records(journal: &mut Journal<MemDisk>) -> bool
    requires sound { journal.old.fault ≡ None }
    requires empty { payloads_in (disk_now journal.old.disk) ≡ [] }
    ensures sound { IsTrue result → journal.new.fault ≡ None }
    ensures stands { IsTrue result → IsJournalOf (payloads_in (disk_now journal.new.disk)) [] }
    ensures upgraded { IsTrue result → is_upgraded (payloads_in (disk_now journal.new.disk)) ≡ true }
{
    journal.append(MODEL).is_ok() && journal.append(&upgrade_record()).is_ok()
}

/// A journal of the records of a model and of the upgrade.
fn first_journal(alloc: Global) -> Result<Journal<MemDisk>>
    ensures sound { IfOk result (λ j. j.fault ≡ None) }
    ensures stands { IfOk result (λ j. IsJournalOf (payloads_in (disk_now j.disk)) []) }
    ensures upgraded { IfOk result (λ j. is_upgraded (payloads_in (disk_now j.disk)) ≡ true) }
{
    let mut journal = empty_journal(alloc)?;
    if add_records(&mut journal) {
        return Ok(journal);
    }
    let _disk = journal.into_disk();
    bail!("the first records were not added")
}

/// The pool of a state and the journal that stands for its history.
fn pool_of(
    alloc: Global,
    state: State,
    journal: Journal<MemDisk>,
    budget: u32,
) -> Result<Pool<MemDisk>>
    requires few { budget ≤ most_nodes }
    requires unheld { state.state.holds ≡ [] }
    requires sound { journal.fault ≡ None }
    requires stands { IsJournalOf (payloads_in (disk_now journal.disk)) state.history }
    requires upgraded { is_upgraded (payloads_in (disk_now journal.disk)) ≡ true }
    ensures state { IfOk result (λ p. p.state ≡ state) }
    ensures budget { IfOk result (λ p. p.budget ≡ budget) }
    ensures halt { IfOk result (λ p. p.halt ≡ None) }
{
    match Pool::make(alloc, state, journal, budget) {
        Ok(pool) => Ok(pool),
        Err((_state, journal)) => {
            let _disk = journal.into_disk();
            bail!("no memory for a pool")
        }
    }
}

/// A pool at the beginning of a problem's search, with a journal in memory. The budget is how many nodes the tree may have.
pub fn memory_pool(alloc: Global, problem: Problem, budget: u32) -> Result<Pool<MemDisk>>
    requires { budget ≤ most_nodes }
    ensures state { IfOk result (λ p. p.state.state ≡ first_state problem) }
    ensures history { IfOk result (λ p. p.state.history ≡ []) }
    ensures budget { IfOk result (λ p. p.budget ≡ budget) }
    ensures halt { IfOk result (λ p. p.halt ≡ None) }
{
    let state = State::new(alloc, problem)?;
    let journal = first_journal(alloc)?;
    pool_of(alloc, state, journal, budget)
}

/// The pool with another budget, and halted no more. A pool whose disk failed is an error.
pub fn with_budget(alloc: Global, pool: Pool<MemDisk>, budget: u32) -> Result<Pool<MemDisk>>
    requires few { budget ≤ most_nodes }
    requires unheld { pool.state.state.holds ≡ [] }
    ensures state { IfOk result (λ p. p.state ≡ pool.state) }
    ensures budget { IfOk result (λ p. p.budget ≡ budget) }
    ensures halt { IfOk result (λ p. p.halt ≡ None) }
{
    let (state, journal, _halt) = pool.into_parts();
    if journal.fault().is_some() {
        let _disk = journal.into_disk();
        bail!("the disk failed");
    }
    pool_of(alloc, state, journal, budget)
}

/// Drops a pool with its journal.
pub fn drop_pool(pool: Pool<MemDisk>) {
    let (_state, journal, _halt) = pool.into_parts();
    let _disk = journal.into_disk();
}
