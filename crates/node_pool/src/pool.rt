// The state of a search with its journal.
ghost use Rattle.std.specs.Prelude.{◌≡◌, ◌≤◌, [], true, length, vec_capacity, is_some, option_copied, unwrap_or, IfOk, IfErr, Some, None};
ghost use Rattle.node_journal.specs.History.{KeepsHistory};
ghost use Rattle.node_journal.specs.Whole.{payloads_in};
ghost use Rattle.node_pool.specs.Free.{AreFreeNodes};
ghost use Rattle.node_pool.specs.Halting.{IsHalt};
ghost use Rattle.node_pool.specs.Payloads.{IsJournalOf, IsJournalAfter, LeavesBeginnings, is_upgraded};
ghost use Rattle.node_pool.specs.Releases.{OnlyReleases, history_at};
ghost use Rattle.node_pool.specs.Lemmas.Props.{IsHalt-prop};
ghost use Rattle.node_tree.specs.Limits.{most_nodes};

use crate::Halt;
use crate::free::free_nodes;
use event_core::State;
use node_journal::Journal;
use outside::Disk;
use std::alloc::Global;
use std::snapshot::Snapshot;

/// The state of a search with its journal. What is told of the one holds of the other, whatever crash comes.
pub struct Pool<D: Disk> {
    pub(crate) state: State,
    pub(crate) journal: Journal<D>,
    /// The open nodes that nobody holds, by rising number: the last one is claimed next.
    pub(crate) free: Vec<u32>,
    /// How many nodes the tree may have.
    pub(crate) budget: u32,
    pub(crate) halt: Option<Halt>,
    /// The state when the pool was halted. It has no bytes, and is for contracts (docs/DECISIONS.md, entry 82).
    pub(crate) at_halt: Snapshot<State>,
    /// The disk's count of faults when the pool was made.
    pub(crate) faults: u64,
    ghost listed: { AreFreeNodes state.state free.items },
    // A release takes no memory.
    ghost room: { length state.state.nodes ≤ vec_capacity free },
    ghost few: { budget ≤ most_nodes },
    ghost stands: { D.tells ≡ true → IsJournalAfter (payloads_in (D.now journal.disk)) state.history halt },
    // So each payload that the pool adds is in encoding 2.
    ghost upgraded: { D.tells ≡ true → is_upgraded (payloads_in (D.now journal.disk)) ≡ true },
    ghost crashes: { D.tells ≡ true → LeavesBeginnings journal.opened (D.past journal.disk) (D.now journal.disk) state.history halt },
    ghost halts: { IsHalt faults budget (D.count journal.disk) journal.fault state.state halt } by { IsHalt-prop faults budget (D.count journal.disk) journal.fault state.state halt },
    ghost released: { is_some halt ≡ true → OnlyReleases at_halt.value.history state.history },
}

impl<D: Disk> Pool<D> {
    /// A pool of a state and the journal that stands for its history, by the model's record and the events that a journal has, and has the record of the upgrade. The budget is how many nodes the tree may have. At want of memory, the one error, state and journal come back.
    pub fn make(
        alloc: Global,
        state: State,
        journal: Journal<D>,
        budget: u32,
    ) -> Result<Pool<D>, (State, Journal<D>)>
        requires few { budget ≤ most_nodes }
        requires unheld { state.state.holds ≡ [] }
        requires sound { journal.fault ≡ None }
        requires stands { D.tells ≡ true → IsJournalOf (payloads_in (D.now journal.disk)) state.history }
        requires upgraded { D.tells ≡ true → is_upgraded (payloads_in (D.now journal.disk)) ≡ true }
        ensures state { IfOk result (λ p. p.state ≡ state) }
        ensures journal { IfOk result (λ p. p.journal ≡ journal) }
        ensures halt { IfOk result (λ p. p.halt ≡ None) }
        ensures budget { IfOk result (λ p. p.budget ≡ budget) }
        ensures faults { IfOk result (λ p. p.faults ≡ D.count journal.disk) }
        ensures state_back { IfErr result (λ e. e.0 ≡ state) }
        ensures journal_back { IfErr result (λ e. e.1 ≡ journal) }
    {
        let Ok(free) = free_nodes(alloc, &state) else {
            return Err((state, journal));
        };
        let faults = journal.disk().faults();
        let at_halt = Snapshot::of(&state);
        Ok(Pool {
            state,
            journal,
            free,
            budget,
            halt: None,
            at_halt,
            faults,
        })
    }

    /// The state.
    pub fn state(&self) -> &State
        ensures { result.now ≡ self.now.state }
    {
        &self.state
    }

    /// Why the pool is halted, if it is.
    pub fn halted(&self) -> Option<&Halt>
        ensures { option_copied result ≡ self.now.halt }
    {
        self.halt.as_ref()
    }

    /// How many nodes the tree may have.
    pub fn budget(&self) -> u32
        ensures { result ≡ self.now.budget }
    {
        self.budget
    }

    /// How many payloads were given to the journal and acknowledged: the records of the model and of the upgrade, and one for the events of each call.
    pub fn payloads(&self) -> u64
        ensures { result ≡ self.now.journal.count }
    {
        self.journal.count() as u64
    }

    /// Halts the pool for want of memory, unless it is halted already.
    pub fn halt(&mut self)
        ensures halt { self.new.halt ≡ Some (unwrap_or self.old.halt Halt.Memory) }
        ensures at_halt { self.new.at_halt.value.history ≡ history_at self.old.halt self.new.halt self.old.at_halt.value.history self.old.state.history }
        ensures state { self.new.state ≡ self.old.state }
        ensures journal { self.new.journal ≡ self.old.journal }
        ensures budget { self.new.budget ≡ self.old.budget }
        ensures faults { self.new.faults ≡ self.old.faults }
    {
        if self.halt.is_some() {
            return;
        }
        self.at_halt = Snapshot::of(&self.state);
        self.halt = Some(Halt::Memory);
    }

    /// What each pool keeps. This computes nothing: its contract is for callers' proofs.
    pub fn history_holds(&self)
        // The disk has the model's record and what spells the history's events; after a halt by the disk perhaps all events of that call behind them.
        ensures stands_after { D.tells ≡ true → IsJournalAfter (payloads_in (D.now self.now.journal.disk)) self.now.state.history self.now.halt }
        // While the journal is sound, it has none but those of the history.
        ensures stands { D.tells ≡ true → self.now.journal.fault ≡ None → IsJournalOf (payloads_in (D.now self.now.journal.disk)) self.now.state.history }
        ensures upgraded { D.tells ≡ true → is_upgraded (payloads_in (D.now self.now.journal.disk)) ≡ true }
        // Each crash since the journal was opened leaves a beginning of them, perhaps with all events in whose call the disk failed.
        ensures crashes { D.tells ≡ true → LeavesBeginnings self.now.journal.opened (D.past self.now.journal.disk) (D.now self.now.journal.disk) self.now.state.history self.now.halt }
        ensures halted { IsHalt self.now.faults self.now.budget (D.count self.now.journal.disk) self.now.journal.fault self.now.state.state self.now.halt }
        // Behind a halt only releases stand.
        ensures released { is_some self.now.halt ≡ true → OnlyReleases self.now.at_halt.value.history self.now.state.history }
        ensures kept { D.tells ≡ true → KeepsHistory self.now.journal.opened (D.past self.now.journal.disk) (D.now self.now.journal.disk) (payloads_in (D.now self.now.journal.disk)) self.now.journal.fault }
        ensures few { self.now.budget ≤ most_nodes }
        // The disk has counted no fewer faults than when the pool was made.
        ensures rising { self.now.faults ≤ D.count self.now.journal.disk }
    {
        let _faults_then = self.faults;
        self.journal.history_holds();
    }

    /// The state, the journal and the halt.
    pub fn into_parts(self) -> (State, Journal<D>, Option<Halt>)
        ensures state { result.0 ≡ self.state }
        ensures journal { result.1 ≡ self.journal }
        ensures halt { result.2 ≡ self.halt }
        ensures stands_after { D.tells ≡ true → IsJournalAfter (payloads_in (D.now result.1.disk)) result.0.history result.2 }
        ensures stands { D.tells ≡ true → result.1.fault ≡ None → IsJournalOf (payloads_in (D.now result.1.disk)) result.0.history }
        ensures upgraded { D.tells ≡ true → is_upgraded (payloads_in (D.now result.1.disk)) ≡ true }
        ensures crashes { D.tells ≡ true → LeavesBeginnings result.1.opened (D.past result.1.disk) (D.now result.1.disk) result.0.history result.2 }
        ensures halted { IsHalt self.faults self.budget (D.count result.1.disk) result.1.fault result.0.state result.2 }
        ensures released { is_some result.2 ≡ true → OnlyReleases self.at_halt.value.history result.0.history }
    {
        let Pool {
            state,
            journal,
            free: _,
            budget: _,
            halt,
            at_halt: _,
            faults: _,
        } = self;
        (state, journal, halt)
    }
}
