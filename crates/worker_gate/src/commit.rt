// How a finding settles a worker's node.
ghost use Rattle.std.specs.Prelude.{◌≡◌, ◌<◌, ◌≤◌, None, IfOk, length, All, true};
ghost use Rattle.event_core.specs.States.{is_open, box_of};
ghost use Rattle.event_core.specs.Histories.{AreLegalFrom, is_journaled, state_from};
ghost use Rattle.event_codec.specs.Groups.{most_group_events};
ghost use Rattle.node_pool.specs.Free.{SplitsAlone};
ghost use Rattle.expand.specs.Laws.{entries_of};
ghost use Rattle.expand.specs.Settlements.{IsSettlement};
ghost use Rattle.expand.specs.Settling.{settled};
ghost use Rattle.worker_gate.specs.Entries.{opening_in, halt_in, state_in};
ghost use Rattle.worker_gate.specs.Limits.{cuts_limit, KeepsToLimit};
ghost use Rattle.worker_gate.specs.Conditions.{HoldsNode, IsFound};
ghost use Rattle.worker_gate.specs.Gates.{Makes};
ghost use Rattle.worker_gate.specs.Calls.{MakesOf, Commits};

use crate::Kin;
use expand::{Finding, Settlement, settle};
use node_events::Event;
use node_pool::{CommitFault, Receipt};
use outside::Disk;
use std::alloc::{AllocError, Global};

impl<D: Disk> Kin<D> {
    /// How the finding settles the node. The one error is want of memory.
    fn settlement(
        &self,
        alloc: Global,
        node: u32,
        finding: Finding,
    ) -> Result<Settlement, AllocError>
        requires opened { is_open (state_in self.now) node ≡ true }
        requires found { IsFound node finding self.now }
        ensures settled { IfOk result (λ g. g ≡ settled (state_in self.now) (box_of (state_in self.now) node) (opening_in self.now).cuts finding) }
        ensures legal { IfOk result (λ g. IsSettlement (state_in self.now) (box_of (state_in self.now) node) g) }
        ensures few { IfOk result (λ g. KeepsToLimit self.now g) }
    {
        let state = self.pool.state();
        state.conditions_hold();
        let area = state.tree().box_of(alloc, node)?;
        settle(alloc, finding, state, node, &area, self.cuts)
    }

    /// Adds events of the worker, all or none. Where there are none, nothing is written.
    fn add(
        &mut self,
        alloc: Global,
        worker: u32,
        events: Vec<Event>,
    ) -> Result<Receipt, CommitFault>
        requires member { worker < (opening_in self.old).workers }
        requires unhalted { halt_in self.old ≡ None }
        requires legal { AreLegalFrom (state_in self.old) (entries_of worker events.items) }
        requires journaled { All (λ e. is_journaled e ≡ true) events.items }
        requires few_events { length events.items ≤ most_group_events }
        requires alone { SplitsAlone events.items }
        requires few { length (state_from (state_in self.old) (entries_of worker events.items)).cuts ≤ cuts_limit self.old }
        ensures { Makes worker self.old self.new (MakesOf worker events.items result self.old) }
    {
        if events.is_empty() {
            let first = self.pool.payloads();
            return Ok(Receipt { first, count: 0 });
        }
        self.stop = self.pool.state().history().len();
        let answer = self.pool.commit_all(alloc, worker, events);
        self.pool.history_holds();
        answer
    }

    /// Settles the node that the worker holds as the finding says, by the cuts and the incumbent that there are. The errors are those of
    /// `PoolGate::commit`.
    pub fn commit(
        &mut self,
        alloc: Global,
        worker: u32,
        node: u32,
        finding: Finding,
    ) -> Result<Receipt, CommitFault>
        requires member { worker < (opening_in self.old).workers }
        requires holds { HoldsNode worker node self.old }
        requires found { IsFound node finding self.old }
        ensures { Makes worker self.old self.new (Commits worker node finding result self.old) }
    {
        if self.pool.halted().is_some() {
            return Err(CommitFault::Halted);
        }
        let Ok(settlement) = self.settlement(alloc, node, finding) else {
            return Err(CommitFault::Memory);
        };
        let Ok(events) = settlement.into_events(alloc, node) else {
            return Err(CommitFault::Memory);
        };
        self.add(alloc, worker, events)
    }
}
