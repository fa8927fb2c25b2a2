// How events are added to the journal and applied.
ghost use Rattle.std.specs.Prelude.{◌≡◌, ◌↔◌, ◌+◌, ◌*◌, ◌<◌, ◌≤◌, ◌^◌, ◌++◌, [], ◌∷◌, true, false, All, length, vec_capacity, Some, None, IsSome, Ok, OnOk, OnErr, IfOk, IsErrOf};
ghost use Rattle.outside.specs.Faults.{Counts};
ghost use Rattle.outside.specs.Images.{LeavesOnly};
ghost use Rattle.event_core.specs.Histories.{is_journaled, entries_by, AreLegalFrom};
ghost use Rattle.event_core.specs.Rooms.{AreReady, split_count};
ghost use Rattle.event_core.specs.Made.{made_for_each};
ghost use Rattle.event_codec.specs.Groups.{most_group_events};
ghost use Rattle.node_journal.specs.Appends.{IsWithOrWithout};
ghost use Rattle.node_journal.specs.History.{ExtendsMoments};
ghost use Rattle.node_journal.specs.Whole.{payloads_in};
ghost use Rattle.node_pool.specs.Free.{SplitsAlone};
ghost use Rattle.node_pool.specs.Halting.{passes_budget, spends, halt_after, fails_by_disk};
ghost use Rattle.node_pool.specs.Payloads.{model_in, group_payload, IsReadBack};
ghost use Rattle.node_pool.specs.Applied.{AppliesAll, AppliesNothing};
ghost use Rattle.node_pool.specs.Releases.{history_at};
ghost use Rattle.node_tree.specs.Limits.{most_nodes};

use crate::free::{add_children, reserve_for};
use crate::payload::payload_of;
use crate::{CommitFault, Events, Halt, Pool, Receipt};
use event_core::Made;
use event_core::laws::journals_are_legal;
use node_events::Event;
use node_journal::AppendFault;
use outside::Disk;
use std::alloc::{AllocError, Global};
use std::snapshot::Snapshot;

/// Whether the event splits a node of a tree of so many, and the two children would pass the budget.
fn passes_budget(budget: u32, nodes: usize, event: &Event) -> bool
    ensures { result ≡ passes_budget budget nodes event.now }
{
    match event {
        Event::Split { .. } => (budget as usize).saturating_sub(nodes) < 2,
        _ => false,
    }
}

/// Whether one of the events does.
fn spends(budget: u32, nodes: usize, events: &[Event]) -> bool
    ensures { result ≡ spends budget nodes events.now }
{
    for event in events {
        if passes_budget(budget, nodes, event) {
            return true;
        }
    }
    false
}

impl<D: Disk> Pool<D> {
    /// Makes room for what the events change, and hands out their payload and what was made for them. The one error is want of memory; all stays then too.
    fn prepare(
        &mut self,
        alloc: Global,
        events: &[Event],
    ) -> Result<(Vec<u8>, Vec<Made>), AllocError>
        requires some { 0 < length events.now }
        requires few { length events.now ≤ most_group_events }
        requires journaled { All (λ e. is_journaled e ≡ true) events.now }
        requires numbers { length self.old.state.state.nodes + 2 * split_count events.now ≤ most_nodes }
        ensures spelled { IfOk result (λ p. p.0.items ≡ group_payload events.now) }
        ensures small { IfOk result (λ p. length p.0.items < 2 ^ 32) }
        ensures read { OnOk result (IsReadBack events.now) }
        ensures ready { OnOk result (AreReady self.new.state events.now) }
        ensures made { IfOk result (λ p. p.1.items ≡ made_for_each self.old.state.state.problem self.old.state.state.cuts events.now) }
        ensures room { OnOk result (length self.new.state.state.nodes + 2 * split_count events.now ≤ vec_capacity self.new.free) }
        ensures stays { AppliesNothing self.old.state self.new.state }
        ensures journal { self.new.journal ≡ self.old.journal }
        ensures halt { self.new.halt ≡ self.old.halt }
        ensures at_halt { self.new.at_halt ≡ self.old.at_halt }
        ensures budget { self.new.budget ≡ self.old.budget }
        ensures faults { self.new.faults ≡ self.old.faults }
    {
        let payload = payload_of(alloc, events)?;
        let tree = self.state.tree();
        tree.conditions_hold();
        let nodes = tree.len() + 2 * events.len();
        reserve_for(&mut self.free, nodes)?;
        let made = self.state.reserve_all(alloc, events)?;
        Ok((payload, made))
    }

    /// Adds events for which all is ready to the journal, and then to the state.
    fn add(
        &mut self,
        worker: u32,
        events: Vec<Event>,
        payload: &[u8],
        made: Vec<Made>,
    ) -> Result<Receipt, CommitFault>
        requires sound { self.old.halt ≡ None }
        requires few_events { length events.items ≤ most_group_events }
        requires legal { AreLegalFrom self.old.state.state (entries_by (Some worker) events.items) }
        requires journaled { All (λ e. is_journaled e ≡ true) events.items }
        requires ready { AreReady self.old.state events.items }
        requires made { made.items ≡ made_for_each self.old.state.state.problem self.old.state.state.cuts events.items }
        requires room { length self.old.state.state.nodes + 2 * split_count events.items ≤ vec_capacity self.old.free }
        requires spelled { payload.now ≡ group_payload events.items }
        requires small { length payload.now < 2 ^ 32 }
        requires read { IsReadBack events.items }
        requires alone { SplitsAlone events.items }
        requires within { spends self.old.budget (length self.old.state.state.nodes) events.items ≡ false }
        ensures applied { OnOk result (AppliesAll self.old.state (Some worker) events.items self.new.state) }
        ensures number { IfOk result (λ r. r.first ≡ self.old.journal.count) }
        ensures count { IfOk result (λ r. r.count ≡ length events.items) }
        ensures added { D.tells ≡ true → OnOk result (payloads_in (D.now self.new.journal.disk) ≡ payloads_in (D.now self.old.journal.disk) ++ group_payload events.items ∷ []) }
        ensures unchanged { OnErr result (AppliesNothing self.old.state self.new.state) }
        ensures unhalted { ¬ IsErrOf result CommitFault.Halted }
        ensures unspent { ¬ IsErrOf result CommitFault.Budget }
        ensures halt { self.new.halt ≡ halt_after self.old.halt result events.items (D.count self.new.journal.disk) }
        ensures at_halt { self.new.at_halt.value.history ≡ history_at self.old.halt self.new.halt self.old.at_halt.value.history self.old.state.history }
        ensures cause { Counts (D.count self.old.journal.disk) (D.count self.new.journal.disk) (fails_by_disk result) }
        ensures any_moment { D.tells ≡ true → LeavesOnly (D.past self.old.journal.disk) (D.now self.old.journal.disk) (D.past self.new.journal.disk) (D.now self.new.journal.disk) (IsWithOrWithout (payloads_in (D.now self.old.journal.disk)) (group_payload events.items)) }
        ensures continued { D.tells ≡ true → ExtendsMoments (D.past self.old.journal.disk ++ D.now self.old.journal.disk ∷ []) (D.past self.new.journal.disk ++ D.now self.new.journal.disk ∷ []) }
        ensures model { D.tells ≡ true → model_in (payloads_in (D.now self.new.journal.disk)) ≡ model_in (payloads_in (D.now self.old.journal.disk)) }
        ensures opened { self.new.journal.opened ≡ self.old.journal.opened }
        ensures budget { self.new.budget ≡ self.old.budget }
        ensures faults { self.new.faults ≡ self.old.faults }
    {
        let state = &self.state;
        state.conditions_hold();
        journals_are_legal(state.problem());
        let tree = state.tree();
        tree.conditions_hold();
        let number = tree.len() as u32;
        match self.journal.append(payload) {
            Ok(first) => {
                let count = events.len() as u32;
                add_children(&mut self.free, &events, number);
                self.state.apply_all(Some(worker), events, made);
                Ok(Receipt { first, count })
            }
            Err(AppendFault::Memory) => Err(CommitFault::Memory),
            Err(AppendFault::Disk) => {
                let faults = self.journal.disk().faults();
                let events = Events::of(events);
                self.at_halt = Snapshot::of(&self.state);
                self.halt = Some(Halt::Disk { faults, events });
                Err(CommitFault::Disk)
            }
        }
    }

    /// Adds events of a worker, 1 to 64, each admitted after those before it, to the journal as one payload (docs/DECISIONS.md, entry 77), and then
    /// to the state: at `Ok` they are acknowledged. None is a claim or a release, and a split is alone in its list. At a fault the state is as
    /// before, with none of them; the pool is halted at each fault but `Memory`.
    pub fn commit_all(
        &mut self,
        alloc: Global,
        worker: u32,
        events: Vec<Event>,
    ) -> Result<Receipt, CommitFault>
        requires some { 0 < length events.items }
        requires few { length events.items ≤ most_group_events }
        requires legal { AreLegalFrom self.old.state.state (entries_by (Some worker) events.items) }
        requires journaled { All (λ e. is_journaled e ≡ true) events.items }
        requires alone { SplitsAlone events.items }
        ensures applied { OnOk result (AppliesAll self.old.state (Some worker) events.items self.new.state) }
        // The payload's number is that of all payloads before it, and it is the last one on the disk.
        ensures number { IfOk result (λ r. r.first ≡ self.old.journal.count) }
        ensures count { IfOk result (λ r. r.count ≡ length events.items) }
        ensures added { D.tells ≡ true → OnOk result (payloads_in (D.now self.new.journal.disk) ≡ payloads_in (D.now self.old.journal.disk) ++ group_payload events.items ∷ []) }
        ensures unchanged { OnErr result (AppliesNothing self.old.state self.new.state) }
        // `Halted` comes exactly where the pool was halted, and else `Budget` exactly where there is a split that passes the budget.
        ensures halted { IsErrOf result CommitFault.Halted ↔ IsSome self.old.halt }
        ensures spent { IsErrOf result CommitFault.Budget ↔ ((self.old.halt ≡ None) × (spends self.old.budget (length self.old.state.state.nodes) events.items ≡ true)) }
        ensures halt { self.new.halt ≡ halt_after self.old.halt result events.items (D.count self.new.journal.disk) }
        ensures at_halt { self.new.at_halt.value.history ≡ history_at self.old.halt self.new.halt self.old.at_halt.value.history self.old.state.history }
        // The count of faults rises exactly where the answer is `Disk`.
        ensures cause { Counts (D.count self.old.journal.disk) (D.count self.new.journal.disk) (fails_by_disk result) }
        // A crash at any moment of the call leaves the payloads from before, or with the one of all these events.
        ensures any_moment { D.tells ≡ true → self.old.halt ≡ None → LeavesOnly (D.past self.old.journal.disk) (D.now self.old.journal.disk) (D.past self.new.journal.disk) (D.now self.new.journal.disk) (IsWithOrWithout (payloads_in (D.now self.old.journal.disk)) (group_payload events.items)) }
        ensures continued { D.tells ≡ true → ExtendsMoments (D.past self.old.journal.disk ++ D.now self.old.journal.disk ∷ []) (D.past self.new.journal.disk ++ D.now self.new.journal.disk ∷ []) }
        ensures model { D.tells ≡ true → model_in (payloads_in (D.now self.new.journal.disk)) ≡ model_in (payloads_in (D.now self.old.journal.disk)) }
        ensures opened { self.new.journal.opened ≡ self.old.journal.opened }
        ensures budget { self.new.budget ≡ self.old.budget }
        ensures faults { self.new.faults ≡ self.old.faults }
    {
        if self.halt.is_some() {
            return Err(CommitFault::Halted);
        }
        self.journal.history_holds();
        let state = &self.state;
        state.conditions_hold();
        journals_are_legal(state.problem());
        let tree = state.tree();
        tree.conditions_hold();
        if spends(self.budget, tree.len(), &events) {
            let mut events = events;
            let Some(event) = events.pop() else {
                unreachable!();
            };
            self.at_halt = Snapshot::of(&self.state);
            self.halt = Some(Halt::Budget { event });
            return Err(CommitFault::Budget);
        }
        match self.prepare(alloc, &events) {
            Ok((payload, made)) => self.add(worker, events, &payload, made),
            Err(_) => Err(CommitFault::Memory),
        }
    }
}
