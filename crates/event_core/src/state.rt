// The state of a search.
ghost use Rattle.std.specs.Prelude.{◌≡◌, ◌≤◌, ◌+◌, ◌*◌, ◌++◌, ◌∷◌, [], IfOk, OnOk, length};
ghost use Rattle.dual_simplex.specs.Prepared.{IsKept};
ghost use Rattle.event_core.specs.States.{best_value, first_state, is_open, open_count};
ghost use Rattle.event_core.specs.Judging.{judged};
ghost use Rattle.event_core.specs.After.{after};
ghost use Rattle.event_core.specs.Histories.{IsLegal, state_of, AreLegal, entries_by, state_from, AreLegalFrom};
ghost use Rattle.event_core.specs.Rooms.{HasNumbers, IsReady, AreReady, StaysReady, LeavesRooms, split_count};
ghost use Rattle.event_core.specs.Made.{made_for, made_for_each};
ghost use Rattle.node_tree.specs.Limits.{most_nodes};
ghost use Rattle.event_core.specs.Sound.{IsSound};

use crate::admit::Admit;
use crate::entry::Entry;
use crate::made::Made;
use crate::parts::Parts;
use derivation_book::Book;
use dual_simplex::KeptRelaxation;
use fraction::Frac;
use incumbent::Incumbent;
use node_events::Event;
use node_tree::Tree;
use problem::Problem;
use std::alloc::{AllocError, Global};
use std::marker::Model;

/// The state of a search of one problem with its history, seen as both with the room that there is.
///
/// The state is what the events of the history lead to, and each of these was legal in the state after those before it (docs/DECISIONS.md, entry 36).
pub struct State {
    parts: Parts,
    history: Vec<Entry>,
}

/// By hand (docs/DECISIONS.md, entry 98).
impl Drop for State {
    fn drop(self) {
        let State {
            parts: _,
            history: _,
        } = self;
    }
}

impl Model for State {
    ghost use Rattle.std.specs.Prelude.{◌≡◌, ◌≤◌, ◌-◌, length, vec_len, vec_capacity};
    ghost use Rattle.event_core.specs.Histories.{state_of, AreLegal};
    ghost use Rattle.event_core.specs.Rooms.{Recorded};

    ghost Value = { Recorded };

    ghost view = { λ a. record { state = a.parts.state; history = a.history.items; room = a.parts.room; entries = vec_capacity a.history - vec_len a.history } };

    ghost invariant = { λ a. (a.parts.state ≡ state_of a.parts.state.problem a.history.items) × AreLegal a.parts.state.problem a.history.items × (length a.parts.state.holds ≤ vec_capacity a.history - vec_len a.history) };
}

impl State {
    /// The state of node 0 alone, which is open, without cuts, incumbent and workers. The one error is want of memory; the problem is then gone.
    pub fn new(alloc: Global, problem: Problem) -> Result<State, AllocError>
        ensures state { IfOk result (λ s. s.state ≡ first_state problem) }
        ensures history { IfOk result (λ s. s.history ≡ []) }
    {
        let parts = Parts::make(alloc, problem)?;
        Ok(State {
            parts,
            history: Vec::new(alloc),
        })
    }

    /// The problem that is searched.
    pub fn problem(&self) -> &Problem
        ensures { result.now ≡ self.now.state.problem }
    {
        &self.parts.problem
    }

    /// The tree of the nodes.
    pub fn tree(&self) -> &Tree
        ensures root { result.now.root ≡ self.now.state.problem.spans }
        ensures nodes { result.now.nodes ≡ self.now.state.nodes }
    {
        &self.parts.tree
    }

    /// The cuts.
    pub fn book(&self) -> &Book
        ensures { result.now.cuts ≡ self.now.state.cuts }
    {
        &self.parts.book
    }

    /// The best point so far.
    pub fn incumbent(&self) -> &Incumbent
        ensures { result.now ≡ self.now.state.incumbent }
    {
        &self.parts.incumbent
    }

    /// The problem's own objective at the best point so far, if there is one.
    pub fn best_value(&self) -> Option<Frac>
        ensures { result ≡ best_value self.now.state }
    {
        let sense = self.parts.problem.sense();
        match self.parts.incumbent.cutoff() {
            Some(aim) => Some(sense.directed(aim)),
            None => None,
        }
    }

    /// Whether the node is there and has not ended.
    pub fn is_open(&self, node: u32) -> bool
        ensures { result ≡ is_open self.now.state node }
    {
        self.parts.is_open(node)
    }

    /// How many nodes are open.
    pub fn open_count(&self) -> usize
        ensures { result ≡ open_count self.now.state }
    {
        self.parts.open_nodes
    }

    /// The events that were applied, in order.
    pub fn history(&self) -> &[Entry]
        ensures { result.now ≡ self.now.history }
    {
        self.history.as_slice()
    }

    /// Each state is what its history leads to, and keeps to what is true of such states. This computes nothing: its contract is for callers' proofs.
    pub fn conditions_hold(&self)
        ensures state { self.now.state ≡ state_of self.now.state.problem self.now.history }
        ensures legal { AreLegal self.now.state.problem self.now.history }
        ensures sound { IsSound self.now.state }
    {
        let _history = &self.history;
    }

    /// Whether an event of this worker, or of none, is admitted, and else the first reason why it isn't. The one error is want of memory.
    pub fn admits(
        &self,
        alloc: Global,
        worker: Option<u32>,
        event: &Event,
    ) -> Result<Admit, AllocError>
        ensures { IfOk result (λ a. a ≡ judged self.now.state worker event.now) }
    {
        self.admits_with(alloc, worker, event, &mut KeptRelaxation::none())
    }

    /// The same with the relaxation that was kept of the events that were judged before, which is kept again. Whoever judges many events of one search
    /// so prepares it once for those with as many cuts.
    pub fn admits_with(
        &self,
        alloc: Global,
        worker: Option<u32>,
        event: &Event,
        kept: &mut KeptRelaxation,
    ) -> Result<Admit, AllocError>
        requires { IsKept self.now.state.problem self.now.state.cuts kept.old }
        ensures answer { IfOk result (λ a. a ≡ judged self.now.state worker event.now) }
        ensures kept { IsKept self.now.state.problem self.now.state.cuts kept.new }
    {
        self.conditions_hold();
        self.parts.admits(alloc, worker, event, kept)
    }

    /// Looks at the node that an event splits or closes, so that its box need not be copied where the event is judged next. It takes no memory.
    pub fn approach(&mut self, event: &Event)
        ensures { self.new ≡ self.old }
    {
        self.parts.approach(event);
    }

    /// Makes room for the event, for a claim also for the release of its node, and hands out what was made for it: with that `apply` takes no memory, as
    /// long as nothing else is applied before. The nodes of a split are few enough.
    ///
    /// The one error is want of memory. Also then the state and its history stay, and what was ready for an event before stays ready.
    pub fn reserve(&mut self, alloc: Global, event: &Event) -> Result<Made, AllocError>
        requires { HasNumbers self.old.state event.now }
        ensures stays { StaysReady self.old self.new }
        ensures ready { OnOk result (IsReady self.new event.now) }
        ensures made { IfOk result (λ m. m ≡ made_for self.old.state.problem self.old.state.cuts event.now) }
    {
        self.history.reserve(self.parts.holds.len() + 2)?;
        self.parts.reserve(event)?;
        self.parts.make_for(alloc, event)
    }

    /// The same for the events of a list, each of which is applied after those before it: a cut is rounded over the cuts that there are, and over those of
    /// the events before it.
    pub fn reserve_all(&mut self, alloc: Global, events: &[Event]) -> Result<Vec<Made>, AllocError>
        requires { length self.old.state.nodes + 2 * split_count events.now ≤ most_nodes }
        ensures stays { StaysReady self.old self.new }
        ensures ready { OnOk result (AreReady self.new events.now) }
        ensures made { IfOk result (λ v. v.items ≡ made_for_each self.old.state.problem self.old.state.cuts events.now) }
    {
        self.history
            .reserve(self.parts.holds.len() + 2 * events.len())?;
        self.parts.reserve_for(events)?;
        self.parts.make_for_each(alloc, events)
    }

    /// Applies a legal event of this worker, or of none, for which there is room, and for which this was made. It takes no memory.
    pub fn apply(&mut self, worker: Option<u32>, event: Event, made: Made)
        requires legal { IsLegal self.old.state worker event }
        requires ready { IsReady self.old event }
        requires made { made ≡ made_for self.old.state.problem self.old.state.cuts event }
        ensures state { self.new.state ≡ after self.old.state worker event }
        ensures history { self.new.history ≡ self.old.history ++ record { worker = worker; event = event } ∷ [] }
        ensures rooms { LeavesRooms self.old.room event self.new.room }
        ensures entries { self.old.entries ≤ self.new.entries + 1 }
    {
        self.parts.change(worker, &event, made);
        self.history.push_reserved(Entry { worker, event });
    }

    /// Applies the events of a list, each legal after those before it, for which there is room, and for which these were made. It takes no memory.
    pub fn apply_all(&mut self, worker: Option<u32>, events: Vec<Event>, made: Vec<Made>)
        requires legal { AreLegalFrom self.old.state (entries_by worker events.items) }
        requires ready { AreReady self.old events.items }
        requires made { made.items ≡ made_for_each self.old.state.problem self.old.state.cuts events.items }
        ensures state { self.new.state ≡ state_from self.old.state (entries_by worker events.items) }
        ensures history { self.new.history ≡ self.old.history ++ entries_by worker events.items }
    {
        let mut made = made.into_iter();
        for event in events {
            let Some(made) = made.next() else {
                unreachable!();
            };
            self.apply(worker, event, made);
        }
    }
}
