//! The kinds of a search's events, and whose they are.

use node_events::Event;
use solve_top::State;

/// How many events of each kind a search has, and whose they are.
#[derive(Clone, Copy)]
pub struct Kinds {
    /// How many events.
    pub events: usize,
    /// How many claims of nodes.
    pub claims: u64,
    /// How many splits.
    pub splits: u64,
    /// How many closes.
    pub closes: u64,
    /// How many of all other kinds.
    pub others: u64,
    /// Whether each node was split or closed by the worker that claimed it.
    pub by_claimer: bool,
}

impl Kinds {
    /// Of no event so far, in a search of so many.
    fn none(events: usize) -> Kinds {
        Kinds {
            events,
            claims: 0,
            splits: 0,
            closes: 0,
            others: 0,
            by_claimer: true,
        }
    }

    /// Counts an event, where the node's last claim was by this worker.
    fn count(&mut self, event: &Event, is_by_claimer: bool) {
        match event {
            Event::Claim { .. } => self.claims = self.claims.saturating_add(1),
            Event::Split { .. } => {
                self.splits = self.splits.saturating_add(1);
                self.by_claimer = self.by_claimer && is_by_claimer;
            }
            Event::Close { .. } => {
                self.closes = self.closes.saturating_add(1);
                self.by_claimer = self.by_claimer && is_by_claimer;
            }
            _ => self.others = self.others.saturating_add(1),
        }
    }
}

/// The node of an event that has one.
fn node_of(event: &Event) -> Option<u32> {
    match event {
        Event::Claim { node }
        | Event::Release { node }
        | Event::Split { node, .. }
        | Event::Close { node, .. } => Some(*node),
        Event::Cut { .. } | Event::Offer { .. } => None,
    }
}

/// The worker of the last claim of this node among the first entries.
fn claimer(state: &State, node: u32, first: usize) -> Option<u32> {
    let mut worker = None;
    for entry in state.history().iter().take(first) {
        if let Event::Claim { node: claimed } = entry.event {
            if claimed == node {
                worker = entry.worker;
            }
        }
    }
    worker
}

/// Whether the event at this place is by the worker of its node's last claim, if it is about a node.
fn is_by_claimer(state: &State, place: usize, event: &Event, worker: Option<u32>) -> bool {
    match node_of(event) {
        Some(node) => claimer(state, node, place) == worker,
        None => true,
    }
}

/// The kinds of a search's events.
pub(crate) fn kinds_of(state: &State) -> Kinds {
    let mut counted = Kinds::none(state.history().len());
    for (place, entry) in state.history().iter().enumerate() {
        let is_by_claimer = is_by_claimer(state, place, &entry.event, entry.worker);
        counted.count(&entry.event, is_by_claimer);
    }
    counted
}
