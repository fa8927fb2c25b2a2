//! How a worker waits between two nodes.

use crate::crowd::{Advice, Crowd};
use crate::looks::Looks;
use crate::roster::Roster;
use crossbeam_utils::Backoff;
use std::sync::Wait;
use turn_lock::Traffic;
use worker_gate::PoolGate;

/// How long a worker that found each open node held sleeps before it asks again, in microseconds: so long at first, by a quarter longer each time, and
/// no longer than this. So 15 workers that find no node ask less than 1,000 times a second in all.
const NAP: u64 = 100;

const LONGEST: u64 = 16_000;

/// How long a worker sleeps between two looks at who else rests, in microseconds.
const LOOK: u64 = 16_000;

/// How long it sleeps between two looks at the lock before its first node.
const FIRST: u64 = 800;

/// How soon a second look at the lock comes: a turn that takes longer is a long one.
const SOON: u64 = 200;

/// The waits of one worker between two claims.
#[derive(Drop)]
pub(crate) struct Pauses<'a> {
    roster: &'a Roster,
    rank: u32,
    backoff: Backoff,
    nap: u64,
    // None for the first that came: it never leaves, so that one worker is always there.
    crowd: Option<Crowd>,
}

impl<'a> Pauses<'a> {
    /// No wait yet, of a worker that comes now, and is one of so many. Who came first stays longest where they are in each other's way.
    pub(crate) fn new(roster: &'a Roster, workers: u32) -> Pauses<'a> {
        let rank = roster.arrive();
        let crowd = if rank == 0 {
            None
        } else {
            Some(Crowd::new(workers.saturating_sub(rank)))
        };
        Pauses {
            roster,
            rank,
            backoff: Backoff::new(),
            nap: NAP,
            crowd,
        }
    }

    /// Each open node is held: waits for a moment, by spinning and yielding at first, then by sleeps, so that a worker that waits long leaves its core
    /// to others (docs/DECISIONS.md, entry 58).
    pub(crate) fn idle<R: Wait>(&mut self, rt: &R, traffic: Traffic) {
        if let Some(crowd) = &mut self.crowd {
            crowd.forget(traffic);
        }
        if !self.backoff.is_completed() {
            self.backoff.snooze();
            return;
        }
        self.roster.sleep(rt, self.nap);
        self.nap = self.nap.saturating_add(self.nap / 4).min(LONGEST);
    }

    /// What enough looks at the lock see, with sleeps of so many microseconds between them; less where the search is over.
    fn looks<R: Wait, G: PoolGate>(&self, rt: &R, gate: &G, nap: u64) -> Looks {
        let mut looks = Looks::none();
        for _ in rt.forever() {
            if looks.are_enough() || self.roster.is_over() {
                return looks;
            }
            self.roster.sleep(rt, nap);
            let first = gate.tickets();
            self.roster.sleep(rt, SOON);
            looks.note(first, gate.tickets());
        }
        unreachable!()
    }

    /// Waits until the workers that came before this one are all at work, or the search is over: so one worker at a time comes back.
    fn wait_for_others<R: Wait>(&self, rt: &R) {
        for _ in rt.forever() {
            if self.roster.are_at_work_before(self.rank) || self.roster.is_over() {
                return;
            }
            self.roster.sleep(rt, LOOK);
        }
        unreachable!()
    }

    /// Rests until there is room for this worker beside those that came before it, or the search is over.
    fn rest<R: Wait, G: PoolGate>(&self, rt: &R, gate: &G, nap: u64) {
        self.roster.leave(self.rank);
        for _ in rt.forever() {
            self.wait_for_others(rt);
            let looks = self.looks(rt, gate, nap);
            if looks.leave_room(self.rank.saturating_add(1), self.rank) || self.roster.is_over() {
                return;
            }
        }
        unreachable!()
    }

    /// Waits before the first node until there is room for this worker. The first that came begins at once, and the others look at the lock while it is
    /// at work alone.
    pub(crate) fn begin<R: Wait, G: PoolGate>(&self, rt: &R, gate: &G) {
        if self.rank == 0 {
            return;
        }
        let looks = self.looks(rt, gate, FIRST);
        if !looks.leave_room(self.rank.saturating_add(1), 1) {
            self.rest(rt, gate, LOOK);
        }
    }

    /// A node was claimed.
    pub(crate) fn claimed(&mut self, traffic: Traffic) {
        if let Some(crowd) = &mut self.crowd {
            crowd.claimed(traffic);
        }
    }

    /// A node was settled: the next wait for one is short again. A worker that is in the way of others rests before it claims the next node.
    pub(crate) fn settled<R: Wait, G: PoolGate>(&mut self, rt: &R, gate: &G) {
        self.backoff.reset();
        self.nap = NAP;
        let Some(crowd) = &mut self.crowd else {
            return;
        };
        match crowd.advice(gate.traffic()) {
            Advice::GoOn => {}
            Advice::Stay => self.roster.come_back(self.rank),
            Advice::Rest { nap } => self.rest(rt, gate, nap),
        }
    }
}
