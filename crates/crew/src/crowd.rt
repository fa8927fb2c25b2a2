//! Whether a worker is in the way of others.
//!
//! Where a node takes about as long as the turns that it needs, more workers gain nothing: they wait for one another, and the pool moves from core to
//! core. Then a worker but the first rests between two nodes, until its looks at the lock tell of room. The others go on at full speed, and the one
//! that rests comes back where nodes get dear again. All this is counted in turns, since no clock is at hand: the turns of others for which the worker
//! waited, and those that ended while it worked on its own (docs/DECISIONS.md, entry 71).

use turn_lock::Traffic;

/// How many turns of others have to end while a worker works on its own, for each turn for which it waits.
const SHARE: u64 = 4;

/// For how many turns more than that a worker waits until it leaves, for each worker that is less patient, and itself. Turns for which it waited by
/// chance are outweighed by those that end later. Where workers are in each other's way so many come together within a few nodes.
const PATIENCE: u64 = 8;

/// The same of a worker that rested, and tries whether the others leave room for it.
const PATIENCE_OF_TRIAL: u64 = 2;

/// For how many nodes such a worker tries.
const TRIAL: u32 = 4;

/// How long a worker that rests sleeps between two looks at the lock, in microseconds: so long at first, and so many times as long each time that it
/// was in the way of others right after a rest, but no longer than this.
const NAP: u64 = 1_000;

const GROWTH: u64 = 4;

const LONGEST: u64 = 16_000;

/// What a worker is to do before it claims the next node.
#[derive(Clone, Copy, Debug, PartialEq, Eq)]
pub(crate) enum Advice {
    /// Nothing.
    GoOn,
    /// Tell the others that it is at work again: there is room for it.
    Stay,
    /// Rest, since it is in the way of others, with sleeps of so many microseconds between its looks at the lock.
    Rest { nap: u64 },
}

/// What a worker does about the others.
#[derive(Clone, Copy, Debug, PartialEq, Eq)]
enum Stance {
    /// It is at work.
    Stays,
    /// It rests, or has claimed no node since.
    Rests,
    /// It rested, and tries for so many nodes more whether the others leave room for it.
    Tries { nodes: u32 },
}

/// What a worker has seen of the others.
#[derive(Clone, Copy, Debug, PartialEq, Eq)]
pub(crate) struct Crowd {
    stance: Stance,
    // The traffic at the last node.
    since: Traffic,
    // How many turns too many the worker waited for of late, times `SHARE`.
    excess: u64,
    // At how many it leaves, times `SHARE`.
    patience: u64,
    nap: u64,
}

impl Crowd {
    /// Nothing seen yet, and no node claimed. The rank is the number of workers that are less patient, and this one.
    pub(crate) fn new(rank: u32) -> Crowd {
        Crowd {
            stance: Stance::Rests,
            since: Traffic::none(),
            excess: 0,
            patience: u64::from(rank).saturating_mul(PATIENCE * SHARE),
            nap: NAP,
        }
    }

    // Notes the turns of others since the last node.
    fn note(&mut self, traffic: Traffic) {
        let waited = traffic.waited.wrapping_sub(self.since.waited);
        let passed = traffic.passed.wrapping_sub(self.since.passed);
        self.since = traffic;
        self.excess = self
            .excess
            .saturating_add(waited.saturating_mul(SHARE))
            .saturating_sub(passed);
    }

    /// The worker found no node to work on: the turns that it took to ask for one don't count.
    pub(crate) fn forget(&mut self, traffic: Traffic) {
        self.since = traffic;
    }

    /// The worker has claimed a node. Behind a rest it tries from now on: it may have waited for its claim, but what passed until then passed while it
    /// slept.
    pub(crate) fn claimed(&mut self, traffic: Traffic) {
        if self.stance != Stance::Rests {
            return;
        }
        let waited = traffic.waited.wrapping_sub(self.since.waited);
        self.since = traffic;
        self.excess = waited.saturating_mul(SHARE);
        self.stance = Stance::Tries { nodes: TRIAL };
    }

    // The worker is in the way of others.
    fn rest(&mut self) -> Advice {
        let nap = self.nap;
        self.nap = nap.saturating_mul(GROWTH).min(LONGEST);
        self.stance = Stance::Rests;
        Advice::Rest { nap }
    }

    // A node was settled by a worker that has to try for so many nodes, this one among them.
    fn try_on(&mut self, nodes: u32) -> Advice {
        if self.excess >= PATIENCE_OF_TRIAL * SHARE {
            return self.rest();
        }
        if nodes > 1 {
            self.stance = Stance::Tries { nodes: nodes - 1 };
            return Advice::GoOn;
        }
        self.stance = Stance::Stays;
        self.nap = NAP;
        Advice::Stay
    }

    /// Notes a node that was settled, and says what the worker is to do.
    pub(crate) fn advice(&mut self, traffic: Traffic) -> Advice {
        self.note(traffic);
        match self.stance {
            Stance::Tries { nodes } => self.try_on(nodes),
            _ => {
                if self.excess >= self.patience {
                    return self.rest();
                }
                Advice::GoOn
            }
        }
    }
}
