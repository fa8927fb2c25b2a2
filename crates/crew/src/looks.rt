//! What a worker that rests sees of the lock.
//!
//! A look takes no turn: it tells whether anybody has one, and a second look soon after it whether that turn is a long one. Many looks tell how much of
//! the time the lock is in use. A worker that tried instead whether there is room would hold up the others: it may lack a core when its turn comes
//! (docs/DECISIONS.md, entry 100).

use turn_lock::Tickets;

/// How many looks tell enough.
const ENOUGH: u32 = 16;

/// The whole time, in parts.
const PARTS: u32 = 5;

/// The lock may be in use for so many of these parts.
const MOST_IN_USE: u32 = 4;

/// Where turns are long, the lock has to be free at so many of the looks at least.
const LEAST_FREE: u32 = 2;

/// What was seen.
#[derive(Clone, Copy, Debug, PartialEq, Eq)]
pub(crate) struct Looks {
    count: u32,
    // At how many nobody had a turn.
    free: u32,
    // At how many somebody had a turn that went on until the second look.
    long: u32,
}

impl Looks {
    /// Nothing was seen yet.
    pub(crate) fn none() -> Looks {
        Looks {
            count: 0,
            free: 0,
            long: 0,
        }
    }

    /// Notes a look, and the second one that came soon after it.
    pub(crate) fn note(&mut self, first: Tickets, second: Tickets) {
        self.count = self.count.saturating_add(1);
        if first.are_served() {
            self.free = self.free.saturating_add(1);
        } else if first.served == second.served {
            self.long = self.long.saturating_add(1);
        }
    }

    /// Whether there were enough.
    pub(crate) fn are_enough(&self) -> bool {
        self.count >= ENOUGH
    }

    // At how many somebody had a turn.
    fn in_use(&self) -> u32 {
        self.count.saturating_sub(self.free)
    }

    /// Whether the turns were long, and the lock is free now and then: what is done between two turns is worth a worker more, since it costs little
    /// beside a long turn to hand the lock on.
    fn are_of_long_turns(&self) -> bool {
        self.long > self.in_use() / 2 && self.free >= LEAST_FREE
    }

    /// Whether the lock would have room for so many workers, where these looks saw so many at work.
    pub(crate) fn leave_room(&self, workers: u32, at_work: u32) -> bool {
        let needed = self.in_use().saturating_mul(workers).saturating_mul(PARTS);
        let there = self
            .count
            .saturating_mul(at_work)
            .saturating_mul(MOST_IN_USE);
        needed <= there || self.are_of_long_turns()
    }
}
