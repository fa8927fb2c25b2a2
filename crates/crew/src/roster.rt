//! Who of a crew is at work, and who rests.
//!
//! The workers tell one another so much outside of the lock: a look at it costs no turn. All of it is a hint, and no clause rests on it.

use std::sync::Wait;
use std::sync::atomic::{AtomicU64, Ordering};
use std::time::Duration;

/// The most ranks that are told apart: more than there may be workers.
const LAST_RANK: u32 = 63;

/// What the workers of a crew tell one another.
#[derive(Drop)]
pub(crate) struct Roster {
    // How many workers have come.
    came: AtomicU64,
    // A bit for each rank, which is set while the worker rests.
    resting: AtomicU64,
    // 1 once a worker has ended. Who waits for something sleeps on it, and is woken then.
    over: AtomicU64,
}

/// The bit of a rank.
fn bit_of(rank: u32) -> u64 {
    1u64 << rank.min(LAST_RANK)
}

impl Roster {
    /// Nobody has come yet.
    pub(crate) fn new() -> Roster {
        Roster {
            came: AtomicU64::new(0),
            resting: AtomicU64::new(0),
            over: AtomicU64::new(0),
        }
    }

    /// A worker has come. Its rank is the number of those that came before. One of rank 0 there is as long as the search goes on, whatever threads
    /// the system could make.
    pub(crate) fn arrive(&self) -> u32 {
        self.came
            .fetch_add(1, Ordering::SeqCst)
            .min(u64::from(LAST_RANK)) as u32
    }

    /// The worker of this rank leaves the work to others.
    pub(crate) fn leave(&self, rank: u32) {
        self.resting.fetch_or(bit_of(rank), Ordering::SeqCst);
    }

    /// The worker of this rank is at work again.
    pub(crate) fn come_back(&self, rank: u32) {
        self.resting.fetch_and(!bit_of(rank), Ordering::SeqCst);
    }

    /// Whether the workers that came before this one are all at work.
    pub(crate) fn are_at_work_before(&self, rank: u32) -> bool {
        let before = bit_of(rank).wrapping_sub(1);
        self.resting.load(Ordering::SeqCst) & before == 0
    }

    /// Whether the search is over.
    pub(crate) fn is_over(&self) -> bool {
        self.over.load(Ordering::SeqCst) != 0
    }

    /// Sleeps for so many microseconds, or until the search is over.
    pub(crate) fn sleep<R: Wait>(&self, rt: &R, nap: u64) {
        self.over.park_timeout(rt, 0, Duration::from_micros(nap));
    }

    /// A worker has ended, which it does only where no node is open or the pool is halted: so all others end at their next claim. Those that sleep are
    /// woken.
    pub(crate) fn end(&self) {
        self.over.store(1, Ordering::SeqCst);
        self.over.wake_all();
    }
}
