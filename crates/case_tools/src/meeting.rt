//! A place where two workers meet.

use outside::Hold;
use std::hint;
use std::sync::atomic::AtomicU32;
use std::sync::atomic::Ordering::SeqCst;

/// How often a worker looks for the other one before it gives up.
const LOOKS: u64 = 1_000_000_000;

/// Keeps each of two workers until the other one has asked too. So workers that run one after another never meet. No contract can say what its words
/// hold.
#[derive(Drop)]
pub struct Meeting {
    first: AtomicU32,
    second: AtomicU32,
    missed: AtomicU32,
}

impl Meeting {
    /// Nobody has asked yet.
    pub fn new() -> Meeting {
        Meeting {
            first: AtomicU32::new(0),
            second: AtomicU32::new(0),
            missed: AtomicU32::new(0),
        }
    }

    /// Whether both workers asked, and none gave up.
    pub fn took_place(&self) -> bool {
        self.first.load(SeqCst) == 1
            && self.second.load(SeqCst) == 1
            && self.missed.load(SeqCst) == 0
    }

    /// Waits until the word is 1, or gives up.
    fn wait_for(&self, word: &AtomicU32) {
        for _ in 0..LOOKS {
            if word.load(SeqCst) == 1 {
                return;
            }
            hint::spin_loop();
        }
        self.missed.store(1, SeqCst);
    }
}

impl Hold for Meeting {
    fn asks(&self, worker: u32) {
        if worker == 0 {
            self.first.store(1, SeqCst);
            self.wait_for(&self.second);
        } else {
            self.second.store(1, SeqCst);
            self.wait_for(&self.first);
        }
    }
}
