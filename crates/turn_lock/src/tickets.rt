ghost use Rattle.std.specs.Prelude.{◌≡◌, ◌↔◌, IsTrue};

use crate::{Kept, TurnLock};

/// How many tickets of a lock were drawn, and how many were served, modulo 2^64. It is a hint by which a thread that asks
/// for no turn can tell how much of the time the lock is in use: no contract says what a lock tells.
#[derive(Clone, Copy, Debug, PartialEq, Eq)]
pub struct Tickets {
    /// How many were drawn.
    pub drawn: u64,
    /// How many were served.
    pub served: u64,
}

impl Tickets {
    /// No ticket was drawn.
    pub const fn none() -> Tickets
        ensures drawn { result.drawn ≡ 0 }
        ensures served { result.served ≡ 0 }
    {
        Tickets {
            drawn: 0,
            served: 0,
        }
    }

    /// Whether each was served: nobody had a turn, or waited for one.
    pub fn are_served(&self) -> bool
        ensures { IsTrue result ↔ self.now.drawn ≡ self.now.served }
    {
        self.drawn == self.served
    }
}

impl<V: Kept> TurnLock<V> {
    /// The tickets so far. This takes no turn.
    pub fn tickets(&self) -> Tickets {
        let board = &self.table.shared;
        let served = board.peek(1);
        let drawn = board.peek(0);
        Tickets { drawn, served }
    }
}
