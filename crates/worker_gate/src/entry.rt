// A pool's list of entries. Contracts speak of it, and no value of it is made.

use event_core::{Entry, State};
use node_pool::Halt;
use outside::Moment;
use std::collections::LinkedList;

/// What a pool was when its list began, and the limits that those who ask it keep to.
pub struct Opening {
    /// The state with its history.
    pub state: State,
    /// How many nodes the tree may have.
    pub budget: u32,
    /// The disk's count of faults when the pool was made.
    pub faults: u64,
    /// The disk's clock when the journal was opened.
    pub opened: u64,
    /// The moments of the disk up to then, the oldest first.
    pub moments: LinkedList<Moment>,
    /// The model's record, as the disk had it.
    pub model: LinkedList<u8>,
    /// How many cuts the book takes at most.
    pub cuts: u32,
    /// How many workers may ask. Their numbers are those below it.
    pub workers: u32,
}

/// An entry of a pool's list.
pub enum PoolEntry {
    /// The list begins.
    Opened(Opening),
    /// An event was applied.
    Happened(Entry),
    /// The pool was halted.
    Halted(Halt),
}
