// Why a pool takes no more events.

use crate::Events;
use node_events::Event;

/// Why a pool takes no more events.
#[derive(Drop)]
pub enum Halt {
    /// A worker had no memory for what it had to do.
    Memory,
    /// The disk failed while the events of a call were added to the journal, where all of them may stand, or none.
    Disk {
        /// The disk's count of faults then.
        faults: u64,
        /// The events.
        events: Events,
    },
    /// The two children of a node that was to be split would pass the budget.
    Budget {
        /// The split.
        event: Event,
    },
}
