// What a state keeps of workers and of what was done.

use node_events::Event;

/// A worker that holds a node.
#[derive(Clone, Copy, Debug, PartialEq, Eq)]
pub struct Holder {
    /// The worker's number.
    pub worker: u32,
    /// The node.
    pub node: u32,
}

/// An event that was applied.
pub struct Entry {
    /// The worker whose event it is; none where it was read from a journal.
    pub worker: Option<u32>,
    /// The event.
    pub event: Event,
}

/// By hand (docs/DECISIONS.md, entry 98).
impl Drop for Entry {
    fn drop(self) {
        let Entry {
            worker: _,
            event: _,
        } = self;
    }
}
