// A place where tests can hold a worker up.

/// Asked by a worker between its steps. An implementation can delay the worker, which changes the order in which
/// workers come to a lock and nothing else: the call promises nothing and changes nothing that the worker sees.
pub trait Hold {
    /// The worker of this number asks whether it may go on, and it may once the call returns.
    fn asks(&self, worker: u32);
}

/// Holds nobody up.
#[derive(Clone, Copy, Debug, PartialEq, Eq)]
pub struct NoHold;

impl Hold for NoHold {
    fn asks(&self, _worker: u32) {}
}
