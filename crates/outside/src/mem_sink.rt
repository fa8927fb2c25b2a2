// A sink in memory, for tests.
ghost use Rattle.std.specs.Prelude.{◌≡◌, ◌<◌, ◌≤◌, ℕ, List, [], length, IfOk};

use crate::{Failed, Put, Sink};
use std::alloc::{AllocError, Global};

/// A sink in memory, which tells all. It takes at most `most` bytes at a write, and fails at the calls that are listed,
/// counted from 0, and for want of memory. It keeps what it had taken at the last `finish` that succeeded.
pub struct MemSink {
    bytes: Vec<u8>,
    /// How many of the bytes are kept.
    finished: usize,
    most: usize,
    failing: Vec<u64>,
    calls: u64,
    faults: u64,
    ghost some: { 0 < most },
    ghost within: { finished ≤ length bytes.items },
}

/// By hand (docs/DECISIONS.md, entry 98).
impl Drop for MemSink {
    fn drop(self) {
        let MemSink {
            bytes: _,
            finished: _,
            most: _,
            failing: _,
            calls: _,
            faults: _,
        } = self;
    }
}

impl MemSink {
    ghost use Rattle.outside.specs.InMemory.{sink_taken, sink_kept, sink_faults, sink_failing, sink_calls, sink_most};

    /// A sink that has taken nothing, of which no call is to fail.
    pub fn new(alloc: Global) -> MemSink
        ensures taken { sink_taken result ≡ [] }
        ensures faults { sink_faults result ≡ 0 }
        ensures calls { sink_calls result ≡ 0 }
        ensures failing { sink_failing result ≡ [] }
    {
        MemSink {
            bytes: Vec::new(alloc),
            finished: 0,
            most: usize::MAX,
            failing: Vec::new(alloc),
            calls: 0,
            faults: 0,
        }
    }

    /// A sink that has taken nothing and fails at the calls listed.
    pub fn failing(alloc: Global, failing: &[u64]) -> Result<MemSink, AllocError>
        ensures taken { IfOk result (λ s. sink_taken s ≡ []) }
        ensures faults { IfOk result (λ s. sink_faults s ≡ 0) }
        ensures calls { IfOk result (λ s. sink_calls s ≡ 0) }
        ensures failing { IfOk result (λ s. sink_failing s ≡ failing.now) }
    {
        Ok(MemSink {
            bytes: Vec::new(alloc),
            finished: 0,
            most: usize::MAX,
            failing: failing.to_vec(alloc)?,
            calls: 0,
            faults: 0,
        })
    }

    /// The same sink, which from now on takes at most `most` bytes at a call.
    pub fn in_pieces(self, most: usize) -> MemSink
        requires { 0 < most }
        ensures taken { sink_taken result ≡ sink_taken self }
        ensures faults { sink_faults result ≡ sink_faults self }
        ensures calls { sink_calls result ≡ sink_calls self }
        ensures failing { sink_failing result ≡ sink_failing self }
        ensures most { sink_most result ≡ most }
    {
        let MemSink {
            bytes,
            finished,
            most: _,
            failing,
            calls,
            faults,
        } = self;
        MemSink {
            bytes,
            finished,
            most,
            failing,
            calls,
            faults,
        }
    }

    /// The bytes that were taken.
    pub fn bytes(&self) -> &[u8]
        ensures { result.now ≡ sink_taken self.now }
    {
        &self.bytes
    }

    /// The bytes that are kept.
    pub fn kept(&self) -> &[u8]
        ensures { result.now ≡ sink_kept self.now }
    {
        &self.bytes[..self.finished]
    }

    /// How many calls have failed.
    pub fn faults(&self) -> u64
        ensures { result ≡ sink_faults self.now }
    {
        self.faults
    }
}

impl Sink for MemSink {
    ghost use Rattle.std.specs.Prelude.{true, OnOk, OnErr, is_err};
    ghost use Rattle.outside.specs.Faults.{Counts};
    ghost use Rattle.outside.specs.InMemory.{sink_taken, sink_kept, sink_faults, sink_most, sink_is_to_fail, SinkTried};
    ghost use Rattle.outside.specs.Stream.{IsPut, Appends, failed_write};

    ghost tells = { true };

    ghost taken = { sink_taken };

    ghost faults = { sink_faults };

    ghost kept = { sink_kept };

    fn write(&mut self, piece: &[u8]) -> Put
        requires { 0 < length piece.now }
        ensures bound { IsPut (length piece.now) result }
        ensures most { IsPut (sink_most self.old) result }
        ensures bytes { Appends (sink_taken self.old) (sink_taken self.new) piece.now result }
        ensures kept { sink_kept self.new ≡ sink_kept self.old }
        ensures cause { Counts (sink_faults self.old) (sink_faults self.new) (failed_write result) }
        ensures tried { SinkTried self.old self.new }
        // It fails where it is to fail.
        ensures fails { sink_is_to_fail self.old ≡ true → failed_write result ≡ true }
    {
        let call = self.calls;
        self.calls = self.calls.saturating_add(1);
        let count = piece.len().min(self.most);
        if self.failing.contains(&call) || self.bytes.extend_from_slice(&piece[..count]).is_err() {
            self.faults = self.faults.saturating_add(1);
            return Put::Failed;
        }
        Put::Took(count)
    }

    fn finish(&mut self) -> Result<(), Failed>
        ensures bytes { sink_taken self.new ≡ sink_taken self.old }
        ensures kept { OnOk result (sink_kept self.new ≡ sink_taken self.new) }
        ensures still { OnErr result (sink_kept self.new ≡ sink_kept self.old) }
        ensures cause { Counts (sink_faults self.old) (sink_faults self.new) (is_err result) }
        ensures tried { SinkTried self.old self.new }
        // It fails exactly where it is to fail.
        ensures fails { is_err result ≡ sink_is_to_fail self.old }
    {
        let call = self.calls;
        self.calls = self.calls.saturating_add(1);
        if self.failing.contains(&call) {
            self.faults = self.faults.saturating_add(1);
            return Err(Failed);
        }
        self.finished = self.bytes.len();
        Ok(())
    }
}
