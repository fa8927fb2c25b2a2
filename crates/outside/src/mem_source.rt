// A source in memory, for tests.
ghost use Rattle.std.specs.Prelude.{◌≡◌, ◌<◌, ◌≤◌, ℕ, List, [], length, IfOk};

use crate::{Got, Source};
use std::alloc::{AllocError, Global};

/// A source in memory, which tells all. It gives at most `most` bytes at a call, and fails at the calls that are
/// listed, counted from 0.
pub struct MemSource {
    bytes: Vec<u8>,
    at: usize,
    most: usize,
    failing: Vec<u64>,
    calls: u64,
    faults: u64,
    ghost within: { at ≤ length bytes.items },
    ghost some: { 0 < most },
}

/// By hand (docs/DECISIONS.md, entry 98).
impl Drop for MemSource {
    fn drop(self) {
        let MemSource {
            bytes: _,
            at: _,
            most: _,
            failing: _,
            calls: _,
            faults: _,
        } = self;
    }
}

impl MemSource {
    ghost use Rattle.outside.specs.InMemory.{source_left, source_faults, source_failing, source_calls, source_most};

    /// A source of these bytes, of which no call fails.
    pub fn new(alloc: Global, bytes: &[u8]) -> Result<MemSource, AllocError>
        ensures left { IfOk result (λ s. source_left s ≡ bytes.now) }
        ensures faults { IfOk result (λ s. source_faults s ≡ 0) }
        ensures calls { IfOk result (λ s. source_calls s ≡ 0) }
        ensures failing { IfOk result (λ s. source_failing s ≡ []) }
    {
        MemSource::failing(alloc, bytes, &[])
    }

    /// A source of these bytes that fails at the calls listed.
    pub fn failing(alloc: Global, bytes: &[u8], failing: &[u64]) -> Result<MemSource, AllocError>
        ensures left { IfOk result (λ s. source_left s ≡ bytes.now) }
        ensures faults { IfOk result (λ s. source_faults s ≡ 0) }
        ensures calls { IfOk result (λ s. source_calls s ≡ 0) }
        ensures failing { IfOk result (λ s. source_failing s ≡ failing.now) }
    {
        Ok(MemSource {
            bytes: bytes.to_vec(alloc)?,
            at: 0,
            most: usize::MAX,
            failing: failing.to_vec(alloc)?,
            calls: 0,
            faults: 0,
        })
    }

    /// The same source, which from now on gives at most `most` bytes at a call.
    pub fn in_pieces(self, most: usize) -> MemSource
        requires { 0 < most }
        ensures left { source_left result ≡ source_left self }
        ensures faults { source_faults result ≡ source_faults self }
        ensures calls { source_calls result ≡ source_calls self }
        ensures failing { source_failing result ≡ source_failing self }
        ensures most { source_most result ≡ most }
    {
        let MemSource {
            bytes,
            at,
            most: _,
            failing,
            calls,
            faults,
        } = self;
        MemSource {
            bytes,
            at,
            most,
            failing,
            calls,
            faults,
        }
    }

    /// The bytes that are left.
    pub fn left(&self) -> &[u8]
        ensures { result.now ≡ source_left self.now }
    {
        &self.bytes[self.at..]
    }

    /// How many reads have failed.
    pub fn faults(&self) -> u64
        ensures { result ≡ source_faults self.now }
    {
        self.faults
    }
}

impl Source for MemSource {
    ghost use Rattle.std.specs.Prelude.{true};
    ghost use Rattle.outside.specs.Faults.{Counts};
    ghost use Rattle.outside.specs.InMemory.{source_left, source_faults, source_most, source_is_to_fail, SourceTried};
    ghost use Rattle.outside.specs.Stream.{IsGot, ReadsFrom, failed_read};

    ghost tells = { true };

    ghost left = { source_left };

    ghost faults = { source_faults };

    fn read(&mut self, buf: &mut [u8]) -> Got
        requires { 0 < length buf.old }
        ensures bound { IsGot (length buf.new) result }
        ensures most { IsGot (source_most self.old) result }
        ensures bytes { ReadsFrom (source_left self.old) (source_left self.new) buf.new result }
        ensures cause { Counts (source_faults self.old) (source_faults self.new) (failed_read result) }
        ensures tried { SourceTried self.old self.new }
        // It fails exactly where it is to fail.
        ensures fails { failed_read result ≡ source_is_to_fail self.old }
    {
        let call = self.calls;
        self.calls = self.calls.saturating_add(1);
        if self.failing.contains(&call) {
            self.faults = self.faults.saturating_add(1);
            return Got::Failed;
        }
        let left = self.bytes.len() - self.at;
        if left == 0 {
            return Got::End;
        }
        let count = left.min(buf.len()).min(self.most);
        buf[..count].copy_from_slice(&self.bytes[self.at..self.at + count]);
        self.at += count;
        Got::Gave(count)
    }
}
