// A disk in memory, for tests. It keeps what it had at first and each call, and tells from these what a crash might leave.
ghost use Rattle.std.specs.Prelude.{◌≡◌, ◌+◌, ◌^◌, ◌<◌, ◌≤◌, ◌++◌, [], ◌∷◌, List, ℕ, true, length, take, drop, OnOk, OnErr, IfOk, Some, None};
ghost use Rattle.outside.specs.Faults.{Counts};
ghost use Rattle.outside.specs.Replay.{replay, moments};
ghost use Rattle.outside.specs.Images.{IsImage, resting, overwritten, moment_after_write, moment_after_cut, moment_after_sync, NoMomentPasses, OneMomentPasses};

use crate::replayed::{Replayed, overwrite};
use crate::{Disk, Failed};
use std::alloc::{AllocError, Global};

/// A disk holds fewer bytes than these.
const LIMIT: u64 = 1 << 63;

/// A call of a disk in memory that succeeded and let a moment go by.
#[derive(Drop)]
pub enum Call {
    /// These bytes were written from this place on.
    Write(u64, Vec<u8>),
    /// The disk was cut to this size.
    Cut(u64),
    /// What was written is kept from now on.
    Sync,
}

/// A disk in memory, which tells all. Its calls are counted from 0, `clock` and `faults` apart. It fails at the calls
/// that are listed, from the call on at which it is to stop, and for want of memory. A call that fails does nothing.
pub struct MemDisk {
    alloc: Global,
    first: Vec<u8>,
    calls: Vec<Call>,
    bytes: Vec<u8>,
    failing: Vec<u64>,
    stop: Option<u64>,
    tried: u64,
    faults: u64,
    ghost replays: { bytes.items ≡ (replay (resting first.items) calls.items).seen },
}

/// By hand (docs/DECISIONS.md, entry 98).
impl Drop for MemDisk {
    fn drop(self) {
        let MemDisk {
            alloc: _,
            first: _,
            calls: _,
            bytes: _,
            failing: _,
            stop: _,
            tried: _,
            faults: _,
        } = self;
    }
}

/// Writes over the bytes and notes the call, or does neither.
fn note_write(
    alloc: Global,
    bytes: &mut Vec<u8>,
    calls: &mut Vec<Call>,
    at: u64,
    more: &[u8],
) -> Result<(), AllocError>
    ensures ok { OnOk result (bytes.new.items ≡ overwritten at more.now bytes.old.items) }
    ensures calls { OnOk result ((v : _) × (v.items ≡ more.now) × (calls.new.items ≡ calls.old.items ++ Call.Write at v ∷ [])) }
    ensures err { OnErr result ((bytes.new.items ≡ bytes.old.items) × (calls.new.items ≡ calls.old.items)) }
{
    let copy = more.to_vec(alloc)?;
    calls.reserve(1)?;
    overwrite(bytes, at, more)?;
    calls.push(Call::Write(at, copy))?;
    Ok(())
}

impl MemDisk {
    ghost use Rattle.outside.specs.OnDisk.{disk_past, disk_now, disk_ticks, disk_count, disk_failing, disk_stop, disk_calls, disk_is_to_fail, DiskTried};

    /// An empty disk, of which no call is to fail.
    pub fn new(alloc: Global) -> MemDisk
        ensures past { disk_past result ≡ [] }
        ensures now { disk_now result ≡ resting [] }
        ensures faults { disk_count result ≡ 0 }
        ensures calls { disk_calls result ≡ 0 }
        ensures failing { disk_failing result ≡ [] }
        ensures stop { disk_stop result ≡ None }
    {
        MemDisk {
            alloc,
            first: Vec::new(alloc),
            calls: Vec::new(alloc),
            bytes: Vec::new(alloc),
            failing: Vec::new(alloc),
            stop: None,
            tried: 0,
            faults: 0,
        }
    }

    /// A disk at rest with these bytes, of which no call is to fail.
    pub fn from_bytes(alloc: Global, bytes: &[u8]) -> Result<MemDisk, AllocError>
        ensures past { IfOk result (λ d. disk_past d ≡ []) }
        ensures now { IfOk result (λ d. disk_now d ≡ resting bytes.now) }
        ensures faults { IfOk result (λ d. disk_count d ≡ 0) }
        ensures calls { IfOk result (λ d. disk_calls d ≡ 0) }
        ensures failing { IfOk result (λ d. disk_failing d ≡ []) }
        ensures stop { IfOk result (λ d. disk_stop d ≡ None) }
    {
        MemDisk::make(alloc, bytes, &[], None)
    }

    /// A disk at rest with these bytes that fails at the calls listed.
    pub fn failing(alloc: Global, bytes: &[u8], failing: &[u64]) -> Result<MemDisk, AllocError>
        ensures past { IfOk result (λ d. disk_past d ≡ []) }
        ensures now { IfOk result (λ d. disk_now d ≡ resting bytes.now) }
        ensures faults { IfOk result (λ d. disk_count d ≡ 0) }
        ensures calls { IfOk result (λ d. disk_calls d ≡ 0) }
        ensures failing { IfOk result (λ d. disk_failing d ≡ failing.now) }
        ensures stop { IfOk result (λ d. disk_stop d ≡ None) }
    {
        MemDisk::make(alloc, bytes, failing, None)
    }

    /// A disk at rest with these bytes that stops at this call: it and each later one fail, and do nothing.
    pub fn stopping_at(alloc: Global, bytes: &[u8], call: u64) -> Result<MemDisk, AllocError>
        ensures past { IfOk result (λ d. disk_past d ≡ []) }
        ensures now { IfOk result (λ d. disk_now d ≡ resting bytes.now) }
        ensures faults { IfOk result (λ d. disk_count d ≡ 0) }
        ensures calls { IfOk result (λ d. disk_calls d ≡ 0) }
        ensures failing { IfOk result (λ d. disk_failing d ≡ []) }
        ensures stop { IfOk result (λ d. disk_stop d ≡ Some call) }
    {
        MemDisk::make(alloc, bytes, &[], Some(call))
    }

    fn make(
        alloc: Global,
        bytes: &[u8],
        failing: &[u64],
        stop: Option<u64>,
    ) -> Result<MemDisk, AllocError>
        ensures past { IfOk result (λ d. disk_past d ≡ []) }
        ensures now { IfOk result (λ d. disk_now d ≡ resting bytes.now) }
        ensures faults { IfOk result (λ d. disk_count d ≡ 0) }
        ensures calls { IfOk result (λ d. disk_calls d ≡ 0) }
        ensures failing { IfOk result (λ d. disk_failing d ≡ failing.now) }
        ensures stop { IfOk result (λ d. disk_stop d ≡ stop) }
    {
        Ok(MemDisk {
            alloc,
            first: bytes.to_vec(alloc)?,
            calls: Vec::new(alloc),
            bytes: bytes.to_vec(alloc)?,
            failing: failing.to_vec(alloc)?,
            stop,
            tried: 0,
            faults: 0,
        })
    }

    /// What a read gives.
    pub fn bytes(&self) -> &[u8]
        ensures { result.now ≡ (disk_now self.now).seen }
    {
        &self.bytes
    }

    /// How many calls were tried.
    pub fn calls(&self) -> u64
        ensures { result ≡ disk_calls self.now }
    {
        self.tried
    }

    /// What a read gave at the last sync that succeeded, or at first.
    pub fn kept(&self, alloc: Global) -> Result<Vec<u8>, AllocError>
        ensures { IfOk result (λ v. v.items ≡ (disk_now self.now).kept) }
    {
        let now = Replayed::new(alloc, &self.first, &self.calls)?;
        Ok(now.kept)
    }

    /// What a crash now might leave that is closest to these bytes: a byte that is free is taken from them (0 where they
    /// end), each other one stands, and the length is theirs or the closest that a crash may leave.
    pub fn image(&self, alloc: Global, wish: &[u8]) -> Result<Vec<u8>, AllocError>
        // What it hands out is an image,
        ensures image { IfOk result (λ v. IsImage (disk_now self.now) v.items) }
        // and it hands out each image that is asked for.
        ensures each { IfOk result (λ v. IsImage (disk_now self.now) wish.now → v.items ≡ wish.now) }
    {
        let now = Replayed::new(alloc, &self.first, &self.calls)?;
        now.image(alloc, wish)
    }

    /// Counts a call, and tells whether it is to fail.
    fn turn_fails(&mut self) -> bool
        ensures fails { result ≡ disk_is_to_fail self.old }
        ensures tried { DiskTried self.old self.new }
        ensures past { disk_past self.new ≡ disk_past self.old }
        ensures now { disk_now self.new ≡ disk_now self.old }
        ensures ticks { disk_ticks self.new ≡ disk_ticks self.old }
        ensures count { disk_count self.new ≡ disk_count self.old }
    {
        let call = self.tried;
        self.tried = self.tried.saturating_add(1);
        let stopped = match self.stop {
            Some(stop) => stop <= call,
            None => false,
        };
        stopped || self.failing.contains(&call)
    }

    /// Counts a fault.
    fn fail(&mut self) -> Failed
        ensures calls { disk_calls self.new ≡ disk_calls self.old }
        ensures failing { disk_failing self.new ≡ disk_failing self.old }
        ensures stop { disk_stop self.new ≡ disk_stop self.old }
        ensures past { disk_past self.new ≡ disk_past self.old }
        ensures now { disk_now self.new ≡ disk_now self.old }
        ensures ticks { disk_ticks self.new ≡ disk_ticks self.old }
        ensures count { Counts (disk_count self.old) (disk_count self.new) true }
    {
        self.faults = self.faults.saturating_add(1);
        Failed
    }
}

impl Disk for MemDisk {
    ghost use Rattle.std.specs.Prelude.{true, is_err};
    ghost use Rattle.outside.specs.OnDisk.{disk_past, disk_now, disk_ticks, disk_count, disk_is_to_fail, DiskTried};
    ghost use Rattle.outside.specs.Lemmas.OnDisk.{ticks_are, seen_is};

    ghost tells = { true };

    ghost past = { disk_past };

    ghost now = { disk_now };

    ghost ticks = { disk_ticks };

    ghost count = { disk_count };

    ghost ticks_is = { λ d told. ticks_are d };

    ghost seen_is_image = { λ d told. seen_is d };

    fn size(&mut self) -> Result<u64, Failed>
        ensures told { IfOk result (λ n. n ≡ length (disk_now self.old).seen) }
        ensures stands { NoMomentPasses (disk_past self.old) (disk_now self.old) (disk_past self.new) (disk_now self.new) }
        ensures clock { disk_ticks self.new ≡ disk_ticks self.old }
        ensures cause { Counts (disk_count self.old) (disk_count self.new) (is_err result) }
        ensures tried { DiskTried self.old self.new }
        // It fails exactly where it is to fail.
        ensures fails { is_err result ≡ disk_is_to_fail self.old }
    {
        if self.turn_fails() {
            return Err(self.fail());
        }
        Ok(self.bytes.len() as u64)
    }

    fn read_at(&mut self, at: u64, buf: &mut [u8]) -> Result<(), Failed>
        requires { at + length buf.old ≤ length (disk_now self.old).seen }
        ensures told { OnOk result (buf.new ≡ take (length buf.old) (drop at (disk_now self.old).seen)) }
        ensures stands { NoMomentPasses (disk_past self.old) (disk_now self.old) (disk_past self.new) (disk_now self.new) }
        ensures clock { disk_ticks self.new ≡ disk_ticks self.old }
        ensures cause { Counts (disk_count self.old) (disk_count self.new) (is_err result) }
        ensures tried { DiskTried self.old self.new }
        // It fails exactly where it is to fail.
        ensures fails { is_err result ≡ disk_is_to_fail self.old }
    {
        if self.turn_fails() {
            return Err(self.fail());
        }
        let at = at as usize;
        let end = at + buf.len();
        buf.copy_from_slice(&self.bytes[at..end]);
        Ok(())
    }

    #[tactic(auto, using(crate::specs::Lemmas::Replay::replay_push, crate::specs::Lemmas::Replay::moments_push))]
    fn write_at(&mut self, at: u64, bytes: &[u8]) -> Result<(), Failed>
        requires { at ≤ length (disk_now self.old).seen }
        ensures done { OnOk result (OneMomentPasses (disk_past self.old) (disk_now self.old) (disk_past self.new) (disk_now self.new) (moment_after_write at bytes.now (disk_now self.old))) }
        ensures failed { OnErr result (NoMomentPasses (disk_past self.old) (disk_now self.old) (disk_past self.new) (disk_now self.new)) }
        ensures cause { Counts (disk_count self.old) (disk_count self.new) (is_err result) }
        ensures tried { DiskTried self.old self.new }
        // It fails where it is to fail.
        ensures fails { disk_is_to_fail self.old ≡ true → is_err result ≡ true }
        // It fails where the disk would have 2^63 bytes.
        ensures full { 2 ^ 63 ≤ at + length bytes.now → is_err result ≡ true }
    {
        if self.turn_fails() {
            return Err(self.fail());
        }
        if bytes.len() as u64 >= LIMIT - at {
            return Err(self.fail());
        }
        if note_write(self.alloc, &mut self.bytes, &mut self.calls, at, bytes).is_err() {
            return Err(self.fail());
        }
        Ok(())
    }

    #[tactic(auto, using(crate::specs::Lemmas::Replay::replay_push, crate::specs::Lemmas::Replay::moments_push))]
    fn cut(&mut self, size: u64) -> Result<(), Failed>
        requires { size ≤ length (disk_now self.old).seen }
        ensures done { OnOk result (OneMomentPasses (disk_past self.old) (disk_now self.old) (disk_past self.new) (disk_now self.new) (moment_after_cut size (disk_now self.old))) }
        ensures failed { OnErr result (NoMomentPasses (disk_past self.old) (disk_now self.old) (disk_past self.new) (disk_now self.new)) }
        ensures cause { Counts (disk_count self.old) (disk_count self.new) (is_err result) }
        ensures tried { DiskTried self.old self.new }
        // It fails where it is to fail.
        ensures fails { disk_is_to_fail self.old ≡ true → is_err result ≡ true }
    {
        if self.turn_fails() {
            return Err(self.fail());
        }
        if self.calls.push(Call::Cut(size)).is_err() {
            return Err(self.fail());
        }
        self.bytes.truncate(size as usize);
        Ok(())
    }

    #[tactic(auto, using(crate::specs::Lemmas::Replay::replay_push, crate::specs::Lemmas::Replay::moments_push))]
    fn sync(&mut self) -> Result<(), Failed>
        ensures done { OnOk result (OneMomentPasses (disk_past self.old) (disk_now self.old) (disk_past self.new) (disk_now self.new) (moment_after_sync (disk_now self.old))) }
        ensures failed { OnErr result (NoMomentPasses (disk_past self.old) (disk_now self.old) (disk_past self.new) (disk_now self.new)) }
        ensures seen { (disk_now self.new).seen ≡ (disk_now self.old).seen }
        ensures cause { Counts (disk_count self.old) (disk_count self.new) (is_err result) }
        ensures tried { DiskTried self.old self.new }
        // It fails where it is to fail.
        ensures fails { disk_is_to_fail self.old ≡ true → is_err result ≡ true }
    {
        if self.turn_fails() {
            return Err(self.fail());
        }
        if self.calls.push(Call::Sync).is_err() {
            return Err(self.fail());
        }
        Ok(())
    }

    fn clock(&self) -> u64 {
        self.calls.len() as u64
    }

    fn faults(&self) -> u64 {
        self.faults
    }
}
