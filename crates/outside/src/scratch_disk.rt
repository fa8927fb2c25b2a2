// A disk in memory for a journal that ends with its run.

ghost use Rattle.std.specs.Prelude.{◌≡◌, ◌<◌, ◌≤◌, ◌+◌, [], Ok, true, false, is_err, length, take, drop, OnOk, OnErr};
ghost use Rattle.outside.specs.Faults.{Counts};
ghost use Rattle.outside.specs.Images.{overwritten};

use crate::replayed::overwrite;
use crate::{Disk, Failed};
use std::alloc::Global;

/// A disk holds fewer bytes than these.
const LIMIT: u64 = 1 << 63;

/// A disk in memory that keeps its bytes and nothing of its past: it is gone with the process, so nobody asks what a crash might leave of it. As a disk
/// it tells nothing (`tells`); what its calls do to its bytes stands in their own clauses (docs/DECISIONS.md, entry 107). A call that fails does nothing.
pub struct ScratchDisk {
    /// What it has.
    bytes: Vec<u8>,
    /// How often a call has failed.
    faults: u64,
}

/// By hand (docs/DECISIONS.md, entry 98).
impl Drop for ScratchDisk {
    fn drop(self) {
        let ScratchDisk {
            bytes: _,
            faults: _,
        } = self;
    }
}

impl ScratchDisk {
    /// An empty disk.
    pub fn new(alloc: Global) -> ScratchDisk
        ensures bytes { result.bytes.items ≡ [] }
        ensures faults { result.faults ≡ 0 }
    {
        ScratchDisk {
            bytes: Vec::new(alloc),
            faults: 0,
        }
    }

    /// Counts a fault.
    fn fail(&mut self) -> Failed
        ensures bytes { self.new.bytes.items ≡ self.old.bytes.items }
        ensures count { Counts self.old.faults self.new.faults true }
    {
        self.faults = self.faults.saturating_add(1);
        Failed
    }
}

impl Disk for ScratchDisk {
    ghost use Rattle.std.specs.Prelude.{false, [], refl};
    ghost use Rattle.outside.specs.Images.{resting};
    ghost use Rattle.outside.specs.Lemmas.SeenIsImage.{rests};

    ghost tells = { false };

    ghost past = { λ _. [] };

    ghost now = { λ _. resting [] };

    ghost ticks = { λ _. 0 };

    ghost count = { λ d. d.faults };

    ghost ticks_is = { λ _ _. refl };

    ghost seen_is_image = { λ _ _. rests [] };

    /// How many bytes it has.
    fn size(&mut self) -> Result<u64, Failed>
        ensures size { result ≡ Ok (length self.old.bytes.items) }
        ensures bytes { self.new.bytes.items ≡ self.old.bytes.items }
        ensures cause { Counts self.old.faults self.new.faults (is_err result) }
    {
        Ok(self.bytes.len() as u64)
    }

    /// Reads the bytes from a place on into the whole buffer. The one error is that there are too few.
    fn read_at(&mut self, at: u64, buf: &mut [u8]) -> Result<(), Failed>
        ensures read { OnOk result (buf.new ≡ take (length buf.old) (drop at self.old.bytes.items)) }
        ensures short { OnErr result (length self.old.bytes.items < at + length buf.old) }
        ensures bytes { self.new.bytes.items ≡ self.old.bytes.items }
        ensures cause { Counts self.old.faults self.new.faults (is_err result) }
    {
        let held = self.bytes.len() as u64;
        if at > held || buf.len() as u64 > held - at {
            return Err(self.fail());
        }
        let at = at as usize;
        let end = at + buf.len();
        buf.copy_from_slice(&self.bytes[at..end]);
        Ok(())
    }

    /// Writes bytes from a place on, over what was there, and past the end. The errors are a place behind the end, want of memory, and 2^63 bytes.
    fn write_at(&mut self, at: u64, bytes: &[u8]) -> Result<(), Failed>
        ensures written { OnOk result (self.new.bytes.items ≡ overwritten at bytes.now self.old.bytes.items) }
        ensures there { OnOk result (at ≤ length self.old.bytes.items) }
        ensures failed { OnErr result (self.new.bytes.items ≡ self.old.bytes.items) }
        ensures cause { Counts self.old.faults self.new.faults (is_err result) }
    {
        if at > self.bytes.len() as u64 || bytes.len() as u64 >= LIMIT - at {
            return Err(self.fail());
        }
        if overwrite(&mut self.bytes, at, bytes).is_err() {
            return Err(self.fail());
        }
        Ok(())
    }

    /// Takes away the bytes from this size on.
    fn cut(&mut self, size: u64) -> Result<(), Failed>
        ensures cut { OnOk result (self.new.bytes.items ≡ take size self.old.bytes.items) }
        ensures there { is_err result ≡ false }
        ensures cause { Counts self.old.faults self.new.faults (is_err result) }
    {
        if size < self.bytes.len() as u64 {
            self.bytes.truncate(size as usize);
        }
        Ok(())
    }

    /// Does nothing: what it has is there as long as it is.
    fn sync(&mut self) -> Result<(), Failed>
        ensures bytes { self.new.bytes.items ≡ self.old.bytes.items }
        ensures synced { is_err result ≡ false }
        ensures cause { Counts self.old.faults self.new.faults (is_err result) }
    {
        Ok(())
    }

    fn clock(&self) -> u64 {
        0
    }

    fn faults(&self) -> u64 {
        self.faults
    }
}
