// A disk, with what a crash may leave at each moment.
ghost use Rattle.std.specs.Prelude.{◌≡◌, ◌+◌, ◌≤◌, ◌++◌, [], ◌∷◌, List, ℕ, Bool, true, length, take, drop, IfOk, OnOk, OnErr, is_err};
ghost use Rattle.outside.specs.Faults.{Counts};
ghost use Rattle.outside.specs.Images.{IsImage, moment_after_write, moment_after_cut, moment_after_sync, NoMomentPasses, OneMomentPasses, Fails};

use crate::{Failed, Moment};

/// A place for bytes that outlives a crash.
///
/// Its time is a list of moments, of which each write, cut and sync that succeeds adds one. A crash between two calls
/// leaves an image of the moment then, and a crash inside a call an image of the moment before it or after it. A call
/// that fails may have done all, part or nothing of its work.
pub trait Disk {
    ghost use Rattle.outside.specs.declared.moment.Moment.{Moment};

    /// Whether disks of this kind tell their content, and what a crash may leave (docs/DECISIONS.md, entry 5).
    ghost tells: { Bool };

    /// The moments before this one, the oldest first. No call takes one away or changes one.
    ghost past: { Self → List Moment };

    /// The moment now.
    ghost now: { Self → Moment };

    /// What the clock tells: the number of moments that went by, where the disk tells them.
    ghost ticks: { Self → ℕ };

    /// How often a call has failed.
    ghost count: { Self → ℕ };

    /// How many bytes a read can give.
    fn size(&mut self) -> Result<u64, Failed>
        ensures told { tells ≡ true → IfOk result (λ n. n ≡ length (now self.old).seen) }
        ensures stands { NoMomentPasses (past self.old) (now self.old) (past self.new) (now self.new) }
        ensures clock { ticks self.new ≡ ticks self.old }
        ensures cause { Counts (count self.old) (count self.new) (is_err result) };

    /// Reads the bytes from a place on into the whole buffer, which lies within the size.
    fn read_at(&mut self, at: u64, buf: &mut [u8]) -> Result<(), Failed>
        requires { tells ≡ true → at + length buf.old ≤ length (now self.old).seen }
        ensures told { tells ≡ true → OnOk result (buf.new ≡ take (length buf.old) (drop at (now self.old).seen)) }
        ensures stands { NoMomentPasses (past self.old) (now self.old) (past self.new) (now self.new) }
        ensures clock { ticks self.new ≡ ticks self.old }
        ensures cause { Counts (count self.old) (count self.new) (is_err result) };

    /// Writes bytes from a place on, which is at most the size, over what was there, and past the end. A disk has fewer
    /// than 2^63 bytes: a write past that fails.
    fn write_at(&mut self, at: u64, bytes: &[u8]) -> Result<(), Failed>
        requires { tells ≡ true → at ≤ length (now self.old).seen }
        ensures done { tells ≡ true → OnOk result (OneMomentPasses (past self.old) (now self.old) (past self.new) (now self.new) (moment_after_write at bytes.now (now self.old))) }
        ensures failed { tells ≡ true → OnErr result (Fails (past self.old) (now self.old) (past self.new) (now self.new) (moment_after_write at bytes.now (now self.old))) }
        ensures cause { Counts (count self.old) (count self.new) (is_err result) };

    /// Takes away the bytes from this size on, which is at most the disk's.
    fn cut(&mut self, size: u64) -> Result<(), Failed>
        requires { tells ≡ true → size ≤ length (now self.old).seen }
        ensures done { tells ≡ true → OnOk result (OneMomentPasses (past self.old) (now self.old) (past self.new) (now self.new) (moment_after_cut size (now self.old))) }
        ensures failed { tells ≡ true → OnErr result (Fails (past self.old) (now self.old) (past self.new) (now self.new) (moment_after_cut size (now self.old))) }
        ensures cause { Counts (count self.old) (count self.new) (is_err result) };

    /// After a sync that succeeds a crash leaves what a read gives. Also one that fails changes nothing of what a read
    /// gives.
    fn sync(&mut self) -> Result<(), Failed>
        ensures done { tells ≡ true → OnOk result (OneMomentPasses (past self.old) (now self.old) (past self.new) (now self.new) (moment_after_sync (now self.old))) }
        ensures failed { tells ≡ true → OnErr result (Fails (past self.old) (now self.old) (past self.new) (now self.new) (moment_after_sync (now self.old))) }
        ensures seen { tells ≡ true → (now self.new).seen ≡ (now self.old).seen }
        ensures cause { Counts (count self.old) (count self.new) (is_err result) };

    /// The clock's number.
    fn clock(&self) -> u64
        ensures { result ≡ ticks self.now };

    /// How often a call has failed.
    fn faults(&self) -> u64
        ensures { result ≡ count self.now };

    /// The clock's number is that of the moments before.
    ghost ticks_is: { (disk : Self) → tells ≡ true → ticks disk ≡ length (past disk) };

    /// What a read gives is one of the images.
    ghost seen_is_image: { (disk : Self) → tells ≡ true → IsImage (now disk) (now disk).seen };
}
