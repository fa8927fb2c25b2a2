// A disk that reads as a journal is made into one whose end is a closed gate, and which is on the disk whole.
ghost use Rattle.std.specs.Prelude.{◌≡◌, ◌+◌, ◌<◌, ◌^◌, ◌≤◌, ◌++◌, [], ◌∷◌, List, ℕ, true, length, take, OnOk, OnErr, is_err};
ghost use Rattle.outside.specs.Faults.{Counts};
ghost use Rattle.outside.specs.Images.{LeavesOnly, OneMomentPasses, Fails, resting, moment_after_sync};
ghost use Rattle.node_journal.specs.Gate.{IsBefore};
ghost use Rattle.node_journal.specs.Repairs.{IsPrefixAndOne};
ghost use Rattle.node_journal.specs.Records.{records, Intact, mark};
ghost use Rattle.node_journal.specs.Frames.{file_of, end_of};
ghost use Rattle.node_journal.specs.History.{SomeFrom, Anything};
ghost use Rattle.node_journal.specs.Index.{EndsAt};
ghost use Rattle.node_journal.specs.Views.{payloads_of, IsScanOf};

use crate::Scanned;
use crate::scanned::EMPTY;
use outside::{Disk, Failed};

/// Writes the mark and a closed gate over a disk of at most 9 bytes.
fn renew<D: Disk>(disk: &mut D) -> Result<(), Failed>
    requires rest { D.tells ≡ true → D.now disk.old ≡ resting (D.now disk.old).seen }
    requires short { D.tells ≡ true → length (D.now disk.old).seen ≤ 9 }
    ensures done { D.tells ≡ true → OnOk result (D.now disk.new ≡ resting (file_of [])) }
    ensures any_moment { D.tells ≡ true → LeavesOnly (D.past disk.old) (D.now disk.old) (D.past disk.new) (D.now disk.new) (λ c. length c ≤ 9) }
    ensures offers { D.tells ≡ true → SomeFrom (length (D.past disk.old)) (D.past disk.new) Anything }
    ensures cause { Counts (D.count disk.old) (D.count disk.new) (is_err result) }
{
    disk.write_at(0, &EMPTY)?;
    disk.sync()?;
    Ok(())
}

/// Waits until a cut is on the disk: only then may the gate in front of it be written.
fn sync_cut<D: Disk>(disk: &mut D) -> Result<(), Failed>
    ensures done { D.tells ≡ true → OnOk result (OneMomentPasses (D.past disk.old) (D.now disk.old) (D.past disk.new) (D.now disk.new) (moment_after_sync (D.now disk.old))) }
    ensures failed { D.tells ≡ true → OnErr result (Fails (D.past disk.old) (D.now disk.old) (D.past disk.new) (D.now disk.new) (moment_after_sync (D.now disk.old))) }
    ensures cause { Counts (D.count disk.old) (D.count disk.new) (is_err result) }
{
    disk.sync()?; // the cut
    Ok(())
}

/// Takes away what stands behind a closed gate.
fn cut_behind<D: Disk>(disk: &mut D, end: u64) -> Result<(), Failed>
    requires rest { D.tells ≡ true → D.now disk.old ≡ resting (D.now disk.old).seen }
    requires within { D.tells ≡ true → end + 1 ≤ length (D.now disk.old).seen }
    requires small { end < 2 ^ 63 }
    ensures done { D.tells ≡ true → OnOk result (D.now disk.new ≡ resting (take (end + 1) (D.now disk.old).seen)) }
    ensures any_moment { D.tells ≡ true → LeavesOnly (D.past disk.old) (D.now disk.old) (D.past disk.new) (D.now disk.new) (IsBefore (take (end + 1) (D.now disk.old).seen)) }
    ensures offers { D.tells ≡ true → SomeFrom (length (D.past disk.old)) (D.past disk.new) Anything }
    ensures cause { Counts (D.count disk.old) (D.count disk.new) (is_err result) }
{
    disk.cut(end + 1)?;
    sync_cut(disk)?;
    Ok(())
}

/// Writes a closed gate at the end, in the place of the last byte or behind it.
fn shut<D: Disk>(disk: &mut D, end: u64) -> Result<(), Failed>
    requires rest { D.tells ≡ true → D.now disk.old ≡ resting (D.now disk.old).seen }
    requires within { D.tells ≡ true → end ≤ length (D.now disk.old).seen }
    requires last { D.tells ≡ true → length (D.now disk.old).seen ≤ end + 1 }
    ensures done { D.tells ≡ true → OnOk result (D.now disk.new ≡ resting (take end (D.now disk.old).seen ++ 0 ∷ [])) }
    ensures any_moment { D.tells ≡ true → LeavesOnly (D.past disk.old) (D.now disk.old) (D.past disk.new) (D.now disk.new) (IsPrefixAndOne (take end (D.now disk.old).seen)) }
    ensures offers { D.tells ≡ true → SomeFrom (length (D.past disk.old)) (D.past disk.new) Anything }
    ensures cause { Counts (D.count disk.old) (D.count disk.new) (is_err result) }
{
    disk.write_at(end, &[0])?;
    disk.sync()?;
    Ok(())
}

/// Takes away what stands behind the closed gate at the end of the payloads, where there is something.
fn trim<D: Disk>(disk: &mut D, scanned: &Scanned) -> Result<(), Failed>
    requires rest { D.tells ≡ true → D.now disk.old ≡ resting (D.now disk.old).seen }
    requires sized { D.tells ≡ true → scanned.now.size ≡ length (D.now disk.old).seen }
    requires ends { D.tells ≡ true → EndsAt (D.now disk.old).seen (payloads_of scanned.now) (end_of (payloads_of scanned.now)) }
    ensures done { D.tells ≡ true → OnOk result (D.now disk.new ≡ resting (take (end_of (payloads_of scanned.now) + 1) (D.now disk.old).seen)) }
    ensures any_moment { D.tells ≡ true → LeavesOnly (D.past disk.old) (D.now disk.old) (D.past disk.new) (D.now disk.new) (λ c. records c ≡ Intact (payloads_of scanned.now)) }
    ensures offers { D.tells ≡ true → SomeFrom (length (D.past disk.old)) (D.past disk.new) Anything }
    ensures cause { Counts (D.count disk.old) (D.count disk.new) (is_err result) }
{
    let end = scanned.end();
    if end + 1 < scanned.size {
        return cut_behind(disk, end);
    }
    Ok(())
}

/// Makes the end of a disk of more than 9 bytes a closed gate. The cut has to be on the disk before the gate is written:
/// behind a gate that is torn open, what stood there would count.
fn repair_end<D: Disk>(disk: &mut D, scanned: &Scanned) -> Result<(), Failed>
    requires rest { D.tells ≡ true → D.now disk.old ≡ resting (D.now disk.old).seen }
    requires sized { D.tells ≡ true → scanned.now.size ≡ length (D.now disk.old).seen }
    requires ends { D.tells ≡ true → EndsAt (D.now disk.old).seen (payloads_of scanned.now) (end_of (payloads_of scanned.now)) }
    ensures done { D.tells ≡ true → OnOk result (D.now disk.new ≡ resting (file_of (payloads_of scanned.now))) }
    ensures any_moment { D.tells ≡ true → LeavesOnly (D.past disk.old) (D.now disk.old) (D.past disk.new) (D.now disk.new) (λ c. records c ≡ Intact (payloads_of scanned.now)) }
    ensures offers { D.tells ≡ true → SomeFrom (length (D.past disk.old)) (D.past disk.new) Anything }
    ensures cause { Counts (D.count disk.old) (D.count disk.new) (is_err result) }
{
    trim(disk, scanned)?;
    shut(disk, scanned.end())?;
    Ok(())
}

/// Makes a disk at rest the file of the payloads that a scan found on it.
pub fn repair<D: Disk>(disk: &mut D, scanned: &Scanned) -> Result<(), Failed>
    requires rest { D.tells ≡ true → D.now disk.old ≡ resting (D.now disk.old).seen }
    requires scanned { D.tells ≡ true → IsScanOf (D.now disk.old).seen scanned.now }
    ensures done { D.tells ≡ true → OnOk result (D.now disk.new ≡ resting (file_of (payloads_of scanned.now))) }
    ensures any_moment { D.tells ≡ true → LeavesOnly (D.past disk.old) (D.now disk.old) (D.past disk.new) (D.now disk.new) (λ c. records c ≡ Intact (payloads_of scanned.now)) }
    ensures offers { D.tells ≡ true → SomeFrom (length (D.past disk.old)) (D.past disk.new) Anything }
    ensures cause { Counts (D.count disk.old) (D.count disk.new) (is_err result) }
{
    if scanned.size <= 9 {
        renew(disk)?;
        return Ok(());
    }
    repair_end(disk, scanned)?;
    Ok(())
}
