// A frame behind the gate at the end, and then the gate.
ghost use Rattle.std.specs.Prelude.{◌≡◌, ◌+◌, ◌<◌, ◌^◌, ◌++◌, [], ◌∷◌, true, length, take, OnOk, OnErr, is_err};
ghost use Rattle.outside.specs.Faults.{Counts};
ghost use Rattle.outside.specs.Images.{LeavesOnly, OneMomentPasses, Fails, resting, moment_after_sync};
ghost use Rattle.node_journal.specs.Gate.{IsBefore, IsBeforeOrWith, IsOpened};
ghost use Rattle.node_journal.specs.History.{SomeFrom, RemainsFrom};

use outside::{Disk, Failed};

/// Waits until a frame is on the disk: only then may its gate be opened.
fn sync_frame<D: Disk>(disk: &mut D) -> Result<(), Failed>
    ensures done { D.tells ≡ true → OnOk result (OneMomentPasses (D.past disk.old) (D.now disk.old) (D.past disk.new) (D.now disk.new) (moment_after_sync (D.now disk.old))) }
    ensures failed { D.tells ≡ true → OnErr result (Fails (D.past disk.old) (D.now disk.old) (D.past disk.new) (D.now disk.new) (moment_after_sync (D.now disk.old))) }
    ensures seen { D.tells ≡ true → (D.now disk.new).seen ≡ (D.now disk.old).seen }
    ensures cause { Counts (D.count disk.old) (D.count disk.new) (is_err result) }
{
    disk.sync()?; // the frame
    Ok(())
}

/// Waits until an open gate is on the disk: only then may its payload be acknowledged.
fn sync_gate<D: Disk>(disk: &mut D) -> Result<(), Failed>
    ensures done { D.tells ≡ true → OnOk result (OneMomentPasses (D.past disk.old) (D.now disk.old) (D.past disk.new) (D.now disk.new) (moment_after_sync (D.now disk.old))) }
    ensures failed { D.tells ≡ true → OnErr result (Fails (D.past disk.old) (D.now disk.old) (D.past disk.new) (D.now disk.new) (moment_after_sync (D.now disk.old))) }
    ensures seen { D.tells ≡ true → (D.now disk.new).seen ≡ (D.now disk.old).seen }
    ensures cause { Counts (D.count disk.old) (D.count disk.new) (is_err result) }
{
    disk.sync()?; // the gate
    Ok(())
}

/// Writes behind the closed gate at the end of a disk at rest, and opens the gate once that is on the disk.
pub fn open_behind<D: Disk>(disk: &mut D, end: u64, frame: &[u8]) -> Result<(), Failed>
    requires rest { D.tells ≡ true → D.now disk.old ≡ resting (D.now disk.old).seen }
    requires end { D.tells ≡ true → length (D.now disk.old).seen ≡ end + 1 }
    requires small { end < 2 ^ 63 }
    ensures done { D.tells ≡ true → OnOk result (D.now disk.new ≡ resting (take end (D.now disk.old).seen ++ 1 ∷ frame.now)) }
    ensures any_moment { D.tells ≡ true → LeavesOnly (D.past disk.old) (D.now disk.old) (D.past disk.new) (D.now disk.new) (IsBeforeOrWith (D.now disk.old).seen end frame.now) }
    // Until the last call is done a crash can leave the bytes from before.
    ensures before { D.tells ≡ true → SomeFrom (length (D.past disk.old)) (D.past disk.new) (IsBefore (D.now disk.old).seen) }
    // Where some crash leaves the open gate, some crash at each later moment does.
    ensures remains { D.tells ≡ true → RemainsFrom (length (D.past disk.old)) (D.past disk.new ++ D.now disk.new ∷ []) (IsOpened (D.now disk.old).seen end frame.now) }
    ensures cause { Counts (D.count disk.old) (D.count disk.new) (is_err result) }
{
    disk.write_at(end + 1, frame)?;
    sync_frame(disk)?;
    disk.write_at(end, &[1])?;
    sync_gate(disk)?;
    Ok(())
}
