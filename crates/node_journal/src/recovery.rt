// A disk that was scanned is made the file of its payloads.
ghost use Rattle.std.specs.Prelude.{◌≡◌, ◌+◌, ◌++◌, ◌∷◌, [], None, true, length, IfOk, OnOk, is_err};
ghost use Rattle.outside.specs.Faults.{Counts};
ghost use Rattle.outside.specs.Images.{AtRest, LeavesOnly, resting};
ghost use Rattle.node_journal.specs.Records.{records, Intact};
ghost use Rattle.node_journal.specs.Frames.{file_of};
ghost use Rattle.node_journal.specs.History.{EachFrom, SomeFrom, KeepsHistory};
ghost use Rattle.node_journal.specs.Views.{payloads_of, IsScanOf};

use crate::Scanned;
use crate::repair::repair;
use outside::{Disk, Failed};

/// Syncs a disk, so that what was read is on it, and then makes it the file of the payloads. The answer is the clock
/// behind the sync.
pub fn recover_disk<D: Disk>(disk: &mut D, scanned: &Scanned) -> Result<u64, Failed>
    requires { D.tells ≡ true → IsScanOf (D.now disk.old).seen scanned.now }
    ensures done { D.tells ≡ true → OnOk result (D.now disk.new ≡ resting (file_of (payloads_of scanned.now))) }
    ensures opened { D.tells ≡ true → IfOk result (λ t. t ≡ length (D.past disk.old) + 1) }
    ensures kept { D.tells ≡ true → IfOk result (λ t. KeepsHistory t (D.past disk.new) (D.now disk.new) (payloads_of scanned.now) None) }
    ensures since { D.tells ≡ true → IfOk result (λ t. EachFrom t (D.past disk.new ++ D.now disk.new ∷ []) (λ c. records c ≡ Intact (payloads_of scanned.now))) }
    ensures any_moment { D.tells ≡ true → AtRest (D.now disk.old) → LeavesOnly (D.past disk.old) (D.now disk.old) (D.past disk.new) (D.now disk.new) (λ c. records c ≡ records (D.now disk.old).seen) }
    ensures offers { D.tells ≡ true → SomeFrom (length (D.past disk.old)) (D.past disk.new) (λ c. records c ≡ records (D.now disk.old).seen) }
    ensures cause { Counts (D.count disk.old) (D.count disk.new) (is_err result) }
{
    disk.sync()?;
    let opened = disk.clock();
    repair(disk, scanned)?;
    Ok(opened)
}
