// A disk is read, and left as it is.
ghost use Rattle.std.specs.Prelude.{◌≡◌, ◌<◌, true, length, IfOk, IfErr};
ghost use Rattle.outside.specs.Faults.{Counts};
ghost use Rattle.outside.specs.Images.{NoMomentPasses};
ghost use Rattle.node_journal.specs.Records.{records, Intact};
ghost use Rattle.node_journal.specs.Index.{IsInside, Refuses};
ghost use Rattle.node_journal.specs.Views.{payloads_of, IsScanOf, disk_failed};

use crate::reading::parse;
use crate::{JournalFault, Scanned};
use outside::Disk;
use std::alloc::Global;

/// Reads the first 8 bytes of a disk that has more than 9, and refuses them where they aren't the mark.
fn check_mark<D: Disk>(disk: &mut D) -> Result<(), JournalFault>
    requires { D.tells ≡ true → 9 < length (D.now disk.old).seen }
    ensures refused { D.tells ≡ true → IfErr result (λ e. Refuses e (records (D.now disk.old).seen)) }
    ensures stands { NoMomentPasses (D.past disk.old) (D.now disk.old) (D.past disk.new) (D.now disk.new) }
    ensures cause { Counts (D.count disk.old) (D.count disk.new) (disk_failed result) }
{
    let mut mark = [0u8; 8];
    disk.read_at(0, &mut mark)?;
    if mark.starts_with(b"BNCJRNL1") {
        return Ok(());
    }
    Err(JournalFault::NotAJournal)
}

/// Reads so many bytes from a disk's front, which are all where the disk tells its content, and finds the payloads in them.
fn scan_front<D: Disk>(alloc: Global, disk: &mut D, size: u64) -> Result<Scanned, JournalFault>
    requires { D.tells ≡ true → size ≡ length (D.now disk.old).seen }
    ensures records { D.tells ≡ true → IfOk result (λ s. records (D.now disk.old).seen ≡ Intact (payloads_of s)) }
    ensures scanned { D.tells ≡ true → IfOk result (λ s. IsScanOf (D.now disk.old).seen s) }
    ensures refused { D.tells ≡ true → IfErr result (λ e. Refuses e (records (D.now disk.old).seen)) }
    ensures inside { IfErr result (λ e. IsInside size e) }
    ensures stands { NoMomentPasses (D.past disk.old) (D.now disk.old) (D.past disk.new) (D.now disk.new) }
    ensures cause { Counts (D.count disk.old) (D.count disk.new) (disk_failed result) }
{
    let mut file = vec![in alloc; 0u8; size as usize]?;
    disk.read_at(0, &mut file)?;
    parse(alloc, file)
}

/// Reads the payloads of a disk, and writes nothing. Of a disk that holds something else no more than 8 bytes are read.
/// `NotAJournal` and `Damaged` come exactly where the format says, `Disk` only where the disk failed and counted it.
pub fn scan<D: Disk>(alloc: Global, disk: &mut D) -> Result<Scanned, JournalFault>
    ensures records { D.tells ≡ true → IfOk result (λ s. records (D.now disk.old).seen ≡ Intact (payloads_of s)) }
    ensures scanned { D.tells ≡ true → IfOk result (λ s. IsScanOf (D.now disk.new).seen s) }
    ensures refused { D.tells ≡ true → IfErr result (λ e. Refuses e (records (D.now disk.old).seen)) }
    ensures stands { NoMomentPasses (D.past disk.old) (D.now disk.old) (D.past disk.new) (D.now disk.new) }
    ensures cause { Counts (D.count disk.old) (D.count disk.new) (disk_failed result) }
{
    let size = disk.size()?;
    if size > 9 {
        check_mark(disk)?;
    }
    let found = scan_front(alloc, disk, size);
    if let Err(JournalFault::Damaged { at }) = found {
        // Where the disk has grown, a writer is at work: its frame was half there when the size was asked, so this gate was closed then.
        if disk.size()? > size {
            return scan_front(alloc, disk, at + 1);
        }
    }
    found
}
