// A journal of payloads on a disk.
ghost use Rattle.std.specs.Prelude.{◌≡◌, ◌+◌, ◌<◌, ◌≤◌, ◌^◌, ◌++◌, [], ◌∷◌, ℕ, true, length, IfOk, IfErr, OnOk, OnErr, IsErrOf, Some, None};
ghost use Rattle.outside.specs.Faults.{Counts};
ghost use Rattle.outside.specs.Images.{AtRest, LeavesOnly, NoMomentPasses, resting};
ghost use Rattle.node_journal.specs.Records.{records, Intact};
ghost use Rattle.node_journal.specs.History.{EachFrom, SomeFrom, ExtendsMoments, IsPrefixOf, Keeps, KeepsHistory};
ghost use Rattle.node_journal.specs.Frames.{file_of};
ghost use Rattle.node_journal.specs.Whole.{payloads_in, IsWhole};

use crate::recovery::recover_disk;
use crate::write_payload::write_payload;
use crate::{AppendFault, Scanned};
use outside::Disk;

/// A journal: a list of payloads on a disk, to which more can be added. A crash at any moment leaves a disk that has
/// each payload that was acknowledged. The payloads themselves stand on the disk alone (docs/DECISIONS.md, entry 44).
pub struct Journal<D: Disk> {
    disk: D,
    // How many payloads there are.
    count: usize,
    // The place of the closed gate at the end.
    end: u64,
    fault: Option<u64>,
    // The disk's clock behind the sync with which the journal's recovery began.
    opened: u64,
    // What stands behind the gate of the payload that is being added. Each append uses it again.
    frame: Vec<u8>,
    ghost bound: { end < 2 ^ 63 },
    ghost fewer: { count ≤ end },
    ghost whole: { D.tells ≡ true → fault ≡ None → IsWhole (D.now disk) end },
    ghost counts: { D.tells ≡ true → fault ≡ None → count ≡ length (payloads_in (D.now disk)) },
    ghost kept: { D.tells ≡ true → KeepsHistory opened (D.past disk) (D.now disk) (payloads_in (D.now disk)) fault },
    ghost counted: { (n : ℕ) → fault ≡ Some n → D.count disk ≡ n },
}

impl<D: Disk> Journal<D> {
    ghost use Rattle.node_journal.specs.Views.{payloads_of, IsScanOf};
    ghost use Rattle.node_journal.specs.Failing.{fails_by_disk};
    ghost use Rattle.node_journal.specs.Appends.{IsWithOrWithout};

    /// Makes the journal of a disk that was scanned: its end becomes a closed gate, and an empty one is made anew. At a
    /// fault, which the disk counted, the disk comes back.
    pub fn recover(disk: D, scanned: Scanned) -> Result<Journal<D>, D>
        requires { D.tells ≡ true → IsScanOf (D.now disk).seen scanned }
        ensures read { D.tells ≡ true → records (D.now disk).seen ≡ Intact (payloads_of scanned) }
        ensures holds { D.tells ≡ true → IfOk result (λ j. payloads_in (D.now j.disk) ≡ payloads_of scanned) }
        ensures rests { D.tells ≡ true → IfOk result (λ j. D.now j.disk ≡ resting (file_of (payloads_of scanned))) }
        ensures count { IfOk result (λ j. j.count ≡ length (payloads_of scanned)) }
        ensures fresh { IfOk result (λ j. j.fault ≡ None) }
        ensures opened { D.tells ≡ true → IfOk result (λ j. j.opened ≡ length (D.past disk) + 1) }
        // Behind the first sync a crash leaves the payloads that were there.
        ensures since { D.tells ≡ true → IfOk result (λ j. EachFrom j.opened (D.past j.disk ++ D.now j.disk ∷ []) (λ c. records c ≡ Intact (payloads_of scanned))) }
        // Where the disk was at rest, a crash at any moment of the call leaves them.
        ensures any_moment { D.tells ≡ true → AtRest (D.now disk) → IfOk result (λ j. LeavesOnly (D.past disk) (D.now disk) (D.past j.disk) (D.now j.disk) (λ c. records c ≡ records (D.now disk).seen)) }
        ensures any_moment_err { D.tells ≡ true → AtRest (D.now disk) → IfErr result (λ d. LeavesOnly (D.past disk) (D.now disk) (D.past d) (D.now d) (λ c. records c ≡ records (D.now disk).seen)) }
        // At each moment of the call a crash can leave them, whether the disk was at rest or not.
        ensures offers { D.tells ≡ true → IfOk result (λ j. SomeFrom (length (D.past disk)) (D.past j.disk) (λ c. records c ≡ records (D.now disk).seen)) }
        ensures offers_err { D.tells ≡ true → IfErr result (λ d. SomeFrom (length (D.past disk)) (D.past d) (λ c. records c ≡ records (D.now disk).seen)) }
        // The count rises exactly where the disk comes back.
        ensures cause { IfOk result (λ j. D.count j.disk ≡ D.count disk) }
        ensures cause_err { IfErr result (λ d. Counts (D.count disk) (D.count d) true) }
    {
        let mut disk = disk;
        match recover_disk(&mut disk, &scanned) {
            Ok(opened) => Ok(Journal {
                disk,
                count: scanned.count(),
                end: scanned.end(),
                fault: None,
                opened,
                frame: Vec::new(*scanned.file.allocator()),
            }),
            Err(_) => Err(disk),
        }
    }

    /// Adds a payload of fewer than 2^32 bytes, and answers its number, from 0. At `Ok` it is acknowledged: from then on each crash leaves a disk that
    /// has it. After `Memory` all is as before. After `Disk` the journal is failed: it answers `Disk` from then on, and keeps the count that rose.
    pub fn append(&mut self, payload: &[u8]) -> Result<u64, AppendFault>
        requires small { length payload.now < 2 ^ 32 }
        ensures number { IfOk result (λ n. n ≡ self.old.count) }
        ensures count { OnOk result (self.new.count ≡ self.old.count + 1) }
        ensures count_err { OnErr result (self.new.count ≡ self.old.count) }
        ensures added { D.tells ≡ true → OnOk result (payloads_in (D.now self.new.disk) ≡ payloads_in (D.now self.old.disk) ++ payload.now ∷ []) }
        ensures sound { OnOk result ((self.old.fault ≡ None) × (self.new.fault ≡ None)) }
        ensures acknowledged { D.tells ≡ true → OnOk result (D.now self.new.disk ≡ resting (file_of (payloads_in (D.now self.new.disk)))) }
        // A crash at any moment of the call leaves the payloads from before, or with the new one.
        ensures any_moment { D.tells ≡ true → self.old.fault ≡ None → LeavesOnly (D.past self.old.disk) (D.now self.old.disk) (D.past self.new.disk) (D.now self.new.disk) (IsWithOrWithout (payloads_in (D.now self.old.disk)) payload.now) }
        // A crash at any moment since the journal was opened leaves a prefix of the payloads with the new one.
        ensures since { D.tells ≡ true → self.old.fault ≡ None → EachFrom self.old.opened (D.past self.new.disk ++ D.now self.new.disk ∷ []) (λ c. IsPrefixOf (payloads_in (D.now self.old.disk) ++ payload.now ∷ []) (records c)) }
        ensures opened { self.new.opened ≡ self.old.opened }
        ensures continued { D.tells ≡ true → ExtendsMoments (D.past self.old.disk ++ D.now self.old.disk ∷ []) (D.past self.new.disk ++ D.now self.new.disk ∷ []) }
        // The count of faults rises exactly where a sound journal answers `Disk`.
        ensures cause { self.old.fault ≡ None → Counts (D.count self.old.disk) (D.count self.new.disk) (fails_by_disk result) }
        ensures fails { self.old.fault ≡ None → IsErrOf result AppendFault.Disk → self.new.fault ≡ Some (D.count self.new.disk) }
        ensures memory { IsErrOf result AppendFault.Memory → (self.old.fault ≡ None) × (self.new.fault ≡ None) }
        ensures memory_stands { IsErrOf result AppendFault.Memory → NoMomentPasses (D.past self.old.disk) (D.now self.old.disk) (D.past self.new.disk) (D.now self.new.disk) }
        // A failed journal stays as it is.
        ensures failed { (n : ℕ) → self.old.fault ≡ Some n → IsErrOf result AppendFault.Disk × (self.new.fault ≡ Some n) × (D.count self.new.disk ≡ D.count self.old.disk) }
        ensures failed_stands { (n : ℕ) → self.old.fault ≡ Some n → NoMomentPasses (D.past self.old.disk) (D.now self.old.disk) (D.past self.new.disk) (D.now self.new.disk) }
    {
        if self.fault.is_some() {
            return Err(AppendFault::Disk);
        }
        match write_payload(&mut self.disk, &mut self.frame, self.end, payload) {
            Ok(end) => {
                let number = self.count as u64;
                self.count += 1;
                self.end = end;
                Ok(number)
            }
            Err(AppendFault::Memory) => Err(AppendFault::Memory),
            Err(AppendFault::Disk) => {
                self.fault = Some(self.disk.faults());
                Err(AppendFault::Disk)
            }
        }
    }

    /// How many payloads there are. A failed journal keeps the count from before its fault.
    pub fn count(&self) -> usize
        ensures count { result ≡ self.now.count }
        ensures payloads { D.tells ≡ true → self.now.fault ≡ None → result ≡ length (payloads_in (D.now self.now.disk)) }
    {
        self.count
    }

    /// The disk's count at the fault by which the journal failed, if it is failed.
    pub fn fault(&self) -> Option<u64>
        ensures { result ≡ self.now.fault }
    {
        self.fault
    }

    /// The disk, for its clock and its count of faults.
    pub fn disk(&self) -> &D
        ensures { result.now ≡ self.now.disk }
    {
        &self.disk
    }

    /// What each journal keeps, whatever calls led to it, from the moment on behind the sync with which its recovery
    /// began. What all crashes at one moment leave, all crashes at each later moment leave; so a payload that is
    /// acknowledged stays. Of any two crashes one leaves the payloads that the other leaves, or more. A failed journal
    /// keeps the count that rose. This computes nothing: its contract is for callers' proofs.
    pub fn history_holds(&self)
        ensures kept { D.tells ≡ true → KeepsHistory self.now.opened (D.past self.now.disk) (D.now self.now.disk) (payloads_in (D.now self.now.disk)) self.now.fault }
        ensures held { D.tells ≡ true → self.now.fault ≡ None → Keeps (payloads_in (D.now self.now.disk)) (D.now self.now.disk) }
        ensures rests { D.tells ≡ true → self.now.fault ≡ None → D.now self.now.disk ≡ resting (file_of (payloads_in (D.now self.now.disk))) }
        ensures counts { D.tells ≡ true → self.now.fault ≡ None → self.now.count ≡ length (payloads_in (D.now self.now.disk)) }
        ensures counted { (n : ℕ) → self.now.fault ≡ Some n → D.count self.now.disk ≡ n }
    {
        let _opened = self.opened;
    }

    /// Hands back the disk.
    pub fn into_disk(self) -> D
        ensures { result ≡ self.disk }
    {
        let Journal {
            disk,
            count: _,
            end: _,
            fault: _,
            opened: _,
            frame: _,
        } = self;
        disk
    }
}
