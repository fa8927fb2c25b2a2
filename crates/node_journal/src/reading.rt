// What the bytes of a disk hold.
ghost use Rattle.std.specs.Prelude.{◌≡◌, length, IfOk, IfErr, IsErrOf};
ghost use Rattle.node_journal.specs.Records.{records, Intact};
ghost use Rattle.node_journal.specs.Index.{IsInside, Refuses};
ghost use Rattle.node_journal.specs.Views.{payloads_of, IsScanOf};

use crate::gates::find_gates;
use crate::{JournalFault, Scanned};
use std::alloc::Global;

/// Reads the bytes of a journal.
pub fn parse(alloc: Global, file: Vec<u8>) -> Result<Scanned, JournalFault>
    ensures records { IfOk result (λ s. records file.items ≡ Intact (payloads_of s)) }
    ensures scanned { IfOk result (λ s. IsScanOf file.items s) }
    ensures refused { IfErr result (λ e. Refuses e (records file.items)) }
    ensures inside { IfErr result (λ e. IsInside (length file.items) e) }
    ensures own { ¬ IsErrOf result JournalFault.Disk }
{
    if file.len() <= 9 {
        return Ok(Scanned::empty(alloc, file.len() as u64)?);
    }
    if !file.starts_with(b"BNCJRNL1") {
        return Err(JournalFault::NotAJournal);
    }
    let gates = find_gates(alloc, &file)?;
    Ok(Scanned::from_gates(file, gates)?)
}
