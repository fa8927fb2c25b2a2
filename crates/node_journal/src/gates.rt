// Where the payloads of a file stand.
ghost use Rattle.std.specs.Prelude.{◌≡◌, ◌+◌, ◌<◌, ◌≤◌, ◌++◌, List, ℕ, true, false, length, take, drop, IfOk, IfErr, IsErrOf};
ghost use Rattle.node_journal.specs.Records.{records, is_gate_open, mark};
ghost use Rattle.node_journal.specs.Index.{IsIndexed, IsInside, Refuses};

use crate::JournalFault;
use crate::frame_at::{is_gate_open, whole_size};
use std::alloc::Global;

/// The gates of a file, and the place of the first that is closed.
#[derive(Drop)]
pub struct Gates {
    pub places: Vec<u64>,
    pub end: usize,
}

/// Goes from gate to gate, up to the first that is closed.
pub fn find_gates(alloc: Global, file: &[u8]) -> Result<Gates, JournalFault>
    requires long { 9 < length file.now }
    requires marked { take 8 file.now ≡ mark }
    ensures indexed { IfOk result (λ x. IsIndexed file.now x.places.items x.end) }
    ensures closed { IfOk result (λ x. is_gate_open (drop x.end file.now) ≡ false) }
    ensures refused { IfErr result (λ e. Refuses e (records file.now)) }
    ensures inside { IfErr result (λ e. IsInside (length file.now) e) }
    ensures own { ¬ IsErrOf result JournalFault.Disk }
    ensures marked { ¬ IsErrOf result JournalFault.NotAJournal }
{
    let mut places = Vec::new(alloc);
    let mut gate = 8;
    while is_gate_open(&file[gate..]) {
        let Some(size) = whole_size(&file[gate..]) else {
            return Err(JournalFault::Damaged { at: gate as u64 });
        };
        places.push(gate as u64)?;
        gate += 5 + size;
    }
    Ok(Gates { places, end: gate })
}
