// The payloads that a scan found, in memory.
ghost use Rattle.std.specs.Prelude.{◌≡◌, ◌<◌, ◌^◌, [], true, length, IfOk, slice_index, slice_index_or};
ghost use Rattle.std.specs.List.{list_all};
ghost use Rattle.node_journal.specs.Frames.{file_of, places_from, payloads_at, end_of, has_small_length};

use crate::frame_at::whole_size;
use crate::gates::Gates;
use std::alloc::{AllocError, Global};

/// The mark at the front of a journal, and a closed gate: the file of no payload.
pub(crate) const EMPTY: [u8; 9] = *b"BNCJRNL1\0";

/// What a scan found on a disk: the payloads, the oldest first, each with the place of its gate, and the disk's size.
pub struct Scanned {
    // The whole file of the payloads, with a closed gate at its end.
    pub(crate) file: Vec<u8>,
    pub(crate) places: Vec<u64>,
    pub(crate) size: u64,
    ghost whole: { file.items ≡ file_of (payloads_at file.items places.items) },
    ghost placed: { places.items ≡ places_from 8 (payloads_at file.items places.items) },
    ghost small: { list_all has_small_length (payloads_at file.items places.items) ≡ true },
}

/// By hand (docs/DECISIONS.md, entry 98).
impl Drop for Scanned {
    fn drop(self) {
        let Scanned {
            file: _,
            places: _,
            size: _,
        } = self;
    }
}

impl Scanned {
    ghost use Rattle.node_journal.specs.Views.{payloads_of};
    ghost use Rattle.node_journal.specs.Index.{IsIndexed};

    /// No payload, on a disk of this size.
    pub(crate) fn empty(alloc: Global, size: u64) -> Result<Scanned, AllocError>
        ensures none { IfOk result (λ s. payloads_of s ≡ []) }
        ensures size { IfOk result (λ s. s.size ≡ size) }
    {
        Ok(Scanned {
            file: EMPTY.to_vec(alloc)?,
            places: Vec::new(alloc),
            size,
        })
    }

    /// The payloads of a file whose gates were found. What stands behind the last one goes.
    pub(crate) fn from_gates(file: Vec<u8>, gates: Gates) -> Result<Scanned, AllocError>
        requires { IsIndexed file.items gates.places.items gates.end }
        ensures payloads { IfOk result (λ s. payloads_of s ≡ payloads_at file.items gates.places.items) }
        ensures size { IfOk result (λ s. s.size ≡ length file.items) }
    {
        let mut file = file;
        let size = file.len() as u64;
        file.truncate(gates.end);
        file.push(0)?;
        Ok(Scanned {
            file,
            places: gates.places,
            size,
        })
    }

    /// How many payloads there are.
    pub fn count(&self) -> usize
        ensures { result ≡ length (payloads_of self.now) }
    {
        self.places.len()
    }

    /// The payload of this number, from 0.
    pub fn payload(&self, number: usize) -> &[u8]
        requires { number < length (payloads_of self.now) }
        ensures { result.now ≡ slice_index_or (payloads_of self.now) number [] }
    {
        let place = (self.places[number] as usize).min(self.file.len());
        let rest = &self.file[place..];
        match whole_size(rest) {
            Some(size) => &rest[5..5 + size],
            None => &rest[rest.len().min(5)..],
        }
    }

    /// The place of its gate, in bytes from the disk's front.
    pub fn place(&self, number: usize) -> u64
        requires { number < length (payloads_of self.now) }
        ensures { result ≡ slice_index (places_from 8 (payloads_of self.now)) number }
    {
        self.places[number]
    }

    /// The place of the closed gate at the end.
    pub fn end(&self) -> u64
        ensures place { result ≡ end_of (payloads_of self.now) }
        ensures bound { result < 2 ^ 63 }
    {
        (self.file.len() - 1) as u64
    }
}
