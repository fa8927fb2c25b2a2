// Bytes that are gathered before they are written.
ghost use Rattle.std.specs.Prelude.{◌≡◌, ◌↔◌, ◌++◌, ◌-◌, [], IsTrue, length, min, take, vec_capacity};

use std::alloc::Global;

/// How many bytes are gathered.
const PIECE: usize = 65_536;

/// Bytes that are gathered, so that the system is called once for many lines (docs/DECISIONS.md, entry 80).
#[derive(Drop)]
pub(crate) struct Gathered {
    bytes: Vec<u8>,
}

impl Gathered {
    /// None yet. Where there is no memory for them, none will be.
    pub(crate) fn new(alloc: Global) -> Gathered
        ensures { result.bytes.items ≡ [] }
    {
        let bytes = match Vec::with_capacity(alloc, PIECE) {
            Ok(bytes) => bytes,
            Err(_) => Vec::new(alloc),
        };
        Gathered { bytes }
    }

    /// The bytes.
    pub(crate) fn as_slice(&self) -> &[u8]
        ensures { result.now ≡ self.now.bytes.items }
    {
        self.bytes.as_slice()
    }

    /// Whether no more fit.
    pub(crate) fn is_full(&self) -> bool
        ensures { IsTrue result ↔ (length self.now.bytes.items ≡ vec_capacity self.now.bytes) }
    {
        self.bytes.len() == self.bytes.capacity()
    }

    /// Takes as much of the front of a piece as fits, and answers how many bytes that is.
    pub(crate) fn add(&mut self, piece: &[u8]) -> usize
        ensures count { result ≡ min (length piece.now) (vec_capacity self.old.bytes - length self.old.bytes.items) }
        ensures bytes { self.new.bytes.items ≡ self.old.bytes.items ++ take result piece.now }
    {
        let count = piece.len().min(self.bytes.capacity() - self.bytes.len());
        match self.bytes.extend_from_slice(&piece[..count]) {
            Ok(()) => count,
            Err(_) => 0,
        }
    }

    /// Lets all of them go, and keeps the room.
    pub(crate) fn clear(&mut self)
        ensures { self.new.bytes.items ≡ [] }
    {
        self.bytes.clear();
    }
}
