// A source of bytes.
ghost use Rattle.std.specs.Prelude.{◌≡◌, ◌<◌, List, ℕ, Bool, true, length};
ghost use Rattle.outside.specs.Faults.{Counts};
ghost use Rattle.outside.specs.Stream.{IsGot, ReadsFrom, failed_read};

/// What one read gave.
#[derive(Clone, Copy, Debug, PartialEq, Eq)]
pub enum Got {
    /// So many bytes, at the prefix of the buffer.
    Gave(usize),
    /// No byte is left.
    End,
    /// The read failed, was counted, and took no byte (docs/DECISIONS.md, entry 7).
    Failed,
}

/// Gives bytes, one piece after the other.
pub trait Source {
    /// Whether sources of this kind tell what they have left.
    ghost tells: { Bool };

    /// The bytes that are left.
    ghost left: { Self → List ℕ };

    /// How often a read has failed.
    ghost faults: { Self → ℕ };

    /// Reads the next bytes into the prefix of the buffer, at least one and at most as many as it has room for.
    fn read(&mut self, buf: &mut [u8]) -> Got
        requires { 0 < length buf.old }
        ensures bound { IsGot (length buf.new) result }
        // The bytes given are the next ones, and the end comes exactly where none is left.
        ensures bytes { tells ≡ true → ReadsFrom (left self.old) (left self.new) buf.new result }
        // The count rises exactly in a call that fails.
        ensures cause { Counts (faults self.old) (faults self.new) (failed_read result) };
}
