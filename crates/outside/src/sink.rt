// A sink of bytes.
ghost use Rattle.std.specs.Prelude.{◌≡◌, ◌<◌, List, ℕ, Bool, true, length, OnOk, is_err};
ghost use Rattle.outside.specs.Faults.{Counts};
ghost use Rattle.outside.specs.Stream.{IsPut, Appends, failed_write};

use crate::Failed;

/// What one write took.
#[derive(Clone, Copy, Debug, PartialEq, Eq)]
pub enum Put {
    /// So many bytes, from the prefix of the piece.
    Took(usize),
    /// The write failed, was counted, and took no byte.
    Failed,
}

/// Takes bytes, one piece after the other.
pub trait Sink {
    /// Whether sinks of this kind tell what they hold.
    ghost tells: { Bool };

    /// The bytes that were taken.
    ghost taken: { Self → List ℕ };

    /// How often a call has failed.
    ghost faults: { Self → ℕ };

    /// Bytes that outlive the end of the program and a crash.
    ghost kept: { Self → List ℕ };

    /// Appends a prefix of the piece, of at least one byte, to what was taken.
    fn write(&mut self, piece: &[u8]) -> Put
        requires { 0 < length piece.now }
        ensures bound { IsPut (length piece.now) result }
        ensures bytes { tells ≡ true → Appends (taken self.old) (taken self.new) piece.now result }
        // The count rises exactly in a call that fails.
        ensures cause { Counts (faults self.old) (faults self.new) (failed_write result) };

    /// Ends the writing: where it succeeds, all that was taken is kept. It takes nothing.
    fn finish(&mut self) -> Result<(), Failed>
        ensures bytes { tells ≡ true → taken self.new ≡ taken self.old }
        ensures kept { tells ≡ true → OnOk result (kept self.new ≡ taken self.new) }
        // The count rises exactly in a call that fails.
        ensures cause { Counts (faults self.old) (faults self.new) (is_err result) };
}
