// Why a journal was not read, or a payload not added.
ghost use Rattle.std.specs.Prelude.{◌≡◌};

use outside::Failed;
use std::alloc::{AllocError, AllocFailed};

/// Why a journal was not read.
#[derive(Clone, Copy, Debug, PartialEq, Eq, Drop)]
pub enum JournalFault {
    /// The disk holds more than 9 bytes, which don't begin with the mark.
    NotAJournal,
    /// The frame behind the open gate at this place doesn't lie on the disk whole.
    Damaged { at: u64 },
    /// The disk failed, and counted it.
    Disk,
    /// There was no memory for what the disk holds.
    Memory,
}

impl From<AllocError> for JournalFault {
    ghost use Rattle.std.specs.Prelude.{◌≡◌};
    ghost use Rattle.node_journal.specs.declared.fault.JournalFault.TheVariants.{Memory};

    ghost from_gives = { λ _ e. e ≡ Memory };

    fn from(_: AllocError) -> Self {
        JournalFault::Memory
    }
}

impl<T: Drop> From<AllocFailed<T>> for JournalFault {
    ghost use Rattle.std.specs.Prelude.{◌≡◌};
    ghost use Rattle.node_journal.specs.declared.fault.JournalFault.TheVariants.{Memory};

    ghost from_gives = { λ _ e. e ≡ Memory };

    fn from(_: AllocFailed<T>) -> Self {
        JournalFault::Memory
    }
}

impl From<Failed> for JournalFault {
    ghost use Rattle.std.specs.Prelude.{◌≡◌};
    ghost use Rattle.node_journal.specs.declared.fault.JournalFault.TheVariants.{Disk};

    ghost from_gives = { λ _ e. e ≡ Disk };

    fn from(_: Failed) -> Self {
        JournalFault::Disk
    }
}

/// Why a payload was not added.
#[derive(Clone, Copy, Debug, PartialEq, Eq, Drop)]
pub enum AppendFault {
    /// The disk failed, in this call or an earlier one, and counted it.
    Disk,
    /// There was no memory for the payload, or the file would have 2^63 bytes or more. The journal and its disk are as
    /// before.
    Memory,
}
