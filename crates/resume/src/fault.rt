// Why a journal was not opened.
ghost use Rattle.std.specs.Prelude.{◌≡◌};

use node_journal::JournalFault;
use std::alloc::{AllocError, AllocFailed};

/// Why a journal was not opened.
#[derive(Clone, Copy, Debug, PartialEq, Eq, Drop)]
pub enum ResumeFault {
    /// The disk holds more than 9 bytes, which don't begin with the mark of a journal.
    NotAJournal,
    /// The frame behind the open gate at this place isn't whole, or its payload isn't what may stand there: the first is no record of a model, or
    /// a later one is neither the record of the upgrade, where that may stand, nor spells events, or not each of them is legal after those before it, or
    /// by them the tree has more than `MOST_NODES` nodes.
    Damaged { at: u64 },
    /// The first payload is the record of a model, but not of the one that was asked for: at this place of the payload the two first differ.
    OtherModel { at: u64 },
    /// There is no payload, so there is no model.
    NoModel,
    /// The disk failed, and counted it.
    Disk,
    /// There was no memory.
    Memory,
}

impl From<AllocError> for ResumeFault {
    ghost use Rattle.std.specs.Prelude.{◌≡◌};
    ghost use Rattle.resume.specs.declared.fault.ResumeFault.TheVariants.{Memory};

    ghost from_gives = { λ _ e. e ≡ Memory };

    fn from(_: AllocError) -> Self {
        ResumeFault::Memory
    }
}

impl<T: Drop> From<AllocFailed<T>> for ResumeFault {
    ghost use Rattle.std.specs.Prelude.{◌≡◌};
    ghost use Rattle.resume.specs.declared.fault.ResumeFault.TheVariants.{Memory};

    ghost from_gives = { λ _ e. e ≡ Memory };

    fn from(_: AllocFailed<T>) -> Self {
        ResumeFault::Memory
    }
}

impl From<JournalFault> for ResumeFault {
    ghost use Rattle.std.specs.Prelude.{◌≡◌};
    ghost use Rattle.resume.specs.Refusals.{fault_of};

    ghost from_gives = { λ f e. e ≡ fault_of f };

    fn from(fault: JournalFault) -> Self {
        match fault {
            JournalFault::NotAJournal => ResumeFault::NotAJournal,
            JournalFault::Damaged { at } => ResumeFault::Damaged { at },
            JournalFault::Disk => ResumeFault::Disk,
            JournalFault::Memory => ResumeFault::Memory,
        }
    }
}

/// Why a payload was not taken.
#[derive(Clone, Copy, Debug, PartialEq, Eq, Drop)]
pub enum PayloadFault {
    /// It isn't what may stand there.
    Damaged,
    /// There was no memory for what it holds.
    Memory,
}

impl PayloadFault {
    ghost use Rattle.resume.specs.Refusals.{fault_at};

    /// The fault of the journal, in which the payload's gate stands at this place.
    pub fn behind(self, gate: u64) -> ResumeFault
        ensures { result ≡ fault_at gate self }
    {
        match self {
            PayloadFault::Damaged => ResumeFault::Damaged { at: gate },
            PayloadFault::Memory => ResumeFault::Memory,
        }
    }
}

impl From<AllocError> for PayloadFault {
    ghost use Rattle.std.specs.Prelude.{◌≡◌};
    ghost use Rattle.resume.specs.declared.fault.PayloadFault.TheVariants.{Memory};

    ghost from_gives = { λ _ e. e ≡ Memory };

    fn from(_: AllocError) -> Self {
        PayloadFault::Memory
    }
}
