// What comes of a run before it is told.
ghost use Rattle.std.specs.Prelude.{◌≡◌};
ghost use Rattle.solve_top.specs.Outcomes.{without_disk};

use mps_reader::Kind;
use resume::ResumeFault;
use std::alloc::AllocError;

/// An answer, with the lines that tell it.
#[derive(Drop)]
pub enum Answer {
    /// The search is finished, and its certificate is written.
    Done(Vec<u8>),
    /// The search isn't finished, and its next split would pass the budget.
    Spent(Vec<u8>),
    /// The figures of a journal.
    Shown(Vec<u8>),
}

/// Why there is no answer.
#[derive(Clone, Copy, Debug, PartialEq, Eq, Drop)]
pub enum Refusal {
    /// The words are no command.
    Usage,
    /// The text's first fault with the number of its line, 0 where it stands at none.
    Model { line: u64, kind: Kind },
    /// This is wrong with the content of the journal.
    Journal(ResumeFault),
    /// The model can't be read.
    Read,
    /// The disk failed.
    Disk,
    /// The certificate can't be written.
    Sink,
    /// Memory ran out.
    Memory,
}

impl From<AllocError> for Refusal {
    ghost use Rattle.std.specs.Prelude.{◌≡◌};
    ghost use Rattle.solve_top.specs.declared.outcome.Refusal.TheVariants.{Memory};

    ghost from_gives = { λ _ e. e ≡ Memory };

    fn from(_: AllocError) -> Self {
        Refusal::Memory
    }
}

impl From<ResumeFault> for Refusal {
    ghost use Rattle.std.specs.Prelude.{◌≡◌};
    ghost use Rattle.solve_top.specs.Statuses.{refusal_of};

    ghost from_gives = { λ f e. e ≡ refusal_of f };

    fn from(fault: ResumeFault) -> Self {
        match fault {
            ResumeFault::NotAJournal
            | ResumeFault::Damaged { .. }
            | ResumeFault::OtherModel { .. }
            | ResumeFault::NoModel => Refusal::Journal(fault),
            ResumeFault::Disk => Refusal::Disk,
            ResumeFault::Memory => Refusal::Memory,
        }
    }
}

/// What comes of a search over a disk in memory. What that disk may fail for is want of memory.
pub fn without_disk(outcome: Result<Answer, Refusal>) -> Result<Answer, Refusal>
    ensures { result ≡ without_disk outcome }
{
    match outcome {
        Err(Refusal::Disk) => Err(Refusal::Memory),
        outcome => outcome,
    }
}
