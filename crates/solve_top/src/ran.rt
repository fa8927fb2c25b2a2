// How a run ended.
ghost use Rattle.std.specs.Prelude.{◌≡◌, None, Err};
ghost use Rattle.solve_top.specs.Statuses.{exit_number};
ghost use Rattle.solve_top.specs.Outcomes.{without_disk};

use crate::Status;
use crate::outcome::{Answer, Refusal, without_disk};
use event_core::State;

/// How a run ended, with the disk that it was given. Until that is told, its status is what came of the command.
#[derive(Drop)]
pub struct Ran<D, S = u8> {
    /// The exit status of the program: the number of a `Status`.
    pub status: S,
    /// The disk that the run was handed.
    pub disk: D,
    /// The state at which the search ended, with its history; none where no search began (docs/DECISIONS.md, entry 35).
    pub last: Option<State>,
}

impl<D> Ran<D, Result<Answer, Refusal>> {
    /// A command that came to nothing before a search began.
    pub(crate) fn refused(refusal: Refusal, disk: D) -> Self
        ensures status { result.status ≡ Err refusal }
        ensures disk { result.disk ≡ disk }
        ensures last { result.last ≡ None }
    {
        Ran {
            status: Err(refusal),
            disk,
            last: None,
        }
    }

    /// The same of a drill over a disk in memory, which was handed this disk. What its own disk may fail for is want of memory.
    pub(crate) fn drilled<E>(self, disk: E) -> Ran<E, Result<Answer, Refusal>>
    where
        D: Drop,
        ensures status { result.status ≡ without_disk self.status }
        ensures disk { result.disk ≡ disk }
        ensures last { result.last ≡ self.last }
    {
        let Ran {
            status,
            disk: _,
            last,
        } = self;
        Ran {
            status: without_disk(status),
            disk,
            last,
        }
    }

    /// The same with the status by which it was told.
    pub(crate) fn told(self, status: Status) -> Ran<D>
        ensures status { result.status ≡ exit_number status }
        ensures disk { result.disk ≡ self.disk }
        ensures last { result.last ≡ self.last }
    {
        let Ran {
            status: _,
            disk,
            last,
        } = self;
        Ran {
            status: status.number(),
            disk,
            last,
        }
    }
}
