// How a run ends.
ghost use Rattle.std.specs.Prelude.{◌≡◌};
ghost use Rattle.solve_top.specs.Statuses.{exit_number};

/// How a run ends.
#[derive(Clone, Copy, Debug, PartialEq, Eq)]
pub enum Status {
    /// All is written, and where the command searches, no node is open.
    Done,
    /// The words are no command.
    Usage,
    /// The model is refused.
    Model,
    /// The journal is refused.
    Journal,
    /// The model can't be read.
    ReadFault,
    /// The disk failed.
    Disk,
    /// The certificate or the lines can't be written.
    Sink,
    /// The search isn't finished, and its next split would pass the budget.
    Spent,
    /// Memory ran out.
    Memory,
}

impl Status {
    /// The exit status of the program.
    pub fn number(self) -> u8
        ensures { result ≡ exit_number self }
    {
        match self {
            Status::Done => 0,
            Status::Usage => 2,
            Status::Model => 3,
            Status::Journal => 4,
            Status::ReadFault => 5,
            Status::Disk => 6,
            Status::Sink => 7,
            Status::Spent => 8,
            Status::Memory => 9,
        }
    }
}
