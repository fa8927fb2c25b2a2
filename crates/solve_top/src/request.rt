// What the words ask for.
ghost use Rattle.std.specs.Prelude.{◌≡◌, Some, IfErr, IfOk};
ghost use Rattle.command_words.specs.Commands.{AreInRange, HasRanges as CommandHasRanges, asked};
ghost use Rattle.solve_top.specs.Requests.{HasRanges, limits_in, requested, without_paths};
ghost use Rattle.solve_top.specs.Outcomes.{RefusesWords};

use crate::outcome::Refusal;
use command_words::{Command, DEFAULT_NODES, DEFAULT_WORKERS, Limits, Words, WordsFault, parse};
use problem::MOST_CUTS;
use std::alloc::Global;

// The limits of a search where there is none.
const DEFAULT: Limits = Limits {
    nodes: DEFAULT_NODES,
    cuts: MOST_CUTS,
    workers: DEFAULT_WORKERS,
};

/// What a command asks for, without its paths.
#[derive(Clone, Copy, Debug, PartialEq, Eq, Drop)]
pub enum Request {
    /// Solve the model of the source, going on from the journal where it has one.
    Solve {
        /// The limits of the search.
        limits: Limits,
        /// The bound of each column that has none.
        upper: Option<u32>,
    },
    /// Go on from the journal, which has the model.
    Resume {
        /// The limits of the search.
        limits: Limits,
    },
    /// Tell how far the search of the journal has come.
    Show,
    /// Solve the model of a seed.
    Drill {
        /// The seed.
        seed: u32,
        /// The limits of the search.
        limits: Limits,
    },
}

impl Request {
    /// The limits of the search; where there is none, those of a command that doesn't say.
    pub fn limits(&self) -> Limits
        ensures limits { result ≡ limits_in self.now }
        ensures ranges { HasRanges self.now → AreInRange result }
    {
        match self {
            Request::Solve { limits, upper: _ } => *limits,
            Request::Resume { limits } => *limits,
            Request::Show => DEFAULT,
            Request::Drill { seed: _, limits } => *limits,
        }
    }
}

// What a command asks for, without its paths.
fn without_paths(command: &Command) -> Request
    ensures request { result ≡ without_paths (asked command.now) }
    ensures ranges { CommandHasRanges command.now → HasRanges result }
{
    match command {
        Command::Solve {
            model: _,
            journal: _,
            cert: _,
            limits,
            upper,
        } => Request::Solve {
            limits: *limits,
            upper: *upper,
        },
        Command::Resume {
            journal: _,
            cert: _,
            limits,
        } => Request::Resume { limits: *limits },
        Command::Show { journal: _ } => Request::Show,
        Command::Drill {
            seed,
            cert: _,
            limits,
        } => Request::Drill {
            seed: *seed,
            limits: *limits,
        },
    }
}

/// What the words ask for. `Usage`: they are no command.
pub fn request_of(alloc: Global, words: &Words) -> Result<Request, Refusal>
    ensures asked { IfOk result (λ q. requested words.now ≡ Some q) }
    ensures ranges { IfOk result HasRanges }
    ensures refused { IfErr result (RefusesWords words.now) }
{
    match parse(alloc, words) {
        Ok(command) => Ok(without_paths(&command)),
        Err(WordsFault::Usage) => Err(Refusal::Usage),
        Err(WordsFault::Memory) => Err(Refusal::Memory),
    }
}
