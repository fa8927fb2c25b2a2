// Words as a command.
ghost use Rattle.std.specs.Prelude.{◌≡◌, Some, None, IfOk, IsErrOf};
ghost use Rattle.clap.specs.Words.{subcommand_rows_of};
ghost use Rattle.command_words.specs.Commands.{HasRanges, asked, asked_of, command_of};

use crate::drill_matches::drill_asked;
use crate::fault::WordsFault;
use crate::limits::Limits;
use crate::resume_matches::resume_asked;
use crate::show_matches::show_asked;
use crate::solve_matches::solve_asked;
use crate::table::matched;
use crate::words::Words;
use clap::ArgMatches;
use std::alloc::Global;

/// A command, with what it asks for.
#[derive(Debug, Drop)]
pub enum Command {
    /// Solve a model, going on from the journal where it has one.
    Solve {
        /// Where the model is read.
        model: String,
        /// Where the journal is kept.
        journal: String,
        /// Where the certificate is written.
        cert: String,
        /// The limits of the search.
        limits: Limits,
        /// The bound for each column that has none, 0 to `LARGEST_BOUND`.
        upper: Option<u32>,
    },
    /// Go on from a journal, which holds the model.
    Resume {
        /// Where the journal is kept.
        journal: String,
        /// Where the certificate is written.
        cert: String,
        /// The limits of the search.
        limits: Limits,
    },
    /// Tell how far the search of a journal has come, and change nothing.
    Show {
        /// Where the journal is kept.
        journal: String,
    },
    /// Solve a model that is made from a seed.
    Drill {
        /// The seed, 0 to `LARGEST_SEED`.
        seed: u32,
        /// Where the certificate is written.
        cert: String,
        /// The limits of the search.
        limits: Limits,
    },
}

// What the matches of a command ask for.
fn entered(alloc: Global, matches: &ArgMatches<'_>) -> Result<Command, WordsFault>
    ensures asked { IfOk result (λ c. asked_of (subcommand_rows_of matches.now) ≡ Some (asked c)) }
    ensures range { IfOk result HasRanges }
    ensures usage { IsErrOf result WordsFault.Usage → asked_of (subcommand_rows_of matches.now) ≡ None }
{
    let Some((name, found)) = matches.subcommand() else {
        return Err(WordsFault::Usage);
    };
    if name == "solve" {
        solve_asked(alloc, found)
    } else if name == "resume" {
        resume_asked(alloc, found)
    } else if name == "show" {
        show_asked(alloc, found)
    } else if name == "drill" {
        drill_asked(alloc, found)
    } else {
        Err(WordsFault::Usage)
    }
}

/// The command that the words are, as `clap` decides (docs/DECISIONS.md, entry 19).
///
/// `Usage`: they are no command. `Memory`: memory ran out, which says nothing of the words (docs/DECISIONS.md, entry 20).
pub fn parse(alloc: Global, words: &Words) -> Result<Command, WordsFault>
    ensures command { IfOk result (λ c. command_of words.now ≡ Some (asked c)) }
    ensures range { IfOk result HasRanges }
    ensures usage { IsErrOf result WordsFault.Usage → command_of words.now ≡ None }
{
    let matches = matched(alloc, words.as_slice())?;
    entered(alloc, &matches)
}
