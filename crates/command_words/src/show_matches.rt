// What the matches of `show` ask for.
ghost use Rattle.std.specs.Prelude.{◌≡◌, Some, None, IfOk, IsErrOf};
ghost use Rattle.clap.specs.Words.{found_of, rows_of};
ghost use Rattle.command_words.specs.Commands.{asked, show_of};

use crate::arguments::path_in;
use crate::command::Command;
use crate::fault::WordsFault;
use clap::ArgMatches;
use std::alloc::{AllocError, Global};

/// What the matches of `show` ask for.
///
/// `Usage`: the path is missing. `Memory`: memory ran out.
pub fn show_asked(alloc: Global, matches: &ArgMatches<'_>) -> Result<Command, WordsFault>
    ensures asked { IfOk result (λ c. show_of (rows_of (found_of matches.now)) ≡ Some (asked c)) }
    ensures usage { IsErrOf result WordsFault.Usage → show_of (rows_of (found_of matches.now)) ≡ None }
{
    let journal = path_in(matches, "JOURNAL")?;
    match String::from_str(alloc, journal) {
        Ok(journal) => Ok(Command::Show { journal }),
        Err(AllocError) => Err(WordsFault::Memory),
    }
}
