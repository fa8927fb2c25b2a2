// What the matches of `resume` ask for.
ghost use Rattle.std.specs.Prelude.{◌≡◌, Some, None, IfOk, IsErrOf};
ghost use Rattle.clap.specs.Words.{found_of, rows_of};
ghost use Rattle.command_words.specs.Commands.{AreInRange, HasRanges, asked, resume as resume_texts, resume_of};

use crate::arguments::path_in;
use crate::command::Command;
use crate::fault::WordsFault;
use crate::limits::{Limits, limits_of};
use clap::ArgMatches;
use std::alloc::{AllocError, Global};

// The command, with its own copies of the paths.
fn with_copies(
    alloc: Global,
    journal: &str,
    cert: &str,
    limits: Limits,
) -> Result<Command, AllocError>
    requires { AreInRange limits }
    ensures asked { IfOk result (λ c. asked c ≡ resume_texts journal.now cert.now limits) }
    ensures range { IfOk result HasRanges }
{
    Ok(Command::Resume {
        journal: String::from_str(alloc, journal)?,
        cert: String::from_str(alloc, cert)?,
        limits,
    })
}

/// What the matches of `resume` ask for.
///
/// `Usage`: a path is missing, the two paths are the same, or a number isn't in its range. `Memory`: memory ran out.
pub fn resume_asked(alloc: Global, matches: &ArgMatches<'_>) -> Result<Command, WordsFault>
    ensures asked { IfOk result (λ c. resume_of (rows_of (found_of matches.now)) ≡ Some (asked c)) }
    ensures range { IfOk result HasRanges }
    ensures usage { IsErrOf result WordsFault.Usage → resume_of (rows_of (found_of matches.now)) ≡ None }
{
    let journal = path_in(matches, "JOURNAL")?;
    let cert = path_in(matches, "CERT")?;
    let limits = limits_of(matches)?;
    if journal == cert {
        return Err(WordsFault::Usage);
    }
    match with_copies(alloc, journal, cert, limits) {
        Ok(command) => Ok(command),
        Err(AllocError) => Err(WordsFault::Memory),
    }
}
