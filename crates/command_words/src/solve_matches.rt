// What the matches of `solve` ask for.
ghost use Rattle.std.specs.Prelude.{◌≡◌, ◌≤◌, Some, None, IfOk, IfSome, IsErrOf};
ghost use Rattle.clap.specs.Words.{found_of, rows_of};
ghost use Rattle.command_words.specs.Commands.{AreInRange, HasRanges, are_different as are_different_texts, asked, solve as solve_texts, solve_of};
ghost use Rattle.problem.specs.Limits.{largest_bound};

use crate::arguments::{number_in, path_in};
use crate::command::Command;
use crate::fault::WordsFault;
use crate::limits::{Limits, limits_of};
use clap::ArgMatches;
use problem::LARGEST_BOUND;
use std::alloc::{AllocError, Global};

// Whether no two of the paths are the same.
fn are_different(model: &str, journal: &str, cert: &str) -> bool
    ensures { result ≡ are_different_texts model.now journal.now cert.now }
{
    model != journal && model != cert && journal != cert
}

// The command, with its own copies of the paths.
fn with_copies(
    alloc: Global,
    model: &str,
    journal: &str,
    cert: &str,
    limits: Limits,
    upper: Option<u32>,
) -> Result<Command, AllocError>
    requires limits { AreInRange limits }
    requires upper { IfSome upper (λ u. u ≤ largest_bound) }
    ensures asked { IfOk result (λ c. asked c ≡ solve_texts model.now journal.now cert.now limits upper) }
    ensures range { IfOk result HasRanges }
{
    Ok(Command::Solve {
        model: String::from_str(alloc, model)?,
        journal: String::from_str(alloc, journal)?,
        cert: String::from_str(alloc, cert)?,
        limits,
        upper,
    })
}

/// What the matches of `solve` ask for.
///
/// `Usage`: a path is missing, two paths are the same, or a number isn't in its range. `Memory`: memory ran out.
pub fn solve_asked(alloc: Global, matches: &ArgMatches<'_>) -> Result<Command, WordsFault>
    ensures asked { IfOk result (λ c. solve_of (rows_of (found_of matches.now)) ≡ Some (asked c)) }
    ensures range { IfOk result HasRanges }
    ensures usage { IsErrOf result WordsFault.Usage → solve_of (rows_of (found_of matches.now)) ≡ None }
{
    let model = path_in(matches, "MODEL")?;
    let journal = path_in(matches, "JOURNAL")?;
    let cert = path_in(matches, "CERT")?;
    let limits = limits_of(matches)?;
    let upper = number_in(matches, "upper", 0, LARGEST_BOUND)?;
    if !are_different(model, journal, cert) {
        return Err(WordsFault::Usage);
    }
    match with_copies(alloc, model, journal, cert, limits, upper) {
        Ok(command) => Ok(command),
        Err(AllocError) => Err(WordsFault::Memory),
    }
}
