// What the matches of `drill` ask for.
ghost use Rattle.std.specs.Prelude.{◌≡◌, ◌≤◌, Some, None, IfOk, IsErrOf};
ghost use Rattle.clap.specs.Words.{found_of, rows_of};
ghost use Rattle.command_words.specs.Commands.{HasRanges, asked, drill_of};

use crate::arguments::{number_in, path_in};
use crate::command::Command;
use crate::fault::WordsFault;
use crate::limits::limits_of;
use clap::ArgMatches;
use std::alloc::{AllocError, Global};

// The largest seed.
pub(crate) const LARGEST_SEED: u32 = 1_000_000_000;

/// What the matches of `drill` ask for.
///
/// `Usage`: the seed or the path is missing, or a number isn't in its range. `Memory`: memory ran out.
pub fn drill_asked(alloc: Global, matches: &ArgMatches<'_>) -> Result<Command, WordsFault>
    ensures asked { IfOk result (λ c. drill_of (rows_of (found_of matches.now)) ≡ Some (asked c)) }
    ensures range { IfOk result HasRanges }
    ensures usage { IsErrOf result WordsFault.Usage → drill_of (rows_of (found_of matches.now)) ≡ None }
{
    let Some(seed) = number_in(matches, "SEED", 0, LARGEST_SEED)? else {
        return Err(WordsFault::Usage);
    };
    let cert = path_in(matches, "CERT")?;
    let limits = limits_of(matches)?;
    match String::from_str(alloc, cert) {
        Ok(cert) => Ok(Command::Drill { seed, cert, limits }),
        Err(AllocError) => Err(WordsFault::Memory),
    }
}
