// The limits of a search, and its workers.
ghost use Rattle.std.specs.Prelude.{◌≡◌, ◌≤◌, Some, None, IfErr, IfOk};
ghost use Rattle.clap.specs.Words.{found_of, rows_of};
ghost use Rattle.command_words.specs.Commands.{AreInRange, limits_of as limits_of_rows};

use crate::arguments::number_in;
use crate::fault::WordsFault;
use clap::ArgMatches;
use node_tree::MOST_NODES;
use problem::MOST_CUTS;

/// The most nodes where the words don't say.
pub const DEFAULT_NODES: u32 = 1_000_000;

/// How many workers there are where the words don't say.
pub const DEFAULT_WORKERS: u32 = 1;

/// The largest number of workers that may be asked for.
pub(crate) const MOST_WORKERS: u32 = 16;

/// The limits of a search, and its workers.
#[derive(Clone, Copy, Debug, PartialEq, Eq)]
pub struct Limits {
    /// The most nodes of the search, 1 to `MOST_NODES`; `DEFAULT_NODES` where the words don't say.
    pub nodes: u32,
    /// The most cuts of the search, 0 to `MOST_CUTS`, and that where the words don't say.
    pub cuts: u32,
    /// How many workers search, 1 to `MOST_WORKERS`; `DEFAULT_WORKERS` where the words don't say.
    pub workers: u32,
}

/// The limits that the matches of a command ask for.
///
/// `Usage`: a number isn't in its range.
pub(crate) fn limits_of(matches: &ArgMatches<'_>) -> Result<Limits, WordsFault>
    ensures asked { IfOk result (λ l. limits_of_rows (rows_of (found_of matches.now)) ≡ Some l) }
    ensures range { IfOk result AreInRange }
    ensures usage { IfErr result (λ fault. (fault ≡ WordsFault.Usage) × (limits_of_rows (rows_of (found_of matches.now)) ≡ None)) }
{
    let nodes = number_in(matches, "nodes", 1, MOST_NODES)?;
    let cuts = number_in(matches, "cuts", 0, MOST_CUTS)?;
    let workers = number_in(matches, "workers", 1, MOST_WORKERS)?;
    Ok(Limits {
        nodes: nodes.unwrap_or(DEFAULT_NODES),
        cuts: cuts.unwrap_or(MOST_CUTS),
        workers: workers.unwrap_or(DEFAULT_WORKERS),
    })
}
