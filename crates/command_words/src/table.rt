// The table of commands, built for clap, and what clap makes of the words.
ghost use Rattle.std.specs.Prelude.{◌≡◌, ◌≢◌, [], IfOk, IsErrOf, map, false, string_bytes};
ghost use Rattle.clap.specs.Words.{app_of, fault_of, rule_of, subcommand_of, subcommand_rows_of, with_rule, with_subcommand};
ghost use Rattle.clap.specs.declared.Command.TheViews.{out-Command as fields_of};
ghost use Rattle.command_words.specs.Table.{commands, no_commands, with_journal_commands};
ghost use Rattle.command_words.specs.Table.{drill_command, resume_command, show_command, solve_command};
ghost use Rattle.command_words.specs.Table.{with_journal_cert, with_limits};
ghost use Rattle.command_words.specs.Table.{path as path_rule, number as number_rule, seed as seed_rule};

use crate::drill_matches::LARGEST_SEED;
use crate::fault::WordsFault;
use crate::limits::MOST_WORKERS;
use clap::builder::ValueParser;
use clap::error::ErrorKind;
use clap::{Arg, ArgMatches, Command};
use node_tree::MOST_NODES;
use problem::{LARGEST_BOUND, MOST_CUTS};
use std::alloc::{AllocError, Global};

// A path, which the command has to have.
fn path<'a>(alloc: Global, id: &'a str) -> Arg<'a>
    ensures rule { rule_of result ≡ path_rule id.entry.now }
    ensures local { result.global ≡ false }
{
    Arg::new(alloc, id).required(true)
}

// The seed of a drill, which it has to have.
fn seed<'a>(alloc: Global) -> Arg<'a>
    ensures rule { rule_of result ≡ seed_rule }
    ensures local { result.global ≡ false }
{
    Arg::new(alloc, "SEED")
        .required(true)
        .value_parser(ValueParser::Unsigned(0, u64::from(LARGEST_SEED)))
}

// An option with one whole number in a range.
fn number<'a>(alloc: Global, id: &'a str, low: u32, high: u32) -> Arg<'a>
    ensures rule { rule_of result ≡ number_rule id.entry.now low high }
    ensures local { result.global ≡ false }
{
    Arg::new(alloc, id)
        .long(id)
        .value_parser(ValueParser::Unsigned(u64::from(low), u64::from(high)))
}

fn with_arg<'a>(command: Command<'a>, arg: Arg<'a>) -> Result<Command<'a>, AllocError>
    requires { arg.global ≡ false }
    ensures app { IfOk result (λ c. app_of c ≡ with_rule (app_of command.entry) (rule_of arg.entry)) }
    ensures local { IfOk result (λ c. (fields_of c).has_globals ≡ (fields_of command.entry).has_globals) }
{
    command.arg(arg)
}

fn with_command<'a>(command: Command<'a>, below: Command<'a>) -> Result<Command<'a>, AllocError>
    requires { (fields_of below).has_globals ≡ false }
    ensures { IfOk result (λ c. app_of c ≡ with_subcommand (app_of command.entry) (app_of below.entry).top) }
{
    command.subcommand(below)
}

// The paths of the journal and the certificate.
fn with_journal_cert<'a>(alloc: Global, command: Command<'a>) -> Result<Command<'a>, AllocError>
    ensures app { IfOk result (λ c. app_of c ≡ with_journal_cert (app_of command.entry)) }
    ensures local { IfOk result (λ c. (fields_of c).has_globals ≡ (fields_of command.entry).has_globals) }
{
    let command = with_arg(command, path(alloc, "JOURNAL"))?;
    with_arg(command, path(alloc, "CERT"))
}

// The limits of a search, and its workers.
fn with_limits<'a>(alloc: Global, command: Command<'a>) -> Result<Command<'a>, AllocError>
    ensures app { IfOk result (λ c. app_of c ≡ with_limits (app_of command.entry)) }
    ensures local { IfOk result (λ c. (fields_of c).has_globals ≡ (fields_of command.entry).has_globals) }
{
    let command = with_arg(command, number(alloc, "nodes", 1, MOST_NODES))?;
    let command = with_arg(command, number(alloc, "cuts", 0, MOST_CUTS))?;
    with_arg(command, number(alloc, "workers", 1, MOST_WORKERS))
}

fn solve<'a>(alloc: Global) -> Result<Command<'a>, AllocError>
    ensures app { IfOk result (λ c. app_of c ≡ solve_command) }
    ensures local { IfOk result (λ c. (fields_of c).has_globals ≡ false) }
{
    let command = with_arg(Command::new(alloc, "solve"), path(alloc, "MODEL"))?;
    let command = with_journal_cert(alloc, command)?;
    let command = with_limits(alloc, command)?;
    with_arg(command, number(alloc, "upper", 0, LARGEST_BOUND))
}

fn resume<'a>(alloc: Global) -> Result<Command<'a>, AllocError>
    ensures app { IfOk result (λ c. app_of c ≡ resume_command) }
    ensures local { IfOk result (λ c. (fields_of c).has_globals ≡ false) }
{
    let command = with_journal_cert(alloc, Command::new(alloc, "resume"))?;
    with_limits(alloc, command)
}

fn show<'a>(alloc: Global) -> Result<Command<'a>, AllocError>
    ensures app { IfOk result (λ c. app_of c ≡ show_command) }
    ensures local { IfOk result (λ c. (fields_of c).has_globals ≡ false) }
{
    with_arg(Command::new(alloc, "show"), path(alloc, "JOURNAL"))
}

fn drill<'a>(alloc: Global) -> Result<Command<'a>, AllocError>
    ensures app { IfOk result (λ c. app_of c ≡ drill_command) }
    ensures local { IfOk result (λ c. (fields_of c).has_globals ≡ false) }
{
    let command = with_arg(Command::new(alloc, "drill"), seed(alloc))?;
    let command = with_arg(command, path(alloc, "CERT"))?;
    with_limits(alloc, command)
}

// The program without its commands. No form of help is known, so that each one is a fault.
fn program<'a>(alloc: Global) -> Command<'a>
    ensures { app_of result ≡ no_commands }
{
    Command::new(alloc, "bnc")
        .no_binary_name(true)
        .disable_help_flag(true)
        .disable_help_subcommand(true)
        .subcommand_required(true)
}

// The commands on a journal that is there.
fn with_journal_commands<'a>(alloc: Global, command: Command<'a>) -> Result<Command<'a>, AllocError>
    ensures { IfOk result (λ c. app_of c ≡ with_journal_commands (app_of command.entry)) }
{
    let command = with_command(command, resume(alloc)?)?;
    with_command(command, show(alloc)?)
}

// The table of all commands.
pub(crate) fn table<'a>(alloc: Global) -> Result<Command<'a>, AllocError>
    ensures { IfOk result (λ c. app_of c ≡ commands) }
{
    let command = with_command(program(alloc), solve(alloc)?)?;
    let command = with_journal_commands(alloc, command)?;
    with_command(command, drill(alloc)?)
}

/// The matches of the words, where clap finds no fault in them by the table.
///
/// `Usage`: it finds a fault. `Memory`: memory ran out.
pub fn matched<'a>(alloc: Global, words: &'a [String]) -> Result<ArgMatches<'a>, WordsFault>
    ensures taken { IfOk result (λ m. fault_of commands (map string_bytes words.entry.now) ≡ []) }
    ensures matches { IfOk result (λ m. subcommand_rows_of m ≡ subcommand_of commands (map string_bytes words.entry.now)) }
    ensures usage { IsErrOf result WordsFault.Usage → fault_of commands (map string_bytes words.entry.now) ≢ [] }
{
    let Ok(command) = table(alloc) else {
        return Err(WordsFault::Memory);
    };
    match command.try_get_matches_from(words) {
        Ok(matches) => Ok(matches),
        Err(error) => {
            if error.kind() == ErrorKind::OutOfMemory {
                Err(WordsFault::Memory)
            } else {
                Err(WordsFault::Usage)
            }
        }
    }
}
