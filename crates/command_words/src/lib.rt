//! The words of a command line, read as a command by clap.
#![tactic(auto)]

mod arguments;
mod command;
mod drill_matches;
mod fault;
mod limits;
mod paths;
mod resume_matches;
mod show_matches;
mod solve_matches;
mod table;
mod usage;
mod words;

pub use command::{Command, parse};
pub use fault::WordsFault;
pub use limits::{DEFAULT_NODES, DEFAULT_WORKERS, Limits};
pub use paths::{Paths, paths_of};
pub use usage::what_is_wrong;
pub use words::Words;
