//! The top call: the words of a command line, a model and a disk in; a certificate and a few lines out.
//!
//! - `request`: what the words ask for.
//! - `model`: reads the model.
//! - `opening`: opens the journal.
//! - `drill`: the pool of a drill.
//! - `show`: tells the figures of a journal.
//! - `beginning`: begins a command: opens what it searches in.
//! - `searcher`: searches on, by one worker or by several.
//! - `search`: ends a search, and writes the certificate.
//! - `outcome`: what comes of that: an answer, or why there is none.
//! - `output`: the lines.
//! - `ran`: how a run ended.
//! - `telling`: tells the outcome.
//! - `status`: how a run ends.
//! - `top_call`: `run` and `run_one`, all of this in its order.
#![tactic(auto)]

mod beginning;
mod drill;
mod model;
mod opening;
mod outcome;
mod output;
mod ran;
mod request;
mod search;
mod searcher;
mod show;
mod status;
mod telling;
mod top_call;

pub use command_words::{Paths, Words, WordsFault, paths_of};
pub use event_core::State;
pub use ran::Ran;
pub use status::Status;
pub use telling::tell_no_place;
pub use top_call::{run, run_one};
