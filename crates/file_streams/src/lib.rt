//! Files of the system as a source and as sinks. No contract can say which bytes a file holds, so that the user's other files stay as they are
//! rests on these lines: each file says why, and `tests/files.sh` tries it on the built program.
//!
//! - `descriptors`: holds the standard descriptors, before any file is opened.
//! - `inode`: which file it is, whatever it is called.
//! - `head`, `copies`: what the content of a file tells: a journal, a copy of the model.
//! - `spared`: the files that nothing may be written over.
//! - `guard`: what is looked at before a run.
//! - `destination`, `part`, `target`: where a sink writes, and how that is opened without harm.
//! - `retried`: reads and writes that a signal interrupts, and streams that don't block.
//! - `gathered`: bytes that are gathered before they are written.
//! - `file_source`, `file_sink`, `standard_output`: the source and the sinks.
#![tactic(auto)]

mod copies;
mod descriptors;
mod destination;
mod file_sink;
mod file_source;
mod gathered;
mod guard;
mod head;
mod inode;
mod part;
mod retried;
mod spared;
mod standard_output;
mod target;
#[cfg(test)]
mod tests;

pub use descriptors::hold_standard;
pub use destination::Destination;
pub use file_sink::FileSink;
pub use file_source::FileSource;
pub use inode::Inode;
pub use spared::Spared;
pub use standard_output::StandardOutput;
