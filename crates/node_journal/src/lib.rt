//! A journal on a disk: a list of payloads, each of which is on the disk before it is acknowledged. A crash at any moment
//! leaves the payloads from before the call, with the one being added or without it.
#![tactic(auto)]

mod fault;
mod frame_at;
mod gates;
mod journal;
mod reading;
mod recovery;
mod repair;
mod scanned;
mod scanning;
mod write_frame;
mod write_payload;

pub use fault::{AppendFault, JournalFault};
pub use journal::Journal;
pub use scanned::Scanned;
pub use scanning::scan;
