//! A disk that is a file of the system. No contract can say which bytes a file holds, so that a user's journal is kept rests on these lines.
//!
//! - `opened`: how the file is found, made, taken for writing, read, written and synced.
//! - `file_disk`: the disk, with its count of faults.
#![tactic(auto)]

mod file_disk;
mod opened;
#[cfg(test)]
mod tests;

pub use file_disk::FileDisk;
