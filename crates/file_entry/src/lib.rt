//! The entry of a file in its folder, on the disk. No contract can say what a folder holds, so that a new file is there after a crash rests on
//! these lines. The tests of `file_disk` try them.
#![tactic(auto)]

mod entry;

pub use entry::{behind_links, is_at, is_link, sync_entry};
