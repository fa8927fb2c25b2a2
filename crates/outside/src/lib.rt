//! What lies outside of the program: a source of bytes, a sink and a disk, each with a count of its faults, and their
//! fakes in memory.
//!
//! Whether a kind of object tells its content is a constant of its type, `tells`: a fake tells all, an adapter over a
//! real file tells nothing. A clause on content holds where it is told.
#![tactic(auto)]

mod disk;
mod failed;
mod hold;
mod mem_disk;
mod mem_sink;
mod mem_source;
mod moment;
mod replayed;
mod scratch_disk;
mod sink;
mod source;
mod whole_sink;
mod whole_source;

pub use disk::Disk;
pub use failed::Failed;
pub use hold::{Hold, NoHold};
pub use mem_disk::{Call, MemDisk};
pub use mem_sink::MemSink;
pub use mem_source::MemSource;
pub use moment::Moment;
pub use scratch_disk::ScratchDisk;
pub use sink::{Put, Sink};
pub use source::{Got, Source};
pub use whole_sink::write_all;
pub use whole_source::{ReadFault, read_all};
