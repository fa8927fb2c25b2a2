//! What programs of cases on whole runs share: small models, commands over memory with what they are given and answer, and what is printed of that.
#![tactic(auto)]

mod command;
mod frames;
mod kinds;
mod models;
mod shown;
mod work;

pub use command::{Answered, Command, Given, SOUND, Stream, usual};
pub use frames::{BEHIND_MODEL, with_frames};
pub use kinds::Kinds;
pub use models::{EMPTY, FAR, MOST, ODD, ONE};
pub use shown::{
    More, disk_of, show_certificate, show_command, show_hexadecimal, show_line, show_on,
    show_with_disk,
};
pub use work::work_on;
