//! Calls on events, their codes and answers, incumbents and cuts that no whole run shows. The gate compares what it prints with `stdout`.
#![tactic(auto)]

mod answers;
mod codes;
mod cuts;
mod events;
mod groups;
mod in_two;
mod incumbents;
mod models;
mod plans;
mod printing;

use event_core::Entry;
use std::io;
use std::mem::size_of;

// An event of a history takes at most 64 bytes beside the numbers that it carries.
const _: () = prove!(size_of::<Entry>() <= 64);

fn main(rt: HostRuntime) -> io::Result<()> {
    events::show(&rt)?;
    codes::show(&rt)?;
    incumbents::show(&rt)?;
    cuts::show(&rt)?;
    answers::show(&rt)
}
