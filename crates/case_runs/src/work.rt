//! Commands with their workers in threads.

use crate::command::{Answered, Command, Given};
use anyhow::Result;
use outside::{Hold, MemDisk};
use solve_top::run;
use std::alloc::Global;
use std::hash::{BuildHasherDefault, DefaultHasher};
use std::sync::Wait;
use std::thread::Threads;

/// Runs a command that is given this, with its workers in threads.
fn work_given<R: Threads + Wait + Sync, H: Hold + Sync>(
    rt: &R,
    alloc: Global,
    given: Given,
    disk: MemDisk,
    hold: &H,
) -> Answered {
    let mut given = given;
    let keys: BuildHasherDefault<DefaultHasher> = BuildHasherDefault::new();
    let ran = run(
        rt,
        alloc,
        keys,
        &given.words,
        &mut given.model,
        disk,
        &mut given.cert,
        &mut given.out,
        hold,
    );
    Answered::of(ran, given)
}

/// Runs a command on a disk, with its workers in threads, each of which asks `hold` before it claims a node. The one error is want of memory.
pub fn work_on<R: Threads + Wait + Sync, H: Hold + Sync>(
    rt: &R,
    alloc: Global,
    command: &Command<'_>,
    disk: MemDisk,
    hold: &H,
) -> Result<Answered> {
    let given = command.given(alloc)?;
    Ok(work_given(rt, alloc, given, disk, hold))
}
