//! Commands with several workers.

use anyhow::Result;
use case_runs::{Answered, Command, Kinds, ODD, disk_of, usual, work_on};
use case_tools::Meeting;
use outside::{MemDisk, NoHold};
use std::alloc::Global;
use std::io;
use std::sync::Wait;
use std::thread::Threads;

/// A search without cuts by two workers.
const BY_TWO: &str = "solve m j c --cuts 0 --workers 2";

/// Searches that are stopped with some workers, and gone on with by others.
const STOPPED: [(&str, &str); 2] = [
    (
        "solve m j c --cuts 0 --nodes 3 --workers 4",
        "resume j c --cuts 0",
    ),
    (
        "solve m j c --cuts 0 --nodes 3",
        "resume j c --cuts 0 --workers 4",
    ),
];

/// Other commands with workers.
const LINES: [&str; 7] = [
    "solve m j c --workers 16",
    "drill 1 c --cuts 0 --workers 1",
    "drill 1 c --cuts 0 --workers 2",
    "drill 1 c --cuts 0 --workers 4",
    "solve m j c --workers 0",
    "solve m j c --workers 17",
    "show j --workers 2",
];

/// Prints the status and the lines of a command.
fn show_lines<R: Print>(rt: &R, line: &str, worked: &Answered) -> Result<()> {
    let (status, lines) = (worked.status, worked.lines());
    println!(rt; "{line}: status {status}, lines {lines:?}")?;
    Ok(())
}

/// Prints the status and the first line of a command. How many nodes are open when a search is stopped depends on the order of its workers.
fn show_answer<R: Print>(rt: &R, line: &str, worked: &Answered) -> Result<()> {
    let status = worked.status;
    let answer = worked.lines().lines().next().unwrap_or("");
    println!(rt; "{line}: status {status}, {answer}")?;
    Ok(())
}

/// Prints kinds of events.
fn show_kinds<R: Print>(rt: &R, kinds: &Kinds) -> io::Result<()> {
    let Kinds {
        events: _,
        claims,
        splits,
        closes,
        others,
        by_claimer,
    } = *kinds;
    println!(rt;
        "claims {claims}, splits {splits}, closes {closes}, others {others}, each node settled by the worker that claimed it {by_claimer}"
    )
}

/// Prints what a search did, if there is one.
fn show_search<R: Print>(rt: &R, worked: &Answered) -> io::Result<()> {
    match &worked.kinds {
        Some(kinds) => show_kinds(rt, kinds),
        None => println!(rt; "no search"),
    }
}

/// Prints whether two workers met, and whether they wrote this certificate.
fn show_met<R: Print>(
    rt: &R,
    worked: &Answered,
    meeting: &Meeting,
    certificate: &str,
) -> io::Result<()> {
    let (met, is_same) = (meeting.took_place(), worked.certificate() == certificate);
    println!(rt; "the workers met {met}, the certificate is that of one worker {is_same}")
}

/// Prints what a search of two workers answered and did.
fn show_worked<R: Print>(
    rt: &R,
    worked: &Answered,
    meeting: &Meeting,
    certificate: &str,
) -> Result<()> {
    show_lines(rt, BY_TWO, worked)?;
    show_search(rt, worked)?;
    show_met(rt, worked, meeting, certificate)?;
    Ok(())
}

/// Prints a search of two workers, and whether they meet and write this certificate.
fn show_pair<R: Threads + Wait + Sync + Print + Alloc<A = Global>>(
    rt: &R,
    meeting: &Meeting,
    certificate: &str,
) -> Result<()> {
    let disk = MemDisk::new(rt.alloc());
    let worked = work_on(rt, rt.alloc(), &usual(BY_TWO, ODD), disk, meeting)?;
    show_worked(rt, &worked, meeting, certificate)
}

/// Two workers that have to meet, and whether they write this certificate.
fn show_meeting<R: Threads + Wait + Sync + Print + Alloc<A = Global>>(
    rt: &R,
    certificate: &str,
) -> Result<()> {
    let meeting = Meeting::new();
    show_pair(rt, &meeting, certificate)
}

/// Two workers that have to meet, and the certificate that one worker writes.
fn show_two<R: Threads + Wait + Sync + Print + Alloc<A = Global>>(rt: &R) -> Result<()> {
    let alone = Answered::run(rt.alloc(), &usual("solve m j c --cuts 0", ODD))?;
    show_meeting(rt, alone.certificate())
}

/// Prints what a command answers on a disk.
fn show_work<R: Threads + Wait + Sync + Print + Alloc<A = Global>>(
    rt: &R,
    command: &Command<'_>,
    disk: MemDisk,
) -> Result<()> {
    let worked = work_on(rt, rt.alloc(), command, disk, &NoHold)?;
    show_lines(rt, command.line, &worked)
}

/// Prints the first line that a command answers on an empty disk. The disk as it left it.
fn show_with_disk<R: Threads + Wait + Sync + Print + Alloc<A = Global>>(
    rt: &R,
    command: &Command<'_>,
) -> Result<MemDisk> {
    let disk = MemDisk::new(rt.alloc());
    let worked = work_on(rt, rt.alloc(), command, disk, &NoHold)?;
    show_answer(rt, command.line, &worked)?;
    Ok(disk_of(worked))
}

/// A search that is stopped with some workers, and gone on with by others.
fn show_stopped<R: Threads + Wait + Sync + Print + Alloc<A = Global>>(
    rt: &R,
    first: &str,
    second: &str,
) -> Result<()> {
    let disk = show_with_disk(rt, &usual(first, ODD))?;
    show_work(rt, &usual(second, ""), disk)
}

/// Prints searches that are stopped and gone on with.
fn show_each_stopped<R: Threads + Wait + Sync + Print + Alloc<A = Global>>(rt: &R) -> Result<()> {
    for (first, second) in &STOPPED {
        show_stopped(rt, first, second)?;
    }
    Ok(())
}

/// Prints what other commands answer on empty disks.
fn show_others<R: Threads + Wait + Sync + Print + Alloc<A = Global>>(rt: &R) -> Result<()> {
    for line in &LINES {
        show_work(rt, &usual(line, ODD), MemDisk::new(rt.alloc()))?;
    }
    Ok(())
}

/// Prints commands with several workers.
pub(crate) fn show<R: Threads + Wait + Sync + Print + Alloc<A = Global>>(rt: &R) -> Result<()> {
    show_two(rt)?;
    show_each_stopped(rt)?;
    show_others(rt)
}
