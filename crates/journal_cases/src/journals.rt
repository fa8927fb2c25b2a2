//! Commands over journals: begun, gone on with, shown, refused, and on disks and streams that fail.

use anyhow::Result;
use case_runs::{
    Answered, Command, EMPTY, FAR, MOST, More, ODD, ONE, SOUND, Stream, show_command, show_line,
    show_on, show_with_disk, usual,
};
use outside::MemDisk;
use std::alloc::{AllocError, Global};

const SOLVE: &str = "solve m j c";

/// Searches that begin a journal.
const BEGUN: [&str; 3] = [
    "solve m j c --cuts 0 --nodes 3",
    "solve m j c --cuts 0 --nodes 4",
    "solve m j c --cuts 0 --nodes 5",
];

/// Commands that read a journal.
const READING: [&str; 3] = [SOLVE, "resume j c", "show j"];

/// A stream that fails at once.
const FAILS_AT_ONCE: Stream<'static> = Stream {
    failing: &[0],
    ..SOUND
};

/// Commands over the journal of a search that was spent at one node: one that shows it, and one that goes on to three nodes.
fn show_after<R: Print + Alloc<A = Global>>(rt: &R, journal: &[u8]) -> Result<()> {
    let on_to_three = "resume j c --cuts 0 --nodes 3";
    show_line(rt, "shown", "show j", "", journal)?;
    show_line(rt, "resumed to three nodes", on_to_three, "", journal)
}

/// A search that is spent at one node, and those that go on from there.
fn show_spent<R: Print + Alloc<A = Global>>(rt: &R) -> Result<()> {
    let first = usual("solve m j c --cuts 0 --nodes 1", ODD);
    let disk = show_with_disk(rt, "spent at one node", &first)?;
    show_after(rt, disk.bytes())?;
    let last = usual("resume j c --cuts 0", "");
    show_on(rt, "resumed", &last, disk, More::Certificate)
}

/// A maximised search that is spent at three nodes with a point, and what is shown of it.
fn show_spent_maximum<R: Print + Alloc<A = Global>>(rt: &R) -> Result<()> {
    let first = usual("solve m j c --cuts 0 --nodes 3", MOST);
    let disk = show_with_disk(rt, "a maximum, spent at three nodes", &first)?;
    show_line(rt, "the maximum is shown", "show j", "", disk.bytes())
}

/// Commands that begin journals, the first of which has one event and is known byte by byte, and that go on with one.
pub(crate) fn show_first<R: Print + Alloc<A = Global>>(rt: &R) -> Result<()> {
    show_command(rt, "an empty box", &usual(SOLVE, EMPTY), More::End)?;
    for line in &BEGUN {
        show_line(rt, line, line, ODD, b"")?;
    }
    show_spent(rt)?;
    show_spent_maximum(rt)
}

/// The bytes of the journal of a finished search.
fn finished(alloc: Global) -> Result<Vec<u8>> {
    let one = Answered::run(alloc, &usual(SOLVE, ONE))?;
    one.journal(alloc)
}

/// Prints what a command answers over a journal, and whether the disk is as it was.
fn show_kept<'a, R: Print + Alloc<A = Global>>(
    rt: &R,
    title: &str,
    line: &'a str,
    model: &'a str,
    journal: &'a [u8],
) -> Result<()> {
    let command = Command {
        bytes: journal,
        ..usual(line, model)
    };
    let more = More::Same("the disk is as it was", journal);
    show_command(rt, title, &command, more)
}

/// A journal whose last frame isn't whole though its gate is open.
fn damaged(alloc: Global) -> Result<Vec<u8>, AllocError> {
    let mut damaged = b"BNCJRNL1\x01\x64\0\0\0".to_vec(alloc)?;
    damaged.extend_from_slice(&[7; 50])?;
    Ok(damaged)
}

/// Prints what commands that read a journal answer over these bytes.
fn show_reading<R: Print + Alloc<A = Global>>(rt: &R, bytes: &[u8]) -> Result<()> {
    for line in &READING {
        show_line(rt, "a frame that isn't whole", line, ONE, bytes)?;
    }
    Ok(())
}

/// Commands over a journal whose last frame isn't whole though its gate is open.
fn show_damaged<R: Print + Alloc<A = Global>>(rt: &R) -> Result<()> {
    let damaged = damaged(rt.alloc())?;
    show_reading(rt, &damaged)
}

/// A journal with its gate closed, and more bytes behind it.
fn longer(alloc: Global, journal: &[u8]) -> Result<Vec<u8>, AllocError> {
    let mut longer = journal.to_vec(alloc)?;
    if let Some(last) = longer.last_mut() {
        *last = 0x37;
    }
    longer.extend_from_slice(b"and more")?;
    Ok(longer)
}

/// A journal behind whose closed gate more bytes stand, which don't count.
fn show_longer<R: Print + Alloc<A = Global>>(rt: &R, journal: &[u8]) -> Result<()> {
    let longer = longer(rt.alloc(), journal)?;
    let command = Command {
        bytes: &longer,
        ..usual(SOLVE, ONE)
    };
    let more = More::Same("recovered", journal);
    show_command(rt, "a closed gate and more behind it", &command, more)
}

/// Prints what a search answers on a disk, and whether it still holds this journal.
fn show_again<R: Print + Alloc<A = Global>>(rt: &R, disk: MemDisk, journal: &[u8]) -> Result<()> {
    let more = More::Same("no new event", journal);
    show_on(rt, "with a good one", &usual(SOLVE, ONE), disk, more)
}

/// A certificate's sink that fails, and the same command again.
fn show_sink<R: Print + Alloc<A = Global>>(rt: &R) -> Result<()> {
    let cert = Stream {
        failing: &[1],
        ..SOUND
    };
    let command = Command {
        cert,
        ..usual(SOLVE, ONE)
    };
    let disk = show_with_disk(rt, "a sink that fails", &command)?;
    let journal = disk.bytes().to_vec(rt.alloc())?;
    show_again(rt, disk, &journal)
}

/// A source that fails at once.
fn show_source<R: Print + Alloc<A = Global>>(rt: &R) -> Result<()> {
    let command = Command {
        source: FAILS_AT_ONCE,
        ..usual(SOLVE, ONE)
    };
    show_command(rt, "a source that fails", &command, More::Calls)
}

/// Prints what a command answers whose disk fails at once.
fn show_failing_disk<R: Print + Alloc<A = Global>>(rt: &R, line: &str) -> Result<()> {
    let command = Command {
        stop: Some(0),
        ..usual(line, ONE)
    };
    show_command(rt, "a disk that fails", &command, More::Nothing)
}

/// Streams and disks that fail, where a journal is begun or read.
fn show_faults<R: Print + Alloc<A = Global>>(rt: &R) -> Result<()> {
    show_sink(rt)?;
    show_source(rt)?;
    for line in &READING {
        show_failing_disk(rt, line)?;
    }
    Ok(())
}

/// What is shown of a journal to a sink that fails.
fn show_unwritten<R: Print + Alloc<A = Global>>(rt: &R, journal: &[u8]) -> Result<()> {
    let command = Command {
        out: FAILS_AT_ONCE,
        bytes: journal,
        ..usual("show j", "")
    };
    let title = "a journal is shown to a sink that fails";
    show_command(rt, title, &command, More::Nothing)
}

/// Drills, whose own disks are in memory: to the end, and to three nodes.
fn show_drills<R: Print + Alloc<A = Global>>(rt: &R) -> Result<()> {
    let command = Command {
        bytes: b"kept",
        stop: Some(0),
        ..usual("drill 1 c --cuts 0", "")
    };
    let line = "drill 1 c --cuts 0 --nodes 3";
    show_command(rt, "a drill", &command, More::CallsOf(b"kept"))?;
    show_line(rt, "a drill of three nodes", line, "", b"")
}

/// Commands over other journals than this one of a finished search.
fn show_other_journals<R: Print + Alloc<A = Global>>(rt: &R, journal: &[u8]) -> Result<()> {
    show_line(rt, "nine bytes", SOLVE, ONE, b"123456789")?;
    show_line(rt, "ten bytes", SOLVE, ONE, b"1234567890")?;
    show_kept(rt, "another model", SOLVE, FAR, journal)?;
    show_line(rt, "resume on an empty disk", "resume j c", "", b"")?;
    show_line(rt, "show on an empty disk", "show j", "", b"")?;
    show_damaged(rt)?;
    show_longer(rt, journal)
}

/// Commands over other journals than this one of a finished search, over streams and disks that fail, what is shown of this one, and drills.
fn show_beside<R: Print + Alloc<A = Global>>(rt: &R, journal: &[u8]) -> Result<()> {
    show_other_journals(rt, journal)?;
    show_faults(rt)?;
    show_kept(rt, "a journal is shown", "show j", "", journal)?;
    show_unwritten(rt, journal)?;
    show_drills(rt)
}

/// Commands over journals that aren't begun as they should be, over streams and disks that fail, and drills.
pub(crate) fn show_others<R: Print + Alloc<A = Global>>(rt: &R) -> Result<()> {
    let journal = finished(rt.alloc())?;
    show_beside(rt, &journal)
}
