//! Commands over journals with the record of the upgrade, and over journals that programs wrote before there was one.

use crate::groups::show_framed;
use anyhow::Result;
use case_runs::{Answered, Command, More, ODD, ONE, show_command, show_line, usual, with_frames};
use std::alloc::{AllocError, Global};

const SHOW: &str = "show j";

const RESUME: &str = "resume j c --cuts 0";

/// Where the gate behind the record of the model `ODD` stands.
const BEHIND_ODD: usize = 161;

/// Frames of the search of the model `ONE`: as a program wrote them that had no upgrade, and what they are once a program has gone on from there.
const OLDER: [(&str, &[u8], &[u8]); 3] = [
    (
        "an older group",
        b"\x01\x1a\0\0\0\x06\x02\x03\x01\0\0\0\x02\0\0\0\0\0\0\0\x05\0\0\0\0\x01\0\0\0\0\0\0",
        b"\x01\x1a\0\0\0\x06\x02\x03\x01\0\0\0\x02\0\0\0\0\0\0\0\x05\0\0\0\0\x01\0\0\0\0\0\x01\x02\0\0\0\x07\x02\0",
    ),
    (
        "older events, each alone",
        b"\x01\x0d\0\0\0\x03\x01\0\0\0\x02\0\0\0\0\0\0\0\x01\x0b\0\0\0\x05\0\0\0\0\x01\0\0\0\0\0\0",
        b"\x01\x0d\0\0\0\x03\x01\0\0\0\x02\0\0\0\0\0\0\0\x01\x0b\0\0\0\x05\0\0\0\0\x01\0\0\0\0\0\x01\x02\0\0\0\x07\x02\0",
    ),
    (
        "an older offer",
        b"\x01\x0d\0\0\0\x03\x01\0\0\0\x02\0\0\0\0\0\0\0\0",
        b"\x01\x0d\0\0\0\x03\x01\0\0\0\x02\0\0\0\0\0\0\0\x01\x02\0\0\0\x07\x02\x01\x05\0\0\0\x05\0\x01\0\0\0",
    ),
];

/// The first split of the model `ODD`, as an older program left it whose budget was spent.
const OLDER_SPLIT: &[u8] =
    b"\x01\x5a\0\0\0\x04\0\0\0\0\x01\0\0\0\0\0\0\0\0\0\0\0\0\0\0\0\0\x02\0\0\0\x01\0\0\0\0\0\0\0\0\0\0\0\0\0\0\0\x01\0\0\0\0\0\0\0\0\0\0\0\0\0\0\0\x01\0\0\0\0\0\0\0\0\0\0\0\0\0\0\0\x02\0\0\0\0\0\0\0\0\0\0\0\0\0\0\0\0";

/// What it is once a program has gone on from there.
const GONE_ON: &[u8] =
    b"\x01\x5a\0\0\0\x04\0\0\0\0\x01\0\0\0\0\0\0\0\0\0\0\0\0\0\0\0\0\x02\0\0\0\x01\0\0\0\0\0\0\0\0\0\0\0\0\0\0\0\x01\0\0\0\0\0\0\0\0\0\0\0\0\0\0\0\x01\0\0\0\0\0\0\0\0\0\0\0\0\0\0\0\x02\0\0\0\0\0\0\0\0\0\0\0\0\0\0\0\x01\x02\0\0\0\x07\x02\x01\x0b\0\0\0\x04\x02\0\0\0\0\x02\x02\x04\x02\x02\x01\x07\0\0\0\x05\x04\0\x01\0\x01\x02\x01\x07\0\0\0\x05\x03\0\x01\0\x02\x02\x01\x07\0\0\0\x05\x01\0\x01\0\x02\x02\0";

/// Frames that are taken: how many events they have doesn't depend on where the upgrade stands.
const TAKEN: [(&str, &[u8]); 4] = [
    ("an upgrade alone", b"\x01\x02\0\0\0\x07\x02\0"),
    (
        "an upgrade, then a group",
        b"\x01\x02\0\0\0\x07\x02\x01\x0a\0\0\0\x06\x02\x03\x01\x04\x05\0\x01\0\0\0",
    ),
    (
        "an offer, an upgrade, and a close",
        b"\x01\x0d\0\0\0\x03\x01\0\0\0\x02\0\0\0\0\0\0\0\x01\x02\0\0\0\x07\x02\x01\x05\0\0\0\x05\0\x01\0\0\0",
    ),
    (
        "a group, then an upgrade",
        b"\x01\x1a\0\0\0\x06\x02\x03\x01\0\0\0\x02\0\0\0\0\0\0\0\x05\0\0\0\0\x01\0\0\0\0\0\x01\x02\0\0\0\x07\x02\0",
    ),
];

/// Frames that are refused.
const REFUSED: [(&str, &[u8]); 11] = [
    (
        "two upgrades",
        b"\x01\x02\0\0\0\x07\x02\x01\x02\0\0\0\x07\x02\0",
    ),
    (
        "an upgrade again behind a group",
        b"\x01\x02\0\0\0\x07\x02\x01\x0a\0\0\0\x06\x02\x03\x01\x04\x05\0\x01\0\0\x01\x02\0\0\0\x07\x02\0",
    ),
    ("an upgrade of no encoding", b"\x01\x01\0\0\0\x07\0"),
    ("an upgrade to encoding 1", b"\x01\x02\0\0\0\x07\x01\0"),
    ("an upgrade to encoding 3", b"\x01\x02\0\0\0\x07\x03\0"),
    ("an upgrade with a byte more", b"\x01\x03\0\0\0\x07\x02\0\0"),
    (
        "encoding 2 before the upgrade",
        b"\x01\x0a\0\0\0\x06\x02\x03\x01\x04\x05\0\x01\0\0\x01\x02\0\0\0\x07\x02\0",
    ),
    (
        "encoding 1 behind the upgrade",
        b"\x01\x02\0\0\0\x07\x02\x01\x1a\0\0\0\x06\x02\x03\x01\0\0\0\x02\0\0\0\0\0\0\0\x05\0\0\0\0\x01\0\0\0\0\0\0",
    ),
    (
        "a number in a byte too many",
        b"\x01\x02\0\0\0\x07\x02\x01\x04\0\0\0\x03\x01\x84\0\0",
    ),
    (
        "a number past its type",
        b"\x01\x02\0\0\0\x07\x02\x01\x08\0\0\0\x05\x80\x80\x80\x80\x10\x02\0\0",
    ),
    (
        "a number without an end",
        b"\x01\x02\0\0\0\x07\x02\x01\x03\0\0\0\x03\x01\x84\0",
    ),
];

/// Prints what a search that goes on answers over older frames, whether that is what a search from nothing answers, and whether they were left with
/// the upgrade behind them.
fn show_gone_on<R: Print + Alloc<A = Global>>(
    rt: &R,
    title: &str,
    finished: &Answered,
    frames: &[u8],
    wanted: &[u8],
) -> Result<()> {
    let journal = finished.disk.bytes();
    let bytes = with_frames(rt.alloc(), journal, frames)?;
    let left = with_frames(rt.alloc(), journal, wanted)?;
    let command = Command {
        bytes: &bytes,
        ..usual("solve m j c", ONE)
    };
    let ran = Answered::run(rt.alloc(), &command)?;
    let (answers, is_left) = (
        ran.answers_as(finished),
        ran.disk.bytes() == left.as_slice(),
    );
    println!(rt; "{title}: solved as from nothing {answers}, left with the upgrade {is_left}")?;
    show_line(rt, title, SHOW, "", &left)
}

/// Journals that older programs wrote, shown and gone on with.
fn show_older<R: Print + Alloc<A = Global>>(rt: &R, finished: &Answered) -> Result<()> {
    for (title, frames, wanted) in &OLDER {
        show_framed(rt, title, SHOW, finished.disk.bytes(), frames)?;
        show_gone_on(rt, title, finished, frames, wanted)?;
    }
    Ok(())
}

/// The journal of the model `ODD` with these frames behind its record.
fn odd_journal(alloc: Global, journal: &[u8], frames: &[u8]) -> Result<Vec<u8>, AllocError> {
    let end = journal.len().min(BEHIND_ODD);
    let mut made = journal[..end].to_vec(alloc)?;
    made.extend_from_slice(frames)?;
    Ok(made)
}

/// A search that an older program left whose budget was spent, with these bytes, and that goes on, with the bytes that it leaves then.
fn show_split<R: Print + Alloc<A = Global>>(rt: &R, bytes: &[u8], left: &[u8]) -> Result<()> {
    show_line(rt, "an older split", SHOW, "", bytes)?;
    let command = Command {
        bytes,
        ..usual(RESUME, "")
    };
    let more = More::Same("gone on with in encoding 2", left);
    show_command(rt, "an older split", &command, more)
}

/// The same with its journals.
fn show_older_split<R: Print + Alloc<A = Global>>(rt: &R) -> Result<()> {
    let whole = Answered::run(rt.alloc(), &usual("solve m j c --cuts 0", ODD))?;
    let bytes = odd_journal(rt.alloc(), whole.disk.bytes(), OLDER_SPLIT)?;
    let left = odd_journal(rt.alloc(), whole.disk.bytes(), GONE_ON)?;
    show_split(rt, &bytes, &left)
}

/// Journals in which the upgrade stands where it may.
fn show_taken<R: Print + Alloc<A = Global>>(rt: &R, journal: &[u8]) -> Result<()> {
    for (title, frames) in &TAKEN {
        show_framed(rt, title, SHOW, journal, frames)?;
        show_framed(rt, title, "solve m j c", journal, frames)?;
    }
    Ok(())
}

/// The mark, the upgrade, and all of a journal behind its mark.
fn upgrade_first(alloc: Global, journal: &[u8]) -> Result<Vec<u8>, AllocError> {
    let mut made = b"BNCJRNL1\x01\x02\0\0\0\x07\x02".to_vec(alloc)?;
    made.extend_from_slice(&journal[journal.len().min(8)..])?;
    Ok(made)
}

/// Journals in which the upgrade stands where it may not, or isn't what it has to be, or in which a payload isn't in its encoding.
fn show_refused<R: Print + Alloc<A = Global>>(rt: &R, journal: &[u8]) -> Result<()> {
    for (title, frames) in &REFUSED {
        show_framed(rt, title, "resume j c", journal, frames)?;
    }
    let bytes = upgrade_first(rt.alloc(), journal)?;
    show_line(
        rt,
        "an upgrade before the model",
        "solve m j c",
        ONE,
        &bytes,
    )?;
    show_line(rt, "an upgrade before the model", SHOW, "", &bytes)
}

/// Commands over journals with the record of the upgrade, and over older ones.
pub(crate) fn show<R: Print + Alloc<A = Global>>(rt: &R) -> Result<()> {
    let finished = Answered::run(rt.alloc(), &usual("solve m j c", ONE))?;
    show_older(rt, &finished)?;
    show_older_split(rt)?;
    show_taken(rt, finished.disk.bytes())?;
    show_refused(rt, finished.disk.bytes())
}
