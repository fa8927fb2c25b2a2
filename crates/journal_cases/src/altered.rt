//! Commands over the journal of a finished search that was cut, or of which one byte was changed.

use anyhow::Result;
use case_runs::{Answered, Command, More, ONE, show_command, usual};
use std::alloc::{AllocError, Global};

const SOLVE: &str = "solve m j c";

/// A change of a journal.
#[derive(Clone, Copy)]
enum Change {
    /// It is cut to this size.
    Cut(usize),
    /// The byte at this place gets this value.
    Set(usize, u8),
}

/// What the disk holds in the end.
#[derive(Clone, Copy)]
enum Left {
    /// The journal of the whole search.
    Whole,
    /// What it held before.
    AsItWas,
}

/// Changes behind which no record of the model counts, and the search begins anew; behind which that record alone counts, or it and the upgrade; and which
/// are refused.
const SOLVED: [(&str, Change, Left); 13] = [
    ("cut to 9 bytes", Change::Cut(9), Left::Whole),
    ("byte 8 set to 00", Change::Set(8, 0), Left::Whole),
    ("cut to 150 bytes", Change::Cut(150), Left::Whole),
    ("cut to 151 bytes", Change::Cut(151), Left::Whole),
    ("byte 150 set to 37", Change::Set(150, 0x37), Left::Whole),
    ("cut to 100 bytes", Change::Cut(100), Left::AsItWas),
    ("cut to 156 bytes", Change::Cut(156), Left::AsItWas),
    ("cut to 157 bytes", Change::Cut(157), Left::Whole),
    ("cut to 158 bytes", Change::Cut(158), Left::Whole),
    ("byte 157 set to 37", Change::Set(157, 0x37), Left::Whole),
    ("cut to 160 bytes", Change::Cut(160), Left::AsItWas),
    ("byte 155 set to ff", Change::Set(155, 0xff), Left::AsItWas),
    ("byte 0 set to 58", Change::Set(0, 0x58), Left::AsItWas),
];

/// Changes behind which there is no search to go on with.
const RESUMED: [(&str, Change); 2] = [
    ("cut to 9 bytes and resumed", Change::Cut(9)),
    ("byte 8 set to 00 and resumed", Change::Set(8, 0)),
];

/// A journal with a change.
fn changed(alloc: Global, journal: &[u8], change: Change) -> Result<Vec<u8>, AllocError> {
    let mut made = journal.to_vec(alloc)?;
    match change {
        Change::Cut(size) => made.truncate(size),
        Change::Set(place, value) => {
            if place < made.len() {
                made[place] = value;
            }
        }
    }
    Ok(made)
}

/// Prints what a command answers over these bytes, and whether its disk then holds what it has to.
fn show_over<'a, R: Print + Alloc<A = Global>>(
    rt: &R,
    title: &str,
    line: &'a str,
    bytes: &'a [u8],
    more: More<'_>,
) -> Result<()> {
    let command = Command {
        bytes,
        ..usual(line, ONE)
    };
    show_command(rt, title, &command, more)
}

/// Prints what a search answers over the changed journal.
fn show_solved<R: Print + Alloc<A = Global>>(
    rt: &R,
    title: &str,
    journal: &[u8],
    change: Change,
    left: Left,
) -> Result<()> {
    let bytes = changed(rt.alloc(), journal, change)?;
    let more = match left {
        Left::Whole => More::Same("the journal of the whole search", journal),
        Left::AsItWas => More::Same("the disk is as it was", &bytes),
    };
    show_over(rt, title, SOLVE, &bytes, more)
}

/// Prints what a search that is to go on answers over the changed journal.
fn show_resumed<R: Print + Alloc<A = Global>>(
    rt: &R,
    title: &str,
    journal: &[u8],
    change: Change,
) -> Result<()> {
    let bytes = changed(rt.alloc(), journal, change)?;
    let more = More::Same("the disk is as it was", &bytes);
    show_over(rt, title, "resume j c", &bytes, more)
}

/// Prints what searches answer over this journal with changes.
fn show_each_solved<R: Print + Alloc<A = Global>>(rt: &R, journal: &[u8]) -> Result<()> {
    for (title, change, left) in &SOLVED {
        show_solved(rt, title, journal, *change, *left)?;
    }
    Ok(())
}

/// Prints what commands answer over this journal with changes.
fn show_changed<R: Print + Alloc<A = Global>>(rt: &R, journal: &[u8]) -> Result<()> {
    show_each_solved(rt, journal)?;
    for (title, change) in &RESUMED {
        show_resumed(rt, title, journal, *change)?;
    }
    Ok(())
}

/// Commands over the journal of a finished search with changes.
pub(crate) fn show<R: Print + Alloc<A = Global>>(rt: &R) -> Result<()> {
    let finished = Answered::run(rt.alloc(), &usual(SOLVE, ONE))?;
    show_changed(rt, finished.disk.bytes())
}
