//! Commands over journals whose events stand in groups, and in groups that are refused.

use anyhow::Result;
use case_runs::{
    Answered, BEHIND_MODEL, Command, More, ONE, show_command, show_hexadecimal, usual, with_frames,
};
use std::alloc::Global;
use std::io;

/// Frames with groups that are refused as a whole.
const REFUSED: [(&str, &[u8]); 12] = [
    (
        "a group of none",
        b"\x01\x1a\0\0\0\x06\0\x03\x01\0\0\0\x02\0\0\0\0\0\0\0\x05\0\0\0\0\x01\0\0\0\0\0\0",
    ),
    (
        "a group of one",
        b"\x01\x0f\0\0\0\x06\x01\x03\x01\0\0\0\x02\0\0\0\0\0\0\0\0",
    ),
    (
        "a group of 65",
        b"\x01\x1a\0\0\0\x06\x41\x03\x01\0\0\0\x02\0\0\0\0\0\0\0\x05\0\0\0\0\x01\0\0\0\0\0\0",
    ),
    (
        "a group that is cut",
        b"\x01\x19\0\0\0\x06\x02\x03\x01\0\0\0\x02\0\0\0\0\0\0\0\x05\0\0\0\0\x01\0\0\0\0\0",
    ),
    (
        "a group whose third event isn't legal",
        b"\x01\x25\0\0\0\x06\x03\x03\x01\0\0\0\x02\0\0\0\0\0\0\0\x05\0\0\0\0\x01\0\0\0\0\0\x05\0\0\0\0\x01\0\0\0\0\0\0",
    ),
    (
        "a group in a group",
        b"\x01\x11\0\0\0\x06\x02\x06\x02\x03\x01\0\0\0\x02\0\0\0\0\0\0\0\0",
    ),
    (
        "a group of none behind the upgrade",
        b"\x01\x02\0\0\0\x07\x02\x01\x0a\0\0\0\x06\0\x03\x01\x04\x05\0\x01\0\0\0",
    ),
    (
        "a group of one behind the upgrade",
        b"\x01\x02\0\0\0\x07\x02\x01\x05\0\0\0\x06\x01\x03\x01\x04\0",
    ),
    (
        "a group of 65 behind the upgrade",
        b"\x01\x02\0\0\0\x07\x02\x01\x0a\0\0\0\x06\x41\x03\x01\x04\x05\0\x01\0\0\0",
    ),
    (
        "a group that is cut behind the upgrade",
        b"\x01\x02\0\0\0\x07\x02\x01\x09\0\0\0\x06\x02\x03\x01\x04\x05\0\x01\0\0",
    ),
    (
        "a third event that isn't legal behind the upgrade",
        b"\x01\x02\0\0\0\x07\x02\x01\x0f\0\0\0\x06\x03\x03\x01\x04\x05\0\x01\0\0\x05\0\x01\0\0\0",
    ),
    (
        "a group in a group behind the upgrade",
        b"\x01\x02\0\0\0\x07\x02\x01\x07\0\0\0\x06\x02\x06\x02\x03\x01\x04\0",
    ),
];

/// Prints the length of a journal, and what stands behind the record of its model.
fn show_behind_model<R: Print>(rt: &R, journal: &[u8]) -> io::Result<()> {
    let length = journal.len();
    let start = length.min(BEHIND_MODEL);
    print!(rt; "a finished search: {length} bytes, behind the model:")?;
    show_hexadecimal(rt, &journal[start..])
}

/// Prints what a command answers over a journal with these frames, and whether the disk is as it was.
pub(crate) fn show_framed<R: Print + Alloc<A = Global>>(
    rt: &R,
    title: &str,
    line: &str,
    journal: &[u8],
    frames: &[u8],
) -> Result<()> {
    let bytes = with_frames(rt.alloc(), journal, frames)?;
    let command = Command {
        bytes: &bytes,
        ..usual(line, ONE)
    };
    let more = More::Same("the disk is as it was", &bytes);
    show_command(rt, title, &command, more)
}

/// Journals of groups that are refused, with the place of the group.
fn show_refused<R: Print + Alloc<A = Global>>(rt: &R, journal: &[u8]) -> Result<()> {
    for (title, frames) in &REFUSED {
        show_framed(rt, title, "resume j c", journal, frames)?;
    }
    Ok(())
}

/// The journal of a finished search, byte by byte, and those with other groups.
pub(crate) fn show<R: Print + Alloc<A = Global>>(rt: &R) -> Result<()> {
    let finished = Answered::run(rt.alloc(), &usual("solve m j c", ONE))?;
    let journal = finished.journal(rt.alloc())?;
    show_behind_model(rt, &journal)?;
    show_refused(rt, &journal)
}
