// Changes of the text that a file of cases begins with.

use crate::block::{Block, bytes_of};
use anyhow::Result;
use std::alloc::Global;

/// Where the lines of a change stand.
#[derive(Clone, Copy, Debug, PartialEq, Eq, Drop)]
enum Place {
    /// In the place of the line of this number.
    Instead(usize),
    /// Behind it; behind line 0 is before the first line.
    Behind(usize),
}

/// Lines that stand in the place of a line or behind it.
#[derive(Clone, Copy)]
pub struct Change<'a> {
    place: Place,
    form: &'a str,
    body: &'a str,
}

impl<'a> Change<'a> {
    /// The change of a block `line NUMBER` or `after NUMBER`, and its form.
    pub(crate) fn read(block: &Block<'a>) -> Result<Change<'a>> {
        let (number, form) = match block.rest.split_once(' ') {
            Some(parts) => parts,
            None => (block.rest, ""),
        };
        let number = number.parse::<usize>()?;
        let place = if block.word == "line" {
            Place::Instead(number)
        } else {
            Place::Behind(number)
        };
        Ok(Change {
            place,
            form,
            body: block.body,
        })
    }
}

/// Pushes the lines of a change.
fn push_change(text: &mut Vec<u8>, alloc: Global, change: &Change<'_>) -> Result<()> {
    let lines = bytes_of(alloc, change.form, change.body)?;
    text.extend_from_slice(&lines)?;
    Ok(())
}

/// Pushes the lines of the changes that stand at a place. Whether there are any.
fn push_at(
    text: &mut Vec<u8>,
    alloc: Global,
    changes: &[Change<'_>],
    place: Place,
) -> Result<bool> {
    let mut any = false;
    for change in changes {
        if change.place == place {
            push_change(text, alloc, change)?;
            any = true;
        }
    }
    Ok(any)
}

/// Pushes a line, if no change stands in its place.
fn push_line(
    text: &mut Vec<u8>,
    alloc: Global,
    changes: &[Change<'_>],
    number: usize,
    line: &str,
) -> Result<()> {
    if !push_at(text, alloc, changes, Place::Instead(number))? {
        text.extend_from_slice(line.as_bytes())?;
        text.push(b'\n')?;
    }
    Ok(())
}

/// Pushes a text with changes of its lines.
fn push_changed(
    text: &mut Vec<u8>,
    alloc: Global,
    base: &str,
    changes: &[Change<'_>],
) -> Result<()> {
    push_at(text, alloc, changes, Place::Behind(0))?;
    for (index, line) in base.lines().enumerate() {
        let number = index.saturating_add(1);
        push_line(text, alloc, changes, number, line)?;
        push_at(text, alloc, changes, Place::Behind(number))?;
    }
    Ok(())
}

/// A text with changes of its lines.
pub(crate) fn changed(alloc: Global, base: &str, changes: &[Change<'_>]) -> Result<Vec<u8>> {
    let mut text = Vec::new(alloc);
    push_changed(&mut text, alloc, base, changes)?;
    Ok(text)
}
