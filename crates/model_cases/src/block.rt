// A block of a file of cases.

use crate::written::{escaped, plain, repeated};
use anyhow::{Result, bail};
use std::alloc::Global;

/// The lines below a line `--- WORD [NUMBER] [FORM]`, up to the next such line.
#[derive(Clone, Copy)]
pub struct Block<'a> {
    pub word: &'a str,
    pub rest: &'a str,
    pub body: &'a str,
}

impl<'a> Block<'a> {
    /// The block of a text whose first line is its head without the dashes. Empty lines at its end are no part of it.
    pub(crate) fn new(text: &'a str) -> Block<'a> {
        let (head, body) = match text.split_once('\n') {
            Some(parts) => parts,
            None => (text, ""),
        };
        let (word, rest) = match head.split_once(' ') {
            Some(parts) => parts,
            None => (head, ""),
        };
        Block {
            word,
            rest,
            body: body.trim_end_matches('\n'),
        }
    }
}

/// The bytes of a body in a form: as it stands, `escaped`, or `repeated COUNT`.
pub(crate) fn bytes_of(alloc: Global, form: &str, body: &str) -> Result<Vec<u8>> {
    if form.is_empty() {
        return Ok(plain(alloc, body)?);
    }
    if form == "escaped" {
        return escaped(alloc, body);
    }
    match form.strip_prefix("repeated ") {
        Some(count) => Ok(repeated(alloc, body, count.parse::<u32>()?)?),
        None => bail!("a form that isn't known: {form}"),
    }
}
