// One case: the words of a run, its model, and what it has to answer.

use crate::block::Block;
use crate::change::Change;
use anyhow::{Context, Result, bail};

/// The words of a case that names none.
const USUAL_WORDS: &str = "solve model journal certificate";

/// What a run has to answer. Lines stand without the end of the last one; an empty text has none.
#[derive(Clone, Copy)]
pub struct Expected<'a> {
    pub status: u8,
    /// The lines that it writes to its output.
    pub lines: &'a str,
    /// The lines of the certificate, where the case says it. Where it doesn't, any one on status 0, and else none.
    pub certificate: Option<&'a str>,
}

/// Where the model of a case comes from.
#[derive(Clone, Copy)]
pub enum Source<'a> {
    /// The base text with changes.
    Base,
    /// A body in a form.
    Block(&'a str, &'a str),
    /// The file of this name beside the file of cases.
    File(&'a str),
}

/// A run and what it has to answer, besides the changes of the base text.
#[derive(Clone, Copy)]
pub struct Case<'a> {
    pub title: &'a str,
    /// The words of the run, parted by single blanks. A word `""` is the empty one; an empty line has no words.
    pub words: &'a str,
    pub source: Source<'a>,
    pub expected: Expected<'a>,
}

/// What the blocks of a case have said so far, besides changes.
#[derive(Clone, Copy)]
struct Draft<'a> {
    words: &'a str,
    source: Source<'a>,
    status: Option<u8>,
    lines: &'a str,
    certificate: Option<&'a str>,
}

impl<'a> Draft<'a> {
    fn new() -> Draft<'a> {
        Draft {
            words: USUAL_WORDS,
            source: Source::Base,
            status: None,
            lines: "",
            certificate: None,
        }
    }

    /// Takes the block of a status.
    fn take_status(&mut self, block: &Block<'a>) -> Result<()> {
        self.status = Some(block.rest.parse::<u8>()?);
        self.lines = block.body;
        Ok(())
    }

    /// Takes one more block, which is no change.
    fn take(&mut self, block: &Block<'a>) -> Result<()> {
        match block.word {
            "words" => self.words = block.rest,
            "model" => self.source = Source::Block(block.rest, block.body),
            "file" => self.source = Source::File(block.rest),
            "status" => self.take_status(block)?,
            "certificate" => self.certificate = Some(block.body),
            word => bail!("a block that isn't known: {word}"),
        }
        Ok(())
    }
}

/// Takes one more block, and pushes it where it is a change.
fn take_block<'a>(
    draft: &mut Draft<'a>,
    changes: &mut Vec<Change<'a>>,
    block: &Block<'a>,
) -> Result<()> {
    match block.word {
        "line" | "after" => Ok(changes.push(Change::read(block)?)?),
        _ => draft.take(block),
    }
}

/// Takes the blocks of a case behind its title, and pushes its changes.
fn draft_of<'a>(changes: &mut Vec<Change<'a>>, text: &'a str) -> Result<Draft<'a>> {
    let mut draft = Draft::new();
    for block in text.split("\n--- ").skip(1) {
        take_block(&mut draft, changes, &Block::new(block))?;
    }
    Ok(draft)
}

impl<'a> Case<'a> {
    /// The case of a text that begins with its title, and pushes the changes of the base text.
    pub(crate) fn read(changes: &mut Vec<Change<'a>>, text: &'a str) -> Result<Case<'a>> {
        let draft = draft_of(changes, text)?;
        let status = draft.status.context("a case without a status")?;
        Ok(Case {
            title: text.split("\n--- ").next().unwrap_or(""),
            words: draft.words,
            source: draft.source,
            expected: Expected {
                status,
                lines: draft.lines,
                certificate: draft.certificate,
            },
        })
    }
}
