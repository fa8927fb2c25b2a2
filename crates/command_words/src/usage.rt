// What is wrong with words that are no command, for a person. No contract says what it is.
use crate::table::table;
use crate::words::Words;
use clap::Error;
use std::alloc::{AllocError, Global};

/// What is wrong with words that are no command, in one line: what clap finds, or else that two paths are the same.
pub fn what_is_wrong(alloc: Global, words: &Words) -> Result<String, AllocError> {
    match table(alloc)?.try_get_matches_from(words.as_slice()) {
        Ok(_) => String::from_str(alloc, "two of the paths are the same"),
        Err(error) => first_lines(alloc, &error),
    }
}

// The text of the fault up to its first empty line, in one.
fn first_lines(alloc: Global, error: &Error) -> Result<String, AllocError> {
    let whole = format!(in alloc; "{error}")?;
    let text = whole.as_str();
    let text = text.strip_prefix("error: ").unwrap_or(text);
    let mut line = String::new(alloc);
    for part in text.lines() {
        if part.is_empty() {
            break;
        }
        if !line.is_empty() {
            line.push_str(" ")?;
        }
        line.push_str(part.trim())?;
    }
    Ok(line)
}
