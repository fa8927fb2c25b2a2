//! The paths of a command.

use command_words::{Paths, Words, paths_of};
use std::alloc::{AllocError, Global};
use std::io;

/// Lines that are commands, and lines that are none.
const LINES: [&str; 19] = [
    "solve m --nodes 3 j c",
    "solve -- -m --nodes c",
    "solve m j",
    "solve m j m",
    "resume j --cuts 0 c",
    "resume a a",
    "resume a b --upper 3",
    "show j",
    "show a b",
    "show --nodes 3 a",
    "drill 1000000000 --nodes 3 c",
    "drill +07 -",
    "drill 7 7",
    "drill x c",
    "drill 1000000001 c",
    "drill -1 c",
    "drill -- -1 c",
    "drill c",
    "help",
];

/// Puts the words of a line behind others.
fn push_words(alloc: Global, words: &mut Words, line: &str) -> Result<(), AllocError> {
    for word in line.split_whitespace() {
        words.push(alloc, word)?;
    }
    Ok(())
}

/// The words of a line.
fn words_of(alloc: Global, line: &str) -> Result<Words, AllocError> {
    let mut words = Words::new(alloc);
    push_words(alloc, &mut words, line)?;
    Ok(words)
}

/// Prints a path behind words.
fn show_path<R: Print>(rt: &R, words: &str, path: &Option<String>) -> io::Result<()> {
    let path = path.as_deref().unwrap_or("none");
    print!(rt; "{words}{path}")
}

/// Prints paths.
fn show_paths<R: Print>(rt: &R, paths: &Paths) -> io::Result<()> {
    show_path(rt, ": model ", &paths.model)?;
    show_path(rt, ", journal ", &paths.journal)?;
    show_path(rt, ", certificate ", &paths.cert)?;
    println!(rt; "")
}

/// Prints the paths of the words of a line.
fn show_words<R: Print + Alloc<A = Global>>(rt: &R, line: &str, words: &Words) -> io::Result<()> {
    print!(rt; "words {line}")?;
    match paths_of(rt.alloc(), words) {
        Ok(paths) => show_paths(rt, &paths),
        Err(fault) => println!(rt; ": {fault:?}"),
    }
}

/// Prints the paths of a line.
fn show_line<R: Print + Alloc<A = Global>>(rt: &R, line: &str) -> io::Result<()> {
    let words = words_of(rt.alloc(), line)?;
    show_words(rt, line, &words)
}

/// Prints the paths of each line.
pub(crate) fn show<R: Print + Alloc<A = Global>>(rt: &R) -> io::Result<()> {
    for line in &LINES {
        show_line(rt, line)?;
    }
    Ok(())
}
