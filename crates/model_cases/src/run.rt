// Runs of cases over memory.

use crate::case::Case;
use crate::outcome::Outcome;
use crate::report::show_difference;
use anyhow::Result;
use outside::{MemDisk, MemSink, MemSource};
use solve_top::{Ran, Words, run_one};
use std::alloc::{AllocError, Global};
use std::hash::{BuildHasherDefault, DefaultHasher};

/// Pushes the words of a line, parted by single blanks. A word `""` is the empty one.
fn push_words(words: &mut Words, alloc: Global, line: &str) -> Result<(), AllocError> {
    for word in line.split(' ') {
        words.push(alloc, if word == "\"\"" { "" } else { word })?;
    }
    Ok(())
}

/// The words of a line. An empty line has none.
fn words_of(alloc: Global, line: &str) -> Result<Words, AllocError> {
    let mut words = Words::new(alloc);
    if !line.is_empty() {
        push_words(&mut words, alloc, line)?;
    }
    Ok(words)
}

/// The status of a run.
fn status_of(ran: Ran<MemDisk>) -> u8 {
    let Ran {
        status,
        disk: _,
        last: _,
    } = ran;
    status
}

/// Runs the top call on an empty disk. Its status.
fn run_words(
    alloc: Global,
    words: &Words,
    model: &mut MemSource,
    cert: &mut MemSink,
    out: &mut MemSink,
) -> u8 {
    let keys: BuildHasherDefault<DefaultHasher> = BuildHasherDefault::new();
    let disk = MemDisk::new(alloc);
    status_of(run_one(alloc, keys, words, model, disk, cert, out))
}

/// Whether a case differs from what was seen; then it is shown.
fn judged<R: Print>(rt: &R, path: &str, case: &Case<'_>, seen: &Outcome<'_>) -> Result<bool> {
    if seen.meets(&case.expected) {
        return Ok(false);
    }
    show_difference(rt, path, case, seen)?;
    Ok(true)
}

/// Runs a case with these words over this source. Whether it differs; then it is shown.
fn words_differ<R: Alloc<A = Global> + Print>(
    rt: &R,
    path: &str,
    case: &Case<'_>,
    words: &Words,
    model: &mut MemSource,
) -> Result<bool> {
    let mut cert = MemSink::new(rt.alloc());
    let mut out = MemSink::new(rt.alloc());
    let status = run_words(rt.alloc(), words, model, &mut cert, &mut out);
    let seen = Outcome {
        status,
        lines: out.bytes(),
        certificate: cert.bytes(),
    };
    judged(rt, path, case, &seen)
}

/// Runs a case over this source. Whether it differs; then it is shown.
fn run_differs<R: Alloc<A = Global> + Print>(
    rt: &R,
    path: &str,
    case: &Case<'_>,
    model: &mut MemSource,
) -> Result<bool> {
    let words = words_of(rt.alloc(), case.words)?;
    words_differ(rt, path, case, &words, model)
}

/// Runs a case over this model. Whether it differs; then it is shown.
pub(crate) fn differs<R: Alloc<A = Global> + Print>(
    rt: &R,
    path: &str,
    case: &Case<'_>,
    model: &[u8],
) -> Result<bool> {
    let mut model = MemSource::new(rt.alloc(), model)?;
    run_differs(rt, path, case, &mut model)
}
