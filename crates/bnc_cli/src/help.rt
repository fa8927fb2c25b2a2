// Why a run ended as it did, for a person: one line on standard error. It changes no status, and where it can't be written it is left out.
use command_words::what_is_wrong;
use file_disk::FileDisk;
use file_streams::Destination;
use solve_top::Words;
use std::alloc::Global;
use std::env;
use std::fs::File;
use std::io::Error;
use std::rt::{Env, Files};

/// A disk that keeps what the system said of its last fault.
pub(crate) trait Explained {
    /// That; none where there was no fault.
    fn said(&self) -> Option<Error>;
}

impl<R: Files<File = File>> Explained for FileDisk<'_, R> {
    fn said(&self) -> Option<Error> {
        self.met()
    }
}

/// What standard output is called.
pub(crate) const STANDARD_OUTPUT: Option<&str> = Some("standard output");

/// Tells what the system said of a file, if it said something.
pub(crate) fn explain<R: Files<File = File> + Eprint>(
    rt: &R,
    there: &Destination<'_>,
    name: Option<&str>,
    met: Option<Error>,
) {
    if let (Some(name), Some(error)) = (name, met) {
        if there.may_explain(rt) {
            let _ = eprintln!(rt; "bnc: {name}: {error}");
        }
    }
}

/// Tells what is wrong with words that are no command.
pub(crate) fn explain_usage<R: Files<File = File> + Env + Alloc + Eprint>(
    rt: &R,
    alloc: Global,
    there: &Destination<'_>,
    words: &Words,
) {
    if !there.may_explain(rt) {
        return;
    }
    if env::args(rt).is_err() {
        let _ = eprintln!(rt; "bnc: a word is not UTF-8; see man bnc");
    } else if let Ok(text) = what_is_wrong(alloc, words) {
        let _ = eprintln!(rt; "bnc: {text}; see man bnc");
    }
}
