//! Runs cases: whole runs of the top call over memory, each with what it has to answer. The words of the program are files
//! of cases. It shows each case that differs, and then how many there are; it succeeds exactly where none differs.
#![tactic(auto)]

mod block;
mod case;
mod change;
mod outcome;
mod report;
mod run;
mod written;

use anyhow::{Context, Result};
use block::bytes_of;
use case::{Case, Source};
use change::{Change, changed};
use run::differs;
use std::alloc::Global;
use std::env;
use std::fs::{self, File};
use std::process::ExitCode;
use std::rt::{Env, Files};

/// How many cases there were, and how many of them differed.
#[derive(Clone, Copy)]
struct Count {
    cases: u64,
    differ: u64,
}

impl Count {
    /// Counts a case, and whether it differs.
    fn add(&mut self, differs: bool) {
        self.cases = self.cases.saturating_add(1);
        if differs {
            self.differ = self.differ.saturating_add(1);
        }
    }
}

/// The bytes of the file at a path, which a case names so.
fn file_at<R: Files<File = File> + Alloc<A = Global>>(
    rt: &R,
    path: &str,
    name: &str,
) -> Result<Vec<u8>> {
    fs::read(rt, path).context(format_args!("reading {name}"))
}

/// The bytes of the file of a name beside the file of cases at a path.
fn file_beside<R: Files<File = File> + Alloc<A = Global>>(
    rt: &R,
    path: &str,
    name: &str,
) -> Result<Vec<u8>> {
    let folder = match path.rsplit_once('/') {
        Some((folder, _)) => folder,
        None => ".",
    };
    let model = format!(in rt.alloc(); "{folder}/{name}")?;
    file_at(rt, model.as_str(), name)
}

/// The model of a case of the file at this path.
fn model_of<R: Files<File = File> + Alloc<A = Global>>(
    rt: &R,
    path: &str,
    base: &str,
    source: Source<'_>,
    changes: &[Change<'_>],
) -> Result<Vec<u8>> {
    match source {
        Source::Base => changed(rt.alloc(), base, changes),
        Source::Block(form, body) => bytes_of(rt.alloc(), form, body),
        Source::File(name) => file_beside(rt, path, name),
    }
}

/// Runs a case. Whether it differs; then it is shown.
fn case_differs<R: Files<File = File> + Alloc<A = Global> + Print>(
    rt: &R,
    path: &str,
    base: &str,
    case: &Case<'_>,
    changes: &[Change<'_>],
) -> Result<bool> {
    let model = model_of(rt, path, base, case.source, changes)?;
    differs(rt, path, case, &model)
}

/// Runs the case of a text. Whether it differs; then it is shown.
fn text_differs<R: Files<File = File> + Alloc<A = Global> + Print>(
    rt: &R,
    path: &str,
    base: &str,
    text: &str,
) -> Result<bool> {
    let mut changes = Vec::new(rt.alloc());
    let case = Case::read(&mut changes, text)?;
    case_differs(rt, path, base, &case, &changes)
}

/// The base text of a file of cases, from what stands in front of its first case.
fn base_of(head: &str) -> &str {
    match head.split_once("\n--- base\n") {
        Some((_, base)) => base.trim_end_matches('\n'),
        None => "",
    }
}

/// Runs the cases of a text, which is that of the file at this path.
fn run_text<R: Files<File = File> + Alloc<A = Global> + Print>(
    rt: &R,
    path: &str,
    text: &str,
    count: &mut Count,
) -> Result<()> {
    let base = base_of(text.split("\n=== ").next().unwrap_or(""));
    for part in text.split("\n=== ").skip(1) {
        count.add(text_differs(rt, path, base, part)?);
    }
    Ok(())
}

/// Runs the cases of a file.
fn run_file<R: Files<File = File> + Alloc<A = Global> + Print>(
    rt: &R,
    path: &str,
    count: &mut Count,
) -> Result<()> {
    let text = fs::read_to_string(rt, path).context(format_args!("reading {path}"))?;
    run_text(rt, path, text.as_str(), count)
}

/// Runs the cases of the files that the program's words name.
fn run_files<R: Env + Files<File = File> + Alloc<A = Global> + Print>(rt: &R) -> Result<Count> {
    let mut count = Count {
        cases: 0,
        differ: 0,
    };
    for path in env::args(rt)?.skip(1) {
        run_file(rt, path.as_str(), &mut count)?;
    }
    Ok(count)
}

fn main(rt: HostRuntime) -> Result<ExitCode> {
    let Count { cases, differ } = run_files(&rt)?;
    println!(rt; "cases {cases}\ndiffer {differ}")?;
    Ok(if differ == 0 {
        ExitCode::SUCCESS
    } else {
        ExitCode::FAILURE
    })
}
