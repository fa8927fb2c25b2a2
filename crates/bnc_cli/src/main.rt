//! The program `bnc`, which solves integer programs and proves its answers. Its commands:
//!
//! - `bnc solve MODEL JOURNAL CERT [--nodes N] [--cuts C] [--workers W] [--upper U]` reads an integer program in free MPS from MODEL, minimises or
//!   maximises its objective, writes a VIPR 1.0 certificate of the answer to CERT, and prints a few lines. It keeps each event of its search in
//!   JOURNAL, and goes on from there where JOURNAL has some.
//! - `bnc resume JOURNAL CERT [--nodes N] [--cuts C] [--workers W]` does the same, the model and U being those of JOURNAL.
//! - `bnc show JOURNAL` prints how far the search of JOURNAL has come, and changes nothing.
//! - `bnc drill SEED CERT [--nodes N] [--cuts C] [--workers W]` solves a model that is made from SEED, 0 to 1,000,000,000, with its journal in memory.
//!
//! The search has at most N nodes, 1 to 1,000,000,000, and 1,000,000 where the words don't say, and at most C cuts, 0 to 256, and 256 where they don't
//! say. W workers search at a time, 1 to 16, and 1 where the words don't say. U, 0 to 1,000,000,000, bounds each column that has no bound.
//!
//! All of that is `run` of `solve_top`. Here the real files of `file_streams` and `file_disk` are put in its hands, once it was looked at what they
//! lead to, and the exit status is told: the number of a `Status` of `solve_top`. Why it is that one `help` tells a person.
#![tactic(auto)]

mod help;

use file_disk::FileDisk;
use file_streams::{Destination, FileSink, FileSource, Spared, StandardOutput, hold_standard};
use help::{Explained, STANDARD_OUTPUT, explain, explain_usage};
use outside::{Disk, NoHold};
use solve_top::{Paths, Status, Words, WordsFault, paths_of, run, tell_no_place};
use std::alloc::{AllocError, Global};
use std::env;
use std::fs::File;
use std::hash::{BuildHasher, BuildHasherDefault, DefaultHasher, RandomState};
use std::io::{ErrorKind, Stderr, Stdout};
use std::mem::forget;
use std::process::ExitCode;
use std::rt::{Clock, Env, Files};
use std::sync::Wait;
use std::thread::Threads;

/// The words behind the program's name. Where one isn't text there are none, which is no command.
fn words_of(rt: &HostRuntime) -> Result<Words, AllocError> {
    let mut words = Words::new(rt.alloc());
    let args = match env::args(rt) {
        Ok(args) => args,
        Err(error) if error.kind() == ErrorKind::InvalidData => return Ok(words),
        Err(_) => return Err(AllocError),
    };
    for word in args.skip(1) {
        words.push(rt.alloc(), word.as_str())?;
    }
    Ok(words)
}

/// Looks at where the certificate and the lines of a command are to go. Where they would be written over a file of the user's it gives the status
/// of that, and nothing is run. A line that would go there is not told.
fn refused<R: Files<File = File> + Clock + Eprint>(
    rt: &R,
    there: &Destination<'_>,
    out: &mut StandardOutput<'_, R>,
) -> Option<u8> {
    if there.path.is_none() && there.spared.journal.is_none() {
        return None;
    }
    if let Err(error) = there.look_at_output(rt) {
        explain(rt, there, STANDARD_OUTPUT, Some(error));
        return Some(Status::Sink.number());
    }
    if let Err(error) = there.look(rt) {
        let status = tell_no_place(out);
        explain(rt, there, there.path.map(|path| path.as_str()), Some(error));
        return Some(status.number());
    }
    None
}

/// The status of one run over the files of the paths, of which the certificate spares the other two.
fn status_of<
    R: Threads + Wait + Sync + Files<File = File> + Clock + Env + Alloc + Eprint,
    B: BuildHasher + Drop,
    D: Disk + Send + Drop + Explained,
>(
    rt: &R,
    alloc: Global,
    keys: B,
    words: &Words,
    paths: &Paths,
    disk: D,
    streams: (Stdout, Stderr),
) -> u8 {
    let mut model = FileSource::open(rt, paths.model.as_deref());
    let there = Destination {
        path: paths.cert.as_ref(),
        spared: Spared {
            open: model.inode(),
            model: paths.model.as_deref(),
            journal: paths.journal.as_deref(),
        },
        streams,
    };
    let mut out = StandardOutput::new(rt, streams.0);
    if let Some(status) = refused(rt, &there, &mut out) {
        return status;
    }
    let mut cert = FileSink::new(alloc, rt, there);
    let ran = run(
        rt, alloc, keys, words, &mut model, disk, &mut cert, &mut out, &NoHold,
    );
    if ran.status == Status::Usage.number() {
        explain_usage(rt, alloc, &there, words);
    } else if ran.status == Status::ReadFault.number() {
        explain(rt, &there, paths.model.as_deref(), model.met());
    } else if ran.status == Status::Disk.number() {
        explain(rt, &there, paths.journal.as_deref(), ran.disk.said());
    } else if ran.status == Status::Sink.number() {
        match cert.met() {
            Some(error) => explain(rt, &there, paths.cert.as_deref(), Some(error)),
            None => explain(rt, &there, STANDARD_OUTPUT, out.met()),
        }
    }
    // The process ends now, and the system takes all memory back at once. To let go of a long search piece by piece takes a tenth of the time in
    // which it was read.
    forget(ran.last);
    ran.status
}

/// Runs the words of the command line over the files that they name. They are parsed here for the paths, and by the run once more
/// (docs/DECISIONS.md, entry 64). Words that are no command name no file, and are refused by the run. Where memory runs out before it, or the
/// standard descriptors can't be held, nothing is printed.
fn main(rt: HostRuntime) -> ExitCode {
    if hold_standard(&rt).is_err() {
        return ExitCode::from(Status::Sink.number());
    }
    let Ok(words) = words_of(&rt) else {
        return ExitCode::from(Status::Memory.number());
    };
    let paths = match paths_of(rt.alloc(), &words) {
        Ok(paths) => paths,
        Err(WordsFault::Usage) => Paths {
            model: None,
            journal: None,
            cert: None,
        },
        Err(WordsFault::Memory) => return ExitCode::from(Status::Memory.number()),
    };
    let disk = FileDisk::new(&rt, &paths.journal);
    let streams = (rt.stdout(), rt.stderr());
    let status = match RandomState::new(&rt) {
        Ok(keys) => status_of(&rt, rt.alloc(), keys, &words, &paths, disk, streams),
        Err(_) => {
            let fixed: BuildHasherDefault<DefaultHasher> = BuildHasherDefault::new();
            status_of(&rt, rt.alloc(), fixed, &words, &paths, disk, streams)
        }
    };
    ExitCode::from(status)
}
