//! Runs of which one call of a stream fails, each call in turn: of the model's source, of the certificate's sink, and of the lines' sink.

use anyhow::Result;
use case_runs::{Answered, Command, More, ONE, SOUND, Stream, show_command, usual};
use std::alloc::Global;
use std::io;

const SOLVE: &str = "solve m j c";

/// A column with an upper bound below 0, and no lower one.
const NEGATIVE: &str =
    "NAME one\nROWS\n N obj\n G r\nCOLUMNS\n m 'MARKER' 'INTORG'\n x obj 3 r 1\n m 'MARKER' 'INTEND'\nRHS\n rhs r 1\nBOUNDS\n UP b x -1\nENDATA\n";

/// Counts of runs of which a call failed, and of those that ended otherwise than they have to.
#[derive(Clone, Copy)]
struct Counts {
    runs: u64,
    differ: u64,
}

impl Counts {
    /// No run.
    fn none() -> Counts {
        Counts { runs: 0, differ: 0 }
    }

    /// Counts a run, if a call of it failed, and whether it ended as it has to. Whether a call failed.
    fn count(&mut self, status: u8, is_right: bool) -> bool {
        if status == 0 {
            return false;
        }
        self.runs = self.runs.saturating_add(1);
        if !is_right {
            self.differ = self.differ.saturating_add(1);
        }
        true
    }
}

/// Whether a run ended as one whose model can't be read: with no call of the disk, and without a certificate.
fn is_unread(ran: &Answered) -> bool {
    ran.status == 5 && ran.disk.calls() == 0 && ran.given.cert.bytes().is_empty()
}

/// Whether a run ended as one whose certificate can't be written: with the first bytes of this one, of which none are kept.
fn is_unwritten(ran: &Answered, certificate: &[u8]) -> bool {
    let cert = &ran.given.cert;
    ran.status == 7
        && cert.faults() == 1
        && cert.kept().is_empty()
        && certificate.starts_with(cert.bytes())
}

/// A run whose source gives 20 bytes at a call and fails at this one.
fn run_unread(alloc: Global, calls: &[u64]) -> Result<Answered> {
    let source = Stream {
        failing: calls,
        most: 20,
    };
    let command = Command {
        source,
        ..usual(SOLVE, ONE)
    };
    Answered::run(alloc, &command)
}

/// A run whose certificate's sink fails at this call.
fn run_unwritten(alloc: Global, calls: &[u64]) -> Result<Answered> {
    let cert = Stream {
        failing: calls,
        ..SOUND
    };
    let command = Command {
        cert,
        ..usual(SOLVE, ONE)
    };
    Answered::run(alloc, &command)
}

/// Counts a run whose source fails at this call. Whether it failed.
fn count_unread(alloc: Global, call: u64, counts: &mut Counts) -> Result<bool> {
    let ran = run_unread(alloc, &[call])?;
    Ok(counts.count(ran.status, is_unread(&ran)))
}

/// Counts a run whose certificate's sink fails at this call. Whether it failed.
fn count_unwritten(
    alloc: Global,
    certificate: &[u8],
    call: u64,
    counts: &mut Counts,
) -> Result<bool> {
    let ran = run_unwritten(alloc, &[call])?;
    Ok(counts.count(ran.status, is_unwritten(&ran, certificate)))
}

/// Counts runs whose source fails at each call in turn.
fn count_each_unread(alloc: Global) -> Result<Counts> {
    let mut counts = Counts::none();
    for call in 0..10_000 {
        if !count_unread(alloc, call, &mut counts)? {
            break;
        }
    }
    Ok(counts)
}

/// Counts runs whose certificate's sink fails at each call in turn.
fn count_each_unwritten(alloc: Global, certificate: &[u8]) -> Result<Counts> {
    let mut counts = Counts::none();
    for call in 0..10_000 {
        if !count_unwritten(alloc, certificate, call, &mut counts)? {
            break;
        }
    }
    Ok(counts)
}

/// Prints counts of runs.
fn show_counts<R: Print>(rt: &R, title: &str, counts: Counts) -> io::Result<()> {
    let Counts { runs, differ } = counts;
    println!(rt; "{title} fails at each of {runs} calls, of which {differ} differ")
}

/// Prints how often a source failed.
fn show_unread<R: Print + Alloc<A = Global>>(rt: &R) -> Result<()> {
    let counts = count_each_unread(rt.alloc())?;
    Ok(show_counts(rt, "a source of 20 bytes a call", counts)?)
}

/// Prints how often the sink of this certificate failed.
fn show_each_unwritten<R: Print + Alloc<A = Global>>(rt: &R, certificate: &[u8]) -> Result<()> {
    let counts = count_each_unwritten(rt.alloc(), certificate)?;
    Ok(show_counts(rt, "a certificate's sink", counts)?)
}

/// Prints how often a certificate's sink failed.
fn show_unwritten<R: Print + Alloc<A = Global>>(rt: &R) -> Result<()> {
    let whole = Answered::run(rt.alloc(), &usual(SOLVE, ONE))?;
    show_each_unwritten(rt, whole.given.cert.bytes())
}

/// Prints what a search of a model answers whose lines can't be written.
fn show_untold<R: Print + Alloc<A = Global>>(rt: &R, title: &str, model: &str) -> Result<()> {
    let out = Stream {
        failing: &[0],
        ..SOUND
    };
    let command = Command {
        out,
        ..usual(SOLVE, model)
    };
    show_command(rt, title, &command, More::Nothing)
}

/// Runs of which one call of a stream fails.
pub(crate) fn show<R: Print + Alloc<A = Global>>(rt: &R) -> Result<()> {
    show_unread(rt)?;
    show_unwritten(rt)?;
    show_untold(rt, "an optimum that can't be told", ONE)?;
    show_untold(rt, "a refusal that can't be told", NEGATIVE)
}
