//! Whole runs in pieces, and runs whose source or sink fails.

use anyhow::Result;
use case_runs::{Answered, Command, ONE, SOUND, Stream, show_certificate, usual};
use std::alloc::Global;
use std::io;

/// Prints how a run ended: its status and its lines, and how often the certificate's sink failed and what it keeps.
fn show_end<R: Print>(rt: &R, ran: &Answered) -> io::Result<()> {
    let (status, lines) = (ran.status, ran.lines());
    let cert = &ran.given.cert;
    let (faults, kept, taken) = (cert.faults(), cert.kept().len(), cert.bytes().len());
    println!(rt;
        "run status {status}, lines {lines:?}, faults {faults}, kept {kept} of {taken} bytes"
    )
}

/// Prints how a run ended, and its certificate if that is wanted.
fn show_ran<R: Print>(rt: &R, ran: &Answered, with_certificate: bool) -> Result<()> {
    show_end(rt, ran)?;
    if with_certificate {
        show_certificate(rt, "run certificate", ran)?;
    }
    Ok(())
}

/// Prints how a run over these streams ends, and its certificate if that is wanted.
fn show_run<'a, R: Print + Alloc<A = Global>>(
    rt: &R,
    (source, cert, out): (Stream<'a>, Stream<'a>, Stream<'a>),
    with_certificate: bool,
) -> Result<()> {
    let command = Command {
        source,
        cert,
        out,
        ..usual("solve model journal certificate", ONE)
    };
    let ran = Answered::run(rt.alloc(), &command)?;
    show_ran(rt, &ran, with_certificate)
}

/// A stream that fails at this call, and moves at most so many bytes at one.
fn failing(calls: &[u64], most: usize) -> Stream<'_> {
    Stream {
        failing: calls,
        most,
    }
}

/// Prints a run in pieces, one for each stream that fails at its second call, and one whose certificate is written whole, in a write for each of its
/// 16 lines, and can't be kept.
pub(crate) fn show<R: Print + Alloc<A = Global>>(rt: &R) -> Result<()> {
    let (sound, sevens) = (SOUND, failing(&[], 7));
    show_run(rt, (sevens, sevens, sevens), true)?;
    show_run(rt, (failing(&[1], 20), sound, sound), true)?;
    show_run(rt, (sound, failing(&[1], usize::MAX), sound), true)?;
    show_run(rt, (sound, sound, failing(&[1], 10)), true)?;
    show_run(rt, (sound, failing(&[16], usize::MAX), sound), false)
}
