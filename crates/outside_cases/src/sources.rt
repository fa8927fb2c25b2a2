//! A source in memory that gives pieces, and fails where it is listed.

use crate::texts::show_text;
use outside::{Got, MemSource, Source, read_all};
use std::alloc::{AllocError, Global};
use std::io;

/// Prints what one read gives.
fn show_got<R: Print>(rt: &R, source: &mut MemSource) -> io::Result<()> {
    let mut buf = [0; 4];
    match source.read(&mut buf) {
        Got::Gave(count) => show_text(rt, "source gave ", &buf[..count], ""),
        Got::End => print!(rt; "source ended"),
        Got::Failed => print!(rt; "source failed"),
    }
}

/// Prints what one read gives, and what is left.
fn show_read<R: Print>(rt: &R, source: &mut MemSource) -> io::Result<()> {
    show_got(rt, source)?;
    show_text(rt, ", left ", source.left(), "")?;
    let faults = source.faults();
    println!(rt; ", faults {faults}")
}

/// Prints what so many reads give.
fn show_reads<R: Print>(rt: &R, source: &mut MemSource, reads: u8) -> io::Result<()> {
    for _ in 0..reads {
        show_read(rt, source)?;
    }
    Ok(())
}

/// Prints what all reads to a limit give.
fn show_read_all<R: Print + Alloc<A = Global>>(
    rt: &R,
    source: &mut MemSource,
    limit: u8,
) -> io::Result<()> {
    print!(rt; "source to {limit}")?;
    match read_all(rt.alloc(), source, usize::from(limit)) {
        Ok(bytes) => show_text(rt, " gave ", &bytes, "\n"),
        Err(fault) => println!(rt; ": {fault:?}"),
    }
}

/// A source of five bytes in pieces of two, of which these calls fail.
fn five(alloc: Global, failing: &[u64]) -> Result<MemSource, AllocError> {
    let source = MemSource::failing(alloc, b"abcde", failing)?;
    Ok(source.in_pieces(2))
}

/// Prints reads of which two fail.
fn show_failing<R: Print + Alloc<A = Global>>(rt: &R) -> io::Result<()> {
    let mut source = five(rt.alloc(), &[1, 3])?;
    show_reads(rt, &mut source, 6)
}

/// Prints what all reads of a source to a limit give.
fn show_limit<R: Print + Alloc<A = Global>>(rt: &R, limit: u8) -> io::Result<()> {
    let source = MemSource::new(rt.alloc(), b"abcde")?;
    show_read_all(rt, &mut source.in_pieces(3), limit)
}

/// Prints a reading that fails.
fn show_failing_limit<R: Print + Alloc<A = Global>>(rt: &R) -> io::Result<()> {
    let mut source = five(rt.alloc(), &[2])?;
    show_read_all(rt, &mut source, 9)
}

/// Prints the reads of sources.
pub(crate) fn show<R: Print + Alloc<A = Global>>(rt: &R) -> io::Result<()> {
    show_failing(rt)?;
    for limit in &[0, 3, 4, 5, 9] {
        show_limit(rt, *limit)?;
    }
    show_failing_limit(rt)
}
