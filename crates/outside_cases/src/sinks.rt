//! A sink in memory that takes pieces, and fails where it is listed; and the hold that holds nobody up.

use crate::texts::show_text;
use outside::{Failed, Hold, MemSink, NoHold, Put, Sink, write_all};
use std::alloc::{AllocError, Global};
use std::io;

/// Prints an answer, bytes behind words, and how often a sink failed.
fn show_answer<R: Print>(
    rt: &R,
    answer: Result<(), Failed>,
    words: &str,
    bytes: &[u8],
    faults: u64,
) -> io::Result<()> {
    print!(rt; "{answer:?}")?;
    show_text(rt, words, bytes, "")?;
    println!(rt; ", faults {faults}")
}

/// Prints how a text is written, and what the sink then holds.
fn show_write<R: Print>(rt: &R, sink: &mut MemSink, text: &str) -> io::Result<()> {
    let answer = write_all(sink, text.as_bytes());
    show_text(rt, "sink write ", text.as_bytes(), ": ")?;
    show_answer(rt, answer, ", holds ", sink.bytes(), sink.faults())
}

/// Prints what ends the writing, and what the sink then keeps.
fn show_finish<R: Print>(rt: &R, sink: &mut MemSink) -> io::Result<()> {
    let answer = sink.finish();
    print!(rt; "sink finish: ")?;
    show_answer(rt, answer, ", keeps ", sink.kept(), sink.faults())
}

/// Prints writes before the end, two ends, and a write behind them.
fn show_calls<R: Print>(rt: &R, sink: &mut MemSink) -> io::Result<()> {
    for text in &["abc", "de", "fg"] {
        show_write(rt, sink, text)?;
    }
    show_finish(rt, sink)?;
    show_finish(rt, sink)?;
    show_write(rt, sink, "h")?;
    show_text(rt, "sink keeps ", sink.kept(), "\n")
}

/// A sink in pieces of two bytes, two of whose calls fail.
fn failing(alloc: Global) -> Result<MemSink, AllocError> {
    let sink = MemSink::failing(alloc, &[2, 4])?;
    Ok(sink.in_pieces(2))
}

/// Prints the calls of a sink that fails.
fn show_failing<R: Print + Alloc<A = Global>>(rt: &R) -> io::Result<()> {
    let mut sink = failing(rt.alloc())?;
    show_calls(rt, &mut sink)
}

/// What a sink without pieces takes at once.
fn put_at_once(alloc: Global) -> Put {
    let mut whole = MemSink::new(alloc);
    whole.write(b"abc")
}

/// Prints the writes of sinks.
pub(crate) fn show<R: Print + Alloc<A = Global>>(rt: &R) -> io::Result<()> {
    show_failing(rt)?;
    let put = put_at_once(rt.alloc());
    println!(rt; "sink write at once: {put:?}")?;
    NoHold.asks(0);
    println!(rt; "hold: worker 0 goes on")
}
