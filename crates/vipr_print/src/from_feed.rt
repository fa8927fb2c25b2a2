// The text of a certificate whose derived lines come one after another.
ghost use Rattle.std.specs.Prelude.{◌≡◌, ◌++◌, [], All, OnOk, OnErr, true, length};
ghost use Rattle.std.specs.List.{flat_map};
ghost use Rattle.outside.specs.Faults.{Counts};
ghost use Rattle.outside.specs.Stream.{AppendsPrefix};
ghost use Rattle.cert_rows.specs.Feeds.{with_lines};
ghost use Rattle.vipr_print.specs.Spelling.{derived_line, derived_text, text_of};
ghost use Rattle.vipr_print.specs.Printed.{IsPrinted, is_sink_fault};
ghost use Rattle.vipr_print.specs.Unique.{IsShortLine, HasShortNumbers};

use crate::fault::PrintFault;
use crate::lines::{print_count, print_derived};
use crate::printing::{print_claimed, print_problem};
use crate::sizes::{head_is_short, line_is_short};
use cert_rows::{CertHead, CertRow, LineFeed, Why};
use outside::Sink;
use std::alloc::Global;

// Prints a line, and lets it go. That its numbers are short is seen while it is at hand; LLVM leaves nothing of that.
fn print_and_drop<C: Sink>(
    sink: &mut C,
    line: &mut Vec<u8>,
    derived: (CertRow, Why),
) -> Result<(), PrintFault>
    ensures printed { IsPrinted C.tells (C.taken sink.old) (C.taken sink.new) (C.faults sink.old) (C.faults sink.new) (derived_line derived) result }
    ensures short { IsShortLine derived }
{
    line_is_short(&derived);
    print_derived(sink, line, &derived)
}

// Prints each line of a feed.
fn print_each_fed<F: LineFeed, C: Sink>(
    alloc: Global,
    sink: &mut C,
    line: &mut Vec<u8>,
    feed: &mut F,
) -> Result<(), PrintFault>
    ensures printed { IsPrinted C.tells (C.taken sink.old) (C.taken sink.new) (C.faults sink.old) (C.faults sink.new) (flat_map derived_line (F.lines feed.old)) result }
    ensures drained { OnOk result (F.lines feed.new ≡ []) }
    ensures short { OnOk result (All IsShortLine (F.lines feed.old)) }
{
    'lines: loop {
        match feed.next(alloc) {
            Ok(Some(derived)) => print_and_drop(sink, line, derived)?,
            Ok(None) => return Ok(()),
            Err(_) => return Err(PrintFault::Memory),
        }
    }
}

fn print_fed_lines<F: LineFeed, C: Sink>(
    alloc: Global,
    sink: &mut C,
    line: &mut Vec<u8>,
    count: usize,
    feed: &mut F,
) -> Result<(), PrintFault>
    requires { count ≡ length (F.lines feed.old) }
    ensures printed { IsPrinted C.tells (C.taken sink.old) (C.taken sink.new) (C.faults sink.old) (C.faults sink.new) (derived_text (F.lines feed.old)) result }
    ensures drained { OnOk result (F.lines feed.new ≡ []) }
    ensures short { OnOk result (All IsShortLine (F.lines feed.old)) }
{
    print_count(sink, line, b"DER ", count)?;
    print_each_fed(alloc, sink, line, feed)
}

fn print_fed_parts<F: LineFeed, C: Sink>(
    alloc: Global,
    sink: &mut C,
    line: &mut Vec<u8>,
    head: &CertHead,
    feed: &mut F,
) -> Result<(), PrintFault>
    requires { head.now.lines ≡ length (F.lines feed.old) }
    ensures printed { IsPrinted C.tells (C.taken sink.old) (C.taken sink.new) (C.faults sink.old) (C.faults sink.new) (text_of (with_lines head.now (F.lines feed.old))) result }
    ensures drained { OnOk result (F.lines feed.new ≡ []) }
    ensures short { OnOk result (All IsShortLine (F.lines feed.old)) }
{
    print_problem(sink, line, &head.part)?;
    print_claimed(sink, line, &head.claim, &head.points)?;
    print_fed_lines(alloc, sink, line, head.lines, feed)
}

/// Writes the text that spells the certificate of a head and of a feed's lines, one write per line, each repeated until the line is taken
/// whole. It keeps one line at a time. The head says how many lines the feed gives.
///
/// `Sink`: a write failed, and the sink counted it. `Memory`: there was no memory for a line. After either a prefix of the text was
/// written.
pub fn print_feed<F: LineFeed, C: Sink>(
    alloc: Global,
    head: &CertHead,
    feed: &mut F,
    sink: &mut C,
) -> Result<(), PrintFault>
    requires { head.now.lines ≡ length (F.lines feed.old) }
    ensures whole { C.tells ≡ true → OnOk result (C.taken sink.new ≡ C.taken sink.old ++ text_of (with_lines head.now (F.lines feed.old))) }
    ensures prefix { C.tells ≡ true → OnErr result (AppendsPrefix (C.taken sink.old) (C.taken sink.new) (text_of (with_lines head.now (F.lines feed.old)))) }
    // The count rises exactly where the answer is `Sink`.
    ensures cause { Counts (C.faults sink.old) (C.faults sink.new) (is_sink_fault result) }
    ensures drained { OnOk result (F.lines feed.new ≡ []) }
    // No number has more than 64 digits, whether the sink tells or not.
    ensures short { OnOk result (HasShortNumbers (with_lines head.now (F.lines feed.old))) }
{
    head_is_short(head);
    let mut line = Vec::new(alloc);
    print_fed_parts(alloc, sink, &mut line, head, feed)
}
