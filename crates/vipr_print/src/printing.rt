// The text of a certificate, line by line.
ghost use Rattle.std.specs.Prelude.{◌≡◌, ◌++◌, List, ℕ, OnOk, OnErr, true, codes, map};
ghost use Rattle.std.specs.List.{flat_map};
ghost use Rattle.outside.specs.Faults.{Counts};
ghost use Rattle.outside.specs.Stream.{AppendsPrefix};
ghost use Rattle.vipr_print.specs.Spelling.{name_line, row_line, point_lines, derived_line, names_text, integers_text, sense_line, rows_text, problem_text, claim_text, derived_text, text_of};
ghost use Rattle.vipr_print.specs.Printed.{IsPrinted, is_sink_fault};

use crate::fault::PrintFault;
use crate::lines::{
    print_claim, print_columns, print_constraints, print_count, print_derived, print_name,
    print_objective, print_point, print_row, write_line,
};
use cert_rows::{Cert, CertRow, CertRows, Derived, Goal, Part, Points, Why};
use outside::Sink;
use problem::{Names, ObjectiveSense, Point};
use std::alloc::Global;

fn print_each_name<C: Sink>(
    sink: &mut C,
    line: &mut Vec<u8>,
    names: &Names,
) -> Result<(), PrintFault>
    ensures { IsPrinted C.tells (C.taken sink.old) (C.taken sink.new) (C.faults sink.old) (C.faults sink.new) (flat_map name_line names.now) result }
{
    for j in 0..names.len() {
        print_name(sink, line, names.name(j))?;
    }
    Ok(())
}

fn print_names<C: Sink>(sink: &mut C, line: &mut Vec<u8>, names: &Names) -> Result<(), PrintFault>
    ensures { IsPrinted C.tells (C.taken sink.old) (C.taken sink.new) (C.faults sink.old) (C.faults sink.new) (names_text names.now) result }
{
    write_line(sink, b"VER 1.0\n")?;
    print_count(sink, line, b"VAR ", names.len())?;
    print_each_name(sink, line, names)
}

fn print_integers<C: Sink>(sink: &mut C, line: &mut Vec<u8>, count: usize) -> Result<(), PrintFault>
    ensures { IsPrinted C.tells (C.taken sink.old) (C.taken sink.new) (C.faults sink.old) (C.faults sink.new) (integers_text count) result }
{
    print_count(sink, line, b"INT ", count)?;
    print_columns(sink, line, count)
}

fn print_each_row<C: Sink>(
    sink: &mut C,
    line: &mut Vec<u8>,
    rows: &[CertRow],
) -> Result<(), PrintFault>
    ensures { IsPrinted C.tells (C.taken sink.old) (C.taken sink.new) (C.faults sink.old) (C.faults sink.new) (flat_map row_line rows.now) result }
{
    for row in rows {
        print_row(sink, line, row)?;
    }
    Ok(())
}

fn sense_line(sense: ObjectiveSense) -> &'static [u8]
    ensures { result.now ≡ sense_line sense }
{
    match sense {
        ObjectiveSense::Minimise => b"OBJ min\n",
        ObjectiveSense::Maximise => b"OBJ max\n",
    }
}

fn print_sense<C: Sink>(sink: &mut C, sense: ObjectiveSense) -> Result<(), PrintFault>
    ensures { IsPrinted C.tells (C.taken sink.old) (C.taken sink.new) (C.faults sink.old) (C.faults sink.new) (sense_line sense) result }
{
    write_line(sink, sense_line(sense))
}

fn print_rows<C: Sink>(sink: &mut C, line: &mut Vec<u8>, part: &Part) -> Result<(), PrintFault>
    ensures { IsPrinted C.tells (C.taken sink.old) (C.taken sink.new) (C.faults sink.old) (C.faults sink.new) (rows_text part.now) result }
{
    print_sense(sink, part.sense)?;
    print_objective(sink, line, &part.objective)?;
    let rows = part.rows.as_slice();
    print_constraints(sink, line, rows.len(), part.names.len())?;
    print_each_row(sink, line, rows)
}

/// The problem part.
pub fn print_problem<C: Sink>(
    sink: &mut C,
    line: &mut Vec<u8>,
    part: &Part,
) -> Result<(), PrintFault>
    ensures { IsPrinted C.tells (C.taken sink.old) (C.taken sink.new) (C.faults sink.old) (C.faults sink.new) (problem_text part.now) result }
{
    print_names(sink, line, &part.names)?;
    print_integers(sink, line, part.names.len())?;
    print_rows(sink, line, part)
}

fn print_each_point<C: Sink>(
    sink: &mut C,
    line: &mut Vec<u8>,
    points: &[Point],
) -> Result<(), PrintFault>
    ensures { IsPrinted C.tells (C.taken sink.old) (C.taken sink.new) (C.faults sink.old) (C.faults sink.new) (point_lines 0 points.now) result }
{
    for (i, point) in points.iter().enumerate() {
        print_point(sink, line, i, point.as_slice())?;
    }
    Ok(())
}

/// The claim, and the points.
pub fn print_claimed<C: Sink>(
    sink: &mut C,
    line: &mut Vec<u8>,
    claim: &Goal,
    points: &Points,
) -> Result<(), PrintFault>
    ensures { IsPrinted C.tells (C.taken sink.old) (C.taken sink.new) (C.faults sink.old) (C.faults sink.new) (claim_text claim.now points.now) result }
{
    print_claim(sink, line, claim)?;
    let listed = points.as_slice();
    print_count(sink, line, b"SOL ", listed.len())?;
    print_each_point(sink, line, listed)
}

fn print_each_derived<C: Sink>(
    sink: &mut C,
    line: &mut Vec<u8>,
    derived: &[(CertRow, Why)],
) -> Result<(), PrintFault>
    ensures { IsPrinted C.tells (C.taken sink.old) (C.taken sink.new) (C.faults sink.old) (C.faults sink.new) (flat_map derived_line derived.now) result }
{
    for one in derived {
        print_derived(sink, line, one)?;
    }
    Ok(())
}

fn print_lines<C: Sink>(sink: &mut C, line: &mut Vec<u8>, lines: &Derived) -> Result<(), PrintFault>
    ensures { IsPrinted C.tells (C.taken sink.old) (C.taken sink.new) (C.faults sink.old) (C.faults sink.new) (derived_text lines.now) result }
{
    let derived = lines.as_slice();
    print_count(sink, line, b"DER ", derived.len())?;
    print_each_derived(sink, line, derived)
}

fn print_parts<C: Sink>(sink: &mut C, line: &mut Vec<u8>, cert: &Cert) -> Result<(), PrintFault>
    ensures { IsPrinted C.tells (C.taken sink.old) (C.taken sink.new) (C.faults sink.old) (C.faults sink.new) (text_of cert.now) result }
{
    print_problem(sink, line, &cert.part)?;
    print_claimed(sink, line, &cert.claim, &cert.points)?;
    print_lines(sink, line, &cert.lines)
}

/// Writes the text that spells the certificate, one write per line, each repeated until the line is taken whole. It keeps one line at
/// a time.
///
/// `Sink`: a write failed, and the sink counted it. `Memory`: there was no memory for a line. After either a prefix of the text was
/// written.
pub fn print<C: Sink>(alloc: Global, cert: &Cert, sink: &mut C) -> Result<(), PrintFault>
    ensures whole { C.tells ≡ true → OnOk result (C.taken sink.new ≡ C.taken sink.old ++ text_of cert.now) }
    ensures prefix { C.tells ≡ true → OnErr result (AppendsPrefix (C.taken sink.old) (C.taken sink.new) (text_of cert.now)) }
    // The count rises exactly where the answer is `Sink`.
    ensures cause { Counts (C.faults sink.old) (C.faults sink.new) (is_sink_fault result) }
{
    let mut line = Vec::new(alloc);
    print_parts(sink, &mut line, cert)
}
