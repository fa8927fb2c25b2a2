// The lines of a certificate, each made in one buffer and written at once.
ghost use Rattle.std.specs.Prelude.{◌≡◌, ◌++◌, List, ℕ, OnOk, codes, length, true};
ghost use Rattle.std.specs.List.{flat_map};
ghost use Rattle.vipr_print.specs.Spelling.{count_line, name_line, column_numbers, integer_line, objective_line, constraint_line, row_line, claim_line, point_line, derived_line};
ghost use Rattle.vipr_print.specs.Printed.{IsPrinted};

use crate::fault::PrintFault;
use crate::pieces::{
    push_columns, push_natural, push_number, push_point, push_reason, push_row, push_terms,
};
use cert_rows::{CertRow, Goal, Why};
use outside::{Sink, write_all};
use problem::Terms;
use std::alloc::AllocError;

/// Writes a line that is ready.
pub fn write_line<C: Sink>(sink: &mut C, line: &[u8]) -> Result<(), PrintFault>
    ensures { IsPrinted C.tells (C.taken sink.old) (C.taken sink.new) (C.faults sink.old) (C.faults sink.new) line.now result }
{
    match write_all(sink, line) {
        Ok(()) => Ok(()),
        Err(_) => Err(PrintFault::Sink),
    }
}

fn make_count(line: &mut Vec<u8>, word: &[u8], count: usize) -> Result<(), AllocError>
    ensures { OnOk result (line.new.items ≡ count_line word.now count) }
{
    line.clear();
    line.extend_from_slice(word)?;
    push_natural(line, count as u128)?;
    Ok(line.extend_from_slice(b"\n")?)
}

/// A word, and a number.
pub fn print_count<C: Sink>(
    sink: &mut C,
    line: &mut Vec<u8>,
    word: &[u8],
    count: usize,
) -> Result<(), PrintFault>
    ensures { IsPrinted C.tells (C.taken sink.old) (C.taken sink.new) (C.faults sink.old) (C.faults sink.new) (count_line word.now count) result }
{
    if make_count(line, word, count).is_err() {
        return Err(PrintFault::Memory);
    }
    write_line(sink, line)
}

fn make_name(line: &mut Vec<u8>, name: &[u8]) -> Result<(), AllocError>
    ensures { OnOk result (line.new.items ≡ name_line name.now) }
{
    line.clear();
    line.extend_from_slice(name)?;
    Ok(line.extend_from_slice(b"\n")?)
}

/// The name of a column.
pub fn print_name<C: Sink>(sink: &mut C, line: &mut Vec<u8>, name: &[u8]) -> Result<(), PrintFault>
    ensures { IsPrinted C.tells (C.taken sink.old) (C.taken sink.new) (C.faults sink.old) (C.faults sink.new) (name_line name.now) result }
{
    if make_name(line, name).is_err() {
        return Err(PrintFault::Memory);
    }
    write_line(sink, line)
}

fn make_columns(line: &mut Vec<u8>, count: usize) -> Result<(), AllocError>
    ensures { OnOk result (line.new.items ≡ column_numbers count ++ codes "\n") }
{
    line.clear();
    push_columns(line, count)?;
    Ok(line.extend_from_slice(b"\n")?)
}

/// The numbers of the columns, and no line where there is no column.
pub fn print_columns<C: Sink>(
    sink: &mut C,
    line: &mut Vec<u8>,
    count: usize,
) -> Result<(), PrintFault>
    ensures { IsPrinted C.tells (C.taken sink.old) (C.taken sink.new) (C.faults sink.old) (C.faults sink.new) (integer_line count) result }
{
    if count == 0 {
        return Ok(());
    }
    if make_columns(line, count).is_err() {
        return Err(PrintFault::Memory);
    }
    write_line(sink, line)
}

fn make_objective(line: &mut Vec<u8>, objective: &Terms) -> Result<(), AllocError>
    ensures { OnOk result (line.new.items ≡ objective_line objective.now) }
{
    line.clear();
    push_terms(line, objective.as_slice())?;
    Ok(line.extend_from_slice(b"\n")?)
}

/// The objective's terms.
pub fn print_objective<C: Sink>(
    sink: &mut C,
    line: &mut Vec<u8>,
    objective: &Terms,
) -> Result<(), PrintFault>
    ensures { IsPrinted C.tells (C.taken sink.old) (C.taken sink.new) (C.faults sink.old) (C.faults sink.new) (objective_line objective.now) result }
{
    if make_objective(line, objective).is_err() {
        return Err(PrintFault::Memory);
    }
    write_line(sink, line)
}

fn make_constraints(line: &mut Vec<u8>, rows: usize, columns: usize) -> Result<(), AllocError>
    ensures { OnOk result (line.new.items ≡ constraint_line rows columns) }
{
    line.clear();
    line.extend_from_slice(b"CON ")?;
    push_natural(line, rows as u128)?;
    line.extend_from_slice(b" ")?;
    push_natural(line, 2 * (columns as u128))?;
    Ok(line.extend_from_slice(b"\n")?)
}

/// How many rows there are, and how many of them are bounds.
pub fn print_constraints<C: Sink>(
    sink: &mut C,
    line: &mut Vec<u8>,
    rows: usize,
    columns: usize,
) -> Result<(), PrintFault>
    ensures { IsPrinted C.tells (C.taken sink.old) (C.taken sink.new) (C.faults sink.old) (C.faults sink.new) (constraint_line rows columns) result }
{
    if make_constraints(line, rows, columns).is_err() {
        return Err(PrintFault::Memory);
    }
    write_line(sink, line)
}

fn make_row(line: &mut Vec<u8>, row: &CertRow) -> Result<(), AllocError>
    ensures { OnOk result (line.new.items ≡ row_line row.now) }
{
    line.clear();
    push_row(line, row)?;
    Ok(line.extend_from_slice(b"\n")?)
}

/// A row of the problem part.
pub fn print_row<C: Sink>(sink: &mut C, line: &mut Vec<u8>, row: &CertRow) -> Result<(), PrintFault>
    ensures { IsPrinted C.tells (C.taken sink.old) (C.taken sink.new) (C.faults sink.old) (C.faults sink.new) (row_line row.now) result }
{
    if make_row(line, row).is_err() {
        return Err(PrintFault::Memory);
    }
    write_line(sink, line)
}

fn make_claim(line: &mut Vec<u8>, claim: &Goal) -> Result<(), AllocError>
    ensures { OnOk result (line.new.items ≡ claim_line claim.now) }
{
    line.clear();
    match claim {
        Goal::Infeas => Ok(line.extend_from_slice(b"RTP infeas\n")?),
        Goal::Range { lb, ub } => {
            line.extend_from_slice(b"RTP range ")?;
            push_number(line, *lb)?;
            line.extend_from_slice(b" ")?;
            push_number(line, *ub)?;
            Ok(line.extend_from_slice(b"\n")?)
        }
    }
}

/// The claim.
pub fn print_claim<C: Sink>(
    sink: &mut C,
    line: &mut Vec<u8>,
    claim: &Goal,
) -> Result<(), PrintFault>
    ensures { IsPrinted C.tells (C.taken sink.old) (C.taken sink.new) (C.faults sink.old) (C.faults sink.new) (claim_line claim.now) result }
{
    if make_claim(line, claim).is_err() {
        return Err(PrintFault::Memory);
    }
    write_line(sink, line)
}

fn make_point(line: &mut Vec<u8>, index: usize, point: &[i64]) -> Result<(), AllocError>
    ensures { OnOk result (line.new.items ≡ point_line index point.now) }
{
    line.clear();
    line.extend_from_slice(b"S")?;
    push_natural(line, index as u128)?;
    line.extend_from_slice(b" ")?;
    push_point(line, point)?;
    Ok(line.extend_from_slice(b"\n")?)
}

/// A point, with its number.
pub fn print_point<C: Sink>(
    sink: &mut C,
    line: &mut Vec<u8>,
    index: usize,
    point: &[i64],
) -> Result<(), PrintFault>
    ensures { IsPrinted C.tells (C.taken sink.old) (C.taken sink.new) (C.faults sink.old) (C.faults sink.new) (point_line index point.now) result }
{
    if make_point(line, index, point).is_err() {
        return Err(PrintFault::Memory);
    }
    write_line(sink, line)
}

fn make_derived(line: &mut Vec<u8>, derived: &(CertRow, Why)) -> Result<(), AllocError>
    ensures { OnOk result (line.new.items ≡ derived_line derived.now) }
{
    line.clear();
    push_row(line, &derived.0)?;
    push_reason(line, &derived.1)
}

/// A derived line.
pub fn print_derived<C: Sink>(
    sink: &mut C,
    line: &mut Vec<u8>,
    derived: &(CertRow, Why),
) -> Result<(), PrintFault>
    ensures { IsPrinted C.tells (C.taken sink.old) (C.taken sink.new) (C.faults sink.old) (C.faults sink.new) (derived_line derived.now) result }
{
    if make_derived(line, derived).is_err() {
        return Err(PrintFault::Memory);
    }
    write_line(sink, line)
}
