// Tells what came of a run.
ghost use Rattle.std.specs.Prelude.{◌≡◌, ℕ, List, Ok, Err, IfOk};
ghost use Rattle.solve_top.specs.Changes.{sink_change, IsTold};
ghost use Rattle.solve_top.specs.Outcomes.{IsLineTold, IsToldAs, IsWritten};

use crate::Status;
use crate::outcome::{Answer, Refusal};
use crate::output::{journal_text, refused_text};
use outside::{Failed, Sink, write_all};
use std::alloc::{AllocError, Global};

// Tells of a fault. That the sink fails here changes nothing of the status.
fn tell<O: Sink>(out: &mut O, line: &[u8])
    ensures { IsTold (sink_change O.tells O.taken O.kept O.faults out.old out.new) line.now }
{
    let _ = write_all(out, line);
}

// Tells the line of a refusal with this status, and gives the status of the run. Want of memory for the line is a status of its own.
fn tell_line<O: Sink>(out: &mut O, line: Result<Vec<u8>, AllocError>, wanted: Status) -> Status
    ensures { (text : List ℕ) → IfOk line (λ v. v.items ≡ text) → IsLineTold (sink_change O.tells O.taken O.kept O.faults out.old out.new) text wanted result }
{
    let Ok(line) = line else {
        tell(out, b"no memory\n");
        return Status::Memory;
    };
    tell(out, &line);
    wanted
}

// Writes the lines of an answer with this status, and gives the status of the run.
fn write_lines<O: Sink>(out: &mut O, lines: &[u8], wanted: Status) -> Status
    ensures { IsWritten (sink_change O.tells O.taken O.kept O.faults out.old out.new) lines.now wanted result }
{
    match write_all(out, lines) {
        Ok(()) => wanted,
        Err(Failed) => Status::Sink,
    }
}

// Tells an answer, and gives the status of the run.
fn tell_answer<O: Sink>(answer: &Answer, out: &mut O) -> Status
    ensures { IsToldAs (sink_change O.tells O.taken O.kept O.faults out.old out.new) (Ok answer.now) result }
{
    match answer {
        Answer::Done(lines) => write_lines(out, lines, Status::Done),
        Answer::Spent(lines) => write_lines(out, lines, Status::Spent),
        Answer::Shown(lines) => write_lines(out, lines, Status::Done),
    }
}

/// Tells that no certificate may be written where one is to go, and gives the status of a run that ends so. Who finds that before a run tells it by
/// this.
pub fn tell_no_place<O: Sink>(out: &mut O) -> Status
    ensures { IsToldAs (sink_change O.tells O.taken O.kept O.faults out.old out.new) (Err Refusal.Sink) result }
{
    tell(out, b"fault sink\n");
    Status::Sink
}

// Tells why there is no answer, and gives the status of the run. Want of memory for the line is a status of its own.
fn tell_refusal<O: Sink>(alloc: Global, refusal: Refusal, out: &mut O) -> Status
    ensures { IsToldAs (sink_change O.tells O.taken O.kept O.faults out.old out.new) (Err refusal) result }
{
    match refusal {
        Refusal::Usage => {
            tell(out, b"refused usage\n");
            Status::Usage
        }
        Refusal::Model { line, kind } => {
            tell_line(out, refused_text(alloc, line, kind), Status::Model)
        }
        Refusal::Journal(fault) => tell_line(out, journal_text(alloc, fault), Status::Journal),
        Refusal::Read => {
            tell(out, b"fault read\n");
            Status::ReadFault
        }
        Refusal::Disk => {
            tell(out, b"fault disk\n");
            Status::Disk
        }
        Refusal::Sink => tell_no_place(out),
        Refusal::Memory => {
            tell(out, b"no memory\n");
            Status::Memory
        }
    }
}

/// Tells an outcome, and gives the status of the run.
pub fn tell_outcome<O: Sink>(
    alloc: Global,
    outcome: &Result<Answer, Refusal>,
    out: &mut O,
) -> Status
    ensures { IsToldAs (sink_change O.tells O.taken O.kept O.faults out.old out.new) outcome.now result }
{
    match outcome {
        Ok(answer) => tell_answer(answer, out),
        Err(refusal) => tell_refusal(alloc, *refusal, out),
    }
}
