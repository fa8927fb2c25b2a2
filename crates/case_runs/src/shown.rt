//! What is printed of the answers of commands.

ghost use Rattle.std.specs.Prelude.{◌≡◌};

use crate::command::{Answered, Command, usual};
use anyhow::Result;
use outside::MemDisk;
use std::alloc::Global;
use std::io;

/// What is printed of an answer behind its first line.
#[derive(Clone, Copy)]
pub enum More<'a> {
    /// Nothing more.
    Nothing,
    /// The certificate.
    Certificate,
    /// The last 16 bytes of the journal.
    End,
    /// How often the disk was called.
    Calls,
    /// The same, and whether the disk still holds these bytes.
    CallsOf(&'a [u8]),
    /// Whether the disk holds these bytes, under words of their own.
    Same(&'a str, &'a [u8]),
}

/// Prints how many events a search had, if there is one, and ends the line.
fn show_events<R: Print>(rt: &R, ran: &Answered) -> io::Result<()> {
    match ran.kinds {
        Some(kinds) => {
            let events = kinds.events;
            println!(rt; "a search of {events} events")
        }
        None => println!(rt; "no search"),
    }
}

/// Prints the status and the lines, and how many events the search had that was handed back.
fn show_answer<R: Print>(rt: &R, title: &str, ran: &Answered) -> io::Result<()> {
    let (status, lines) = (ran.status, ran.lines());
    let certificate = ran.certificate().lines().count();
    print!(rt; "{title}: status {status}, lines {lines:?}, certificate of {certificate} lines, ")?;
    show_events(rt, ran)
}

/// Prints the certificate, a line for each of its lines. An error is one of printing.
pub fn show_certificate<R: Print>(rt: &R, title: &str, ran: &Answered) -> io::Result<()> {
    for line in ran.certificate().lines() {
        println!(rt; "{title} {line}")?;
    }
    Ok(())
}

/// Prints bytes in hexadecimal and ends the line. An error is one of printing.
pub fn show_hexadecimal<R: Print>(rt: &R, bytes: &[u8]) -> io::Result<()> {
    for byte in bytes {
        print!(rt; " {byte:02x}")?;
    }
    println!(rt; "")
}

/// Prints the last 16 bytes of a disk in hexadecimal.
fn show_end<R: Print>(rt: &R, disk: &MemDisk) -> io::Result<()> {
    let start = disk.bytes().len().saturating_sub(16);
    print!(rt; "its journal ends with:")?;
    show_hexadecimal(rt, &disk.bytes()[start..])
}

/// Prints how often a disk was called, and whether it still holds these bytes.
fn show_calls_of<R: Print>(rt: &R, title: &str, disk: &MemDisk, bytes: &[u8]) -> io::Result<()> {
    let (calls, is_same) = (disk.calls(), disk.bytes() == bytes);
    println!(rt; "{title}: {calls} calls of the disk, which is as it was, {is_same}")
}

/// Prints whether a disk holds these bytes.
fn show_same<R: Print>(
    rt: &R,
    title: &str,
    what: &str,
    disk: &MemDisk,
    bytes: &[u8],
) -> io::Result<()> {
    let is_same = disk.bytes() == bytes;
    println!(rt; "{title}: {what}, {is_same}")
}

/// Prints more of an answer.
fn show_more<R: Print>(rt: &R, title: &str, ran: &Answered, more: More<'_>) -> io::Result<()> {
    match more {
        More::Nothing => Ok(()),
        More::Certificate => show_certificate(rt, title, ran),
        More::End => show_end(rt, &ran.disk),
        More::Calls => {
            let calls = ran.disk.calls();
            println!(rt; "{title}: {calls} calls of the disk")
        }
        More::CallsOf(bytes) => show_calls_of(rt, title, &ran.disk, bytes),
        More::Same(what, bytes) => show_same(rt, title, what, &ran.disk, bytes),
    }
}

/// Prints an answer.
fn show_all<R: Print>(rt: &R, title: &str, ran: &Answered, more: More<'_>) -> Result<()> {
    show_answer(rt, title, ran)?;
    show_more(rt, title, ran, more)?;
    Ok(())
}

/// Prints what a command answers on this disk. An error is one of printing, or want of memory.
pub fn show_on<R: Print + Alloc<A = Global>>(
    rt: &R,
    title: &str,
    command: &Command<'_>,
    disk: MemDisk,
    more: More<'_>,
) -> Result<()> {
    let ran = Answered::run_on(rt.alloc(), command, disk)?;
    show_all(rt, title, &ran, more)
}

/// Prints what a command answers on its own disk. An error is one of printing, or want of memory.
pub fn show_command<R: Print + Alloc<A = Global>>(
    rt: &R,
    title: &str,
    command: &Command<'_>,
    more: More<'_>,
) -> Result<()> {
    let disk = command.disk(rt.alloc())?;
    show_on(rt, title, command, disk, more)
}

/// Prints what the command of these words answers over the model of a text, on a disk that holds these bytes. An error is one of printing, or want of
/// memory.
pub fn show_line<'a, R: Print + Alloc<A = Global>>(
    rt: &R,
    title: &str,
    line: &'a str,
    model: &'a str,
    bytes: &'a [u8],
) -> Result<()> {
    let command = Command {
        bytes,
        ..usual(line, model)
    };
    show_command(rt, title, &command, More::Nothing)
}

/// The disk that a command left.
pub fn disk_of(ran: Answered) -> MemDisk
    ensures { result ≡ ran.disk }
{
    let Answered {
        status: _,
        given: _,
        disk,
        kinds: _,
    } = ran;
    disk
}

/// Prints what a command answers on its own disk. The disk as it left it. An error is one of printing, or want of memory.
pub fn show_with_disk<R: Print + Alloc<A = Global>>(
    rt: &R,
    title: &str,
    command: &Command<'_>,
) -> Result<MemDisk> {
    let ran = Answered::run(rt.alloc(), command)?;
    show_all(rt, title, &ran, More::Nothing)?;
    Ok(disk_of(ran))
}
