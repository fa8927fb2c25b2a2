// What no clause says: what the adapters do to real files, and that an interrupted call is tried again.
use crate::retried::{read_some, write_some, write_whole};
use crate::{Destination, FileSink, FileSource, Spared};
use outside::{Got, Put, Sink, Source, write_all};
use std::fs::File;
use std::io::{ErrorKind, Read, Write};
use std::path::Path;
use std::test::Fail;
use std::{env, fs, io, process};

const NONE: Spared<'static> = Spared {
    open: Ok(None),
    model: None,
    journal: None,
};

/// The path of a file of one test alone in a folder.
fn named(rt: &HostRuntime, folder: Path<'_>, name: &str) -> Option<String> {
    let folder = folder.to_string_lossy();
    let number = process::id(rt.process());
    format!(in rt.alloc(); "{folder}/bnc-{number}-{name}").ok()
}

/// A path for a file of this test alone; none where it can't be told.
fn scratch(rt: &HostRuntime, name: &str) -> Option<String> {
    match env::temp_dir(rt) {
        Ok(folder) => named(rt, folder.as_path(), name),
        Err(_) => None,
    }
}

/// The path as a text.
fn text(path: &Option<String>) -> &str {
    path.as_deref().unwrap_or("")
}

/// Whether the file at the path holds this text.
fn holds(rt: &HostRuntime, path: &Option<String>, held: &str) -> bool {
    match fs::read_to_string(rt, text(path)) {
        Ok(read) => read.as_str() == held,
        Err(_) => false,
    }
}

/// Whether there is no file at the path, and that can be told.
fn is_gone(rt: &HostRuntime, path: &Option<String>) -> bool {
    path.is_some() && matches!(fs::exists(rt, text(path)), Ok(false))
}

/// Whether the bytes were written to the file at the path.
fn fill(rt: &HostRuntime, path: &Option<String>, bytes: &[u8]) -> bool {
    fs::write(rt, text(path), bytes).is_ok()
}

/// Whether the file at the path was removed.
fn remove(rt: &HostRuntime, path: &Option<String>) -> bool {
    fs::remove_file(rt, text(path)).is_ok()
}

/// The name under which a file is written before it takes its place.
fn part_of(rt: &HostRuntime, path: &Option<String>) -> Option<String> {
    let path = path.as_deref()?;
    format!(in rt.alloc(); "{path}.1.part").ok()
}

/// A place of this path, or of none, where these are spared.
fn place<'a>(rt: &'a HostRuntime, path: &'a Option<String>, spared: Spared<'a>) -> Destination<'a> {
    Destination {
        path: path.as_ref(),
        spared,
        streams: (rt.stdout(), rt.stderr()),
    }
}

/// What is done with a sink or beside it, and what comes of it.
#[derive(Clone, Copy)]
enum Step {
    /// All these bytes are written.
    WriteAll(&'static [u8]),
    /// A write of three bytes takes them all, or fails.
    Write,
    WriteFails,
    Finish,
    FinishFails,
    /// The file holds this text, or that of the other name does.
    Holds(&'static str),
    OtherHolds(&'static str),
    /// A write fails while somebody has the lock of the file.
    InUse,
    /// A write by somebody else fails.
    Taken,
    /// Somebody writes this text to a file of the name.
    Fill(&'static str),
    /// Somebody gives the file the other name, or removes it.
    Rename,
    Remove,
}

use Step::*;

/// What a sink answers that writes three bytes to a place.
fn put(rt: &HostRuntime, place: Destination<'_>) -> Put {
    FileSink::new(rt.alloc(), rt, place).write(b"VER")
}

/// Whether a sink fails while somebody has the lock of a file.
fn fails_beside(user: &File, sink: &mut FileSink<'_, HostRuntime>) -> bool {
    user.try_lock().is_ok() && sink.write(b"VER") == Put::Failed
}

/// Whether a sink fails while somebody has the lock of the file at its path.
fn fails_in_use(
    rt: &HostRuntime,
    path: &Option<String>,
    sink: &mut FileSink<'_, HostRuntime>,
) -> bool {
    match File::open(rt, text(path)) {
        Ok(user) => fails_beside(&user, sink),
        Err(_) => false,
    }
}

/// Whether an older file got another name.
fn rename(rt: &HostRuntime, path: &Option<String>, other: &Option<String>) -> bool {
    fs::rename(rt, text(path), text(other)).is_ok()
}

/// Whether this comes of a step with the sink of a file at this path.
fn comes<'a>(
    rt: &'a HostRuntime,
    (path, other): (&'a Option<String>, &'a Option<String>),
    sink: &mut FileSink<'_, HostRuntime>,
    step: Step,
) -> bool {
    match step {
        WriteAll(bytes) => write_all(sink, bytes).is_ok(),
        Write => sink.write(b"VER") == Put::Took(3),
        WriteFails => sink.write(b"VER") == Put::Failed,
        Finish => sink.finish().is_ok(),
        FinishFails => sink.finish().is_err(),
        Holds(bytes) => holds(rt, path, bytes),
        OtherHolds(bytes) => holds(rt, other, bytes),
        InUse => fails_in_use(rt, path, sink),
        Taken => put(rt, place(rt, path, NONE)) == Put::Failed,
        Fill(bytes) => fill(rt, path, bytes.as_bytes()),
        Rename => rename(rt, path, other),
        Remove => remove(rt, path),
    }
}

/// Whether it comes so, step after step.
fn all_come<'a>(
    rt: &'a HostRuntime,
    (path, other): (&'a Option<String>, &'a Option<String>),
    sink: &mut FileSink<'_, HostRuntime>,
    steps: &[Step],
) -> bool {
    for step in steps {
        if !comes(rt, (path, other), sink, *step) {
            return false;
        }
    }
    true
}

/// Whether it comes so with a new sink at this path.
fn is_sink<'a>(
    rt: &'a HostRuntime,
    path: &'a Option<String>,
    other: &'a Option<String>,
    steps: &[Step],
) -> bool {
    let mut sink = FileSink::new(rt.alloc(), rt, place(rt, path, NONE));
    all_come(rt, (path, other), &mut sink, steps)
}

/// A sink that is let go before its end leaves the older file, and less than a piece was not handed on,
const LET_GO: [Step; 3] = [WriteAll(b"VER "), Holds("old and long\n"), OtherHolds("")];

/// and one that is ended takes its place.
const ENDED: [Step; 5] = [
    WriteAll(b"VER "),
    WriteAll(b"1.0\n"),
    Finish,
    Holds("VER 1.0\n"),
    Finish,
];

/// Whether a sink leaves an older file until it is ended.
fn replaces_at_its_end(rt: &HostRuntime, path: &Option<String>, part: &Option<String>) -> bool {
    fill(rt, path, b"old and long\n")
        && is_sink(rt, path, part, &LET_GO)
        && is_gone(rt, part)
        && is_sink(rt, path, part, &ENDED)
        && is_gone(rt, part)
        && remove(rt, path)
}

#[test]
fn sink(rt: HostRuntime) -> Result<(), Fail> {
    let path = scratch(&rt, "sink");
    let part = part_of(&rt, &path);
    assert!(rt; replaces_at_its_end(&rt, &path, &part));
    assert!(rt; is_sink(&rt, &None, &None, &[WriteFails, WriteFails, Finish]));
    Ok(())
}

/// Whether the file at a path has so many bytes.
fn has_length(rt: &HostRuntime, path: &Option<String>, length: u64) -> bool {
    matches!(fs::metadata(rt, text(path)), Ok(data) if data.len() == length)
}

/// Whether of more bytes than a piece has the first piece is handed on at once, and the rest at the end.
fn hands_on_pieces<'a>(
    rt: &'a HostRuntime,
    path: &'a Option<String>,
    part: &Option<String>,
    bytes: &[u8],
) -> bool {
    let mut sink = FileSink::new(rt.alloc(), rt, place(rt, path, NONE));
    write_all(&mut sink, bytes).is_ok()
        && has_length(rt, part, 65_536)
        && sink.finish().is_ok()
        && has_length(rt, path, 70_000)
}

#[test]
fn two_pieces(rt: HostRuntime) -> Result<(), Fail> {
    let path = scratch(&rt, "pieces");
    let part = part_of(&rt, &path);
    let bytes = vec![in rt.alloc(); b'x'; 70_000]?;
    assert!(rt; hands_on_pieces(&rt, &path, &part, &bytes) && remove(&rt, &path));
    Ok(())
}

/// What was gathered doesn't fit, which shows at the end, and nothing is written behind that.
const FULL: [Step; 4] = [Write, FinishFails, WriteFails, FinishFails];

#[test]
fn a_full_device(rt: HostRuntime) -> Result<(), Fail> {
    let path = format!(in rt.alloc(); "/dev/full").ok();
    assert!(rt; is_sink(&rt, &path, &None, &FULL));
    Ok(())
}

/// Whether a place is refused before a run and in it.
fn is_refused(rt: &HostRuntime, place: Destination<'_>) -> bool {
    place.look(rt).is_err() && put(rt, place) == Put::Failed
}

/// Whether a journal's file is spared under another name.
fn is_spared_by_path(rt: &HostRuntime, path: &Option<String>, other: &Option<String>) -> bool {
    let spared = Spared {
        journal: path.as_deref(),
        ..NONE
    };
    is_refused(rt, place(rt, other, spared))
}

/// Whether a file is removed, and the one of a source that is open is spared under another name.
fn is_open_spared<'a>(
    rt: &'a HostRuntime,
    path: &'a Option<String>,
    other: &'a Option<String>,
    source: &FileSource,
) -> bool {
    let spared = Spared {
        open: source.inode(),
        ..NONE
    };
    remove(rt, path) && put(rt, place(rt, other, spared)) == Put::Failed
}

/// Whether a model's file is spared while it is open, though its own name is gone.
fn is_spared_while_open(rt: &HostRuntime, path: &Option<String>, other: &Option<String>) -> bool {
    let source = FileSource::open(rt, path.as_deref());
    is_open_spared(rt, path, other, &source)
}

/// Whether a file got another name beside its own.
fn link(rt: &HostRuntime, path: &Option<String>, other: &Option<String>) -> bool {
    fs::hard_link(rt, text(path), text(other)).is_ok()
}

/// Whether a file of two names is spared under the other one.
fn is_other_name_spared(rt: &HostRuntime, path: &Option<String>, other: &Option<String>) -> bool {
    fill(rt, path, b"NAME one\n")
        && link(rt, path, other)
        && is_spared_by_path(rt, path, other)
        && is_spared_while_open(rt, path, other)
        && holds(rt, other, "NAME one\n")
        && remove(rt, other)
}

#[test]
fn a_file_under_another_name_is_spared(rt: HostRuntime) -> Result<(), Fail> {
    let path = scratch(&rt, "spared");
    let other = scratch(&rt, "other");
    assert!(rt; is_other_name_spared(&rt, &path, &other));
    Ok(())
}

/// A journal whose first record is that of a model with the text 'NAME one', and its mark alone.
const JOURNAL: &[u8] = b"BNCJRNL1\x01\x14\0\0\0\x01\x01\0\0\0\0\0\0\0\0\0NAME one\n\0";

/// Texts of a journal's beginning, of the model, and of the journal's model.
const SPARED: [&str; 4] = ["BNCJRNL1", "BNCJRNL1\0", "NAME two\n", "NAME one\n"];

/// Texts of none of these.
const REPLACED: [&str; 5] = ["", "BNCJRNL", "NAME tow\n", "NAME one", "NAME one\n\n"];

/// A place of this path, which isn't to be this model or the model of this journal.
fn beside<'a>(
    rt: &'a HostRuntime,
    path: &'a Option<String>,
    model: &'a Option<String>,
    journal: &'a Option<String>,
) -> Destination<'a> {
    let spared = Spared {
        open: Ok(None),
        model: model.as_deref(),
        journal: journal.as_deref(),
    };
    place(rt, path, spared)
}

/// Whether a file of this text is spared.
fn is_spared(rt: &HostRuntime, path: &Option<String>, there: Destination<'_>, text: &str) -> bool {
    fill(rt, path, text.as_bytes()) && is_refused(rt, there) && holds(rt, path, text)
}

/// Whether a file of this text isn't spared, and stays until another is whole.
fn is_replaced(
    rt: &HostRuntime,
    path: &Option<String>,
    there: Destination<'_>,
    text: &str,
) -> bool {
    fill(rt, path, text.as_bytes())
        && there.look(rt).is_ok()
        && put(rt, there) == Put::Took(3)
        && holds(rt, path, text)
}

/// Whether files of such texts are spared.
fn are_spared(rt: &HostRuntime, path: &Option<String>, there: Destination<'_>) -> bool {
    for text in &SPARED {
        if !is_spared(rt, path, there, text) {
            return false;
        }
    }
    true
}

/// Whether files of other texts are not.
fn are_replaced(rt: &HostRuntime, path: &Option<String>, there: Destination<'_>) -> bool {
    for text in &REPLACED {
        if !is_replaced(rt, path, there, text) {
            return false;
        }
    }
    true
}

/// Whether a file is spared or not by its content.
fn is_content_looked_at(
    rt: &HostRuntime,
    path: &Option<String>,
    model: &Option<String>,
    journal: &Option<String>,
) -> bool {
    let there = beside(rt, path, model, journal);
    are_spared(rt, path, there) && are_replaced(rt, path, there) && remove(rt, path)
}

/// Whether the content of a file is compared with a model and with the model of a journal.
fn is_compared(rt: &HostRuntime, model: &Option<String>, journal: &Option<String>) -> bool {
    let path = scratch(rt, "content");
    fill(rt, model, b"NAME two\n")
        && fill(rt, journal, JOURNAL)
        && is_content_looked_at(rt, &path, model, journal)
}

#[test]
fn a_file_of_such_content_is_spared(rt: HostRuntime) -> Result<(), Fail> {
    let model = scratch(&rt, "model");
    let journal = scratch(&rt, "journal");
    assert!(rt; is_compared(&rt, &model, &journal));
    assert!(rt; remove(&rt, &model) && remove(&rt, &journal));
    Ok(())
}

/// A file in use is spared, and one that a sink writes is in use.
const IN_USE: [Step; 5] = [InUse, Holds("VER old"), Write, Taken, Finish];

#[test]
fn a_file_in_use_is_spared(rt: HostRuntime) -> Result<(), Fail> {
    let path = scratch(&rt, "in-use");
    assert!(rt; fill(&rt, &path, b"VER old"));
    assert!(rt; is_sink(&rt, &path, &None, &IN_USE) && remove(&rt, &path));
    Ok(())
}

/// A sink has nothing to end before its first write. If its place was taken meanwhile, it leaves what took it,
const NEW_PLACE: [Step; 7] = [
    Finish,
    Write,
    Fill("another"),
    FinishFails,
    Holds("another"),
    Remove,
    FinishFails,
];

/// also where an older file was renamed before.
const OLD_PLACE: [Step; 8] = [
    Finish,
    Write,
    Rename,
    Fill("another"),
    FinishFails,
    Holds("another"),
    Remove,
    FinishFails,
];

/// Whether what took a place is left, where there was no older file and where there was one.
fn is_taken_place_left(rt: &HostRuntime, path: &Option<String>, other: &Option<String>) -> bool {
    is_sink(rt, path, other, &NEW_PLACE)
        && fill(rt, path, b"older")
        && is_sink(rt, path, other, &OLD_PLACE)
        && holds(rt, other, "older")
        && remove(rt, other)
}

/// Whether nothing is left of what a sink wrote.
fn is_part_gone(rt: &HostRuntime, path: &Option<String>) -> bool {
    let part = part_of(rt, path);
    is_gone(rt, &part)
}

#[test]
fn a_place_that_was_taken_is_left(rt: HostRuntime) -> Result<(), Fail> {
    let path = scratch(&rt, "taken");
    let other = scratch(&rt, "renamed");
    assert!(rt; is_taken_place_left(&rt, &path, &other) && is_part_gone(&rt, &path));
    Ok(())
}

/// Whether a source reads nine bytes and no more.
fn is_read(source: &mut FileSource) -> bool {
    let mut buf = [0; 5];
    source.read(&mut buf) == Got::Gave(5)
        && buf == *b"NAME "
        && source.read(&mut buf) == Got::Gave(4)
        && source.read(&mut buf) == Got::End
        && source.read(&mut buf) == Got::End
}

/// Whether a source reads the file to its end.
fn reads_to_the_end(rt: &HostRuntime, path: &Option<String>) -> bool {
    let mut source = FileSource::open(rt, path.as_deref());
    is_read(&mut source)
}

/// Whether a source fails at each read.
fn is_unread(source: &mut FileSource) -> bool {
    let mut buf = [0; 5];
    source.read(&mut buf) == Got::Failed && source.read(&mut buf) == Got::Failed
}

/// Whether a source of a file that isn't there fails.
fn fails_to_read(rt: &HostRuntime, path: Option<&str>) -> bool {
    let mut source = FileSource::open(rt, path);
    is_unread(&mut source)
}

/// Whether a file is read to its end, and not when it is gone.
fn is_read_while_there(rt: &HostRuntime, path: &Option<String>) -> bool {
    fill(rt, path, b"NAME one\n")
        && reads_to_the_end(rt, path)
        && remove(rt, path)
        && fails_to_read(rt, path.as_deref())
}

#[test]
fn source(rt: HostRuntime) -> Result<(), Fail> {
    let path = scratch(&rt, "source");
    assert!(rt; is_read_while_there(&rt, &path) && fails_to_read(&rt, None));
    Ok(())
}

/// A stream of one byte at a time, whose next calls fail so.
#[derive(Drop)]
struct Interrupted {
    calls: u8,
    kind: ErrorKind,
}

impl Interrupted {
    fn go_on(&mut self) -> io::Result<()> {
        if self.calls == 0 {
            return Ok(());
        }
        self.calls -= 1;
        Err(io::Error::from(self.kind))
    }
}

impl Read for Interrupted {
    fn read(&mut self, buf: &mut [u8]) -> io::Result<usize> {
        self.go_on()?;
        match buf.first_mut() {
            Some(byte) => {
                *byte = b'x';
                Ok(1)
            }
            None => Ok(0),
        }
    }
}

impl Write for Interrupted {
    fn write(&mut self, buf: &[u8]) -> io::Result<usize> {
        self.go_on()?;
        Ok(buf.len().min(1))
    }

    fn flush(&mut self) -> io::Result<()> {
        Ok(())
    }
}

/// Whether one byte is read behind two calls that are interrupted.
fn is_read_again() -> bool {
    let mut buf = [0; 3];
    let mut interrupted = Interrupted {
        calls: 2,
        kind: ErrorKind::Interrupted,
    };
    matches!(read_some(&mut interrupted, &mut buf), Ok(1)) && buf == *b"x\0\0"
}

/// Whether one byte is written behind two calls that fail so.
fn is_written_again(rt: &HostRuntime, kind: ErrorKind) -> bool {
    let mut interrupted = Interrupted { calls: 2, kind };
    matches!(write_some(rt, &mut interrupted, b"abc"), Ok(1))
}

#[test]
fn calls_are_tried_again(rt: HostRuntime) -> Result<(), Fail> {
    assert!(rt; is_read_again());
    assert!(rt; is_written_again(&rt, ErrorKind::Interrupted));
    assert!(rt; is_written_again(&rt, ErrorKind::WouldBlock));
    Ok(())
}

/// A stream with room for so many bytes, as on a disk that fills up.
#[derive(Drop)]
struct Small {
    room: usize,
}

impl Write for Small {
    fn write(&mut self, buf: &[u8]) -> io::Result<usize> {
        if self.room == 0 {
            return Err(io::Error::from(ErrorKind::StorageFull));
        }
        let count = buf.len().min(self.room);
        self.room -= count;
        Ok(count)
    }

    fn flush(&mut self) -> io::Result<()> {
        Ok(())
    }
}

/// Whether five bytes are written to a stream with so much room, which is full then.
fn fills(rt: &HostRuntime, room: usize) -> bool {
    let mut small = Small { room };
    write_whole(rt, &mut small, b"abcde").is_ok() && small.room == 0
}

#[test]
fn a_disk_is_full_in_the_middle_of_a_piece(rt: HostRuntime) -> Result<(), Fail> {
    assert!(rt; fills(&rt, 5) && !fills(&rt, 3));
    Ok(())
}
