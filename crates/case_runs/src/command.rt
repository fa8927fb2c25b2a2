//! Commands over memory, what they are given, and what they answer.

ghost use Rattle.std.specs.Prelude.{◌≡◌, IfOk, IsTrue, None};
ghost use Rattle.outside.specs.OnDisk.{disk_now};
ghost use Rattle.outside.specs.InMemory.{sink_taken};

use crate::kinds::{Kinds, kinds_of};
use anyhow::Result;
use outside::{MemDisk, MemSink, MemSource};
use solve_top::{Ran, State, Words, run_one};
use std::alloc::{AllocError, Global};
use std::hash::{BuildHasherDefault, DefaultHasher};

/// How a stream behaves.
#[derive(Clone, Copy)]
pub struct Stream<'a> {
    /// The calls that fail, counted from 0.
    pub failing: &'a [u64],
    /// How many bytes a call moves at most.
    pub most: usize,
}

impl Stream<'_> {
    /// The source of a text.
    fn source(&self, alloc: Global, text: &str) -> Result<MemSource, AllocError> {
        let source = MemSource::failing(alloc, text.as_bytes(), self.failing)?;
        Ok(source.in_pieces(self.most.max(1)))
    }

    /// An empty sink.
    fn sink(&self, alloc: Global) -> Result<MemSink, AllocError> {
        let sink = MemSink::failing(alloc, self.failing)?;
        Ok(sink.in_pieces(self.most.max(1)))
    }
}

/// A stream of which no call fails.
pub const SOUND: Stream<'static> = Stream {
    failing: &[],
    most: usize::MAX,
};

/// A command and what it runs over.
#[derive(Clone, Copy)]
pub struct Command<'a> {
    /// Its words, parted by single blanks.
    pub line: &'a str,
    /// The text of its model.
    pub model: &'a str,
    /// The source of the model.
    pub source: Stream<'a>,
    /// The sink of its certificate.
    pub cert: Stream<'a>,
    /// The sink of its lines.
    pub out: Stream<'a>,
    /// What its disk holds.
    pub bytes: &'a [u8],
    /// The call at which its disk stops, if it does.
    pub stop: Option<u64>,
}

/// A command over the model of a text and an empty disk, of which no call fails.
pub fn usual<'a>(line: &'a str, model: &'a str) -> Command<'a>
    ensures line { result.line.now ≡ line.now }
    ensures model { result.model.now ≡ model.now }
    ensures stop { result.stop ≡ None }
{
    Command {
        line,
        model,
        source: SOUND,
        cert: SOUND,
        out: SOUND,
        bytes: b"",
        stop: None,
    }
}

impl Command<'_> {
    /// Whether one worker does it: none of its words asks for more.
    pub fn is_by_one(&self) -> bool {
        !self.line.split(' ').any(|word| word == "--workers")
    }

    /// What it is given besides its disk.
    pub(crate) fn given(&self, alloc: Global) -> Result<Given, AllocError> {
        let model = self.source.source(alloc, self.model)?;
        let cert = self.cert.sink(alloc)?;
        let out = self.out.sink(alloc)?;
        let words = words_of(alloc, self.line)?;
        Ok(Given {
            words,
            model,
            cert,
            out,
        })
    }

    /// Its disk.
    pub(crate) fn disk(&self, alloc: Global) -> Result<MemDisk, AllocError> {
        match self.stop {
            Some(call) => MemDisk::stopping_at(alloc, self.bytes, call),
            None => MemDisk::from_bytes(alloc, self.bytes),
        }
    }
}

/// The words of a line, parted by single blanks.
fn words_of(alloc: Global, line: &str) -> Result<Words, AllocError> {
    let mut words = Words::new(alloc);
    push_words(alloc, &mut words, line)?;
    Ok(words)
}

/// Pushes the words of a line.
fn push_words(alloc: Global, words: &mut Words, line: &str) -> Result<(), AllocError> {
    for word in line.split(' ') {
        words.push(alloc, word)?;
    }
    Ok(())
}

/// What a command is given besides its disk.
#[derive(Drop)]
pub struct Given {
    /// Its words.
    pub words: Words,
    /// The source of its model.
    pub model: MemSource,
    /// The sink of its certificate.
    pub cert: MemSink,
    /// The sink of its lines.
    pub out: MemSink,
}

/// The text of bytes.
fn text_of(bytes: &[u8]) -> &str {
    str::from_utf8(bytes).unwrap_or("(bytes that are no text)")
}

/// What a command answered, and what it left.
#[derive(Drop)]
pub struct Answered {
    /// The number with which it ended.
    pub status: u8,
    /// What it was given, as it left it.
    pub given: Given,
    /// The disk as it left it.
    pub disk: MemDisk,
    /// The kinds of the events of the search that it handed back, if it handed one back.
    pub kinds: Option<Kinds>,
}

impl Answered {
    /// What a run answered that was given this.
    pub(crate) fn of(ran: Ran<MemDisk>, given: Given) -> Answered {
        let Ran { status, disk, last } = ran;
        let kinds = kinds_of_last(&last);
        Answered {
            status,
            given,
            disk,
            kinds,
        }
    }

    /// Runs a command on a disk.
    pub(crate) fn run_on(alloc: Global, command: &Command<'_>, disk: MemDisk) -> Result<Answered> {
        let given = command.given(alloc)?;
        Ok(run_given(alloc, given, disk))
    }

    /// Runs a command on its own disk, by one worker. The one error is want of memory.
    pub fn run(alloc: Global, command: &Command<'_>) -> Result<Answered> {
        let disk = command.disk(alloc)?;
        Answered::run_on(alloc, command, disk)
    }

    /// The certificate that it wrote.
    pub fn certificate(&self) -> &str {
        text_of(self.given.cert.bytes())
    }

    /// The lines that it wrote.
    pub fn lines(&self) -> &str {
        text_of(self.given.out.bytes())
    }

    /// A copy of the bytes of its disk. The one error is want of memory.
    pub fn journal(&self, alloc: Global) -> Result<Vec<u8>>
        ensures { IfOk result (λ bytes. bytes.items ≡ (disk_now self.now.disk).seen) }
    {
        Ok(self.disk.bytes().to_vec(alloc)?)
    }

    /// Whether another command answered the same.
    pub fn answers_as(&self, other: &Answered) -> bool
        ensures status { IsTrue result → self.now.status ≡ other.now.status }
        ensures cert { IsTrue result → sink_taken self.now.given.cert ≡ sink_taken other.now.given.cert }
        ensures out { IsTrue result → sink_taken self.now.given.out ≡ sink_taken other.now.given.out }
    {
        self.status == other.status
            && self.given.cert.bytes() == other.given.cert.bytes()
            && self.given.out.bytes() == other.given.out.bytes()
    }

    /// Whether another command answered the same, and left the same.
    pub fn is_same(&self, other: &Answered) -> bool
        ensures { IsTrue result → (disk_now self.now.disk).seen ≡ (disk_now other.now.disk).seen }
    {
        self.answers_as(other) && self.disk.bytes() == other.disk.bytes()
    }
}

/// The kinds of a search's events, if there is one.
fn kinds_of_last(last: &Option<State>) -> Option<Kinds> {
    match last {
        Some(state) => Some(kinds_of(state)),
        None => None,
    }
}

/// Runs a command that is given this.
fn run_given(alloc: Global, given: Given, disk: MemDisk) -> Answered {
    let mut given = given;
    let keys: BuildHasherDefault<DefaultHasher> = BuildHasherDefault::new();
    let ran = run_one(
        alloc,
        keys,
        &given.words,
        &mut given.model,
        disk,
        &mut given.cert,
        &mut given.out,
    );
    Answered::of(ran, given)
}
