// A sink that is a file.
ghost use Rattle.std.specs.Prelude.{◌≡◌, ◌≤◌, [], true, length, IfOk, OnOk};
ghost use Rattle.outside.specs.Faults.{Counts};

use crate::destination::Destination;
use crate::gathered::Gathered;
use crate::target::Target;
use outside::{Failed, Put, Sink};
use std::alloc::Global;
use std::fs::File;
use std::io;
use std::io::{Error, ErrorKind};
use std::rt::{Clock, Files};

/// A file, found or made at the first write. What is written is gathered, and handed to the system in pieces of 64 KiB, the last one before the end;
/// where there is no memory for a piece, each write is handed on at once. So what the system refuses fails at a later write, or at the end. Each
/// call behind that fails as well, and nothing more is handed on: what the file holds is a prefix of what was written. To finish is to sync the
/// file, to put it in its place, and to sync its entry in its folder. What was not finished so is removed where it is dropped. Its count stays at
/// the last number of 64 bits. Of its faults it keeps what the system said of the last one, for a person; no contract speaks of that.
pub struct FileSink<'a, R: Files<File = File> + Clock> {
    files: &'a R,
    destination: Destination<'a>,
    target: Option<Target>,
    /// What was taken and not handed to the system yet.
    gathered: Gathered,
    /// Whether that has failed. How much of it the system took then isn't known, and none of it may be written twice.
    broken: bool,
    /// Whether a sync has failed. The system may then have dropped what it couldn't write, and tell so only once.
    unsynced: bool,
    faults: u64,
    met: Option<Error>,
}

impl<'a, R: Files<File = File> + Clock> Drop for FileSink<'a, R> {
    fn drop(self) {
        let FileSink {
            files,
            destination: _,
            target,
            gathered: _,
            broken: _,
            unsynced: _,
            faults: _,
            met: _,
        } = self;
        if let Some(target) = target {
            target.give_up(files);
        }
    }
}

impl<'a, R: Files<File = File> + Clock> FileSink<'a, R> {
    /// The file there, not opened yet, without a fault.
    pub fn new(alloc: Global, files: &'a R, destination: Destination<'a>) -> FileSink<'a, R>
        ensures { result.faults ≡ 0 }
    {
        FileSink {
            files,
            destination,
            target: None,
            gathered: Gathered::new(alloc),
            broken: false,
            unsynced: false,
            faults: 0,
            met: None,
        }
    }

    /// What the system said of the last fault; none where there was none.
    pub fn met(&self) -> Option<Error> {
        self.met
    }

    // Waits until what was written lies on the disk in its place, if anything was.
    fn sync(&mut self) -> io::Result<()>
        ensures { self.new.faults ≡ self.old.faults }
    {
        match (&mut self.target, self.destination.path) {
            (Some(target), Some(path)) => target.finish(self.files, path),
            _ => Ok(()),
        }
    }

    // Hands all that was gathered to the system, unless that has failed before.
    fn flush(&mut self) -> io::Result<()>
        ensures faults { self.new.faults ≡ self.old.faults }
        ensures empty { OnOk result (self.new.gathered.bytes.items ≡ []) }
    {
        if self.broken {
            return Err(Error::other("an earlier write has failed"));
        }
        let flushed = match &mut self.target {
            Some(target) => target.write_whole(self.files, self.gathered.as_slice()),
            None => Ok(()),
        };
        self.broken = flushed.is_err();
        self.gathered.clear();
        flushed
    }

    // Hands all to the system and waits for it, unless a sync has failed before.
    fn try_finish(&mut self) -> io::Result<()>
        ensures { self.new.faults ≡ self.old.faults }
    {
        if self.unsynced {
            return Err(Error::other("an earlier sync has failed"));
        }
        self.flush()?;
        let synced = self.sync();
        self.unsynced = synced.is_err();
        synced
    }

    // Hands a piece to the system, and answers how many bytes of it were taken. Nothing that comes before it is still gathered.
    fn write_through(&mut self, piece: &[u8]) -> io::Result<usize>
        requires { self.old.gathered.bytes.items ≡ [] }
        ensures faults { self.new.faults ≡ self.old.faults }
        ensures bound { IfOk result (λ n. n ≤ length piece.now) }
    {
        match &mut self.target {
            Some(target) => target.write(self.files, piece),
            None => Err(Error::from(ErrorKind::NotFound)),
        }
    }

    // How many bytes of the piece were taken.
    fn try_write(&mut self, piece: &[u8]) -> io::Result<usize>
        ensures faults { self.new.faults ≡ self.old.faults }
        ensures bound { IfOk result (λ n. n ≤ length piece.now) }
    {
        if self.target.is_none() {
            self.target = Some(self.destination.target(self.files)?);
        }
        if self.broken || self.gathered.is_full() {
            self.flush()?;
        }
        match self.gathered.add(piece) {
            0 => {
                self.flush()?;
                self.write_through(piece)
            }
            count => Ok(count),
        }
    }

    // Counts a fault.
    fn fail(&mut self, error: Error)
        ensures { Counts self.old.faults self.new.faults true }
    {
        self.faults = self.faults.saturating_add(1);
        self.met = Some(error);
    }
}

impl<'a, R: Files<File = File> + Clock> Sink for FileSink<'a, R> {
    ghost use Rattle.std.specs.Prelude.{false, []};

    ghost tells = { false };

    ghost taken = { λ _. [] };

    ghost faults = { λ s. s.faults };

    ghost kept = { λ _. [] };

    // A file that takes nothing of a piece has failed.
    fn write(&mut self, piece: &[u8]) -> Put {
        match self.try_write(piece) {
            Ok(count) if count > 0 => Put::Took(count),
            Ok(_) => {
                self.fail(Error::from(ErrorKind::WriteZero));
                Put::Failed
            }
            Err(error) => {
                self.fail(error);
                Put::Failed
            }
        }
    }

    fn finish(&mut self) -> Result<(), Failed> {
        match self.try_finish() {
            Ok(()) => Ok(()),
            Err(error) => {
                self.fail(error);
                Err(Failed)
            }
        }
    }
}
