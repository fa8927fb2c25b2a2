// A disk over a file. What a real file holds no contract can say, so it tells nothing; it counts its faults.
ghost use Rattle.std.specs.Prelude.{◌≡◌, is_err};
ghost use Rattle.outside.specs.Faults.{Counts};

use crate::opened::Opened;
use outside::{Disk, Failed};
use std::fs::File;
use std::io;
use std::io::{Error, ErrorKind};
use std::rt::Files;

/// What is known of the file.
#[derive(Drop)]
enum Place {
    /// No call was made yet.
    Unseen,
    /// There was no file, and none was made.
    Missing,
    Open(Opened),
}

/// A plain file as a disk. It is opened at the first call, and made at the first write where there is none; until then it is empty. Without a
/// path each call fails.
///
/// Reading takes nothing from others. The first write or cut takes the file for writing until the disk is dropped, and fails where that can't
/// be (docs/DECISIONS.md, entry 45). A sync is the file's `sync_all`, or its `sync_data` where it is as long as at the last one. The first that
/// succeeds has synced its entry in its folder too. Of its faults it keeps what the system said of the last one, for a person; no contract speaks of
/// that (docs/DECISIONS.md, entry 70).
pub struct FileDisk<'a, R: Files<File = File>> {
    files: &'a R,
    path: &'a Option<String>,
    place: Place,
    /// Whether the file's entry in its folder was synced.
    entered: bool,
    /// Whether a sync has failed. The system may then have dropped what it couldn't write, and tell so only once.
    unsynced: bool,
    count: u64,
    /// What the system said of the last fault.
    met: Option<Error>,
}

impl<'a, R: Files<File = File>> Drop for FileDisk<'a, R> {
    fn drop(self) {
        let FileDisk {
            files: _,
            path: _,
            place: _,
            entered: _,
            unsynced: _,
            count: _,
            met: _,
        } = self;
    }
}

impl<'a, R: Files<File = File>> FileDisk<'a, R> {
    /// The disk that the file at this path is, without a fault. This opens nothing.
    pub fn new(files: &'a R, path: &'a Option<String>) -> FileDisk<'a, R>
        ensures { result.count ≡ 0 }
    {
        FileDisk {
            files,
            path,
            place: Place::Unseen,
            entered: false,
            unsynced: false,
            count: 0,
            met: None,
        }
    }

    /// What the system said of the last fault; none where there was none.
    pub fn met(&self) -> Option<Error>
        ensures { result ≡ self.now.met }
    {
        self.met
    }

    /// Opens the file, unless that was done.
    fn look(&mut self) -> io::Result<()>
        ensures { self.new.count ≡ self.old.count }
    {
        let Some(path) = self.path else {
            return Err(no_path());
        };
        if let Place::Unseen = self.place {
            self.place = match Opened::at(self.files, path.as_str())? {
                Some(opened) => Place::Open(opened),
                None => Place::Missing,
            };
        }
        Ok(())
    }

    /// Makes the file, unless there is one.
    fn make(&mut self) -> io::Result<()>
        ensures { self.new.count ≡ self.old.count }
    {
        self.look()?;
        let Some(path) = self.path else {
            return Err(no_path());
        };
        if let Place::Missing = self.place {
            self.place = Place::Open(Opened::made(self.files, path.as_str())?);
        }
        Ok(())
    }

    fn try_size(&mut self) -> io::Result<u64>
        ensures { self.new.count ≡ self.old.count }
    {
        self.look()?;
        match &self.place {
            Place::Open(opened) => Ok(opened.metadata()?.len()),
            _ => Ok(0),
        }
    }

    fn try_read(&mut self, at: u64, buf: &mut [u8]) -> io::Result<()>
        ensures { self.new.count ≡ self.old.count }
    {
        self.look()?;
        match &self.place {
            Place::Open(opened) => opened.read(at, buf),
            _ if buf.is_empty() => Ok(()),
            _ => Err(Error::from(ErrorKind::NotFound)),
        }
    }

    fn try_write(&mut self, at: u64, bytes: &[u8]) -> io::Result<()>
        ensures { self.new.count ≡ self.old.count }
    {
        self.make()?;
        match &mut self.place {
            Place::Open(opened) => opened.write(at, bytes),
            _ => Err(Error::from(ErrorKind::NotFound)),
        }
    }

    fn try_cut(&mut self, size: u64) -> io::Result<()>
        ensures { self.new.count ≡ self.old.count }
    {
        self.look()?;
        match &mut self.place {
            Place::Open(opened) => opened.cut(size),
            _ if size == 0 => Ok(()),
            _ => Err(Error::from(ErrorKind::NotFound)),
        }
    }

    /// Syncs the file, and its entry. Where there is no file, nothing has to be synced.
    fn sync_both(&mut self) -> io::Result<()>
        ensures { self.new.count ≡ self.old.count }
    {
        self.look()?;
        let (Some(path), Place::Open(opened)) = (self.path, &mut self.place) else {
            return Ok(());
        };
        opened.sync()?;
        if !self.entered {
            opened.sync_entry(self.files, path)?;
            self.entered = true;
        }
        Ok(())
    }

    /// Syncs, unless that has failed before.
    fn try_sync(&mut self) -> io::Result<()>
        ensures { self.new.count ≡ self.old.count }
    {
        if self.unsynced {
            return Err(Error::other("an earlier sync has failed"));
        }
        let result = self.sync_both();
        self.unsynced = result.is_err();
        result
    }

    /// Counts a call's fault, if it failed, and keeps what the system said.
    fn noted<T: Drop>(&mut self, outcome: io::Result<T>) -> Result<T, Failed>
        ensures counted { Counts self.old.count self.new.count (is_err result) }
    {
        match outcome {
            Ok(value) => Ok(value),
            Err(error) => {
                self.count = self.count.saturating_add(1);
                self.met = Some(error);
                Err(Failed)
            }
        }
    }
}

fn no_path() -> Error {
    Error::new(ErrorKind::NotFound, "there is no path")
}

impl<'a, R: Files<File = File>> Disk for FileDisk<'a, R> {
    ghost use Rattle.std.specs.Prelude.{false, [], refl};
    ghost use Rattle.outside.specs.Images.{resting};
    ghost use Rattle.outside.specs.Lemmas.SeenIsImage.{rests};

    ghost tells = { false };

    ghost past = { λ _. [] };

    ghost now = { λ _. resting [] };

    ghost ticks = { λ _. 0 };

    ghost count = { λ d. d.count };

    ghost ticks_is = { λ _ _. refl };

    ghost seen_is_image = { λ _ _. rests [] };

    fn size(&mut self) -> Result<u64, Failed> {
        let result = self.try_size();
        self.noted(result)
    }

    fn read_at(&mut self, at: u64, buf: &mut [u8]) -> Result<(), Failed> {
        let result = self.try_read(at, buf);
        self.noted(result)
    }

    fn write_at(&mut self, at: u64, bytes: &[u8]) -> Result<(), Failed> {
        let result = self.try_write(at, bytes);
        self.noted(result)
    }

    fn cut(&mut self, size: u64) -> Result<(), Failed> {
        let result = self.try_cut(size);
        self.noted(result)
    }

    fn sync(&mut self) -> Result<(), Failed> {
        let result = self.try_sync();
        self.noted(result)
    }

    fn clock(&self) -> u64 {
        0
    }

    fn faults(&self) -> u64 {
        self.count
    }
}
