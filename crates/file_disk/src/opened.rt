// The file of a disk: how it is found, made, taken for writing, read and written.
use file_entry::{is_link, sync_entry};
use std::fs::{File, Metadata, OpenOptions, TryLockError};
use std::io::{Error, ErrorKind};
use std::os::fd::AsRawFd;
use std::os::unix::fs::{FileExt, MetadataExt};
use std::rt::Files;
use std::{fs, io};

/// An open file. `std` tries a call again that a signal interrupts, in each of those here that can wait. What comes short has failed.
#[derive(Drop)]
pub(crate) struct Opened {
    file: File,
    /// Whether it may be written.
    writable: bool,
    /// What it was when it was opened.
    found: Metadata,
    /// Whether nobody else may take it for writing, until it is closed.
    taken: bool,
    /// How long it is, as far as this disk has made it so: nobody else writes to it once it is taken.
    length: u64,
    /// Whether it may have another length than at the last sync, or wasn't synced yet.
    resized: bool,
}

impl Opened {
    /// The file at the path, if there is one: for reading alone where it may not be written. What is no plain file isn't opened,
    /// since that could wait, as at a pipe.
    pub(crate) fn at<R: Files<File = File>>(files: &R, path: &str) -> io::Result<Option<Opened>> {
        match fs::metadata(files, path) {
            Ok(data) if data.is_file() => {}
            Ok(_) => return Err(no_plain_file()),
            Err(error) if error.kind() == ErrorKind::NotFound => return Ok(None),
            Err(error) => return Err(error),
        }
        match OpenOptions::new().read(true).write(true).open(files, path) {
            Ok(file) => Ok(Some(Opened::of(file, true)?)),
            Err(error) if forbids_writing(error.kind()) => {
                Ok(Some(Opened::of(File::open(files, path)?, false)?))
            }
            Err(error) => Err(error),
        }
    }

    /// Makes the file at the path. A file that is there by now is not taken. Through a link to no file it can only be told by its bytes
    /// that it is not new.
    pub(crate) fn made<R: Files<File = File>>(files: &R, path: &str) -> io::Result<Opened> {
        let mut options = OpenOptions::new();
        options.read(true).write(true);
        if is_link(files, path)? {
            options.create(true);
        } else {
            options.create_new(true);
        }
        let opened = Opened::of(options.open(files, path)?, true)?;
        if opened.found.len() == 0 {
            Ok(opened)
        } else {
            Err(Error::from(ErrorKind::AlreadyExists))
        }
    }

    // It fails at what is no plain file, and at the number of a standard stream: what the program prints would be written into the file.
    fn of(file: File, writable: bool) -> io::Result<Opened> {
        let found = file.metadata()?;
        if !found.is_file() || file.as_raw_fd() <= 2 {
            return Err(no_plain_file());
        }
        let length = found.len();
        Ok(Opened {
            file,
            writable,
            found,
            taken: false,
            length,
            resized: true,
        })
    }

    /// Takes the file for writing, which comes before its first change. It fails where another disk has taken it, or where it was changed
    /// since it was opened here: what was read would not be what is written over.
    fn take(&mut self) -> io::Result<()> {
        if self.taken {
            return Ok(());
        }
        if !self.writable {
            return Err(Error::new(ErrorKind::PermissionDenied, "it may only be read"));
        }
        self.lock()?;
        let now = self.metadata()?;
        if now.len() != self.found.len() || written(&now) != written(&self.found) {
            return Err(Error::other("another program has changed it since it was read"));
        }
        self.taken = true;
        Ok(())
    }

    // Locks the file, which nobody else may have locked.
    fn lock(&self) -> io::Result<()> {
        match self.file.try_lock() {
            Ok(()) => Ok(()),
            Err(TryLockError::WouldBlock) => {
                Err(Error::new(ErrorKind::WouldBlock, "another process has it locked"))
            }
            Err(TryLockError::Error(error)) => Err(error),
        }
    }

    /// What the system tells of the file.
    pub(crate) fn metadata(&self) -> io::Result<Metadata> {
        self.file.metadata()
    }

    /// Reads from a place on into the whole buffer.
    pub(crate) fn read(&self, at: u64, buf: &mut [u8]) -> io::Result<()> {
        self.file.read_exact_at(buf, at)
    }

    /// Writes all bytes from a place on. In a file that may only be read a few of the same may stand there already: then nothing is to be written
    /// (docs/DECISIONS.md, entry 68).
    pub(crate) fn write(&mut self, at: u64, bytes: &[u8]) -> io::Result<()> {
        if !self.writable && holds_already(&self.file, at, bytes) {
            return Ok(());
        }
        self.take()?;
        let end = at.saturating_add(bytes.len() as u64);
        if end <= self.length {
            return self.file.write_all_at(bytes, at);
        }
        // Also where it fails, some of the bytes may be there.
        self.resized = true;
        self.file.write_all_at(bytes, at)?;
        self.length = end;
        Ok(())
    }

    /// Sets the file's length.
    pub(crate) fn cut(&mut self, size: u64) -> io::Result<()> {
        self.take()?;
        self.resized = true;
        self.file.set_len(size)?;
        self.length = size;
        Ok(())
    }

    // Fails where the file has lost its last name: what is synced there is gone when the file is closed (docs/DECISIONS.md, entry 69).
    fn check_name(&self) -> io::Result<()> {
        if self.found.nlink() > 0 && self.metadata()?.nlink() == 0 {
            return Err(Error::new(
                ErrorKind::NotFound,
                "it was removed while the run had it open",
            ));
        }
        Ok(())
    }

    /// Waits until the file's bytes and its length are on the disk. That needs no permission to write.
    ///
    /// Where the length is that of the last sync, the system need not write what it keeps of the file besides its bytes: on ext4 that takes half
    /// of the time (docs/DECISIONS.md, entry 79). Such a sync fails at a file that has lost its last name. It is the last of each append, so no
    /// append to such a file succeeds (docs/DECISIONS.md, entry 97).
    pub(crate) fn sync(&mut self) -> io::Result<()> {
        if !self.resized {
            self.file.sync_data()?;
            return self.check_name();
        }
        self.file.sync_all()?;
        self.resized = false;
        Ok(())
    }

    /// Waits until the file's entry at the path is on the disk.
    pub(crate) fn sync_entry<R: Files<File = File>>(
        &self,
        files: &R,
        path: &String,
    ) -> io::Result<()> {
        sync_entry(files, path, &self.file)
    }
}

// When the file was last written, in seconds and nanoseconds.
fn written(data: &Metadata) -> (i64, i64) {
    (data.mtime(), data.mtime_nsec())
}

// Whether these bytes stand in the file from a place on. They have to be few: in a journal that is whole a recovery writes one byte.
fn holds_already(file: &File, at: u64, bytes: &[u8]) -> bool {
    let mut there = [0u8; 16];
    if bytes.len() > 16 {
        return false;
    }
    let buf = &mut there[..bytes.len()];
    file.read_exact_at(buf, at).is_ok() && *buf == *bytes
}

fn forbids_writing(kind: ErrorKind) -> bool {
    kind == ErrorKind::PermissionDenied || kind == ErrorKind::ReadOnlyFilesystem
}

fn no_plain_file() -> Error {
    Error::new(ErrorKind::InvalidInput, "it is no plain file")
}
