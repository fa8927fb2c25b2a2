// Where a file's sink is to write, and how the file is opened without harm.
use crate::inode::{Inode, STANDARD_ERROR, STANDARD_OUTPUT};
use crate::part::{Made, Part};
use crate::spared::Spared;
use crate::target::Target;
use std::fs::{File, OpenOptions, TryLockError};
use std::io::{Error, ErrorKind, Stderr, Stdout};
use std::rt::Files;
use std::{fs, io};

/// Where a file's sink is to write.
#[derive(Clone, Copy)]
pub struct Destination<'a> {
    /// The file, if there is to be one.
    pub path: Option<&'a String>,
    /// The files that this one must not be.
    pub spared: Spared<'a>,
    /// The program's own streams, whose files this one may be.
    pub streams: (Stdout, Stderr),
}

impl Destination<'_> {
    /// Finds the file, or makes it. A standard stream's own, a device and a pipe are left as they stand. Beside a plain file, or where there is
    /// none, a new one is made, which takes the place when it is whole; where that may not be, the file is emptied. It fails at a file that is to
    /// be spared or is in use, and where it can't be told which file it is, and then no byte of it has changed.
    pub(crate) fn target<R: Files<File = File>>(&self, files: &R) -> io::Result<Target> {
        let Some(path) = self.path else {
            return Err(Error::new(ErrorKind::NotFound, "there is no path"));
        };
        if let Some(stream) = self.stream_at(files, path.as_str())? {
            return Ok(stream);
        }
        match fs::metadata(files, path.as_str()) {
            Ok(data) if data.is_file() => {
                let older = self.older(files, path.as_str())?;
                self.replacing(files, path, Some(older))
            }
            Err(error) if error.kind() == ErrorKind::NotFound => self.replacing(files, path, None),
            _ => self.in_place(files, path.as_str()),
        }
    }

    // The standard stream whose file the path leads to, if one is. Nothing is opened for writing here, since that could fail, or wait, at a
    // stream that can be written.
    fn stream_at<R: Files<File = File>>(
        &self,
        files: &R,
        path: &str,
    ) -> io::Result<Option<Target>> {
        let Some(inode) = Inode::at(files, Some(path))? else {
            return Ok(None);
        };
        let (output, error) = self.streams;
        let target = if inode == Inode::of_stream(files, STANDARD_OUTPUT)? {
            Target::Output(output)
        } else if inode == Inode::of_stream(files, STANDARD_ERROR)? {
            Target::Error(error)
        } else {
            return Ok(None);
        };
        self.look(files)?;
        Ok(Some(target))
    }

    // The plain file at the path, to be written, as it stands. It is locked, so that nobody else writes it meanwhile.
    fn older<R: Files<File = File>>(&self, files: &R, path: &str) -> io::Result<File> {
        let file = OpenOptions::new().read(true).write(true).open(files, path)?;
        self.spared.check(files, Inode::of(&file)?)?;
        self.spared.check_content(files, &file)?;
        check_unused(&file)?;
        Ok(file)
    }

    // A new file that is to take the place of the older one, if there is one; or that one itself, emptied.
    fn replacing<R: Files<File = File>>(
        &self,
        files: &R,
        path: &String,
        older: Option<File>,
    ) -> io::Result<Target> {
        match Part::beside(files, path, older)? {
            Made::Part(part) => Ok(Target::Part(part)),
            Made::Forbidden(Some(file)) => {
                file.set_len(0)?;
                Ok(Target::Own(file))
            }
            Made::Forbidden(None) => self.in_place(files, path.as_str()),
        }
    }

    // The file at the path, as a device or a pipe. It is opened as it stands or made, and looked at only when it is known which file was opened.
    fn in_place<R: Files<File = File>>(&self, files: &R, path: &str) -> io::Result<Target> {
        let file = OpenOptions::new()
            .write(true)
            .create(true)
            .open(files, path)?;
        let inode = Inode::of(&file)?;
        self.spared.check(files, inode)?;
        if inode.keeps_bytes {
            check_unused(&file)?;
            check_empty(&file)?;
        }
        Ok(Target::Own(file))
    }
}

// Fails at a file that has bytes, which has appeared by then, and at the device of a disk.
fn check_empty(file: &File) -> io::Result<()> {
    if file.metadata()?.len() > 0 {
        return Err(Error::from(ErrorKind::AlreadyExists));
    }
    file.set_len(0)
}

// Locks the file until it is closed. It fails where another had it locked, as a run has its journal, whatever the name of that is by now. Where
// the file system has no locks, no journal is in use (docs/DECISIONS.md, entry 52).
fn check_unused(file: &File) -> io::Result<()> {
    match file.try_lock() {
        Err(TryLockError::WouldBlock) => {
            Err(Error::new(ErrorKind::WouldBlock, "another process has it locked"))
        }
        _ => Ok(()),
    }
}
