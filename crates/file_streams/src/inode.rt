// Which file it is, whatever it is called.
use std::fs::{File, Metadata};
use std::io::ErrorKind;
use std::os::unix::fs::{FileTypeExt, MetadataExt};
use std::rt::Files;
use std::{fs, io};

/// Where the system shows the files of the standard streams. `std` has no other way to ask for one that it did not open
/// (docs/DECISIONS.md, entry 32).
pub(crate) const STANDARD_OUTPUT: &str = "/proc/self/fd/1";

pub(crate) const STANDARD_ERROR: &str = "/proc/self/fd/2";

/// A file by its numbers, which all its names and all that have it open share: its device's, and its own there.
#[derive(Clone, Copy, Debug, PartialEq, Eq)]
pub struct Inode {
    device: u64,
    number: u64,
    /// Whether it keeps what is written to it, as a plain file and a disk do. A terminal, a pipe or a socket passes that on.
    pub keeps_bytes: bool,
}

impl Inode {
    /// The file that is open.
    pub(crate) fn of(file: &File) -> io::Result<Inode> {
        Ok(inode_of(&file.metadata()?))
    }

    /// The file that the path leads to now, if there is one.
    pub(crate) fn at<R: Files>(files: &R, path: Option<&str>) -> io::Result<Option<Inode>> {
        let Some(path) = path else {
            return Ok(None);
        };
        match fs::metadata(files, path) {
            Ok(data) => Ok(Some(inode_of(&data))),
            Err(error) if is_absence(error.kind()) => Ok(None),
            Err(error) => Err(error),
        }
    }

    /// The file of a standard stream, by where the system shows it. This fails where /proc isn't mounted.
    pub(crate) fn of_stream<R: Files>(files: &R, stream: &str) -> io::Result<Inode> {
        match Inode::at(files, Some(stream))? {
            Some(inode) => Ok(inode),
            None => Err(io::Error::new(ErrorKind::NotFound, "/proc isn't mounted")),
        }
    }
}

fn inode_of(data: &Metadata) -> Inode {
    Inode {
        device: data.dev(),
        number: data.ino(),
        keeps_bytes: data.is_file() || data.file_type().is_block_device(),
    }
}

fn is_absence(kind: ErrorKind) -> bool {
    kind == ErrorKind::NotFound || kind == ErrorKind::NotADirectory
}
