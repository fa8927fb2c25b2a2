// A source that is a file.
ghost use Rattle.std.specs.Prelude.{◌≡◌, ◌≤◌, length, is_some, IfOk};

use crate::inode::Inode;
use crate::retried::read_some;
use outside::{Failed, Got, Source};
use std::fs::File;
use std::io;
use std::io::{Error, ErrorKind};
use std::rt::Files;

/// A file that is read from its front on. Where it can't be opened each read fails. Its count stays at the last number of 64 bits. Of its faults
/// it keeps what the system said of the last one, for a person; no contract speaks of that.
#[derive(Drop)]
pub struct FileSource {
    file: Option<File>,
    faults: u64,
    met: Option<Error>,
}

impl FileSource {
    /// Opens the file at this path, if there is a path. A failure to do so shows at the first read.
    pub fn open<R: Files<File = File>>(files: &R, path: Option<&str>) -> FileSource
        ensures { result.faults ≡ 0 }
    {
        let opened = match path {
            Some(path) => File::open(files, path),
            None => Err(Error::from(ErrorKind::NotFound)),
        };
        match opened {
            Ok(file) => FileSource {
                file: Some(file),
                faults: 0,
                met: None,
            },
            Err(error) => FileSource {
                file: None,
                faults: 0,
                met: Some(error),
            },
        }
    }

    /// What the system said of the last fault, of the opening too; none where there was none.
    pub fn met(&self) -> Option<Error> {
        self.met
    }

    /// Which file is open; none exactly where no file is.
    pub fn inode(&self) -> Result<Option<Inode>, Failed>
        ensures { IfOk result (λ i. is_some i ≡ is_some self.now.file) }
    {
        match &self.file {
            Some(file) => match Inode::of(file) {
                Ok(inode) => Ok(Some(inode)),
                Err(_) => Err(Failed),
            },
            None => Ok(None),
        }
    }

    // How many bytes came; none are at the end.
    fn try_read(&mut self, buf: &mut [u8]) -> io::Result<usize>
        ensures faults { self.new.faults ≡ self.old.faults }
        ensures bound { IfOk result (λ n. n ≤ length buf.new) }
    {
        match &mut self.file {
            Some(file) => read_some(file, buf),
            None => Err(self.met.unwrap_or(Error::from(ErrorKind::NotFound))),
        }
    }
}

impl Source for FileSource {
    ghost use Rattle.std.specs.Prelude.{false, []};

    ghost tells = { false };

    ghost left = { λ _. [] };

    ghost faults = { λ s. s.faults };

    fn read(&mut self, buf: &mut [u8]) -> Got {
        match self.try_read(buf) {
            Ok(0) => Got::End,
            Ok(count) => Got::Gave(count),
            Err(error) => {
                self.met = Some(error);
                self.faults = self.faults.saturating_add(1);
                Got::Failed
            }
        }
    }
}
