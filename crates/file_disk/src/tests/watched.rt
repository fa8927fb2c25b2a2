// The system's files, with refusals that a test asks for.
use std::alloc::Allocator;
use std::cell::Cell;
use std::fs::{File, Metadata, OpenOptions};
use std::io;
use std::io::{Error, ErrorKind};
use std::path::PathBuf;
use std::rt::Files;

/// It counts how often one path was opened, and can refuse that; or it refuses each opening for writing.
#[derive(Drop)]
pub(super) struct Watched<'a> {
    rt: &'a HostRuntime,
    unwritable: Option<ErrorKind>,
    path: &'a str,
    tries: Cell<u32>,
    closed: Cell<bool>,
}

impl<'a> Watched<'a> {
    pub(super) fn refusing(rt: &'a HostRuntime, kind: ErrorKind) -> Watched<'a> {
        let mut watched = Watched::at(rt, "");
        watched.unwritable = Some(kind);
        watched
    }

    pub(super) fn at(rt: &'a HostRuntime, path: &'a str) -> Watched<'a> {
        Watched {
            rt,
            unwritable: None,
            path,
            tries: Cell::new(0),
            closed: Cell::new(false),
        }
    }

    pub(super) fn tries(&self) -> u32 {
        self.tries.get()
    }

    pub(super) fn close(&self) {
        self.closed.set(true);
    }

    pub(super) fn open(&self) {
        self.closed.set(false);
    }
}

impl Files for Watched<'_> {
    type File = File;

    type Dir = <HostRuntime as Files>::Dir;

    fn open_file(&self, how: &OpenOptions, path: &str) -> io::Result<File> {
        if let Some(kind) = self.unwritable {
            if how.asks_write() {
                return Err(Error::from(kind));
            }
        }
        if path == self.path {
            self.tries.set(self.tries.get().saturating_add(1));
            if self.closed.get() {
                return Err(Error::from(ErrorKind::PermissionDenied));
            }
        }
        self.rt.open_file(how, path)
    }

    fn open_dir(&self, path: &str) -> io::Result<Self::Dir> {
        self.rt.open_dir(path)
    }

    fn metadata(&self, path: &str) -> io::Result<Metadata> {
        self.rt.metadata(path)
    }

    fn symlink_metadata(&self, path: &str) -> io::Result<Metadata> {
        self.rt.symlink_metadata(path)
    }

    fn copy(&self, from: &str, to: &str) -> io::Result<u64> {
        self.rt.copy(from, to)
    }

    fn rename(&self, from: &str, to: &str) -> io::Result<()> {
        self.rt.rename(from, to)
    }

    fn remove_file(&self, path: &str) -> io::Result<()> {
        self.rt.remove_file(path)
    }

    fn create_dir(&self, path: &str) -> io::Result<()> {
        self.rt.create_dir(path)
    }

    fn remove_dir(&self, path: &str) -> io::Result<()> {
        self.rt.remove_dir(path)
    }

    fn remove_dir_all<B: Allocator>(&self, alloc: B, path: &str) -> io::Result<()> {
        self.rt.remove_dir_all(alloc, path)
    }

    fn read_link<B: Allocator>(&self, alloc: B, path: &str) -> io::Result<PathBuf<B>> {
        self.rt.read_link(alloc, path)
    }
}
