// What a file's sink writes to.
ghost use Rattle.std.specs.Prelude.{◌≤◌, length, IfOk};

use crate::part::Part;
use crate::retried::{write_some, write_whole};
use file_entry::sync_entry;
use std::fs::File;
use std::io;
use std::io::{Stderr, Stdout};
use std::rt::{Clock, Files};

/// What a file's sink writes to.
#[derive(Drop)]
pub enum Target {
    /// A file that takes the place of another when it is whole.
    Part(Part),
    /// A file that is written where it stands: a device, a pipe, or one beside which none can be made.
    Own(File),
    /// A file that is standard output's too. Opened again it would be written from its front, over what standard output writes, so both write
    /// through the one descriptor (docs/DECISIONS.md, entry 34).
    Output(Stdout),
    /// The same of standard error.
    Error(Stderr),
}

impl Target {
    /// Writes once, and answers how many bytes of the piece were taken.
    pub(crate) fn write<R: Clock>(&mut self, clock: &R, piece: &[u8]) -> io::Result<usize>
        ensures { IfOk result (λ n. n ≤ length piece.now) }
    {
        match self {
            Target::Part(part) => write_some(clock, &mut part.file, piece),
            Target::Own(file) => write_some(clock, file, piece),
            Target::Output(output) => write_some(clock, output, piece),
            Target::Error(error) => write_some(clock, error, piece),
        }
    }

    /// Writes all of the bytes. Where that fails a prefix of them was taken.
    pub(crate) fn write_whole<R: Clock>(&mut self, clock: &R, bytes: &[u8]) -> io::Result<()> {
        match self {
            Target::Part(part) => write_whole(clock, &mut part.file, bytes),
            Target::Own(file) => write_whole(clock, file, bytes),
            Target::Output(output) => write_whole(clock, output, bytes),
            Target::Error(error) => write_whole(clock, error, bytes),
        }
    }

    /// Waits until what was written lies on the disk in its place, and the entry of the file, which the path leads to. Nothing is to be waited
    /// for at a standard stream, nor at a device or a pipe, which can't be synced.
    pub(crate) fn finish<R: Files<File = File>>(
        &mut self,
        files: &R,
        path: &String,
    ) -> io::Result<()> {
        match self {
            Target::Part(part) => part.put_in_place(files),
            Target::Own(file) => finish_own(files, path, file),
            Target::Output(_) | Target::Error(_) => Ok(()),
        }
    }

    /// Removes what has not come to its place.
    pub(crate) fn give_up<R: Files>(&self, files: &R) {
        if let Target::Part(part) = self {
            part.give_up(files);
        }
    }
}

// Syncs a plain file, and its entry. Each failure to do so is a fault.
fn finish_own<R: Files<File = File>>(files: &R, path: &String, file: &File) -> io::Result<()> {
    if !file.metadata()?.is_file() {
        return Ok(());
    }
    file.sync_all()?;
    sync_entry(files, path, file)
}
