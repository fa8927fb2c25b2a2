// What is looked at before a run, so that nothing is searched whose certificate could not be written without harm, and nothing told into a file of
// the user's (docs/DECISIONS.md, entry 67).
use crate::destination::Destination;
use crate::head::Head;
use crate::inode::{Inode, STANDARD_ERROR, STANDARD_OUTPUT};
use std::fs::File;
use std::io::Error;
use std::rt::Files;
use std::{fs, io};

impl Destination<'_> {
    /// Fails where a file stands at the path that has to be spared: the model or the journal, another journal, or a copy of the model. What else
    /// may be wrong with the path shows when the file is opened. Nothing is changed.
    pub fn look<R: Files<File = File>>(&self, files: &R) -> io::Result<()> {
        let Some(path) = self.path else {
            return Ok(());
        };
        let Ok(Some(inode)) = Inode::at(files, Some(path.as_str())) else {
            return Ok(());
        };
        self.spared.check(files, inode)?;
        match fs::metadata(files, path.as_str()) {
            Ok(data) if data.is_file() => {
                let file = File::open(files, path.as_str())?;
                self.spared.check_content(files, &file)
            }
            _ => Ok(()),
        }
    }

    /// Fails where what is told on standard output would be written into the model, the journal or another journal.
    pub fn look_at_output<R: Files<File = File>>(&self, files: &R) -> io::Result<()> {
        match Inode::of_stream(files, STANDARD_OUTPUT) {
            Ok(inode) => self.look_at_stream(files, inode, STANDARD_OUTPUT),
            Err(_) => Ok(()),
        }
    }

    /// Whether a line on standard error is written into none of the user's files: not into the model, a journal or the certificate. Where that
    /// can't be told it isn't so.
    pub fn may_explain<R: Files<File = File>>(&self, files: &R) -> bool {
        let Ok(inode) = Inode::of_stream(files, STANDARD_ERROR) else {
            return false;
        };
        let path = self.path.map(|path| path.as_str());
        match Inode::at(files, path) {
            Ok(Some(there)) if there == inode && inode.keeps_bytes => false,
            Ok(_) => self.look_at_stream(files, inode, STANDARD_ERROR).is_ok(),
            Err(_) => false,
        }
    }

    // Fails at the file of a standard stream that is the model, the journal or another journal. A stream that can't be read can't be looked into.
    fn look_at_stream<R: Files<File = File>>(
        &self,
        files: &R,
        inode: Inode,
        stream: &str,
    ) -> io::Result<()> {
        if !inode.keeps_bytes {
            return Ok(());
        }
        if self.spared.has(files, inode)? {
            return Err(Error::other("it is the model or the journal"));
        }
        match File::open(files, stream) {
            Ok(file) => Head::of(&file)?.check(),
            Err(_) => Ok(()),
        }
    }
}
