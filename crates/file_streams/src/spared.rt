// The files that nothing may be written over.
ghost use Rattle.std.specs.Prelude.{◌≡◌, ◌↔◌, true, false, IsTrue, Some, Ok, IfOk, IsErr, Contains};

use crate::copies::holds_text;
use crate::head::Head;
use crate::inode::Inode;
use outside::Failed;
use std::fs::File;
use std::io::Error;
use std::rt::Files;
use std::{fs, io};

/// The files that have to stay as they are, whatever name leads to them.
#[derive(Clone, Copy, Debug)]
pub struct Spared<'a> {
    /// The model's file that is open, if one is, or that the system can't tell which.
    pub open: Result<Option<Inode>, Failed>,
    /// The path of the model. What a path leads to is looked up at each question, since a file may come and go while the program runs.
    pub model: Option<&'a str>,
    /// The path of the journal.
    pub journal: Option<&'a str>,
}

impl Spared<'_> {
    /// Whether a write to this file would take bytes from one of these. What the paths lead to no clause can say.
    pub(crate) fn has<R: Files>(&self, files: &R, inode: Inode) -> io::Result<bool>
        ensures open { inode.keeps_bytes ≡ true → self.now.open ≡ Ok (Some inode) → IfOk result (λ b. b ≡ true) }
        ensures unknown { inode.keeps_bytes ≡ true → IsErr self.now.open → IsErr result }
        ensures nothing_kept { inode.keeps_bytes ≡ false → result ≡ Ok false }
    {
        if !inode.keeps_bytes {
            return Ok(false);
        }
        let these = [
            self.open.map_err(|_| untold())?,
            Inode::at(files, self.model)?,
            Inode::at(files, self.journal)?,
        ];
        Ok(is_among(inode, &these))
    }

    /// Fails at a file that is to be spared.
    pub(crate) fn check<R: Files>(&self, files: &R, inode: Inode) -> io::Result<()>
        ensures { inode.keeps_bytes ≡ true → self.now.open ≡ Ok (Some inode) → IsErr result }
    {
        if self.has(files, inode)? {
            Err(Error::other("it is the model or the journal"))
        } else {
            Ok(())
        }
    }

    /// Fails at a file whose content is to be spared: a journal, whoever's it is, and the text of the model, as a copy of the model's file has it.
    pub(crate) fn check_content<R: Files<File = File>>(
        &self,
        files: &R,
        file: &File,
    ) -> io::Result<()> {
        Head::of(file)?.check()?;
        if self.is_model(files, file)? || self.is_journaled(files, file)? {
            return Err(Error::other("it is a copy of the model"));
        }
        Ok(())
    }

    // Whether the file has the model's bytes, and some.
    fn is_model<R: Files<File = File>>(&self, files: &R, file: &File) -> io::Result<bool> {
        match plain_file(files, self.model) {
            Some(model) => holds_text(file, &model, 0, model.metadata()?.len()),
            None => Ok(false),
        }
    }

    // Whether the file is the text of the model that the journal keeps.
    fn is_journaled<R: Files<File = File>>(&self, files: &R, file: &File) -> io::Result<bool> {
        let Some(journal) = plain_file(files, self.journal) else {
            return Ok(false);
        };
        match Head::of(&journal)?.text_length() {
            Some(length) => holds_text(file, &journal, crate::head::TEXT, length),
            None => Ok(false),
        }
    }
}

// The plain file that the path leads to, open for reading. Where it can't be read a run reads no model or journal there either.
fn plain_file<R: Files<File = File>>(files: &R, path: Option<&str>) -> Option<File> {
    let path = path?;
    match fs::metadata(files, path) {
        Ok(data) if data.is_file() => File::open(files, path).ok(),
        _ => None,
    }
}

fn untold() -> Error {
    Error::other("it can't be told which file the model is")
}

fn is_among(inode: Inode, these: &[Option<Inode>]) -> bool
    ensures { IsTrue result ↔ Contains these.now (Some inode) }
{
    these.contains(&Some(inode))
}
