// A file that is written beside the place where it is to stand, so that what stands there is not taken away before the new one is whole
// (docs/DECISIONS.md, entry 66).
use file_entry::{behind_links, is_at, sync_entry};
use std::fs::{File, OpenOptions, Permissions};
use std::io::{Error, ErrorKind};
use std::os::unix::fs::{MetadataExt, OpenOptionsExt, PermissionsExt, fchown};
use std::path::Path;
use std::rt::Files;
use std::{fs, io};

/// How many names are tried for a new file.
const MOST_NAMES: u32 = 1000;

/// A new file beside another path, until it takes that path's place. The file of its own name is to be removed where it doesn't come so far.
#[derive(Drop)]
pub struct Part {
    /// The file itself.
    pub(crate) file: File,
    /// Its name beside the place.
    name: String,
    /// The place, behind all links.
    place: String,
    /// The file that stands there, if one does. Its lock lasts as long as it is open.
    older: Option<File>,
    /// Whether it has taken the place.
    placed: bool,
}

/// What came of making one.
#[derive(Drop)]
pub(crate) enum Made {
    /// It is there.
    Part(Part),
    /// No file may be made there. This is the older file.
    Forbidden(Option<File>),
}

impl Part {
    /// Makes a file beside the one that the path leads to, or would. It gets the permissions of the older one, and its owner where it may.
    pub(crate) fn beside<R: Files<File = File>>(
        files: &R,
        path: &String,
        older: Option<File>,
    ) -> io::Result<Made> {
        let place = behind_links(files, path)?.into_string();
        if !leads_to(files, &place, &older)? {
            return Ok(Made::Forbidden(older));
        }
        match made_beside(files, &place, &older) {
            Ok((file, name)) => Ok(Made::Part(Part {
                file,
                name,
                place,
                older,
                placed: false,
            })),
            Err(error) if forbids_making(error.kind()) => Ok(Made::Forbidden(older)),
            Err(error) => Err(error),
        }
    }

    /// Waits until all is on the disk, and puts the file in its place. It fails where another file stands there by now, and then that one stays.
    pub(crate) fn put_in_place<R: Files<File = File>>(&mut self, files: &R) -> io::Result<()> {
        self.file.sync_all()?;
        if !self.placed {
            if !leads_to(files, &self.place, &self.older)? {
                return Err(Error::other("another program has put a file there"));
            }
            fs::rename(files, self.name.as_str(), self.place.as_str())?;
            self.placed = true;
        }
        sync_entry(files, &self.place, &self.file)
    }

    /// Removes the file, unless it has taken its place.
    pub(crate) fn give_up<R: Files>(&self, files: &R) {
        if !self.placed {
            let _ = fs::remove_file(files, self.name.as_str());
        }
    }
}

// Whether the older file stands at the place, or nothing does where there is no older one.
fn leads_to<R: Files>(files: &R, place: &String, older: &Option<File>) -> io::Result<bool> {
    match older {
        Some(file) => is_at(files, Path::new(place.as_str()), file),
        None => Ok(!fs::exists(files, place.as_str())?),
    }
}

// Makes a file under a name of its own beside the place. A file that is there already is never taken.
fn made_beside<R: Files<File = File>>(
    files: &R,
    place: &String,
    older: &Option<File>,
) -> io::Result<(File, String)> {
    let alloc = *place.allocator();
    if place.as_str().is_empty() {
        return Err(Error::from(ErrorKind::NotFound));
    }
    let mode = mode_of(older)?;
    for number in 1..MOST_NAMES {
        let name = format!(in alloc; "{}.{number}.part", place.as_str())?;
        match OpenOptions::new()
            .write(true)
            .create_new(true)
            .mode(mode)
            .open(files, name.as_str())
        {
            Ok(file) => {
                take_after(&file, older);
                return Ok((file, name));
            }
            Err(error) if error.kind() == ErrorKind::AlreadyExists => {}
            Err(error) => return Err(error),
        }
    }
    Err(Error::from(ErrorKind::AlreadyExists))
}

// Who may read and write the file that is made.
fn mode_of(older: &Option<File>) -> io::Result<u32> {
    match older {
        Some(file) => Ok(file.metadata()?.mode() & 0o777),
        None => Ok(0o666),
    }
}

// Gives the file the owner of the older one, and its permissions, as far as the system lets it, and locks it. None of that is needed.
fn take_after(file: &File, older: &Option<File>) {
    let _ = file.try_lock();
    let Some(older) = older else {
        return;
    };
    if let (Ok(is), Ok(was)) = (file.metadata(), older.metadata()) {
        if is.uid() != was.uid() || is.gid() != was.gid() {
            let _ = fchown(file, Some(was.uid()), Some(was.gid()));
        }
        let _ = file.set_permissions(Permissions::from_mode(was.mode() & 0o777));
    }
}

// Whether the folder lets no file be made, though one that is there may be written; or not one of such a long name.
fn forbids_making(kind: ErrorKind) -> bool {
    kind == ErrorKind::PermissionDenied
        || kind == ErrorKind::ReadOnlyFilesystem
        || kind == ErrorKind::InvalidFilename
}
