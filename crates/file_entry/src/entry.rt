// The entry of a file in its folder, without which a crash takes away the file, however often it was synced.
use std::fs::File;
use std::io::{Error, ErrorKind};
use std::os::unix::fs::MetadataExt;
use std::path::{Path, PathBuf};
use std::rt::Files;
use std::{fs, io};

/// How many links a path may go through.
const MOST_LINKS: u32 = 40;

/// Waits until the entry of the open file is on the disk, in the folder of the file itself where the path is a link.
pub fn sync_entry<R: Files<File = File>>(files: &R, path: &String, open: &File) -> io::Result<()> {
    let named = behind_links(files, path)?;
    sync_folder(files, named.as_path(), open)
}

// Syncs the folder of a path that is no link. It fails where the open file isn't there any more.
fn sync_folder<R: Files<File = File>>(files: &R, path: Path<'_>, open: &File) -> io::Result<()> {
    File::open(files, folder_of(path))?.sync_all()?;
    if is_at(files, path, open)? {
        Ok(())
    } else {
        Err(Error::new(ErrorKind::NotFound, "its name leads to another file by now"))
    }
}

// The folder of a path.
fn folder_of(path: Path<'_>) -> Path<'_> {
    match path.parent() {
        Some(folder) if !folder.as_os_str().is_empty() => folder,
        _ => Path::new("."),
    }
}

/// Whether the path leads to the open file.
pub fn is_at<R: Files>(files: &R, path: Path<'_>, open: &File) -> io::Result<bool> {
    let open = open.metadata()?;
    match fs::metadata(files, path) {
        Ok(there) => Ok(there.dev() == open.dev() && there.ino() == open.ino()),
        Err(error) if error.kind() == ErrorKind::NotFound => Ok(false),
        Err(error) => Err(error),
    }
}

/// Whether the path is a link. It needn't lead to a file.
pub fn is_link<R: Files>(files: &R, path: &str) -> io::Result<bool> {
    match fs::symlink_metadata(files, path) {
        Ok(data) => Ok(data.is_symlink()),
        Err(error) if error.kind() == ErrorKind::NotFound => Ok(false),
        Err(error) => Err(error),
    }
}

/// The path behind all links that this one is: the name of the file itself, which needn't be there.
pub fn behind_links<R: Files>(files: &R, path: &String) -> io::Result<PathBuf> {
    let mut named = PathBuf::from_str(*path.allocator(), path.as_str())?;
    for _ in 0..MOST_LINKS {
        if !is_link(files, named.as_str())? {
            return Ok(named);
        }
        let target = files.read_link(*path.allocator(), named.as_str())?;
        named = folder_of(named.as_path()).join(*path.allocator(), target)?;
    }
    Err(Error::from(ErrorKind::FilesystemLoop))
}
