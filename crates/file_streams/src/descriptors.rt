// The three descriptors that a program is started with.
use outside::Failed;
use std::fs::File;
use std::os::fd::{AsRawFd, IntoRawFd};
use std::rt::Files;

/// Sees to it that the descriptors 0 to 2 are open, which has to be done before any file is opened. Where a program is started with one of
/// them closed, the next file that it opens gets that number, and what is meant for standard output is written into the file.
///
/// In the place of a closed one stands the root folder, open for reading, until the program ends (docs/DECISIONS.md, entry 33). That gives no byte
/// and takes none, so a read or a write there fails: a closed standard output is a fault of its sink.
pub fn hold_standard<R: Files<File = File>>(files: &R) -> Result<(), Failed> {
    for _ in 0..3 {
        let Ok(root) = File::open(files, "/") else {
            return Err(Failed);
        };
        if root.as_raw_fd() > 2 {
            return Ok(());
        }
        let _held = root.into_raw_fd();
    }
    Ok(())
}
