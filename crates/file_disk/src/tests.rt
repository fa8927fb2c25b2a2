// What no clause says: what a disk does to real files. Where a test needs that the system refuses something, it stands between.
mod watched;

use crate::*;
use outside::Disk;
use std::fs::File;
use std::io::{ErrorKind, Write};
use std::os::fd::AsRawFd;
use std::os::unix::fs::symlink;
use std::path::{Path, PathBuf};
use std::rt::Files;
use std::test::Fail;
use std::time::UNIX_EPOCH;
use std::{env, fs, io, process};
use watched::Watched;

/// A file where the test runs.
const NAME: &str = "file_disk_test.tmp";

/// The full name of the folder for such files.
fn temporary(rt: &HostRuntime) -> io::Result<PathBuf> {
    let folder = env::temp_dir(rt)?;
    fs::canonicalize(rt, folder.as_path())
}

/// The name of one test alone in a folder.
fn named(rt: &HostRuntime, folder: Path<'_>, name: &str) -> Option<String> {
    let folder = folder.to_string_lossy();
    let number = process::id(rt.process());
    format!(in rt.alloc(); "{folder}/bnc-{number}-{name}").ok()
}

/// The full name of a folder of one test alone; none where it can't be told.
fn full_name(rt: &HostRuntime, name: &str) -> Option<String> {
    match temporary(rt) {
        Ok(folder) => named(rt, folder.as_path(), name),
        Err(_) => None,
    }
}

/// A new folder of one test alone, by its full name; none where it can't be made.
fn scratch(rt: &HostRuntime, name: &str) -> Option<String> {
    let folder = full_name(rt, name);
    if fs::create_dir(rt, text(&folder)).is_ok() {
        folder
    } else {
        None
    }
}

/// A path in a folder; none where there is no folder.
fn within(rt: &HostRuntime, folder: &Option<String>, name: &str) -> Option<String> {
    let folder = folder.as_deref()?;
    format!(in rt.alloc(); "{folder}/{name}").ok()
}

/// The path as a text.
fn text(path: &Option<String>) -> &str {
    path.as_deref().unwrap_or("")
}

/// Whether the folder was removed with all that is in it.
fn remove(rt: &HostRuntime, folder: &Option<String>) -> bool {
    fs::remove_dir_all(rt, text(folder)).is_ok()
}

/// Whether the bytes were written to a file of this name.
fn fill(rt: &HostRuntime, path: &Option<String>, bytes: &str) -> bool {
    fs::write(rt, text(path), bytes).is_ok()
}

/// Whether the file has these bytes.
fn holds(rt: &HostRuntime, path: &Option<String>, bytes: &str) -> bool {
    match fs::read_to_string(rt, text(path)) {
        Ok(held) => held.as_str() == bytes,
        Err(_) => false,
    }
}

/// Whether there is no such file, and that can be told.
fn is_gone(rt: &HostRuntime, path: &Option<String>) -> bool {
    matches!(fs::exists(rt, text(path)), Ok(false))
}

/// Whether the file was removed.
fn is_removed(rt: &HostRuntime, path: &Option<String>) -> bool {
    fs::remove_file(rt, text(path)).is_ok()
}

/// Whether a link to this target was made.
fn link(rt: &HostRuntime, target: &str, path: &Option<String>) -> bool {
    symlink(rt, target, text(path)).is_ok()
}

/// A call of a disk, and what it has to answer.
#[derive(Clone, Copy)]
enum Step {
    /// It has so many bytes, or fails.
    Size(Option<u64>),
    /// Its bytes from this place on are these.
    Read(u64, &'static [u8; 3]),
    /// So many bytes as these aren't read from this place on.
    ReadFails(u64),
    /// Bytes are written from this place on.
    Write(u64, &'static [u8]),
    WriteFails(u64, &'static [u8]),
    Cut(u64),
    CutFails(u64),
    Sync,
    SyncFails,
    /// So many calls failed.
    Faults(u64),
}

/// What somebody else does to a file.
#[derive(Clone, Copy)]
enum Act {
    /// Sees that it isn't there.
    Miss,
    /// Writes these bytes to it.
    Fill(&'static str),
    /// Writes other bytes over it, with another time of change.
    Overwrite,
    Remove,
    /// Puts another file in its place.
    Replace,
}

use Act::*;
use Step::*;

/// Whether the disk has these bytes from this place on.
fn has<R: Files<File = File>>(disk: &mut FileDisk<'_, R>, at: u64, bytes: &[u8; 3]) -> bool {
    let mut buf = [0; 3];
    disk.read_at(at, &mut buf).is_ok() && buf == *bytes
}

/// Whether a disk answers as it has to.
fn answers<R: Files<File = File>>(disk: &mut FileDisk<'_, R>, step: Step) -> bool {
    match step {
        Size(size) => disk.size().ok() == size,
        Read(at, bytes) => has(disk, at, bytes),
        ReadFails(at) => disk.read_at(at, &mut [0; 3]).is_err(),
        Write(at, bytes) => disk.write_at(at, bytes).is_ok(),
        WriteFails(at, bytes) => disk.write_at(at, bytes).is_err(),
        Cut(size) => disk.cut(size).is_ok(),
        CutFails(size) => disk.cut(size).is_err(),
        Sync => disk.sync().is_ok(),
        SyncFails => disk.sync().is_err(),
        Faults(count) => disk.faults() == count,
    }
}

/// Whether a disk answers as it has to, call after call.
fn answers_all<R: Files<File = File>>(disk: &mut FileDisk<'_, R>, steps: &[Step]) -> bool {
    for step in steps {
        if !answers(disk, *step) {
            return false;
        }
    }
    true
}

/// Whether the disk at this path answers as it has to.
fn is_disk<R: Files<File = File>>(files: &R, path: &Option<String>, steps: &[Step]) -> bool {
    let mut disk = FileDisk::new(files, path);
    answers_all(&mut disk, steps)
}

/// Writes somebody else's bytes into a file, with another time of change.
fn overwrite(other: &mut File) -> io::Result<()> {
    other.write_all(b"xyz")?;
    other.set_modified(UNIX_EPOCH)
}

/// Whether somebody else's bytes were written over those of the file.
fn is_overwritten(rt: &HostRuntime, path: &Option<String>) -> bool {
    match File::options().write(true).open(rt, text(path)) {
        Ok(mut other) => overwrite(&mut other).is_ok(),
        Err(_) => false,
    }
}

/// Whether somebody else could do this to a file.
fn is_done(rt: &HostRuntime, path: &Option<String>, act: Act) -> bool {
    match act {
        Miss => is_gone(rt, path),
        Fill(bytes) => fill(rt, path, bytes),
        Overwrite => is_overwritten(rt, path),
        Remove => is_removed(rt, path),
        Replace => is_removed(rt, path) && fill(rt, path, "abc"),
    }
}

/// Whether the disk at this path answers as it has to before and behind what somebody else does to the file at the other one.
fn is_disk_beside(
    rt: &HostRuntime,
    path: &Option<String>,
    before: &[Step],
    (act, other): (Act, &Option<String>),
    behind: &[Step],
) -> bool {
    let mut disk = FileDisk::new(rt, path);
    answers_all(&mut disk, before) && is_done(rt, other, act) && answers_all(&mut disk, behind)
}

/// A file that isn't there is an empty disk,
const EMPTY: [Step; 2] = [Size(Some(0)), Sync];

/// and is made by the first write.
const WRITTEN: [Step; 4] = [Write(0, b"abcdef"), Write(4, b"EFG"), Sync, Cut(6)];

/// What was written is there for another disk, and no more.
const THERE: [Step; 5] = [
    Size(Some(6)),
    Read(2, b"cdE"),
    Read(3, b"dEF"),
    ReadFails(4),
    Faults(1),
];

/// Whether a file is begun, and there for another disk.
fn is_begun(rt: &HostRuntime, path: &Option<String>) -> bool {
    is_disk_beside(rt, path, &EMPTY, (Miss, path), &WRITTEN)
        && is_disk(rt, path, &THERE)
        && is_removed(rt, path)
}

#[test]
fn a_file_is_a_disk(rt: HostRuntime) -> Result<(), Fail> {
    let path = String::from_str(rt.alloc(), NAME).ok();
    is_removed(&rt, &path);
    assert!(rt; is_disk(&rt, &None, &[Size(None), Faults(1)]) && is_begun(&rt, &path));
    Ok(())
}

/// Each change is refused that changes something.
const READ_ONLY: [Step; 9] = [
    Size(Some(3)),
    Read(0, b"abc"),
    Sync,
    WriteFails(0, b"x"),
    WriteFails(1, b"bcd"),
    CutFails(0),
    Write(1, b"bc"),
    Faults(3),
    Size(Some(3)),
];

/// Whether a disk answers as it has to where openings for writing fail so.
fn is_disk_refused(
    rt: &HostRuntime,
    path: &Option<String>,
    kind: ErrorKind,
    steps: &[Step],
) -> bool {
    let files = Watched::refusing(rt, kind);
    is_disk(&files, path, steps)
}

/// Whether a file is read that may only be read.
fn may_be_only_read(rt: &HostRuntime, path: &Option<String>) -> bool {
    fill(rt, path, "abc")
        && is_disk_refused(rt, path, ErrorKind::PermissionDenied, &READ_ONLY)
        && is_disk(rt, path, &[Write(0, b"abc")])
        && is_disk_refused(rt, path, ErrorKind::ReadOnlyFilesystem, &READ_ONLY)
        && is_disk(rt, path, &[Write(0, b"abc")])
        && is_disk_refused(rt, path, ErrorKind::Other, &[Size(None)])
}

#[test]
fn a_file_that_may_only_be_read(rt: HostRuntime) -> Result<(), Fail> {
    let folder = scratch(&rt, "read");
    let path = within(&rt, &folder, "j");
    assert!(rt; may_be_only_read(&rt, &path) && remove(&rt, &folder));
    Ok(())
}

/// Whatever is asked fails.
const NO_DISK: [Step; 4] = [Size(None), SyncFails, WriteFails(0, b"x"), Faults(3)];

/// Whether what has this name is no disk.
fn is_no_disk(rt: &HostRuntime, name: &str) -> bool {
    let path = String::from_str(rt.alloc(), name).ok();
    path.is_some() && is_disk(rt, &path, &NO_DISK)
}

/// Whether the end of a pipe is no disk.
fn is_end_no_disk(rt: &HostRuntime, end: i32) -> bool {
    let path = format!(in rt.alloc(); "/proc/self/fd/{end}").ok();
    path.is_some() && is_disk(rt, &path, &NO_DISK)
}

/// Whether a pipe that can't be written any more is no disk.
fn is_pipe_no_disk(rt: &HostRuntime) -> bool {
    match std::io::pipe(rt) {
        Ok((reader, writer)) => {
            drop(writer);
            is_end_no_disk(rt, reader.as_raw_fd())
        }
        Err(_) => false,
    }
}

/// Whether no device is a disk, and nothing below one.
fn is_no_device_a_disk(rt: &HostRuntime) -> bool {
    is_no_disk(rt, "/dev/null") && is_no_disk(rt, "/dev/zero") && is_no_disk(rt, "/dev/null/j")
}

#[test]
fn only_a_plain_file_is_a_disk(rt: HostRuntime) -> Result<(), Fail> {
    let folder = scratch(&rt, "plain");
    assert!(rt; is_no_disk(&rt, text(&folder)) && remove(&rt, &folder));
    assert!(rt; is_no_device_a_disk(&rt) && is_pipe_no_disk(&rt));
    Ok(())
}

/// Whether a disk is synced, and its entry with so many tries by then.
fn is_synced(files: &Watched<'_>, disk: &mut FileDisk<'_, Watched<'_>>, tries: u32) -> bool {
    disk.sync().is_ok() && files.tries() == tries
}

/// Whether a disk of this size syncs the entry of its file once; so many tries were made with this one.
fn syncs_its_entry(files: &Watched<'_>, path: &Option<String>, size: u64, tries: u32) -> bool {
    let mut disk = FileDisk::new(files, path);
    answers_all(&mut disk, &[Size(Some(size)), Write(0, b"abc")])
        && is_synced(files, &mut disk, tries)
        && is_synced(files, &mut disk, tries)
}

/// Whether a sync fails while the folder can't be opened.
fn is_not_synced(files: &Watched<'_>, disk: &mut FileDisk<'_, Watched<'_>>) -> bool {
    files.close();
    let refused = disk.sync();
    files.open();
    refused.is_err()
}

/// Whether a disk whose entry can't be synced fails from then on, and is read still.
fn fails_without_its_entry(files: &Watched<'_>, path: &Option<String>) -> bool {
    let mut disk = FileDisk::new(files, path);
    is_not_synced(files, &mut disk) && answers_all(&mut disk, &[SyncFails, Size(Some(3))])
}

/// Whether the entry of a new file is synced in this folder once a run.
fn are_entries_synced(files: &Watched<'_>, path: &Option<String>) -> bool {
    syncs_its_entry(files, path, 0, 1) && syncs_its_entry(files, path, 3, 2)
}

/// Whether that is so, and a run fails whose entry can't be synced.
fn is_entry_needed(rt: &HostRuntime, folder: &str, path: &Option<String>) -> bool {
    let files = Watched::at(rt, folder);
    are_entries_synced(&files, path) && fails_without_its_entry(&files, path)
}

#[test]
fn the_entry_is_synced_once_a_run(rt: HostRuntime) -> Result<(), Fail> {
    let folder = scratch(&rt, "entry");
    let path = within(&rt, &folder, "j");
    assert!(rt; is_entry_needed(&rt, text(&folder), &path) && remove(&rt, &folder));
    Ok(())
}

/// Whether the entry of a file behind links is synced in this folder.
fn are_targets_synced(rt: &HostRuntime, below: &str, path: &Option<String>) -> bool {
    let files = Watched::at(rt, below);
    are_entries_synced(&files, path)
}

/// Whether links were made to a file in a folder: one to the other, and that to the file.
fn are_linked(rt: &HostRuntime, folder: &Option<String>, path: &Option<String>) -> bool {
    let hop = within(rt, folder, "hop");
    link(rt, "hop", path) && link(rt, "below/j", &hop)
}

/// Whether the target of links in a folder is written, and its entry synced.
fn is_target_written(rt: &HostRuntime, folder: &Option<String>, below: &Option<String>) -> bool {
    let path = within(rt, folder, "j");
    fs::create_dir(rt, text(below)).is_ok()
        && are_linked(rt, folder, &path)
        && are_targets_synced(rt, text(below), &path)
}

/// Whether the file below has these bytes.
fn is_below(rt: &HostRuntime, below: &Option<String>) -> bool {
    let target = within(rt, below, "j");
    holds(rt, &target, "abc")
}

#[test]
fn the_entry_is_that_of_a_links_target(rt: HostRuntime) -> Result<(), Fail> {
    let folder = scratch(&rt, "link");
    let below = within(&rt, &folder, "below");
    assert!(rt; is_target_written(&rt, &folder, &below) && is_below(&rt, &below));
    assert!(rt; remove(&rt, &folder));
    Ok(())
}

/// The calls of an append, of which the last one finds that the name is gone.
const APPEND_FAILS: [Step; 4] = [Write(3, b"d"), Sync, Write(0, b"e"), SyncFails];

/// Whether a file is not synced whose name is gone, or another's. It may have been synced before, and then no append succeeds.
fn are_gone_names_noticed(rt: &HostRuntime, path: &Option<String>) -> bool {
    let (new, synced) = ([Write(0, b"abc")], [Write(0, b"abc"), Sync]);
    is_disk_beside(rt, path, &new, (Remove, path), &[SyncFails])
        && is_disk_beside(rt, path, &synced, (Remove, path), &[SyncFails])
        && is_disk_beside(rt, path, &synced, (Remove, path), &APPEND_FAILS)
        && is_disk_beside(rt, path, &new, (Replace, path), &[SyncFails])
        && is_disk_beside(rt, path, &synced, (Replace, path), &[SyncFails])
}

#[test]
fn a_file_whose_name_is_gone_is_not_synced(rt: HostRuntime) -> Result<(), Fail> {
    let folder = scratch(&rt, "gone");
    let path = within(&rt, &folder, "j");
    assert!(rt; are_gone_names_noticed(&rt, &path) && remove(&rt, &folder));
    Ok(())
}

/// A disk reads the file of an earlier one, and can't change it.
const SECOND: [Step; 4] = [Read(0, b"abc"), WriteFails(0, b"x"), CutFails(0), Faults(2)];

/// Whether a second disk reads the file of a first one and can't change it.
fn is_refused_beside(
    rt: &HostRuntime,
    path: &Option<String>,
    second: &mut FileDisk<'_, HostRuntime>,
) -> bool {
    let mut first = FileDisk::new(rt, path);
    answers(&mut first, Write(0, b"abc"))
        && answers_all(second, &SECOND)
        && answers(&mut first, Write(3, b"d"))
}

/// Whether a second disk can't change the file either when the first one is gone.
fn is_left_to_the_first(rt: &HostRuntime, path: &Option<String>) -> bool {
    let mut second = FileDisk::new(rt, path);
    is_refused_beside(rt, path, &mut second)
        && answers_all(&mut second, &[WriteFails(0, b"x"), Size(Some(4))])
}

/// Whether one disk writes a file, and another one that comes later.
fn is_written_by_one(rt: &HostRuntime, path: &Option<String>) -> bool {
    is_left_to_the_first(rt, path)
        && is_disk(rt, path, &[Write(4, b"e")])
        && holds(rt, path, "abcde")
}

#[test]
fn one_disk_writes_a_file(rt: HostRuntime) -> Result<(), Fail> {
    let folder = scratch(&rt, "lock");
    let path = within(&rt, &folder, "j");
    assert!(rt; is_written_by_one(&rt, &path) && remove(&rt, &folder));
    Ok(())
}

/// Whether a file of three bytes is left alone that was changed since a disk looked at it.
fn is_left_changed(rt: &HostRuntime, path: &Option<String>) -> bool {
    let refused = [WriteFails(3, b"d"), WriteFails(3, b"d")];
    fill(rt, path, "abc")
        && is_disk_beside(rt, path, &[Size(Some(3))], (Overwrite, path), &refused)
        && holds(rt, path, "xyz")
}

#[test]
fn a_file_that_was_changed_is_not_written(rt: HostRuntime) -> Result<(), Fail> {
    let folder = scratch(&rt, "changed");
    let path = within(&rt, &folder, "j");
    assert!(rt; is_left_changed(&rt, &path) && remove(&rt, &folder));
    Ok(())
}

/// Whether a file of these bytes is left alone that appeared since a disk found none.
fn is_left(
    rt: &HostRuntime,
    path: &Option<String>,
    direct: &Option<String>,
    bytes: &'static str,
) -> bool {
    let refused = [WriteFails(0, b"xyz")];
    is_disk_beside(rt, path, &[Size(Some(0))], (Fill(bytes), direct), &refused)
        && holds(rt, direct, bytes)
        && is_removed(rt, direct)
}

/// Whether that is so of a file that a link leads to.
fn is_target_left(rt: &HostRuntime, folder: &Option<String>, direct: &Option<String>) -> bool {
    let path = within(rt, folder, "link");
    link(rt, "j", &path) && is_left(rt, &path, direct, "abc")
}

/// Whether a disk whose folder isn't there is empty, and can't be written.
fn is_folder_needed(rt: &HostRuntime, folder: &Option<String>) -> bool {
    let path = within(rt, folder, "j");
    is_disk(rt, &path, &[Size(Some(0)), WriteFails(0, b"xyz")])
}

/// Whether files that appeared in a folder are left alone.
fn are_left(rt: &HostRuntime, folder: &Option<String>, direct: &Option<String>) -> bool {
    is_left(rt, direct, direct, "")
        && is_left(rt, direct, direct, "abc")
        && is_target_left(rt, folder, direct)
        && is_folder_needed(rt, direct)
}

#[test]
fn a_file_that_appeared_is_not_taken(rt: HostRuntime) -> Result<(), Fail> {
    let folder = scratch(&rt, "appeared");
    let direct = within(&rt, &folder, "j");
    assert!(rt; are_left(&rt, &folder, &direct) && remove(&rt, &folder));
    Ok(())
}

/// Nothing is written where there is no room, and the rest stays. A place that no file system has stands for one that is full.
const NO_ROOM: [Step; 8] = [
    Write(0, b"abc"),
    WriteFails(u64::MAX, b"xyz"),
    WriteFails(1 << 63, b"xyz"),
    WriteFails((1 << 63) - 1, b"xyz"),
    CutFails(1 << 63),
    Faults(4),
    Size(Some(3)),
    Read(0, b"abc"),
];

#[test]
fn what_finds_no_room_leaves_the_rest(rt: HostRuntime) -> Result<(), Fail> {
    let folder = scratch(&rt, "room");
    let path = within(&rt, &folder, "j");
    assert!(rt; is_disk(&rt, &path, &NO_ROOM) && remove(&rt, &folder));
    Ok(())
}
