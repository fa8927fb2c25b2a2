//! Journals: files that were altered, one of another kind, one that grows while it is read, and runs that are stopped at each call of the disk.

ghost use Rattle.outside.specs.OnDisk.{disk_now};
ghost use Rattle.node_journal.specs.Views.{IsScanOf};

use crate::growing::Growing;
use node_journal::{Journal, JournalFault, Scanned, scan};
use outside::{Disk, MemDisk};
use std::alloc::{AllocError, Global};
use std::io;

/// The file of the payloads `one` and `three`: gates at 8, 16 and 26.
const FILE: [u8; 27] = *b"BNCJRNL1\x01\x03\0\0\0one\x01\x05\0\0\0three\0";

/// A front of that file has one of so many lengths, from 0 to 27.
const LENGTHS: usize = 28;

/// A run that writes that file may stop at each of its 13 calls, or not at all.
const STOPS: usize = 14;

/// That file cut and changed, each with words for what was done.
const ALTERED: [(&str, &[u8]); 12] = [
    ("whole", b"BNCJRNL1\x01\x03\0\0\0one\x01\x05\0\0\0three\0"),
    (
        "cut behind the second frame",
        b"BNCJRNL1\x01\x03\0\0\0one\x01\x05\0\0\0three",
    ),
    (
        "cut in the second frame",
        b"BNCJRNL1\x01\x03\0\0\0one\x01\x05\0\0",
    ),
    (
        "cut behind the second gate",
        b"BNCJRNL1\x01\x03\0\0\0one\x01",
    ),
    ("cut behind the first frame", b"BNCJRNL1\x01\x03\0\0\0one"),
    ("cut in the first frame", b"BNCJRNL1\x01\x03\0\0"),
    ("cut behind the first gate", b"BNCJRNL1\x01"),
    ("cut to nothing", b""),
    (
        "with a closed first gate",
        b"BNCJRNL1\0\x03\0\0\0one\x01\x05\0\0\0three\0",
    ),
    (
        "with another byte as the second gate",
        b"BNCJRNL1\x01\x03\0\0\0one\x37\x05\0\0\0three\0",
    ),
    (
        "with a length past the end",
        b"BNCJRNL1\x01\x03\0\0\0one\x01\x05\xff\0\0three\0",
    ),
    (
        "with another mark",
        b"XNCJRNL1\x01\x03\0\0\0one\x01\x05\0\0\0three\0",
    ),
];

/// How many payloads a disk has.
fn count_on<D: Disk>(alloc: Global, disk: &mut D) -> Result<usize, JournalFault> {
    match scan(alloc, disk) {
        Ok(scanned) => Ok(scanned.count()),
        Err(fault) => Err(fault),
    }
}

/// How many payloads a file has.
fn count_in(alloc: Global, bytes: &[u8]) -> Result<usize, JournalFault> {
    let mut disk = MemDisk::from_bytes(alloc, bytes)?;
    count_on(alloc, &mut disk)
}

/// Prints how many payloads an altered file has.
fn show_altered<R: Print + Alloc<A = Global>>(
    rt: &R,
    (words, bytes): (&str, &[u8]),
) -> io::Result<()> {
    let count = count_in(rt.alloc(), bytes);
    println!(rt; "journal {words}: {count:?}")
}

/// Prints this for each of them.
fn show_all_altered<R: Print + Alloc<A = Global>>(rt: &R) -> io::Result<()> {
    for altered in &ALTERED {
        show_altered(rt, *altered)?;
    }
    Ok(())
}

/// How many payloads a file of another kind has. The disk stops behind two calls, which are the size and one read.
fn count_foreign(alloc: Global) -> Result<usize, JournalFault> {
    let mut disk = MemDisk::stopping_at(alloc, b"not a journal", 2)?;
    count_on(alloc, &mut disk)
}

/// How many payloads the file has where it had this length at first, and grows while it is read.
fn count_growing(alloc: Global, length: usize) -> Result<usize, JournalFault> {
    let mut disk = Growing::seen_first(&FILE, length as u64);
    count_on(alloc, &mut disk)
}

/// The same for each length. A frame that is half written when the size is asked is no damage.
fn counts_growing(alloc: Global) -> [Result<usize, JournalFault>; LENGTHS] {
    let mut counts = [Ok(0); LENGTHS];
    for length in 0..LENGTHS {
        counts[length] = count_growing(alloc, length);
    }
    counts
}

/// Adds `one` and `three`. How many were acknowledged.
fn add(journal: &mut Journal<MemDisk>) -> usize {
    let first = journal.append(b"one").is_ok();
    let second = journal.append(b"three").is_ok();
    usize::from(first) + usize::from(second)
}

/// Adds them to the journal of a disk. How many were acknowledged, and the disk.
fn added(disk: MemDisk, scanned: Scanned) -> (usize, MemDisk)
    requires { IsScanOf (disk_now disk).seen scanned }
{
    match Journal::recover(disk, scanned) {
        Ok(recovered) => {
            let mut journal = recovered;
            let count = add(&mut journal);
            (count, journal.into_disk())
        }
        Err(disk) => (0, disk),
    }
}

/// The same on an empty disk that stops at a call.
fn run(alloc: Global, stop: usize) -> Result<(usize, MemDisk), AllocError> {
    let mut disk = MemDisk::stopping_at(alloc, b"", stop as u64)?;
    match scan(alloc, &mut disk) {
        Ok(scanned) => Ok(added(disk, scanned)),
        Err(_) => Ok((0, disk)),
    }
}

/// What a crash may be wished to leave: the first bytes new, the others old, and one byte where these end.
fn mixed((new, old): (&[u8], &[u8]), turn: usize, fill: u8) -> [u8; LENGTHS] {
    let mut bytes = [fill; LENGTHS];
    for place in 0..LENGTHS {
        let side = if place < turn { new } else { old };
        bytes[place] = side.get(place).copied().unwrap_or(fill);
    }
    bytes
}

/// Whether a file has so many payloads, or one more.
fn holds(alloc: Global, bytes: &[u8], count: usize) -> bool {
    match count_in(alloc, bytes) {
        Ok(found) => found == count || found == count.saturating_add(1),
        Err(_) => false,
    }
}

/// Whether the image closest to a wish has them.
fn image_holds(alloc: Global, disk: &MemDisk, wish: &[u8], count: usize) -> bool {
    match disk.image(alloc, wish) {
        Ok(image) => holds(alloc, &image, count),
        Err(_) => false,
    }
}

/// Whether the images closest to all fronts of a wish have them.
fn fronts_hold(alloc: Global, disk: &MemDisk, wish: &[u8; LENGTHS], count: usize) -> bool {
    for length in 0..LENGTHS {
        if !image_holds(alloc, disk, &wish[..length], count) {
            return false;
        }
    }
    true
}

/// The same for wishes that are new up to a place and old from there on.
fn turn_holds(alloc: Global, disk: &MemDisk, old: &[u8], turn: usize, count: usize) -> bool {
    for fill in &[0, 1, 255] {
        let wish = mixed((disk.bytes(), old), turn, *fill);
        if !fronts_hold(alloc, disk, &wish, count) {
            return false;
        }
    }
    true
}

/// The same for all such places.
fn turns_hold(alloc: Global, disk: &MemDisk, old: &[u8], count: usize) -> bool {
    for turn in 0..LENGTHS {
        if !turn_holds(alloc, disk, old, turn, count) {
            return false;
        }
    }
    true
}

/// Whether each such image has the payloads that were acknowledged, and at most one more.
fn images_hold(alloc: Global, disk: &MemDisk, count: usize) -> bool {
    match disk.kept(alloc) {
        Ok(old) => turns_hold(alloc, disk, &old, count),
        Err(_) => false,
    }
}

/// How many payloads were acknowledged in the run that stops at a call, if each image has them.
fn count_stopped(alloc: Global, stop: usize) -> Option<usize> {
    match run(alloc, stop) {
        Ok((count, disk)) if images_hold(alloc, &disk, count) => Some(count),
        _ => None,
    }
}

/// The same for each of the calls, and for the run that doesn't stop.
fn counts_stopped(alloc: Global) -> [Option<usize>; STOPS] {
    let mut counts = [None; STOPS];
    for stop in 0..STOPS {
        counts[stop] = count_stopped(alloc, stop);
    }
    counts
}

/// Whether the run that doesn't stop leaves the file.
fn leaves_file(alloc: Global) -> bool {
    match run(alloc, STOPS) {
        Ok((_, disk)) => disk.bytes() == FILE.as_slice(),
        Err(_) => false,
    }
}

/// Prints the file of another kind, and the one that grows.
fn show_reads<R: Print + Alloc<A = Global>>(rt: &R) -> io::Result<()> {
    let foreign = count_foreign(rt.alloc());
    let growing = counts_growing(rt.alloc());
    println!(rt; "journal of another kind, by one read: {foreign:?}")?;
    println!(rt; "journal of which 0 to 27 bytes are seen first: {growing:?}")
}

/// Prints the run, and the one that stops at each call.
fn show_runs<R: Print + Alloc<A = Global>>(rt: &R) -> io::Result<()> {
    let leaves = leaves_file(rt.alloc());
    let stopped = counts_stopped(rt.alloc());
    println!(rt; "journal written as the format says: {leaves}")?;
    println!(rt; "journal in each image of a run that stops at call 0 to 13: {stopped:?}")
}

/// Prints how journals are read and written.
pub(crate) fn show<R: Print + Alloc<A = Global>>(rt: &R) -> io::Result<()> {
    show_all_altered(rt)?;
    show_reads(rt)?;
    show_runs(rt)
}
