//! A disk in memory: calls that fail where they are listed, one that stops, and what a crash may leave.

ghost use Rattle.std.specs.Prelude.{◌≡◌, ◌≤◌, length};
ghost use Rattle.outside.specs.OnDisk.{disk_now};

use crate::texts::show_text;
use outside::{Disk, MemDisk};
use std::alloc::Global;
use std::io;

/// Wishes for what a crash leaves of the changed disk: the old bytes, the new ones, mixtures, and each length from the least to the greatest.
const WISHES: [&str; 8] = [
    "abcdef",
    "aXYZe",
    "abYde",
    "a???e",
    "aXYZe???",
    "aXYZefgh",
    "?????????",
    "",
];

/// Prints what a read gives.
fn show_bytes<R: Print>(rt: &R, disk: &MemDisk) -> io::Result<()> {
    show_text(rt, "disk holds ", disk.bytes(), "\n")
}

/// Prints what a sync answers, and the counts behind it.
fn show_counts<R: Print>(rt: &R, disk: &mut MemDisk) -> io::Result<()> {
    let sync = disk.sync();
    let (faults, clock, calls) = (disk.faults(), disk.clock(), disk.calls());
    println!(rt; "disk sync {sync:?}: faults {faults}, calls {calls}, clock {clock}")
}

/// Prints the calls of a disk whose second call fails.
fn show_failing_calls<R: Print>(rt: &R, disk: &mut MemDisk) -> io::Result<()>
    requires { 3 ≤ length (disk_now disk.old).seen }
{
    let size = disk.size();
    let write = disk.write_at(3, b"de");
    println!(rt; "disk failing at call 1: size {size:?}, write {write:?}")?;
    show_bytes(rt, disk)?;
    show_counts(rt, disk)
}

/// Prints the calls of a disk whose second call fails.
fn show_failing<R: Print + Alloc<A = Global>>(rt: &R) -> io::Result<()> {
    let mut disk = MemDisk::failing(rt.alloc(), b"abc", &[1])?;
    show_failing_calls(rt, &mut disk)
}

/// Prints the calls of a disk that stops at its second call.
fn show_stopping_calls<R: Print>(rt: &R, disk: &mut MemDisk) -> io::Result<()>
    requires { 2 ≤ length (disk_now disk.old).seen }
{
    let cut = disk.cut(2);
    let (sync, size) = (disk.sync(), disk.size());
    println!(rt; "disk stopping at call 1: cut {cut:?}, sync {sync:?}, size {size:?}")?;
    show_bytes(rt, disk)
}

/// Prints the calls of a disk that stops at its second call.
fn show_stopping<R: Print + Alloc<A = Global>>(rt: &R) -> io::Result<()> {
    let mut disk = MemDisk::stopping_at(rt.alloc(), b"abc", 1)?;
    show_stopping_calls(rt, &mut disk)
}

/// Prints what a crash may leave that is closest to a wish.
fn show_image<R: Print + Alloc<A = Global>>(rt: &R, disk: &MemDisk, wish: &str) -> io::Result<()> {
    show_text(rt, "disk image for ", wish.as_bytes(), ": ")?;
    let image = disk.image(rt.alloc(), wish.as_bytes())?;
    show_text(rt, "", &image, "\n")
}

/// Writes one piece over, puts another one behind the end, and cuts the end, with no sync; and says whether no call failed.
fn change(disk: &mut MemDisk) -> bool
    requires { length (disk_now disk.old).seen ≡ 6 }
{
    let Ok(()) = disk.write_at(1, b"XYZ") else {
        return false;
    };
    let Ok(()) = disk.write_at(6, b"gh") else {
        return false;
    };
    disk.cut(5) == Ok(())
}

/// The disk of `abcdef` that is so changed.
fn changed(alloc: Global) -> io::Result<MemDisk> {
    let mut disk = MemDisk::from_bytes(alloc, b"abcdef")?;
    if change(&mut disk) {
        Ok(disk)
    } else {
        Err(io::Error::other("a call fails"))
    }
}

/// Prints what a disk keeps.
fn show_kept<R: Print + Alloc<A = Global>>(rt: &R, disk: &MemDisk) -> io::Result<()> {
    let kept = disk.kept(rt.alloc())?;
    show_text(rt, "disk keeps ", &kept, "\n")
}

/// Prints what a sync answers.
fn show_sync<R: Print>(rt: &R, disk: &mut MemDisk) -> io::Result<()> {
    let sync = disk.sync();
    println!(rt; "disk sync {sync:?}")
}

/// Prints images of a disk before and behind a sync.
fn show_images_of<R: Print + Alloc<A = Global>>(rt: &R, disk: &mut MemDisk) -> io::Result<()> {
    show_bytes(rt, disk)?;
    show_kept(rt, disk)?;
    for wish in &WISHES {
        show_image(rt, disk, wish)?;
    }
    show_sync(rt, disk)?;
    show_image(rt, disk, "?????????")
}

/// Prints images of each kind.
fn show_images<R: Print + Alloc<A = Global>>(rt: &R) -> io::Result<()> {
    let mut disk = changed(rt.alloc())?;
    show_images_of(rt, &mut disk)
}

/// Prints the last two bytes of a disk of five.
fn show_last<R: Print>(rt: &R, disk: &mut MemDisk) -> io::Result<()>
    requires { 5 ≤ length (disk_now disk.old).seen }
{
    let mut buf = [0; 2];
    let read = disk.read_at(3, &mut buf);
    print!(rt; "disk read at 3: {read:?} ")?;
    show_text(rt, "", &buf, "\n")
}

/// Prints a read.
fn show_read<R: Print + Alloc<A = Global>>(rt: &R) -> io::Result<()> {
    let mut disk = MemDisk::from_bytes(rt.alloc(), b"aXYZe")?;
    show_last(rt, &mut disk)
}

/// Prints the calls of disks.
pub(crate) fn show<R: Print + Alloc<A = Global>>(rt: &R) -> io::Result<()> {
    show_failing(rt)?;
    show_stopping(rt)?;
    show_images(rt)?;
    show_read(rt)
}
