//! Searches by one worker and by two, and from older journals, whose disk fails at each call in turn, once or from then on, and that are run again on what
//! a crash might leave.

use anyhow::Result;
use case_runs::{Answered, Command, ODD, ONE, usual, with_frames, work_on};
use outside::{MemDisk, NoHold};
use std::alloc::{AllocError, Global};
use std::io;
use std::sync::Wait;
use std::thread::Threads;

/// How a disk fails.
#[derive(Clone, Copy)]
enum Fault {
    /// At one call.
    Once,
    /// At one call and each later one.
    FromThen,
}

/// Searches whose disks fail.
const SEARCHES: [(&str, &str, &str, Fault); 8] = [
    ("an optimum", "solve m j c", ONE, Fault::Once),
    ("an optimum", "solve m j c", ONE, Fault::FromThen),
    (
        "an optimum by two",
        "solve m j c --workers 2",
        ONE,
        Fault::Once,
    ),
    (
        "an optimum by two",
        "solve m j c --workers 2",
        ONE,
        Fault::FromThen,
    ),
    ("no optimum", "solve m j c --cuts 0", ODD, Fault::Once),
    ("no optimum", "solve m j c --cuts 0", ODD, Fault::FromThen),
    (
        "no optimum by two",
        "solve m j c --cuts 0 --workers 2",
        ODD,
        Fault::Once,
    ),
    (
        "no optimum by two",
        "solve m j c --cuts 0 --workers 2",
        ODD,
        Fault::FromThen,
    ),
];

/// Frames of the search of the model `ONE`, as a program that had no upgrade left them: its offer alone, and the whole search, to which the upgrade alone
/// is added.
const OLDER: [(&str, &[u8]); 2] = [
    (
        "an older offer",
        b"\x01\x0d\0\0\0\x03\x01\0\0\0\x02\0\0\0\0\0\0\0\0",
    ),
    (
        "an older search",
        b"\x01\x1a\0\0\0\x06\x02\x03\x01\0\0\0\x02\0\0\0\0\0\0\0\x05\0\0\0\0\x01\0\0\0\0\0\0",
    ),
];

/// What a crash is wished to leave.
#[derive(Clone, Copy)]
enum Wish {
    /// What was kept.
    Kept,
    /// What a read gives.
    Seen,
    /// This value where it may leave any.
    Filled(u8),
    /// Nothing where it may leave nothing.
    Nothing,
}

const WISHES: [Wish; 5] = [
    Wish::Kept,
    Wish::Seen,
    Wish::Filled(0),
    Wish::Filled(1),
    Wish::Nothing,
];

/// A search on its disk, and what it answers where no call fails.
#[derive(Clone, Copy)]
struct Whole<'a> {
    command: &'a Command<'a>,
    answered: &'a Answered,
}

/// Counts of runs whose disk failed, and of those that were run again.
#[derive(Clone, Copy)]
struct Counts {
    faults: u64,
    images: u64,
    differ: u64,
}

impl Counts {
    /// No run.
    fn none() -> Counts {
        Counts {
            faults: 0,
            images: 0,
            differ: 0,
        }
    }

    /// Counts a run whose disk failed.
    fn count_fault(&mut self) {
        self.faults = self.faults.saturating_add(1);
    }

    /// Counts a run behind it, and whether it answered what the whole one did.
    fn count_image(&mut self, is_same: bool) {
        self.images = self.images.saturating_add(1);
        if !is_same {
            self.differ = self.differ.saturating_add(1);
        }
    }
}

/// A disk with these bytes that fails at this call.
fn failing_disk(
    alloc: Global,
    bytes: &[u8],
    fault: Fault,
    call: u64,
) -> Result<MemDisk, AllocError> {
    match fault {
        Fault::Once => MemDisk::failing(alloc, bytes, &[call]),
        Fault::FromThen => MemDisk::stopping_at(alloc, bytes, call),
    }
}

/// Bytes of one value, as many as a read gives or were kept.
fn filled(alloc: Global, disk: &MemDisk, value: u8) -> Result<Vec<u8>, AllocError> {
    let kept = disk.kept(alloc)?;
    let size = disk.bytes().len().max(kept.len());
    vec![in alloc; value; size]
}

/// The bytes that a wish names.
fn wished(alloc: Global, disk: &MemDisk, wish: Wish) -> Result<Vec<u8>, AllocError> {
    match wish {
        Wish::Kept => disk.kept(alloc),
        Wish::Seen => disk.bytes().to_vec(alloc),
        Wish::Filled(value) => filled(alloc, disk, value),
        Wish::Nothing => Ok(Vec::new(alloc)),
    }
}

/// What a crash might leave that is nearest to a wish.
fn image_of(alloc: Global, disk: &MemDisk, wish: Wish) -> Result<Vec<u8>, AllocError> {
    let wished = wished(alloc, disk, wish)?;
    disk.image(alloc, &wished)
}

/// Whether a search answered what another one did. That of one worker also leaves the same disk; of several the order of the events may differ.
fn is_same(command: &Command<'_>, ran: &Answered, other: &Answered) -> bool {
    if command.is_by_one() {
        return ran.is_same(other);
    }
    ran.answers_as(other)
}

/// What a command answers on a disk that holds these bytes.
fn run_over<R: Threads + Wait + Sync + Alloc<A = Global>>(
    rt: &R,
    command: &Command<'_>,
    bytes: &[u8],
) -> Result<Answered> {
    let disk = MemDisk::from_bytes(rt.alloc(), bytes)?;
    work_on(rt, rt.alloc(), command, disk, &NoHold)
}

/// What a command answers on its disk that fails at this call.
fn run_failing<R: Threads + Wait + Sync + Alloc<A = Global>>(
    rt: &R,
    command: &Command<'_>,
    fault: Fault,
    call: u64,
) -> Result<Answered> {
    let disk = failing_disk(rt.alloc(), command.bytes, fault, call)?;
    work_on(rt, rt.alloc(), command, disk, &NoHold)
}

/// Whether a command over these bytes answers what the whole one did.
fn ends_same<R: Threads + Wait + Sync + Alloc<A = Global>>(
    rt: &R,
    whole: Whole<'_>,
    bytes: &[u8],
) -> Result<bool> {
    let again = run_over(rt, whole.command, bytes)?;
    Ok(is_same(whole.command, &again, whole.answered))
}

/// Runs a command again on what a crash might leave.
fn go_on<R: Threads + Wait + Sync + Alloc<A = Global>>(
    rt: &R,
    whole: Whole<'_>,
    disk: &MemDisk,
    wish: Wish,
) -> Result<bool> {
    let image = image_of(rt.alloc(), disk, wish)?;
    ends_same(rt, whole, &image)
}

/// Runs a command again on each image that is tried.
fn go_on_each<R: Threads + Wait + Sync + Alloc<A = Global>>(
    rt: &R,
    whole: Whole<'_>,
    disk: &MemDisk,
    counts: &mut Counts,
) -> Result<()> {
    for wish in &WISHES {
        counts.count_image(go_on(rt, whole, disk, *wish)?);
    }
    Ok(())
}

/// Runs a command again, if its disk failed. Whether it did.
fn go_on_failed<R: Threads + Wait + Sync + Alloc<A = Global>>(
    rt: &R,
    whole: Whole<'_>,
    ran: &Answered,
    counts: &mut Counts,
) -> Result<bool> {
    if ran.status != 6 {
        return Ok(false);
    }
    counts.count_fault();
    go_on_each(rt, whole, &ran.disk, counts)?;
    Ok(true)
}

/// Lets the disk of a command fail at this call, and runs it again. Whether the disk failed.
fn fail_at<R: Threads + Wait + Sync + Alloc<A = Global>>(
    rt: &R,
    whole: Whole<'_>,
    fault: Fault,
    call: u64,
    counts: &mut Counts,
) -> Result<bool> {
    let ran = run_failing(rt, whole.command, fault, call)?;
    go_on_failed(rt, whole, &ran, counts)
}

/// Lets the disk of a command fail at each call in turn.
fn fail_at_each<R: Threads + Wait + Sync + Alloc<A = Global>>(
    rt: &R,
    whole: Whole<'_>,
    fault: Fault,
) -> Result<Counts> {
    let mut counts = Counts::none();
    for call in 0..10_000 {
        if !fail_at(rt, whole, fault, call, &mut counts)? {
            break;
        }
    }
    Ok(counts)
}

/// Lets the disk of a command fail at each call in turn.
fn counts_of<R: Threads + Wait + Sync + Alloc<A = Global>>(
    rt: &R,
    command: &Command<'_>,
    fault: Fault,
) -> Result<Counts> {
    let answered = run_over(rt, command, command.bytes)?;
    let whole = Whole {
        command,
        answered: &answered,
    };
    fail_at_each(rt, whole, fault)
}

/// Prints counts of runs.
fn show_counts<R: Print>(rt: &R, title: &str, fault: Fault, counts: Counts) -> io::Result<()> {
    let how = match fault {
        Fault::Once => "once",
        Fault::FromThen => "from then on",
    };
    let Counts {
        faults,
        images,
        differ,
    } = counts;
    println!(rt;
        "{title}: the disk fails {how} at each of {faults} calls, gone on from {images} disks, of which {differ} differ"
    )
}

/// Prints how often the disk of a search failed, and how it went on.
fn show_search<R: Threads + Wait + Sync + Print + Alloc<A = Global>>(
    rt: &R,
    title: &str,
    command: &Command<'_>,
    fault: Fault,
) -> Result<()> {
    let counts = counts_of(rt, command, fault)?;
    Ok(show_counts(rt, title, fault, counts)?)
}

/// Prints how often the disk failed of a search that goes on from this journal, and how it went on.
fn show_gone_on<R: Threads + Wait + Sync + Print + Alloc<A = Global>>(
    rt: &R,
    title: &str,
    bytes: &[u8],
) -> Result<()> {
    let command = Command {
        bytes,
        ..usual("solve m j c", ONE)
    };
    for fault in &[Fault::Once, Fault::FromThen] {
        show_search(rt, title, &command, *fault)?;
    }
    Ok(())
}

/// Prints how often the disks failed of searches that go on from older journals, whose beginning is that of this one, and how they went on.
fn show_older<R: Threads + Wait + Sync + Print + Alloc<A = Global>>(
    rt: &R,
    journal: &[u8],
) -> Result<()> {
    for (title, frames) in &OLDER {
        let bytes = with_frames(rt.alloc(), journal, frames)?;
        show_gone_on(rt, title, &bytes)?;
    }
    Ok(())
}

/// Prints how often the disks failed of searches that go on from older journals.
fn show_all_older<R: Threads + Wait + Sync + Print + Alloc<A = Global>>(rt: &R) -> Result<()> {
    let finished = Answered::run(rt.alloc(), &usual("solve m j c", ONE))?;
    show_older(rt, finished.disk.bytes())
}

/// Prints how often the disks of searches failed, and how they went on.
pub(crate) fn show<R: Threads + Wait + Sync + Print + Alloc<A = Global>>(rt: &R) -> Result<()> {
    for (title, line, model, fault) in &SEARCHES {
        show_search(rt, title, &usual(line, model), *fault)?;
    }
    show_all_older(rt)
}
