//! How many threads a crew begins with.
ghost use Rattle.std.specs.Prelude.{◌<◌, ◌≤◌};

use std::alloc::Global;

/// How much memory the thread of a worker may take before the worker has any: its stack, 8 MB unless the system was told otherwise, and the heap of 64 MB
/// that the C library keeps for the thread. Most of it is never touched, but a limit on addresses (`ulimit -v`) counts it.
const THREAD: usize = 80 << 20;

/// Whether so many bytes can be had. They are given back at once.
fn has_room(alloc: Global, bytes: usize) -> bool {
    Vec::<u8>::with_capacity(alloc, bytes).is_ok()
}

/// The most threads, up to this number, for which there is memory: the calling thread, and the others with what each of them may take. Under a limit on
/// memory more threads would leave none for the search (docs/DECISIONS.md, entry 72).
pub(crate) fn threads_for(alloc: Global, workers: usize) -> usize
    requires { 0 < workers }
    ensures some { 0 < result }
    ensures few { result ≤ workers }
{
    for fewer in 0..workers {
        let threads = workers - fewer;
        if has_room(alloc, THREAD.saturating_mul(threads - 1)) {
            return threads;
        }
    }
    1
}
