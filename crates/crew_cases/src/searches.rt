//! Searches by one, two and four workers: one without a point, and one with an optimum.

ghost use Rattle.std.specs.Prelude.{◌≡◌, ◌≤◌, [], IfOk, None};
ghost use Rattle.problem.specs.Limits.{most_cuts};

use anyhow::Result;
use case_pools::{drop_pool, memory_pool};
use case_tools::{Meeting, NumberOrNone, problem_of};
use core_search::Ending;
use crew::{Settings, run_crew};
use event_core::State;
use node_pool::Pool;
use outside::{Hold, MemDisk, NoHold};
use std::alloc::Global;
use std::io;
use std::sync::Wait;
use std::thread::Threads;

/// No whole numbers give 2x + 2y = 3. Without cuts node 0 is split in one column at 1/2, and each of its children has a fractional optimum still, or
/// is refuted.
const PARITY: &[u8] =
    b"ROWS\n N o\n E r\nCOLUMNS\n m 'MARKER' 'INTORG'\n x r 2\n y r 2\nRHS\n r 3\nBOUNDS\n BV x\n BV y\nENDATA\n";

/// Minimise -3a - 2b - 2c - d where 2a + 2b + c + d <= 2, with columns 0 or 1. The optimum is -3.
const KNAPSACK: &[u8] =
    b"ROWS\n N o\n L r\nCOLUMNS\n m 'MARKER' 'INTORG'\n a o -3 r 2\n b o -2 r 2\n c o -2 r 1\n d o -1 r 1\nRHS\n r 2\nBOUNDS\n BV a\n BV b\n BV c\n BV d\nENDATA\n";

/// Prints the best point's objective, if there is one.
fn show_best<R: Print>(rt: &R, state: &State) -> io::Result<()> {
    let cutoff = NumberOrNone(state.incumbent().cutoff());
    let open = state.open_count();
    println!(rt; "best {cutoff}, open {open}")
}

/// Prints how a search ended, and says how many nodes it has.
fn show_ending<R: Print>(
    rt: &R,
    settings: &Settings,
    ending: Ending,
    state: &State,
) -> Result<usize> {
    println!(rt; "{settings:?}: {ending:?}")?;
    show_best(rt, state)?;
    Ok(state.tree().len())
}

/// The pool at the beginning of a model's search.
fn pool_of(alloc: Global, model: &[u8]) -> Result<Pool<MemDisk>>
    ensures unheld { IfOk result (λ p. p.state.state.holds ≡ []) }
    ensures sound { IfOk result (λ p. p.halt ≡ None) }
{
    let problem = problem_of(alloc, model)?;
    memory_pool(alloc, problem, 1000)
}

/// The pool after it was searched by so many workers, with so many cuts, and how that ended.
fn searched<R: Alloc<A = Global> + Threads + Wait + Sync, H: Hold + Sync>(
    rt: &R,
    pool: Pool<MemDisk>,
    settings: &Settings,
    hold: &H,
) -> (Ending, Pool<MemDisk>)
    requires some_workers { 1 ≤ settings.now.workers }
    requires few_cuts { settings.now.cuts ≤ most_cuts }
    requires unheld { pool.state.state.holds ≡ [] }
    requires sound { pool.halt ≡ None }
{
    run_crew(rt, rt.alloc(), pool, settings, hold)
}

/// Prints how a search of a model by so many workers, with so many cuts, ends. How many nodes it has.
fn show_search<R: Print + Alloc<A = Global> + Threads + Wait + Sync, H: Hold + Sync>(
    rt: &R,
    model: &[u8],
    settings: &Settings,
    hold: &H,
) -> Result<usize>
    requires some_workers { 1 ≤ settings.now.workers }
    requires few_cuts { settings.now.cuts ≤ most_cuts }
{
    let pool = pool_of(rt.alloc(), model)?;
    let (ending, pool) = searched(rt, pool, settings, hold);
    let shown = show_ending(rt, settings, ending, pool.state());
    drop_pool(pool);
    shown
}

/// Prints the search of the problem that no point satisfies by two workers, and whether they met.
fn show_pair<R: Print + Alloc<A = Global> + Threads + Wait + Sync>(
    rt: &R,
    meeting: &Meeting,
) -> Result<()> {
    let settings = Settings {
        workers: 2,
        cuts: 0,
    };
    let nodes = show_search(rt, PARITY, &settings, meeting)?;
    let met = meeting.took_place();
    println!(rt; "nodes {nodes}, the workers met {met}")?;
    Ok(())
}

/// Two workers that have to meet before their first claims. Where there is no incumbent and no choice of columns the number of nodes is the same
/// whatever the order of the workers.
fn show_meeting<R: Print + Alloc<A = Global> + Threads + Wait + Sync>(rt: &R) -> Result<()> {
    let meeting = Meeting::new();
    show_pair(rt, &meeting)
}

/// Prints the search of the problem with an optimum by so many workers, with so many cuts.
fn show_optimum<R: Print + Alloc<A = Global> + Threads + Wait + Sync>(
    rt: &R,
    workers: u32,
    cuts: u32,
) -> Result<()>
    requires some_workers { 1 ≤ workers }
    requires few_cuts { cuts ≤ most_cuts }
{
    let settings = Settings { workers, cuts };
    show_search(rt, KNAPSACK, &settings, &NoHold)?;
    Ok(())
}

/// Prints the searches.
pub(crate) fn show<R: Print + Alloc<A = Global> + Threads + Wait + Sync>(rt: &R) -> Result<()> {
    show_meeting(rt)?;
    show_optimum(rt, 1, 0)?;
    show_optimum(rt, 2, 0)?;
    show_optimum(rt, 4, 8)
}
