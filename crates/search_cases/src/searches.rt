//! Searches that go on with a greater budget, without cuts and with them: one with an optimum, and one without a point.

ghost use Rattle.std.specs.Prelude.{◌≡◌, ◌≤◌, [], IfOk, None};
ghost use Rattle.problem.specs.Limits.{most_cuts};
ghost use Rattle.node_tree.specs.Limits.{most_nodes};

use anyhow::Result;
use case_pools::{drop_pool, memory_pool, with_budget};
use case_tools::{NumberOrNone, problem_of};
use core_search::{Ending, search};
use event_core::State;
use node_pool::Pool;
use outside::MemDisk;
use std::alloc::Global;
use std::io;

/// Minimise -3a - 2b - 2c - d where 2a + 2b + c + d <= 2, with columns 0 or 1.
///
/// At node 0 the linear program has its optimum at a = 1/2 and c = 1, so without cuts it is split in a; at node 2 it is the point a = 1, and at node 1
/// it reaches the cutoff. The cut a + b + c <= 1, which is half of the row and of d >= 0 and c <= 1, leaves the point a = 1 at node 0.
const KNAPSACK: &[u8] =
    b"ROWS\n N o\n L r\nCOLUMNS\n m 'MARKER' 'INTORG'\n a o -3 r 2\n b o -2 r 2\n c o -2 r 1\n d o -1 r 1\nRHS\n r 2\nBOUNDS\n BV a\n BV b\n BV c\n BV d\nENDATA\n";

/// No whole numbers give 4x + 2y = 7, x from 0 to 1 and y from 0 to 2. Without cuts node 0 is split in y at (1, 3/2), and node 2 in x at (3/4, 2);
/// 4, 3 and 1 are refuted. The cuts 2x + y >= 4 and 2x + y <= 3 leave nothing of node 0.
const PARITY: &[u8] =
    b"ROWS\n N o\n E r\nCOLUMNS\n m 'MARKER' 'INTORG'\n x r 4\n y r 2\nRHS\n r 7\nBOUNDS\n UP x 1\n UP y 2\nENDATA\n";

/// Prints the best point, if there is one.
fn show_best<R: Print>(rt: &R, state: &State) -> io::Result<()> {
    let cutoff = NumberOrNone(state.incumbent().cutoff());
    match state.incumbent().point() {
        Some(best) => {
            let numbers = best.as_slice();
            println!(rt; "search best {cutoff} at {numbers:?}")
        }
        None => println!(rt; "search best {cutoff}"),
    }
}

/// Searches on with so many cuts.
fn search_on(alloc: Global, pool: &mut Pool<MemDisk>, cuts: u32) -> Ending
    requires few_cuts { cuts ≤ most_cuts }
    requires unheld { pool.old.state.state.holds ≡ [] }
    requires sound { pool.old.halt ≡ None }
    ensures { pool.new.state.state.holds ≡ [] }
{
    search(alloc, pool, cuts)
}

/// Prints how a search with so many cuts ended.
fn show_ending<R: Print>(
    rt: &R,
    pool: &Pool<MemDisk>,
    cuts: u32,
    ending: Ending,
) -> io::Result<()> {
    let (budget, state) = (pool.budget(), pool.state());
    let (nodes, made, open, events) = (
        state.tree().len(),
        state.book().len(),
        state.open_count(),
        state.history().len(),
    );
    println!(rt;
        "search to {budget} nodes and {cuts} cuts: {ending:?}, nodes {nodes}, cuts {made}, open {open}, events {events}"
    )?;
    show_best(rt, state)
}

/// The pool, if that could be printed.
fn shown(pool: Pool<MemDisk>, printed: io::Result<()>) -> Result<Pool<MemDisk>>
    requires { pool.state.state.holds ≡ [] }
    ensures { IfOk result (λ p. p.state.state.holds ≡ []) }
{
    match printed {
        Ok(()) => Ok(pool),
        Err(fault) => {
            drop_pool(pool);
            Err(fault.into())
        }
    }
}

/// The pool after it was searched on with so many cuts, and how that ended was printed.
fn searched<R: Print + Alloc<A = Global>>(
    rt: &R,
    pool: Pool<MemDisk>,
    cuts: u32,
) -> Result<Pool<MemDisk>>
    requires few_cuts { cuts ≤ most_cuts }
    requires unheld { pool.state.state.holds ≡ [] }
    requires sound { pool.halt ≡ None }
    ensures { IfOk result (λ p. p.state.state.holds ≡ []) }
{
    let mut pool = pool;
    let ending = search_on(rt.alloc(), &mut pool, cuts);
    let printed = show_ending(rt, &pool, cuts, ending);
    shown(pool, printed)
}

/// The pool at the beginning of a model's search to so many nodes.
fn pool_of(alloc: Global, model: &[u8], budget: u32) -> Result<Pool<MemDisk>>
    requires { budget ≤ most_nodes }
    ensures unheld { IfOk result (λ p. p.state.state.holds ≡ []) }
    ensures sound { IfOk result (λ p. p.halt ≡ None) }
{
    let problem = problem_of(alloc, model)?;
    memory_pool(alloc, problem, budget)
}

/// Prints the search of a model to so many nodes and cuts.
fn show_search<R: Print + Alloc<A = Global>>(
    rt: &R,
    model: &[u8],
    budget: u32,
    cuts: u32,
) -> Result<()>
    requires few { budget ≤ most_nodes }
    requires few_cuts { cuts ≤ most_cuts }
{
    let pool = pool_of(rt.alloc(), model, budget)?;
    let pool = searched(rt, pool, cuts)?;
    drop_pool(pool);
    Ok(())
}

/// The pool after a search of a model to so many nodes, which then goes on to more. No cuts are made.
fn searched_on<R: Print + Alloc<A = Global>>(
    rt: &R,
    model: &[u8],
    budget: u32,
    more: u32,
) -> Result<Pool<MemDisk>>
    requires few { budget ≤ most_nodes }
    requires few_more { more ≤ most_nodes }
{
    let pool = pool_of(rt.alloc(), model, budget)?;
    let pool = searched(rt, pool, 0)?;
    let pool = with_budget(rt.alloc(), pool, more)?;
    searched(rt, pool, 0)
}

/// The pool after the search of the problem that no point satisfies.
pub(crate) fn finished<R: Print + Alloc<A = Global>>(rt: &R) -> Result<Pool<MemDisk>> {
    searched_on(rt, PARITY, 4, 5)
}

/// Prints how a search goes on.
pub(crate) fn show<R: Print + Alloc<A = Global>>(rt: &R) -> Result<()> {
    drop_pool(searched_on(rt, KNAPSACK, 2, 3)?);
    show_search(rt, KNAPSACK, 1, 256)?;
    show_search(rt, PARITY, 1, 256)
}
