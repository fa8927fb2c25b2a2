// Two gates to one pool.
ghost use Rattle.std.specs.Prelude.{◌≡◌, [], true, IfOk, None};
ghost use Rattle.turn_lock.specs.Names.{names_below};
ghost use Rattle.turn_lock.specs.Passes.{IsPassOf, names_of, seen_by};
ghost use Rattle.worker_gate.specs.Entries.{is_opened, opening_in, state_in};
ghost use Rattle.crew.specs.Gates.{first_list, IsReadyGate};

use crate::asks::{claimed, finds_none, settled};
use anyhow::{Result, anyhow};
use case_pools::{drop_pool, memory_pool};
use case_tools::problem_of;
use crew::steps::{two_gates, whole_pass};
use event_core::State;
use node_pool::Pool;
use outside::MemDisk;
use problem::Problem;
use std::alloc::Global;
use std::sync::Wait;
use turn_lock::{Pass, TurnLock};
use worker_gate::{Kin, PoolGate};

/// No whole numbers give 2x + 2y = 3. Node 0 has an optimum at (1, 1/2), where it is split in y.
const PARITY: &[u8] =
    b"ROWS\n N o\n E r\nCOLUMNS\n m 'MARKER' 'INTORG'\n x r 2\n y r 2\nRHS\n r 3\nBOUNDS\n BV x\n BV y\nENDATA\n";

/// Worker 1 asks while worker 0 holds the one open node, and again once worker 0 split it. Then each holds a child, and gives it back.
fn show_calls<R: Print + Alloc<A = Global> + Wait, G: PoolGate>(
    rt: &R,
    first: &mut G,
    second: &mut G,
    problem: &Problem,
) -> Result<()>
    requires first { IsReadyGate problem.now 0 (G.worker first.old) (G.seen first.old) }
    requires second { IsReadyGate problem.now 1 (G.worker second.old) (G.seen second.old) }
    ensures first { (G.worker first.new ≡ G.worker first.old) × (G.home first.new ≡ G.home first.old) }
    ensures second { (G.worker second.new ≡ G.worker second.old) × (G.home second.new ≡ G.home second.old) }
{
    let root = claimed(rt, first, 0)?;
    finds_none(rt, second, 1)?;
    settled(rt, first, 0, problem, root)?;
    let child = claimed(rt, second, 1)?;
    let other = claimed(rt, first, 0)?;
    second.release(rt, child);
    first.release(rt, other);
    Ok(())
}

/// The calls at two gates that are made of the whole pass, which comes back.
fn show_gates<R: Print + Alloc<A = Global> + Wait>(
    rt: &R,
    lock: &TurnLock<Kin<MemDisk>>,
    pass: Pass<Kin<MemDisk>>,
    problem: &Problem,
) -> (Pass<Kin<MemDisk>>, Result<()>)
    requires own { IsPassOf lock.now pass }
    requires named { names_of pass ≡ names_below 2 }
    requires seen { seen_by pass ≡ first_list lock.now }
    requires opened { is_opened (first_list lock.now) ≡ true }
    requires members { (opening_in (first_list lock.now)).workers ≡ 2 }
    requires unheld { (state_in (first_list lock.now)).holds ≡ [] }
    requires problem { (state_in (first_list lock.now)).problem ≡ problem.now }
    ensures own { IsPassOf lock.now result.0 }
    ensures named { names_of result.0 ≡ names_below 2 }
{
    let (mut first, mut second) = two_gates(lock, pass);
    let shown = show_calls(rt, &mut first, &mut second, problem);
    (whole_pass(lock, first, second), shown)
}

/// The calls at two gates to a pool under a lock, and the pool.
fn show_pool<R: Print + Alloc<A = Global> + Wait>(
    rt: &R,
    kin: Kin<MemDisk>,
    problem: &Problem,
) -> (Kin<MemDisk>, Result<()>)
    requires opened { is_opened kin ≡ true }
    requires members { (opening_in kin).workers ≡ 2 }
    requires unheld { (state_in kin).holds ≡ [] }
    requires problem { (state_in kin).problem ≡ problem.now }
{
    let (lock, pass) = match TurnLock::make(rt.alloc(), kin, 2) {
        Ok(made) => made,
        Err((_, kin)) => return (kin, Err(anyhow!("no memory for a lock"))),
    };
    let (pass, shown) = show_gates(rt, &lock, pass, problem);
    (lock.close(pass), shown)
}

/// A pool of a copy of the problem.
fn pool_of(alloc: Global, problem: &Problem) -> Result<Pool<MemDisk>>
    ensures unheld { IfOk result (λ p. p.state.state.holds ≡ []) }
    ensures sound { IfOk result (λ p. p.halt ≡ None) }
    ensures problem { IfOk result (λ p. p.state.state.problem ≡ problem.now) }
{
    let problem = problem.copy(alloc)?;
    memory_pool(alloc, problem, 1000)
}

/// A pool of a copy of the problem for two workers without cuts.
fn kin_of(alloc: Global, problem: &Problem) -> Result<Kin<MemDisk>>
    ensures opened { IfOk result (λ k. is_opened k ≡ true) }
    ensures members { IfOk result (λ k. (opening_in k).workers ≡ 2) }
    ensures unheld { IfOk result (λ k. (state_in k).holds ≡ []) }
    ensures problem { IfOk result (λ k. (state_in k).problem ≡ problem.now) }
{
    let pool = pool_of(alloc, problem)?;
    Ok(Kin::make(pool, 0, 2))
}

/// Prints what a pool has at the end, if the calls were printed.
fn show_end<R: Print>(rt: &R, state: &State, shown: Result<()>) -> Result<()> {
    shown?;
    let (events, nodes, open) = (
        state.history().len(),
        state.tree().len(),
        state.open_count(),
    );
    println!(rt; "the pool is back: events {events}, nodes {nodes}, open {open}")?;
    Ok(())
}

/// Prints the calls at gates to a pool of the problem, and what it has at the end.
fn show_problem<R: Print + Alloc<A = Global> + Wait>(rt: &R, problem: &Problem) -> Result<()> {
    let kin = kin_of(rt.alloc(), problem)?;
    let (kin, shown) = show_pool(rt, kin, problem);
    let pool = kin.into_pool();
    let shown = show_end(rt, pool.state(), shown);
    drop_pool(pool);
    shown
}

/// Prints the calls on the problem that no point satisfies.
pub(crate) fn show<R: Print + Alloc<A = Global> + Wait>(rt: &R) -> Result<()> {
    let problem = problem_of(rt.alloc(), PARITY)?;
    show_problem(rt, &problem)
}
