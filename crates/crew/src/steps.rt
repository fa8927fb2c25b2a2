//! The steps of a worker one by one, and the gates of two workers: for a caller that makes each step itself, as a program that shows what the gates
//! answer (docs/DECISIONS.md, entry 60). A worker of a search makes them in `work`.
ghost use Rattle.std.specs.Prelude.{◌≡◌, ◌∷◌, [], true, IfOk, OnOk, OnErr};
ghost use Rattle.turn_lock.specs.Lists.{GoesOn};
ghost use Rattle.turn_lock.specs.Names.{names_below};
ghost use Rattle.turn_lock.specs.Passes.{IsPassOf, names_of, seen_by};
ghost use Rattle.worker_gate.specs.Calls.{Commits};
ghost use Rattle.worker_gate.specs.Conditions.{HoldsNone, HoldsNode, IsFound};
ghost use Rattle.worker_gate.specs.Entries.{name_of, is_opened, opening_in, state_in};
ghost use Rattle.worker_gate.specs.Gates.{Stepped};
ghost use Rattle.worker_gate.specs.Passes.{seen_in};
ghost use Rattle.crew.specs.Gates.{first_list, IsNewGate, IsReadyGate};
ghost use Rattle.crew.specs.Lists.{IsHolding};
ghost use Rattle.crew.specs.WorkerSteps.{Leaves, Takes, step_of};

pub use crate::node_work::Step;
use crate::node_work::find;
use crate::threads::split_gate;
use crate::worker::Worker;
pub use crate::worker_loop::Taken;
use crate::worker_loop::take;
use expand::Finding;
use node_pool::{CommitFault, Receipt};
use outside::Disk;
use problem::Problem;
use std::alloc::{AllocError, Global};
use std::sync::Wait;
use turn_lock::{Pass, TurnLock};
use worker_gate::{Kin, LockGate, PoolGate};

/// The gates of workers 0 and 1, made of the whole pass of a lock for two workers.
pub fn two_gates<'a, D: Disk>(
    lock: &'a TurnLock<Kin<D>>,
    pass: Pass<Kin<D>>,
) -> (LockGate<'a, D>, LockGate<'a, D>)
    requires own { IsPassOf lock.now pass }
    requires named { names_of pass ≡ names_below 2 }
    requires seen { seen_by pass ≡ first_list lock.now }
    requires opened { is_opened (first_list lock.now) ≡ true }
    requires members { (opening_in (first_list lock.now)).workers ≡ 2 }
    requires unheld { (state_in (first_list lock.now)).holds ≡ [] }
    ensures first { IsNewGate lock.now 0 result.0 }
    ensures second { IsNewGate lock.now 1 result.1 }
    ensures first_ready { IsReadyGate (state_in (first_list lock.now)).problem 0 result.0.worker (seen_in result.0.pass) }
    ensures second_ready { IsReadyGate (state_in (first_list lock.now)).problem 1 result.1.worker (seen_in result.1.pass) }
{
    let (second, rest) = split_gate(lock, pass, 1);
    (LockGate::make(lock, rest, 0), second)
}

/// The whole pass again, of the gates of workers 0 and 1. It has seen all that either gate had seen.
pub fn whole_pass<D: Disk>(
    lock: &TurnLock<Kin<D>>,
    first: LockGate<'_, D>,
    second: LockGate<'_, D>,
) -> Pass<Kin<D>>
    requires first { (first.lock.now ≡ lock.now) × (first.worker ≡ 0) }
    requires second { (second.lock.now ≡ lock.now) × (second.worker ≡ 1) }
    ensures own { IsPassOf lock.now result }
    ensures named { names_of result ≡ names_below 2 }
    ensures first { GoesOn name_of (0 ∷ []) (seen_in first.entry.pass) (seen_by result) }
    ensures second { GoesOn name_of (1 ∷ []) (seen_in second.entry.pass) (seen_by result) }
{
    lock.join(first.into_pass(), second.into_pass())
}

/// Claims a node. Want of memory halts the pool.
pub fn claim<R: Wait, G: PoolGate>(rt: &R, alloc: Global, gate: &mut G) -> Taken
    requires opened { is_opened (G.seen gate.old) ≡ true }
    requires none { HoldsNone (G.worker gate.old) (G.seen gate.old) }
    ensures same { G.worker gate.new ≡ G.worker gate.old }
    ensures stays { G.home gate.new ≡ G.home gate.old }
    ensures takes { Takes (G.worker gate.old) (G.seen gate.old) (G.seen gate.new) result }
    ensures problem { (state_in (G.seen gate.new)).problem ≡ (state_in (G.seen gate.old)).problem }
{
    take(rt, alloc, gate)
}

/// What a worker that knows no cut yet finds of its node: it asks for all cuts that there are, with room for as many more as keep to the limit. The one
/// error is want of memory.
pub fn look<R: Wait, G: PoolGate>(
    rt: &R,
    alloc: Global,
    gate: &mut G,
    problem: &Problem,
    node: u32,
    limit: u32,
) -> Result<Finding, AllocError>
    requires opened { is_opened (G.seen gate.old) ≡ true }
    requires holds { HoldsNode (G.worker gate.old) node (G.seen gate.old) }
    requires problem { (state_in (G.seen gate.old)).problem ≡ problem.now }
    ensures same { G.worker gate.new ≡ G.worker gate.old }
    ensures stays { G.home gate.new ≡ G.home gate.old }
    ensures opened { is_opened (G.seen gate.new) ≡ true }
    ensures holds { HoldsNode (G.worker gate.old) node (G.seen gate.new) }
    ensures holding { OnOk result (IsHolding (G.worker gate.old) node (G.seen gate.old) (G.seen gate.new)) }
    ensures found { IfOk result (λ f. IsFound node f (G.seen gate.new)) }
{
    let mut worker = Worker::new(alloc, problem)?;
    find(rt, alloc, gate, problem, &mut worker, node, limit)
}

/// Settles the worker's node as the finding says, and tells what was acknowledged. Once that is done the worker holds none, unless cuts were found; else
/// it holds the node still.
pub fn commit<R: Wait, G: PoolGate>(
    rt: &R,
    alloc: Global,
    gate: &mut G,
    node: u32,
    finding: Finding,
) -> Result<Receipt, CommitFault>
    requires opened { is_opened (G.seen gate.old) ≡ true }
    requires holds { HoldsNode (G.worker gate.old) node (G.seen gate.old) }
    requires found { IsFound node finding (G.seen gate.old) }
    ensures same { G.worker gate.new ≡ G.worker gate.old }
    ensures stays { G.home gate.new ≡ G.home gate.old }
    ensures step { Stepped (G.worker gate.old) (G.seen gate.old) (G.seen gate.new) (Commits (G.worker gate.old) node finding result) }
    ensures done { OnOk result (Leaves (G.worker gate.old) node (G.seen gate.old) (G.seen gate.new) (step_of finding)) }
    ensures refused { OnErr result (IsHolding (G.worker gate.old) node (G.seen gate.old) (G.seen gate.new)) }
{
    gate.commit(rt, alloc, node, finding)
}
