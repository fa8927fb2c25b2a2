// The calls of a gate under the turn of its lock.
ghost use Rattle.std.specs.Prelude.{◌≡◌};
ghost use Rattle.worker_gate.specs.Conditions.{HoldsNone, HoldsNode, HasCuts, IsFound};
ghost use Rattle.worker_gate.specs.Gates.{Stepped};
ghost use Rattle.worker_gate.specs.Calls.{Claims, Glances, Commits, Releases, Halts};
ghost use Rattle.worker_gate.specs.Passes.{IsGatePass};
ghost use Rattle.turn_lock.specs.Passes.{seen_by};

use crate::{Glance, Kin};
use expand::Finding;
use node_pool::{Claim, CommitFault, Receipt};
use outside::Disk;
use std::alloc::{AllocError, Global};
use std::sync::Wait;
use turn_lock::{Pass, TurnLock};

/// `Kin::claim` under a turn.
pub fn claim<D: Disk, R: Wait>(
    lock: &TurnLock<Kin<D>>,
    rt: &R,
    alloc: Global,
    pass: Pass<Kin<D>>,
    worker: u32,
) -> (Pass<Kin<D>>, Result<Claim, AllocError>)
    requires pass { IsGatePass lock.now worker pass }
    requires none { HoldsNone worker (seen_by pass) }
    ensures pass { IsGatePass lock.now worker result.0 }
    ensures step { Stepped worker (seen_by pass) (seen_by result.0) (Claims worker result.1) }
{
    let mut turn = lock.enter(rt, pass);
    turn.value().is_legal_now();
    let answer = turn.value_mut().claim(alloc, worker);
    (lock.leave(turn), answer)
}

/// `Kin::glance` under a turn.
pub fn glance<D: Disk, R: Wait>(
    lock: &TurnLock<Kin<D>>,
    rt: &R,
    alloc: Global,
    pass: Pass<Kin<D>>,
    worker: u32,
    node: u32,
    known: usize,
) -> (Pass<Kin<D>>, Result<Glance, AllocError>)
    requires pass { IsGatePass lock.now worker pass }
    requires holds { HoldsNode worker node (seen_by pass) }
    requires known { HasCuts known (seen_by pass) }
    ensures pass { IsGatePass lock.now worker result.0 }
    ensures step { Stepped worker (seen_by pass) (seen_by result.0) (Glances node known result.1) }
{
    let turn = lock.enter(rt, pass);
    turn.value().is_legal_now();
    let answer = turn.value().glance(alloc, worker, node, known);
    (lock.leave(turn), answer)
}

/// `Kin::commit` under a turn.
pub fn commit<D: Disk, R: Wait>(
    lock: &TurnLock<Kin<D>>,
    rt: &R,
    alloc: Global,
    pass: Pass<Kin<D>>,
    worker: u32,
    node: u32,
    finding: Finding,
) -> (Pass<Kin<D>>, Result<Receipt, CommitFault>)
    requires pass { IsGatePass lock.now worker pass }
    requires holds { HoldsNode worker node (seen_by pass) }
    requires found { IsFound node finding (seen_by pass) }
    ensures pass { IsGatePass lock.now worker result.0 }
    ensures step { Stepped worker (seen_by pass) (seen_by result.0) (Commits worker node finding result.1) }
{
    let mut turn = lock.enter(rt, pass);
    turn.value().is_legal_now();
    let answer = turn.value_mut().commit(alloc, worker, node, finding);
    (lock.leave(turn), answer)
}

/// `Kin::release` under a turn.
pub fn release<D: Disk, R: Wait>(
    lock: &TurnLock<Kin<D>>,
    rt: &R,
    pass: Pass<Kin<D>>,
    worker: u32,
    node: u32,
) -> Pass<Kin<D>>
    requires pass { IsGatePass lock.now worker pass }
    requires holds { HoldsNode worker node (seen_by pass) }
    ensures pass { IsGatePass lock.now worker result }
    ensures step { Stepped worker (seen_by pass) (seen_by result) (Releases worker node) }
{
    let mut turn = lock.enter(rt, pass);
    turn.value().is_legal_now();
    turn.value_mut().release(worker, node);
    lock.leave(turn)
}

/// `Kin::halt` under a turn.
pub fn halt<D: Disk, R: Wait>(
    lock: &TurnLock<Kin<D>>,
    rt: &R,
    pass: Pass<Kin<D>>,
    worker: u32,
) -> Pass<Kin<D>>
    requires pass { IsGatePass lock.now worker pass }
    ensures pass { IsGatePass lock.now worker result }
    ensures step { Stepped worker (seen_by pass) (seen_by result) Halts }
{
    let mut turn = lock.enter(rt, pass);
    turn.value().is_legal_now();
    turn.value_mut().halt();
    lock.leave(turn)
}
