//! Workers in threads of their own, over one pool under a lock.
ghost use Rattle.std.specs.Prelude.{◌≡◌, ◌<◌, ◌≤◌, ◌+◌, ℕ, [], true, false, IfOk, IfErr, length};
ghost use Rattle.event_core.specs.States.{State};
ghost use Rattle.turn_lock.specs.Names.{names_below};
ghost use Rattle.turn_lock.specs.Passes.{IsPassOf, names_of, seen_by, weight_of};
ghost use Rattle.worker_gate.specs.Conditions.{HoldsNone};
ghost use Rattle.worker_gate.specs.Entries.{is_opened, opening_in, state_in};
ghost use Rattle.worker_gate.specs.Legal.{IsLegalList};
ghost use Rattle.crew.specs.Gates.{first_list, IsNewGate, IsDoneGate, AreNewGates, AreDoneGates, IsDonePass};
ghost use Rattle.crew.specs.Lists.{IsFront, IsOver};

use crate::settings::Settings;
use crate::side_by_side::work_each;
use outside::{Disk, Hold};
use problem::Problem;
use std::alloc::Global;
use std::sync::Wait;
use std::thread::Threads;
use turn_lock::{Pass, TurnLock};
use worker_gate::{Kin, LockGate};

/// A gate for the worker of greatest number, and the pass of the others.
pub(crate) fn split_gate<'a, D: Disk>(
    lock: &'a TurnLock<Kin<D>>,
    pass: Pass<Kin<D>>,
    worker: u32,
) -> (LockGate<'a, D>, Pass<Kin<D>>)
    requires own { IsPassOf lock.now pass }
    requires named { names_of pass ≡ names_below (worker + 1) }
    requires others { 0 < worker }
    requires seen { seen_by pass ≡ first_list lock.now }
    requires opened { is_opened (first_list lock.now) ≡ true }
    requires member { worker < (opening_in (first_list lock.now)).workers }
    ensures gate { IsNewGate lock.now worker result.0 }
    ensures own { IsPassOf lock.now result.1 }
    ensures named { names_of result.1 ≡ names_below worker }
    ensures seen { seen_by result.1 ≡ first_list lock.now }
{
    let (one, others) = lock.split(pass);
    (LockGate::make(lock, one, worker), others)
}

/// A gate for each worker, made of the whole pass: the greatest number first. Where memory runs out the pass comes back.
fn make_gates<'a, D: Disk>(
    alloc: Global,
    lock: &'a TurnLock<Kin<D>>,
    pass: Pass<Kin<D>>,
    workers: u32,
) -> Result<Vec<LockGate<'a, D>>, Pass<Kin<D>>>
    requires own { IsPassOf lock.now pass }
    requires named { names_of pass ≡ names_below workers }
    requires some { 0 < workers }
    requires seen { seen_by pass ≡ first_list lock.now }
    requires opened { is_opened (first_list lock.now) ≡ true }
    requires members { (opening_in (first_list lock.now)).workers ≡ workers }
    ensures gates { IfOk result (λ v. AreNewGates lock.now workers v.items) }
    ensures count { IfOk result (λ v. length v.items ≡ workers) }
    ensures back { IfErr result (λ p. p ≡ pass) }
{
    let Ok(mut gates) = Vec::with_capacity(alloc, workers as usize) else {
        return Err(pass);
    };
    let mut rest = pass;
    for index in 0..workers - 1 {
        let (gate, others) = split_gate(lock, rest, workers - 1 - index);
        gates.push_reserved(gate);
        rest = others;
    }
    gates.push_reserved(LockGate::make(lock, rest, 0));
    Ok(gates)
}

/// The pass of worker 0, who has done its work.
fn first_pass<D: Disk>(lock: &TurnLock<Kin<D>>, gate: LockGate<'_, D>) -> Pass<Kin<D>>
    requires { IsDoneGate lock.now 0 gate }
    ensures { IsDonePass lock.now 1 result }
{
    let _lock = lock;
    gate.into_pass()
}

/// The pass of so many workers and the next one, who has done its work.
fn join_gate<D: Disk>(
    lock: &TurnLock<Kin<D>>,
    pass: Pass<Kin<D>>,
    gate: LockGate<'_, D>,
    worker: u32,
) -> Pass<Kin<D>>
    requires pass { IsDonePass lock.now worker pass }
    requires gate { IsDoneGate lock.now worker gate }
    requires opened { is_opened (first_list lock.now) ≡ true }
    ensures { IsDonePass lock.now (worker + 1) result }
{
    lock.join(pass, gate.into_pass())
}

/// The whole pass again, of the gates that were made of it.
fn join_gates<D: Disk>(
    lock: &TurnLock<Kin<D>>,
    gates: Vec<LockGate<'_, D>>,
    workers: u32,
) -> Pass<Kin<D>>
    requires some { 0 < workers }
    requires count { length gates.items ≡ workers }
    requires gates { AreDoneGates lock.now workers gates.items }
    requires opened { is_opened (first_list lock.now) ≡ true }
    ensures { IsDonePass lock.now workers result }
{
    let mut gates = gates;
    let Some(gate) = gates.pop() else {
        unreachable!()
    };
    let mut pass = first_pass(lock, gate);
    for worker in 1..workers {
        let Some(gate) = gates.pop() else {
            unreachable!()
        };
        pass = join_gate(lock, pass, gate, worker);
    }
    gates.destroy_empty();
    pass
}

/// Each worker works at its gate, in a thread of its own where one can be made.
fn work_all<D: Disk + Send, R: Threads + Wait + Sync, H: Hold + Sync>(
    rt: &R,
    alloc: Global,
    lock: &TurnLock<Kin<D>>,
    gates: &mut [LockGate<'_, D>],
    problem: &Problem,
    settings: &Settings,
    hold: &H,
)
    requires some { 0 < settings.now.workers }
    requires count { length gates.old ≡ settings.now.workers }
    requires gates { AreNewGates lock.now settings.now.workers gates.old }
    requires opened { is_opened (first_list lock.now) ≡ true }
    requires unheld { (state_in (first_list lock.now)).holds ≡ [] }
    requires problem { (state_in (first_list lock.now)).problem ≡ problem.now }
    ensures { AreDoneGates lock.now settings.now.workers gates.new }
{
    let _lock = lock;
    work_each(rt, alloc, gates, problem, settings, hold);
}

/// The workers work at gates that are made of the whole pass, and the pass comes back. The answer says whether there was memory for the gates.
fn work_at_gates<D: Disk + Send, R: Threads + Wait + Sync, H: Hold + Sync>(
    rt: &R,
    alloc: Global,
    lock: &TurnLock<Kin<D>>,
    pass: Pass<Kin<D>>,
    problem: &Problem,
    settings: &Settings,
    hold: &H,
) -> (Pass<Kin<D>>, bool)
    requires some { 0 < settings.now.workers }
    requires own { IsPassOf lock.now pass }
    requires named { names_of pass ≡ names_below settings.now.workers }
    requires seen { seen_by pass ≡ first_list lock.now }
    requires opened { is_opened (first_list lock.now) ≡ true }
    requires members { (opening_in (first_list lock.now)).workers ≡ settings.now.workers }
    requires unheld { (state_in (first_list lock.now)).holds ≡ [] }
    requires problem { (state_in (first_list lock.now)).problem ≡ problem.now }
    ensures worked { result.1 ≡ true → IsDonePass lock.now settings.now.workers result.0 }
    ensures failed { result.1 ≡ false → result.0 ≡ pass }
{
    match make_gates(alloc, lock, pass, settings.workers) {
        Ok(mut gates) => {
            work_all(rt, alloc, lock, &mut gates, problem, settings, hold);
            (join_gates(lock, gates, settings.workers), true)
        }
        Err(pass) => (pass, false),
    }
}

/// Halts the pool for want of memory, unless it is halted already.
fn halt<D: Disk>(kin: Kin<D>) -> Kin<D>
    ensures front { IsFront kin result }
    ensures legal { IsLegalList result }
    ensures holds { (state_in result).holds ≡ (state_in kin).holds }
    ensures over { IsOver result }
{
    let mut kin = kin;
    kin.is_legal_now();
    kin.halt();
    kin
}

/// The pool that lay under the lock, once the workers have done their work.
fn close<D: Disk>(lock: TurnLock<Kin<D>>, pass: Pass<Kin<D>>, workers: u32) -> Kin<D>
    requires pass { IsDonePass lock workers pass }
    requires opened { is_opened (first_list lock) ≡ true }
    requires whole { weight_of lock ≡ workers }
    ensures front { IsFront (first_list lock) result }
    ensures legal { IsLegalList result }
    ensures none { (w : ℕ) → w < workers → HoldsNone w result }
    ensures over { IsOver result }
{
    let kin = lock.close(pass);
    kin.is_legal_now();
    kin
}

/// The pool that lay under a lock for whose gates there was no memory, halted.
fn close_unworked<D: Disk>(lock: TurnLock<Kin<D>>, pass: Pass<Kin<D>>, workers: u32) -> Kin<D>
    requires own { IsPassOf lock pass }
    requires named { names_of pass ≡ names_below workers }
    requires seen { seen_by pass ≡ first_list lock }
    requires opened { is_opened (first_list lock) ≡ true }
    requires unheld { (state_in (first_list lock)).holds ≡ [] }
    requires whole { weight_of lock ≡ workers }
    ensures front { IsFront (first_list lock) result }
    ensures legal { IsLegalList result }
    ensures none { (w : ℕ) → w < workers → HoldsNone w result }
    ensures over { IsOver result }
{
    let kin = lock.close(pass);
    kin.is_legal_now();
    halt(kin)
}

/// The workers work on the pool until no node is open or it is halted. Want of memory for the lock or the gates halts it.
pub(crate) fn work_under_lock<D: Disk + Send, R: Threads + Wait + Sync, H: Hold + Sync>(
    rt: &R,
    alloc: Global,
    kin: Kin<D>,
    problem: &Problem,
    settings: &Settings,
    hold: &H,
) -> Kin<D>
    requires some { 0 < settings.now.workers }
    requires opened { is_opened kin ≡ true }
    requires members { (opening_in kin).workers ≡ settings.now.workers }
    requires unheld { (state_in kin).holds ≡ [] }
    requires problem { (state_in kin).problem ≡ problem.now }
    ensures front { IsFront kin result }
    ensures legal { IsLegalList result }
    ensures none { (w : ℕ) → w < settings.now.workers → HoldsNone w result }
    ensures over { IsOver result }
{
    let (lock, pass) = match TurnLock::make(alloc, kin, u64::from(settings.workers)) {
        Ok(made) => made,
        Err((_, kin)) => return halt(kin),
    };
    let (pass, worked) = work_at_gates(rt, alloc, &lock, pass, problem, settings, hold);
    if worked {
        close(lock, pass, settings.workers)
    } else {
        close_unworked(lock, pass, settings.workers)
    }
}
