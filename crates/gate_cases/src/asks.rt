// What a worker asks at its gate, and what it is answered. An answer of another kind than the order of the calls leads to is an error.
ghost use Rattle.std.specs.Prelude.{◌≡◌, true, IfOk, OnOk};
ghost use Rattle.worker_gate.specs.Conditions.{HoldsNone, HoldsNode, IsFound};
ghost use Rattle.worker_gate.specs.Entries.{is_opened, state_in};
ghost use Rattle.crew.specs.WorkerSteps.{Takes, step_of};
ghost use Rattle.crew.specs.declared.node_work.Step.{Step};

use crate::findings::show_optimum;
use anyhow::{Result, bail};
use crew::steps::{Taken, claim, commit, look};
use expand::Finding;
use problem::Problem;
use std::alloc::Global;
use std::io;
use std::sync::Wait;
use worker_gate::PoolGate;

/// Claims a node and prints the answer.
fn show_claim<R: Print + Alloc<A = Global> + Wait, G: PoolGate>(
    rt: &R,
    gate: &mut G,
    worker: u32,
) -> io::Result<Taken>
    requires opened { is_opened (G.seen gate.old) ≡ true }
    requires none { HoldsNone (G.worker gate.old) (G.seen gate.old) }
    ensures same { G.worker gate.new ≡ G.worker gate.old }
    ensures stays { G.home gate.new ≡ G.home gate.old }
    ensures takes { IfOk result (λ t. Takes (G.worker gate.old) (G.seen gate.old) (G.seen gate.new) t) }
    ensures problem { (state_in (G.seen gate.new)).problem ≡ (state_in (G.seen gate.old)).problem }
{
    let taken = claim(rt, rt.alloc(), gate);
    println!(rt; "worker {worker} claims: {taken:?}")?;
    Ok(taken)
}

/// The node that the worker gets.
pub(crate) fn claimed<R: Print + Alloc<A = Global> + Wait, G: PoolGate>(
    rt: &R,
    gate: &mut G,
    worker: u32,
) -> Result<u32>
    requires opened { is_opened (G.seen gate.old) ≡ true }
    requires none { HoldsNone (G.worker gate.old) (G.seen gate.old) }
    ensures same { G.worker gate.new ≡ G.worker gate.old }
    ensures stays { G.home gate.new ≡ G.home gate.old }
    ensures opened { OnOk result (is_opened (G.seen gate.new) ≡ true) }
    ensures holds { IfOk result (λ n. HoldsNode (G.worker gate.old) n (G.seen gate.new)) }
    ensures problem { (state_in (G.seen gate.new)).problem ≡ (state_in (G.seen gate.old)).problem }
{
    match show_claim(rt, gate, worker)? {
        Taken::Node(node) => Ok(node),
        Taken::Idle | Taken::Over => bail!("worker {worker} got no node"),
    }
}

/// The worker gets no node, since each open node is held.
pub(crate) fn finds_none<R: Print + Alloc<A = Global> + Wait, G: PoolGate>(
    rt: &R,
    gate: &mut G,
    worker: u32,
) -> Result<()>
    requires opened { is_opened (G.seen gate.old) ≡ true }
    requires none { HoldsNone (G.worker gate.old) (G.seen gate.old) }
    ensures same { G.worker gate.new ≡ G.worker gate.old }
    ensures stays { G.home gate.new ≡ G.home gate.old }
    ensures opened { OnOk result (is_opened (G.seen gate.new) ≡ true) }
    ensures none { OnOk result (HoldsNone (G.worker gate.old) (G.seen gate.new)) }
{
    match show_claim(rt, gate, worker)? {
        Taken::Idle => Ok(()),
        Taken::Node(_) | Taken::Over => bail!(
            "worker {worker} isn't told that each open node is held"
        ),
    }
}

/// Prints what a worker finds, which is the optimum of a relaxation.
fn show_found<R: Print>(rt: &R, worker: u32, finding: &Finding) -> Result<()>
    ensures { OnOk result (step_of finding.now ≡ Step.Ended) }
{
    print!(rt; "worker {worker} finds: ")?;
    show_optimum(rt, finding)
}

/// What is found of the worker's node, which is the optimum of its relaxation, without room for cuts.
fn found<R: Print + Alloc<A = Global> + Wait, G: PoolGate>(
    rt: &R,
    gate: &mut G,
    worker: u32,
    problem: &Problem,
    node: u32,
) -> Result<Finding>
    requires opened { is_opened (G.seen gate.old) ≡ true }
    requires holds { HoldsNode (G.worker gate.old) node (G.seen gate.old) }
    requires problem { (state_in (G.seen gate.old)).problem ≡ problem.now }
    ensures same { G.worker gate.new ≡ G.worker gate.old }
    ensures stays { G.home gate.new ≡ G.home gate.old }
    ensures opened { is_opened (G.seen gate.new) ≡ true }
    ensures holds { HoldsNode (G.worker gate.old) node (G.seen gate.new) }
    ensures found { IfOk result (λ f. IsFound node f (G.seen gate.new)) }
    ensures optimum { IfOk result (λ f. step_of f ≡ Step.Ended) }
{
    let finding = look(rt, rt.alloc(), gate, problem, node, 0)?;
    show_found(rt, worker, &finding)?;
    Ok(finding)
}

/// Commits a finding that isn't cuts, and prints the receipt.
fn show_commit<R: Print + Alloc<A = Global> + Wait, G: PoolGate>(
    rt: &R,
    gate: &mut G,
    worker: u32,
    node: u32,
    finding: Finding,
) -> Result<()>
    requires opened { is_opened (G.seen gate.old) ≡ true }
    requires holds { HoldsNode (G.worker gate.old) node (G.seen gate.old) }
    requires found { IsFound node finding (G.seen gate.old) }
    requires ended { step_of finding ≡ Step.Ended }
    ensures same { G.worker gate.new ≡ G.worker gate.old }
    ensures stays { G.home gate.new ≡ G.home gate.old }
    ensures opened { OnOk result (is_opened (G.seen gate.new) ≡ true) }
    ensures none { OnOk result (HoldsNone (G.worker gate.old) (G.seen gate.new)) }
{
    match commit(rt, rt.alloc(), gate, node, finding) {
        Ok(receipt) => println!(rt; "worker {worker} commits: {receipt:?}")?,
        Err(fault) => bail!("worker {worker} can't commit: {fault:?}"),
    }
    Ok(())
}

/// The worker looks at its node and commits what it finds.
pub(crate) fn settled<R: Print + Alloc<A = Global> + Wait, G: PoolGate>(
    rt: &R,
    gate: &mut G,
    worker: u32,
    problem: &Problem,
    node: u32,
) -> Result<()>
    requires opened { is_opened (G.seen gate.old) ≡ true }
    requires holds { HoldsNode (G.worker gate.old) node (G.seen gate.old) }
    requires problem { (state_in (G.seen gate.old)).problem ≡ problem.now }
    ensures same { G.worker gate.new ≡ G.worker gate.old }
    ensures stays { G.home gate.new ≡ G.home gate.old }
    ensures opened { OnOk result (is_opened (G.seen gate.new) ≡ true) }
    ensures none { OnOk result (HoldsNone (G.worker gate.old) (G.seen gate.new)) }
{
    let finding = found(rt, gate, worker, problem, node)?;
    show_commit(rt, gate, worker, node, finding)
}
