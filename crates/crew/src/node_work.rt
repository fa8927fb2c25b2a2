//! What a worker does with the node that it holds.
ghost use Rattle.std.specs.Prelude.{◌≡◌, ◌-◌, true, false, IfOk, OnOk, length};
ghost use Rattle.event_core.specs.States.{is_open, box_of, cutoff};
ghost use Rattle.expand.specs.Expansion.{IsExpansion};
ghost use Rattle.worker_gate.specs.Conditions.{HoldsNode, IsFound};
ghost use Rattle.worker_gate.specs.Entries.{is_opened, state_in};
ghost use Rattle.core_search.specs.Deciding.{IsLastLook};
ghost use Rattle.crew.specs.Lists.{IsHolding, Worked, IsOver};
ghost use Rattle.crew.specs.Origins.{MayNote};
ghost use Rattle.crew.specs.WorkerSteps.{Leaves, step_of};
ghost use Rattle.crew.specs.Workers.{IsViewOf, IsNodeOf, Knows};

use crate::node_view::NodeView;
use crate::worker::Worker;
use expand::Finding;
use problem::Problem;
use std::alloc::{AllocError, Global};
use std::sync::Wait;
use worker_gate::{Glance, PoolGate};

/// What came of a look at a node.
#[derive(Clone, Copy, Debug, PartialEq, Eq)]
pub enum Step {
    /// The node was closed or split: the worker holds none.
    Ended,
    /// Cuts were made, or there was no room for them: the worker holds the node still.
    Separated,
    /// There was no memory, or the pool takes no more events: the worker holds the node still.
    Refused,
}

/// What the gate tells of the worker's node. The worker learns the cuts that came since it last asked, so that it knows them all. The one error is want
/// of memory.
fn view<R: Wait, G: PoolGate>(
    rt: &R,
    alloc: Global,
    gate: &mut G,
    problem: &Problem,
    worker: &mut Worker,
    node: u32,
) -> Result<NodeView, AllocError>
    requires opened { is_opened (G.seen gate.old) ≡ true }
    requires holds { HoldsNode (G.worker gate.old) node (G.seen gate.old) }
    requires knows { Knows problem.now worker.old (state_in (G.seen gate.old)) }
    ensures same { G.worker gate.new ≡ G.worker gate.old }
    ensures stays { G.home gate.new ≡ G.home gate.old }
    ensures holding { IsHolding (G.worker gate.old) node (G.seen gate.old) (G.seen gate.new) }
    ensures view { IfOk result (λ v. IsViewOf (state_in (G.seen gate.new)) node v) }
    ensures node { IfOk result (λ v. IsNodeOf problem.now v) }
    ensures all { OnOk result (worker.new.book.cuts ≡ (state_in (G.seen gate.new)).cuts) }
    ensures knows { OnOk result (Knows problem.now worker.new (state_in (G.seen gate.new))) }
    ensures splits { worker.new.splits ≡ worker.old.splits }
{
    problem.limits_hold();
    let Glance {
        cuts,
        cutoff,
        area,
        branch,
    } = gate.glance(rt, alloc, node, worker.book.len())?;
    worker.learn(alloc, problem, cuts)?;
    Ok(NodeView {
        area,
        cutoff,
        branch,
    })
}

/// What is found of the worker's node by all cuts that there are, with room for as many as keep to the limit. The one error is want of memory.
pub(crate) fn find<R: Wait, G: PoolGate>(
    rt: &R,
    alloc: Global,
    gate: &mut G,
    problem: &Problem,
    worker: &mut Worker,
    node: u32,
    limit: u32,
) -> Result<Finding, AllocError>
    requires opened { is_opened (G.seen gate.old) ≡ true }
    requires holds { HoldsNode (G.worker gate.old) node (G.seen gate.old) }
    requires knows { Knows problem.now worker.old (state_in (G.seen gate.old)) }
    ensures same { G.worker gate.new ≡ G.worker gate.old }
    ensures stays { G.home gate.new ≡ G.home gate.old }
    ensures holding { IsHolding (G.worker gate.old) node (G.seen gate.old) (G.seen gate.new) }
    ensures expanded { IfOk result (λ f. IsExpansion problem.now (state_in (G.seen gate.new)).cuts (box_of (state_in (G.seen gate.new)) node) (cutoff (state_in (G.seen gate.new))) worker.new.costs (limit - length (state_in (G.seen gate.new)).cuts) f) }
    ensures found { IfOk result (λ f. IsFound node f (G.seen gate.new)) }
    ensures last { IfOk result (λ f. IsLastLook limit f) }
    ensures knows { OnOk result (Knows problem.now worker.new (state_in (G.seen gate.new))) }
    ensures noted { IfOk result (λ f. MayNote worker.old.splits worker.new.splits node f) }
{
    let view = view(rt, alloc, gate, problem, worker, node)?;
    let room = (limit as usize).saturating_sub(worker.book.len());
    let finding = worker.look(alloc, problem, &view, room)?;
    worker.splits.note(node, &finding);
    Ok(finding)
}

/// What comes of a look with this finding, once it is committed.
fn step_of(finding: &Finding) -> Step
    ensures { result ≡ step_of finding.now }
{
    match finding {
        Finding::Cuts { .. } => Step::Separated,
        _ => Step::Ended,
    }
}

/// Commits what was found of the worker's node.
fn commit<R: Wait, G: PoolGate>(
    rt: &R,
    alloc: Global,
    gate: &mut G,
    node: u32,
    finding: Finding,
) -> Step
    requires opened { is_opened (G.seen gate.old) ≡ true }
    requires holds { HoldsNode (G.worker gate.old) node (G.seen gate.old) }
    requires found { IsFound node finding (G.seen gate.old) }
    ensures same { G.worker gate.new ≡ G.worker gate.old }
    ensures stays { G.home gate.new ≡ G.home gate.old }
    ensures leaves { Leaves (G.worker gate.old) node (G.seen gate.old) (G.seen gate.new) result }
    ensures step { result ≡ Step.Separated → step_of finding ≡ Step.Separated }
{
    let step = step_of(&finding);
    match gate.commit(rt, alloc, node, finding) {
        Ok(_) => step,
        Err(_) => Step::Refused,
    }
}

/// Looks at the worker's node once, with room for as many cuts as keep to the limit, and commits what is found.
fn settle_once<R: Wait, G: PoolGate>(
    rt: &R,
    alloc: Global,
    gate: &mut G,
    problem: &Problem,
    worker: &mut Worker,
    node: u32,
    limit: u32,
) -> Step
    requires opened { is_opened (G.seen gate.old) ≡ true }
    requires holds { HoldsNode (G.worker gate.old) node (G.seen gate.old) }
    requires knows { Knows problem.now worker.old (state_in (G.seen gate.old)) }
    ensures same { G.worker gate.new ≡ G.worker gate.old }
    ensures stays { G.home gate.new ≡ G.home gate.old }
    ensures leaves { Leaves (G.worker gate.old) node (G.seen gate.old) (G.seen gate.new) result }
    ensures knows { (result ≡ Step.Refused → ⊥) → Knows problem.now worker.new (state_in (G.seen gate.new)) }
    ensures last { limit ≡ 0 → result ≡ Step.Separated → ⊥ }
{
    match find(rt, alloc, gate, problem, worker, node, limit) {
        Ok(finding) => commit(rt, alloc, gate, node, finding),
        Err(_) => Step::Refused,
    }
}

/// Settles the worker's node. Where cuts are made it is looked at once more, with all cuts that there are then, and without room no more are sought.
fn settle<R: Wait, G: PoolGate>(
    rt: &R,
    alloc: Global,
    gate: &mut G,
    problem: &Problem,
    worker: &mut Worker,
    node: u32,
    limit: u32,
) -> Step
    requires opened { is_opened (G.seen gate.old) ≡ true }
    requires holds { HoldsNode (G.worker gate.old) node (G.seen gate.old) }
    requires knows { Knows problem.now worker.old (state_in (G.seen gate.old)) }
    ensures same { G.worker gate.new ≡ G.worker gate.old }
    ensures stays { G.home gate.new ≡ G.home gate.old }
    ensures leaves { Leaves (G.worker gate.old) node (G.seen gate.old) (G.seen gate.new) result }
    ensures knows { (result ≡ Step.Refused → ⊥) → Knows problem.now worker.new (state_in (G.seen gate.new)) }
    ensures ended { result ≡ Step.Separated → ⊥ }
{
    match settle_once(rt, alloc, gate, problem, worker, node, limit) {
        Step::Separated => settle_once(rt, alloc, gate, problem, worker, node, 0),
        Step::Ended => Step::Ended,
        Step::Refused => Step::Refused,
    }
}

/// The worker can't go on: it gives its node back and halts the pool. This takes no memory.
fn give_up<R: Wait, G: PoolGate>(rt: &R, gate: &mut G, node: u32)
    requires opened { is_opened (G.seen gate.old) ≡ true }
    requires holds { HoldsNode (G.worker gate.old) node (G.seen gate.old) }
    ensures same { G.worker gate.new ≡ G.worker gate.old }
    ensures stays { G.home gate.new ≡ G.home gate.old }
    ensures worked { Worked (G.worker gate.old) (G.seen gate.old) (G.seen gate.new) }
    ensures over { IsOver (G.seen gate.new) }
{
    gate.release(rt, node);
    gate.halt(rt);
}

/// Settles the worker's node, and answers whether the worker goes on. Where it doesn't, the node was given back, and the pool is halted.
pub(crate) fn work_on<R: Wait, G: PoolGate>(
    rt: &R,
    alloc: Global,
    gate: &mut G,
    problem: &Problem,
    worker: &mut Worker,
    node: u32,
    limit: u32,
) -> bool
    requires opened { is_opened (G.seen gate.old) ≡ true }
    requires holds { HoldsNode (G.worker gate.old) node (G.seen gate.old) }
    requires knows { Knows problem.now worker.old (state_in (G.seen gate.old)) }
    ensures same { G.worker gate.new ≡ G.worker gate.old }
    ensures stays { G.home gate.new ≡ G.home gate.old }
    ensures worked { Worked (G.worker gate.old) (G.seen gate.old) (G.seen gate.new) }
    ensures ended { result ≡ true → is_open (state_in (G.seen gate.new)) node ≡ false }
    ensures knows { result ≡ true → Knows problem.now worker.new (state_in (G.seen gate.new)) }
    ensures over { result ≡ false → IsOver (G.seen gate.new) }
{
    match settle(rt, alloc, gate, problem, worker, node, limit) {
        Step::Ended => true,
        Step::Separated => unreachable!(),
        Step::Refused => {
            give_up(rt, gate, node);
            false
        }
    }
}
