//! The loop of a worker.
ghost use Rattle.std.specs.Prelude.{◌≡◌, true};
ghost use Rattle.worker_gate.specs.Conditions.{HoldsNone};
ghost use Rattle.worker_gate.specs.Entries.{is_opened, state_in};
ghost use Rattle.crew.specs.Lists.{Worked, IsOver};
ghost use Rattle.crew.specs.WorkerSteps.{Takes, AreAllHeld};
ghost use Rattle.crew.specs.Workers.{Knows};

use crate::node_work::work_on;
use crate::pause::Pauses;
use crate::roster::Roster;
use crate::settings::Settings;
use crate::worker::Worker;
use node_pool::Claim;
use outside::Hold;
use problem::Problem;
use std::alloc::Global;
use std::sync::Wait;
use worker_gate::PoolGate;

/// What a worker got that claimed a node.
#[derive(Clone, Copy, Debug, PartialEq, Eq)]
pub enum Taken {
    /// This node, which the worker holds from now on.
    Node(u32),
    /// There are open nodes, and each is held.
    Idle,
    /// No node is open, or the pool is halted.
    Over,
}

/// What came of one round.
#[derive(Clone, Copy, Debug, PartialEq, Eq)]
pub(crate) enum Progress {
    /// A node was settled.
    Settled,
    /// Each open node was held by a worker.
    Idle,
    /// No node is open, or the pool is halted.
    Over,
}

/// Claims a node. Want of memory halts the pool.
pub(crate) fn take<R: Wait, G: PoolGate>(rt: &R, alloc: Global, gate: &mut G) -> Taken
    requires opened { is_opened (G.seen gate.old) ≡ true }
    requires none { HoldsNone (G.worker gate.old) (G.seen gate.old) }
    ensures same { G.worker gate.new ≡ G.worker gate.old }
    ensures stays { G.home gate.new ≡ G.home gate.old }
    ensures takes { Takes (G.worker gate.old) (G.seen gate.old) (G.seen gate.new) result }
{
    match gate.claim(rt, alloc) {
        Ok(Claim::Node(node)) => Taken::Node(node),
        Ok(Claim::Idle) => Taken::Idle,
        Ok(Claim::Done) => Taken::Over,
        Ok(Claim::Halted) => Taken::Over,
        Err(_) => {
            gate.halt(rt);
            Taken::Over
        }
    }
}

/// Claims a node and settles it.
fn round<R: Wait, G: PoolGate>(
    rt: &R,
    alloc: Global,
    gate: &mut G,
    problem: &Problem,
    worker: &mut Worker,
    limit: u32,
    pauses: &mut Pauses<'_>,
) -> Progress
    requires opened { is_opened (G.seen gate.old) ≡ true }
    requires none { HoldsNone (G.worker gate.old) (G.seen gate.old) }
    requires knows { Knows problem.now worker.old (state_in (G.seen gate.old)) }
    ensures same { G.worker gate.new ≡ G.worker gate.old }
    ensures stays { G.home gate.new ≡ G.home gate.old }
    ensures worked { Worked (G.worker gate.old) (G.seen gate.old) (G.seen gate.new) }
    ensures knows { (result ≡ Progress.Over → ⊥) → Knows problem.now worker.new (state_in (G.seen gate.new)) }
    ensures idle { result ≡ Progress.Idle → AreAllHeld (G.seen gate.new) }
    ensures over { result ≡ Progress.Over → IsOver (G.seen gate.new) }
{
    match take(rt, alloc, gate) {
        Taken::Node(node) => {
            pauses.claimed(gate.traffic());
            if work_on(rt, alloc, gate, problem, worker, node, limit) {
                Progress::Settled
            } else {
                Progress::Over
            }
        }
        Taken::Idle => Progress::Idle,
        Taken::Over => Progress::Over,
    }
}

/// Claims and settles nodes until no node is open or the pool is halted. A worker that finds each open node held waits for a moment, and claims again.
fn go_on<R: Wait, G: PoolGate, H: Hold>(
    rt: &R,
    alloc: Global,
    gate: &mut G,
    problem: &Problem,
    worker: &mut Worker,
    settings: &Settings,
    number: u32,
    hold: &H,
    roster: &Roster,
)
    requires number { G.worker gate.old ≡ number }
    requires opened { is_opened (G.seen gate.old) ≡ true }
    requires none { HoldsNone (G.worker gate.old) (G.seen gate.old) }
    requires knows { Knows problem.now worker.old (state_in (G.seen gate.old)) }
    ensures same { G.worker gate.new ≡ G.worker gate.old }
    ensures stays { G.home gate.new ≡ G.home gate.old }
    ensures worked { Worked (G.worker gate.old) (G.seen gate.old) (G.seen gate.new) }
    ensures over { IsOver (G.seen gate.new) }
{
    let mut pauses = Pauses::new(roster, settings.workers);
    pauses.begin(rt, &*gate);
    for _ in rt.forever() {
        hold.asks(number);
        match round(rt, alloc, gate, problem, worker, settings.cuts, &mut pauses) {
            Progress::Settled => pauses.settled(rt, &*gate),
            Progress::Idle => pauses.idle(rt, gate.traffic()),
            Progress::Over => return,
        }
    }
    unreachable!()
}

/// The loop of a worker over any gate, until no node is open or the pool is halted. The gate is that of the worker of this number, and the problem that
/// of the gate's pool.
///
/// Right before each claim the worker asks `hold`. It looks at its node outside the gate's calls, by its own copy of the cuts. Where it has no memory,
/// or its events are refused, it gives its node back and halts the pool. However it ends, it holds no node.
pub(crate) fn work_beside<R: Wait, G: PoolGate, H: Hold>(
    rt: &R,
    alloc: Global,
    number: u32,
    gate: &mut G,
    problem: &Problem,
    settings: &Settings,
    hold: &H,
    roster: &Roster,
)
    requires number { G.worker gate.old ≡ number }
    requires opened { is_opened (G.seen gate.old) ≡ true }
    requires problem { (state_in (G.seen gate.old)).problem ≡ problem.now }
    requires none { HoldsNone (G.worker gate.old) (G.seen gate.old) }
    ensures same { G.worker gate.new ≡ G.worker gate.old }
    ensures stays { G.home gate.new ≡ G.home gate.old }
    ensures worked { Worked (G.worker gate.old) (G.seen gate.old) (G.seen gate.new) }
    ensures over { IsOver (G.seen gate.new) }
{
    let Ok(mut worker) = Worker::new(alloc, problem) else {
        gate.halt(rt);
        roster.end();
        return;
    };
    go_on(
        rt,
        alloc,
        gate,
        problem,
        &mut worker,
        settings,
        number,
        hold,
        roster,
    );
    roster.end();
}

/// The loop of a worker over any gate, until no node is open or the pool is halted. The gate is that of the worker of this number, and the problem that
/// of the gate's pool.
///
/// Right before each claim the worker asks `hold`. It looks at its node outside the gate's calls, by its own copy of the cuts. Where it has no memory,
/// or its events are refused, it gives its node back and halts the pool. However it ends, it holds no node.
pub fn work<R: Wait, G: PoolGate, H: Hold>(
    rt: &R,
    alloc: Global,
    number: u32,
    gate: &mut G,
    problem: &Problem,
    settings: &Settings,
    hold: &H,
)
    requires number { G.worker gate.old ≡ number }
    requires opened { is_opened (G.seen gate.old) ≡ true }
    requires problem { (state_in (G.seen gate.old)).problem ≡ problem.now }
    requires none { HoldsNone (G.worker gate.old) (G.seen gate.old) }
    ensures same { G.worker gate.new ≡ G.worker gate.old }
    ensures stays { G.home gate.new ≡ G.home gate.old }
    ensures worked { Worked (G.worker gate.old) (G.seen gate.old) (G.seen gate.new) }
    ensures over { IsOver (G.seen gate.new) }
{
    let roster = Roster::new();
    work_beside(rt, alloc, number, gate, problem, settings, hold, &roster);
}
