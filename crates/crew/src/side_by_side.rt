//! Workers at gates of any kind, each in a thread of its own where one can be made.
ghost use Rattle.std.specs.Prelude.{◌≡◌, ◌<◌, length};
ghost use Rattle.crew.specs.Gates.{worker_at, IsReadyGate, EachAt, EachChange};
ghost use Rattle.crew.specs.Lists.{Worked, IsOver};

use crate::roster::Roster;
use crate::settings::Settings;
use crate::thread_count::threads_for;
use crate::worker_loop::work_beside;
use outside::Hold;
use problem::Problem;
use std::alloc::Global;
use std::sync::Wait;
use std::thread::{Threads, for_each_mut};
use worker_gate::PoolGate;

/// The worker of the gate at this place works.
fn work_at<G: PoolGate, R: Wait, H: Hold>(
    rt: &R,
    alloc: Global,
    index: usize,
    gate: &mut G,
    problem: &Problem,
    settings: &Settings,
    hold: &H,
    roster: &Roster,
)
    requires place { index < settings.now.workers }
    requires ready { IsReadyGate problem.now (worker_at settings.now.workers index) (G.worker gate.old) (G.seen gate.old) }
    ensures same { G.worker gate.new ≡ G.worker gate.old }
    ensures stays { G.home gate.new ≡ G.home gate.old }
    ensures worked { Worked (G.worker gate.old) (G.seen gate.old) (G.seen gate.new) }
    ensures over { IsOver (G.seen gate.new) }
{
    let number = settings.workers - 1 - index as u32;
    work_beside(rt, alloc, number, gate, problem, settings, hold, roster)
}

/// Each worker works at its gate, in a thread of its own where one can be made, else one after another. The gate of the worker of greatest number comes first, and that of worker 0 last.
pub(crate) fn work_each<G: PoolGate + Send, R: Threads + Wait + Sync, H: Hold + Sync>(
    rt: &R,
    alloc: Global,
    gates: &mut [G],
    problem: &Problem,
    settings: &Settings,
    hold: &H,
)
    requires some { 0 < settings.now.workers }
    requires count { length gates.old ≡ settings.now.workers }
    requires ready { EachAt (λ i g. IsReadyGate problem.now (worker_at settings.now.workers i) (G.worker g) (G.seen g)) gates.old }
    ensures same { EachChange (λ g h. G.worker h ≡ G.worker g) gates.old gates.new }
    ensures stays { EachChange (λ g h. G.home h ≡ G.home g) gates.old gates.new }
    ensures worked { EachChange (λ g h. Worked (G.worker g) (G.seen g) (G.seen h)) gates.old gates.new }
    ensures over { EachChange (λ g h. IsOver (G.seen h)) gates.old gates.new }
{
    let roster = Roster::new();
    let threads = threads_for(alloc, gates.len());
    for_each_mut(
        rt,
        gates,
        threads,
        &|index: usize, gate: &mut G| {
            work_at(rt, alloc, index, gate, problem, settings, hold, &roster)
        },
    );
}
