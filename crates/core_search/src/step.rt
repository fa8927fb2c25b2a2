// One step of the search: a node is claimed, and closed or split, or else released.
ghost use Rattle.std.specs.Prelude.{◌≡◌, ◌≤◌, ◌<◌, ◌++◌, ◌∷◌, [], max, None, IfNone, IfSome, length};
ghost use Rattle.outside.specs.Faults.{Counts};
ghost use Rattle.core_search.specs.OpenNodes.{AreOpenNodes, work_left};
ghost use Rattle.core_search.specs.Pools.{PoolGoesOn, StaysSound, IsFaultHalt, IsHaltOf, ending_of, is_disk};
ghost use Rattle.core_search.specs.Processing.{IsEnding};
ghost use Rattle.core_search.specs.Visits.{EndsNoNode, Visits};
ghost use Rattle.core_search.specs.Workers.{IsPrepared};

use crate::events::{claim_node, release};
use crate::node_loop::Ending;
use crate::open_node::OpenNode;
use crate::process::process;
use crate::worker::Worker;
use node_pool::{CommitFault, Pool};
use outside::Disk;
use std::alloc::Global;

/// How the search ends by a fault. At want of memory the pool is halted; at the others it is halted already.
fn end_by<D: Disk>(pool: &mut Pool<D>, fault: CommitFault) -> Ending
    requires { IsFaultHalt fault pool.old.halt }
    ensures ending { result ≡ ending_of fault }
    ensures halt { IsHaltOf result pool.new.halt }
    ensures goes_on { PoolGoesOn pool.old pool.new }
    ensures state { pool.new.state ≡ pool.old.state }
    ensures journal { pool.new.journal ≡ pool.old.journal }
{
    match fault {
        CommitFault::Disk => Ending::Disk,
        CommitFault::Budget => Ending::Spent,
        CommitFault::Memory => {
            pool.halt();
            Ending::Memory
        }
        CommitFault::Halted => unreachable!(),
    }
}

/// Claims the open node of greatest number, and closes it or splits it. Where it can't, it releases the node, and says how the search ends.
pub fn step<D: Disk>(
    alloc: Global,
    pool: &mut Pool<D>,
    worker: &mut Worker,
    nodes: &mut Vec<OpenNode>,
    node: OpenNode,
) -> Option<Ending>
    requires sound { pool.old.halt ≡ None }
    requires prepared { IsPrepared pool.old.state.state worker.old }
    requires unheld { pool.old.state.state.holds ≡ [] }
    requires nodes { AreOpenNodes pool.old.state.state (nodes.old.items ++ node ∷ []) }
    ensures goes_on { PoolGoesOn pool.old pool.new }
    ensures unheld { pool.new.state.state.holds ≡ [] }
    ensures within_budget { length pool.new.state.state.nodes ≤ max pool.old.budget (length pool.old.state.state.nodes) }
    ensures within_cuts { length pool.new.state.state.cuts ≤ max worker.old.limit (length pool.old.state.state.cuts) }
    ensures sound { IfNone result (StaysSound pool.old pool.new) }
    ensures nodes { IfNone result (AreOpenNodes pool.new.state.state nodes.new.items) }
    ensures less { IfNone result (work_left pool.old.budget pool.new.state.state nodes.new.items < work_left pool.old.budget pool.old.state.state (nodes.old.items ++ node ∷ [])) }
    ensures prepared { IfNone result (IsPrepared pool.new.state.state worker.new) }
    ensures limit { worker.new.limit ≡ worker.old.limit }
    ensures ended { IfSome result (λ e. IsEnding pool.old.budget e pool.new.state.state) }
    ensures halted { IfSome result (λ e. IsHaltOf e pool.new.halt) }
    ensures cause { IfSome result (λ e. Counts (D.count pool.old.journal.disk) (D.count pool.new.journal.disk) (is_disk e)) }
    ensures visited { IfNone result (Visits worker.old.limit node worker.old.costs worker.new.costs nodes.old.items nodes.new.items pool.old.state pool.new.state) }
    ensures broken_off { IfSome result (λ e. EndsNoNode pool.old.state pool.new.state) }
{
    let number = node.number;
    let Ok(()) = claim_node(alloc, pool, number) else {
        return Some(end_by(pool, CommitFault::Memory));
    };
    match process(alloc, pool, worker, nodes, node) {
        Ok(()) => None,
        Err(fault) => {
            release(pool, number);
            Some(end_by(pool, fault))
        }
    }
}
