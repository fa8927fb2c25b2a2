// The search, node by node.
ghost use Rattle.std.specs.Prelude.{◌≡◌, ◌<◌, ◌≤◌, ◌++◌, ◌∷◌, [], max, true, None, length};
ghost use Rattle.outside.specs.Faults.{Counts};
ghost use Rattle.node_journal.specs.History.{ExtendsMoments};
ghost use Rattle.node_journal.specs.Whole.{payloads_in};
ghost use Rattle.event_core.specs.States.{open_count};
ghost use Rattle.node_pool.specs.Payloads.{model_in};
ghost use Rattle.core_search.specs.Endings.{IsSpent, HasSplitNext};
ghost use Rattle.core_search.specs.Entries.{ExtendsHistory};
ghost use Rattle.core_search.specs.Pools.{IsHaltOf, is_disk};
ghost use Rattle.problem.specs.Limits.{most_cuts};
ghost use Rattle.core_search.specs.Visits.{SearchesNodes};

use crate::open_node::open_nodes;
use crate::step::step;
use crate::worker::Worker;
use node_pool::Pool;
use outside::Disk;
use std::alloc::Global;

/// How a search ends.
#[derive(Clone, Copy, Debug, PartialEq, Eq)]
pub enum Ending {
    /// No node is open.
    Finished,
    /// The open node of greatest number admits a split, and its two children would pass the pool's budget. The pool is halted with this split.
    Spent,
    /// The disk failed, and counted it. The pool is halted.
    Disk,
    /// There was no memory for the next event. This may come at any time. The pool is halted.
    Memory,
}

/// Searches on as worker 0 over a pool, as several workers do (docs/DECISIONS.md, entry 49), with at most `cuts` cuts, or with those that are there
/// already. The pool's budget says how many nodes the tree may have.
///
/// The open node of greatest number is next. The verdict on its box closes it, or leaves its one point, which becomes the incumbent. Else the linear
/// program over its box with all cuts does: it is infeasible, or its bound reaches the cutoff, or its optimum is whole and becomes the incumbent. A
/// fractional optimum is separated once; the cuts that are found are made, and the node is looked at again. Then it is split in the column of
/// greatest pseudo-costs. Where the run is cramped or stalled, it is split in the middle of its first free column. However the search ends, nobody
/// holds a node then.
pub fn search<D: Disk>(alloc: Global, pool: &mut Pool<D>, cuts: u32) -> Ending
    requires few_cuts { cuts ≤ most_cuts }
    requires unheld { pool.old.state.state.holds ≡ [] }
    requires sound { pool.old.halt ≡ None }

    // Each event is legal, as it is in each state's history; here it is one of worker 0, and a claim is of the open node of greatest number.
    ensures goes_on { ExtendsHistory pool.old.state pool.new.state }
    // Each node that ends was looked at with the room that was left for cuts.
    ensures visits { SearchesNodes cuts pool.old.state pool.new.state }
    ensures problem { pool.new.state.state.problem ≡ pool.old.state.state.problem }
    ensures unheld { pool.new.state.state.holds ≡ [] }
    ensures within_budget { length pool.new.state.state.nodes ≤ max pool.old.budget (length pool.old.state.state.nodes) }
    ensures within_cuts { length pool.new.state.state.cuts ≤ max cuts (length pool.old.state.state.cuts) }

    ensures finished { result ≡ Ending.Finished → (open_count pool.new.state.state ≡ 0) × (pool.new.halt ≡ None) }
    ensures spent { result ≡ Ending.Spent → IsSpent pool.old.budget pool.new.state.state }
    ensures next { result ≡ Ending.Spent → HasSplitNext pool.new.state.state }
    ensures left { result ≡ Ending.Spent → 0 < open_count pool.new.state.state }
    ensures halted { IsHaltOf result pool.new.halt }

    ensures continued { D.tells ≡ true → ExtendsMoments (D.past pool.old.journal.disk ++ D.now pool.old.journal.disk ∷ []) (D.past pool.new.journal.disk ++ D.now pool.new.journal.disk ∷ []) }
    ensures model { D.tells ≡ true → model_in (payloads_in (D.now pool.new.journal.disk)) ≡ model_in (payloads_in (D.now pool.old.journal.disk)) }
    ensures opened { pool.new.journal.opened ≡ pool.old.journal.opened }
    ensures budget { pool.new.budget ≡ pool.old.budget }
    ensures faults { pool.new.faults ≡ pool.old.faults }
    // The count of faults rises exactly where the ending is `Disk`.
    ensures cause { Counts (D.count pool.old.journal.disk) (D.count pool.new.journal.disk) (is_disk result) }
{
    let Ok(mut nodes) = open_nodes(alloc, pool.state()) else {
        pool.halt();
        return Ending::Memory;
    };
    let Ok(mut worker) = Worker::new(alloc, pool.state(), cuts) else {
        pool.halt();
        return Ending::Memory;
    };
    while let Some(node) = nodes.pop() {
        if let Some(ending) = step(alloc, pool, &mut worker, &mut nodes, node) {
            return ending;
        }
    }
    Ending::Finished
}
