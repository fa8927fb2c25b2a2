// What is done with a node that the worker holds: it is closed or split.
ghost use Rattle.std.specs.Prelude.{◌≡◌, ◌≤◌, ◌++◌, ◌∷◌, [], max, true, None, IfErr, OnOk, OnErr, IsErrOf, length};
ghost use Rattle.event_core.specs.States.{box_of};
ghost use Rattle.expand.specs.Settlements.{events_of, IsBranching, IsSettlement};
ghost use Rattle.core_search.specs.Holding.{IsHeldAlone};
ghost use Rattle.core_search.specs.OpenNodes.{IsOpenNode, AreOpenNodes, children};
ghost use Rattle.core_search.specs.Pools.{PoolGoesOn, StaysSound, FailsBy};
ghost use Rattle.core_search.specs.Processing.{EndsNode, IsClosing, IsExhausted};
ghost use Rattle.node_events.specs.declared.event.Event.TheVariants as event;
ghost use Rattle.core_search.specs.Visits.{Makes, EndsNoNode, IsSettledBy};
ghost use Rattle.core_search.specs.Workers.{IsPrepared};

use crate::deciding::decide;
use crate::events::settle_node;
use crate::open_node::{OpenNode, node_conditions_hold, push_children};
use crate::worker::Worker;
use expand::{Branching, Settlement};
use node_pool::{CommitFault, Pool};
use outside::Disk;
use std::alloc::Global;

/// Closes the node that is held, once its point is offered if it has one that is better than the incumbent, all in one payload. At an error it is held
/// still, and nothing is made.
fn close<D: Disk>(
    alloc: Global,
    pool: &mut Pool<D>,
    node: u32,
    settlement: Settlement,
) -> Result<(), CommitFault>
    requires sound { pool.old.halt ≡ None }
    requires held { IsHeldAlone pool.old.state.state node }
    requires closing { IsClosing settlement }
    requires legal { IsSettlement pool.old.state.state (box_of pool.old.state.state node) settlement }
    ensures goes_on { PoolGoesOn pool.old pool.new }
    ensures sound { OnOk result (StaysSound pool.old pool.new) }
    ensures faulty { IfErr result (λ f. FailsBy f pool.old pool.new) }
    ensures unspent { ¬ IsErrOf result CommitFault.Budget }
    ensures nodes { pool.new.state.state.nodes ≡ pool.old.state.state.nodes }
    ensures cuts { pool.new.state.state.cuts ≡ pool.old.state.state.cuts }
    ensures made { OnOk result (Makes (events_of node settlement) pool.old.state pool.new.state) }
    ensures unmade { OnErr result (Makes [] pool.old.state pool.new.state) }
{
    settle_node(alloc, pool, node, settlement)
}

/// Splits the node that is held. Where its two children would pass the budget, their boxes aren't made, and the pool is halted with the split. At an
/// error the node is held still.
fn split<D: Disk>(
    alloc: Global,
    pool: &mut Pool<D>,
    nodes: &mut Vec<OpenNode>,
    node: OpenNode,
    branching: Branching,
) -> Result<(), CommitFault>
    requires sound { pool.old.halt ≡ None }
    requires held { IsHeldAlone pool.old.state.state node.number }
    requires nodes { AreOpenNodes pool.old.state.state (nodes.old.items ++ node ∷ []) }
    requires branching { IsBranching pool.old.state.state node.area branching }
    ensures goes_on { PoolGoesOn pool.old pool.new }
    ensures sound { OnOk result (StaysSound pool.old pool.new) }
    ensures faulty { IfErr result (λ f. FailsBy f pool.old pool.new) }
    ensures spent { IsErrOf result CommitFault.Budget → IsExhausted pool.old.budget pool.old.state.state }
    ensures processed { OnOk result (EndsNode pool.old.budget pool.old.state.state (nodes.old.items ++ node ∷ []) pool.new.state.state nodes.new.items) }
    ensures unchanged { OnErr result (pool.new.state.state ≡ pool.old.state.state) }
    ensures cuts { pool.new.state.state.cuts ≡ pool.old.state.state.cuts }
    ensures within_budget { length pool.new.state.state.nodes ≤ max pool.old.budget (length pool.old.state.state.nodes) }
    ensures made { OnOk result (Makes (event.Split node.number branching.place.column branching.place.bound branching.reason ∷ []) pool.old.state pool.new.state) }
    ensures grown { OnOk result (nodes.new.items ≡ nodes.old.items ++ children (length pool.old.state.state.nodes) node.area branching.place.column branching.place.bound branching.value) }
    ensures unended { OnErr result (EndsNoNode pool.old.state pool.new.state) }
{
    node_conditions_hold(pool.state(), &node);
    pool.history_holds();
    let number = pool.state().tree().len();
    let place = branching.place;
    let value = branching.value;
    let settlement = Settlement::Branched { branching };
    if (pool.budget() as usize).saturating_sub(number) < 2 {
        return settle_node(alloc, pool, node.number, settlement);
    }
    let Ok(()) = push_children(alloc, nodes, number as u32, node.area, place, value) else {
        return Err(CommitFault::Memory);
    };
    settle_node(alloc, pool, node.number, settlement)
}

/// Closes or splits the node that is held. Cuts that are found are made first. At an error the node is held still.
pub fn process<D: Disk>(
    alloc: Global,
    pool: &mut Pool<D>,
    worker: &mut Worker,
    nodes: &mut Vec<OpenNode>,
    node: OpenNode,
) -> Result<(), CommitFault>
    requires sound { pool.old.halt ≡ None }
    requires prepared { IsPrepared pool.old.state.state worker.old }
    requires held { IsHeldAlone pool.old.state.state node.number }
    requires nodes { AreOpenNodes pool.old.state.state (nodes.old.items ++ node ∷ []) }
    ensures goes_on { PoolGoesOn pool.old pool.new }
    ensures sound { OnOk result (StaysSound pool.old pool.new) }
    ensures faulty { IfErr result (λ f. FailsBy f pool.old pool.new) }
    ensures spent { IsErrOf result CommitFault.Budget → IsExhausted pool.old.budget pool.new.state.state }
    ensures processed { OnOk result (EndsNode pool.old.budget pool.old.state.state (nodes.old.items ++ node ∷ []) pool.new.state.state nodes.new.items) }
    ensures failed { OnErr result (IsHeldAlone pool.new.state.state node.number) }
    ensures within_budget { length pool.new.state.state.nodes ≤ max pool.old.budget (length pool.old.state.state.nodes) }
    ensures within_cuts { length pool.new.state.state.cuts ≤ max worker.old.limit (length pool.old.state.state.cuts) }
    ensures prepared { OnOk result (IsPrepared pool.new.state.state worker.new) }
    ensures limit { worker.new.limit ≡ worker.old.limit }
    ensures settled { OnOk result (IsSettledBy worker.old.limit node worker.old.costs worker.new.costs nodes.old.items nodes.new.items pool.old.state pool.new.state) }
    ensures unended { OnErr result (EndsNoNode pool.old.state pool.new.state) }
{
    match decide(alloc, pool, worker, &node)? {
        Settlement::Branched { branching } => split(alloc, pool, nodes, node, branching),
        Settlement::Separated { .. } => unreachable!(),
        settlement => close(alloc, pool, node.number, settlement),
    }
}
