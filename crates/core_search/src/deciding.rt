// How the node that the worker holds is settled.
ghost use Rattle.std.specs.Prelude.{◌≡◌, ◌≤◌, ◌+◌, [], max, map, None, IfOk, IfErr, OnOk, OnErr, IsErrOf, length};
ghost use Rattle.node_events.specs.declared.event.Event.TheVariants.{Cut};
ghost use Rattle.event_core.specs.States.{cutoff};
ghost use Rattle.expand.specs.Expansion.{IsExpansion, costs_after};
ghost use Rattle.expand.specs.Findings.{IsTrueFinding};
ghost use Rattle.expand.specs.Settlements.{IsSettlement, AreNewCuts};
ghost use Rattle.core_search.specs.Deciding.{IsLastLook, IsFinal, IsSameButCuts, KeepsToLimit};
ghost use Rattle.core_search.specs.OpenNodes.{IsOpenNode};
ghost use Rattle.core_search.specs.Pools.{PoolGoesOn, StaysSound, FailsBy};
ghost use Rattle.core_search.specs.Visits.{Makes, EndsNoNode, IsLook, IsDecision};
ghost use Rattle.core_search.specs.Workers.{IsPrepared};
ghost use Rattle.problem.specs.Limits.{most_cuts};

use crate::events::settle_node;
use crate::open_node::{OpenNode, node_conditions_hold};
use crate::worker::Worker;
use event_core::State;
use expand::{Finding, Mults, Settlement, Subproblem, expand, settle};
use node_pool::{CommitFault, Pool};
use outside::Disk;
use std::alloc::{AllocError, Global};

/// What is found of the node by what the state has now, with room for so many cuts. The one error is want of memory.
fn look(
    alloc: Global,
    state: &State,
    worker: &mut Worker,
    node: &OpenNode,
    room: usize,
) -> Result<Finding, AllocError>
    requires node { IsOpenNode state.now.state node.now }
    requires prepared { IsPrepared state.now.state worker.old }
    ensures holds { IfOk result (λ f. IsTrueFinding state.now.state.problem state.now.state.cuts node.now.area (cutoff state.now.state) f) }
    ensures found { IfOk result (λ f. IsExpansion state.now.state.problem state.now.state.cuts node.now.area (cutoff state.now.state) worker.new.costs room f) }
    ensures noted { OnOk result (worker.new.costs ≡ costs_after state.now.state.problem state.now.state.cuts node.now.area (cutoff state.now.state) node.now.origin worker.old.costs) }
    ensures last { IfOk result (λ f. IsLastLook room f) }
    ensures prepared { IsPrepared state.now.state worker.new }
    ensures limit { worker.new.limit ≡ worker.old.limit }
{
    node_conditions_hold(state, node);
    let subproblem = Subproblem {
        problem: state.problem(),
        book: state.book(),
        area: &node.area,
        cutoff: state.incumbent().cutoff(),
    };
    expand(
        alloc,
        &subproblem,
        &mut worker.relaxation,
        &mut worker.costs,
        node.origin,
        room,
    )
}

/// How what is found of the node settles it. The one error is want of memory.
fn settlement(
    alloc: Global,
    state: &State,
    worker: &mut Worker,
    node: &OpenNode,
    room: usize,
) -> Result<Settlement, AllocError>
    requires node { IsOpenNode state.now.state node.now }
    requires prepared { IsPrepared state.now.state worker.old }
    ensures legal { IfOk result (λ g. IsSettlement state.now.state node.now.area g) }
    ensures looked { IfOk result (λ g. IsLook worker.old.limit room state.now.state node.now worker.old.costs worker.new.costs g) }
    ensures last { IfOk result (λ g. IsFinal room g) }
    ensures limited { IfOk result (λ g. KeepsToLimit worker.old.limit state.now.state g) }
    ensures prepared { IsPrepared state.now.state worker.new }
    ensures limit { worker.new.limit ≡ worker.old.limit }
{
    let finding = look(alloc, state, worker, node, room)?;
    settle(alloc, finding, state, node.number, &node.area, worker.limit)
}

/// How the node is settled once cuts were made, of which no more are sought (docs/DECISIONS.md, entry 43). The one error is want of memory.
fn settle_again(
    alloc: Global,
    state: &State,
    worker: &mut Worker,
    node: &OpenNode,
) -> Result<Settlement, AllocError>
    requires node { IsOpenNode state.now.state node.now }
    requires costs { length worker.old.costs ≡ length state.now.state.problem.spans }
    requires limit { worker.old.limit ≤ most_cuts }
    ensures legal { IfOk result (λ g. IsSettlement state.now.state node.now.area g) }
    ensures looked { IfOk result (λ g. IsLook worker.old.limit 0 state.now.state node.now worker.old.costs worker.new.costs g) }
    ensures last { IfOk result (λ g. IsFinal 0 g) }
    ensures prepared { OnOk result (IsPrepared state.now.state worker.new) }
    ensures limit { worker.new.limit ≡ worker.old.limit }
{
    worker.prepare(alloc, state)?;
    settlement(alloc, state, worker, node, 0)
}

/// Makes cuts, all in one payload, if there are any. At an error none of them is made.
fn add_cuts<D: Disk>(
    alloc: Global,
    pool: &mut Pool<D>,
    node: u32,
    mults: Mults,
) -> Result<(), CommitFault>
    requires sound { pool.old.halt ≡ None }
    requires new { AreNewCuts pool.old.state.state mults }
    ensures goes_on { PoolGoesOn pool.old pool.new }
    ensures sound { OnOk result (StaysSound pool.old pool.new) }
    ensures faulty { IfErr result (λ f. FailsBy f pool.old pool.new) }
    ensures unspent { ¬ IsErrOf result CommitFault.Budget }
    ensures same { IsSameButCuts pool.old.state.state pool.new.state.state }
    ensures few { length pool.new.state.state.cuts ≤ length pool.old.state.state.cuts + length mults }
    ensures made { OnOk result (Makes (map Cut mults) pool.old.state pool.new.state) }
    ensures unmade { OnErr result (Makes [] pool.old.state pool.new.state) }
{
    if mults.is_empty() {
        return Ok(());
    }
    settle_node(alloc, pool, node, Settlement::Separated { mults })
}

/// Decides how the node that is held is settled. Where cuts are found, they are made first, and the node is looked at again. At an error the node is
/// held.
pub fn decide<D: Disk>(
    alloc: Global,
    pool: &mut Pool<D>,
    worker: &mut Worker,
    node: &OpenNode,
) -> Result<Settlement, CommitFault>
    requires sound { pool.old.halt ≡ None }
    requires node { IsOpenNode pool.old.state.state node.now }
    requires prepared { IsPrepared pool.old.state.state worker.old }
    ensures goes_on { PoolGoesOn pool.old pool.new }
    ensures sound { OnOk result (StaysSound pool.old pool.new) }
    ensures faulty { IfErr result (λ f. FailsBy f pool.old pool.new) }
    ensures unspent { ¬ IsErrOf result CommitFault.Budget }
    ensures same { IsSameButCuts pool.old.state.state pool.new.state.state }
    ensures legal { IfOk result (λ g. IsSettlement pool.new.state.state node.now.area g) }
    ensures decision { IfOk result (λ g. IsDecision worker.old.limit node.now pool.old.state pool.new.state worker.old.costs worker.new.costs g) }
    ensures unended { OnErr result (EndsNoNode pool.old.state pool.new.state) }
    ensures last { IfOk result (λ g. IsFinal 0 g) }
    ensures within_cuts { length pool.new.state.state.cuts ≤ max worker.old.limit (length pool.old.state.state.cuts) }
    ensures prepared { OnOk result (IsPrepared pool.new.state.state worker.new) }
    ensures limit { worker.new.limit ≡ worker.old.limit }
{
    let state = pool.state();
    let room = (worker.limit as usize).saturating_sub(state.book().len());
    let Ok(first) = settlement(alloc, state, worker, node, room) else {
        return Err(CommitFault::Memory);
    };
    let Settlement::Separated { mults } = first else {
        return Ok(first);
    };
    add_cuts(alloc, pool, node.number, mults)?;
    match settle_again(alloc, pool.state(), worker, node) {
        Ok(settlement) => Ok(settlement),
        Err(_) => Err(CommitFault::Memory),
    }
}
