// Events of the worker that searches.
ghost use Rattle.std.specs.Prelude.{◌≡◌, ◌<◌, [], ◌∷◌, true, false, Some, None, OnOk, OnErr, IfErr, IsErrOf, length};
ghost use Rattle.event_core.specs.States.{is_open};
ghost use Rattle.event_core.specs.After.{after_claim};
ghost use Rattle.event_core.specs.Histories.{AreLegalFrom};
ghost use Rattle.event_core.specs.Laws.{unheld};
ghost use Rattle.expand.specs.Laws.{entries_of, FitOnePayload};
ghost use Rattle.expand.specs.Settlements.{events_of};
ghost use Rattle.node_pool.specs.Halting.{spends};
ghost use Rattle.core_search.specs.Entries.{IsGreatest};
ghost use Rattle.core_search.specs.Holding.{IsHeldAlone};
ghost use Rattle.node_events.specs.declared.event.Event.TheVariants as event;
ghost use Rattle.core_search.specs.Pools.{PoolGoesOn, StaysSound, FailsBy};
ghost use Rattle.core_search.specs.Visits.{EndsNoNode, Makes};

use expand::Settlement;
use node_pool::{Claim, CommitFault, Pool};
use outside::Disk;
use std::alloc::{AllocError, Global};

/// The worker that searches.
const WORKER: u32 = 0;

/// Claims the open node of greatest number, which is this one. The one error is want of memory; the state stays then.
pub fn claim_node<D: Disk>(alloc: Global, pool: &mut Pool<D>, node: u32) -> Result<(), AllocError>
    requires sound { pool.old.halt ≡ None }
    requires unheld { pool.old.state.state.holds ≡ [] }
    requires opened { is_open pool.old.state.state node ≡ true }
    requires greatest { IsGreatest pool.old.state.state node }
    ensures goes_on { PoolGoesOn pool.old pool.new }
    ensures sound { StaysSound pool.old pool.new }
    ensures claimed { OnOk result (pool.new.state.state ≡ after_claim pool.old.state.state (Some 0) node) }
    ensures failed { OnErr result (pool.new.state.state ≡ pool.old.state.state) }
    ensures made { OnOk result (Makes (event.Claim node ∷ []) pool.old.state pool.new.state) }
    ensures unended { EndsNoNode pool.old.state pool.new.state }
{
    pool.ready(alloc)?;
    match pool.claim(WORKER) {
        Claim::Node(claimed) => {
            prove!(claimed == node);
            Ok(())
        }
        Claim::Idle | Claim::Done | Claim::Halted => unreachable!(),
    }
}

/// Makes the events that settle a node, all in one payload of the journal. At an error none of them is made. The error is `Budget` only where there is a
/// split that passes the budget, and there no event is made.
pub fn settle_node<D: Disk>(
    alloc: Global,
    pool: &mut Pool<D>,
    node: u32,
    settlement: Settlement,
) -> Result<(), CommitFault>
    requires sound { pool.old.halt ≡ None }
    requires some { 0 < length (events_of node settlement) }
    requires legal { AreLegalFrom pool.old.state.state (entries_of 0 (events_of node settlement)) }
    requires fits { FitOnePayload (events_of node settlement) }
    ensures goes_on { PoolGoesOn pool.old pool.new }
    ensures sound { OnOk result (StaysSound pool.old pool.new) }
    ensures faulty { IfErr result (λ f. FailsBy f pool.old pool.new) }
    ensures spent { IsErrOf result CommitFault.Budget → spends pool.old.budget (length pool.old.state.state.nodes) (events_of node settlement) ≡ true }
    ensures within { OnOk result (spends pool.old.budget (length pool.old.state.state.nodes) (events_of node settlement) ≡ false) }
    ensures made { OnOk result (Makes (events_of node settlement) pool.old.state pool.new.state) }
    ensures unmade { OnErr result (Makes [] pool.old.state pool.new.state) }
{
    let Ok(events) = settlement.into_events(alloc, node) else {
        return Err(CommitFault::Memory);
    };
    match pool.commit_all(alloc, WORKER, events) {
        Ok(_) => Ok(()),
        Err(fault) => Err(fault),
    }
}

/// Releases the node that the worker holds. This takes no memory.
pub fn release<D: Disk>(pool: &mut Pool<D>, node: u32)
    requires { IsHeldAlone pool.old.state.state node }
    ensures goes_on { PoolGoesOn pool.old pool.new }
    ensures released { pool.new.state.state ≡ unheld pool.old.state.state }
    ensures journal { pool.new.journal ≡ pool.old.journal }
    ensures halt { pool.new.halt ≡ pool.old.halt }
    ensures made { Makes (event.Release node ∷ []) pool.old.state pool.new.state }
{
    pool.release(WORKER, node);
}
