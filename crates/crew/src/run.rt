//! A search by several workers.
ghost use Rattle.std.specs.Prelude.{◌≡◌, ◌⊎◌, ◌<◌, ◌≤◌, ◌++◌, ◌∷◌, [], max, true, None, IsSome, length};
ghost use Rattle.outside.specs.Faults.{Counts};
ghost use Rattle.node_journal.specs.History.{ExtendsMoments};
ghost use Rattle.node_journal.specs.Whole.{payloads_in};
ghost use Rattle.event_core.specs.States.{open_count};
ghost use Rattle.node_pool.specs.Payloads.{model_in};
ghost use Rattle.core_search.specs.Endings.{IsSpent};
ghost use Rattle.core_search.specs.Pools.{IsHaltOf, is_disk};
ghost use Rattle.crew.specs.Runs.{CrewExtends, IsSearched};
ghost use Rattle.problem.specs.Limits.{most_cuts};

use crate::settings::Settings;
use crate::threads::work_under_lock;
use core_search::Ending;
use node_pool::{Halt, Pool};
use outside::{Disk, Hold};
use problem::Problem;
use std::alloc::Global;
use std::sync::Wait;
use std::thread::Threads;
use worker_gate::Kin;

/// How the search of a pool ended that is halted, or has no open node.
fn ending_of<D: Disk>(pool: &Pool<D>) -> Ending
    requires over { IsSome pool.now.halt ⊎ (open_count pool.now.state.state ≡ 0) }
    requires unheld { pool.now.state.state.holds ≡ [] }
    ensures finished { result ≡ Ending.Finished → (open_count pool.now.state.state ≡ 0) × (pool.now.halt ≡ None) }
    ensures spent { result ≡ Ending.Spent → IsSpent pool.now.budget pool.now.state.state }
    ensures left { result ≡ Ending.Spent → 0 < open_count pool.now.state.state }
    ensures halted { IsHaltOf result pool.now.halt }
    ensures cause { Counts pool.now.faults (D.count pool.now.journal.disk) (is_disk result) }
{
    pool.history_holds();
    match pool.halted() {
        None => Ending::Finished,
        Some(Halt::Memory) => Ending::Memory,
        Some(Halt::Disk { .. }) => Ending::Disk,
        Some(Halt::Budget { .. }) => Ending::Spent,
    }
}

/// The pool, halted for want of memory.
fn halt<D: Disk>(pool: Pool<D>, _settings: &Settings) -> Pool<D>
    requires unheld { pool.state.state.holds ≡ [] }
    requires sound { pool.halt ≡ None }
    ensures { IsSearched _settings.now.workers _settings.now.cuts pool result }
{
    let mut pool = pool;
    pool.halt();
    pool
}

/// The pool of this problem, in which the workers searched on.
fn search_in<D: Disk + Send, R: Threads + Wait + Sync, H: Hold + Sync>(
    rt: &R,
    alloc: Global,
    pool: Pool<D>,
    problem: &Problem,
    settings: &Settings,
    hold: &H,
) -> Pool<D>
    requires some_workers { 1 ≤ settings.now.workers }
    requires few_cuts { settings.now.cuts ≤ most_cuts }
    requires unheld { pool.state.state.holds ≡ [] }
    requires sound { pool.halt ≡ None }
    requires problem { problem.now ≡ pool.state.state.problem }
    ensures { IsSearched settings.now.workers settings.now.cuts pool result }
{
    let kin = Kin::make(pool, settings.cuts, settings.workers);
    let kin = work_under_lock(rt, alloc, kin, problem, settings, hold);
    kin.into_pool()
}

/// The pool, in which the workers searched on. Want of memory halts it.
fn search_on<D: Disk + Send, R: Threads + Wait + Sync, H: Hold + Sync>(
    rt: &R,
    alloc: Global,
    pool: Pool<D>,
    settings: &Settings,
    hold: &H,
) -> Pool<D>
    requires some_workers { 1 ≤ settings.now.workers }
    requires few_cuts { settings.now.cuts ≤ most_cuts }
    requires unheld { pool.state.state.holds ≡ [] }
    requires sound { pool.halt ≡ None }
    ensures { IsSearched settings.now.workers settings.now.cuts pool result }
{
    let problem = pool.state().problem().copy(alloc);
    match problem {
        Ok(problem) => search_in(rt, alloc, pool, &problem, settings, hold),
        Err(_) => halt(pool, settings),
    }
}

/// Searches on by several workers, each in a thread of its own where one can be made, with at most `settings.cuts` cuts, or with those that are there
/// already. The pool's budget says how many nodes the tree may have.
///
/// What is found of a node, and how it is settled, is as in `core_search::search`; which node a worker gets, and in which order the workers come,
/// is left open. Right before each claim a worker asks `hold`. However the search ends, nobody holds a node then.
pub fn run_crew<D: Disk + Send, R: Threads + Wait + Sync, H: Hold + Sync>(
    rt: &R,
    alloc: Global,
    pool: Pool<D>,
    settings: &Settings,
    hold: &H,
) -> (Ending, Pool<D>)
    requires some_workers { 1 ≤ settings.now.workers }
    requires few_cuts { settings.now.cuts ≤ most_cuts }
    requires unheld { pool.state.state.holds ≡ [] }
    requires sound { pool.halt ≡ None }

    // Each event is legal, as it is in each state's history; here it is one of the workers'.
    ensures goes_on { CrewExtends settings.now.workers pool.state result.1.state }
    ensures problem { result.1.state.state.problem ≡ pool.state.state.problem }
    ensures unheld { result.1.state.state.holds ≡ [] }
    ensures within_budget { length result.1.state.state.nodes ≤ max pool.budget (length pool.state.state.nodes) }
    ensures within_cuts { length result.1.state.state.cuts ≤ max settings.now.cuts (length pool.state.state.cuts) }

    ensures finished { result.0 ≡ Ending.Finished → (open_count result.1.state.state ≡ 0) × (result.1.halt ≡ None) }
    ensures spent { result.0 ≡ Ending.Spent → IsSpent pool.budget result.1.state.state }
    ensures left { result.0 ≡ Ending.Spent → 0 < open_count result.1.state.state }
    ensures halted { IsHaltOf result.0 result.1.halt }

    ensures continued { D.tells ≡ true → ExtendsMoments (D.past pool.journal.disk ++ D.now pool.journal.disk ∷ []) (D.past result.1.journal.disk ++ D.now result.1.journal.disk ∷ []) }
    ensures model { D.tells ≡ true → model_in (payloads_in (D.now result.1.journal.disk)) ≡ model_in (payloads_in (D.now pool.journal.disk)) }
    ensures opened { result.1.journal.opened ≡ pool.journal.opened }
    ensures budget { result.1.budget ≡ pool.budget }
    ensures faults { result.1.faults ≡ pool.faults }
    // The count of faults rises exactly where the ending is `Disk`.
    ensures cause { Counts (D.count pool.journal.disk) (D.count result.1.journal.disk) (is_disk result.0) }
{
    pool.history_holds();
    let pool = search_on(rt, alloc, pool, settings, hold);
    (ending_of(&pool), pool)
}
