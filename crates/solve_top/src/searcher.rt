//! Searches on in pools: by one worker alone, or by a crew.
ghost use Rattle.solve_top.specs.Begun.{IsEnded, IsReadyPool};
ghost use Rattle.solve_top.specs.Requests.{HasRanges, limits_in};
ghost use Rattle.core_search.specs.Visits.{SearchesNodes};
ghost use Rattle.solve_top.specs.Searchers.{GoesOnByWorkers, SearchesOn};

use crate::request::Request;
use core_search::{Ending, search};
use crew::{Settings, run_crew};
use node_pool::Pool;
use outside::{Disk, Hold};
use std::alloc::Global;
use std::sync::Wait;
use std::thread::Threads;

/// Searches on within the limits that are asked for, or with what is there, by one worker, who takes no lock (docs/DECISIONS.md, entry 57).
pub fn search_alone<D: Disk>(alloc: Global, pool: Pool<D>, request: &Request) -> (Ending, Pool<D>)
    requires ranges { HasRanges request.now }
    requires ready { IsReadyPool request.now pool }
    ensures goes_on { SearchesOn (limits_in request.now) pool result.0 result.1 }
    ensures ended { IsEnded request.now result.0 result.1 }
    // Its events are of worker 0 alone, whatever number of workers is asked for.
    ensures by_worker { GoesOnByWorkers 1 pool.state result.1.state }
    // Each node that ends was looked at with the room that was left for cuts.
    ensures visits { SearchesNodes (limits_in request.now).cuts pool.state result.1.state }
{
    let mut pool = pool;
    let limits = request.limits();
    let ending = search(alloc, &mut pool, limits.cuts);
    (ending, pool)
}

/// The same by as many workers as are asked for, each in a thread that `rt` starts.
pub fn search_by_crew<D: Disk + Send, R: Threads + Wait + Sync, H: Hold + Sync>(
    rt: &R,
    alloc: Global,
    pool: Pool<D>,
    request: &Request,
    hold: &H,
) -> (Ending, Pool<D>)
    requires ranges { HasRanges request.now }
    requires ready { IsReadyPool request.now pool }
    ensures goes_on { SearchesOn (limits_in request.now) pool result.0 result.1 }
    ensures ended { IsEnded request.now result.0 result.1 }
{
    let limits = request.limits();
    let settings = Settings {
        workers: limits.workers,
        cuts: limits.cuts,
    };
    run_crew(rt, alloc, pool, &settings, hold)
}
