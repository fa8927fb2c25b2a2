// All that the program does.
ghost use Rattle.std.specs.Prelude.{◌≡◌, All, Some, IfSome, option_map};
ghost use Rattle.solve_top.specs.Begun.{IsCarriedOut};
ghost use Rattle.solve_top.specs.Changes.{disk_change, sink_change, source_change};
ghost use Rattle.solve_top.specs.Headline.{KeepsPromise};
ghost use Rattle.solve_top.specs.Requests.{HasRanges, limits_in, requested};
ghost use Rattle.solve_top.specs.Searches.{HasSearchedAlone, IsOfWorkers, events_made, search_of};
ghost use Rattle.solve_top.specs.Statuses.{exit_number};
ghost use Rattle.solve_top.specs.Outcomes.{IsToldAs};
ghost use Rattle.solve_top.specs.declared.request.Request.{Request};
ghost use Rattle.solve_top.specs.declared.status.Status.{Status};

use crate::Words;
use crate::beginning::{Begun, begin};
use crate::outcome::{Answer, Refusal};
use crate::ran::Ran;
use crate::request::{Request, request_of};
use crate::search::end_search;
use crate::searcher::{search_alone, search_by_crew};
use crate::telling::tell_outcome;
use outside::{Disk, Hold, Sink, Source};
use resume::laws::what_stands_is_not_refused;
use std::alloc::Global;
use std::hash::BuildHasher;
use std::sync::Wait;
use std::thread::Threads;

// Does what is asked for, but for telling what came of it. One worker searches.
fn perform_alone<B: BuildHasher + Drop, S: Source, D: Disk, C: Sink>(
    alloc: Global,
    keys: B,
    request: &Request,
    model: &mut S,
    disk: D,
    cert: &mut C,
) -> Ran<D, Result<Answer, Refusal>>
    requires { HasRanges request.now }
    ensures carried_out { IsCarriedOut request.now (source_change S.tells S.left S.faults model.old model.new) (disk_change D.tells D.past D.now D.count disk result.disk) (sink_change C.tells C.taken C.kept C.faults cert.old cert.new) (option_map search_of result.last) result.status }
    ensures by_worker { IfSome result.last (λ t. All (IsOfWorkers 1) (events_made t.history)) }
    ensures visits { IfSome result.last (λ t. HasSearchedAlone (limits_in request.now).cuts t) }
{
    match begin(alloc, keys, request, model, disk) {
        Begun::Over(ran) => ran,
        Begun::Search(pool) => {
            let (ending, pool) = search_alone(alloc, pool, request);
            end_search(alloc, ending, pool, request, cert)
        }
        Begun::Drill(pool, disk) => {
            let (ending, pool) = search_alone(alloc, pool, request);
            end_search(alloc, ending, pool, request, cert).drilled(disk)
        }
    }
}

// The same, but as many workers search as are asked for.
fn perform_by_crew<
    R: Threads + Wait + Sync,
    B: BuildHasher + Drop,
    S: Source,
    D: Disk + Send,
    C: Sink,
    H: Hold + Sync,
>(
    rt: &R,
    alloc: Global,
    keys: B,
    request: &Request,
    model: &mut S,
    disk: D,
    cert: &mut C,
    hold: &H,
) -> Ran<D, Result<Answer, Refusal>>
    requires { HasRanges request.now }
    ensures { IsCarriedOut request.now (source_change S.tells S.left S.faults model.old model.new) (disk_change D.tells D.past D.now D.count disk result.disk) (sink_change C.tells C.taken C.kept C.faults cert.old cert.new) (option_map search_of result.last) result.status }
{
    match begin(alloc, keys, request, model, disk) {
        Begun::Over(ran) => ran,
        Begun::Search(pool) => {
            let (ending, pool) = search_by_crew(rt, alloc, pool, request, hold);
            end_search(alloc, ending, pool, request, cert)
        }
        Begun::Drill(pool, disk) => {
            let (ending, pool) = search_by_crew(rt, alloc, pool, request, hold);
            end_search(alloc, ending, pool, request, cert).drilled(disk)
        }
    }
}

// Tells what came of a command.
fn tell<D, O: Sink>(alloc: Global, ran: Ran<D, Result<Answer, Refusal>>, out: &mut O) -> Ran<D>
    ensures status { (t : Status) × (result.status ≡ exit_number t) × IsToldAs (sink_change O.tells O.taken O.kept O.faults out.old out.new) ran.status t }
    ensures disk { result.disk ≡ ran.disk }
    ensures last { result.last ≡ ran.last }
{
    let status = tell_outcome(alloc, &ran.status, out);
    ran.told(status)
}

/// Does what the words ask for with one worker: reads a model from `model`, keeps the journal of its search on `disk`,
/// writes its certificate to `cert` and a few lines to `out`.
///
/// It is `run` with one worker, whatever number the words ask for: the events of its search are of worker 0. It takes no
/// runtime, so it always returns. `keys` is for the hashing of the model's names and changes no answer. The disk is
/// handed back in every case. The steps are taken in this order, and the first refusal decides:
///
/// - The words are read. 2: they are no command; `out` gets `refused usage`.
/// - `solve` reads the model. 5: it can't be read, which its source counted; `fault read`. 3: it has a fault;
///   `refused model LINE KIND`, with the number of the first line at fault, 0 where it stands at none, and the name of
///   a `Kind` of `mps_reader`. Columns without a bound get the one that the words give.
/// - The journal is read and checked, and then recovered. `solve` begins one where the disk has none, and `show` only
///   reads it. 4: it isn't one, or not one of this model, or holds what no search wrote; `refused journal NotAJournal`,
///   `refused journal Damaged AT`, `refused journal OtherModel AT` or `refused journal NoModel`. The disk is untouched
///   then. 6: the disk failed and counted it; `fault disk`.
/// - It is searched by worker 0, with at most as many cuts as the words ask for, and each event is on the disk before
///   the search goes on. 8: the search isn't finished, and its next split would pass the number of nodes that the words
///   ask for; `spent`, `nodes n`, `cuts c` and `open k`. No certificate is begun. 6: as before.
/// - The certificate is written. 7: it can't be, which its sink counted; `fault sink`.
/// - The lines are written: `optimal z` or `infeasible`, `nodes n` and `cuts c`; of a drill the first alone; under
///   `show` `events e`, `nodes n`, `cuts c`, `open k`, and `best z` or `best none`. 7: these or the lines of 8 can't be,
///   which their sink counted; they then end where it failed. 0: all is written.
///
/// A drill solves the model of its seed over a disk in memory of its own, and leaves the one that it was handed as it is.
///
/// 9: memory ran out, at any of these steps; `no memory`. Where the line of a refusal can't be written, the status stays.
/// The state at which the search ended is handed back on 0, 7 and 8, and on 6 and 9 where it had begun.
///
/// All that is promised of a run is `KeepsPromise` of `specs/Headline`, fact by fact.
pub fn run_one<B: BuildHasher + Drop, S: Source, D: Disk, C: Sink, O: Sink>(
    alloc: Global,
    keys: B,
    words: &Words,
    model: &mut S,
    disk: D,
    cert: &mut C,
    out: &mut O,
) -> Ran<D>
    ensures promise { KeepsPromise (record {
      words = words.now;
      model = source_change S.tells S.left S.faults model.old model.new;
      disk = disk_change D.tells D.past D.now D.count disk result.disk;
      cert = sink_change C.tells C.taken C.kept C.faults cert.old cert.new;
      out = sink_change O.tells O.taken O.kept O.faults out.old out.new;
      last = option_map search_of result.last;
      number = result.status;
    }) }
    ensures by_worker { IfSome result.last (λ t. All (IsOfWorkers 1) (events_made t.history)) }
    // It looks at each node with the room that the words leave for cuts.
    ensures visits { IfSome result.last (λ t. (q : Request) × (requested words.now ≡ Some q) × HasSearchedAlone (limits_in q).cuts t) }
{
    what_stands_is_not_refused();
    match request_of(alloc, words) {
        Ok(request) => {
            let ran = perform_alone(alloc, keys, &request, model, disk, cert);
            tell(alloc, ran, out)
        }
        Err(refusal) => tell(alloc, Ran::refused(refusal, disk), out),
    }
}

/// Does what the words ask for as `run_one` does, with as many workers as they ask for, each in a thread that `rt`
/// starts.
///
/// Where they ask for one, or are no command, this is `run_one`. Else all is promised that `run_one` promises, but that
/// this returns: a worker waits for its turn. Each of them asks `hold` before it claims a node.
pub fn run<
    R: Threads + Wait + Sync,
    B: BuildHasher + Drop,
    S: Source,
    D: Disk + Send,
    C: Sink,
    O: Sink,
    H: Hold + Sync,
>(
    rt: &R,
    alloc: Global,
    keys: B,
    words: &Words,
    model: &mut S,
    disk: D,
    cert: &mut C,
    out: &mut O,
    hold: &H,
) -> Ran<D>
    ensures { KeepsPromise (record {
      words = words.now;
      model = source_change S.tells S.left S.faults model.old model.new;
      disk = disk_change D.tells D.past D.now D.count disk result.disk;
      cert = sink_change C.tells C.taken C.kept C.faults cert.old cert.new;
      out = sink_change O.tells O.taken O.kept O.faults out.old out.new;
      last = option_map search_of result.last;
      number = result.status;
    }) }
{
    if let Ok(request) = request_of(alloc, words) {
        if request.limits().workers > 1 {
            what_stands_is_not_refused();
            let ran = perform_by_crew(rt, alloc, keys, &request, model, disk, cert, hold);
            return tell(alloc, ran, out);
        }
    }
    run_one(alloc, keys, words, model, disk, cert, out)
}
