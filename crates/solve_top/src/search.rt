// Ends a search: writes the certificate of one that is finished.
ghost use Rattle.std.specs.Prelude.{◌≡◌, ◌<◌, ◌++◌, true, false, Some, None, All, OnOk, OnErr, length};
ghost use Rattle.outside.specs.Faults.{Counts};
ghost use Rattle.outside.specs.Images.{AtRest, IsImage};
ghost use Rattle.outside.specs.Stream.{AppendsPrefix};
ghost use Rattle.cert_rows.specs.declared.certificate.Cert.{Cert};
ghost use Rattle.cert_rows.specs.Feeds.{with_lines};
ghost use Rattle.cert_rows.specs.Validity.{IsValid};
ghost use Rattle.cert_merge.specs.Merged.{merged};
ghost use Rattle.event_core.specs.States.{open_count};
ghost use Rattle.core_search.specs.Endings.{IsSpent};
ghost use Rattle.core_search.specs.Pools.{is_disk};
ghost use Rattle.vipr_print.specs.Printed.{is_sink_fault};
ghost use Rattle.vipr_print.specs.Spelling.{text_of};
ghost use Rattle.vipr_print.specs.Unique.{IsWord, HasShortNumbers, SpellsOnly};
ghost use Rattle.solve_top.specs.Begun.{IsEnded, IsSearchedSince};
ghost use Rattle.solve_top.specs.Requests.{limits_in};
ghost use Rattle.solve_top.specs.Changes.{SinkChange, Stays, TakesNothing, sink_change};
ghost use Rattle.solve_top.specs.Searches.{search_of};
ghost use Rattle.solve_top.specs.Outcomes.{IsSolution, fails_by_disk};

use crate::outcome::{Answer, Refusal};
use crate::output::{finished_text, spent_text};
use crate::ran::Ran;
use crate::request::Request;
use cert_merge::feed;
use cert_rows::{CertHead, LineFeed};
use cert_tree::laws::finished_searches_are_certified;
use core_search::Ending;
use core_search::laws::splits_have_points;
use event_core::State;
use event_core::laws::journals_are_legal;
use node_pool::Pool;
use outside::{Disk, Failed, Sink};
use std::alloc::Global;
use vipr_print::laws::{texts_spell_one_certificate, valid_points_are_whole};
use vipr_print::{PrintFault, print_feed};

// No other certificate has the text of a valid one with short numbers, where the names of the problem are words. It has no effect, and LLVM
// leaves nothing of it: its contract is for callers' proofs.
#[tactic(auto, using(crate::proofs::Uniqueness::spells_only))]
fn text_spells_no_other(state: &State)
    requires { All IsWord state.now.state.problem.names }
    ensures { (c : Cert) → c ≡ merged state.now.state.problem state.now.history → IsValid state.now.state.problem c → HasShortNumbers c → SpellsOnly c }
{
    valid_points_are_whole(state.problem());
    texts_spell_one_certificate();
}

// Writes the certificate of a head and of a feed's lines to a sink that keeps it, before its answer is told (docs/DECISIONS.md, entry 18). After an
// error a prefix of it was taken, which is all of it where the sink fails at the end.
#[tactic(auto, using(crate::proofs::Keeping::whole_is_prefix))]
fn keep<F: LineFeed, C: Sink>(
    alloc: Global,
    head: &CertHead,
    feed: &mut F,
    cert: &mut C,
) -> Result<(), PrintFault>
    requires { head.now.lines ≡ length (F.lines feed.old) }
    ensures whole { C.tells ≡ true → OnOk result (C.taken cert.new ≡ C.taken cert.old ++ text_of (with_lines head.now (F.lines feed.old))) }
    ensures kept { C.tells ≡ true → OnOk result (C.kept cert.new ≡ C.taken cert.new) }
    ensures prefix { C.tells ≡ true → OnErr result (AppendsPrefix (C.taken cert.old) (C.taken cert.new) (text_of (with_lines head.now (F.lines feed.old)))) }
    ensures cause { Counts (C.faults cert.old) (C.faults cert.new) (is_sink_fault result) }
    ensures short { OnOk result (HasShortNumbers (with_lines head.now (F.lines feed.old))) }
{
    print_feed(alloc, head, feed, cert)?;
    match cert.finish() {
        Ok(()) => Ok(()),
        Err(Failed) => Err(PrintFault::Sink),
    }
}

// Writes the certificate of a search that is finished, line by line, and makes the lines that are due then.
fn certify<C: Sink>(
    alloc: Global,
    state: &State,
    request: &Request,
    cert: &mut C,
) -> Result<Answer, Refusal>
    requires names { All IsWord state.now.state.problem.names }
    requires ended { open_count state.now.state ≡ 0 }
    ensures solution { IsSolution request.now (search_of state.now) (sink_change C.tells C.taken C.kept C.faults cert.old cert.new) result }
    ensures disk { fails_by_disk result ≡ false }
{
    state.conditions_hold();
    finished_searches_are_certified(state.problem());
    text_spells_no_other(state);
    let (head, mut feed) = feed(alloc, state)?;
    let lines = finished_text(
        alloc,
        request,
        &head.claim,
        state.tree().len(),
        state.book().len(),
    )?;
    match keep(alloc, &head, &mut feed, cert) {
        Ok(()) => Ok(Answer::Done(lines)),
        Err(PrintFault::Sink) => Err(Refusal::Sink),
        Err(PrintFault::Memory) => Err(Refusal::Memory),
    }
}

// The lines of a search whose next split would pass the budget.
fn spend(alloc: Global, state: &State, request: &Request) -> Result<Answer, Refusal>
    requires spent { IsSpent (limits_in request.now).nodes state.now.state }
    requires left { 0 < open_count state.now.state }
    ensures solution { (cert : SinkChange) → TakesNothing cert → Stays cert.faults → IsSolution request.now (search_of state.now) cert result }
    ensures disk { fails_by_disk result ≡ false }
{
    let _request = *request;
    state.conditions_hold();
    splits_have_points(state.problem());
    let lines = spent_text(
        alloc,
        state.tree().len(),
        state.book().len(),
        state.open_count(),
    )?;
    Ok(Answer::Spent(lines))
}

// What comes of a search that ended so.
fn conclude<C: Sink>(
    alloc: Global,
    ending: Ending,
    state: &State,
    request: &Request,
    cert: &mut C,
) -> Result<Answer, Refusal>
    requires names { All IsWord state.now.state.problem.names }
    requires finished { ending ≡ Ending.Finished → open_count state.now.state ≡ 0 }
    requires spent { ending ≡ Ending.Spent → IsSpent (limits_in request.now).nodes state.now.state }
    requires left { ending ≡ Ending.Spent → 0 < open_count state.now.state }
    ensures solution { IsSolution request.now (search_of state.now) (sink_change C.tells C.taken C.kept C.faults cert.old cert.new) result }
    ensures disk { fails_by_disk result ≡ is_disk ending }
{
    match ending {
        Ending::Finished => certify(alloc, state, request, cert),
        Ending::Spent => spend(alloc, state, request),
        Ending::Disk => Err(Refusal::Disk),
        Ending::Memory => Err(Refusal::Memory),
    }
}

// The state and the disk of a pool.
fn part<D: Disk>(pool: Pool<D>) -> (State, D)
    ensures state { result.0 ≡ pool.state }
    ensures disk { result.1 ≡ pool.journal.disk }
    ensures rests { D.tells ≡ true → pool.journal.fault ≡ None → AtRest (D.now pool.journal.disk) }
    ensures seen { D.tells ≡ true → IsImage (D.now result.1) (D.now result.1).seen }
{
    let (state, journal, _) = pool.into_parts();
    journal.history_holds();
    (state, journal.into_disk())
}

/// What comes of a search that has ended so in this pool: its certificate is written if it is finished.
pub fn end_search<D: Disk, C: Sink>(
    alloc: Global,
    ending: Ending,
    pool: Pool<D>,
    request: &Request,
    cert: &mut C,
) -> Ran<D, Result<Answer, Refusal>>
    requires { IsEnded request.now ending pool }
    ensures last { result.last ≡ Some pool.state }
    ensures since { IsSearchedSince request.now ending pool result.disk (sink_change C.tells C.taken C.kept C.faults cert.old cert.new) (search_of pool.state) result.status }
{
    pool.history_holds();
    let (state, disk) = part(pool);
    state.conditions_hold();
    journals_are_legal(state.problem());
    let outcome = conclude(alloc, ending, &state, request, cert);
    Ran {
        status: outcome,
        disk,
        last: Some(state),
    }
}
