//! Begins a command: opens what it searches in, or does what takes no search (docs/DECISIONS.md, entry 59).
ghost use Rattle.std.specs.Prelude.{◌≡◌, [], None};
ghost use Rattle.resume.specs.Journals.{IsReadFrom};
ghost use Rattle.solve_top.specs.Begun.{HasBegun, IsReadyPool};
ghost use Rattle.solve_top.specs.Changes.{SourceChange, Stays, source_change};
ghost use Rattle.solve_top.specs.Requests.{HasRanges, limits_in};

use crate::drill::drilled_pool;
use crate::model::read_model;
use crate::opening::{open_kept, open_of};
use crate::outcome::{Answer, Refusal};
use crate::ran::Ran;
use crate::request::Request;
use crate::show::show;
use event_codec::laws::records_tell_apart;
use mps_reader::Lent;
use node_pool::Pool;
use outside::{Disk, ScratchDisk, Source};
use std::alloc::Global;
use std::hash::BuildHasher;

/// How a command began.
pub enum Begun<D: Disk> {
    /// It is over, with no search.
    Over(Ran<D, Result<Answer, Refusal>>),
    /// It searches on in this pool.
    Search(Pool<D>),
    /// It searches in this pool of a drill, and leaves its disk alone.
    Drill(Pool<ScratchDisk>, D),
}

// A search can begin in the pool of a journal that was read. It has no effect, and LLVM leaves nothing of it: its contract is for callers' proofs.
fn pool_is_ready<D: Disk>(pool: &Pool<D>, request: &Request)
    requires budget { pool.now.budget ≡ (limits_in request.now).nodes }
    requires unheld { pool.now.state.state.holds ≡ [] }
    requires sound { pool.now.halt ≡ None }
    requires read { IsReadFrom pool.now.state }
    ensures { IsReadyPool request.now pool.now }
{
    let _request = *request;
    pool.history_holds();
    pool.state().conditions_hold();
}

// Begins to solve the model of the source, going on from the journal where the disk has one.
fn solve<B: BuildHasher + Drop, S: Source, D: Disk>(
    alloc: Global,
    keys: B,
    request: &Request,
    upper: Option<u32>,
    model: &mut S,
    disk: D,
) -> Begun<D>
    requires ranges { HasRanges request.now }
    requires solves { request.now ≡ Request.Solve (limits_in request.now) upper }
    ensures { HasBegun request.now (source_change S.tells S.left S.faults model.old model.new) disk result }
{
    let read = match read_model(alloc, Lent::of(&keys), model, upper) {
        Ok(read) => read,
        Err(refusal) => return Begun::Over(Ran::refused(refusal, disk)),
    };
    match open_of(alloc, keys, disk, read, upper, request.limits().nodes) {
        Ok(pool) => {
            pool_is_ready(&pool, request);
            Begun::Search(pool)
        }
        Err((refusal, disk)) => Begun::Over(Ran::refused(refusal, disk)),
    }
}

// Begins to go on from the journal, which has the model.
fn resume<B: BuildHasher + Drop, D: Disk>(
    alloc: Global,
    keys: B,
    request: &Request,
    disk: D,
) -> Begun<D>
    requires ranges { HasRanges request.now }
    requires resumes { request.now ≡ Request.Resume (limits_in request.now) }
    ensures { (m : SourceChange) → Stays m.faults → HasBegun request.now m disk result }
{
    records_tell_apart();
    match open_kept(alloc, keys, disk, request.limits().nodes) {
        Ok(pool) => {
            pool_is_ready(&pool, request);
            Begun::Search(pool)
        }
        Err((refusal, disk)) => Begun::Over(Ran::refused(refusal, disk)),
    }
}

// Begins to solve the model of a seed.
fn drill<B: BuildHasher + Drop, D: Disk>(
    alloc: Global,
    keys: B,
    seed: u32,
    request: &Request,
    disk: D,
) -> Begun<D>
    requires ranges { HasRanges request.now }
    requires drills { request.now ≡ Request.Drill seed (limits_in request.now) }
    ensures { (m : SourceChange) → Stays m.faults → HasBegun request.now m disk result }
{
    match drilled_pool(alloc, keys, seed, request.limits().nodes) {
        Ok(pool) => {
            pool_is_ready(&pool, request);
            Begun::Drill(pool, disk)
        }
        Err(refusal) => Begun::Over(Ran::refused(refusal, disk)),
    }
}

/// Begins a command.
pub fn begin<B: BuildHasher + Drop, S: Source, D: Disk>(
    alloc: Global,
    keys: B,
    request: &Request,
    model: &mut S,
    disk: D,
) -> Begun<D>
    requires { HasRanges request.now }
    ensures { HasBegun request.now (source_change S.tells S.left S.faults model.old model.new) disk result }
{
    match request {
        Request::Solve { limits: _, upper } => solve(alloc, keys, request, *upper, model, disk),
        Request::Resume { limits: _ } => resume(alloc, keys, request, disk),
        Request::Show => {
            let mut disk = disk;
            let status = show(alloc, keys, &mut disk);
            Begun::Over(Ran {
                status,
                disk,
                last: None,
            })
        }
        Request::Drill { seed, limits: _ } => drill(alloc, keys, *seed, request, disk),
    }
}
