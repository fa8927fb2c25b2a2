// What the worker keeps between nodes.
ghost use Rattle.std.specs.Prelude.{◌≡◌, ◌≤◌, IfOk, OnOk, length, replicate};
ghost use Rattle.dual_simplex.specs.Prepared.{IsRelaxationOf};
ghost use Rattle.pseudo_cost.specs.ColumnGains.{no_column_gains};
ghost use Rattle.core_search.specs.Workers.{IsPrepared};
ghost use Rattle.problem.specs.Limits.{most_cuts};

use dual_simplex::Relaxation;
use event_core::State;
use pseudo_cost::Costs;
use std::alloc::{AllocError, Global};

/// What the worker keeps between nodes.
pub struct Worker {
    /// The relaxation of the problem with all cuts.
    pub relaxation: Relaxation,
    /// What the splits of each column have gained so far. The history has none of it (docs/DECISIONS.md, entry 42).
    pub costs: Costs,
    /// How many cuts the book takes at most.
    pub limit: u32,
}

/// By hand (docs/DECISIONS.md, entry 98).
impl Drop for Worker {
    fn drop(self) {
        let Worker {
            relaxation: _,
            costs: _,
            limit: _,
        } = self;
    }
}

/// The relaxation of the problem with all cuts. The one error is want of memory.
fn relaxation_of(alloc: Global, state: &State) -> Result<Relaxation, AllocError>
    ensures cuts { IfOk result (λ r. r.cuts ≡ length state.now.state.cuts) }
    ensures prepared { IfOk result (λ r. IsRelaxationOf state.now.state.problem state.now.state.cuts r) }
{
    state.conditions_hold();
    let book = state.book();
    Relaxation::new(alloc, state.problem(), book, book.len())
}

impl Worker {
    /// A worker that has noted nothing yet. The one error is want of memory.
    pub fn new(alloc: Global, state: &State, limit: u32) -> Result<Worker, AllocError>
        requires { limit ≤ most_cuts }
        ensures prepared { IfOk result (λ w. IsPrepared state.now.state w) }
        ensures limit { IfOk result (λ w. w.limit ≡ limit) }
        ensures costs { IfOk result (λ w. w.costs ≡ replicate (length state.now.state.problem.spans) no_column_gains) }
    {
        let relaxation = relaxation_of(alloc, state)?;
        let costs = Costs::make(alloc, state.problem().columns())?;
        Ok(Worker {
            relaxation,
            costs,
            limit,
        })
    }

    /// Prepares the relaxation anew, where cuts were made. The one error is want of memory.
    pub fn prepare(&mut self, alloc: Global, state: &State) -> Result<(), AllocError>
        requires costs { length self.old.costs ≡ length state.now.state.problem.spans }
        requires limit { self.old.limit ≤ most_cuts }
        ensures prepared { OnOk result (IsPrepared state.now.state self.new) }
        ensures limit { self.new.limit ≡ self.old.limit }
        ensures kept { self.new.costs ≡ self.old.costs }
    {
        state.conditions_hold();
        let book = state.book();
        self.relaxation
            .renew(alloc, state.problem(), book, book.len())
    }
}
