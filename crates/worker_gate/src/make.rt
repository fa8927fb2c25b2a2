// How a list begins, and how the pool comes back.
ghost use Rattle.std.specs.Prelude.{◌≡◌, ◌≤◌, ◌∷◌, [], None};
ghost use Rattle.worker_gate.specs.Kins.{opening_of, IsPoolOf};
ghost use Rattle.worker_gate.specs.Legal.{IsLegalList};
ghost use Rattle.problem.specs.Limits.{most_cuts};

use crate::{Kin, PoolEntry};
use node_pool::Pool;
use outside::Disk;
use std::snapshot::Snapshot;

impl<D: Disk> Kin<D> {
    /// A pool that isn't halted, with a list that begins now. The book takes at most `cuts` cuts, 0 to `MOST_CUTS`, or as many as it has already. Workers 0 to
    /// `workers - 1` may ask.
    pub fn make(pool: Pool<D>, cuts: u32, workers: u32) -> Kin<D>
        requires sound { pool.halt ≡ None }
        requires few { cuts ≤ most_cuts }
        ensures list { result ≡ PoolEntry.Opened (opening_of pool cuts workers) ∷ [] }
        ensures legal { IsLegalList result }
    {
        let state = pool.state();
        state.conditions_hold();
        let count = state.history().len();
        let first = Snapshot::of(&pool);
        Kin {
            pool,
            first,
            count,
            stop: count,
            cuts,
            workers,
        }
    }

    /// The list is legal. This computes nothing: its contract is for callers' proofs.
    pub fn is_legal_now(&self)
        ensures { IsLegalList self.now }
    {
        let _pool = &self.pool;
    }

    /// The pool, as the list says.
    pub fn into_pool(self) -> Pool<D>
        ensures pool { IsPoolOf self result }
        ensures legal { IsLegalList self }
    {
        let Kin {
            pool,
            first: _,
            count: _,
            stop: _,
            cuts: _,
            workers: _,
        } = self;
        pool
    }
}
