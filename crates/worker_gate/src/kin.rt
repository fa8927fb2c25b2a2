// A pool that lies under a lock.

use event_core::Entry;
use node_pool::Pool;
use outside::Disk;
use std::marker::Model;
use std::snapshot::Snapshot;
use turn_lock::Kept;

/// A pool with its list of entries, which begins where this was made: what the pool was then, and each event and halt since. Contracts see it as that
/// list.
pub struct Kin<D: Disk> {
    pub(crate) pool: Pool<D>,
    /// What the pool was when the list began. It is for contracts.
    pub(crate) first: Snapshot<Pool<D>>,
    /// How many events its history had then.
    pub(crate) count: usize,
    /// How many events its history had when it was halted.
    pub(crate) stop: usize,
    /// How many cuts the book takes at most.
    pub(crate) cuts: u32,
    /// How many workers may ask.
    pub(crate) workers: u32,
}

impl<D: Disk> Model for Kin<D> {
    ghost use Rattle.std.specs.Prelude.{List};
    ghost use Rattle.worker_gate.specs.declared.entry.PoolEntry.{PoolEntry};
    ghost use Rattle.worker_gate.specs.Kins.{list_of, IsKept};

    ghost Value = { List PoolEntry };

    ghost view = { λ k. list_of k.first.value k.pool k.stop k.cuts k.workers };

    ghost invariant = { λ k. IsKept k.first.value k.pool k.count k.stop k.cuts k.workers };
}

impl<D: Disk> Kept for Kin<D> {
    ghost use Rattle.worker_gate.specs.Entries.{name_of};

    type Entry = crate::PoolEntry;

    ghost list = { λ k. k };

    ghost name = { name_of };

    fn len(&self) -> u64 {
        let since = self.pool.state().history().len() - self.count;
        let halts = usize::from(self.pool.halted().is_some());
        (1 + since + halts) as u64
    }
}
