// A gate without a lock.
ghost use Rattle.std.specs.Prelude.{◌≡◌, ◌<◌};
ghost use Rattle.worker_gate.specs.Entries.{opening_in};

use crate::{Glance, Kin, PoolGate};
use expand::Finding;
use node_pool::{Claim, CommitFault, Receipt};
use outside::Disk;
use std::alloc::{AllocError, Global};
use std::sync::Wait;
use turn_lock::{Tickets, Traffic};

/// A gate to a pool that nobody else asks.
pub struct FakeGate<D: Disk> {
    kin: Kin<D>,
    worker: u32,
    ghost member: { worker < (opening_in kin).workers },
}

impl<D: Disk> FakeGate<D> {
    /// A gate for one of the workers.
    pub fn make(kin: Kin<D>, worker: u32) -> FakeGate<D>
        requires { worker < (opening_in kin).workers }
        ensures kin { result.kin ≡ kin }
        ensures worker { result.worker ≡ worker }
    {
        FakeGate { kin, worker }
    }

    /// The pool with its list.
    pub fn into_kin(self) -> Kin<D>
        ensures { result ≡ self.kin }
    {
        let FakeGate { kin, worker: _ } = self;
        kin
    }
}

impl<D: Disk> PoolGate for FakeGate<D> {
    type Home = ();

    ghost home = { λ g. tt };

    ghost worker = { λ g. g.worker };

    ghost seen = { λ g. g.kin };

    fn traffic(&self) -> Traffic {
        Traffic::none()
    }

    fn tickets(&self) -> Tickets {
        Tickets::none()
    }

    fn claim<R: Wait>(&mut self, _rt: &R, alloc: Global) -> Result<Claim, AllocError> {
        self.kin.is_legal_now();
        self.kin.claim(alloc, self.worker)
    }

    fn glance<R: Wait>(
        &mut self,
        _rt: &R,
        alloc: Global,
        node: u32,
        known: usize,
    ) -> Result<Glance, AllocError> {
        self.kin.is_legal_now();
        self.kin.glance(alloc, self.worker, node, known)
    }

    fn commit<R: Wait>(
        &mut self,
        _rt: &R,
        alloc: Global,
        node: u32,
        finding: Finding,
    ) -> Result<Receipt, CommitFault> {
        self.kin.is_legal_now();
        self.kin.commit(alloc, self.worker, node, finding)
    }

    fn release<R: Wait>(&mut self, _rt: &R, node: u32) {
        self.kin.is_legal_now();
        self.kin.release(self.worker, node)
    }

    fn halt<R: Wait>(&mut self, _rt: &R) {
        self.kin.is_legal_now();
        self.kin.halt()
    }
}
