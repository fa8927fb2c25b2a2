// A gate to a pool under a lock.
ghost use Rattle.std.specs.Prelude.{◌≡◌, ◌∷◌, [], ◌<◌, true};
ghost use Rattle.worker_gate.specs.Entries.{is_opened, opening_in};
ghost use Rattle.worker_gate.specs.Passes.{HasPass, IsGatePass, seen_in};
ghost use Rattle.turn_lock.specs.Passes.{IsPassOf, names_of, seen_by};

use crate::{Glance, Kin, PoolGate, under};
use expand::Finding;
use node_pool::{Claim, CommitFault, Receipt};
use outside::Disk;
use std::alloc::{AllocError, Global};
use std::mem;
use std::sync::Wait;
use turn_lock::{Pass, Tickets, Traffic, TurnLock};

/// A gate to the pool under a lock (docs/DECISIONS.md, entry 56). Between two calls it has a pass and no turn. It has to be ended by `into_pass`.
pub struct LockGate<'a, D: Disk> {
    lock: &'a TurnLock<Kin<D>>,
    pass: Option<Pass<Kin<D>>>,
    worker: u32,
    ghost has: { HasPass lock.now worker pass },
}

impl<'a, D: Disk> LockGate<'a, D> {
    /// A gate for the worker whose pass this is.
    pub fn make(lock: &'a TurnLock<Kin<D>>, pass: Pass<Kin<D>>, worker: u32) -> LockGate<'a, D>
        requires own { IsPassOf lock.now pass }
        requires named { names_of pass ≡ worker ∷ [] }
        requires opened { is_opened (seen_by pass) ≡ true }
        requires member { worker < (opening_in (seen_by pass)).workers }
        ensures lock { result.lock.now ≡ lock.now }
        ensures worker { result.worker ≡ worker }
        ensures seen { seen_in result.pass ≡ seen_by pass }
    {
        LockGate {
            lock,
            pass: Some(pass),
            worker,
        }
    }

    /// The pass.
    pub fn into_pass(self) -> Pass<Kin<D>>
        ensures pass { IsGatePass self.entry.lock.now self.entry.worker result }
        ensures seen { seen_by result ≡ seen_in self.entry.pass }
    {
        let LockGate {
            lock: _,
            pass,
            worker: _,
        } = self;
        let Some(pass) = pass else { unreachable!() };
        pass
    }
}

impl<'a, D: Disk> PoolGate for LockGate<'a, D> {
    ghost use Rattle.worker_gate.specs.Passes.{seen_in};

    type Home = &'a TurnLock<Kin<D>>;

    ghost home = { λ g. g.lock };

    ghost worker = { λ g. g.worker };

    ghost seen = { λ g. seen_in g.pass };

    fn traffic(&self) -> Traffic {
        match &self.pass {
            Some(pass) => pass.traffic(),
            None => Traffic::none(),
        }
    }

    fn tickets(&self) -> Tickets {
        self.lock.tickets()
    }

    fn claim<R: Wait>(&mut self, rt: &R, alloc: Global) -> Result<Claim, AllocError> {
        let Some(pass) = mem::replace(&mut self.pass, None) else {
            unreachable!()
        };
        let (pass, answer) = under::claim(self.lock, rt, alloc, pass, self.worker);
        let old = mem::replace(&mut self.pass, Some(pass));
        let None = old else { unreachable!() };
        answer
    }

    fn glance<R: Wait>(
        &mut self,
        rt: &R,
        alloc: Global,
        node: u32,
        known: usize,
    ) -> Result<Glance, AllocError> {
        let Some(pass) = mem::replace(&mut self.pass, None) else {
            unreachable!()
        };
        let (pass, answer) = under::glance(self.lock, rt, alloc, pass, self.worker, node, known);
        let old = mem::replace(&mut self.pass, Some(pass));
        let None = old else { unreachable!() };
        answer
    }

    fn commit<R: Wait>(
        &mut self,
        rt: &R,
        alloc: Global,
        node: u32,
        finding: Finding,
    ) -> Result<Receipt, CommitFault> {
        let Some(pass) = mem::replace(&mut self.pass, None) else {
            unreachable!()
        };
        let (pass, answer) = under::commit(self.lock, rt, alloc, pass, self.worker, node, finding);
        let old = mem::replace(&mut self.pass, Some(pass));
        let None = old else { unreachable!() };
        answer
    }

    fn release<R: Wait>(&mut self, rt: &R, node: u32) {
        let Some(pass) = mem::replace(&mut self.pass, None) else {
            unreachable!()
        };
        let pass = under::release(self.lock, rt, pass, self.worker, node);
        let old = mem::replace(&mut self.pass, Some(pass));
        let None = old else { unreachable!() };
    }

    fn halt<R: Wait>(&mut self, rt: &R) {
        let Some(pass) = mem::replace(&mut self.pass, None) else {
            unreachable!()
        };
        let pass = under::halt(self.lock, rt, pass, self.worker);
        let old = mem::replace(&mut self.pass, Some(pass));
        let None = old else { unreachable!() };
    }
}
