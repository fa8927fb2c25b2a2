// What a worker may ask of a pool that lies under a lock: a node, what is to be known of it, to give it back, and to halt.
ghost use Rattle.std.specs.Prelude.{◌≡◌, ◌<◌, ◌≤◌, ◌-◌, ℕ, IfOk, drop, length};
ghost use Rattle.node_tree.specs.Nodes.{branch_at};
ghost use Rattle.event_core.specs.States.{tree_of};
ghost use Rattle.worker_gate.specs.Entries.{opening_in, state_in};
ghost use Rattle.worker_gate.specs.Conditions.{HoldsNone, HoldsNode, HasCuts};
ghost use Rattle.worker_gate.specs.Gates.{Makes};
ghost use Rattle.worker_gate.specs.Calls.{Claims, Glances, Releases, Halts};

use crate::{Glance, Kin};
use derivation_book::{Book, Cut};
use node_pool::Claim;
use outside::Disk;
use std::alloc::{AllocError, Global};

/// The cuts from this number on. The one error is want of memory.
fn cuts_from(alloc: Global, book: &Book, known: usize) -> Result<Vec<Cut>, AllocError>
    requires { known ≤ length book.now.cuts }
    ensures { IfOk result (λ v. v.items ≡ drop known book.now.cuts) }
{
    let mut cuts = Vec::new(alloc);
    for number in known..book.len() {
        let row = book.cut(number).copy(alloc)?;
        let mult = book.mult(number).copy(alloc)?;
        cuts.push(Cut { row, mult })?;
    }
    Ok(cuts)
}

impl<D: Disk> Kin<D> {
    /// Gives the worker a node, as the pool does. The one error is want of memory.
    pub fn claim(&mut self, alloc: Global, worker: u32) -> Result<Claim, AllocError>
        requires none { HoldsNone worker self.old }
        requires member { worker < (opening_in self.old).workers }
        ensures { Makes worker self.old self.new (Claims worker result self.old) }
    {
        self.pool.ready(alloc)?;
        Ok(self.pool.claim(worker))
    }

    /// What is to be known of the node that the worker holds, with the cuts from number `known` on. The one error is want of memory.
    pub fn glance(
        &self,
        alloc: Global,
        _worker: u32,
        node: u32,
        known: usize,
    ) -> Result<Glance, AllocError>
        requires holds { HoldsNode _worker node self.now }
        requires known { HasCuts known self.now }
        ensures { Makes _worker self.now self.now (Glances node known result self.now) }
    {
        let state = self.pool.state();
        state.conditions_hold();
        let tree = state.tree();
        Ok(Glance {
            cuts: cuts_from(alloc, state.book(), known)?,
            cutoff: state.incumbent().cutoff(),
            area: tree.box_of(alloc, node)?,
            branch: tree.branch(node),
        })
    }

    /// Gives the worker's node back. It takes no memory.
    pub fn release(&mut self, worker: u32, node: u32)
        requires holds { HoldsNode worker node self.old }
        requires member { worker < (opening_in self.old).workers }
        ensures { Makes worker self.old self.new (Releases worker node self.old) }
    {
        self.pool.release(worker, node);
    }

    /// Halts the pool for want of memory, unless it is halted already.
    pub fn halt(&mut self)
        ensures { (w : ℕ) → Makes w self.old self.new (Halts self.old) }
    {
        if self.pool.halted().is_some() {
            return;
        }
        self.stop = self.pool.state().history().len();
        self.pool.halt();
    }
}
