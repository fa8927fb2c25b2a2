// What a worker may ask.

use crate::Glance;
use expand::Finding;
use node_pool::{Claim, CommitFault, Receipt};
use std::alloc::{AllocError, Global};
use std::sync::Wait;
use turn_lock::{Tickets, Traffic};

/// What a worker may ask of a pool.
///
/// Each call finds a list of entries that begins with all that the gate had seen, goes on by entries of others, and ends with the entries that the call
/// made, which are told by what it answers. The conditions of a call speak of what the gate had seen: entries of others leave them standing
/// (docs/DECISIONS.md, entry 55).
pub trait PoolGate {
    ghost use Rattle.std.specs.Prelude.{◌≡◌, ℕ, List};
    ghost use Rattle.worker_gate.specs.declared.entry.PoolEntry.{PoolEntry};
    ghost use Rattle.worker_gate.specs.Conditions.{HoldsNone, HoldsNode, HasCuts, IsFound};
    ghost use Rattle.worker_gate.specs.Gates.{Stepped};
    ghost use Rattle.worker_gate.specs.Calls.{Claims, Glances, Commits, Releases, Halts};

    /// Where the gate leads to. It is for contracts.
    type Home;

    ghost home: { Self → Self.Home };

    /// The worker's number.
    ghost worker: { Self → ℕ };

    /// The list that the gate has seen.
    ghost seen: { Self → List PoolEntry };

    /// How often the gate's calls met those of others. It is a hint: no contract says what it is.
    fn traffic(&self) -> Traffic;

    /// How many turns were asked for and have ended, of this gate and of others. It takes no turn. It is a hint: no contract says what it is.
    fn tickets(&self) -> Tickets;

    /// Asks for a node, as `Pool::claim` gives it. The one error is want of memory.
    fn claim<R: Wait>(&mut self, rt: &R, alloc: Global) -> Result<Claim, AllocError>
        requires { HoldsNone (worker self.old) (seen self.old) }
        ensures same { worker self.new ≡ worker self.old }
        ensures stays { home self.new ≡ home self.old }
        ensures step { Stepped (worker self.old) (seen self.old) (seen self.new) (Claims (worker self.old) result) };

    /// What is to be known of the worker's node, with the cuts from number `known` on. The one error is want of memory.
    fn glance<R: Wait>(
        &mut self,
        rt: &R,
        alloc: Global,
        node: u32,
        known: usize,
    ) -> Result<Glance, AllocError>
        requires holds { HoldsNode (worker self.old) node (seen self.old) }
        requires known { HasCuts known (seen self.old) }
        ensures same { worker self.new ≡ worker self.old }
        ensures stays { home self.new ≡ home self.old }
        ensures step { Stepped (worker self.old) (seen self.old) (seen self.new) (Glances node known result) };

    /// Settles the worker's node as the finding says, by the cuts and the incumbent that there are now. The receipt tells of the events, which may be
    /// none where there is no room for cuts. At a fault none of them is made. `Halted`: the pool was halted before. `Memory`: there was no memory for the
    /// settlement or the events. `Disk`, `Budget`: the pool is halted by them.
    fn commit<R: Wait>(
        &mut self,
        rt: &R,
        alloc: Global,
        node: u32,
        finding: Finding,
    ) -> Result<Receipt, CommitFault>
        requires holds { HoldsNode (worker self.old) node (seen self.old) }
        requires found { IsFound node finding (seen self.old) }
        ensures same { worker self.new ≡ worker self.old }
        ensures stays { home self.new ≡ home self.old }
        ensures step { Stepped (worker self.old) (seen self.old) (seen self.new) (Commits (worker self.old) node finding result) };

    /// Gives the worker's node back, which stays open. This takes no memory.
    fn release<R: Wait>(&mut self, rt: &R, node: u32)
        requires { HoldsNode (worker self.old) node (seen self.old) }
        ensures same { worker self.new ≡ worker self.old }
        ensures stays { home self.new ≡ home self.old }
        ensures step { Stepped (worker self.old) (seen self.old) (seen self.new) (Releases (worker self.old) node) };

    /// Halts the pool for want of memory, unless it is halted already.
    fn halt<R: Wait>(&mut self, rt: &R)
        ensures same { worker self.new ≡ worker self.old }
        ensures stays { home self.new ≡ home self.old }
        ensures step { Stepped (worker self.old) (seen self.old) (seen self.new) Halts };
}
