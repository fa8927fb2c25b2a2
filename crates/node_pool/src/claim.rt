// How a worker gets a node.
ghost use Rattle.std.specs.Prelude.{◌≡◌, ℕ, false, Some, OnOk};
ghost use Rattle.event_core.specs.Holds.{is_busy};
ghost use Rattle.node_events.specs.declared.event.Event.TheVariants as event;
ghost use Rattle.node_pool.specs.Answers.{IsClaim, IsReadyToClaim};
ghost use Rattle.node_pool.specs.Applied.{Applies, AppliesNothing};

use crate::{Claim, Pool};
use event_core::Made;
use node_events::Event;
use outside::Disk;
use std::alloc::{AllocError, Global};

impl<D: Disk> Pool<D> {
    /// Makes room for one claim and the release behind it. The one error is want of memory; all stays then too.
    pub fn ready(&mut self, alloc: Global) -> Result<(), AllocError>
        ensures ready { OnOk result (IsReadyToClaim self.new.state) }
        ensures stays { AppliesNothing self.old.state self.new.state }
        ensures journal { self.new.journal ≡ self.old.journal }
        ensures halt { self.new.halt ≡ self.old.halt }
        ensures at_halt { self.new.at_halt ≡ self.old.at_halt }
        ensures budget { self.new.budget ≡ self.old.budget }
        ensures faults { self.new.faults ≡ self.old.faults }
    {
        let _nothing = self.state.reserve(alloc, &Event::Claim { node: 0 })?;
        Ok(())
    }

    /// Gives the worker, who holds no node, the greatest of the open nodes that nobody holds, or says why it gets none. `ready` was called before, so
    /// this takes no memory.
    pub fn claim(&mut self, worker: u32) -> Claim
        requires ready { IsReadyToClaim self.old.state }
        requires idle { is_busy self.old.state.state (Some worker) ≡ false }
        ensures answer { IsClaim self.old.halt self.old.state.state result }
        ensures claimed { (n : ℕ) → result ≡ Claim.Node n → Applies self.old.state (Some worker) (event.Claim n) self.new.state }
        ensures idle { result ≡ Claim.Idle → AppliesNothing self.old.state self.new.state }
        ensures done { result ≡ Claim.Done → AppliesNothing self.old.state self.new.state }
        ensures halted { result ≡ Claim.Halted → AppliesNothing self.old.state self.new.state }
        ensures journal { self.new.journal ≡ self.old.journal }
        ensures halt { self.new.halt ≡ self.old.halt }
        ensures at_halt { self.new.at_halt ≡ self.old.at_halt }
        ensures budget { self.new.budget ≡ self.old.budget }
        ensures faults { self.new.faults ≡ self.old.faults }
    {
        if self.halt.is_some() {
            return Claim::Halted;
        }
        let Some(node) = self.free.pop() else {
            return if self.state.open_count() == 0 {
                Claim::Done
            } else {
                Claim::Idle
            };
        };
        self.state
            .apply(Some(worker), Event::Claim { node }, Made::Nothing);
        Claim::Node(node)
    }
}
