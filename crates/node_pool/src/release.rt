// How a worker gives back its node.
ghost use Rattle.std.specs.Prelude.{◌≡◌, true, Some};
ghost use Rattle.event_core.specs.Holds.{holds_node};
ghost use Rattle.node_events.specs.declared.event.Event.TheVariants as event;
ghost use Rattle.node_pool.specs.Applied.{Applies};

use crate::Pool;
use crate::free::insert_node;
use event_core::Made;
use node_events::Event;
use outside::Disk;

impl<D: Disk> Pool<D> {
    /// Releases the node that the worker holds, which stays open. It takes no memory.
    pub fn release(&mut self, worker: u32, node: u32)
        requires { holds_node self.old.state.state worker node ≡ true }
        ensures released { Applies self.old.state (Some worker) (event.Release node) self.new.state }
        ensures journal { self.new.journal ≡ self.old.journal }
        ensures halt { self.new.halt ≡ self.old.halt }
        ensures at_halt { self.new.at_halt ≡ self.old.at_halt }
        ensures budget { self.new.budget ≡ self.old.budget }
        ensures faults { self.new.faults ≡ self.old.faults }
    {
        self.state.conditions_hold();
        insert_node(&mut self.free, node);
        self.state
            .apply(Some(worker), Event::Release { node }, Made::Nothing);
    }
}
