// The events of one call.
ghost use Rattle.std.specs.Prelude.{◌≡◌};

use node_events::Event;
use std::marker::Model;

/// The events of one call, in their order, seen as a list.
#[derive(Drop)]
pub struct Events {
    items: Vec<Event>,
}

impl Model for Events {
    ghost use Rattle.std.specs.Prelude.{List};
    ghost use Rattle.node_events.specs.declared.event.Event.{Event as SeenEvent};

    ghost Value = { List SeenEvent };

    ghost view = { λ e. e.items.items };
}

impl Events {
    /// These events.
    pub(crate) fn of(items: Vec<Event>) -> Events
        ensures { result ≡ items.items }
    {
        Events { items }
    }

    /// The events.
    pub fn as_slice(&self) -> &[Event]
        ensures { result.now ≡ self.now }
    {
        self.items.as_slice()
    }
}
