//! Copies of events.

use crate::plans::{By, Plan, Why, event_of};
use crate::printing::show_event;
use node_events::Event;
use std::alloc::Global;
use std::io;

/// Each kind of event, of reason and of proof: the numbers of the first point of a split fit into 64 bits, those of the second don't.
const EVENTS: [Plan; 11] = [
    Plan::Claim(5),
    Plan::Release(5),
    Plan::Cut(0, 4),
    Plan::Offer(&[3, -4]),
    Plan::Split(4, 1, -7, Why::Halves(1, &[6, -13])),
    Plan::Split(4, 1, -7, Why::Wide),
    Plan::Split(4, 1, -7, Why::Cramped { cuts: 2, pivots: 9 }),
    Plan::Split(4, 1, -7, Why::Stalled { cuts: 3 }),
    Plan::Close(6, By::Empty(3)),
    Plan::Close(6, By::Row(1, -1)),
    Plan::Close(6, By::Bound),
];

/// Prints a copy of an event.
fn show_copy<R: Print + Alloc<A = Global>>(rt: &R, event: &Event) -> io::Result<()> {
    let copy = event.copy(rt.alloc())?;
    show_event(rt, &copy)
}

/// Prints a copy of the event of a plan.
fn show_plan<R: Print + Alloc<A = Global>>(rt: &R, plan: Plan) -> io::Result<()> {
    let event = event_of(rt.alloc(), plan)?;
    show_copy(rt, &event)
}

/// Prints a copy of each event.
pub(crate) fn show<R: Print + Alloc<A = Global>>(rt: &R) -> io::Result<()> {
    for plan in &EVENTS {
        show_plan(rt, *plan)?;
    }
    Ok(())
}
