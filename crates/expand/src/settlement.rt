// How a node is settled.
ghost use Rattle.std.specs.Prelude.{◌≡◌, IfOk, map};
ghost use Rattle.node_events.specs.declared.event.Event.TheVariants as event;
ghost use Rattle.expand.specs.Settlements.{events_of};

use crate::mults::Mults;
use event_core::SplitPlace;
use fraction::Frac;
use node_events::{Event, Proof, Reason};
use problem::Point;
use std::alloc::{AllocError, Global};

/// Where a node is split, and why.
#[derive(Drop)]
pub struct Branching {
    /// The column and the bound.
    pub place: SplitPlace,
    /// The reason.
    pub reason: Reason,
    /// The optimal value of the node's relaxation, where the reason is a fractional optimum.
    pub value: Option<Frac>,
}

/// How a node is settled: the events that its finding comes to.
#[derive(Drop)]
pub enum Settlement {
    /// These cuts are made, and the node is looked at again.
    Separated {
        /// For each cut the combination's rows with their factors.
        mults: Mults,
    },
    /// The proof closes it.
    Closed {
        /// The proof.
        proof: Proof,
    },
    /// The point becomes the incumbent, and then the proof closes the node.
    Improved {
        /// The point.
        point: Point,
        /// The proof.
        proof: Proof,
    },
    /// It is split.
    Branched {
        /// Where, and why.
        branching: Branching,
    },
}

/// The events that make these cuts, in their order. The one error is want of memory.
fn cut_events(alloc: Global, mults: Mults) -> Result<Vec<Event>, AllocError>
    ensures { IfOk result (λ v. v.items ≡ map event.Cut mults) }
{
    let mut events = Vec::new(alloc);
    for mult in mults.into_vec() {
        events.push(Event::Cut { mult })?;
    }
    Ok(events)
}

impl Settlement {
    /// The events by which the node is settled, in their order: they are put into the journal as one payload. The one error is want of memory.
    pub fn into_events(self, alloc: Global, node: u32) -> Result<Vec<Event>, AllocError>
        ensures { IfOk result (λ v. v.items ≡ events_of node self) }
    {
        match self {
            Settlement::Separated { mults } => cut_events(alloc, mults),
            Settlement::Closed { proof } => Ok(vec![in alloc; Event::Close { node, proof }]?),
            Settlement::Improved { point, proof } => {
                Ok(vec![in alloc; Event::Offer { point }, Event::Close { node, proof }]?)
            }
            Settlement::Branched { branching } => {
                let Branching {
                    place,
                    reason,
                    value: _,
                } = branching;
                let split = Event::Split {
                    node,
                    column: place.column,
                    bound: place.bound,
                    reason,
                };
                Ok(vec![in alloc; split]?)
            }
        }
    }
}
