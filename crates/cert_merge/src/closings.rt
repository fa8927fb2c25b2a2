// The events that closed the nodes.
ghost use Rattle.std.specs.Prelude.{◌≡◌, ◌<◌, Some, IfOk, IsSome, length};
ghost use Rattle.cert_merge.specs.Endings.{proof_at, AreClosings};

use event_core::Entry;
use node_events::{Event, Proof};
use std::alloc::{AllocError, Global};

/// For each of so many nodes the place in the history of the event that closed it, or 0. The one error is want of memory.
pub fn closings(alloc: Global, history: &[Entry], nodes: usize) -> Result<Vec<usize>, AllocError>
    ensures length { IfOk result (λ v. length v.items ≡ nodes) }
    ensures places { IfOk result (λ v. AreClosings history.now v.items) }
{
    let mut places = vec![in alloc; 0; nodes]?;
    for (place, entry) in history.iter().enumerate() {
        if let Event::Close { node, .. } = &entry.event {
            let node = *node as usize;
            if node < places.len() {
                places[node] = place;
            }
        }
    }
    Ok(places)
}

/// The proof with which the event at a place closes a node.
pub fn proof_at(history: &[Entry], place: usize, _node: u32) -> &Proof
    requires { IsSome (proof_at history.now place _node) }
    ensures { proof_at history.now place _node ≡ Some result.now }
{
    match &history[place].event {
        Event::Close { proof, .. } => proof,
        _ => unreachable!(),
    }
}
