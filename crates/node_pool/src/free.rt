// The list of the open nodes that nobody holds.
ghost use Rattle.std.specs.Prelude.{◌≡◌, ◌≤◌, ◌<◌, ◌+◌, ◌*◌, ◌^◌, ◌++◌, ◌||◌, [], ℕ, false, nat_eq, OnOk, IfOk, length, vec_len, vec_capacity};
ghost use Rattle.event_core.specs.Frames.{nodes_made};
ghost use Rattle.event_core.specs.Rooms.{split_count};
ghost use Rattle.node_pool.specs.Free.{AreFreeNodes, AreRising, has_node, children_of, children_of_all};

use event_core::State;
use node_events::Event;
use std::alloc::{AllocError, Global};

/// The open nodes of a state in which nobody holds a node, by rising number, with room for each node. The one error is want of memory.
pub fn free_nodes(alloc: Global, state: &State) -> Result<Vec<u32>, AllocError>
    requires { state.now.state.holds ≡ [] }
    ensures nodes { IfOk result (λ v. AreFreeNodes state.now.state v.items) }
    ensures room { IfOk result (λ v. length state.now.state.nodes ≤ vec_capacity v) }
{
    let tree = state.tree();
    tree.conditions_hold();
    state.conditions_hold();
    let count = tree.len() as u32;
    let mut nodes = Vec::with_capacity(alloc, count as usize)?;
    for number in 0..count {
        if state.is_open(number) {
            nodes.push_reserved(number);
        }
    }
    Ok(nodes)
}

/// Makes room for so many nodes in all. The one error is want of memory; the list stays also then.
pub fn reserve_for(free: &mut Vec<u32>, nodes: usize) -> Result<(), AllocError>
    ensures items { free.new.items ≡ free.old.items }
    ensures capacity { vec_capacity free.old ≤ vec_capacity free.new }
    ensures room { OnOk result (nodes ≤ vec_capacity free.new) }
{
    free.reserve(nodes.saturating_sub(free.len()))?;
    Ok(())
}

/// Adds the children of the node that the event splits, if it splits one, and answers the number of the next node. The first of them has this number.
fn add_children_of(free: &mut Vec<u32>, event: &Event, number: u32) -> u32
    requires room { vec_len free.old + nodes_made event.now ≤ vec_capacity free.old }
    requires few { number + nodes_made event.now < 2 ^ 32 }
    ensures items { free.new.items ≡ free.old.items ++ children_of event.now number }
    ensures capacity { vec_capacity free.new ≡ vec_capacity free.old }
    ensures next { result ≡ number + nodes_made event.now }
{
    match event {
        Event::Split { .. } => {
            free.push_reserved(number);
            free.push_reserved(number + 1);
            number + 2
        }
        _ => number,
    }
}

/// Adds the children of the nodes that the events split. The first of them has this number.
pub fn add_children(free: &mut Vec<u32>, events: &[Event], number: u32)
    requires room { vec_len free.old + 2 * split_count events.now ≤ vec_capacity free.old }
    requires few { number + 2 * split_count events.now < 2 ^ 32 }
    ensures items { free.new.items ≡ free.old.items ++ children_of_all events.now number }
    ensures capacity { vec_capacity free.new ≡ vec_capacity free.old }
{
    let mut next = number;
    for event in events {
        next = add_children_of(free, event, next);
    }
}

/// Puts a node that isn't there at its place. There is room for it.
pub fn insert_node(free: &mut Vec<u32>, node: u32)
    requires rising { AreRising free.old.items }
    requires absent { has_node free.old.items node ≡ false }
    requires room { vec_len free.old < vec_capacity free.old }
    ensures rising { AreRising free.new.items }
    ensures nodes { (i : ℕ) → has_node free.new.items i ≡ (has_node free.old.items i || nat_eq node i) }
    ensures capacity { vec_capacity free.old ≤ vec_capacity free.new }
{
    let place = free.partition_point(|other| *other < node);
    let _ = free.insert(place, node);
}
