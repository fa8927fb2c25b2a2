//! Payloads of a journal: groups of events that bytes spell, and the first fault of those that spell none.

ghost use Rattle.event_codec.specs.Groups.{IsGroup};

use crate::codes::show_fault;
use crate::printing::show_event;
use event_codec::{Enc, decode_group, encode_group};
use node_events::Event;
use std::alloc::{AllocError, Global};
use std::io;

/// Payloads of encoding 1 in hexadecimal digits, a blank before each field: an offer with a closing; the event of a group of one; numbers of events that no group
/// has; a second event that isn't there whole, is a group, or has a byte behind it.
pub(crate) const GROUPS: [&str; 9] = [
    "06 02 03 01000000 0200000000000000 05 00000000 01 00 00000000",
    "03 01000000 0200000000000000",
    "06 00",
    "06 01 03 01000000 0200000000000000",
    "06 41 03 01000000 0200000000000000",
    "06",
    "06 02 03 01000000 0200000000000000 05 0000",
    "06 02 03 01000000 0200000000000000 06 02",
    "06 02 03 01000000 0200000000000000 05 00000000 02 01000000 07",
];

/// The same of encoding 2, with a second event whose number isn't there whole or has a byte too many, and the record of the upgrade, which is no group.
pub(crate) const GROUPS_IN_TWO: [&str; 12] = [
    "06 02 03 01 04 05 00 01 00 00",
    "03 01 04",
    "06 00",
    "06 01 03 01 04",
    "06 41 03 01 04",
    "06 82 00 03 01 04",
    "06",
    "06 02 03 01 04 05 80",
    "06 02 03 01 04 05 8000 01 00 00",
    "06 02 03 01 04 06 02",
    "06 02 03 01 04 05 00 02 01 07",
    "07 02",
];

/// Whether a group is spelled by these bytes.
fn is_spelled(alloc: Global, enc: Enc, events: &[Event], bytes: &[u8]) -> Result<bool, AllocError>
    requires { IsGroup enc events.now }
{
    let spelled = encode_group(alloc, enc, events)?;
    Ok(spelled.as_slice() == bytes)
}

/// Prints the events of a group, and whether it is spelled by these bytes.
fn show_spelled<R: Print + Alloc<A = Global>>(
    rt: &R,
    enc: Enc,
    events: &[Event],
    bytes: &[u8],
) -> io::Result<()>
    requires { IsGroup enc events.now }
{
    for event in events {
        show_event(rt, event)?;
    }
    let (count, is_same) = (events.len(), is_spelled(rt.alloc(), enc, events, bytes)?);
    println!(rt; "  group of {count}, spelled so: {is_same}")
}

/// Prints the group that bytes spell, or their first fault.
pub(crate) fn show_group<R: Print + Alloc<A = Global>>(
    rt: &R,
    enc: Enc,
    text: &str,
    bytes: &[u8],
) -> io::Result<()> {
    match decode_group(rt.alloc(), enc, bytes) {
        Ok(events) => show_spelled(rt, enc, &events, bytes),
        Err(fault) => show_fault(rt, text, fault),
    }
}
