//! Groups of events from their codes.

ghost use Rattle.std.specs.Prelude.{◌≡◌, ℕ, List, IfOk, Ok};
ghost use Rattle.node_events.specs.declared.event.Event.{Event as SeenEvent};
ghost use Rattle.event_codec.specs.ReadResults.{ReadsList, GivesList};
ghost use Rattle.event_codec.specs.Reading.{event_at, elements_at};
ghost use Rattle.event_codec.specs.Groups.{IsGroup, group_code, is_several, begins_several, several_at, single_at, group_at, group_of};

use crate::cursor::Cursor;
use crate::enc::Enc;
use crate::fault::{CodecError, CodecFault};
use crate::group_encoding::MOST_GROUP_EVENTS;
use crate::read_event::event;
use crate::tags::SEVERAL;
use node_events::Event;
use std::alloc::Global;

/// Whether bytes begin with the tag of several events.
fn begins_several(bytes: &[u8]) -> bool
    ensures { result ≡ begins_several bytes.now }
{
    !bytes.is_empty() && bytes[0] == SEVERAL
}

/// Whether so many events stand behind the tag of several.
fn is_several(count: u8) -> bool
    ensures { result ≡ is_several count }
{
    1 < count && count as usize <= MOST_GROUP_EVENTS
}

/// So many events.
fn events(
    alloc: Global,
    enc: Enc,
    count: u8,
    cursor: &mut Cursor<'_>,
) -> Result<Vec<Event>, CodecError>
    ensures { ReadsList result cursor.new (elements_at (event_at enc) count cursor.old) }
{
    let mut events = Vec::new(alloc);
    for _ in 0..count {
        let event = event(alloc, enc, cursor)?;
        events.push(event)?;
    }
    Ok(events)
}

/// Several events, behind their tag.
#[tactic(auto, unfolding(crate::specs::Groups::several_at))]
fn several(alloc: Global, enc: Enc, cursor: &mut Cursor<'_>) -> Result<Vec<Event>, CodecError>
    ensures { ReadsList result cursor.new (several_at enc cursor.old) }
{
    let _tag = cursor.byte()?;
    let at = cursor.at();
    let count = cursor.byte()?;
    if !is_several(count) {
        return Err(CodecError::Fault(CodecFault::BadValue { at }));
    }
    events(alloc, enc, count, cursor)
}

/// One event.
#[tactic(auto, unfolding(crate::specs::Groups::single_at))]
fn single(alloc: Global, enc: Enc, cursor: &mut Cursor<'_>) -> Result<Vec<Event>, CodecError>
    ensures { ReadsList result cursor.new (single_at enc cursor.old) }
{
    let event = event(alloc, enc, cursor)?;
    let mut events = Vec::new(alloc);
    events.push(event)?;
    Ok(events)
}

/// Several events where their tag is there, else one.
#[tactic(auto, unfolding(crate::specs::Groups::group_at))]
fn group(alloc: Global, enc: Enc, cursor: &mut Cursor<'_>) -> Result<Vec<Event>, CodecError>
    ensures { ReadsList result cursor.new (group_at enc cursor.old) }
{
    if begins_several(cursor.rest()) {
        several(alloc, enc, cursor)
    } else {
        single(alloc, enc, cursor)
    }
}

/// The events of a payload, all of its bytes.
#[tactic(auto, unfolding(crate::specs::Groups::group_of))]
fn whole_group(alloc: Global, enc: Enc, bytes: &[u8]) -> Result<Vec<Event>, CodecError>
    ensures { GivesList result (group_of enc bytes.now) }
{
    let mut cursor = Cursor::new(bytes);
    let events = group(alloc, enc, &mut cursor)?;
    if !cursor.rest().is_empty() {
        return Err(CodecError::Fault(CodecFault::Long { at: cursor.at() }));
    }
    Ok(events)
}

/// The group of events that a payload is the code of, in an encoding; the code of one event is that of a group of one. A fault is the first one from left to
/// right: `BadValue` at 1 where the number behind the tag of several events isn't from 2 to 64, else as of `decode`.
pub fn decode_group(alloc: Global, enc: Enc, bytes: &[u8]) -> Result<Vec<Event>, CodecError>
    // What is read is a group, and the bytes are its code.
    ensures found { IfOk result (λ v. IsGroup enc v.items × (bytes.now ≡ group_code enc v.items)) }
    // What the bytes are the code of is read, unless memory runs out.
    ensures only { (events : List SeenEvent) → IsGroup enc events → bytes.now ≡ group_code enc events → GivesList result (Ok events) }
    // Which fault it is.
    ensures exact { GivesList result (group_of enc bytes.now) }
{
    whole_group(alloc, enc, bytes)
}
