//! Events from their codes.

ghost use Rattle.std.specs.Prelude.{◌≡◌, IfOk, Ok};
ghost use Rattle.node_events.specs.declared.event.Event.{Event as SeenEvent};
ghost use Rattle.event_codec.specs.Codes.{code, IsCodable};
ghost use Rattle.event_codec.specs.Types.{IsEvent};
ghost use Rattle.event_codec.specs.ReadResults.{Gives};
ghost use Rattle.event_codec.specs.Reading.{event_of};

use crate::cursor::Cursor;
use crate::enc::Enc;
use crate::fault::{CodecError, CodecFault};
use crate::read_event::event;
use node_events::Event;
use std::alloc::Global;

/// The event of a payload, all of its bytes.
#[tactic(auto, unfolding(crate::specs::Reading::event_of))]
fn whole_event(alloc: Global, enc: Enc, bytes: &[u8]) -> Result<Event, CodecError>
    ensures { Gives result (event_of enc bytes.now) }
{
    let mut cursor = Cursor::new(bytes);
    let event = event(alloc, enc, &mut cursor)?;
    if !cursor.rest().is_empty() {
        return Err(CodecError::Fault(CodecFault::Long { at: cursor.at() }));
    }
    Ok(event)
}

/// The event that a payload is the code of, in an encoding. A fault is the first one from left to right. The record of a model is no event, nor is that of the upgrade: their tags are not read.
pub fn decode(alloc: Global, enc: Enc, bytes: &[u8]) -> Result<Event, CodecError>
    // What is read has a code, and the bytes are this code.
    ensures found { IfOk result (λ e. IsCodable enc e × IsEvent e × (bytes.now ≡ code enc e)) }
    // What the bytes are the code of is read, unless memory runs out.
    ensures only { (e : SeenEvent) → IsCodable enc e → IsEvent e → bytes.now ≡ code enc e → Gives result (Ok e) }
    // Which fault it is.
    ensures exact { Gives result (event_of enc bytes.now) }
{
    whole_event(alloc, enc, bytes)
}
