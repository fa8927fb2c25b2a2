// The payload of events.
ghost use Rattle.std.specs.Prelude.{◌≡◌, ◌<◌, ◌≤◌, ◌^◌, ◌↔◌, true, IsTrue, IfOk, OnOk, All, length};
ghost use Rattle.event_core.specs.Histories.{is_journaled};
ghost use Rattle.event_codec.specs.Codes.{IsCodable};
ghost use Rattle.event_codec.specs.declared.enc.Enc.TheVariants.{Two};
ghost use Rattle.event_codec.specs.Groups.{most_group_events};
ghost use Rattle.node_pool.specs.Payloads.{group_payload, IsReadBack};

use event_codec::{Enc, encode_group};
use node_events::{Event, Proof, Reason};
use std::alloc::{AllocError, Global};

/// Lists in events, and payloads, have fewer elements than this.
const LIMIT: usize = 1 << 32;

/// Whether the list of an event has fewer elements than a code can tell, if the event has one.
fn is_codable(event: &Event) -> bool
    requires { is_journaled event.now ≡ true }
    ensures { IsTrue result ↔ IsCodable Two event.now }
{
    match event {
        Event::Claim { .. } | Event::Release { .. } => false,
        Event::Cut { mult } => mult.len() < LIMIT,
        Event::Offer { point } => point.as_slice().len() < LIMIT,
        Event::Split { reason, .. } => match reason {
            Reason::Fractional { point, .. } => point.len() < LIMIT,
            Reason::Cramped { .. } | Reason::Stalled { .. } => true,
        },
        Event::Close { proof, .. } => match proof {
            Proof::Refute { mult } | Proof::Bound { mult, .. } => mult.len() < LIMIT,
            Proof::Empty { .. } => true,
        },
    }
}

/// Whether each of the events is so.
fn are_codable(events: &[Event]) -> bool
    requires { All (λ e. is_journaled e ≡ true) events.now }
    ensures { IsTrue result ↔ All (IsCodable Two) events.now }
{
    for event in events {
        if !is_codable(event) {
            return false;
        }
    }
    true
}

/// The payload of 1 to 64 events that a journal has, in encoding 2, which reads back as them. The one error is want of memory; it also comes where the payload
/// or a list in it would have 2^32 elements or more.
pub fn payload_of(alloc: Global, events: &[Event]) -> Result<Vec<u8>, AllocError>
    requires some { 0 < length events.now }
    requires few { length events.now ≤ most_group_events }
    requires journaled { All (λ e. is_journaled e ≡ true) events.now }
    ensures spelled { IfOk result (λ v. v.items ≡ group_payload events.now) }
    ensures read { OnOk result (IsReadBack events.now) }
    ensures small { IfOk result (λ v. length v.items < 2 ^ 32) }
{
    if !are_codable(events) {
        return Err(AllocError);
    }
    let payload = encode_group(alloc, Enc::Two, events)?;
    if payload.len() >= LIMIT {
        return Err(AllocError);
    }
    Ok(payload)
}
