//! Codes of groups of events.

ghost use Rattle.std.specs.Prelude.{◌≡◌, ◌++◌, ◌<◌, ◌≤◌, Ok, OnOk, IfOk, All, length};
ghost use Rattle.std.specs.List.{flat_map};
ghost use Rattle.event_codec.specs.Codes.{code, IsCodable};
ghost use Rattle.event_codec.specs.Types.{IsEvent};
ghost use Rattle.event_codec.specs.Groups.{group_code, group_of, most_group_events};

use crate::enc::Enc;
use crate::encoding::put_event;
use crate::tags::SEVERAL;
use node_events::Event;
use std::alloc::{AllocError, Global};

/// The most events of a group.
pub const MOST_GROUP_EVENTS: usize = 64;

/// The codes of events, one after another.
fn put_events(out: &mut Vec<u8>, enc: Enc, events: &[Event]) -> Result<(), AllocError>
    requires { All (IsCodable enc) events.now }
    ensures spelled { OnOk result (out.new.items ≡ out.old.items ++ flat_map (code enc) events.now) }
    ensures typed { OnOk result (All IsEvent events.now) }
{
    for event in events {
        put_event(out, enc, event)?;
    }
    Ok(())
}

/// The code of a group: of one event its own code, of several a tag, their number and their codes. The one error is want of memory.
#[tactic(auto, unfolding(crate::specs::Groups::group_code))]
fn group_code(alloc: Global, enc: Enc, events: &[Event]) -> Result<Vec<u8>, AllocError>
    requires few { length events.now ≤ most_group_events }
    requires codable { All (IsCodable enc) events.now }
    ensures spelled { IfOk result (λ v. v.items ≡ group_code enc events.now) }
    ensures typed { OnOk result (All IsEvent events.now) }
{
    let mut out = Vec::new(alloc);
    if events.len() != 1 {
        out.push(SEVERAL)?;
        out.push(events.len() as u8)?;
    }
    put_events(&mut out, enc, events)?;
    Ok(out)
}

/// The code of a group in an encoding, as one payload, which reads back as its events. Each of them has a code in it: none is a claim or a release. The one error is want of memory.
pub fn encode_group(alloc: Global, enc: Enc, events: &[Event]) -> Result<Vec<u8>, AllocError>
    requires some { 0 < length events.now }
    requires few { length events.now ≤ most_group_events }
    requires codable { All (IsCodable enc) events.now }
    ensures spelled { IfOk result (λ v. v.items ≡ group_code enc events.now) }
    // They have the ranges and the order of their types, which `decode_group` and the laws ask of events in specifications.
    ensures typed { OnOk result (All IsEvent events.now) }
    ensures read { IfOk result (λ v. group_of enc v.items ≡ Ok events.now) }
{
    group_code(alloc, enc, events)
}
