//! Codes of events.

ghost use Rattle.std.specs.Prelude.{◌≡◌, ◌++◌, OnOk, IfOk};
ghost use Rattle.event_codec.specs.Codes.{reason_code, proof_code, code, IsCodable, IsCodableReason, IsCodableProof};
ghost use Rattle.event_codec.specs.Types.{IsReason, IsProof, IsEvent};

use crate::enc::Enc;
use crate::put::{put_flag, put_i64, put_mult, put_point, put_rational_point, put_u32};
use crate::tags::{BOUND, CLOSE, CRAMPED, CUT, EMPTY, FRACTIONAL, OFFER, REFUTE, SPLIT, STALLED};
use node_events::{Event, Proof, Reason};
use std::alloc::{AllocError, Global};

/// Why a node is split.
#[tactic(auto, unfolding(crate::specs::Codes::reason_code))]
fn put_reason(out: &mut Vec<u8>, enc: Enc, reason: &Reason) -> Result<(), AllocError>
    requires { IsCodableReason reason.now }
    ensures spelled { OnOk result (out.new.items ≡ out.old.items ++ reason_code enc reason.now) }
    ensures typed { OnOk result (IsReason reason.now) }
{
    match reason {
        Reason::Fractional { cuts, point } => {
            out.push(FRACTIONAL)?;
            put_u32(out, enc, *cuts)?;
            put_rational_point(out, enc, point)
        }
        Reason::Cramped { cuts, pivots } => {
            out.push(CRAMPED)?;
            put_u32(out, enc, *cuts)?;
            put_u32(out, enc, *pivots)
        }
        Reason::Stalled { cuts } => {
            out.push(STALLED)?;
            put_u32(out, enc, *cuts)
        }
    }
}

/// Why a node is closed.
#[tactic(auto, unfolding(crate::specs::Codes::proof_code))]
fn put_proof(out: &mut Vec<u8>, enc: Enc, proof: &Proof) -> Result<(), AllocError>
    requires { IsCodableProof proof.now }
    ensures spelled { OnOk result (out.new.items ≡ out.old.items ++ proof_code enc proof.now) }
    ensures typed { OnOk result (IsProof proof.now) }
{
    match proof {
        Proof::Refute { mult } => {
            out.push(REFUTE)?;
            put_mult(out, enc, mult)
        }
        Proof::Bound { mult, rounded } => {
            out.push(BOUND)?;
            put_flag(out, *rounded)?;
            put_mult(out, enc, mult)
        }
        Proof::Empty { column } => {
            out.push(EMPTY)?;
            put_u32(out, enc, *column)
        }
    }
}

/// The code of an event behind other bytes.
#[tactic(auto, unfolding(crate::specs::Codes::code))]
pub(crate) fn put_event(out: &mut Vec<u8>, enc: Enc, event: &Event) -> Result<(), AllocError>
    requires { IsCodable enc event.now }
    ensures spelled { OnOk result (out.new.items ≡ out.old.items ++ code enc event.now) }
    ensures typed { OnOk result (IsEvent event.now) }
{
    match event {
        Event::Claim { .. } | Event::Release { .. } => Ok(()),
        Event::Cut { mult } => {
            out.push(CUT)?;
            put_mult(out, enc, mult)
        }
        Event::Offer { point } => {
            out.push(OFFER)?;
            put_point(out, enc, point)
        }
        Event::Split {
            node,
            column,
            bound,
            reason,
        } => {
            out.push(SPLIT)?;
            put_u32(out, enc, *node)?;
            put_u32(out, enc, *column)?;
            put_i64(out, enc, *bound)?;
            put_reason(out, enc, reason)
        }
        Event::Close { node, proof } => {
            out.push(CLOSE)?;
            put_u32(out, enc, *node)?;
            put_proof(out, enc, proof)
        }
    }
}

/// The code of an event in an encoding, in which it has one: it is no claim and no release. The one error is want of memory.
pub fn encode(alloc: Global, enc: Enc, event: &Event) -> Result<Vec<u8>, AllocError>
    requires { IsCodable enc event.now }
    ensures spelled { IfOk result (λ v. v.items ≡ code enc event.now) }
    // It has the ranges and the order of its type, which `decode` and the laws ask of an event in specifications.
    ensures typed { OnOk result (IsEvent event.now) }
{
    let mut out = Vec::new(alloc);
    put_event(&mut out, enc, event)?;
    Ok(out)
}
