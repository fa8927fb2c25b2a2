//! Readers of events and of their parts.

ghost use Rattle.std.specs.Prelude.{◌≡◌};
ghost use Rattle.event_codec.specs.ReadResults.{ReadsUnlessMemory};
ghost use Rattle.event_codec.specs.Reading.{fractional_at, cramped_at, stalled_at, reason_at, refute_at, bound_at, empty_at, proof_at, cut_at, offer_at, split_at, close_at, event_at};

use crate::cursor::Cursor;
use crate::enc::Enc;
use crate::fault::{CodecError, CodecFault};
use crate::read_lists::{mult, point, rational_point};
use crate::tags::{BOUND, CLOSE, CRAMPED, CUT, EMPTY, FRACTIONAL, OFFER, REFUTE, SPLIT, STALLED};
use node_events::{Event, Proof, Reason};
use std::alloc::Global;

/// A point of the relaxation, as a reason.
#[tactic(auto, unfolding(crate::specs::Reading::fractional_at))]
fn fractional(alloc: Global, enc: Enc, cursor: &mut Cursor<'_>) -> Result<Reason, CodecError>
    ensures { ReadsUnlessMemory result cursor.new (fractional_at enc cursor.old) }
{
    let cuts = cursor.u32(enc)?;
    let point = rational_point(alloc, enc, cursor)?;
    Ok(Reason::Fractional { cuts, point })
}

/// A fraction that was too large, as a reason.
#[tactic(auto, unfolding(crate::specs::Reading::cramped_at))]
fn cramped(enc: Enc, cursor: &mut Cursor<'_>) -> Result<Reason, CodecError>
    ensures { ReadsUnlessMemory result cursor.new (cramped_at enc cursor.old) }
{
    let cuts = cursor.u32(enc)?;
    let pivots = cursor.u32(enc)?;
    Ok(Reason::Cramped { cuts, pivots })
}

/// A limit on pivots, as a reason.
#[tactic(auto, unfolding(crate::specs::Reading::stalled_at))]
fn stalled(enc: Enc, cursor: &mut Cursor<'_>) -> Result<Reason, CodecError>
    ensures { ReadsUnlessMemory result cursor.new (stalled_at enc cursor.old) }
{
    let cuts = cursor.u32(enc)?;
    Ok(Reason::Stalled { cuts })
}

/// Why a node is split.
#[tactic(auto, unfolding(crate::specs::Reading::reason_at))]
fn reason(alloc: Global, enc: Enc, cursor: &mut Cursor<'_>) -> Result<Reason, CodecError>
    ensures { ReadsUnlessMemory result cursor.new (reason_at enc cursor.old) }
{
    let at = cursor.at();
    match cursor.byte()? {
        FRACTIONAL => fractional(alloc, enc, cursor),
        CRAMPED => cramped(enc, cursor),
        STALLED => stalled(enc, cursor),
        _ => Err(CodecError::Fault(CodecFault::BadTag { at })),
    }
}

/// A refutation.
#[tactic(auto, unfolding(crate::specs::Reading::refute_at))]
fn refute(alloc: Global, enc: Enc, cursor: &mut Cursor<'_>) -> Result<Proof, CodecError>
    ensures { ReadsUnlessMemory result cursor.new (refute_at enc cursor.old) }
{
    let mult = mult(alloc, enc, cursor)?;
    Ok(Proof::Refute { mult })
}

/// A bound on the objective.
#[tactic(auto, unfolding(crate::specs::Reading::bound_at))]
fn bound(alloc: Global, enc: Enc, cursor: &mut Cursor<'_>) -> Result<Proof, CodecError>
    ensures { ReadsUnlessMemory result cursor.new (bound_at enc cursor.old) }
{
    let rounded = cursor.flag()?;
    let mult = mult(alloc, enc, cursor)?;
    Ok(Proof::Bound { mult, rounded })
}

/// A column whose bounds cross.
#[tactic(auto, unfolding(crate::specs::Reading::empty_at))]
fn empty(enc: Enc, cursor: &mut Cursor<'_>) -> Result<Proof, CodecError>
    ensures { ReadsUnlessMemory result cursor.new (empty_at enc cursor.old) }
{
    let column = cursor.u32(enc)?;
    Ok(Proof::Empty { column })
}

/// Why a node is closed.
#[tactic(auto, unfolding(crate::specs::Reading::proof_at))]
fn proof(alloc: Global, enc: Enc, cursor: &mut Cursor<'_>) -> Result<Proof, CodecError>
    ensures { ReadsUnlessMemory result cursor.new (proof_at enc cursor.old) }
{
    let at = cursor.at();
    match cursor.byte()? {
        REFUTE => refute(alloc, enc, cursor),
        BOUND => bound(alloc, enc, cursor),
        EMPTY => empty(enc, cursor),
        _ => Err(CodecError::Fault(CodecFault::BadTag { at })),
    }
}

/// A cut.
#[tactic(auto, unfolding(crate::specs::Reading::cut_at))]
fn cut(alloc: Global, enc: Enc, cursor: &mut Cursor<'_>) -> Result<Event, CodecError>
    ensures { ReadsUnlessMemory result cursor.new (cut_at enc cursor.old) }
{
    let mult = mult(alloc, enc, cursor)?;
    Ok(Event::Cut { mult })
}

/// An offer.
#[tactic(auto, unfolding(crate::specs::Reading::offer_at))]
fn offer(alloc: Global, enc: Enc, cursor: &mut Cursor<'_>) -> Result<Event, CodecError>
    ensures { ReadsUnlessMemory result cursor.new (offer_at enc cursor.old) }
{
    let point = point(alloc, enc, cursor)?;
    Ok(Event::Offer { point })
}

/// A split.
#[tactic(auto, unfolding(crate::specs::Reading::split_at))]
fn split(alloc: Global, enc: Enc, cursor: &mut Cursor<'_>) -> Result<Event, CodecError>
    ensures { ReadsUnlessMemory result cursor.new (split_at enc cursor.old) }
{
    let node = cursor.u32(enc)?;
    let column = cursor.u32(enc)?;
    let bound = cursor.i64(enc)?;
    let reason = reason(alloc, enc, cursor)?;
    Ok(Event::Split {
        node,
        column,
        bound,
        reason,
    })
}

/// A closing.
#[tactic(auto, unfolding(crate::specs::Reading::close_at))]
fn close(alloc: Global, enc: Enc, cursor: &mut Cursor<'_>) -> Result<Event, CodecError>
    ensures { ReadsUnlessMemory result cursor.new (close_at enc cursor.old) }
{
    let node = cursor.u32(enc)?;
    let proof = proof(alloc, enc, cursor)?;
    Ok(Event::Close { node, proof })
}

/// The event of a tag and what stands behind it.
#[tactic(auto, unfolding(crate::specs::Reading::event_at))]
pub(crate) fn event(alloc: Global, enc: Enc, cursor: &mut Cursor<'_>) -> Result<Event, CodecError>
    ensures { ReadsUnlessMemory result cursor.new (event_at enc cursor.old) }
{
    let at = cursor.at();
    match cursor.byte()? {
        CUT => cut(alloc, enc, cursor),
        OFFER => offer(alloc, enc, cursor),
        SPLIT => split(alloc, enc, cursor),
        CLOSE => close(alloc, enc, cursor),
        _ => Err(CodecError::Fault(CodecFault::BadTag { at })),
    }
}
