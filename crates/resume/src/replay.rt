// The payloads of a journal are applied as events.
ghost use Rattle.std.specs.Prelude.{◌≡◌, ◌+◌, ◌≤◌, ◌<◌, ◌++◌, ◌∷◌, [], if◌then◌else◌, true, None, All, IfOk, IfErr, OnOk, IsErrOf, IsTrue, ◌↔◌, length};
ghost use Rattle.dual_simplex.specs.Prepared.{IsKept};
ghost use Rattle.event_core.specs.declared.admit.Admit.TheVariants.{Yes};
ghost use Rattle.event_core.specs.Judging.{judged};
ghost use Rattle.event_core.specs.After.{after};
ghost use Rattle.event_core.specs.Histories.{is_journaled, state_from, IsLegal, AreLegalFrom};
ghost use Rattle.event_core.specs.Rooms.{HasNumbers};
ghost use Rattle.node_journal.specs.Views.{payloads_of};
ghost use Rattle.resume.specs.Models.{IsModelOf};
ghost use Rattle.resume.specs.Events.{read_entries, IsNoPayload, IsApplied};
ghost use Rattle.event_codec.specs.Groups.{group_of};
ghost use Rattle.event_codec.specs.Upgrades.{is_upgrade};
ghost use Rattle.node_pool.specs.Payloads.{model_in, is_upgraded, spelled, in_encoding};
ghost use Rattle.resume.specs.Journals.{IsReplayed};
ghost use Rattle.resume.specs.Refusals.{RefusesEvents};
ghost use Rattle.node_tree.specs.Limits.{most_nodes};

use crate::ResumeFault;
use crate::fault::PayloadFault;
use dual_simplex::KeptRelaxation;
use event_codec::{CodecError, Enc, decode_group, is_upgrade};
use event_core::{Admit, State};
use node_events::Event;
use node_journal::Scanned;
use node_tree::MOST_NODES;
use problem::Problem;
use std::alloc::{AllocError, Global};

/// Whether the tree has few enough nodes for the event.
fn has_numbers(state: &State, event: &Event) -> bool
    ensures { IsTrue result ↔ HasNumbers state.now.state event.now }
{
    match event {
        Event::Split { .. } => state.tree().len() <= MOST_NODES as usize - 2,
        _ => true,
    }
}

/// Whether the event may come next without a worker: it is admitted, and the tree has few enough nodes for it.
fn may_come(
    alloc: Global,
    state: &State,
    kept: &mut KeptRelaxation,
    event: &Event,
) -> Result<bool, AllocError>
    requires { IsKept state.now.state.problem state.now.state.cuts kept.old }
    ensures may { IfOk result (λ b. IsTrue b ↔ ((judged state.now.state None event.now ≡ Yes) × HasNumbers state.now.state event.now)) }
    ensures kept { IsKept state.now.state.problem state.now.state.cuts kept.new }
{
    let admit = state.admits_with(alloc, None, event, kept)?;
    Ok(admit == Admit::Yes && has_numbers(state, event))
}

/// Applies an event to a state in which nobody holds a node. `Damaged`: it isn't legal there, or the tree has too many nodes by it. The relaxation by which
/// a step is judged is kept for the next one.
fn apply_event(
    alloc: Global,
    state: &mut State,
    kept: &mut KeptRelaxation,
    event: Event,
) -> Result<(), PayloadFault>
    requires kept { IsKept state.old.state.problem state.old.state.cuts kept.old }
    requires unheld { state.old.state.holds ≡ [] }
    requires few { length state.old.state.nodes ≤ most_nodes }
    requires journaled { is_journaled event ≡ true }
    ensures legal { OnOk result (IsLegal state.old.state None event) }
    ensures few { OnOk result (length state.new.state.nodes ≤ most_nodes) }
    ensures state { OnOk result (state.new.state ≡ after state.old.state None event) }
    ensures history { OnOk result (state.new.history ≡ state.old.history ++ read_entries (event ∷ [])) }
    ensures kept { OnOk result (IsKept state.new.state.problem state.new.state.cuts kept.new) }
    ensures damaged { IsErrOf result PayloadFault.Damaged → IsLegal state.old.state None event → length (after state.old.state None event).nodes ≤ most_nodes → ⊥ }
{
    state.approach(&event);
    if !may_come(alloc, state, kept, &event)? {
        return Err(PayloadFault::Damaged);
    }
    let made = state.reserve(alloc, &event)?;
    state.apply(None, event, made);
    Ok(())
}

/// Applies events one after another, from a state in which nobody holds a node. `Damaged`: one of them isn't legal after those before it, or the tree has
/// too many nodes by it. The state is then of no more use.
fn apply_events(
    alloc: Global,
    state: &mut State,
    kept: &mut KeptRelaxation,
    events: Vec<Event>,
) -> Result<(), PayloadFault>
    requires kept { IsKept state.old.state.problem state.old.state.cuts kept.old }
    requires unheld { state.old.state.holds ≡ [] }
    requires few { length state.old.state.nodes ≤ most_nodes }
    requires journaled { All (λ e. is_journaled e ≡ true) events.items }
    ensures legal { OnOk result (AreLegalFrom state.old.state (read_entries events.items)) }
    ensures few { OnOk result (length state.new.state.nodes ≤ most_nodes) }
    ensures state { OnOk result (state.new.state ≡ state_from state.old.state (read_entries events.items)) }
    ensures history { OnOk result (state.new.history ≡ state.old.history ++ read_entries events.items) }
    ensures kept { OnOk result (IsKept state.new.state.problem state.new.state.cuts kept.new) }
    ensures damaged { IsErrOf result PayloadFault.Damaged → AreLegalFrom state.old.state (read_entries events.items) → length (state_from state.old.state (read_entries events.items)).nodes ≤ most_nodes → ⊥ }
{
    for event in events {
        apply_event(alloc, state, kept, event)?;
    }
    Ok(())
}

/// Applies the events of a group, by its payload in an encoding, to a state in which nobody holds a node. `Damaged`: the payload is no group, or not all of its
/// events may come next. The state is then of no more use.
fn apply_group(
    alloc: Global,
    enc: Enc,
    state: &mut State,
    kept: &mut KeptRelaxation,
    payload: &[u8],
) -> Result<(), PayloadFault>
    requires kept { IsKept state.old.state.problem state.old.state.cuts kept.old }
    requires unheld { state.old.state.holds ≡ [] }
    requires few { length state.old.state.nodes ≤ most_nodes }
    requires group { spelled enc payload.now ≡ in_encoding enc (group_of enc payload.now) }
    ensures applied { OnOk result (IsApplied enc state.old payload.now state.new enc) }
    ensures kept { OnOk result (IsKept state.new.state.problem state.new.state.cuts kept.new) }
    ensures damaged { IsErrOf result PayloadFault.Damaged → IsNoPayload enc state.old.state payload.now }
{
    match decode_group(alloc, enc, payload) {
        Ok(events) => apply_events(alloc, state, kept, events),
        Err(CodecError::Fault(_)) => Err(PayloadFault::Damaged),
        Err(CodecError::Memory) => Err(PayloadFault::Memory),
    }
}

/// Applies the events of a payload in an encoding, and answers the encoding of the payloads behind it. The record of the upgrade has no events, and is read in
/// encoding 1 alone. The rest is as of `apply_group`.
fn apply_payload(
    alloc: Global,
    enc: Enc,
    state: &mut State,
    kept: &mut KeptRelaxation,
    payload: &[u8],
) -> Result<Enc, PayloadFault>
    requires kept { IsKept state.old.state.problem state.old.state.cuts kept.old }
    requires unheld { state.old.state.holds ≡ [] }
    requires few { length state.old.state.nodes ≤ most_nodes }
    ensures applied { IfOk result (IsApplied enc state.old payload.now state.new) }
    ensures next { IfOk result (λ next. next ≡ (if is_upgrade payload.now then Enc.Two else enc)) }
    ensures kept { OnOk result (IsKept state.new.state.problem state.new.state.cuts kept.new) }
    ensures damaged { IsErrOf result PayloadFault.Damaged → IsNoPayload enc state.old.state payload.now }
{
    if enc == Enc::One && is_upgrade(payload) {
        return Ok(Enc::Two);
    }
    apply_group(alloc, enc, state, kept, payload)?;
    Ok(enc)
}

/// The state to which the payloads behind the first one lead, which is the record of a model of this problem, and whether the record of the upgrade is among
/// them. `Damaged` has the place of the gate of the first with which they stand for no search. One thread does all of it
/// (docs/DECISIONS.md, entry 73).
pub fn replay(
    alloc: Global,
    scanned: &Scanned,
    problem: Problem,
) -> Result<(State, bool), ResumeFault>
    requires some { 0 < length (payloads_of scanned.now) }
    requires model { IsModelOf (model_in (payloads_of scanned.now)) problem }
    ensures problem { IfOk result (λ r. r.0.state.problem ≡ problem) }
    ensures read { IfOk result (λ r. IsReplayed (payloads_of scanned.now) r.0) }
    ensures upgraded { IfOk result (λ r. r.1 ≡ is_upgraded (payloads_of scanned.now)) }
    ensures refused { IfErr result (λ e. RefusesEvents e (payloads_of scanned.now)) }
{
    let mut state = State::new(alloc, problem)?;
    let mut kept = KeptRelaxation::none();
    let mut enc = Enc::One;
    for number in 1..scanned.count() {
        match apply_payload(alloc, enc, &mut state, &mut kept, scanned.payload(number)) {
            Ok(next) => {
                enc = next;
            }
            Err(fault) => return Err(fault.behind(scanned.place(number))),
        }
    }
    Ok((state, enc == Enc::Two))
}
