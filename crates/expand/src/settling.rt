// How a node is settled.
ghost use Rattle.std.specs.Prelude.{◌≡◌, ◌<◌, ◌≤◌, ◌-◌, true, false, [], IfOk, All, Some, None, length, take};
ghost use Rattle.problem_box.specs.Boxes.{IsInBox};
ghost use Rattle.problem.specs.Limited.{IsModestSpan};
ghost use Rattle.problem.specs.Limits.{most_cuts};
ghost use Rattle.problem.specs.Directions.{aim};
ghost use Rattle.row_activity.specs.Activity.{low_of, IsLimitedBox};
ghost use Rattle.derivation_book.specs.Legal.{reaches};
ghost use Rattle.dual_simplex.specs.Relaxation.{LiesInBox};
ghost use Rattle.event_core.specs.States.{box_of, cutoff, is_open};
ghost use Rattle.expand.specs.Findings.{IsTrueFinding, IsRelaxationOptimum};
ghost use Rattle.expand.specs.Settlements.{IsSettlement};
ghost use Rattle.expand.specs.Verdicts.{IsPart};
ghost use Rattle.expand.specs.Settling.{improved_or_closed, branching_at, closed_or_branched, settled_optimum, settled};

use crate::closing::objective_bound;
use crate::finding::Finding;
use crate::mults::Mults;
use crate::optimum::{is_reached, is_rounded};
use crate::settlement::{Branching, Settlement};
use crate::whole_point::floors;
use derivation_book::reaches;
use event_core::{SplitPlace, State};
use fraction::Frac;
use node_events::{Mult, Proof, RationalPoint, Reason};
use problem::Point;
use problem_box::IntBox;
use row_activity::low;
use std::alloc::{AllocError, Global};

/// A point that is better than the incumbent becomes the incumbent; the proof closes the node in any case.
fn improved_or_closed(state: &State, point: Point, proof: Proof) -> Settlement
    requires { IsInBox state.now.state.problem.spans point }
    ensures { result ≡ improved_or_closed state.now.state point proof }
{
    let value = state.problem().aim_value(point.as_slice());
    if state.incumbent().is_bettered_by(value) {
        Settlement::Improved { point, proof }
    } else {
        Settlement::Closed { proof }
    }
}

/// The split of a node by the optimum of its relaxation, which isn't whole in this column.
fn branching_at(
    area: &IntBox,
    cuts: u32,
    point: RationalPoint,
    value: Frac,
    column: u32,
) -> Branching
    requires there { column < length point }
    requires modest { All IsModestSpan area.now }
    requires inside { LiesInBox area.now point }
    ensures { result ≡ branching_at cuts point value column }
{
    let bound = point.get(column as usize).floor() as i64;
    Branching {
        place: SplitPlace { column, bound },
        reason: Reason::Fractional { cuts, point },
        value: Some(value),
    }
}

/// How an optimum settles a node: it closes the node where its bound reaches the cutoff, and else splits it; a whole one is offered where it is better
/// than the incumbent. The one error is want of memory.
fn settled_optimum(
    alloc: Global,
    state: &State,
    area: &IntBox,
    cuts: u32,
    point: RationalPoint,
    mult: Mult,
    value: Frac,
    column: Option<u32>,
) -> Result<Settlement, AllocError>
    requires modest { All IsModestSpan area.now }
    requires part { IsPart state.now.state.problem area.now }
    requires solved { IsRelaxationOptimum state.now.state.problem state.now.state.cuts area.now cuts point mult value column }
    ensures { IfOk result (λ g. g ≡ settled_optimum state.now.state cuts point mult value column) }
{
    let problem = state.problem();
    let rounded = is_rounded(problem, value);
    let proof = Proof::Bound { mult, rounded };
    match column {
        None => {
            let point = floors(alloc, area, &point)?;
            Ok(improved_or_closed(state, point, proof))
        }
        Some(column) => {
            if is_reached(problem, state.incumbent().cutoff(), value) {
                Ok(Settlement::Closed { proof })
            } else {
                let branching = branching_at(area, cuts, point, value, column);
                Ok(Settlement::Branched { branching })
            }
        }
    }
}

/// How a run without an answer settles a node: the least aim over its box closes it where that reaches the cutoff, and else it is split.
fn settled_unanswered(
    alloc: Global,
    state: &State,
    area: &IntBox,
    reason: Reason,
    place: SplitPlace,
) -> Settlement
    requires columns { length area.now ≡ length state.now.state.problem.spans }
    requires limited { IsLimitedBox area.now }
    ensures { result ≡ closed_or_branched (reaches (cutoff state.now.state) false (Some (low_of area.now (aim state.now.state.problem)))) (Proof.Bound [] false) (record { place = place; reason = reason; value = None }) }
{
    let problem = state.problem();
    problem.limits_hold();
    let least = low(problem.aim(), area);
    if reaches(state.incumbent().cutoff(), false, Some(least)) {
        return Settlement::Closed {
            proof: objective_bound(alloc),
        };
    }
    Settlement::Branched {
        branching: Branching {
            place,
            reason,
            value: None,
        },
    }
}

/// The first of these cuts, as many as fit into a book that takes at most `limit`.
fn separated(state: &State, mults: Mults, limit: u32) -> Settlement
    ensures { result ≡ Settlement.Separated (take (limit - length state.now.state.cuts) mults) }
{
    let room = (limit as usize).saturating_sub(state.book().len());
    Settlement::Separated {
        mults: mults.first(room),
    }
}

/// How a finding settles the node with this box, by the cuts and the incumbent of the state. The finding holds there; the book takes at most `limit`
/// cuts. The one error is want of memory.
pub fn settle(
    alloc: Global,
    finding: Finding,
    state: &State,
    node: u32,
    area: &IntBox,
    limit: u32,
) -> Result<Settlement, AllocError>
    requires limit { limit ≤ most_cuts }
    requires opened { is_open state.now.state node ≡ true }
    requires area { area.now ≡ box_of state.now.state node }
    requires holds { IsTrueFinding state.now.state.problem state.now.state.cuts area.now (cutoff state.now.state) finding }
    ensures settled { IfOk result (λ g. g ≡ settled state.now.state area.now limit finding) }
    ensures legal { IfOk result (λ g. IsSettlement state.now.state area.now g) }
{
    state.conditions_hold();
    state.problem().limits_hold();
    match finding {
        Finding::Cuts { mults } => Ok(separated(state, mults, limit)),
        Finding::Shut { proof } => Ok(Settlement::Closed { proof }),
        Finding::Whole { point } => Ok(improved_or_closed(state, point, objective_bound(alloc))),
        Finding::Solved {
            cuts,
            point,
            mult,
            value,
            column,
        } => settled_optimum(alloc, state, area, cuts, point, mult, value, column),
        Finding::Loose {
            reason,
            column,
            bound,
        } => {
            let place = SplitPlace { column, bound };
            Ok(settled_unanswered(alloc, state, area, reason, place))
        }
    }
}
