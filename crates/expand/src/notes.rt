// What is noted of a node that a split made.
ghost use Rattle.std.specs.Prelude.{◌≡◌, ◌<◌, ◌≤◌, IfSome, length};
ghost use Rattle.expand.specs.Notes.{gain_over, gain_of, noted_gain};
ghost use Rattle.pseudo_cost.specs.Gains.{largest_gain};

use crate::origin::Origin;
use dual_simplex::Answer;
use fraction::Frac;
use pseudo_cost::{Costs, LARGEST_GAIN, gain};

/// The gain of a node over its parent's value, if there is one.
fn gain_over(parent: Frac, answer: &Answer) -> Option<u32>
    ensures value { result ≡ gain_over parent answer.now }
    ensures bounded { IfSome result (λ g. g ≤ largest_gain) }
{
    match answer {
        Answer::Infeasible { .. } => Some(LARGEST_GAIN),
        Answer::Optimal { value, .. } => gain(*value, parent),
        Answer::Cramped { .. } | Answer::Stalled => None,
    }
}

/// The gain that is to be noted, where this worker made the node by a split at a fractional optimum.
pub(crate) fn gain_of(origin: &Option<Origin>, answer: &Answer) -> Option<u32>
    ensures value { result ≡ gain_of origin.now answer.now }
    ensures bounded { IfSome result (λ g. g ≤ largest_gain) }
{
    match origin {
        Some(origin) => gain_over(origin.value, answer),
        None => None,
    }
}

/// Notes a gain for the column and the side of the split that made the node.
pub(crate) fn note(costs: &mut Costs, origin: &Option<Origin>, gain: Option<u32>)
    requires there { IfSome origin.now (λ o. o.column < length costs.old) }
    requires bounded { IfSome gain (λ g. g ≤ largest_gain) }
    ensures value { costs.new ≡ noted_gain origin.now gain costs.old }
    ensures columns { length costs.new ≡ length costs.old }
{
    if let (Some(origin), Some(gain)) = (origin, gain) {
        costs.note(origin.column, origin.side, gain);
    }
}
