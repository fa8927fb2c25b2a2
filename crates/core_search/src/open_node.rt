// The open nodes with their boxes.
ghost use Rattle.std.specs.Prelude.{◌≡◌, ◌<◌, ◌≤◌, ◌+◌, ◌^◌, pos, nat_abs, ◌+ℤ◌, ◌≤ℤ◌, ◌<ℤ◌, ◌++◌, IfOk, OnOk, All, length, slice_get};
ghost use Rattle.std.specs.Option.{ForSome};
ghost use Rattle.problem.specs.Limited.{IsModestSpan};
ghost use Rattle.problem.specs.Limits.{most_columns, largest_bound};
ghost use Rattle.node_tree.specs.Trees.{IsTree};
ghost use Rattle.event_core.specs.States.{tree_of};
ghost use Rattle.event_core.specs.Sound.{IsSound};
ghost use Rattle.expand.specs.Verdicts.{IsPart};
ghost use Rattle.core_search.specs.OpenNodes.{origin_of, children, HasNoOrigin, IsOpenNode, AreOpenNodes};

use event_core::{SplitPlace, State};
use expand::Origin;
use fraction::Frac;
use problem_box::IntBox;
use pseudo_cost::Side;
use std::alloc::{AllocError, Global};

/// An open node with its box. The box is kept, since it would take a walk along the tree to make it again.
#[derive(Drop)]
pub struct OpenNode {
    /// The node's number.
    pub number: u32,
    /// The node's box.
    pub area: IntBox,
    /// The split that made the node, where this search made it by a fractional optimum.
    pub origin: Option<Origin>,
}

/// The open nodes of a state, by rising number. The one error is want of memory.
pub fn open_nodes(alloc: Global, state: &State) -> Result<Vec<OpenNode>, AllocError>
    ensures listed { IfOk result (λ v. AreOpenNodes state.now.state v.items) }
    ensures new { IfOk result (λ v. All HasNoOrigin v.items) }
{
    let tree = state.tree();
    tree.conditions_hold();
    state.conditions_hold();
    let count = tree.len() as u32;
    let mut nodes = Vec::new(alloc);
    let mut place = 0;
    let mut walked = tree.root().copy(alloc)?;
    for number in 0..count {
        if state.is_open(number) {
            tree.walk(&mut walked, place, number);
            place = number;
            let area = walked.copy(alloc)?;
            nodes.push(OpenNode {
                number,
                area,
                origin: None,
            })?;
        }
    }
    Ok(nodes)
}

/// The origin of a child on this side of a split in a column, where the parent's optimal value is known.
fn origin_of(column: u32, side: Side, value: &Option<Frac>) -> Option<Origin>
    ensures { result ≡ origin_of column side value.now }
{
    match value {
        Some(value) => Some(Origin {
            column: column as usize,
            side,
            value: *value,
        }),
        None => None,
    }
}

/// Adds the two children of a node that is split: the left one has this number, and the right one the next. The parent's optimal value is told where
/// it is known. The one error is want of memory.
pub fn push_children(
    alloc: Global,
    nodes: &mut Vec<OpenNode>,
    number: u32,
    area: IntBox,
    place: SplitPlace,
    value: Option<Frac>,
) -> Result<(), AllocError>
    requires room { number + 1 < 2 ^ 32 }
    requires column { place.column < length area }
    requires left { ForSome (slice_get area place.column) (λ s. (s.lo ≤ℤ place.bound) × (place.bound <ℤ s.hi)) }
    requires right { ForSome (slice_get area place.column) (λ s. (s.lo <ℤ (place.bound +ℤ pos 1)) × ((place.bound +ℤ pos 1) ≤ℤ s.hi)) }
    requires bound { nat_abs place.bound ≤ largest_bound }
    ensures { OnOk result (nodes.new.items ≡ nodes.old.items ++ children number area place.column place.bound value) }
{
    let column = place.column as usize;
    let left_origin = origin_of(place.column, Side::Down, &value);
    let right_origin = origin_of(place.column, Side::Up, &value);
    let mut right = area.copy(alloc)?;
    right.cut_low(column, place.bound + 1);
    let mut left = area;
    left.cut_high(column, place.bound);
    nodes.push(OpenNode {
        number,
        area: left,
        origin: left_origin,
    })?;
    nodes.push(OpenNode {
        number: number + 1,
        area: right,
        origin: right_origin,
    })?;
    Ok(())
}

/// What is true of an open node. This computes nothing: its contract is for callers' proofs.
pub fn node_conditions_hold(state: &State, node: &OpenNode)
    requires { IsOpenNode state.now.state node.now }
    ensures sound { IsSound state.now.state }
    ensures tree { IsTree (tree_of state.now.state) }
    ensures columns { length node.now.area ≡ length state.now.state.problem.spans }
    ensures few { length node.now.area ≤ most_columns }
    ensures modest { All IsModestSpan node.now.area }
    ensures part { IsPart state.now.state.problem node.now.area }
{
    let problem = state.problem();
    state.conditions_hold();
    problem.limits_hold();
}
