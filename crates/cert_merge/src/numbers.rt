// The numbers of a certificate's lines.
ghost use Rattle.std.specs.Prelude.{◌≡◌, ◌<◌, ◌+◌, length, IfSome};
ghost use Rattle.cert_merge.specs.Layout.{layout_of};
ghost use Rattle.cert_merge.specs.Numbers.{assumption_line, node_line, bound_line, set_line, IsNumbered};

use crate::layout::Layout;
use event_core::State;
use node_tree::Side;
use problem::Problem;

/// The line of the assumption of a node that is there. Node 0 has none, and stands with node 1.
pub fn assumption_number(_state: &State, layout: Layout, node: u32) -> u32
    requires numbered { IsNumbered _state.now.state }
    requires laid { layout ≡ layout_of _state.now.state }
    requires there { node < length _state.now.state.nodes }
    ensures { result ≡ assumption_line _state.now.state node }
{
    (layout.assumptions + (node as usize).saturating_sub(1)) as u32
}

/// The line of a node that is there: they end with node 0.
pub fn node_number(_state: &State, layout: Layout, node: u32) -> u32
    requires numbered { IsNumbered _state.now.state }
    requires laid { layout ≡ layout_of _state.now.state }
    requires there { node < length _state.now.state.nodes }
    ensures { result ≡ node_line _state.now.state node }
{
    (layout.lines - 1 - node as usize) as u32
}

/// The row of a column's bound in the problem.
fn bound_row(problem: &Problem, column: u32, side: Side) -> u32
    requires { column < length problem.now.spans }
    ensures { result ≡ bound_line problem.now column side }
{
    problem.limits_hold();
    let lower = problem.rows() as u32 + 2 * column;
    match side {
        Side::Low => lower,
        Side::High => lower + 1,
    }
}

/// The line of a column's bound that this node's branch set, or no branch.
pub fn bound_number(
    state: &State,
    layout: Layout,
    column: u32,
    side: Side,
    setter: Option<u32>,
) -> u32
    requires numbered { IsNumbered state.now.state }
    requires laid { layout ≡ layout_of state.now.state }
    requires column_there { column < length state.now.state.problem.spans }
    requires node_there { IfSome setter (λ k. k < length state.now.state.nodes) }
    ensures { result ≡ set_line state.now.state column side setter }
{
    match setter {
        Some(node) => assumption_number(state, layout, node),
        None => bound_row(state.problem(), column, side),
    }
}
