// The multipliers of closed nodes.
ghost use Rattle.std.specs.Prelude.{◌≡◌, ◌<◌, ◌++◌, [], ◌∷◌, pos, int_lt, if◌then◌else◌, IfOk, OnOk, length, slice_index_or};
ghost use Rattle.std.specs.List.Sorted.{IsPermutation, IsNonDecreasingBy};
ghost use Rattle.fraction.specs.Rational.{whole};
ghost use Rattle.problem.specs.Rising.{AreRising};
ghost use Rattle.node_tree.specs.declared.branch.Side.TheVariants.{Low, High};
ghost use Rattle.derivation_book.specs.Rounded.{is_zero};
ghost use Rattle.derivation_book.specs.Legal.{AreProofMultipliers};
ghost use Rattle.derivation_book.specs.Price.{HasPrice};
ghost use Rattle.cert_merge.specs.Closing.{bound_multipliers};
ghost use Rattle.cert_merge.specs.Layout.{layout_of};
ghost use Rattle.cert_merge.specs.Numbers.{set_line, IsNumbered};
ghost use Rattle.cert_merge.specs.Merged.{node_multipliers, crossing};
ghost use Rattle.cert_merge.specs.Setters.{set_at, NameNodes, AreSettersOf, sources_by};

use crate::layout::Layout;
use crate::numbers::bound_number;
use crate::setters::Setters;
use event_core::State;
use fraction::Frac;
use node_events::Mult;
use node_tree::Side;
use problem::{Term, Terms};
use std::alloc::{AllocError, Global};

/// The line of a bound of a column in the box of the node whose setters these are.
fn line_of(state: &State, layout: Layout, setters: &Setters, column: u32, side: Side) -> u32
    requires numbered { IsNumbered state.now.state }
    requires laid { layout ≡ layout_of state.now.state }
    requires columns { length setters.now ≡ length state.now.state.problem.spans }
    requires nodes { NameNodes (length state.now.state.nodes) setters.now }
    requires there { column < length setters.now }
    ensures { result ≡ set_line state.now.state column side (set_at setters.now column side) }
{
    bound_number(
        state,
        layout,
        column,
        side,
        setters.get(column as usize, side),
    )
}

/// What is left of a column, on the line of the bound that it goes to.
fn bound_multiplier(
    state: &State,
    layout: Layout,
    setters: &Setters,
    column: u32,
    left: Frac,
) -> (u32, Frac)
    requires numbered { IsNumbered state.now.state }
    requires laid { layout ≡ layout_of state.now.state }
    requires columns { length setters.now ≡ length state.now.state.problem.spans }
    requires nodes { NameNodes (length state.now.state.nodes) setters.now }
    requires there { column < length setters.now }
    ensures { result ≡ (if int_lt (pos 0) left.num then set_line state.now.state column Low (set_at setters.now column Low) else set_line state.now.state column High (set_at setters.now column High), left) }
{
    let side = if left.numer() > 0 {
        Side::Low
    } else {
        Side::High
    };
    (line_of(state, layout, setters, column, side), left)
}

/// Puts what is left of a column, if anything is, behind other multipliers.
fn push_bound(
    items: &mut Vec<(u32, Frac)>,
    state: &State,
    layout: Layout,
    setters: &Setters,
    column: u32,
    left: Frac,
) -> Result<(), AllocError>
    requires numbered { IsNumbered state.now.state }
    requires laid { layout ≡ layout_of state.now.state }
    requires columns { length setters.now ≡ length state.now.state.problem.spans }
    requires nodes { NameNodes (length state.now.state.nodes) setters.now }
    requires there { column < length setters.now }
    ensures { OnOk result (items.new.items ≡ (if is_zero left then items.old.items else items.old.items ++ (if int_lt (pos 0) left.num then set_line state.now.state column Low (set_at setters.now column Low) else set_line state.now.state column High (set_at setters.now column High), left) ∷ [])) }
{
    if left.numer() != 0 {
        items.push(bound_multiplier(state, layout, setters, column, left))?;
    }
    Ok(())
}

/// What is left of each column, on the line of the bound that it goes to, in a list with room for so many.
fn bound_multipliers(
    alloc: Global,
    state: &State,
    layout: Layout,
    setters: &Setters,
    costs: &[Frac],
    room: usize,
) -> Result<Vec<(u32, Frac)>, AllocError>
    requires numbered { IsNumbered state.now.state }
    requires laid { layout ≡ layout_of state.now.state }
    requires columns { length setters.now ≡ length state.now.state.problem.spans }
    requires nodes { NameNodes (length state.now.state.nodes) setters.now }
    requires costs { length costs.now ≡ length setters.now }
    ensures { IfOk result (λ v. v.items ≡ bound_multipliers (λ j. slice_index_or costs.now j (whole (pos 0))) 0 (sources_by state.now.state 0 setters.now)) }
{
    state.problem().limits_hold();
    let mut items = Vec::with_capacity(alloc, room)?;
    for (column, left) in costs.iter().enumerate() {
        push_bound(&mut items, state, layout, setters, column as u32, *left)?;
    }
    Ok(items)
}

/// Puts multipliers behind others.
fn push_all(items: &mut Vec<(u32, Frac)>, mult: &[Term]) -> Result<(), AllocError>
    ensures { OnOk result (items.new.items ≡ items.old.items ++ mult.now) }
{
    for multiplier in mult {
        items.push(multiplier.pair())?;
    }
    Ok(())
}

/// The multipliers by rising number.
fn sorted(alloc: Global, mut items: Vec<(u32, Frac)>) -> Result<Terms, AllocError>
    ensures moved { IfOk result (λ t. IsPermutation items.items t) }
    ensures rising { IfOk result (λ t. IsNonDecreasingBy (λ m. m.0) t) }
{
    items.sort_unstable_by_key(|item| item.0);
    Terms::make(alloc, items.as_slice())
}

/// The multipliers of a node that a combination closes: those of the combination, and what it leaves of the target's columns on the lines of
/// the bounds of the node's box.
pub fn node_multipliers(
    alloc: Global,
    state: &State,
    layout: Layout,
    setters: &Setters,
    _node: u32,
    target: &[Term],
    mult: &Mult,
) -> Result<Terms, AllocError>
    requires numbered { IsNumbered state.now.state }
    requires laid { layout ≡ layout_of state.now.state }
    requires setters { AreSettersOf state.now.state _node setters.now }
    requires rising { AreRising target.now }
    requires multipliers { AreProofMultipliers state.now.state.problem state.now.state.cuts mult.now }
    requires priced { HasPrice state.now.state.problem state.now.state.cuts target.now mult.now }
    ensures { IfOk result (λ m. m ≡ node_multipliers state.now.state _node target.now mult.now) }
{
    state.conditions_hold();
    let costs = state
        .book()
        .reduced_costs(alloc, state.problem(), target, mult)?;
    let mult = mult.as_slice();
    let room = costs.len() + mult.len();
    let mut items = bound_multipliers(alloc, state, layout, setters, &costs, room)?;
    push_all(&mut items, mult)?;
    sorted(alloc, items)
}

/// The multipliers of a node whose box has a column without numbers: the lower bound once, less the upper one.
pub fn crossing(
    alloc: Global,
    state: &State,
    layout: Layout,
    setters: &Setters,
    _node: u32,
    column: u32,
) -> Result<Terms, AllocError>
    requires numbered { IsNumbered state.now.state }
    requires laid { layout ≡ layout_of state.now.state }
    requires setters { AreSettersOf state.now.state _node setters.now }
    requires there { column < length state.now.state.problem.spans }
    ensures { IfOk result (λ m. m ≡ crossing state.now.state _node column) }
{
    let lower = (
        line_of(state, layout, setters, column, Side::Low),
        Frac::of(1),
    );
    let upper = (
        line_of(state, layout, setters, column, Side::High),
        Frac::of(-1),
    );
    if lower.0 < upper.0 {
        Terms::make(alloc, &[lower, upper])
    } else {
        Terms::make(alloc, &[upper, lower])
    }
}
