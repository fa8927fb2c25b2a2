// The derived lines of a certificate.
ghost use Rattle.std.specs.Prelude.{◌≡◌, ◌<◌, [], IfOk, length, option_map, slice_get, codes};
ghost use Rattle.problem.specs.Directions.{aim};
ghost use Rattle.cert_rows.specs.Validity.{bound_sense};
ghost use Rattle.node_tree.specs.Nodes.{children_at};
ghost use Rattle.derivation_book.specs.Legal.{AreProofMultipliers, IsLegalProof};
ghost use Rattle.derivation_book.specs.Price.{HasPrice};
ghost use Rattle.event_core.specs.States.{tree_of, box_of, cutoff, open_count};
ghost use Rattle.cert_merge.specs.Endings.{AreClosings};
ghost use Rattle.cert_merge.specs.Layout.{layout_of};
ghost use Rattle.cert_merge.specs.Numbers.{IsNumbered};
ghost use Rattle.cert_merge.specs.Merged.{label_of, labelled, absurd_row, goal_row, sense_for, branch_row, cut_line, node_multipliers, bound_reason, crossing, closed_line, split_line, for_node, node_of};
ghost use Rattle.cert_merge.specs.Setters.{AreSettersOf};
ghost use Rattle.cert_rows.specs.declared.line.Why.TheVariants.{Asm, Lin};
ghost use Rattle.node_events.specs.declared.proof.Proof.TheVariants.{Empty, Refute, Bound};

use crate::closings::proof_at;
use crate::layout::Layout;
use crate::multipliers::{crossing, node_multipliers};
use crate::numbers::{assumption_number, node_number};
use crate::part::{labelled_row, unit_terms};
use crate::setters::Setters;
use cert_rows::{CertRow, Label, Why};
use derivation_book::Book;
use event_core::State;
use fraction::Frac;
use node_events::{Mult, Proof};
use node_tree::{Branch, Side};
use problem::{ObjectiveSense, Problem, Sense, Terms};
use std::alloc::{AllocError, Global};

/// The line of a cut that is there.
pub fn cut_line(alloc: Global, book: &Book, index: usize) -> Result<(CertRow, Why), AllocError>
    requires { index < length book.now.cuts }
    ensures { IfOk result (λ l. option_map (cut_line index) (slice_get book.now.cuts index) ≡ Some l) }
{
    let row = labelled_row(alloc, b'K', index, book.cut(index))?;
    let mult = book.mult(index).terms().copy(alloc)?;
    Ok((row, Why::Rnd { mult }))
}

/// The sense of a row that states a bound.
fn sense_for(side: Side) -> Sense
    ensures { result ≡ sense_for side }
{
    match side {
        Side::Low => Sense::G,
        Side::High => Sense::L,
    }
}

/// The assumption of a node: the bound that its branch sets.
pub fn assumption(alloc: Global, node: usize, branch: Branch) -> Result<(CertRow, Why), AllocError>
    ensures { IfOk result (λ l. l ≡ (labelled (label_of (codes "A") node) (branch_row branch), Asm)) }
{
    let terms = unit_terms(alloc, branch.column as usize)?;
    let row = CertRow {
        label: Label::make(b'A', node),
        sense: sense_for(branch.side),
        rhs: Frac::of(branch.bound as i128),
        terms,
    };
    Ok((row, Why::Asm))
}

/// The row `0 >= 1` of a node.
fn absurd_row(alloc: Global, node: u32) -> CertRow
    ensures { result ≡ labelled (label_of (codes "N") node) absurd_row }
{
    CertRow {
        label: Label::make(b'N', node as usize),
        sense: Sense::G,
        rhs: Frac::of(1),
        terms: Terms::new(alloc),
    }
}

/// The sense of a row that bounds the objective by the best value that it can have.
fn bound_sense(sense: ObjectiveSense) -> Sense
    ensures { result ≡ bound_sense sense }
{
    match sense {
        ObjectiveSense::Minimise => Sense::G,
        ObjectiveSense::Maximise => Sense::L,
    }
}

/// The row of a node that shows what node 0 has to: the objective is at least the incumbent's value, where it is maximised at most; or `0 >= 1`.
fn goal_row(
    alloc: Global,
    problem: &Problem,
    value: Option<Frac>,
    node: u32,
) -> Result<CertRow, AllocError>
    ensures { IfOk result (λ r. r ≡ labelled (label_of (codes "N") node) (goal_row problem.now value)) }
{
    match value {
        None => Ok(absurd_row(alloc, node)),
        Some(rhs) => {
            let terms = problem.objective().copy(alloc)?;
            Ok(CertRow {
                label: Label::make(b'N', node as usize),
                sense: bound_sense(problem.sense()),
                rhs,
                terms,
            })
        }
    }
}

/// The line of a node whose bounds of a column cross.
fn crossed_line(
    alloc: Global,
    state: &State,
    layout: Layout,
    setters: &Setters,
    node: u32,
    column: u32,
) -> Result<(CertRow, Why), AllocError>
    requires numbered { IsNumbered state.now.state }
    requires laid { layout ≡ layout_of state.now.state }
    requires setters { AreSettersOf state.now.state node setters.now }
    requires there { column < length state.now.state.problem.spans }
    ensures { IfOk result (λ l. l ≡ for_node node (closed_line state.now.state node (Empty column))) }
{
    let row = absurd_row(alloc, node);
    let mult = crossing(alloc, state, layout, setters, node, column)?;
    Ok((row, Why::Lin { mult }))
}

/// The line of a node that a combination refutes over the node's box.
fn refuted_line(
    alloc: Global,
    state: &State,
    layout: Layout,
    setters: &Setters,
    node: u32,
    mult: &Mult,
) -> Result<(CertRow, Why), AllocError>
    requires numbered { IsNumbered state.now.state }
    requires laid { layout ≡ layout_of state.now.state }
    requires setters { AreSettersOf state.now.state node setters.now }
    requires multipliers { AreProofMultipliers state.now.state.problem state.now.state.cuts mult.now }
    requires priced { HasPrice state.now.state.problem state.now.state.cuts [] mult.now }
    ensures { IfOk result (λ l. l ≡ for_node node (closed_line state.now.state node (Refute mult.now))) }
{
    let row = absurd_row(alloc, node);
    let mult = node_multipliers(alloc, state, layout, setters, node, &[], mult)?;
    Ok((row, Why::Lin { mult }))
}

/// Why a bound of the objective follows.
fn bound_reason(rounded: bool, mult: Terms) -> Why
    ensures { result ≡ bound_reason rounded mult }
{
    if rounded {
        Why::Rnd { mult }
    } else {
        Why::Lin { mult }
    }
}

/// The line of a node over whose box a combination bounds the objective by the incumbent's value.
fn bounded_line(
    alloc: Global,
    state: &State,
    layout: Layout,
    setters: &Setters,
    node: u32,
    mult: &Mult,
    rounded: bool,
) -> Result<(CertRow, Why), AllocError>
    requires numbered { IsNumbered state.now.state }
    requires laid { layout ≡ layout_of state.now.state }
    requires setters { AreSettersOf state.now.state node setters.now }
    requires multipliers { AreProofMultipliers state.now.state.problem state.now.state.cuts mult.now }
    requires priced { HasPrice state.now.state.problem state.now.state.cuts (aim state.now.state.problem) mult.now }
    ensures { IfOk result (λ l. l ≡ for_node node (closed_line state.now.state node (Bound mult.now rounded))) }
{
    let problem = state.problem();
    problem.limits_hold();
    let row = goal_row(alloc, problem, state.best_value(), node)?;
    let target = problem.aim().as_slice();
    let mult = node_multipliers(alloc, state, layout, setters, node, target, mult)?;
    let mult = mult.directed(alloc, problem.sense())?;
    Ok((row, bound_reason(rounded, mult)))
}

/// The line of a node that was closed by this proof, which is legal as things stand.
fn closed_line(
    alloc: Global,
    state: &State,
    layout: Layout,
    setters: &Setters,
    node: u32,
    proof: &Proof,
) -> Result<(CertRow, Why), AllocError>
    requires numbered { IsNumbered state.now.state }
    requires laid { layout ≡ layout_of state.now.state }
    requires setters { AreSettersOf state.now.state node setters.now }
    requires legal { IsLegalProof state.now.state.problem state.now.state.cuts (box_of state.now.state node) (cutoff state.now.state) proof.now }
    ensures { IfOk result (λ l. l ≡ for_node node (closed_line state.now.state node proof.now)) }
{
    match proof {
        Proof::Empty { column } => crossed_line(alloc, state, layout, setters, node, *column),
        Proof::Refute { mult } => refuted_line(alloc, state, layout, setters, node, mult),
        Proof::Bound { mult, rounded } => {
            bounded_line(alloc, state, layout, setters, node, mult, *rounded)
        }
    }
}

/// The line of a node that was split into two.
fn split_line(
    alloc: Global,
    state: &State,
    layout: Layout,
    node: u32,
    left: u32,
    right: u32,
) -> Result<(CertRow, Why), AllocError>
    requires numbered { IsNumbered state.now.state }
    requires laid { layout ≡ layout_of state.now.state }
    requires left { left < length state.now.state.nodes }
    requires right { right < length state.now.state.nodes }
    ensures { IfOk result (λ l. l ≡ for_node node (split_line state.now.state (left, right))) }
{
    let row = goal_row(alloc, state.problem(), state.best_value(), node)?;
    let why = Why::Uns {
        i1: node_number(state, layout, left),
        l1: assumption_number(state, layout, left),
        i2: node_number(state, layout, right),
        l2: assumption_number(state, layout, right),
    };
    Ok((row, why))
}

/// The line of a node of a search that has ended: these are the places of the events that closed nodes, and the node's setters.
pub fn node_line(
    alloc: Global,
    state: &State,
    layout: Layout,
    closings: &[usize],
    setters: &Setters,
    node: u32,
) -> Result<(CertRow, Why), AllocError>
    requires ended { open_count state.now.state ≡ 0 }
    requires numbered { IsNumbered state.now.state }
    requires laid { layout ≡ layout_of state.now.state }
    requires there { node < length state.now.state.nodes }
    requires places { AreClosings state.now.history closings.now }
    requires all { length closings.now ≡ length state.now.state.nodes }
    requires setters { AreSettersOf state.now.state node setters.now }
    ensures { IfOk result (λ l. l ≡ node_of state.now.state state.now.history node) }
{
    state.conditions_hold();
    match state.tree().children(node) {
        Some((left, right)) => split_line(alloc, state, layout, node, left, right),
        None => {
            let proof = proof_at(state.history(), closings[node as usize], node);
            closed_line(alloc, state, layout, setters, node, proof)
        }
    }
}
