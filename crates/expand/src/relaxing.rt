// What the linear program of a node says.
ghost use Rattle.std.specs.Prelude.{◌≡◌, ◌<◌, ◌≤◌, IfOk, OnOk, OnErr, IfSome, Some, All, length};
ghost use Rattle.problem.specs.Limited.{IsModestSpan};
ghost use Rattle.problem.specs.Limits.{most_columns, most_cuts};
ghost use Rattle.problem.specs.Linear.{Multipliers};
ghost use Rattle.dual_simplex.specs.declared.answer.Answer.TheVariants.{Optimal};
ghost use Rattle.dual_simplex.specs.Answers.{linear_program, run, answer};
ghost use Rattle.row_activity.specs.Meaning.{IsOpen};
ghost use Rattle.expand.specs.Columns.{fractional_columns};
ghost use Rattle.expand.specs.Expansion.{cuts_found, IsOfAnswer, IsOfOptimum, IsUnanswered};
ghost use Rattle.expand.specs.Subproblems.{IsSubproblem};
ghost use Rattle.expand.specs.Notes.{with_note, noted_gain};
ghost use Rattle.pseudo_cost.specs.Gains.{largest_gain};

use crate::branching::first_free;
use crate::columns::{fractional_columns, split_column};
use crate::cuts::cuts_found;
use crate::finding::Finding;
use crate::mults::Mults;
use crate::notes::{gain_of, note};
use crate::origin::Origin;
use crate::subproblem::Subproblem;
use dual_simplex::{Answer, FinalTableau, Relaxation, Solution};
use event_core::middle;
use fraction::Frac;
use node_events::{Mult, Proof, RationalPoint, Reason};
use problem_box::IntBox;
use pseudo_cost::Costs;
use std::alloc::{AllocError, Global};

/// The finding where the run came to no answer: the node may be split in the middle of the first free column of its box.
fn unanswered(area: &IntBox, reason: Reason) -> Finding
    requires free { IsOpen area.now }
    requires few { length area.now ≤ most_columns }
    requires modest { All IsModestSpan area.now }
    ensures { IsUnanswered area.now reason result }
{
    let column = first_free(area);
    let bound = middle(area.span(column));
    Finding::Loose {
        reason,
        column: column as u32,
        bound,
    }
}

/// The finding at an optimum: the cuts that separate it, or else itself, with the column of these in which the node may be split.
fn cuts_or_optimum(
    cuts: usize,
    costs: &Costs,
    point: RationalPoint,
    mult: Mult,
    value: Frac,
    columns: &[usize],
    mults: Mults,
) -> Finding
    requires few { cuts ≤ most_cuts }
    requires few_columns { length costs.now ≤ most_columns }
    requires there { length costs.now ≡ length point }
    requires columns { columns.now ≡ fractional_columns point }
    ensures { IsOfOptimum costs.now cuts point mult value mults result }
{
    if !mults.is_empty() {
        return Finding::Cuts { mults };
    }
    let column = split_column(costs, columns);
    Finding::Solved {
        cuts: cuts as u32,
        point,
        mult,
        value,
        column,
    }
}

/// The columns where an optimum's point isn't whole, and the cuts that separate it. The one error is want of memory.
fn columns_and_cuts(
    alloc: Global,
    subproblem: &Subproblem,
    tableau: &Option<FinalTableau>,
    point: &RationalPoint,
    value: Frac,
    room: usize,
) -> Result<(Vec<usize>, Mults), AllocError>
    requires few { length subproblem.now.book.now.cuts ≤ most_cuts }
    requires area { length subproblem.now.area.now ≡ length subproblem.now.problem.now.spans }
    requires tableau { 0 < room → IfSome (run (linear_program subproblem.now.problem.now subproblem.now.book.now.cuts subproblem.now.area.now)).tableau (λ t. tableau.now ≡ Some t) }
    requires optimal { (mult : Multipliers) × (answer subproblem.now.problem.now subproblem.now.book.now.cuts subproblem.now.area.now ≡ Optimal point.now mult value) }
    requires point { length point.now ≡ length subproblem.now.problem.now.spans }
    ensures columns { IfOk result (λ r. r.0.items ≡ fractional_columns point.now) }
    ensures cuts { IfOk result (λ r. r.1 ≡ cuts_found subproblem.now.problem.now subproblem.now.book.now.cuts subproblem.now.area.now subproblem.now.cutoff room point.now value) }
{
    let columns = fractional_columns(alloc, point)?;
    let mults = cuts_found(alloc, subproblem, tableau, point, value, &columns, room)?;
    Ok((columns, mults))
}

/// What an optimum says of the node. The one error is want of memory; nothing is noted then.
fn at_optimum(
    alloc: Global,
    subproblem: &Subproblem,
    costs: &mut Costs,
    origin: &Option<Origin>,
    gain: Option<u32>,
    room: usize,
    tableau: &Option<FinalTableau>,
    point: RationalPoint,
    mult: Mult,
    value: Frac,
) -> Result<Finding, AllocError>
    requires few { length subproblem.now.book.now.cuts ≤ most_cuts }
    requires area { length subproblem.now.area.now ≡ length subproblem.now.problem.now.spans }
    requires costs { length costs.old ≡ length subproblem.now.problem.now.spans }
    requires origin { IfSome origin.now (λ o. o.column < length costs.old) }
    requires gain { IfSome gain (λ g. g ≤ largest_gain) }
    requires tableau { 0 < room → IfSome (run (linear_program subproblem.now.problem.now subproblem.now.book.now.cuts subproblem.now.area.now)).tableau (λ t. tableau.now ≡ Some t) }
    requires optimal { answer subproblem.now.problem.now subproblem.now.book.now.cuts subproblem.now.area.now ≡ Optimal point mult value }
    requires point { length point ≡ length subproblem.now.problem.now.spans }
    ensures found { IfOk result (λ f. IsOfOptimum costs.new (length subproblem.now.book.now.cuts) point mult value (cuts_found subproblem.now.problem.now subproblem.now.book.now.cuts subproblem.now.area.now subproblem.now.cutoff room point value) f) }
    ensures noted { OnOk result (costs.new ≡ noted_gain origin.now gain costs.old) }
    ensures failed { OnErr result (costs.new ≡ costs.old) }
    ensures columns { length costs.new ≡ length costs.old }
{
    subproblem.problem.limits_hold();
    let (columns, mults) = columns_and_cuts(alloc, subproblem, tableau, &point, value, room)?;
    note(costs, origin, gain);
    let cuts = subproblem.book.len();
    Ok(cuts_or_optimum(cuts, costs, point, mult, value, &columns, mults))
}

/// What an answer of the linear program says of the node, where the node's box is open. The one error is want of memory; nothing is noted then.
fn at_answer(
    alloc: Global,
    subproblem: &Subproblem,
    costs: &mut Costs,
    origin: &Option<Origin>,
    room: usize,
    tableau: &Option<FinalTableau>,
    outcome: Answer,
) -> Result<Finding, AllocError>
    requires few { length subproblem.now.book.now.cuts ≤ most_cuts }
    requires area { length subproblem.now.area.now ≡ length subproblem.now.problem.now.spans }
    requires modest { All IsModestSpan subproblem.now.area.now }
    requires free { IsOpen subproblem.now.area.now }
    requires costs { length costs.old ≡ length subproblem.now.problem.now.spans }
    requires origin { IfSome origin.now (λ o. o.column < length costs.old) }
    requires tableau { 0 < room → IfSome (run (linear_program subproblem.now.problem.now subproblem.now.book.now.cuts subproblem.now.area.now)).tableau (λ t. tableau.now ≡ Some t) }
    requires answered { outcome ≡ answer subproblem.now.problem.now subproblem.now.book.now.cuts subproblem.now.area.now }
    ensures found { IfOk result (λ f. IsOfAnswer subproblem.now.problem.now subproblem.now.book.now.cuts subproblem.now.area.now subproblem.now.cutoff costs.new room (answer subproblem.now.problem.now subproblem.now.book.now.cuts subproblem.now.area.now) f) }
    ensures noted { OnOk result (costs.new ≡ with_note origin.now (answer subproblem.now.problem.now subproblem.now.book.now.cuts subproblem.now.area.now) costs.old) }
    ensures failed { OnErr result (costs.new ≡ costs.old) }
    ensures columns { length costs.new ≡ length costs.old }
{
    subproblem.problem.limits_hold();
    let gain = gain_of(origin, &outcome);
    let cuts = subproblem.book.len() as u32;
    match outcome {
        Answer::Infeasible { mult } => {
            note(costs, origin, gain);
            Ok(Finding::Shut {
                proof: Proof::Refute { mult },
            })
        }
        Answer::Optimal { point, mult, value } => at_optimum(
            alloc, subproblem, costs, origin, gain, room, tableau, point, mult, value,
        ),
        Answer::Cramped { pivots } => Ok(unanswered(
            subproblem.area,
            Reason::Cramped { cuts, pivots },
        )),
        Answer::Stalled => Ok(unanswered(subproblem.area, Reason::Stalled { cuts })),
    }
}

/// What the linear program of a node answers, and the tableau that its run left: that is made only where there is room for cuts. The one error is want
/// of memory.
fn answered(
    alloc: Global,
    subproblem: &Subproblem,
    relaxation: &mut Relaxation,
    room: usize,
) -> Result<(Answer, Option<FinalTableau>), AllocError>
    requires { IsSubproblem subproblem.now.problem.now subproblem.now.book.now.cuts relaxation.old subproblem.now.area.now }
    ensures answer { IfOk result (λ r. r.0 ≡ answer subproblem.now.problem.now subproblem.now.book.now.cuts subproblem.now.area.now) }
    ensures tableau { IfOk result (λ r. 0 < room → IfSome (run (linear_program subproblem.now.problem.now subproblem.now.book.now.cuts subproblem.now.area.now)).tableau (λ t. r.1 ≡ Some t)) }
    ensures same { relaxation.new ≡ relaxation.old }
{
    if room == 0 {
        let answer = relaxation.answer(
            alloc,
            subproblem.problem,
            subproblem.book,
            subproblem.area,
        )?;
        return Ok((answer, None));
    }
    let Solution { answer, tableau } = relaxation.solve(
        alloc,
        subproblem.problem,
        subproblem.book,
        subproblem.area,
    )?;
    Ok((answer, tableau))
}

/// What the linear program of a node says, where the node's box is open. The one error is want of memory; nothing is noted then.
pub(crate) fn relax(
    alloc: Global,
    subproblem: &Subproblem,
    relaxation: &mut Relaxation,
    costs: &mut Costs,
    origin: &Option<Origin>,
    room: usize,
) -> Result<Finding, AllocError>
    requires subproblem { IsSubproblem subproblem.now.problem.now subproblem.now.book.now.cuts relaxation.old subproblem.now.area.now }
    requires free { IsOpen subproblem.now.area.now }
    requires costs { length costs.old ≡ length subproblem.now.problem.now.spans }
    requires origin { IfSome origin.now (λ o. o.column < length costs.old) }
    ensures found { IfOk result (λ f. IsOfAnswer subproblem.now.problem.now subproblem.now.book.now.cuts subproblem.now.area.now subproblem.now.cutoff costs.new room (answer subproblem.now.problem.now subproblem.now.book.now.cuts subproblem.now.area.now) f) }
    ensures noted { OnOk result (costs.new ≡ with_note origin.now (answer subproblem.now.problem.now subproblem.now.book.now.cuts subproblem.now.area.now) costs.old) }
    ensures failed { OnErr result (costs.new ≡ costs.old) }
    ensures columns { length costs.new ≡ length costs.old }
    ensures same { relaxation.new ≡ relaxation.old }
{
    let (answer, tableau) = answered(alloc, subproblem, relaxation, room)?;
    at_answer(alloc, subproblem, costs, origin, room, &tableau, answer)
}
