// What is found of a node.
ghost use Rattle.std.specs.Prelude.{◌≡◌, ◌<◌, IfOk, OnOk, OnErr, IfSome, length};
ghost use Rattle.expand.specs.Expansion.{IsExpansion, costs_after};
ghost use Rattle.expand.specs.Findings.{IsTrueFinding};
ghost use Rattle.expand.specs.Subproblems.{IsSubproblem};

use crate::closing::{empty_span, objective_bound, refutation};
use crate::corners::corner;
use crate::finding::Finding;
use crate::origin::Origin;
use crate::relaxing::relax;
use crate::subproblem::Subproblem;
use dual_simplex::Relaxation;
use gomory_cuts::laws::separations_separate;
use pseudo_cost::Costs;
use row_activity::{Verdict, box_verdict};
use std::alloc::{AllocError, Global};

/// What is found of a node: by the verdict on its box, or else by its linear program, which is the relaxation with all cuts. What a relaxation keeps
/// from one node to the next may change.
///
/// A fractional optimum whose bound is below the cutoff is separated, where there is room for cuts. Where none is found, the finding is the optimum,
/// with the column of greatest score. Before the choice of that column, the gain of the node over its parent is noted, where `origin` tells of the
/// split that made the node. The one error is want of memory; nothing is noted then.
pub fn expand(
    alloc: Global,
    subproblem: &Subproblem,
    relaxation: &mut Relaxation,
    costs: &mut Costs,
    origin: Option<Origin>,
    room: usize,
) -> Result<Finding, AllocError>
    requires subproblem { IsSubproblem subproblem.now.problem.now subproblem.now.book.now.cuts relaxation.old subproblem.now.area.now }
    requires costs { length costs.old ≡ length subproblem.now.problem.now.spans }
    requires origin { IfSome origin (λ o. o.column < length costs.old) }

    ensures found { IfOk result (λ f. IsExpansion subproblem.now.problem.now subproblem.now.book.now.cuts subproblem.now.area.now subproblem.now.cutoff costs.new room f) }
    ensures holds { IfOk result (λ f. IsTrueFinding subproblem.now.problem.now subproblem.now.book.now.cuts subproblem.now.area.now subproblem.now.cutoff f) }
    ensures noted { OnOk result (costs.new ≡ costs_after subproblem.now.problem.now subproblem.now.book.now.cuts subproblem.now.area.now subproblem.now.cutoff origin costs.old) }
    ensures failed { OnErr result (costs.new ≡ costs.old) }
    ensures columns { length costs.new ≡ length costs.old }
    ensures same { relaxation.new ≡ relaxation.old }
{
    subproblem.problem.limits_hold();
    separations_separate();
    match box_verdict(subproblem.problem, subproblem.area, subproblem.cutoff) {
        Verdict::Empty { column } => Ok(Finding::Shut {
            proof: empty_span(column),
        }),
        Verdict::Refuted { row, sign } => Ok(Finding::Shut {
            proof: refutation(alloc, row, sign)?,
        }),
        Verdict::Priced => Ok(Finding::Shut {
            proof: objective_bound(alloc),
        }),
        Verdict::Point => Ok(Finding::Whole {
            point: corner(alloc, subproblem.area)?,
        }),
        Verdict::Unsettled => relax(alloc, subproblem, relaxation, costs, &origin, room),
    }
}
