//! The run over exact fractions.

ghost use Rattle.std.specs.Prelude.{◌≡◌, ◌+◌, ◌<◌, ◌≤◌, ◌^◌, IfOk, length, take};
ghost use Rattle.tableau.specs.Run.{run_from};
ghost use Rattle.dual_simplex.specs.Answers.{linear_program, run};
ghost use Rattle.dual_simplex.specs.Ends.{IsSolution};
ghost use Rattle.dual_simplex.specs.Sizes.{most_numbered_cuts};

use crate::answer::Answer;
use crate::final_tableau::FinalTableau;
use crate::program::linear_program;
use crate::solution::{Solution, pivot_limit, solution_at};
use derivation_book::Book;
use problem::Problem;
use problem_box::IntBox;
use std::alloc::{AllocError, Global};
use tableau::Tableau;

/// What the run answers that goes on from a tableau, with so many further pivots at most. The one error is want of memory.
pub(crate) fn run_on(
    alloc: Global,
    problem: &Problem,
    book: &Book,
    cuts: usize,
    area: &IntBox,
    tableau: Tableau,
    cap: u64,
) -> Result<Solution, AllocError>
    requires few { cuts ≤ length book.now.cuts }
    requires columns { length area.now ≡ length problem.now.spans }
    requires few_pivots { tableau.pivots + cap < 2 ^ 32 }
    requires rest { run (linear_program problem.now (take cuts book.now.cuts) area.now) ≡ run_from cap tableau }
    ensures { IfOk result (IsSolution problem.now (take cuts book.now.cuts) area.now) }
{
    let mut tableau = tableau;
    let place = tableau.run(alloc, cap)?;
    let tableau = FinalTableau::of_fractions(tableau);
    solution_at(alloc, problem, book, cuts, area, place, tableau, false)
}

/// What the run over exact fractions answers of a problem's rows and the first cuts over a box. The one error is want of memory.
pub(crate) fn solve_by_fractions(
    alloc: Global,
    problem: &Problem,
    book: &Book,
    cuts: usize,
    area: &IntBox,
) -> Result<Solution, AllocError>
    requires few { cuts ≤ length book.now.cuts }
    requires numbered { cuts < most_numbered_cuts }
    requires columns { length area.now ≡ length problem.now.spans }
    ensures { IfOk result (IsSolution problem.now (take cuts book.now.cuts) area.now) }
{
    let program = linear_program(alloc, problem, book, cuts, area)?;
    match Tableau::start(alloc, program)? {
        Some(start) => {
            let cap = pivot_limit(problem, cuts);
            run_on(alloc, problem, book, cuts, area, start, cap)
        }
        None => Ok(Solution {
            answer: Answer::Cramped { pivots: 0 },
            tableau: None,
        }),
    }
}
