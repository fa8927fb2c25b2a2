//! The linear program of a problem and cuts.

ghost use Rattle.std.specs.Prelude.{◌≡◌, ◌<◌, ◌≤◌, ◌^◌, IfOk, length, take};
ghost use Rattle.dual_simplex.specs.Answers.{linear_program};

use derivation_book::Book;
use problem::Problem;
use problem_box::IntBox;
use std::alloc::{AllocError, Global};
use tableau::LinearProgram;

/// The linear program of a problem's rows and the first cuts over a box. The one error is want of memory.
pub(crate) fn linear_program(
    alloc: Global,
    problem: &Problem,
    book: &Book,
    cuts: usize,
    area: &IntBox,
) -> Result<LinearProgram, AllocError>
    requires few { cuts ≤ length book.now.cuts }
    requires numbered { cuts < 2 ^ 31 }
    requires columns { length area.now ≡ length problem.now.spans }
    ensures { IfOk result (λ p. p ≡ linear_program problem.now (take cuts book.now.cuts) area.now) }
{
    problem.limits_hold();
    let mut program = LinearProgram::of(alloc, problem, area)?;
    for index in 0..cuts {
        program.add_cut(alloc, book.cut(index))?;
    }
    Ok(program)
}
