//! The answer of a run on whole numbers of which no tableau is wanted.

ghost use Rattle.std.specs.Prelude.{◌≡◌, ◌+◌, ◌*◌, ◌<◌, ◌≤◌, ◌^◌, All, IsTrue, IsSome, IfOk, IfErr, IfSome, length, take};
ghost use Rattle.problem.specs.Limited.{IsModestSpan};
ghost use Rattle.integer_tableau.specs.FinalNumbers.{AreNumbersAt};
ghost use Rattle.dual_simplex.specs.Answers.{linear_program, run, answer};
ghost use Rattle.dual_simplex.specs.Prepared.{IsIntegerProgramOf};
ghost use Rattle.dual_simplex.specs.Sizes.{IsIntegerRelaxation, most_numbered_cuts};

use crate::answer::Answer;
use crate::answering::{infeasible_by, optimal_by};
use crate::sizes::is_modest;
use crate::solution::pivot_limit;
use crate::whole_run::solve_again;
use derivation_book::Book;
use integer_tableau::{FinalNumbers, IntegerProgram, IntegerTableau};
use node_events::{Mult, RationalPoint};
use problem::Problem;
use problem_box::IntBox;
use std::alloc::{AllocError, Global};
use tableau::Place;

/// The numbers at the end of the run of a relaxation over a box on whole numbers; none where there is no start on such numbers. The error inside says
/// that the run is given up, and how many pivots it made before. The one error outside is want of memory.
fn numbers_over(
    alloc: Global,
    problem: &Problem,
    book: &Book,
    cuts: usize,
    area: &IntBox,
    program: &mut IntegerProgram,
) -> Result<Option<Result<FinalNumbers, u64>>, AllocError>
    requires few { cuts ≤ length book.now.cuts }
    requires numbered { cuts < most_numbered_cuts }
    requires columns { length area.now ≡ length problem.now.spans }
    requires program { program.old ≡ linear_program problem.now (take cuts book.now.cuts) problem.now.spans }
    ensures ends { IfOk result (λ o. IfSome o (λ r. IfOk r (AreNumbersAt (run (linear_program problem.now (take cuts book.now.cuts) area.now))))) }
    ensures few_pivots { IfOk result (λ o. IfSome o (λ r. IfOk r (λ n. n.pivots < 2 ^ 32))) }
    ensures given_up { IfOk result (λ o. IfSome o (λ r. IfErr r (λ made. made ≤ 20 * (length problem.now.spans + (length problem.now.rows + cuts)) + 100))) }
    ensures same { program.new ≡ program.old }
{
    program.numbers_over(alloc, area, pivot_limit(problem, cuts))
}

/// Whether a box is modest, and the numbers at the end of a run over it have a denominator: then what its answer asks for is there.
fn are_small(area: &IntBox, numbers: &FinalNumbers) -> bool
    ensures modest { IsTrue result → All IsModestSpan area.now }
    ensures denominator { IsTrue result → IsSome numbers.now.denominator }
{
    is_modest(area) && numbers.denominator.is_some()
}

/// What the run answers that ended with these numbers. The one error is want of memory.
fn answer_of(
    alloc: Global,
    problem: &Problem,
    book: &Book,
    cuts: usize,
    area: &IntBox,
    numbers: FinalNumbers,
) -> Result<Answer, AllocError>
    requires few { cuts ≤ length book.now.cuts }
    requires columns { length area.now ≡ length problem.now.spans }
    requires integers { IsIntegerRelaxation problem.now (take cuts book.now.cuts) }
    requires few_pivots { numbers.pivots < 2 ^ 32 }
    requires ends { AreNumbersAt (run (linear_program problem.now (take cuts book.now.cuts) area.now)) numbers }
    ensures { IfOk result (λ a. a ≡ answer problem.now (take cuts book.now.cuts) area.now) }
{
    let is_there = are_small(area, &numbers);
    let pivots = numbers.pivots as u32;
    match numbers.place {
        Place::Done => {
            let point = RationalPoint::make(alloc, numbers.point)?;
            let mult = Mult::make(numbers.multipliers);
            optimal_by(
                alloc, problem, book, cuts, area, pivots, point, mult, is_there,
            )
        }
        Place::NoColumn { .. } => {
            let mult = Mult::make(numbers.multipliers);
            infeasible_by(alloc, problem, book, cuts, area, pivots, mult, is_there)
        }
        Place::Pivot { .. } => Ok(Answer::Stalled),
        Place::Cramped => Ok(Answer::Cramped { pivots }),
    }
}

/// The answer of a run that was given up after so many pivots, as `solve_again` makes it.
fn answer_again(
    alloc: Global,
    problem: &Problem,
    book: &Book,
    cuts: usize,
    area: &IntBox,
    program: &IntegerProgram,
    pivots: u64,
) -> Result<Option<Answer>, AllocError>
    requires few { cuts ≤ length book.now.cuts }
    requires numbered { cuts < most_numbered_cuts }
    requires columns { length area.now ≡ length problem.now.spans }
    requires program { program.now ≡ linear_program problem.now (take cuts book.now.cuts) problem.now.spans }
    requires within { pivots ≤ 20 * (length problem.now.spans + (length problem.now.rows + cuts)) + 100 }
    ensures { IfOk result (λ o. IfSome o (λ a. a ≡ answer problem.now (take cuts book.now.cuts) area.now)) }
{
    match solve_again::<IntegerTableau>(alloc, problem, book, cuts, area, program, pivots)? {
        Some(solution) => Ok(Some(solution.into_answer())),
        None => Ok(None),
    }
}

/// What the run answers of a problem's rows and the first cuts over a box, on whole numbers, and over exact fractions from where these are given up;
/// none where they can't start. Where the run ends by what the program keeps, no tableau is made. The one error is want of memory.
pub(crate) fn answer_by_integers(
    alloc: Global,
    problem: &Problem,
    book: &Book,
    cuts: usize,
    area: &IntBox,
    program: &mut IntegerProgram,
) -> Result<Option<Answer>, AllocError>
    requires few { cuts ≤ length book.now.cuts }
    requires numbered { cuts < most_numbered_cuts }
    requires columns { length area.now ≡ length problem.now.spans }
    requires program { IsIntegerProgramOf problem.now (take cuts book.now.cuts) program.old }
    ensures answer { IfOk result (λ o. IfSome o (λ a. a ≡ answer problem.now (take cuts book.now.cuts) area.now)) }
    ensures same { program.new ≡ program.old }
{
    match numbers_over(alloc, problem, book, cuts, area, program)? {
        Some(Ok(numbers)) => {
            let answer = answer_of(alloc, problem, book, cuts, area, numbers)?;
            Ok(Some(answer))
        }
        Some(Err(pivots)) => answer_again(alloc, problem, book, cuts, area, program, pivots),
        None => Ok(None),
    }
}
