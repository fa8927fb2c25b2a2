//! What a run answers.

ghost use Rattle.std.specs.Prelude.{◌≡◌, ◌<◌, ◌≤◌, ◌+◌, ◌*◌, ◌^◌, IsTrue, IfOk, length, take};
ghost use Rattle.tableau.specs.Run.{EndsAs};
ghost use Rattle.dual_simplex.specs.Answers.{linear_program, run};
ghost use Rattle.dual_simplex.specs.Ends.{IsAnswerThere, IsSolution};
ghost use Rattle.dual_simplex.specs.Sizes.{most_numbered_cuts};

use crate::answer::Answer;
use crate::answering::answer_at;
use crate::final_tableau::FinalTableau;
use derivation_book::Book;
use problem::Problem;
use problem_box::IntBox;
use std::alloc::{AllocError, Global};
use tableau::Place;

/// What a run answers, and the tableau that it left.
#[derive(Drop)]
pub struct Solution {
    /// The answer.
    pub answer: Answer,
    /// The tableau at the end of the run. After a cramped pivot it tells only how many pivots were whole; at a cramped start there is none.
    pub tableau: Option<FinalTableau>,
}

impl Solution {
    /// Its answer, without the tableau.
    pub(crate) fn into_answer(self) -> Answer
        ensures { result ≡ self.answer }
    {
        let Solution { answer, tableau: _ } = self;
        answer
    }
}

/// How many pivots a run makes at most.
pub(crate) fn pivot_limit(problem: &Problem, cuts: usize) -> u64
    requires { cuts < most_numbered_cuts }
    ensures value { result ≡ 20 * (length problem.now.spans + (length problem.now.rows + cuts)) + 100 }
    ensures few { result < 2 ^ 32 }
{
    problem.limits_hold();
    20 * (problem.columns() + (problem.rows() + cuts)) as u64 + 100
}

/// What the run answers that ended at this place with this tableau, and the tableau. `is_there` says that no sum of its answer is cramped. The one error
/// is want of memory.
pub(crate) fn solution_at(
    alloc: Global,
    problem: &Problem,
    book: &Book,
    cuts: usize,
    area: &IntBox,
    place: Place,
    tableau: FinalTableau,
    is_there: bool,
) -> Result<Solution, AllocError>
    requires few { cuts ≤ length book.now.cuts }
    requires columns { length area.now ≡ length problem.now.spans }
    requires few_pivots { tableau.pivots < 2 ^ 32 }
    requires ends { EndsAs (run (linear_program problem.now (take cuts book.now.cuts) area.now)) place tableau }
    requires there { IsTrue is_there → IsAnswerThere problem.now (take cuts book.now.cuts) area.now place tableau }
    ensures { IfOk result (IsSolution problem.now (take cuts book.now.cuts) area.now) }
{
    let answer = answer_at(alloc, problem, book, cuts, area, &tableau, place, is_there)?;
    Ok(Solution {
        answer,
        tableau: Some(tableau),
    })
}
