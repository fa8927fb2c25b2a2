//! The run that goes on whole numbers first.

ghost use Rattle.std.specs.Prelude.{◌≡◌, ◌+◌, ◌*◌, ◌<◌, ◌≤◌, ◌^◌, true, IfOk, IfErr, IfSome, Some, length, take};
ghost use Rattle.tableau.specs.Start.{started};
ghost use Rattle.tableau.specs.Run.{EndsAs};
ghost use Rattle.dual_simplex.specs.Answers.{linear_program, run};
ghost use Rattle.dual_simplex.specs.Ends.{IsSolution};
ghost use Rattle.dual_simplex.specs.Sizes.{IsIntegerRelaxation, most_numbered_cuts};

use crate::fraction_run::run_on;
use crate::solution::{Solution, pivot_limit, solution_at};
use crate::whole_tableau::WholeTableau;
use derivation_book::Book;
use problem::Problem;
use problem_box::IntBox;
use std::alloc::{AllocError, Global};
use tableau::Place;

/// The tableau of a relaxation over a box at the start; none where its numbers are too large. The one error is want of memory.
pub(crate) fn start<T: WholeTableau>(
    alloc: Global,
    problem: &Problem,
    book: &Book,
    cuts: usize,
    area: &IntBox,
    program: &T::Program,
) -> Result<Option<T>, AllocError>
    requires columns { length area.now ≡ length problem.now.spans }
    requires program { T.program_of program.now ≡ linear_program problem.now (take cuts book.now.cuts) problem.now.spans }
    ensures value { IfOk result (λ o. IfSome o (λ t. started (linear_program problem.now (take cuts book.now.cuts) area.now) ≡ Some (T.tableau_of t))) }
    ensures pivots { IfOk result (λ o. IfSome o (λ t. (T.tableau_of t).pivots ≡ 0)) }
{
    T::start(alloc, program, area)
}

/// The run of a relaxation over a box on whole numbers: its last place, and the tableau there; none where there is no start on such numbers. The error
/// inside says that the run is given up, and how many pivots it made before. The one error outside is want of memory.
fn run_over<T: WholeTableau>(
    alloc: Global,
    problem: &Problem,
    book: &Book,
    cuts: usize,
    area: &IntBox,
    program: &mut T::Program,
) -> Result<Option<Result<(Place, T), u64>>, AllocError>
    requires few { cuts ≤ length book.now.cuts }
    requires numbered { cuts < most_numbered_cuts }
    requires columns { length area.now ≡ length problem.now.spans }
    requires program { T.program_of program.old ≡ linear_program problem.now (take cuts book.now.cuts) problem.now.spans }
    ensures ends { IfOk result (λ o. IfSome o (λ r. IfOk r (λ e. EndsAs (run (linear_program problem.now (take cuts book.now.cuts) area.now)) e.0 (T.tableau_of e.1)))) }
    ensures few_pivots { IfOk result (λ o. IfSome o (λ r. IfOk r (λ e. (T.tableau_of e.1).pivots < 2 ^ 32))) }
    ensures given_up { IfOk result (λ o. IfSome o (λ r. IfErr r (λ made. made ≤ 20 * (length problem.now.spans + (length problem.now.rows + cuts)) + 100))) }
    ensures same { program.new ≡ program.old }
{
    T::run_over(alloc, program, area, pivot_limit(problem, cuts))
}

/// What a run answers that ended so, and its tableau. The one error is want of memory.
fn solution_of<T: WholeTableau>(
    alloc: Global,
    problem: &Problem,
    book: &Book,
    cuts: usize,
    area: &IntBox,
    place: Place,
    tableau: T,
) -> Result<Solution, AllocError>
    requires few { cuts ≤ length book.now.cuts }
    requires columns { length area.now ≡ length problem.now.spans }
    requires integers { T.is_of_integers ≡ true → IsIntegerRelaxation problem.now (take cuts book.now.cuts) }
    requires few_pivots { (T.tableau_of tableau).pivots < 2 ^ 32 }
    requires ends { EndsAs (run (linear_program problem.now (take cuts book.now.cuts) area.now)) place (T.tableau_of tableau) }
    ensures { IfOk result (IsSolution problem.now (take cuts book.now.cuts) area.now) }
{
    let is_there = tableau.is_small(area);
    let tableau = tableau.into_final();
    solution_at(alloc, problem, book, cuts, area, place, tableau, is_there)
}

/// What the run answers whose first pivots, so many, are made on whole numbers, and the others over exact fractions; none where a pivot on whole
/// numbers is given up, or one of these is too large as a fraction. The one error is want of memory.
fn solve_from<T: WholeTableau>(
    alloc: Global,
    problem: &Problem,
    book: &Book,
    cuts: usize,
    area: &IntBox,
    start: T,
    pivots: u64,
) -> Result<Option<Solution>, AllocError>
    requires few { cuts ≤ length book.now.cuts }
    requires numbered { cuts < most_numbered_cuts }
    requires columns { length area.now ≡ length problem.now.spans }
    requires fresh { (T.tableau_of start).pivots ≡ 0 }
    requires start { started (linear_program problem.now (take cuts book.now.cuts) area.now) ≡ Some (T.tableau_of start) }
    requires within { pivots ≤ 20 * (length problem.now.spans + (length problem.now.rows + cuts)) + 100 }
    ensures { IfOk result (λ o. IfSome o (IsSolution problem.now (take cuts book.now.cuts) area.now)) }
{
    let limit = pivot_limit(problem, cuts);
    let Some(last) = start.after_pivots(pivots) else {
        return Ok(None);
    };
    let Some(tableau) = last.fractions(alloc)? else {
        return Ok(None);
    };
    let solution = run_on(alloc, problem, book, cuts, area, tableau, limit - pivots)?;
    Ok(Some(solution))
}

/// The same of a run that was given up after so many pivots, from its start on; none also where there is no start on whole numbers.
pub(crate) fn solve_again<T: WholeTableau>(
    alloc: Global,
    problem: &Problem,
    book: &Book,
    cuts: usize,
    area: &IntBox,
    program: &T::Program,
    pivots: u64,
) -> Result<Option<Solution>, AllocError>
    requires few { cuts ≤ length book.now.cuts }
    requires numbered { cuts < most_numbered_cuts }
    requires columns { length area.now ≡ length problem.now.spans }
    requires program { T.program_of program.now ≡ linear_program problem.now (take cuts book.now.cuts) problem.now.spans }
    requires within { pivots ≤ 20 * (length problem.now.spans + (length problem.now.rows + cuts)) + 100 }
    ensures { IfOk result (λ o. IfSome o (IsSolution problem.now (take cuts book.now.cuts) area.now)) }
{
    match start::<T>(alloc, problem, book, cuts, area, program)? {
        Some(again) => solve_from(alloc, problem, book, cuts, area, again, pivots),
        None => Ok(None),
    }
}

/// What the run answers of a problem's rows and the first cuts over a box, on whole numbers, and over exact fractions from where these are given up;
/// none where they can't start. The one error is want of memory.
pub(crate) fn solve_by<T: WholeTableau>(
    alloc: Global,
    problem: &Problem,
    book: &Book,
    cuts: usize,
    area: &IntBox,
    program: &mut T::Program,
) -> Result<Option<Solution>, AllocError>
    requires few { cuts ≤ length book.now.cuts }
    requires numbered { cuts < most_numbered_cuts }
    requires columns { length area.now ≡ length problem.now.spans }
    requires program { T.program_of program.old ≡ linear_program problem.now (take cuts book.now.cuts) problem.now.spans }
    requires integers { T.is_of_integers ≡ true → IsIntegerRelaxation problem.now (take cuts book.now.cuts) }
    ensures solution { IfOk result (λ o. IfSome o (IsSolution problem.now (take cuts book.now.cuts) area.now)) }
    ensures same { program.new ≡ program.old }
{
    match run_over::<T>(alloc, problem, book, cuts, area, program)? {
        Some(Ok((place, tableau))) => {
            let solution = solution_of(alloc, problem, book, cuts, area, place, tableau)?;
            Ok(Some(solution))
        }
        Some(Err(pivots)) => solve_again::<T>(alloc, problem, book, cuts, area, program, pivots),
        None => Ok(None),
    }
}
