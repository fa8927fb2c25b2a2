//! The run that somebody claims to be cramped after so many pivots.
//!
//! The run is made up to the pivot that has to be cramped by the claim, and no further. So a wrong claim costs no more than a right one.

ghost use Rattle.std.specs.Prelude.{◌≡◌, ◌⊎◌, ◌↔◌, ◌+◌, ◌-◌, ◌*◌, ◌<◌, ◌≤◌, ◌^◌, IsTrue, IfOk, IfSome, Some, length, take};
ghost use Rattle.tableau.specs.Start.{started};
ghost use Rattle.tableau.specs.Run.{EndsAs, run_from};
ghost use Rattle.dual_simplex.specs.Answers.{linear_program, run, answer};
ghost use Rattle.dual_simplex.specs.Claims.{IsStop, IsStoppedRun};
ghost use Rattle.dual_simplex.specs.Ends.{IsAnswerThere};
ghost use Rattle.dual_simplex.specs.Prepared.{IsIntegerProgramOf};
ghost use Rattle.dual_simplex.specs.Sizes.{IsIntegerRelaxation, most_numbered_cuts};

use crate::answer::Answer;
use crate::answering::answer_at;
use crate::final_tableau::FinalTableau;
use crate::program::linear_program;
use crate::solution::pivot_limit;
use crate::whole_run::start;
use crate::whole_tableau::WholeTableau;
use derivation_book::Book;
use integer_tableau::{IntegerProgram, IntegerRunEnd, IntegerTableau};
use problem::Problem;
use problem_box::IntBox;
use std::alloc::{AllocError, Global};
use tableau::{Place, Tableau};

/// How many pivots are tried at most, where the run is claimed to be cramped after so many.
fn claimed_cap(problem: &Problem, cuts: usize, claim: u32) -> u64
    requires { cuts < most_numbered_cuts }
    ensures claimed { result ≤ claim + 1 }
    ensures limited { result ≤ 20 * (length problem.now.spans + (length problem.now.rows + cuts)) + 100 }
    ensures enough { (result ≡ claim + 1) ⊎ (result ≡ 20 * (length problem.now.spans + (length problem.now.rows + cuts)) + 100) }
    ensures few { result < 2 ^ 32 }
    ensures numbered { 20 * (length problem.now.spans + (length problem.now.rows + cuts)) + 100 < 2 ^ 32 }
{
    let limit = pivot_limit(problem, cuts);
    let claimed = u64::from(claim) + 1;
    if claimed <= limit { claimed } else { limit }
}

/// Whether the answer is that the run was cramped after so many pivots.
fn is_cramped(answer: &Answer, claim: u32) -> bool
    ensures { IsTrue result ↔ (answer.now ≡ Answer.Cramped claim) }
{
    match answer {
        Answer::Cramped { pivots } => *pivots == claim,
        _ => false,
    }
}

/// Whether the run is cramped after so many pivots, where it ended so. `is_there` says that no sum of its answer is cramped. The one error is want of
/// memory.
fn is_cramped_end(
    alloc: Global,
    problem: &Problem,
    book: &Book,
    cuts: usize,
    area: &IntBox,
    tableau: &FinalTableau,
    place: Place,
    is_there: bool,
    claim: u32,
) -> Result<bool, AllocError>
    requires few { cuts ≤ length book.now.cuts }
    requires columns { length area.now ≡ length problem.now.spans }
    requires few_pivots { tableau.now.pivots < 2 ^ 32 }
    requires ends { EndsAs (run (linear_program problem.now (take cuts book.now.cuts) area.now)) place tableau.now }
    requires there { IsTrue is_there → IsAnswerThere problem.now (take cuts book.now.cuts) area.now place tableau.now }
    ensures { IfOk result (λ b. IsTrue b ↔ (answer problem.now (take cuts book.now.cuts) area.now ≡ Answer.Cramped claim)) }
{
    let answer = answer_at(alloc, problem, book, cuts, area, tableau, place, is_there)?;
    Ok(is_cramped(&answer, claim))
}

/// The same by where the run was stopped.
fn is_cramped_at(
    alloc: Global,
    problem: &Problem,
    book: &Book,
    cuts: usize,
    area: &IntBox,
    tableau: &FinalTableau,
    place: Place,
    is_there: bool,
    claim: u32,
) -> Result<bool, AllocError>
    requires few { cuts ≤ length book.now.cuts }
    requires columns { length area.now ≡ length problem.now.spans }
    requires few_pivots { tableau.now.pivots < 2 ^ 32 }
    requires stop { IsStop problem.now (take cuts book.now.cuts) area.now claim place tableau.now }
    requires there { IsTrue is_there → IsAnswerThere problem.now (take cuts book.now.cuts) area.now place tableau.now }
    ensures { IfOk result (λ b. IsTrue b ↔ (answer problem.now (take cuts book.now.cuts) area.now ≡ Answer.Cramped claim)) }
{
    match place {
        Place::Pivot { .. } => Ok(false),
        Place::Done | Place::NoColumn { .. } | Place::Cramped => is_cramped_end(
            alloc, problem, book, cuts, area, tableau, place, is_there, claim,
        ),
    }
}

/// The same of a run that goes on from a tableau, with so many further pivots at most.
fn is_cramped_from(
    alloc: Global,
    problem: &Problem,
    book: &Book,
    cuts: usize,
    area: &IntBox,
    tableau: Tableau,
    cap: u64,
    claim: u32,
) -> Result<bool, AllocError>
    requires few { cuts ≤ length book.now.cuts }
    requires columns { length area.now ≡ length problem.now.spans }
    requires few_pivots { tableau.pivots + cap < 2 ^ 32 }
    requires stops { IsStoppedRun problem.now (take cuts book.now.cuts) area.now claim (run_from cap tableau) }
    ensures { IfOk result (λ b. IsTrue b ↔ (answer problem.now (take cuts book.now.cuts) area.now ≡ Answer.Cramped claim)) }
{
    let mut tableau = tableau;
    let place = tableau.run(alloc, cap)?;
    let tableau = FinalTableau::of_fractions(tableau);
    is_cramped_at(
        alloc, problem, book, cuts, area, &tableau, place, false, claim,
    )
}

/// The same of the run over exact fractions.
pub(crate) fn is_cramped_by_fractions(
    alloc: Global,
    problem: &Problem,
    book: &Book,
    cuts: usize,
    area: &IntBox,
    claim: u32,
) -> Result<bool, AllocError>
    requires few { cuts ≤ length book.now.cuts }
    requires numbered { cuts < most_numbered_cuts }
    requires columns { length area.now ≡ length problem.now.spans }
    ensures { IfOk result (λ b. IsTrue b ↔ (answer problem.now (take cuts book.now.cuts) area.now ≡ Answer.Cramped claim)) }
{
    let program = linear_program(alloc, problem, book, cuts, area)?;
    match Tableau::start(alloc, program)? {
        Some(start) => {
            let cap = claimed_cap(problem, cuts, claim);
            is_cramped_from(alloc, problem, book, cuts, area, start, cap, claim)
        }
        None => Ok(claim == 0),
    }
}

/// The same of a run on whole numbers that was stopped so.
fn is_cramped_at_integers(
    alloc: Global,
    problem: &Problem,
    book: &Book,
    cuts: usize,
    area: &IntBox,
    end: IntegerRunEnd,
    claim: u32,
) -> Result<bool, AllocError>
    requires few { cuts ≤ length book.now.cuts }
    requires columns { length area.now ≡ length problem.now.spans }
    requires integers { IsIntegerRelaxation problem.now (take cuts book.now.cuts) }
    requires few_pivots { end.tableau.pivots < 2 ^ 32 }
    requires stop { IsStop problem.now (take cuts book.now.cuts) area.now claim end.place end.tableau }
    ensures { IfOk result (λ b. IsTrue b ↔ (answer problem.now (take cuts book.now.cuts) area.now ≡ Answer.Cramped claim)) }
{
    let IntegerRunEnd { place, tableau } = end;
    let is_there = tableau.is_small(area);
    let tableau = tableau.into_final();
    is_cramped_at(
        alloc, problem, book, cuts, area, &tableau, place, is_there, claim,
    )
}

/// The same of a run that goes on over exact fractions from a tableau on whole numbers, with so many further pivots at most; always there.
fn is_cramped_on(
    alloc: Global,
    problem: &Problem,
    book: &Book,
    cuts: usize,
    area: &IntBox,
    last: &IntegerTableau,
    cap: u64,
    claim: u32,
) -> Result<Option<bool>, AllocError>
    requires few { cuts ≤ length book.now.cuts }
    requires columns { length area.now ≡ length problem.now.spans }
    requires few_variables { length last.now.statuses < 2 ^ 32 }
    requires few_pivots { last.now.pivots + cap < 2 ^ 32 }
    requires stops { IsStoppedRun problem.now (take cuts book.now.cuts) area.now claim (run_from cap last.now) }
    ensures { IfOk result (λ o. IfSome o (λ b. IsTrue b ↔ (answer problem.now (take cuts book.now.cuts) area.now ≡ Answer.Cramped claim))) }
{
    let tableau = last.fractions(alloc)?;
    let cramped = is_cramped_from(alloc, problem, book, cuts, area, tableau, cap, claim)?;
    Ok(Some(cramped))
}

/// The same of a run whose first pivots, so many, are made on whole numbers, and the others over exact fractions; none where a pivot on whole numbers is
/// given up.
fn is_cramped_behind(
    alloc: Global,
    problem: &Problem,
    book: &Book,
    cuts: usize,
    area: &IntBox,
    start: IntegerTableau,
    pivots: u64,
    cap: u64,
    claim: u32,
) -> Result<Option<bool>, AllocError>
    requires few { cuts ≤ length book.now.cuts }
    requires columns { length area.now ≡ length problem.now.spans }
    requires fresh { start.pivots ≡ 0 }
    requires numbered { 20 * (length problem.now.spans + (length problem.now.rows + cuts)) + 100 < 2 ^ 32 }
    requires start { started (linear_program problem.now (take cuts book.now.cuts) area.now) ≡ Some start }
    requires within { pivots ≤ cap }
    requires few_pivots { cap < 2 ^ 32 }
    requires stops { IsStoppedRun problem.now (take cuts book.now.cuts) area.now claim (run_from cap start) }
    ensures { IfOk result (λ o. IfSome o (λ b. IsTrue b ↔ (answer problem.now (take cuts book.now.cuts) area.now ≡ Answer.Cramped claim))) }
{
    match start.after_pivots(pivots) {
        Some(last) => {
            let rest = cap - pivots;
            is_cramped_on(alloc, problem, book, cuts, area, &last, rest, claim)
        }
        None => Ok(None),
    }
}

/// The same of a run on whole numbers that was given up after so many pivots.
fn go_on(
    alloc: Global,
    problem: &Problem,
    book: &Book,
    cuts: usize,
    area: &IntBox,
    program: &IntegerProgram,
    pivots: u64,
    cap: u64,
    claim: u32,
) -> Result<Option<bool>, AllocError>
    requires few { cuts ≤ length book.now.cuts }
    requires numbered { 20 * (length problem.now.spans + (length problem.now.rows + cuts)) + 100 < 2 ^ 32 }
    requires columns { length area.now ≡ length problem.now.spans }
    requires program { IsIntegerProgramOf problem.now (take cuts book.now.cuts) program.now }
    requires within { pivots ≤ cap }
    requires limited { cap ≤ 20 * (length problem.now.spans + (length problem.now.rows + cuts)) + 100 }
    requires enough { (cap ≡ claim + 1) ⊎ (cap ≡ 20 * (length problem.now.spans + (length problem.now.rows + cuts)) + 100) }
    ensures { IfOk result (λ o. IfSome o (λ b. IsTrue b ↔ (answer problem.now (take cuts book.now.cuts) area.now ≡ Answer.Cramped claim))) }
{
    match start::<IntegerTableau>(alloc, problem, book, cuts, area, program)? {
        Some(start) => {
            is_cramped_behind(alloc, problem, book, cuts, area, start, pivots, cap, claim)
        }
        None => Ok(None),
    }
}

/// The same of the run from a start, on whole numbers, and over exact fractions from where these are given up.
fn run_to_claim(
    alloc: Global,
    problem: &Problem,
    book: &Book,
    cuts: usize,
    area: &IntBox,
    program: &IntegerProgram,
    start: IntegerTableau,
    claim: u32,
) -> Result<Option<bool>, AllocError>
    requires few { cuts ≤ length book.now.cuts }
    requires numbered { cuts < most_numbered_cuts }
    requires columns { length area.now ≡ length problem.now.spans }
    requires program { IsIntegerProgramOf problem.now (take cuts book.now.cuts) program.now }
    requires fresh { start.pivots ≡ 0 }
    requires start { started (linear_program problem.now (take cuts book.now.cuts) area.now) ≡ Some start }
    ensures { IfOk result (λ o. IfSome o (λ b. IsTrue b ↔ (answer problem.now (take cuts book.now.cuts) area.now ≡ Answer.Cramped claim))) }
{
    let cap = claimed_cap(problem, cuts, claim);
    match start.run(cap) {
        Ok(end) => {
            let cramped = is_cramped_at_integers(alloc, problem, book, cuts, area, end, claim)?;
            Ok(Some(cramped))
        }
        Err(pivots) => go_on(
            alloc, problem, book, cuts, area, program, pivots, cap, claim,
        ),
    }
}

/// The same of the run on whole numbers; none where they can't start.
pub(crate) fn is_cramped_by_integers(
    alloc: Global,
    problem: &Problem,
    book: &Book,
    cuts: usize,
    area: &IntBox,
    program: &IntegerProgram,
    claim: u32,
) -> Result<Option<bool>, AllocError>
    requires few { cuts ≤ length book.now.cuts }
    requires numbered { cuts < most_numbered_cuts }
    requires columns { length area.now ≡ length problem.now.spans }
    requires program { IsIntegerProgramOf problem.now (take cuts book.now.cuts) program.now }
    ensures { IfOk result (λ o. IfSome o (λ b. IsTrue b ↔ (answer problem.now (take cuts book.now.cuts) area.now ≡ Answer.Cramped claim))) }
{
    match start::<IntegerTableau>(alloc, problem, book, cuts, area, program)? {
        Some(start) => run_to_claim(alloc, problem, book, cuts, area, program, start, claim),
        None => Ok(None),
    }
}
