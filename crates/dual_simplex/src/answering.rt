//! The answer at the end of a run.

ghost use Rattle.std.specs.Prelude.{◌≡◌, ◌<◌, ◌≤◌, ◌^◌, [], true, IsTrue, IsSome, IfOk, Some, None, option_map, if◌then◌else◌, length, take};
ghost use Rattle.problem.specs.Directions.{aim};
ghost use Rattle.problem.specs.Rising.{AreRising};
ghost use Rattle.derivation_book.specs.Legal.{AreProofMultipliers};
ghost use Rattle.derivation_book.specs.Price.{price};
ghost use Rattle.tableau.specs.Multipliers.{point_of, mult_of_cost, mult_of_row};
ghost use Rattle.dual_simplex.specs.declared.answer.Answer.TheVariants.{Infeasible, Optimal};
ghost use Rattle.dual_simplex.specs.PointSums.{checked_sum, sums_fit};
ghost use Rattle.dual_simplex.specs.Answers.{infeasible_answer, optimal_answer, answer_or_cramped, answer_at};
ghost use Rattle.dual_simplex.specs.Ends.{IsEnd, AreMultipliers, IsOptimumThere, IsAnswerThere};

use crate::answer::Answer;
use crate::final_tableau::FinalTableau;
use crate::single_sum::single_sum;
use crate::sums::sums_fit;
use derivation_book::Book;
use fraction::Frac;
use node_events::{Mult, RationalPoint};
use problem::{Problem, Term};
use problem_box::IntBox;
use std::alloc::{AllocError, Global};
use tableau::Place;

/// The price of a target by these multipliers of the rows and the first cuts; none exactly where it is cramped. The one error is want of memory.
fn price_by_first(
    alloc: Global,
    problem: &Problem,
    book: &Book,
    cuts: usize,
    area: &IntBox,
    target: &[Term],
    mult: &Mult,
) -> Result<Option<Frac>, AllocError>
    requires few { cuts ≤ length book.now.cuts }
    requires columns { length area.now ≡ length problem.now.spans }
    requires rising { AreRising target.now }
    requires usable { AreProofMultipliers problem.now (take cuts book.now.cuts) mult.now }
    ensures { IfOk result (λ v. v ≡ price problem.now (take cuts book.now.cuts) area.now target.now mult.now) }
{
    book.price(alloc, problem, area, target, mult)
}

/// Whether the price of these multipliers of the rows and the first cuts isn't cramped, as an infeasible answer asks. `is_there` says so, and then it
/// isn't computed. The one error is want of memory.
fn is_infeasible(
    alloc: Global,
    problem: &Problem,
    book: &Book,
    cuts: usize,
    area: &IntBox,
    mult: &Mult,
    is_there: bool,
) -> Result<bool, AllocError>
    requires few { cuts ≤ length book.now.cuts }
    requires columns { length area.now ≡ length problem.now.spans }
    requires usable { AreProofMultipliers problem.now (take cuts book.now.cuts) mult.now }
    requires there { IsTrue is_there → IsSome (price problem.now (take cuts book.now.cuts) area.now [] mult.now) }
    ensures { IfOk result (λ b. (if b then Some (Infeasible mult.now) else None) ≡ infeasible_answer problem.now (take cuts book.now.cuts) area.now mult.now) }
{
    if is_there {
        return Ok(true);
    }
    match price_by_first(alloc, problem, book, cuts, area, &[], mult)? {
        Some(_) => Ok(true),
        None => Ok(false),
    }
}

/// Infeasible by the multipliers of a row that no column can help; cramped after so many pivots exactly where their price is. Where `is_there` says
/// that it isn't, it isn't computed. The one error is want of memory.
pub(crate) fn infeasible_by(
    alloc: Global,
    problem: &Problem,
    book: &Book,
    cuts: usize,
    area: &IntBox,
    pivots: u32,
    mult: Mult,
    is_there: bool,
) -> Result<Answer, AllocError>
    requires few { cuts ≤ length book.now.cuts }
    requires columns { length area.now ≡ length problem.now.spans }
    requires usable { AreProofMultipliers problem.now (take cuts book.now.cuts) mult }
    requires there { IsTrue is_there → IsSome (price problem.now (take cuts book.now.cuts) area.now [] mult) }
    ensures { IfOk result (λ a. a ≡ answer_or_cramped pivots (infeasible_answer problem.now (take cuts book.now.cuts) area.now mult)) }
{
    if is_infeasible(alloc, problem, book, cuts, area, &mult, is_there)? {
        Ok(Answer::Infeasible { mult })
    } else {
        Ok(Answer::Cramped { pivots })
    }
}

/// Whether the sums of the aim, of each row and of the first cuts at a point are there. Where `is_there` says so, they aren't computed. The one error is
/// want of memory.
fn are_sums_there(
    alloc: Global,
    problem: &Problem,
    book: &Book,
    cuts: usize,
    point: &RationalPoint,
    is_there: bool,
) -> Result<bool, AllocError>
    requires few { cuts ≤ length book.now.cuts }
    requires there { IsTrue is_there → sums_fit problem.now (take cuts book.now.cuts) point.now ≡ true }
    ensures { IfOk result (λ b. b ≡ sums_fit problem.now (take cuts book.now.cuts) point.now) }
{
    if is_there {
        Ok(true)
    } else {
        sums_fit(alloc, problem, book, cuts, point)
    }
}

/// The price of the aim by these multipliers of the rows and the first cuts; none exactly where it is cramped. Where `is_there` says that it is the aim
/// at the point, it is computed as that. The one error is want of memory.
fn aim_price(
    alloc: Global,
    problem: &Problem,
    book: &Book,
    cuts: usize,
    area: &IntBox,
    point: &RationalPoint,
    mult: &Mult,
    is_there: bool,
) -> Result<Option<Frac>, AllocError>
    requires few { cuts ≤ length book.now.cuts }
    requires columns { length area.now ≡ length problem.now.spans }
    requires usable { AreProofMultipliers problem.now (take cuts book.now.cuts) mult.now }
    requires there { IsTrue is_there → price problem.now (take cuts book.now.cuts) area.now (aim problem.now) mult.now ≡ checked_sum (aim problem.now) point.now }
    ensures { IfOk result (λ v. v ≡ price problem.now (take cuts book.now.cuts) area.now (aim problem.now) mult.now) }
{
    problem.limits_hold();
    let aim = problem.aim().as_slice();
    if is_there {
        Ok(single_sum(point, aim))
    } else {
        price_by_first(alloc, problem, book, cuts, area, aim, mult)
    }
}

/// The value of an optimal answer at a point: the price of the aim by these multipliers; none exactly where that or a sum at the point is cramped.
/// `is_there` says that none is. The one error is want of memory.
fn optimal_value(
    alloc: Global,
    problem: &Problem,
    book: &Book,
    cuts: usize,
    area: &IntBox,
    point: &RationalPoint,
    mult: &Mult,
    is_there: bool,
) -> Result<Option<Frac>, AllocError>
    requires few { cuts ≤ length book.now.cuts }
    requires columns { length area.now ≡ length problem.now.spans }
    requires usable { AreProofMultipliers problem.now (take cuts book.now.cuts) mult.now }
    requires there { IsTrue is_there → IsOptimumThere problem.now (take cuts book.now.cuts) area.now point.now mult.now }
    ensures { IfOk result (λ o. option_map (λ v. Optimal point.now mult.now v) o ≡ optimal_answer problem.now (take cuts book.now.cuts) area.now point.now mult.now) }
{
    if are_sums_there(alloc, problem, book, cuts, point, is_there)? {
        aim_price(alloc, problem, book, cuts, area, point, mult, is_there)
    } else {
        Ok(None)
    }
}

/// Optimal at a point, with these multipliers; cramped after so many pivots exactly where their price or a sum at the point is. `is_there` says that
/// none is. The one error is want of memory.
pub(crate) fn optimal_by(
    alloc: Global,
    problem: &Problem,
    book: &Book,
    cuts: usize,
    area: &IntBox,
    pivots: u32,
    point: RationalPoint,
    mult: Mult,
    is_there: bool,
) -> Result<Answer, AllocError>
    requires few { cuts ≤ length book.now.cuts }
    requires columns { length area.now ≡ length problem.now.spans }
    requires usable { AreProofMultipliers problem.now (take cuts book.now.cuts) mult }
    requires there { IsTrue is_there → IsOptimumThere problem.now (take cuts book.now.cuts) area.now point mult }
    ensures { IfOk result (λ a. a ≡ answer_or_cramped pivots (optimal_answer problem.now (take cuts book.now.cuts) area.now point mult)) }
{
    match optimal_value(alloc, problem, book, cuts, area, &point, &mult, is_there)? {
        Some(value) => Ok(Answer::Optimal { point, mult, value }),
        None => Ok(Answer::Cramped { pivots }),
    }
}

/// The point of a tableau. The one error is want of memory.
fn point_at(alloc: Global, tableau: &FinalTableau) -> Result<RationalPoint, AllocError>
    ensures { IfOk result (λ x. x ≡ point_of tableau.now) }
{
    let numbers = tableau.point(alloc)?;
    RationalPoint::make(alloc, numbers)
}

/// The answer by the point and the multipliers of the costs of a tableau that is done. The one error is want of memory.
fn optimal_at(
    alloc: Global,
    problem: &Problem,
    book: &Book,
    cuts: usize,
    area: &IntBox,
    pivots: u32,
    tableau: &FinalTableau,
    is_there: bool,
) -> Result<Answer, AllocError>
    requires few { cuts ≤ length book.now.cuts }
    requires columns { length area.now ≡ length problem.now.spans }
    requires multipliers { AreMultipliers problem.now (take cuts book.now.cuts) (mult_of_cost tableau.now) }
    requires there { IsTrue is_there → IsOptimumThere problem.now (take cuts book.now.cuts) area.now (point_of tableau.now) (mult_of_cost tableau.now) }
    ensures { IfOk result (λ a. a ≡ answer_or_cramped pivots (optimal_answer problem.now (take cuts book.now.cuts) area.now (point_of tableau.now) (mult_of_cost tableau.now))) }
{
    let point = point_at(alloc, tableau)?;
    let mult = Mult::make(tableau.mult_of_cost(alloc)?);
    optimal_by(
        alloc, problem, book, cuts, area, pivots, point, mult, is_there,
    )
}

/// The answer by the multipliers of a row of a tableau that no column can help. The one error is want of memory.
fn infeasible_at(
    alloc: Global,
    problem: &Problem,
    book: &Book,
    cuts: usize,
    area: &IntBox,
    pivots: u32,
    tableau: &FinalTableau,
    row: usize,
    is_there: bool,
) -> Result<Answer, AllocError>
    requires few { cuts ≤ length book.now.cuts }
    requires columns { length area.now ≡ length problem.now.spans }
    requires row { row < length tableau.now.statuses }
    requires multipliers { AreMultipliers problem.now (take cuts book.now.cuts) (mult_of_row tableau.now row) }
    requires there { IsTrue is_there → IsSome (price problem.now (take cuts book.now.cuts) area.now [] (mult_of_row tableau.now row)) }
    ensures { IfOk result (λ a. a ≡ answer_or_cramped pivots (infeasible_answer problem.now (take cuts book.now.cuts) area.now (mult_of_row tableau.now row))) }
{
    let mult = Mult::make(tableau.mult_of_row(alloc, row)?);
    infeasible_by(alloc, problem, book, cuts, area, pivots, mult, is_there)
}

/// The answer of a run that ended at this place with this tableau. `is_there` says that none of its sums is cramped, so that they need no test; where
/// it is false, they are tested. The one error is want of memory.
pub(crate) fn answer_at(
    alloc: Global,
    problem: &Problem,
    book: &Book,
    cuts: usize,
    area: &IntBox,
    tableau: &FinalTableau,
    place: Place,
    is_there: bool,
) -> Result<Answer, AllocError>
    requires few { cuts ≤ length book.now.cuts }
    requires columns { length area.now ≡ length problem.now.spans }
    requires few_pivots { tableau.now.pivots < 2 ^ 32 }
    requires end { IsEnd problem.now (take cuts book.now.cuts) area.now place tableau.now }
    requires there { IsTrue is_there → IsAnswerThere problem.now (take cuts book.now.cuts) area.now place tableau.now }
    ensures { IfOk result (λ a. a ≡ answer_at problem.now (take cuts book.now.cuts) area.now tableau.now.pivots (Some tableau.now) place) }
{
    let pivots = tableau.pivots() as u32;
    match place {
        Place::Done => optimal_at(alloc, problem, book, cuts, area, pivots, tableau, is_there),
        Place::NoColumn { row } => infeasible_at(
            alloc, problem, book, cuts, area, pivots, tableau, row, is_there,
        ),
        Place::Pivot { .. } => Ok(Answer::Stalled),
        Place::Cramped => Ok(Answer::Cramped { pivots }),
    }
}
