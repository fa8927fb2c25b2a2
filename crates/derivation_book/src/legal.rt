//! Whether a proof closes a node.

ghost use Rattle.std.specs.Prelude.{◌≡◌, ◌<◌, IfOk, length, slice_get};
ghost use Rattle.std.specs.List.{list_all};
ghost use Rattle.derivation_book.specs.Legal.{names_row_or_cut, is_proof_multiplier, is_above_zero, is_refuting, reaches, is_bounding, may_round, has_crossed, is_legal_proof};

use crate::book::Book;
use fraction::Frac;
use node_events::{Mult, Proof};
use problem::{Problem, Term};
use problem_box::IntBox;
use std::alloc::{AllocError, Global};

/// Whether a number is that of a row of the problem or of a cut, where it is known.
fn names_row_or_cut(problem: &Problem, number: u32) -> bool
    ensures { result ≡ names_row_or_cut problem.now number }
{
    problem.limits_hold();
    let number = number as usize;
    number < problem.rows() || number >= problem.rows() + 2 * problem.columns()
}

/// Whether there is a price and it is above 0.
fn is_above_zero(price: Option<Frac>) -> bool
    ensures { result ≡ is_above_zero price }
{
    match price {
        Some(value) => value.numer() > 0,
        None => false,
    }
}

/// Whether there are a cutoff and a price, and the price, rounded up if asked, is at least the cutoff.
pub fn reaches(cutoff: Option<Frac>, rounded: bool, price: Option<Frac>) -> bool
    ensures { result ≡ reaches cutoff rounded price }
{
    match (cutoff, price) {
        (Some(limit), Some(value)) => {
            let bound = if rounded {
                Frac::of(value.ceil())
            } else {
                value
            };
            limit.cmp(bound).is_le()
        }
        _ => false,
    }
}

/// Whether a bound of the aim, which is the objective that a search minimises, may be rounded up, if asked.
fn may_round(problem: &Problem, rounded: bool) -> bool
    ensures { result ≡ may_round problem.now rounded }
{
    !rounded || problem.whole_objective()
}

/// Whether the bounds of the column cross.
fn has_crossed(area: &IntBox, column: u32) -> bool
    ensures { result ≡ has_crossed (slice_get area.now column) }
{
    let column = column as usize;
    if column >= area.len() {
        return false;
    }
    area.span(column).is_empty()
}

impl Book {
    /// Whether each multiplier names a row or a cut that is known, and has the right sign.
    fn are_proof_multipliers(&self, problem: &Problem, mult: &[Term]) -> bool
        ensures { result ≡ list_all (is_proof_multiplier problem.now self.now.cuts) mult.now }
    {
        for multiplier in mult {
            let (number, factor) = multiplier.pair();
            if !names_row_or_cut(problem, number) || !self.is_usable(problem, number, factor) {
                return false;
            }
        }
        true
    }

    /// Whether these multipliers show that no point of the box satisfies the rows and cuts that they name.
    fn is_refuting(
        &self,
        alloc: Global,
        problem: &Problem,
        area: &IntBox,
        mult: &Mult,
    ) -> Result<bool, AllocError>
        requires { length area.now ≡ length problem.now.spans }
        ensures { IfOk result (λ b. b ≡ is_refuting problem.now self.now.cuts area.now mult.now) }
    {
        if !self.are_proof_multipliers(problem, mult.as_slice()) {
            return Ok(false);
        }
        let price = self.price(alloc, problem, area, &[], mult)?;
        Ok(is_above_zero(price))
    }

    /// Whether these multipliers show that the aim is at least the cutoff over the box.
    fn is_bounding(
        &self,
        alloc: Global,
        problem: &Problem,
        area: &IntBox,
        cutoff: Option<Frac>,
        mult: &Mult,
        rounded: bool,
    ) -> Result<bool, AllocError>
        requires { length area.now ≡ length problem.now.spans }
        ensures { IfOk result (λ b. b ≡ is_bounding problem.now self.now.cuts area.now cutoff mult.now rounded) }
    {
        if !self.are_proof_multipliers(problem, mult.as_slice()) {
            return Ok(false);
        }
        if !may_round(problem, rounded) {
            return Ok(false);
        }
        problem.limits_hold();
        let price = self.price(alloc, problem, area, problem.aim().as_slice(), mult)?;
        Ok(reaches(cutoff, rounded, price))
    }

    /// Whether the proof closes a node with this box, which has a span for each column, under this cutoff. The one error is want of memory.
    pub fn admits(
        &self,
        alloc: Global,
        problem: &Problem,
        area: &IntBox,
        cutoff: Option<Frac>,
        proof: &Proof,
    ) -> Result<bool, AllocError>
        requires { length area.now ≡ length problem.now.spans }
        ensures { IfOk result (λ b. b ≡ is_legal_proof problem.now self.now.cuts area.now cutoff proof.now) }
    {
        match proof {
            Proof::Empty { column } => Ok(has_crossed(area, *column)),
            Proof::Refute { mult } => self.is_refuting(alloc, problem, area, mult),
            Proof::Bound { mult, rounded } => {
                self.is_bounding(alloc, problem, area, cutoff, mult, *rounded)
            }
        }
    }
}
