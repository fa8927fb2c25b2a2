//! A relaxation that is kept from one box to the next.

ghost use Rattle.std.specs.Prelude.{◌≡◌, ◌↔◌, ◌<◌, ◌≤◌, IsTrue, IfOk, None, length, take};
ghost use Rattle.dual_simplex.specs.Answers.{answer};
ghost use Rattle.dual_simplex.specs.Prepared.{IsKept, IsRelaxationOf};
ghost use Rattle.dual_simplex.specs.Sizes.{most_numbered_cuts};

use crate::answer::Answer;
use crate::relaxation::Relaxation;
use derivation_book::Book;
use problem::Problem;
use problem_box::IntBox;
use std::alloc::{AllocError, Global};
use std::marker::Model;

/// The relaxation that was asked for last, of one problem and the first cuts of its book. It is kept for the next box, which mostly asks for as many cuts.
pub struct KeptRelaxation {
    last: Option<Relaxation>,
}

/// By hand (docs/DECISIONS.md, entry 98).
impl Drop for KeptRelaxation {
    fn drop(self) {
        let KeptRelaxation { last: _ } = self;
    }
}

impl Model for KeptRelaxation {
    ghost use Rattle.std.specs.Prelude.{Option};
    ghost use Rattle.dual_simplex.specs.Prepared.{Prepared};

    ghost Value = { Option Prepared };

    ghost view = { λ k. k.last };
}

impl KeptRelaxation {
    /// None yet.
    pub fn none() -> KeptRelaxation
        ensures { result ≡ None }
    {
        KeptRelaxation { last: None }
    }

    /// Takes the relaxation with so many cuts out, the one that is kept or a new one. The one error is want of memory.
    fn take(
        &mut self,
        alloc: Global,
        problem: &Problem,
        book: &Book,
        cuts: usize,
    ) -> Result<Relaxation, AllocError>
        requires kept { IsKept problem.now book.now.cuts self.old }
        requires few { cuts ≤ length book.now.cuts }
        requires numbered { cuts < most_numbered_cuts }
        ensures cuts { IfOk result (λ r. r.cuts ≡ cuts) }
        ensures prepared { IfOk result (λ r. IsRelaxationOf problem.now (take cuts book.now.cuts) r) }
        ensures none { self.new ≡ None }
    {
        let Some(mut relaxation) = self.last.take() else {
            return Relaxation::new(alloc, problem, book, cuts);
        };
        if relaxation.cuts() != cuts {
            relaxation.renew(alloc, problem, book, cuts)?;
        }
        Ok(relaxation)
    }

    /// Whether the run with the first cuts over a box is cramped after so many pivots, as `Relaxation::is_cramped_after` says. The one error is want of
    /// memory.
    pub fn is_cramped_after(
        &mut self,
        alloc: Global,
        problem: &Problem,
        book: &Book,
        cuts: usize,
        area: &IntBox,
        claim: u32,
    ) -> Result<bool, AllocError>
        requires kept { IsKept problem.now book.now.cuts self.old }
        requires few { cuts ≤ length book.now.cuts }
        requires numbered { cuts < most_numbered_cuts }
        requires columns { length area.now ≡ length problem.now.spans }
        ensures cramped { IfOk result (λ b. IsTrue b ↔ (answer problem.now (take cuts book.now.cuts) area.now ≡ Answer.Cramped claim)) }
        ensures kept { IsKept problem.now book.now.cuts self.new }
    {
        let relaxation = self.take(alloc, problem, book, cuts)?;
        let cramped = relaxation.is_cramped_after(alloc, problem, book, area, claim);
        self.last = Some(relaxation);
        cramped
    }

    /// Whether the run with the first cuts over a box is stalled. The one error is want of memory.
    pub fn is_stalled(
        &mut self,
        alloc: Global,
        problem: &Problem,
        book: &Book,
        cuts: usize,
        area: &IntBox,
    ) -> Result<bool, AllocError>
        requires kept { IsKept problem.now book.now.cuts self.old }
        requires few { cuts ≤ length book.now.cuts }
        requires numbered { cuts < most_numbered_cuts }
        requires columns { length area.now ≡ length problem.now.spans }
        ensures stalled { IfOk result (λ b. IsTrue b ↔ (answer problem.now (take cuts book.now.cuts) area.now ≡ Answer.Stalled)) }
        ensures kept { IsKept problem.now book.now.cuts self.new }
    {
        let mut relaxation = self.take(alloc, problem, book, cuts)?;
        let stalled = relaxation.is_stalled(alloc, problem, book, area);
        self.last = Some(relaxation);
        stalled
    }
}
