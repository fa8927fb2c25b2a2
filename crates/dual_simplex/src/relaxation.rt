//! The relaxation of a problem and cuts, over many boxes.

ghost use Rattle.std.specs.Prelude.{◌≡◌, ◌↔◌, ◌<◌, ◌≤◌, IsTrue, IfOk, IfSome, OnErr, OnOk, Some, length, take};
ghost use Rattle.dual_simplex.specs.Answers.{linear_program, run, HasPivots, answer};
ghost use Rattle.dual_simplex.specs.Ends.{IsSolution};
ghost use Rattle.dual_simplex.specs.Prepared.{IsIntegerProgramOf, IsRelaxationOf};
ghost use Rattle.dual_simplex.specs.Sizes.{most_numbered_cuts};

use crate::answer::Answer;
use crate::cramped_run::{is_cramped_by_fractions, is_cramped_by_integers};
use crate::fraction_run::solve_by_fractions;
use crate::program::linear_program;
use crate::sizes::is_integer_relaxation;
use crate::solution::Solution;
use crate::whole_answer::answer_by_integers;
use crate::whole_run::solve_by;
use derivation_book::Book;
use integer_tableau::{IntegerProgram, IntegerTableau};
use problem::Problem;
use problem_box::IntBox;
use scaled_program::{ScaledProgram, ScaledTableau};
use std::alloc::{AllocError, Global};
use std::marker::Model;

/// The relaxation of a problem's rows and the first cuts of its book, prepared once and solved over many boxes.
///
/// It is for that problem and that book: each call is given both. A book that has got more cuts since is the same book.
pub struct Relaxation {
    cuts: usize,
    program: Option<IntegerProgram>,
    /// Where there is no program of small whole numbers.
    scaled: Option<ScaledProgram>,
}

/// By hand (docs/DECISIONS.md, entry 98).
impl Drop for Relaxation {
    fn drop(self) {
        let Relaxation {
            cuts: _,
            program: _,
            scaled: _,
        } = self;
    }
}

impl Model for Relaxation {
    ghost use Rattle.dual_simplex.specs.Prepared.{Prepared};

    ghost Value = { Prepared };

    ghost view = { λ r. record { cuts = r.cuts; program = r.program; scaled = r.scaled } };
}

/// The linear program of a problem's rows and the first cuts over the problem's own box, in the form of whole numbers; none where a number isn't whole,
/// or isn't small. The one error is want of memory.
fn integer_program(
    alloc: Global,
    problem: &Problem,
    book: &Book,
    cuts: usize,
) -> Result<Option<IntegerProgram>, AllocError>
    requires few { cuts ≤ length book.now.cuts }
    requires numbered { cuts < most_numbered_cuts }
    ensures { IfOk result (λ o. IfSome o (IsIntegerProgramOf problem.now (take cuts book.now.cuts))) }
{
    if !is_integer_relaxation(problem, book, cuts) {
        return Ok(None);
    }
    let program = linear_program(alloc, problem, book, cuts, problem.root())?;
    IntegerProgram::of(alloc, &program)
}

/// The same linear program, scaled to whole numbers; none where a scale or a number is too large. The one error is want of memory.
fn scaled_program(
    alloc: Global,
    problem: &Problem,
    book: &Book,
    cuts: usize,
) -> Result<Option<ScaledProgram>, AllocError>
    requires few { cuts ≤ length book.now.cuts }
    requires numbered { cuts < most_numbered_cuts }
    ensures { IfOk result (λ o. IfSome o (λ lp. lp ≡ linear_program problem.now (take cuts book.now.cuts) problem.now.spans)) }
{
    let program = linear_program(alloc, problem, book, cuts, problem.root())?;
    ScaledProgram::of(alloc, &program)
}

/// Whether the answer is that the run was stalled.
fn is_stalled(answer: &Answer) -> bool
    ensures { IsTrue result ↔ (answer.now ≡ Answer.Stalled) }
{
    match answer {
        Answer::Stalled => true,
        _ => false,
    }
}

impl Relaxation {
    /// The relaxation of the problem's rows and the first cuts. The one error is want of memory.
    pub fn new(
        alloc: Global,
        problem: &Problem,
        book: &Book,
        cuts: usize,
    ) -> Result<Relaxation, AllocError>
        requires few { cuts ≤ length book.now.cuts }
        requires numbered { cuts < most_numbered_cuts }
        ensures cuts { IfOk result (λ r. r.cuts ≡ cuts) }
        ensures prepared { IfOk result (λ r. IsRelaxationOf problem.now (take cuts book.now.cuts) r) }
    {
        let program = integer_program(alloc, problem, book, cuts)?;
        let scaled = match &program {
            Some(_) => None,
            None => scaled_program(alloc, problem, book, cuts)?,
        };
        Ok(Relaxation {
            cuts,
            program,
            scaled,
        })
    }

    /// Takes over what runs over boxes left in another relaxation, as far as it holds here (docs/DECISIONS.md, entry 102).
    fn take_kept(&mut self, alloc: Global, other: &mut Relaxation)
        ensures same { self.new ≡ self.old }
        ensures other { other.new ≡ other.old }
    {
        if let Some(program) = &mut self.program {
            if let Some(last) = &mut other.program {
                program.take_kept(alloc, last);
            }
        }
        if let Some(scaled) = &mut self.scaled {
            if let Some(last) = &mut other.scaled {
                scaled.take_kept(alloc, last);
            }
        }
    }

    /// Becomes the relaxation of the problem's rows and the first cuts, as `new` prepares it. What runs over boxes left goes on to it, where its first
    /// rows are those that it had. The one error is want of memory, after which it is as before.
    pub fn renew(
        &mut self,
        alloc: Global,
        problem: &Problem,
        book: &Book,
        cuts: usize,
    ) -> Result<(), AllocError>
        requires few { cuts ≤ length book.now.cuts }
        requires numbered { cuts < most_numbered_cuts }
        ensures cuts { OnOk result (self.new.cuts ≡ cuts) }
        ensures prepared { OnOk result (IsRelaxationOf problem.now (take cuts book.now.cuts) self.new) }
        ensures failed { OnErr result (self.new ≡ self.old) }
    {
        let mut next = Relaxation::new(alloc, problem, book, cuts)?;
        next.take_kept(alloc, self);
        *self = next;
        Ok(())
    }

    /// What the run answers over a box that starts on the whole numbers of the scaled program; none where there is no such start. The one error is
    /// want of memory.
    fn solution_by_scales(
        &mut self,
        alloc: Global,
        problem: &Problem,
        book: &Book,
        area: &IntBox,
    ) -> Result<Option<Solution>, AllocError>
        requires few { self.old.cuts ≤ length book.now.cuts }
        requires prepared { IsRelaxationOf problem.now (take self.old.cuts book.now.cuts) self.old }
        requires columns { length area.now ≡ length problem.now.spans }
        ensures solution { IfOk result (λ o. IfSome o (IsSolution problem.now (take self.old.cuts book.now.cuts) area.now)) }
        ensures same { self.new ≡ self.old }
    {
        match &mut self.scaled {
            Some(program) => solve_by::<ScaledTableau>(
                alloc, problem, book, self.cuts, area, program,
            ),
            None => Ok(None),
        }
    }

    /// What the run answers over a box that starts on whole numbers, scaled ones too; none where there is no such start. The one error is want of
    /// memory.
    fn solution_on_whole_numbers(
        &mut self,
        alloc: Global,
        problem: &Problem,
        book: &Book,
        area: &IntBox,
    ) -> Result<Option<Solution>, AllocError>
        requires few { self.old.cuts ≤ length book.now.cuts }
        requires prepared { IsRelaxationOf problem.now (take self.old.cuts book.now.cuts) self.old }
        requires columns { length area.now ≡ length problem.now.spans }
        ensures solution { IfOk result (λ o. IfSome o (IsSolution problem.now (take self.old.cuts book.now.cuts) area.now)) }
        ensures same { self.new ≡ self.old }
    {
        match &mut self.program {
            Some(program) => solve_by::<IntegerTableau>(
                alloc, problem, book, self.cuts, area, program,
            ),
            None => self.solution_by_scales(alloc, problem, book, area),
        }
    }

    /// What the dual simplex answers over a box, by the least-index run from the rows' values as the basis (docs/DECISIONS.md, entry 39). Where the
    /// run ends with a tableau, that is handed out too.
    ///
    /// The run goes on whole numbers first, and where a number isn't whole, on scaled ones. Where that is given up, exact fractions go on from the
    /// last pivot, or where there is no start on such numbers, from the start. The answer is the same. The one error is want of memory.
    ///
    /// It borrows the relaxation for writing, since a program may keep what a run computes for the next one (docs/DECISIONS.md, entry 92). That
    /// changes no answer.
    pub fn solve(
        &mut self,
        alloc: Global,
        problem: &Problem,
        book: &Book,
        area: &IntBox,
    ) -> Result<Solution, AllocError>
        requires few { self.old.cuts ≤ length book.now.cuts }
        requires prepared { IsRelaxationOf problem.now (take self.old.cuts book.now.cuts) self.old }
        requires columns { length area.now ≡ length problem.now.spans }
        ensures answer { IfOk result (λ s. s.answer ≡ answer problem.now (take self.old.cuts book.now.cuts) area.now) }
        ensures tableau { IfOk result (λ s. IfSome (run (linear_program problem.now (take self.old.cuts book.now.cuts) area.now)).tableau (λ t. s.tableau ≡ Some t)) }
        ensures pivots { IfOk result (λ s. HasPivots (linear_program problem.now (take self.old.cuts book.now.cuts) area.now) s.tableau) }
        ensures same { self.new ≡ self.old }
    {
        match self.solution_on_whole_numbers(alloc, problem, book, area)? {
            Some(solution) => Ok(solution),
            None => solve_by_fractions(alloc, problem, book, self.cuts, area),
        }
    }

    /// The answer of `solution_by_scales` alone.
    fn answer_by_scales(
        &mut self,
        alloc: Global,
        problem: &Problem,
        book: &Book,
        area: &IntBox,
    ) -> Result<Option<Answer>, AllocError>
        requires few { self.old.cuts ≤ length book.now.cuts }
        requires prepared { IsRelaxationOf problem.now (take self.old.cuts book.now.cuts) self.old }
        requires columns { length area.now ≡ length problem.now.spans }
        ensures answer { IfOk result (λ o. IfSome o (λ a. a ≡ answer problem.now (take self.old.cuts book.now.cuts) area.now)) }
        ensures same { self.new ≡ self.old }
    {
        match self.solution_by_scales(alloc, problem, book, area)? {
            Some(solution) => Ok(Some(solution.into_answer())),
            None => Ok(None),
        }
    }

    /// The answer of `solution_on_whole_numbers` alone.
    fn answer_on_whole_numbers(
        &mut self,
        alloc: Global,
        problem: &Problem,
        book: &Book,
        area: &IntBox,
    ) -> Result<Option<Answer>, AllocError>
        requires few { self.old.cuts ≤ length book.now.cuts }
        requires prepared { IsRelaxationOf problem.now (take self.old.cuts book.now.cuts) self.old }
        requires columns { length area.now ≡ length problem.now.spans }
        ensures answer { IfOk result (λ o. IfSome o (λ a. a ≡ answer problem.now (take self.old.cuts book.now.cuts) area.now)) }
        ensures same { self.new ≡ self.old }
    {
        match &mut self.program {
            Some(program) => answer_by_integers(alloc, problem, book, self.cuts, area, program),
            None => self.answer_by_scales(alloc, problem, book, area),
        }
    }

    /// The answer of `solve` alone: where a run ends by what is kept, no tableau is made. The one error is want of memory.
    pub fn answer(
        &mut self,
        alloc: Global,
        problem: &Problem,
        book: &Book,
        area: &IntBox,
    ) -> Result<Answer, AllocError>
        requires few { self.old.cuts ≤ length book.now.cuts }
        requires prepared { IsRelaxationOf problem.now (take self.old.cuts book.now.cuts) self.old }
        requires columns { length area.now ≡ length problem.now.spans }
        ensures answer { IfOk result (λ a. a ≡ answer problem.now (take self.old.cuts book.now.cuts) area.now) }
        ensures same { self.new ≡ self.old }
    {
        match self.answer_on_whole_numbers(alloc, problem, book, area)? {
            Some(answer) => Ok(answer),
            None => Ok(solve_by_fractions(alloc, problem, book, self.cuts, area)?.into_answer()),
        }
    }

    /// How many of the cuts it has.
    pub fn cuts(&self) -> usize
        ensures { result ≡ self.now.cuts }
    {
        self.cuts
    }

    /// Whether the run over a box that starts on whole numbers is cramped after so many pivots; none where there is no such start. The one error is
    /// want of memory.
    fn is_cramped_by_integers(
        &self,
        alloc: Global,
        problem: &Problem,
        book: &Book,
        area: &IntBox,
        claim: u32,
    ) -> Result<Option<bool>, AllocError>
        requires few { self.now.cuts ≤ length book.now.cuts }
        requires prepared { IsRelaxationOf problem.now (take self.now.cuts book.now.cuts) self.now }
        requires columns { length area.now ≡ length problem.now.spans }
        ensures { IfOk result (λ o. IfSome o (λ b. IsTrue b ↔ (answer problem.now (take self.now.cuts book.now.cuts) area.now ≡ Answer.Cramped claim))) }
    {
        match &self.program {
            Some(program) => {
                is_cramped_by_integers(alloc, problem, book, self.cuts, area, program, claim)
            }
            None => Ok(None),
        }
    }

    /// Whether what `solve` answers over a box is that it is cramped after so many pivots, as somebody claims. The run ends behind the pivot that has to
    /// be cramped by the claim, however long `solve` would go on (docs/DECISIONS.md, entry 74). The one error is want of memory.
    pub fn is_cramped_after(
        &self,
        alloc: Global,
        problem: &Problem,
        book: &Book,
        area: &IntBox,
        claim: u32,
    ) -> Result<bool, AllocError>
        requires few { self.now.cuts ≤ length book.now.cuts }
        requires prepared { IsRelaxationOf problem.now (take self.now.cuts book.now.cuts) self.now }
        requires columns { length area.now ≡ length problem.now.spans }
        ensures { IfOk result (λ b. IsTrue b ↔ (answer problem.now (take self.now.cuts book.now.cuts) area.now ≡ Answer.Cramped claim)) }
    {
        match self.is_cramped_by_integers(alloc, problem, book, area, claim)? {
            Some(cramped) => Ok(cramped),
            None => is_cramped_by_fractions(alloc, problem, book, self.cuts, area, claim),
        }
    }

    /// Whether what `solve` answers over a box is that it is stalled. The one error is want of memory.
    pub fn is_stalled(
        &mut self,
        alloc: Global,
        problem: &Problem,
        book: &Book,
        area: &IntBox,
    ) -> Result<bool, AllocError>
        requires few { self.old.cuts ≤ length book.now.cuts }
        requires prepared { IsRelaxationOf problem.now (take self.old.cuts book.now.cuts) self.old }
        requires columns { length area.now ≡ length problem.now.spans }
        ensures stalled { IfOk result (λ b. IsTrue b ↔ (answer problem.now (take self.old.cuts book.now.cuts) area.now ≡ Answer.Stalled)) }
        ensures same { self.new ≡ self.old }
    {
        let answer = self.answer(alloc, problem, book, area)?;
        Ok(is_stalled(&answer))
    }
}

/// What the dual simplex answers of a problem's rows and the first cuts of a book over one box, as `Relaxation::solve` does.
///
/// The one error is want of memory.
pub fn solve(
    alloc: Global,
    problem: &Problem,
    book: &Book,
    cuts: usize,
    area: &IntBox,
) -> Result<Solution, AllocError>
    requires few { cuts ≤ length book.now.cuts }
    requires numbered { cuts < most_numbered_cuts }
    requires columns { length area.now ≡ length problem.now.spans }
    ensures answer { IfOk result (λ s. s.answer ≡ answer problem.now (take cuts book.now.cuts) area.now) }
    ensures tableau { IfOk result (λ s. IfSome (run (linear_program problem.now (take cuts book.now.cuts) area.now)).tableau (λ t. s.tableau ≡ Some t)) }
    ensures pivots { IfOk result (λ s. HasPivots (linear_program problem.now (take cuts book.now.cuts) area.now) s.tableau) }
{
    Relaxation::new(alloc, problem, book, cuts)?.solve(alloc, problem, book, area)
}
