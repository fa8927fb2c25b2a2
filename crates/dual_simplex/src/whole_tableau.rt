//! Tableaus on whole numbers, on which a run goes first.

ghost use Rattle.std.specs.Prelude.{◌≡◌, ◌<◌, ◌≤◌, ◌+◌, ◌^◌, ℕ, Bool, true, length, IsTrue, IfOk, IfErr, IfSome, Some};
ghost use Rattle.tableau.specs.LinearProgram.{over};
ghost use Rattle.tableau.specs.Start.{started};
ghost use Rattle.tableau.specs.Run.{run_from};
ghost use Rattle.integer_tableau.specs.Run.{IsRunOver};
ghost use Rattle.dual_simplex.specs.Ends.{IsSmallEnd};

use crate::final_tableau::FinalTableau;
use crate::sizes::is_modest;
use integer_tableau::{IntegerProgram, IntegerTableau};
use problem_box::IntBox;
use scaled_program::{ScaledProgram, ScaledTableau};
use std::alloc::{AllocError, Global};
use tableau::{Place, Tableau};

/// A tableau on whole numbers. Contracts see the tableau of fractions that it stands for.
pub(crate) trait WholeTableau: Sized + Drop {
    ghost use Rattle.tableau.specs.LinearProgram.{LinearProgram};
    ghost use Rattle.tableau.specs.Tableau.{Tableau as Described};

    /// A linear program on such numbers.
    type Program;

    /// Whether only relaxations of small whole numbers have such a program.
    ghost is_of_integers: { Bool };

    /// The linear program that it stands for.
    ghost program_of: { Self.Program → LinearProgram };

    /// The tableau that it stands for.
    ghost tableau_of: { Self → Described };

    /// The tableau of a program over a box at the start. None where its numbers are too large. The one error is want of memory.
    fn start(
        alloc: Global,
        program: &Self::Program,
        area: &IntBox,
    ) -> Result<Option<Self>, AllocError>
        requires { length area.now ≡ length (program_of program.now).costs }
        ensures value { IfOk result (λ o. IfSome o (λ t. started (over (program_of program.now) area.now) ≡ Some (tableau_of t))) }
        ensures pivots { IfOk result (λ o. IfSome o (λ t. (tableau_of t).pivots ≡ 0)) };

    /// The run of a program over a box from the start with at most `cap` pivots: its last place, and the tableau there; none where there is no start on
    /// such numbers. The error inside says that the run is given up, and how many pivots it made before. The one error outside is want of memory.
    fn run_over(
        alloc: Global,
        program: &mut Self::Program,
        area: &IntBox,
        cap: u64,
    ) -> Result<Option<Result<(Place, Self), u64>>, AllocError>
        requires { length area.now ≡ length (program_of program.old).costs }
        ensures value { IfOk result (λ o. IfSome o (λ r. IfOk r (λ e. IsRunOver (over (program_of program.old) area.now) cap e.0 (tableau_of e.1)))) }
        ensures capped { IfOk result (λ o. IfSome o (λ r. IfOk r (λ e. (tableau_of e.1).pivots ≤ cap))) }
        ensures given_up { IfOk result (λ o. IfSome o (λ r. IfErr r (λ made. made ≤ cap))) }
        ensures same { program.new ≡ program.old };

    /// The tableau after so many pivots of the run; none where this is given up, and where there are fewer.
    fn after_pivots(self, count: u64) -> Option<Self>
        requires { (tableau_of self).pivots + count < 2 ^ 64 }
        ensures goes_on { IfSome result (λ t. (cap : ℕ) → run_from cap (tableau_of t) ≡ run_from (count + cap) (tableau_of self)) }
        ensures counted { IfSome result (λ t. (tableau_of t).pivots ≡ (tableau_of self).pivots + count) };

    /// The same tableau over fractions; none where a number is too large for one. The one error is want of memory.
    fn fractions(&self, alloc: Global) -> Result<Option<Tableau>, AllocError>
        requires { length (tableau_of self.now).statuses < 2 ^ 32 }
        ensures { IfOk result (λ o. IfSome o (λ t. t ≡ tableau_of self.now)) };

    /// Whether it and a box over which it is are so small that what its answer asks for is there, where the relaxation is one of small whole numbers.
    fn is_small(&self, area: &IntBox) -> bool
        ensures integers { IsTrue result → is_of_integers ≡ true }
        ensures small { IsTrue result → IsSmallEnd area.now (tableau_of self.now) };

    /// It as the tableau that a run left.
    fn into_final(self) -> FinalTableau
        ensures { result ≡ tableau_of self };
}

impl WholeTableau for IntegerTableau {
    ghost use Rattle.std.specs.Prelude.{true};

    type Program = IntegerProgram;

    ghost is_of_integers = { true };

    ghost program_of = { λ p. p };

    ghost tableau_of = { λ t. t };

    fn start(
        alloc: Global,
        program: &IntegerProgram,
        area: &IntBox,
    ) -> Result<Option<IntegerTableau>, AllocError> {
        IntegerTableau::start(alloc, program, area)
    }

    fn run_over(
        alloc: Global,
        program: &mut IntegerProgram,
        area: &IntBox,
        cap: u64,
    ) -> Result<Option<Result<(Place, IntegerTableau), u64>>, AllocError> {
        match program.run_over(alloc, area, cap)? {
            Some(Ok(end)) => Ok(Some(Ok((end.place, end.tableau)))),
            Some(Err(made)) => Ok(Some(Err(made))),
            None => Ok(None),
        }
    }

    fn after_pivots(self, count: u64) -> Option<IntegerTableau> {
        IntegerTableau::after_pivots(self, count)
    }

    fn fractions(&self, alloc: Global) -> Result<Option<Tableau>, AllocError> {
        Ok(Some(IntegerTableau::fractions(self, alloc)?))
    }

    fn is_small(&self, area: &IntBox) -> bool {
        is_modest(area) && self.common_denominator().is_some()
    }

    fn into_final(self) -> FinalTableau {
        FinalTableau::of_integers(self)
    }
}

impl WholeTableau for ScaledTableau {
    ghost use Rattle.std.specs.Prelude.{false};

    type Program = ScaledProgram;

    ghost is_of_integers = { false };

    ghost program_of = { λ p. p };

    ghost tableau_of = { λ t. t };

    fn start(
        alloc: Global,
        program: &ScaledProgram,
        area: &IntBox,
    ) -> Result<Option<ScaledTableau>, AllocError> {
        ScaledTableau::start(alloc, program, area)
    }

    fn run_over(
        alloc: Global,
        program: &mut ScaledProgram,
        area: &IntBox,
        cap: u64,
    ) -> Result<Option<Result<(Place, ScaledTableau), u64>>, AllocError> {
        let Some(start) = ScaledTableau::start(alloc, program, area)? else {
            return Ok(None);
        };
        match start.run(cap) {
            Ok(end) => Ok(Some(Ok((end.place, end.tableau)))),
            Err(made) => Ok(Some(Err(made))),
        }
    }

    fn after_pivots(self, count: u64) -> Option<ScaledTableau> {
        ScaledTableau::after_pivots(self, count)
    }

    fn fractions(&self, alloc: Global) -> Result<Option<Tableau>, AllocError> {
        ScaledTableau::fractions(self, alloc)
    }

    fn is_small(&self, _area: &IntBox) -> bool {
        false
    }

    fn into_final(self) -> FinalTableau {
        FinalTableau::of_scaled(self)
    }
}
