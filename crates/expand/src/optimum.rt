// The bound that an optimum of the relaxation gives.
ghost use Rattle.std.specs.Prelude.{◌≡◌, Some};
ghost use Rattle.derivation_book.specs.Legal.{reaches};
ghost use Rattle.expand.specs.Expansion.{is_rounded};

use derivation_book::reaches;
use fraction::Frac;
use problem::Problem;

/// Whether a bound of the aim is rounded up: the objective is whole, and the bound isn't.
pub(crate) fn is_rounded(problem: &Problem, bound: Frac) -> bool
    ensures { result ≡ is_rounded problem.now bound }
{
    problem.whole_objective() && !bound.is_whole()
}

/// Whether a bound of the aim, rounded up where that is allowed, is at least the cutoff.
pub(crate) fn is_reached(problem: &Problem, cutoff: Option<Frac>, bound: Frac) -> bool
    ensures { result ≡ reaches cutoff (is_rounded problem.now bound) (Some bound) }
{
    reaches(cutoff, is_rounded(problem, bound), Some(bound))
}
