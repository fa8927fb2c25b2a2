//! Laws of the certificates of finished searches.

ghost use Rattle.cert_tree.specs.Laws.{MergedIsValid, MergedIsTrue, InfeasibilityIsExact};

use problem::Problem;

/// Whatever events, each legal in turn, end a search, in whatever order the workers came: its certificate is valid; no point is feasible where it
/// claims so, and else it lists one point, which is a best one and whose objective is both ends of the range.
pub fn finished_searches_are_certified(problem: &Problem)
    ensures valid { MergedIsValid problem.now }
    ensures answered { MergedIsTrue problem.now }
    ensures exact { InfeasibilityIsExact problem.now }
{
    problem.limits_hold();
}
