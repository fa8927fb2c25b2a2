//! Laws of budgets.

ghost use Rattle.problem_box.specs.PointCount.{PointsAreCounted};
ghost use Rattle.core_search.specs.Laws.{SplitsHavePoints};

use problem::Problem;
use problem_box::IntBox;

/// Where legal events led to a state that admits a split, the nodes of the split are fewer than twice the points of the problem's box. So a search
/// whose budget is twice the number of these points less 1 is never spent.
pub fn splits_have_points(_problem: &Problem)
    ensures { SplitsHavePoints _problem.now }
{}

/// A box has as many points as `point_count` says: each has a number of its own below that, and each number below it is that of a point.
pub fn points_are_counted(area: &IntBox)
    ensures { PointsAreCounted area.now }
{
    let _columns = area.len();
}
