// The whole point that an optimum is.
ghost use Rattle.std.specs.Prelude.{◌≡◌, IfOk, All};
ghost use Rattle.problem.specs.Limited.{IsModestSpan};
ghost use Rattle.dual_simplex.specs.Relaxation.{LiesInBox};
ghost use Rattle.expand.specs.Settling.{floors};

use node_events::RationalPoint;
use problem::Point;
use problem_box::IntBox;
use std::alloc::{AllocError, Global};

/// The point's numbers, rounded down, where the point lies in a box. The one error is want of memory.
pub(crate) fn floors(
    alloc: Global,
    area: &IntBox,
    point: &RationalPoint,
) -> Result<Point, AllocError>
    requires modest { All IsModestSpan area.now }
    requires inside { LiesInBox area.now point.now }
    ensures { IfOk result (λ x. x ≡ floors point.now) }
{
    let mut numbers = Vec::with_capacity(alloc, point.len())?;
    for column in 0..point.len() {
        let number = point.get(column).floor();
        numbers.push(number as i64)?;
    }
    Ok(Point::make(numbers))
}
