// The one point of a fixed box.
ghost use Rattle.std.specs.Prelude.{◌≡◌, IfOk};
ghost use Rattle.expand.specs.Verdicts.{corner};

use problem::Point;
use problem_box::IntBox;
use std::alloc::{AllocError, Global};

/// The point of the lower bounds. The one error is want of memory.
pub fn corner(alloc: Global, area: &IntBox) -> Result<Point, AllocError>
    ensures { IfOk result (λ x. x ≡ corner area.now) }
{
    let mut items = Vec::new(alloc);
    for column in 0..area.len() {
        items.push(area.span(column).lo)?;
    }
    Ok(Point::make(items))
}
