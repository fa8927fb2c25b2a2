// Whole points.
ghost use Rattle.std.specs.Prelude.{◌≡◌, IfOk};

use std::alloc::{AllocError, Global};
use std::marker::Model;

/// One whole number per column, seen as the list of the numbers.
#[derive(Debug, Drop)]
pub struct Point {
    items: Vec<i64>,
}

impl Model for Point {
    ghost use Rattle.std.specs.Prelude.{List, ℤ};

    ghost Value = { List ℤ };

    ghost view = { λ p. p.items.items };
}

impl Point {
    /// The point with these numbers, column 0 first.
    pub fn make(items: Vec<i64>) -> Point
        ensures { result ≡ items.items }
    {
        Point { items }
    }

    /// The numbers.
    pub fn as_slice(&self) -> &[i64]
        ensures { result.now ≡ self.now }
    {
        self.items.as_slice()
    }

    /// An equal point. The one error is want of memory.
    pub fn copy(&self, alloc: Global) -> Result<Point, AllocError>
        ensures { IfOk result (λ p. p ≡ self.now) }
    {
        let mut items = Vec::new(alloc);
        items.extend_from_slice(&self.items)?;
        Ok(Point { items })
    }
}
