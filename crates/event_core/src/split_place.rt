// Where a node is split.
ghost use Rattle.std.specs.Prelude.{◌≡◌, ◌+ℤ◌, ◌<ℤ◌};
ghost use Rattle.fraction.specs.Rational.{floor_div};
ghost use Rattle.problem.specs.Limited.{IsModestSpan};

use problem_box::Span;

/// Where a node is split.
#[derive(Clone, Copy)]
pub struct SplitPlace {
    /// The column whose span is split.
    pub column: u32,
    /// The upper bound of the left child in the column.
    pub bound: i64,
}

/// Half the sum of the bounds of a span that is free, rounded down.
pub fn middle(span: Span) -> i64
    requires modest { IsModestSpan span }
    requires free { span.lo <ℤ span.hi }
    ensures { result ≡ floor_div (span.lo +ℤ span.hi) 2 }
{
    span.lo + (span.hi - span.lo) / 2
}
