// The bounds of a variable.

ghost use Rattle.std.specs.Prelude.{◌≡◌};
ghost use Rattle.std.specs.Option.{unwrap_or};
ghost use Rattle.tableau.specs.Elimination.{zero_ℚ};
ghost use Rattle.tableau.specs.Leaving.{is_below, is_above, violation, violated_bound, bounds_differ};

use fraction::Frac;
use std::cmp::Ordering;

/// The bounds of a variable. One that isn't there is no limit.
#[derive(Clone, Copy)]
pub struct Bounds {
    /// The least value.
    pub lower: Option<Frac>,
    /// The greatest value.
    pub upper: Option<Frac>,
}

/// In which direction a value outside its bounds has to go.
#[derive(Clone, Copy, Debug, PartialEq, Eq)]
pub enum Direction {
    /// It is below its lower bound.
    Rise,
    /// It is above its upper bound.
    Fall,
}

/// Whether a value is below a bound that is there.
pub(crate) fn is_below(value: Frac, lower: &Option<Frac>) -> bool
    ensures { result ≡ is_below value lower.now }
{
    match *lower {
        Some(lower) => value.cmp(lower) == Ordering::Less,
        None => false,
    }
}

/// Whether a value is above a bound that is there.
fn is_above(value: Frac, upper: &Option<Frac>) -> bool
    ensures { result ≡ is_above value upper.now }
{
    match *upper {
        Some(upper) => upper.cmp(value) == Ordering::Less,
        None => false,
    }
}

/// A bound, or 0 where there is none.
pub(crate) fn bound_or_zero(bound: &Option<Frac>) -> Frac
    ensures { result ≡ unwrap_or bound.now zero_ℚ }
{
    match *bound {
        Some(number) => number,
        None => Frac::of(0),
    }
}

impl Bounds {
    /// The direction back to the bounds of a value that is outside of them.
    pub(crate) fn violation(&self, value: Frac) -> Option<Direction>
        ensures { result ≡ violation self.now value }
    {
        if is_below(value, &self.lower) {
            Some(Direction::Rise)
        } else if is_above(value, &self.upper) {
            Some(Direction::Fall)
        } else {
            None
        }
    }

    /// The bound that is violated, by the direction back to it.
    pub(crate) fn violated(&self, direction: Direction) -> Frac
        ensures { result ≡ violated_bound direction self.now }
    {
        match direction {
            Direction::Rise => bound_or_zero(&self.lower),
            Direction::Fall => bound_or_zero(&self.upper),
        }
    }

    /// Whether the variable isn't fixed.
    pub(crate) fn differ(&self) -> bool
        ensures { result ≡ bounds_differ self.now }
    {
        match self.lower {
            None => true,
            Some(lower) => match self.upper {
                None => true,
                Some(upper) => lower.cmp(upper) != Ordering::Equal,
            },
        }
    }
}
