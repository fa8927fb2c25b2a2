// Bounds that are whole numbers.

ghost use Rattle.std.specs.Prelude.{◌≡◌, pos, nat_abs, ◌<ℤ◌};
ghost use Rattle.std.specs.Option.{option_map};
ghost use Rattle.fraction.specs.Rational.{frac, whole};
ghost use Rattle.tableau.specs.Leaving.{is_below, is_above, violation, violated_bound, bounds_differ};
ghost use Rattle.integer_tableau.specs.IntegerTableau.{fraction_bounds};
ghost use Rattle.integer_tableau.specs.Combined.{size_of, bound_size};

use crate::wide_numbers::product;
use tableau::Direction;

/// The bounds of a variable. One that isn't there is no limit.
#[derive(Clone, Copy, Debug, PartialEq, Eq)]
pub struct IntegerBounds {
    /// The least value.
    pub lower: Option<i64>,
    /// The greatest value.
    pub upper: Option<i64>,
}

/// Whether a value over the denominator is below a bound that is there.
pub(crate) fn is_below(value: i128, lower: Option<i64>, denominator: i64) -> bool
    requires { pos 0 <ℤ denominator }
    ensures { result ≡ is_below (frac value (nat_abs denominator)) (option_map whole lower) }
{
    match lower {
        Some(lower) => value < product(lower, denominator),
        None => false,
    }
}

/// Whether a value over the denominator is above a bound that is there.
fn is_above(value: i128, upper: Option<i64>, denominator: i64) -> bool
    requires { pos 0 <ℤ denominator }
    ensures { result ≡ is_above (frac value (nat_abs denominator)) (option_map whole upper) }
{
    match upper {
        Some(upper) => product(upper, denominator) < value,
        None => false,
    }
}

/// The size of a bound; 0 where it isn't there.
fn size_of(bound: Option<i64>) -> u64
    ensures { result ≡ size_of bound }
{
    match bound {
        Some(number) => number.unsigned_abs(),
        None => 0,
    }
}

impl IntegerBounds {
    /// The direction back to the bounds of a value over the denominator that is outside of them.
    pub(crate) fn violation(&self, value: i128, denominator: i64) -> Option<Direction>
        requires { pos 0 <ℤ denominator }
        ensures { result ≡ violation (fraction_bounds self.now) (frac value (nat_abs denominator)) }
    {
        if is_below(value, self.lower, denominator) {
            Some(Direction::Rise)
        } else if is_above(value, self.upper, denominator) {
            Some(Direction::Fall)
        } else {
            None
        }
    }

    /// The bound that is violated, by the direction back to it; 0 where it isn't there.
    pub(crate) fn violated(&self, direction: Direction) -> i64
        ensures { violated_bound direction (fraction_bounds self.now) ≡ whole result }
    {
        match direction {
            Direction::Rise => self.lower.unwrap_or(0),
            Direction::Fall => self.upper.unwrap_or(0),
        }
    }

    /// The size of the greater bound; one that isn't there has none.
    pub(crate) fn size(&self) -> u64
        ensures { result ≡ bound_size self.now }
    {
        size_of(self.lower).max(size_of(self.upper))
    }

    /// Whether the variable isn't fixed.
    pub(crate) fn differ(&self) -> bool
        ensures { result ≡ bounds_differ (fraction_bounds self.now) }
    {
        match self.lower {
            None => true,
            Some(lower) => match self.upper {
                None => true,
                Some(upper) => lower != upper,
            },
        }
    }
}
