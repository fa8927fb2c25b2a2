//! Sums of many rows at one point.

ghost use Rattle.std.specs.Prelude.{◌≡◌, IfOk, IfSome, Some, option_map, pos};
ghost use Rattle.std.specs.Ordering.{int_eq};
ghost use Rattle.fraction.specs.Checked.{compare};
ghost use Rattle.problem.specs.Rising.{AreRising};
ghost use Rattle.dual_simplex.specs.PointSums.{checked_sum};
ghost use Rattle.dual_simplex.specs.Relaxation.{rational_at};

use crate::point_sums::checked_sum;
use crate::scaled_point::ScaledPoint;
use fraction::Frac;
use node_events::RationalPoint;
use problem::Term;
use std::alloc::{AllocError, Global};
use std::cmp::Ordering;
use std::marker::Model;

/// A point that is prepared for the sums of many rows, seen as the point.
pub struct PointSums<'a> {
    point: &'a RationalPoint,
    /// The point over one denominator, where its numbers aren't too large for that.
    scaled: Option<ScaledPoint>,
}

/// By hand (docs/DECISIONS.md, entry 98).
impl<'a> Drop for PointSums<'a> {
    fn drop(self) {
        let PointSums {
            point: _,
            scaled: _,
        } = self;
    }
}

impl<'a> Model for PointSums<'a> {
    ghost use Rattle.std.specs.Prelude.{◌≡◌, List, IfSome};
    ghost use Rattle.std.specs.Coded.{coded_list};
    ghost use Rattle.fraction.specs.Rational.{ℚ};
    ghost use Rattle.fraction.specs.Code.{code_ℚ};

    ghost Value = { List ℚ };

    ghost coded = { coded_list code_ℚ };

    ghost view = { λ s. s.point.now };

    ghost invariant = { λ s. IfSome s.scaled (λ p. p ≡ s.point.now) };
}

/// Whether a number is 0.
#[inline(always)]
fn is_zero(number: Frac) -> bool
    ensures { result ≡ int_eq number.num (pos 0) }
{
    number.numer() == 0
}

/// How a sum of fractions compares with a right side; none exactly where the sum is cramped.
fn compare_fractions(point: &RationalPoint, terms: &[Term], rhs: Frac) -> Option<Ordering>
    requires { AreRising terms.now }
    ensures { result ≡ option_map (λ v. compare v rhs) (checked_sum terms.now point.now) }
{
    let sum = checked_sum(point, terms)?;
    Some(sum.cmp(rhs))
}

impl<'a> PointSums<'a> {
    /// The point as it is, which takes no time, for so few rows that the preparation takes longer than it saves.
    pub fn plain(point: &'a RationalPoint) -> PointSums<'a>
        ensures { result ≡ point.now }
    {
        PointSums {
            point,
            scaled: None,
        }
    }

    /// The point, prepared. The one error is want of memory.
    pub fn make(alloc: Global, point: &'a RationalPoint) -> Result<PointSums<'a>, AllocError>
        ensures { IfOk result (λ s. s ≡ point.now) }
    {
        let scaled = ScaledPoint::make(alloc, point)?;
        Ok(PointSums { point, scaled })
    }

    /// Whether the number in a column is 0, as it is where there is no such column.
    #[inline(always)]
    pub fn is_zero_at(&self, column: usize) -> bool
        ensures { result ≡ int_eq (rational_at self.now column).num (pos 0) }
    {
        if column >= self.point.len() {
            return true;
        }
        is_zero(self.point.get(column))
    }

    /// How the sum of whole numbers compares with a right side, if whole numbers tell it.
    fn compare_integers(&self, terms: &[Term], rhs: Frac) -> Option<Ordering>
        requires { AreRising terms.now }
        ensures { IfSome result (λ o. option_map (λ v. compare v rhs) (checked_sum terms.now self.now) ≡ Some o) }
    {
        match &self.scaled {
            Some(scaled) => scaled.compare(terms, rhs),
            None => None,
        }
    }

    /// How the sum of coefficient times number, as `checked_sum` gives it, compares with a right side; none exactly where a product or a sum on the
    /// way is cramped. The columns of the terms rise.
    pub fn compare(&self, terms: &[Term], rhs: Frac) -> Option<Ordering>
        requires { AreRising terms.now }
        ensures { result ≡ option_map (λ v. compare v rhs) (checked_sum terms.now self.now) }
    {
        match self.compare_integers(terms, rhs) {
            Some(ordering) => Some(ordering),
            None => compare_fractions(self.point, terms, rhs),
        }
    }
}
