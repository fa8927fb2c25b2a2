// Tableaus of scaled programs.

ghost use Rattle.std.specs.Prelude.{◌≡◌, ◌≢◌, ◌<◌, ◌+◌, ◌^◌, length, IsTrue, IfSome, Some};
ghost use Rattle.tableau.specs.Pivot.{pivoted};
ghost use Rattle.tableau.specs.Place.{place, PlaceIsWithin};
ghost use Rattle.integer_tableau.specs.Small.{IsSmallTimes};
ghost use Rattle.integer_tableau.specs.Scales.{AreScalesTo, scale_at, unscaled};

use crate::scales::Scales;
use integer_tableau::IntegerTableau;
use std::marker::Model;
use tableau::Place;

/// A tableau of a linear program of fractions, kept as that of a scaled program of whole numbers. Contracts see the tableau of the program
/// itself.
pub struct ScaledTableau {
    pub(crate) tableau: IntegerTableau,
    pub(crate) scales: Scales,
}

/// By hand (docs/DECISIONS.md, entry 98).
impl Drop for ScaledTableau {
    fn drop(self) {
        let ScaledTableau {
            tableau: _,
            scales: _,
        } = self;
    }
}

impl Model for ScaledTableau {
    ghost use Rattle.tableau.specs.Tableau.{Tableau as Described};
    ghost use Rattle.integer_tableau.specs.Small.{IsSmallTimes};
    ghost use Rattle.integer_tableau.specs.Scales.{AreScalesTo, scale_at, unscaled};

    ghost Value = { Described };

    ghost view = { λ t. unscaled (scale_at t.tableau.columns t.scales.rows.items.value.items) t.scales.costs t.tableau };

    ghost invariant = { λ t. AreScalesTo t.scales.greatest t.scales.rows.items.value.items t.scales.costs × IsSmallTimes t.scales.greatest t.tableau };
}

/// Whether the numbers of a tableau are small so many times over, by a look at them where the bounds that are kept don't tell.
fn is_small(tableau: &mut IntegerTableau, times: u64) -> bool
    ensures same { tableau.new ≡ tableau.old }
    ensures small { IsTrue result → IsSmallTimes times tableau.new }
{
    if tableau.is_small_times(times) {
        return true;
    }
    tableau.look();
    tableau.is_small_times(times)
}

impl ScaledTableau {
    /// The tableau, read with scales; none where its numbers are too large for them.
    pub(crate) fn read(tableau: IntegerTableau, scales: Scales) -> Option<ScaledTableau>
        requires { AreScalesTo scales.greatest scales.rows.items.value.items scales.costs }
        ensures value { IfSome result (λ t. t ≡ unscaled (scale_at tableau.columns scales.rows.items.value.items) scales.costs tableau) }
        ensures small { IfSome result (λ t. IsSmallTimes scales.greatest tableau) }
    {
        let mut tableau = tableau;
        if is_small(&mut tableau, scales.greatest) {
            Some(ScaledTableau { tableau, scales })
        } else {
            None
        }
    }

    /// How many pivots led here.
    pub fn pivots(&self) -> u64
        ensures { result ≡ self.now.pivots }
    {
        self.tableau.pivots()
    }

    /// What the tableau asks for next; none where memory is wanting.
    pub fn next_place(&self) -> Option<Place>
        ensures value { IfSome result (λ p. p ≡ place self.now) }
        ensures within { IfSome result (λ p. PlaceIsWithin (length self.now.statuses) p) }
        ensures exact { IfSome result (λ p. p ≢ Place.Cramped) }
    {
        self.tableau.next_place()
    }

    /// Makes the pivot that the tableau asks for. None where it is given up, since the numbers grow too large.
    pub(crate) fn pivot(self, leaving: usize, entering: usize) -> Option<ScaledTableau>
        requires asked { place self ≡ Place.Pivot leaving entering }
        requires leaving_there { leaving < length self.statuses }
        requires entering_there { entering < length self.statuses }
        requires room { self.pivots + 1 < 2 ^ 64 }
        ensures value { IfSome result (λ t. pivoted leaving entering self ≡ Some t) }
        ensures counted { IfSome result (λ t. t.pivots ≡ self.pivots + 1) }
    {
        let ScaledTableau { tableau, scales } = self;
        let tableau = tableau.pivot(leaving, entering)?;
        ScaledTableau::read(tableau, scales)
    }
}
