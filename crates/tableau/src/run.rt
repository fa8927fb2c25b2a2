// The run.

ghost use Rattle.std.specs.Prelude.{◌≡◌, ◌<◌, ◌≤◌, ◌+◌, ◌-◌, ◌^◌, length, IfOk, IfSome, OnErr, MatchOption};
ghost use Rattle.tableau.specs.Place.{place, PlaceIsWithin};
ghost use Rattle.tableau.specs.Run.{EndsAs, StepsTo, step_at, run_from};

use crate::place::Place;
use crate::tableau::Tableau;
use std::alloc::{AllocError, Global};

impl Tableau {
    /// One step of the run: where it ends, if it ends here. The one error is want of memory, after which the tableau is as before.
    fn advance(&mut self, alloc: Global) -> Result<Option<Place>, AllocError>
        requires { self.old.pivots + 1 < 2 ^ 64 }
        ensures value { IfOk result (λ p. StepsTo (step_at self.old (place self.old)) p self.new) }
        ensures counted { IfOk result (λ p. MatchOption p (self.new.pivots ≡ self.old.pivots + 1) (λ _. self.new.pivots ≡ self.old.pivots)) }
        ensures within { IfOk result (λ p. IfSome p (λ p. PlaceIsWithin (length self.new.statuses) p)) }
        ensures unchanged { OnErr result (self.new ≡ self.old) }
    {
        let place = self.next_place();
        match place {
            Place::Pivot { row, column } => {
                if self.pivot(alloc, row, column)? {
                    Ok(None)
                } else {
                    Ok(Some(Place::Cramped))
                }
            }
            _ => Ok(Some(place)),
        }
    }

    /// The run with at most `cap` further pivots, each the one that the tableau asks for. Its place is a pivot exactly where it met the cap.
    ///
    /// The one error is want of memory. The tableau is then the one after so many whole pivots as `pivots` tells, and the run goes on from
    /// there with the rest of the cap.
    pub fn run(&mut self, alloc: Global, cap: u64) -> Result<Place, AllocError>
        requires { self.old.pivots + cap < 2 ^ 64 }
        ensures value { IfOk result (λ p. EndsAs (run_from cap self.old) p self.new) }
        ensures within { IfOk result (λ p. PlaceIsWithin (length self.new.statuses) p) }
        ensures more { self.old.pivots ≤ self.new.pivots }
        ensures capped { self.new.pivots ≤ self.old.pivots + cap }
        ensures goes_on { OnErr result (run_from (self.old.pivots + cap - self.new.pivots) self.new ≡ run_from cap self.old) }
    {
        for _i in 0..cap {
            if let Some(place) = self.advance(alloc)? {
                return Ok(place);
            }
        }
        Ok(self.next_place())
    }
}
