// The run.

ghost use Rattle.std.specs.Prelude.{◌≡◌, ◌≢◌, ℕ, ◌<◌, ◌≤◌, ◌+◌, ◌^◌, length, IfSome, IfOk, IfErr};
ghost use Rattle.tableau.specs.Place.{PlaceIsWithin};
ghost use Rattle.tableau.specs.Run.{EndsAs, run_from};

use crate::integer_row::IntegerRow;
use crate::integer_tableau::IntegerTableau;
use tableau::Place;

/// Where a run ended, and the tableau that it left.
#[derive(Drop)]
pub struct IntegerRunEnd {
    /// Its last place.
    pub place: Place,
    /// The tableau there.
    pub tableau: IntegerTableau,
}

impl IntegerTableau {
    /// The run with at most `cap` further pivots, each the one that the tableau asks for. Its place is a pivot exactly where it met the cap.
    ///
    /// The error says that it is given up, and how many pivots it made before: the tableau after these is there once more by `after_pivots`
    /// (docs/DECISIONS.md, entry 40).
    pub fn run(self, cap: u64) -> Result<IntegerRunEnd, u64>
        requires { self.pivots + cap < 2 ^ 64 }
        ensures value { IfOk result (λ e. EndsAs (run_from cap self) e.place e.tableau) }
        ensures within { IfOk result (λ e. PlaceIsWithin (length e.tableau.statuses) e.place) }
        ensures exact { IfOk result (λ e. e.place ≢ Place.Cramped) }
        ensures more { IfOk result (λ e. self.pivots ≤ e.tableau.pivots) }
        ensures capped { IfOk result (λ e. e.tableau.pivots ≤ self.pivots + cap) }
        ensures given_up { IfErr result (λ made. made ≤ cap) }
    {
        let running = self.into_running();
        let row_sums = Vec::new(*running.rows.allocator());
        running.run(&None, row_sums, cap)
    }

    /// The tableau after so many pivots, each the one that the tableau before it asks for; none where this is given up, and where there
    /// are fewer. The run goes on from there with the rest of its cap.
    pub fn after_pivots(self, count: u64) -> Option<IntegerTableau>
        requires { self.pivots + count < 2 ^ 64 }
        ensures goes_on { IfSome result (λ t. (cap : ℕ) → run_from cap t ≡ run_from (count + cap) self) }
        ensures counted { IfSome result (λ t. t.pivots ≡ self.pivots + count) }
    {
        let mut running = self.into_running();
        let mut row_sums = Vec::new(*running.rows.allocator());
        let mut room = IntegerRow::empty(*running.rows.allocator());
        for _i in 0..count {
            match running.step(&None, &mut row_sums, &mut room) {
                Some(None) => {}
                _ => return None,
            }
        }
        Some(running.into_tableau())
    }
}
