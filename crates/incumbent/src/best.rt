// The best point so far.
ghost use Rattle.std.specs.Prelude.{◌≡◌, ◌↔◌, IsTrue, None, if◌then◌else◌};
ghost use Rattle.std.specs.Option.{option_copied};
ghost use Rattle.incumbent.specs.Offers.{IsIncumbentOf, IsImprovement, is_better, offered, cutoff_of, point_of};

use fraction::Frac;
use problem::{Point, Problem};
use std::cmp::Ordering;
use std::marker::Model;

/// A point with its aim.
#[derive(Drop)]
pub struct Best {
    /// The point.
    pub point: Point,
    /// Its aim: the objective that a search minimises, at the point. It is kept, as each verdict looks at it.
    pub value: Frac,
}

/// The best point so far, if there is one, seen as the option of it with its aim.
pub struct Incumbent {
    best: Option<Best>,
}

/// By hand (docs/DECISIONS.md, entry 98).
impl Drop for Incumbent {
    fn drop(self) {
        let Incumbent { best: _ } = self;
    }
}

impl Model for Incumbent {
    ghost use Rattle.std.specs.Prelude.{Option};
    ghost use Rattle.incumbent.specs.declared.best.Best.{Best};

    ghost Value = { Option Best };

    ghost view = { λ i. i.best };
}

impl Incumbent {
    /// No point yet.
    pub fn none() -> Incumbent
        ensures { result ≡ None }
    {
        Incumbent { best: None }
    }

    /// Whether there is no incumbent, or this aim is less than the incumbent's.
    pub fn is_bettered_by(&self, value: Frac) -> bool
        ensures { result ≡ is_better self.now value }
    {
        match &self.best {
            Some(best) => value.cmp(best.value) == Ordering::Less,
            None => true,
        }
    }

    /// Takes a point as the incumbent where it is feasible and better, and says whether it did; else the incumbent stays.
    ///
    /// What is kept is of the one problem that the points are offered for. It takes no memory.
    pub fn offer(&mut self, problem: &Problem, point: Point) -> bool
        requires { IsIncumbentOf problem.now self.old }
        ensures taken { IsTrue result ↔ IsImprovement problem.now self.old point }
        ensures new { self.new ≡ (if result then offered problem.now point else self.old) }
        ensures kept { IsIncumbentOf problem.now self.new }
    {
        if !problem.is_feasible(point.as_slice()) {
            return false;
        }
        let value = problem.aim_value(point.as_slice());
        if !self.is_bettered_by(value) {
            return false;
        }
        self.best = Some(Best { point, value });
        true
    }

    /// The incumbent's aim, if there is an incumbent.
    pub fn cutoff(&self) -> Option<Frac>
        ensures { result ≡ cutoff_of self.now }
    {
        match &self.best {
            Some(best) => Some(best.value),
            None => None,
        }
    }

    /// The incumbent's point, if there is an incumbent.
    pub fn point(&self) -> Option<&Point>
        ensures { option_copied result ≡ point_of self.now }
    {
        match &self.best {
            Some(best) => Some(&best.point),
            None => None,
        }
    }
}
