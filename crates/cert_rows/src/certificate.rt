// Certificates.
ghost use Rattle.std.specs.Prelude.{◌≡◌, IfOk};

use crate::line::{CertRows, Derived};
use fraction::Frac;
use problem::{Names, ObjectiveSense, Point, Terms};
use std::alloc::{AllocError, Global};
use std::marker::Model;

/// What is claimed of the problem.
#[derive(Clone, Copy)]
pub enum Goal {
    /// No point is feasible.
    Infeas,
    /// Where the objective is minimised, no feasible point has an objective below `lb`, and some feasible one has an objective of at most `ub`. Where it
    /// is maximised, none has an objective above `ub`, and some has one of at least `lb`.
    Range { lb: Frac, ub: Frac },
}

/// Points, seen as a list.
#[derive(Debug, Drop)]
pub struct Points {
    items: Vec<Point>,
}

impl Model for Points {
    ghost use Rattle.std.specs.Prelude.{List, ℤ};

    ghost Value = { List (List ℤ) };

    ghost view = { λ p. p.items.items };
}

impl Points {
    /// The list of these points.
    pub fn make(items: Vec<Point>) -> Points
        ensures { result ≡ items.items }
    {
        Points { items }
    }

    /// The points.
    pub fn as_slice(&self) -> &[Point]
        ensures { result.now ≡ self.now }
    {
        self.items.as_slice()
    }
}

/// The problem part: the columns' names, the objective, whether it is minimised or maximised, and the rows with the bounds of the columns behind them.
pub struct Part {
    pub names: Names,
    pub objective: Terms,
    pub sense: ObjectiveSense,
    pub rows: CertRows,
}

/// By hand (docs/DECISIONS.md, entry 98).
impl Drop for Part {
    fn drop(self) {
        let Part {
            names: _,
            objective: _,
            sense: _,
            rows: _,
        } = self;
    }
}

/// A certificate: a problem, a claim about it, some of its feasible points, and the lines that prove the claim.
pub struct Cert {
    pub part: Part,
    pub claim: Goal,
    pub points: Points,
    pub lines: Derived,
}

/// By hand (docs/DECISIONS.md, entry 98).
impl Drop for Cert {
    fn drop(self) {
        let Cert {
            part: _,
            claim: _,
            points: _,
            lines: _,
        } = self;
    }
}

impl Cert {
    /// The certificate of these parts.
    pub fn make(part: Part, claim: Goal, points: Points, lines: Derived) -> Cert
        ensures { result ≡ record { part = part; claim = claim; points = points; lines = lines } }
    {
        Cert {
            part,
            claim,
            points,
            lines,
        }
    }
}
