// Whether an objective is minimised or maximised.
ghost use Rattle.std.specs.Prelude.{◌≡◌};
ghost use Rattle.problem.specs.Directions.{directed_value};

use fraction::Frac;

/// What is asked of the objective.
#[derive(Clone, Copy, Debug, PartialEq, Eq)]
pub enum ObjectiveSense {
    /// Its least value.
    Minimise,
    /// Its greatest value.
    Maximise,
}

impl ObjectiveSense {
    /// A value of the problem's own objective, of one of the objective that is minimised, and the other way round: the negated one where the own
    /// objective is maximised.
    pub fn directed(self, value: Frac) -> Frac
        ensures { result ≡ directed_value self value }
    {
        match self {
            ObjectiveSense::Minimise => value,
            ObjectiveSense::Maximise => value.neg(),
        }
    }
}
