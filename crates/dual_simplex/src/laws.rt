//! Laws of the answers of the dual simplex.

ghost use Rattle.dual_simplex.specs.Laws.{AnswersHold, WholePointsAreRelaxed, ValuesAgree, SumsAreExact, OptimaAreReadOff, InfeasibleCloses, OptimalCloses};

/// Over a box that isn't empty, what is answered holds.
pub fn answers_hold()
    ensures { AnswersHold }
{}

/// What holds of each point of a relaxation holds of the whole points of the box that satisfy rows and cuts.
pub fn whole_points_are_relaxed()
    ensures points { WholePointsAreRelaxed }
    ensures values { ValuesAgree }
{}

/// The sum of coefficient times number at a rational point is the value there, if none of its steps is cramped.
pub fn sums_are_exact()
    ensures { SumsAreExact }
{}

/// The point and the multipliers of an optimal answer are those of the tableau that the run left, which is done.
pub fn optima_are_read_off()
    ensures { OptimaAreReadOff }
{}

/// The multipliers of an answer close the node whose box it is: where the relaxation is infeasible, and where its optimal value reaches the cutoff.
pub fn answers_close()
    ensures infeasible { InfeasibleCloses }
    ensures optimal { OptimalCloses }
{}
