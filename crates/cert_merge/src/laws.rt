//! Laws of certificates.

ghost use Rattle.cert_merge.specs.Laws.{InfeasibilityHolds, RangeHolds, ClosingsClose, FinishedTreesFollow, MergedIsOrdered};

use cert_rows::Cert;
use problem::Problem;

/// What a valid certificate claims is true.
pub fn valid_claims_hold(_problem: &Problem, _cert: &Cert)
    ensures infeasible { InfeasibilityHolds _problem.now _cert.now }
    ensures range { RangeHolds _problem.now _cert.now }
{}

/// A combination that is filled up by bounds has the target's coefficients and the price as right side.
pub fn closings_close()
    ensures { ClosingsClose }
{}

/// The lines of a finished tree follow, and the last one shows the goal without assumptions.
pub fn finished_trees_follow()
    ensures { FinishedTreesFollow }
{}

/// In the certificate of a finished search the multipliers of each line rise by their numbers, and none is 0, as it is with those of the events.
pub fn multipliers_are_ordered(_problem: &Problem)
    ensures { MergedIsOrdered _problem.now }
{}
