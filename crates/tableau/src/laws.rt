//! Laws of tableaus.

ghost use Rattle.tableau.specs.Laws.{StartsAreThere, StartsAreTableaus, RelaxationsAreWellFormed, PivotsAreThere, RunsKeepTableaus};

/// Within the limits of a problem and its cuts the start is never cramped.
pub fn starts_are_there()
    ensures { StartsAreThere }
{}

/// The start is a tableau of its linear program, and the linear program of a problem is one of those that this asks for.
pub fn starts_are_tableaus()
    ensures tableau { StartsAreTableaus }
    ensures formed { RelaxationsAreWellFormed }
{}

/// Where a pivot is asked for, what it needs is there.
pub fn pivots_are_there()
    ensures { PivotsAreThere }
{}

/// A run keeps to tableaus of its linear program.
pub fn runs_keep_tableaus()
    ensures { RunsKeepTableaus }
{}
