//! Laws of gates.
ghost use Rattle.worker_gate.specs.Laws.{ConditionsStay};

/// What a worker has to know before it asks stays so under entries that aren't the worker's.
pub fn conditions_stay()
    ensures { ConditionsStay }
{}
