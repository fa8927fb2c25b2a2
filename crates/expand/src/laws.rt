//! Laws of settlements.
ghost use Rattle.expand.specs.Laws.{SettlementsAreLegal, SettlementsFitOnePayload};

/// Where a worker holds an open node, the events that settle it are legal, each after those before it.
pub fn settlements_are_legal()
    ensures { SettlementsAreLegal }
{}

/// The events that settle a node are four at most, a journal has each of them, and a split is alone.
pub fn settlements_fit_one_payload()
    ensures { SettlementsFitOnePayload }
{}
