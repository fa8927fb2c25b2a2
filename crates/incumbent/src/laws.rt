//! Laws of incumbents.

ghost use Rattle.incumbent.specs.Laws.{OffersKeepReaching};

/// A bound that reaches the cutoff reaches each later one: the incumbent's value falls with each point that is taken.
pub fn offers_keep_reaching()
    ensures { OffersKeepReaching }
{}
