//! The tags: what stands at the front of a payload, of a reason and of a proof.

/// The record of a model.
pub(crate) const MODEL: u8 = 1;
/// A cut.
pub(crate) const CUT: u8 = 2;
/// An offer.
pub(crate) const OFFER: u8 = 3;
/// A split.
pub(crate) const SPLIT: u8 = 4;
/// A closing.
pub(crate) const CLOSE: u8 = 5;
/// Several events.
pub(crate) const SEVERAL: u8 = 6;

/// A reason: a point of the relaxation.
pub(crate) const FRACTIONAL: u8 = 0;
/// A reason: a fraction that was too large.
pub(crate) const CRAMPED: u8 = 1;
/// A reason: the limit on pivots.
pub(crate) const STALLED: u8 = 2;

/// A proof: a refutation.
pub(crate) const REFUTE: u8 = 0;
/// A proof: a bound on the objective.
pub(crate) const BOUND: u8 = 1;
/// A proof: a column whose bounds cross.
pub(crate) const EMPTY: u8 = 2;
