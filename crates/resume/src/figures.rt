// The figures of a search.
use fraction::Frac;

/// The figures of a search.
#[derive(Clone, Copy, PartialEq, Eq, Drop)]
pub struct Survey {
    /// How many events the journal has. The record of the model is none.
    pub events: usize,
    /// How many nodes the tree has.
    pub nodes: usize,
    /// How many cuts there are.
    pub cuts: usize,
    /// How many nodes are open.
    pub open: usize,
    /// The problem's own objective at the best point so far, if there is one.
    pub best: Option<Frac>,
}
