//! Where a known row stands.

/// What a number of a known row names.
#[derive(Clone, Copy)]
pub enum Place {
    /// The problem's row of this number.
    Given(usize),
    /// The row of the column's lower bound.
    Lower(usize),
    /// The row of the column's upper bound.
    Upper(usize),
    /// The row of the cut of this number.
    OfCut(usize),
}
