// The two sides of a split.

/// One of the two children of a node that is split in a column.
#[derive(Clone, Copy, Debug, PartialEq, Eq)]
pub enum Side {
    /// The child whose numbers in the column are at most the floor of the fractional value.
    Down,
    /// The child whose numbers in the column are above it.
    Up,
}
