//! The limits of a crew.

/// The limits of a crew.
#[derive(Clone, Copy, Debug, PartialEq, Eq)]
pub struct Settings {
    /// How many workers there are: 1 to 16.
    pub workers: u32,
    /// How many cuts the book takes at most: 0 to `MOST_CUTS`.
    pub cuts: u32,
}
