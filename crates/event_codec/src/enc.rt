//! How the numbers of an event are spelled.

/// How the numbers of an event are spelled.
#[derive(Clone, Copy, Debug, PartialEq, Eq, Drop)]
pub enum Enc {
    /// Each number has as many bytes as its type.
    One,
    /// Each number has as few bytes as it needs.
    Two,
}
