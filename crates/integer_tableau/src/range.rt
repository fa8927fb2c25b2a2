// The range of the whole numbers that tableaus work on.

/// The code's form of `size_limit`.
pub(crate) const SIZE_LIMIT: u64 = 1 << 62;
