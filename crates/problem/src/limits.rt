// The limits of a problem, each named once. What each of them limits is told in `specs/Limits`, where the same names stand.

/// The most columns of a problem. Sums over so many still have room (docs/DECISIONS.md, entry 88).
pub const MOST_COLUMNS: usize = 8_000;

/// The most rows of a problem.
pub const MOST_ROWS: usize = 8_000;

/// The most cuts that a search adds to a problem's rows.
pub const MOST_CUTS: u32 = 256;

/// The largest size of a column's bound, of a coefficient, and of a number of a model's text.
pub const LARGEST_BOUND: u32 = 1_000_000_000;

/// Coefficients, right sides and the numbers of a model's text are multiples of 1 over this.
pub const FINEST: u64 = 1_000_000_000_000_000;

/// The largest size of a cut's coefficient: 2^40.
pub const LARGEST_CUT_COEFFICIENT: u128 = 1 << 40;
