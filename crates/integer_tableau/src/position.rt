// Where the numerators of a variable are.

/// Rows have one numerator for each nonbasic variable, by column.
#[derive(Clone, Copy, Debug, PartialEq, Eq)]
pub enum Position {
    /// The variable is basic: no row has a numerator for it.
    InBasis,
    /// In this column of each row.
    InColumn(usize),
}
