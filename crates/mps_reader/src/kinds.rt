//! Words and faults.

/// Why a text is refused.
#[derive(Clone, Copy, Debug, PartialEq, Eq)]
pub enum Kind {
    /// A section word that is none or may not stand here, or a data line outside its section.
    BadSection,
    /// A wrong count of fields, a field outside the limits, or a type that is none.
    BadFields,
    /// A set's name unlike the one before in its section.
    ManySets,
    /// A row that ROWS doesn't name.
    UnknownRow,
    /// A column that COLUMNS doesn't name.
    UnknownColumn,
    /// A name that came before and may come once.
    Duplicate,
    /// More rows, columns or bytes than are read.
    TooMany,
    /// A field that isn't spelled as a number.
    BadNumber,
    /// An infinity where a number is wanted.
    Infinite,
    /// A number of a size above `LARGEST_BOUND`.
    TooLarge,
    /// A number that is no multiple of 1 / `FINEST`.
    TooFine,
    /// The text ends before ENDATA.
    NoEnd,
    /// No row is of type N.
    NoObjective,
    /// A column that no marker and no bound makes whole.
    Continuous,
    /// An upper bound below 0 of a column whose lower bound no line sets.
    NegativeUpper,
    /// A column without a lower or an upper bound, where none is given for all.
    NoBound,
}

/// The section words.
#[derive(Clone, Copy, Debug, PartialEq, Eq)]
pub enum Section {
    Name,
    ObjSense,
    Rows,
    Columns,
    Rhs,
    Ranges,
    Bounds,
    EndData,
}

/// The types of rows.
#[derive(Clone, Copy, Debug, PartialEq, Eq)]
pub enum RowType {
    N,
    L,
    G,
    E,
}

/// The types of bounds.
#[derive(Clone, Copy, Debug, PartialEq, Eq)]
pub enum BoundType {
    Up,
    Lo,
    Fx,
    Li,
    Ui,
    Fr,
    Mi,
    Pl,
    Bv,
}

/// Why a line isn't taken.
#[derive(Clone, Copy, Debug, PartialEq, Eq)]
pub enum Stop {
    Fault(Kind),
    Memory,
}

/// Where a column begins, and whether markers make it whole there.
#[derive(Clone, Copy, Debug, PartialEq, Eq)]
pub struct Column {
    pub line: u64,
    pub is_marked: bool,
}
