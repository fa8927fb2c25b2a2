//! One cut.

use node_events::Mult;
use problem::Row;

/// A row of sense G, and the multipliers of rows, bound rows and earlier cuts whose combination it is, its right side rounded up.
#[derive(Drop)]
pub struct Cut {
    /// The row.
    pub row: Row,
    /// The multipliers.
    pub mult: Mult,
}
