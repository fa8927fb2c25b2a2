// What is made for an event before it is applied.

use derivation_book::Cut;
use problem::Point;

/// What is made for an event before it is applied, so that applying it takes no memory.
///
/// It belongs to the state in which it was made: a cut is rounded over the cuts that there are then. It is handed out, and not kept in the state, so that
/// what is made for one event is never taken for another, and stays whatever is made next (docs/DECISIONS.md, entry 77).
#[derive(Drop)]
pub enum Made {
    /// Nothing is needed.
    Nothing,
    /// The cut with its row.
    Cut { cut: Cut },
    /// The offered point.
    Point { point: Point },
}
