//! Integer programs over a box: minimise or maximise an objective over the whole points of the box that satisfy the rows.
#![tactic(auto)]

mod limits;
mod names;
mod objective_sense;
mod point;
mod program;
mod row;
mod term;
mod terms;

pub use limits::{
    FINEST, LARGEST_BOUND, LARGEST_CUT_COEFFICIENT, MOST_COLUMNS, MOST_CUTS, MOST_ROWS,
};
pub use names::Names;
pub use objective_sense::ObjectiveSense;
pub use point::Point;
pub use program::Problem;
pub use row::{Row, Sense};
pub use term::Term;
pub use terms::Terms;
