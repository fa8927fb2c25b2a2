//! The reader of models in free MPS.
#![tactic(auto)]

mod bounds;
mod building;
mod column_names;
mod columns;
mod empty;
mod ends;
mod fields;
mod keys;
mod kinds;
pub mod laws;
mod limits;
mod lines;
mod mps;
mod names;
mod numbers;
mod order;
mod problems;
mod ranged_rows;
mod reading;
mod row_table;
mod row_terms;
mod rows;
mod side_table;
mod sides;
mod steps;
mod tables;
mod words;

pub use keys::Lent;
pub use kinds::Kind;
pub use mps::{TEXT_LIMIT, read_mps};
pub use reading::ReadFault;
