//! Cuts, and the prices of combinations of rows.
//!
//! Multipliers name rows by number: first the problem's rows, then for each column the row of its lower bound and that of its upper bound, then
//! the cuts. A cut is a combination of these with whole coefficients, its right side rounded up. A combination's price is what it shows that a
//! target is at least, over a box.
#![tactic(auto)]

mod book;
mod columns;
mod combination;
mod combined_numerators;
mod cut;
mod cut_rows;
mod integer_price;
mod integer_sums;
pub mod laws;
mod legal;
mod place;
mod price;
mod whole_combination;
mod whole_sums;

pub use book::Book;
pub use combined_numerators::CombinedNumerators;
pub use cut::Cut;
pub use legal::reaches;
