//! Boxes of whole numbers: one span, a lower and an upper bound, per column.
#![tactic(auto)]

mod int_box;
mod span;

pub use int_box::IntBox;
pub use span::Span;
