//! What programs of cases and of measurements share: the problem of a model's text, texts of values, numbers that look like random ones, and a
//! place where two workers meet.
#![tactic(auto)]

mod generator;
mod meeting;
mod models;
mod texts;

pub use generator::Generator;
pub use meeting::Meeting;
pub use models::problem_of;
pub use texts::{NumberOrNone, Spans, Sum};
