//! A journal on a disk becomes a pool again: its first payload is the record of the model, and each payload behind it spells events of the
//! search, one or more. A disk whose content is no such journal is refused before anything is written on it.
#![tactic(auto)]

mod difference;
mod fault;
mod figures;
pub mod laws;
mod model_record;
mod opening;
mod reading;
mod replay;
mod surveying;

pub use fault::ResumeFault;
pub use figures::Survey;
pub use opening::{open_any, open_pool};
pub use surveying::survey;
