//! What the dual simplex answers of the relaxation of a problem and some cuts over a box.
#![tactic(auto)]

mod answer;
mod answering;
mod cramped_run;
mod final_tableau;
mod fraction_run;
mod kept_relaxation;
pub mod laws;
mod narrow_sums;
mod point_sums;
mod prepared_sums;
mod program;
mod reading;
mod relaxation;
mod scaled_point;
mod single_sum;
mod sizes;
mod solution;
mod sums;
mod whole_answer;
mod whole_run;
mod whole_tableau;

pub use answer::Answer;
pub use final_tableau::FinalTableau;
pub use kept_relaxation::KeptRelaxation;
pub use point_sums::checked_sum;
pub use prepared_sums::PointSums;
pub use relaxation::{Relaxation, solve};
pub use solution::Solution;
