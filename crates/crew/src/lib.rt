//! The workers of a search: each claims nodes at a gate to one pool, and settles them. A crew is several workers in threads of their own.
#![tactic(auto)]

mod crowd;
mod cuts;
mod looks;
mod node_view;
mod node_work;
mod pause;
mod roster;
mod run;
mod settings;
mod side_by_side;
mod split_values;
pub mod steps;
mod thread_count;
mod threads;
mod worker;
mod worker_loop;

pub use run::run_crew;
pub use settings::Settings;
pub use worker_loop::work;
