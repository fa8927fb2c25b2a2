//! Gates by which workers ask one pool: each call is made under the turn of a lock, and is told as what it found and what it added.
#![tactic(auto)]

mod asks;
mod commit;
mod entry;
mod fake_gate;
mod gate;
mod glance;
mod kin;
pub mod laws;
mod lock_gate;
mod make;
mod under;

pub use entry::{Opening, PoolEntry};
pub use fake_gate::FakeGate;
pub use gate::PoolGate;
pub use glance::Glance;
pub use kin::Kin;
pub use lock_gate::LockGate;
