//! The state of a search with its journal. The events of a call are on the disk, as one payload, before they change the state. So whatever crash comes, the
//! journal leaves a beginning of the history; where a write failed, perhaps with all events of its call.
#![tactic(auto)]

mod answers;
mod claim;
mod commit;
mod events;
mod free;
mod halt;
mod payload;
mod pool;
mod release;

pub use answers::{Claim, CommitFault, Receipt};
pub use events::Events;
pub use halt::Halt;
pub use pool::Pool;
