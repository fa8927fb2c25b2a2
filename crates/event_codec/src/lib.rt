//! Events of a search and the model's record as bytes: the payloads of a journal. `docs/JOURNAL.md` has the format.
#![tactic(auto)]

mod cursor;
mod decoding;
mod enc;
mod encoding;
mod fault;
mod group_decoding;
mod group_encoding;
pub mod laws;
mod model;
mod put;
mod read_event;
mod read_lists;
mod tags;
mod upgrade;
mod varint;

pub use decoding::decode;
pub use enc::Enc;
pub use encoding::encode;
pub use fault::{CodecError, CodecFault};
pub use group_decoding::decode_group;
pub use group_encoding::{MOST_GROUP_EVENTS, encode_group};
pub use model::{ModelRecord, decode_model, encode_model};
pub use upgrade::{is_upgrade, upgrade_record};
