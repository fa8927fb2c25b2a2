//! Journals of the model `ONE` with other frames behind the record of their model.

ghost use Rattle.std.specs.Prelude.{◌≡◌, ◌++◌, length, min, take, IfOk};

use std::alloc::{AllocError, Global};

/// Where the gate behind the record of the model stands.
pub const BEHIND_MODEL: usize = 150;

/// The beginning of a journal up to the gate behind the record of its model, and these frames behind it. The one error is want of
/// memory.
pub fn with_frames(alloc: Global, journal: &[u8], frames: &[u8]) -> Result<Vec<u8>, AllocError>
    ensures { IfOk result (λ bytes. bytes.items ≡ take (min (length journal.now) 150) journal.now ++ frames.now) }
{
    let end = journal.len().min(BEHIND_MODEL);
    let mut made = journal[..end].to_vec(alloc)?;
    made.extend_from_slice(frames)?;
    Ok(made)
}
