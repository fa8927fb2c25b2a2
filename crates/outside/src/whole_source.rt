// All that a source has left, up to a limit.
ghost use Rattle.std.specs.Prelude.{◌≡◌, ◌+◌, ◌^◌, ◌<◌, ◌≤◌, ◌++◌, true, length, IfOk, IsErrOf};
ghost use Rattle.outside.specs.Faults.{Rose};

use crate::{Got, Source};
use std::alloc::{AllocError, Global};

/// Why a source was not read.
#[derive(Clone, Copy, Debug, PartialEq, Eq)]
pub enum ReadFault {
    /// A read failed, and the source has counted it.
    Failed,
    /// There was no memory for what was read.
    Memory,
}

impl From<AllocError> for ReadFault {
    ghost use Rattle.std.specs.Prelude.{◌≡◌};
    ghost use Rattle.outside.specs.declared.whole_source.ReadFault.TheVariants.{Memory};

    ghost from_gives = { λ _ e. e ≡ Memory };

    fn from(_: AllocError) -> Self {
        ReadFault::Memory
    }
}

/// Reads to the end, or to `limit` bytes and one more, by which the caller sees that there are too many.
pub fn read_all<S: Source>(
    alloc: Global,
    source: &mut S,
    limit: usize,
) -> Result<Vec<u8>, ReadFault>
    requires { limit < 2 ^ 62 }
    ensures given { IfOk result (λ v. S.tells ≡ true → S.left source.old ≡ v.items ++ S.left source.new) }
    ensures bound { IfOk result (λ v. length v.items ≤ limit + 1) }
    ensures whole { IfOk result (λ v. S.tells ≡ true → length v.items ≤ limit → v.items ≡ S.left source.old) }
    ensures short { IfOk result (λ v. S.tells ≡ true → length (S.left source.old) ≤ limit → v.items ≡ S.left source.old) }
    ensures failed { IsErrOf result ReadFault.Failed → Rose (S.faults source.old) (S.faults source.new) }
    ensures same { ¬ IsErrOf result ReadFault.Failed → S.faults source.new ≡ S.faults source.old }
{
    let mut all = Vec::new(alloc);
    let mut buf = [0u8; 4096];
    while all.len() <= limit {
        let room = (limit + 1 - all.len()).min(4096);
        match source.read(&mut buf[..room]) {
            Got::Gave(count) => all.extend_from_slice(&buf[..count])?,
            Got::End => return Ok(all),
            Got::Failed => return Err(ReadFault::Failed),
        }
    }
    Ok(all)
}
