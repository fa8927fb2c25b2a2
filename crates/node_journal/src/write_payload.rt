// A payload behind the last one of a disk.
ghost use Rattle.std.specs.Prelude.{◌≡◌, ◌+◌, ◌<◌, ◌^◌, ◌++◌, [], ◌∷◌, true, length, IfOk, OnOk, IsErrOf};
ghost use Rattle.outside.specs.Faults.{Counts};
ghost use Rattle.outside.specs.Images.{LeavesOnly, NoMomentPasses, resting};
ghost use Rattle.node_journal.specs.Appends.{IsWithOrWithout};
ghost use Rattle.node_journal.specs.Failing.{fails_by_disk};
ghost use Rattle.node_journal.specs.Frames.{file_of, tail_of};
ghost use Rattle.node_journal.specs.History.{SomeFrom, RemainsFrom};
ghost use Rattle.node_journal.specs.Records.{records, Intact};
ghost use Rattle.node_journal.specs.Whole.{payloads_in, IsWhole};

use crate::AppendFault;
use crate::write_frame::open_behind;
use outside::Disk;
use std::alloc::AllocError;

/// A disk has fewer bytes than this.
const SIZE_LIMIT: u64 = 1 << 63;

/// Makes a buffer the length, the payload and a closed gate. The room for all three is made at once: a byte that is pushed behind a full buffer
/// would double it (docs/DECISIONS.md, entry 89).
fn stage(frame: &mut Vec<u8>, payload: &[u8]) -> Result<(), AllocError>
    requires { length payload.now < 2 ^ 32 }
    ensures { OnOk result (frame.new.items ≡ tail_of payload.now) }
{
    frame.clear();
    frame.reserve(payload.len() + 5)?;
    frame.extend_from_slice(&(payload.len() as u32).to_le_bytes())?;
    frame.extend_from_slice(payload)?;
    frame.push(0)?;
    Ok(())
}

/// Adds a payload to a disk whose last gate is at a place, and answers the place of the last gate then. The buffer serves
/// for the frame.
pub fn write_payload<D: Disk>(
    disk: &mut D,
    frame: &mut Vec<u8>,
    end: u64,
    payload: &[u8],
) -> Result<u64, AppendFault>
    requires whole { D.tells ≡ true → IsWhole (D.now disk.old) end }
    requires bound { end < 2 ^ 63 }
    requires small { length payload.now < 2 ^ 32 }
    ensures end { IfOk result (λ e. e ≡ end + 5 + length payload.now) }
    ensures bound { IfOk result (λ e. e < 2 ^ 63) }
    ensures done { D.tells ≡ true → OnOk result (D.now disk.new ≡ resting (file_of (payloads_in (D.now disk.old) ++ payload.now ∷ []))) }
    ensures any_moment { D.tells ≡ true → LeavesOnly (D.past disk.old) (D.now disk.old) (D.past disk.new) (D.now disk.new) (IsWithOrWithout (payloads_in (D.now disk.old)) payload.now) }
    ensures before { D.tells ≡ true → SomeFrom (length (D.past disk.old)) (D.past disk.new) (λ c. records c ≡ Intact (payloads_in (D.now disk.old))) }
    // Where some crash leaves the new payload, some crash at each later moment does.
    ensures remains { D.tells ≡ true → RemainsFrom (length (D.past disk.old)) (D.past disk.new ++ D.now disk.new ∷ []) (λ c. records c ≡ Intact (payloads_in (D.now disk.old) ++ payload.now ∷ [])) }
    ensures memory { IsErrOf result AppendFault.Memory → NoMomentPasses (D.past disk.old) (D.now disk.old) (D.past disk.new) (D.now disk.new) }
    ensures cause { Counts (D.count disk.old) (D.count disk.new) (fails_by_disk result) }
{
    let next = end + 5 + payload.len() as u64;
    if next >= SIZE_LIMIT {
        return Err(AppendFault::Memory);
    }
    if stage(frame, payload).is_err() {
        return Err(AppendFault::Memory);
    }
    match open_behind(disk, end, frame.as_slice()) {
        Ok(()) => Ok(next),
        Err(_) => Err(AppendFault::Disk),
    }
}
