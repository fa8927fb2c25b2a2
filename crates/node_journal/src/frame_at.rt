// The frame that stands at a gate.
ghost use Rattle.std.specs.Prelude.{◌≡◌, ◌+◌, ◌<◌, ◌≤◌, ◌^◌, IfSome, List, ℕ, Bool, Some, None, true, false, nat_le, nat_eq, length, take, drop, if◌then◌else◌, IfOk, IsErrOf, IsTrue, slice_index};
ghost use Rattle.node_journal.specs.Records.{is_gate_open, is_whole, size_at, payload_of};

/// Whether the gate at the front is open: it is 1 and not the last byte.
pub fn is_gate_open(rest: &[u8]) -> bool
    ensures { result ≡ is_gate_open rest.now }
{
    rest.len() > 1 && rest[0] == 1
}

/// The length of the payload behind the gate at the front, if its frame is there whole.
pub fn whole_size(rest: &[u8]) -> Option<usize>
    ensures size { result ≡ (if is_whole rest.now then Some (size_at rest.now) else None) }
    ensures bound { IfSome result (λ n. n < 2 ^ 32) }
{
    if rest.len() < 5 {
        return None;
    }
    let size = u32::from_le_bytes([rest[1], rest[2], rest[3], rest[4]]) as usize;
    if size <= rest.len() - 5 {
        Some(size)
    } else {
        None
    }
}
