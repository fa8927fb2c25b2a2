// All of some bytes, into a sink.
ghost use Rattle.std.specs.Prelude.{◌≡◌, ◌++◌, true, OnOk, OnErr, is_err};
ghost use Rattle.outside.specs.Faults.{Counts};
ghost use Rattle.outside.specs.Stream.{AppendsPrefix};

use crate::{Failed, Put, Sink};

/// Writes all of the bytes, in as many pieces as the sink takes them. At `Failed`, which comes only where the sink
/// failed and counted it, a prefix of them was taken.
pub fn write_all<C: Sink>(sink: &mut C, bytes: &[u8]) -> Result<(), Failed>
    ensures whole { C.tells ≡ true → OnOk result (C.taken sink.new ≡ C.taken sink.old ++ bytes.now) }
    ensures prefix { C.tells ≡ true → OnErr result (AppendsPrefix (C.taken sink.old) (C.taken sink.new) bytes.now) }
    ensures cause { Counts (C.faults sink.old) (C.faults sink.new) (is_err result) }
{
    let mut at = 0;
    while at < bytes.len() {
        match sink.write(&bytes[at..]) {
            Put::Took(count) => at += count,
            Put::Failed => return Err(Failed),
        }
    }
    Ok(())
}
