// One read and one write, each tried again where a signal interrupts it, and a write also where the stream takes nothing now. Every stream here
// goes through them.
ghost use Rattle.std.specs.Prelude.{◌≡◌, ◌≢◌, ◌≤◌, ◌<◌, ◌↔◌, ℕ, length, take, IsTrue, IfOk, IfErr, OnOk, OnErr};
ghost use Rattle.std.specs.Io.KnownBytes.{Appends, Consumes, IsAtEnd, Keeps};
ghost use Rattle.std.specs.IoError.{error_kind};

use std::io::{ErrorKind, Read, Write};
use std::rt::Clock;
use std::time::Duration;
use std::{io, thread};

fn is_interrupted(error: &io::Error) -> bool
    ensures { IsTrue result ↔ (error_kind error.now ≡ ErrorKind.Interrupted) }
{
    error.kind() == ErrorKind::Interrupted
}

// Whether the stream takes nothing now, which one that does not block tells so.
fn is_busy(error: &io::Error) -> bool
    ensures { IsTrue result ↔ (error_kind error.now ≡ ErrorKind.WouldBlock) }
{
    error.kind() == ErrorKind::WouldBlock
}

/// Reads once into the front of the buffer, and answers how many bytes came: none at the end. An error took none.
pub(crate) fn read_some<R: Read>(from: &mut R, buf: &mut [u8]) -> io::Result<usize>
    ensures bound { IfOk result (λ n. n ≤ length buf.new) }
    ensures bytes { IfOk result (λ n. Consumes (R.remaining from.old) (R.remaining from.new) (take n buf.new)) }
    ensures end { IfOk result (λ n. n ≡ 0 → 0 < length buf.old → IsAtEnd (R.remaining from.new)) }
    ensures failed { OnErr result (Keeps (R.remaining from.old) (R.remaining from.new)) }
    ensures retried { IfErr result (λ e. error_kind e ≢ ErrorKind.Interrupted) }
{
    for _ in 0..u64::MAX {
        match from.read(buf) {
            Err(error) if is_interrupted(&error) => {}
            done => return done,
        }
    }
    Err(io::Error::from(ErrorKind::TimedOut))
}

/// Writes once, and answers how many bytes were taken, from the front of the piece. An error took none. Where the stream takes nothing now it
/// waits, as one that blocks would.
pub(crate) fn write_some<R: Clock, W: Write>(
    clock: &R,
    to: &mut W,
    piece: &[u8],
) -> io::Result<usize>
    ensures bound { IfOk result (λ n. n ≤ length piece.now) }
    ensures bytes { IfOk result (λ n. Appends (W.contents to.old) (W.contents to.new) (take n piece.now)) }
    ensures failed { OnErr result (Keeps (W.contents to.old) (W.contents to.new)) }
    ensures retried { IfErr result (λ e. error_kind e ≢ ErrorKind.Interrupted) }
    ensures waited { IfErr result (λ e. error_kind e ≢ ErrorKind.WouldBlock) }
{
    for _ in 0..u64::MAX {
        match to.write(piece) {
            Err(error) if is_interrupted(&error) => {}
            Err(error) if is_busy(&error) => thread::sleep(clock, Duration::from_millis(5)),
            done => return done,
        }
    }
    Err(io::Error::from(ErrorKind::TimedOut))
}

/// Writes all of the bytes, in as many pieces as the stream takes them. It fails where a write does, or takes nothing; a prefix of the bytes was
/// taken then.
pub(crate) fn write_whole<R: Clock, W: Write>(clock: &R, to: &mut W, bytes: &[u8]) -> io::Result<()>
    ensures whole { OnOk result (Appends (W.contents to.old) (W.contents to.new) bytes.now) }
    ensures prefix { OnErr result ((n : ℕ) × Appends (W.contents to.old) (W.contents to.new) (take n bytes.now)) }
{
    let mut at = 0;
    'pieces: while at < bytes.len() {
        let count = write_some(clock, to, &bytes[at..])?;
        if count == 0 {
            return Err(io::Error::from(ErrorKind::WriteZero));
        }
        at += count;
    }
    Ok(())
}
