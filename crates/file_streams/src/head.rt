// What the front of a file tells: whether it is a journal, and how long the text of the model in it is.
ghost use Rattle.std.specs.Prelude.{◌≡◌, ◌+◌, true, nat_eq, IfSome, IsErr};
ghost use Rattle.std.specs.List.{starts_with};
ghost use Rattle.node_journal.specs.Records.{mark, size_at};

use std::fs::File;
use std::io;
use std::io::Error;
use std::os::unix::fs::FileExt;

/// Where the text of the model begins in a journal: behind the mark, the gate and the length of the first record, and what the record has ahead
/// of the text.
pub(crate) const TEXT: u64 = 24;

/// What the record of a model has ahead of its text.
const AHEAD: u64 = 11;

/// The first bytes of a file, and zeros where it has fewer. The mark has none.
#[derive(Clone, Copy)]
pub(crate) struct Head {
    bytes: [u8; 24],
    /// Whether the file has all of them.
    whole: bool,
}

impl Head {
    /// The front of this file.
    pub(crate) fn of(file: &File) -> io::Result<Head> {
        let mut bytes = [0u8; 24];
        let count = file.metadata()?.len().min(TEXT) as usize;
        file.read_exact_at(&mut bytes[..count], 0)?;
        Ok(Head {
            bytes,
            whole: count == 24,
        })
    }

    /// Fails at a journal.
    pub(crate) fn check(&self) -> io::Result<()> {
        check_mark(&self.bytes)
    }

    /// How long the text of the model is in a journal that begins so; none where its first record is not there, or is none of a model.
    pub(crate) fn text_length(&self) -> Option<u64> {
        if !self.whole || !is_journal(&self.bytes) || self.bytes[8] != 1 {
            return None;
        }
        text_length(&self.bytes[8..])
    }
}

/// Whether a file that begins so is a journal, be it in use or not.
pub(crate) fn is_journal(head: &[u8]) -> bool
    ensures { result ≡ starts_with nat_eq head.now mark }
{
    head.starts_with(b"BNCJRNL1")
}

// Fails at the front of a journal.
fn check_mark(head: &[u8]) -> io::Result<()>
    ensures { starts_with nat_eq head.now mark ≡ true → IsErr result }
{
    if is_journal(head) {
        Err(Error::other("it is a journal"))
    } else {
        Ok(())
    }
}

// How long the text is in a record of a model; none where the record is another. The slice begins with the gate of the record.
fn text_length(rest: &[u8]) -> Option<u64>
    ensures { IfSome result (λ n. n + AHEAD ≡ size_at rest.now) }
{
    if rest.len() < 7 || rest[5] != 1 || rest[6] != 1 {
        return None;
    }
    let size = u32::from_le_bytes([rest[1], rest[2], rest[3], rest[4]]);
    u64::from(size).checked_sub(AHEAD)
}
