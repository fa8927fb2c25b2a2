// Whether a file is a text that stands in another.
use std::fs::File;
use std::io;
use std::os::unix::fs::FileExt;

/// How many bytes are compared at a time.
const PIECE: u64 = 1024;

/// Whether the file is the text of so many bytes that stands in the other from a place on. Nothing is a copy of an empty text.
pub(crate) fn holds_text(file: &File, other: &File, at: u64, length: u64) -> io::Result<bool> {
    if length == 0 || file.metadata()?.len() != length {
        return Ok(false);
    }
    let mut bytes = [0u8; 1024];
    let mut wanted = [0u8; 1024];
    for number in 0..length / PIECE + 1 {
        let place = number.saturating_mul(PIECE);
        let size = length.saturating_sub(place).min(PIECE) as usize;
        file.read_exact_at(&mut bytes[..size], place)?;
        other.read_exact_at(&mut wanted[..size], at.saturating_add(place))?;
        if bytes[..size] != wanted[..size] {
            return Ok(false);
        }
    }
    Ok(true)
}
