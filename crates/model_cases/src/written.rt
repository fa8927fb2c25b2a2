// The bytes that a block stands for.

ghost use Rattle.std.specs.Prelude.{◌≡◌, ◌++◌, ◌∷◌, ◌≢◌, [], IfOk};

use anyhow::{Context, Result};
use std::alloc::{AllocError, Global};
use std::str::Chars;

/// The lines of a block as they stand.
pub(crate) fn plain(alloc: Global, body: &str) -> Result<Vec<u8>, AllocError>
    ensures lines { IfOk result (λ v. body.now ≢ [] → v.items ≡ body.now ++ 10 ∷ []) }
    ensures empty { IfOk result (λ v. body.now ≡ [] → v.items ≡ []) }
{
    let mut bytes = Vec::new(alloc);
    if !body.is_empty() {
        bytes.extend_from_slice(body.as_bytes())?;
        bytes.push(b'\n')?;
    }
    Ok(bytes)
}

/// A text with a number in the place of each `#`.
fn numbered(alloc: Global, text: &str, number: u32) -> Result<String, AllocError> {
    let number = format!(in alloc; "{number}")?;
    text.replace(alloc, '#', number.as_str())
}

/// Pushes a text with a number in the place of each `#`.
fn push_copy(
    bytes: &mut Vec<u8>,
    alloc: Global,
    text: &str,
    number: u32,
) -> Result<(), AllocError> {
    let copy = numbered(alloc, text, number)?;
    bytes.extend_from_slice(copy.as_str().as_bytes())
}

/// Pushes a text so often, with the number of the copy, from 0, in the place of each `#`.
fn push_copies(
    bytes: &mut Vec<u8>,
    alloc: Global,
    text: &str,
    count: u32,
) -> Result<(), AllocError> {
    let is_numbered = text.contains('#');
    for number in 0..count {
        if is_numbered {
            push_copy(bytes, alloc, text, number)?;
        } else {
            bytes.extend_from_slice(text.as_bytes())?;
        }
    }
    Ok(())
}

/// The lines of a block so often as its head says, with the number of the copy, from 0, in the place of each `#`.
pub(crate) fn repeated(alloc: Global, body: &str, count: u32) -> Result<Vec<u8>, AllocError> {
    let lines = format!(in alloc; "{body}\n")?;
    let mut bytes = Vec::new(alloc);
    push_copies(&mut bytes, alloc, lines.as_str(), count)?;
    Ok(bytes)
}

/// The byte of two hexadecimal digits.
fn byte_of(high: Option<char>, low: Option<char>) -> Option<u8> {
    let high = high?.to_digit(16)?;
    let low = low?.to_digit(16)?;
    u8::try_from(high.checked_mul(16)?.checked_add(low)?).ok()
}

/// Pushes the copies of an escape `COUNT{TEXT}`, which begins this text. What follows it.
fn push_repeat<'a>(bytes: &mut Vec<u8>, alloc: Global, text: &'a str) -> Result<&'a str> {
    let (count, rest) = text.split_once('{').context("an escape that isn't known")?;
    let (copied, rest) = rest.split_once('}').context("a brace that isn't closed")?;
    push_copies(bytes, alloc, copied, count.parse::<u32>()?)?;
    Ok(rest)
}

/// Pushes what an escape stands for; its backslash is taken away. What follows it.
fn push_escape<'a>(bytes: &mut Vec<u8>, alloc: Global, text: &'a str) -> Result<&'a str> {
    let mut chars: Chars<'a> = text.chars();
    let byte = match chars.next() {
        Some('t') => b'\t',
        Some('r') => b'\r',
        Some('n') => b'\n',
        Some('\\') => b'\\',
        // the end of the line is left out
        Some('\n') => return Ok(chars.as_str()),
        Some('x') => byte_of(chars.next(), chars.next()).context(
            "a byte without two hexadecimal digits",
        )?,
        _ => return push_repeat(bytes, alloc, text),
    };
    bytes.push(byte)?;
    Ok(chars.as_str())
}

/// Pushes a text with what its escapes stand for.
fn push_escaped(bytes: &mut Vec<u8>, alloc: Global, text: &str) -> Result<()> {
    let mut rest = text;
    for _ in 0..text.len() {
        let Some((before, escape)) = rest.split_once('\\') else {
            break;
        };
        bytes.extend_from_slice(before.as_bytes())?;
        rest = push_escape(bytes, alloc, escape)?;
    }
    bytes.extend_from_slice(rest.as_bytes())?;
    Ok(())
}

/// The lines of a block in which `\t`, `\r`, `\n` and `\\` stand for one byte, `\x80` for the byte of this hexadecimal
/// number, `\256{TEXT}` for so many copies of a text, and a backslash before the end of a line takes this end away.
pub(crate) fn escaped(alloc: Global, body: &str) -> Result<Vec<u8>> {
    let lines = format!(in alloc; "{body}\n")?;
    let mut bytes = Vec::new(alloc);
    push_escaped(&mut bytes, alloc, lines.as_str())?;
    Ok(bytes)
}
