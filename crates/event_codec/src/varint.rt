//! Numbers in as few bytes as they need (docs/DECISIONS.md, entry 87).

ghost use Rattle.std.specs.Prelude.{◌≡◌, ◌<◌, ◌≤◌, ◌-◌, ◌^◌, nat_lt, length, if◌then◌else◌, OnOk, ◌++◌, IfOk, IfErr, Ok, Err, Some, None};
ghost use Rattle.event_codec.specs.ReadResults.{Reads};
ghost use Rattle.event_codec.specs.Varints.{varint_code, varint_size, varint_value, is_fewest, zigzag, from_zigzag};
ghost use Rattle.event_codec.specs.Reading.{varint_bytes_at, varint_at};

use crate::cursor::Cursor;
use crate::fault::CodecFault;
use std::alloc::AllocError;

/// A number of 64 bits behind other bytes.
#[inline(always)]
pub(crate) fn put_varint(out: &mut Vec<u8>, number: u64) -> Result<(), AllocError>
    ensures { OnOk result (out.new.items ≡ out.old.items ++ varint_code number) }
{
    // Most numbers take one byte.
    if number < 128 {
        out.push(number as u8)?;
        return Ok(());
    }
    put_groups(out, number)
}

/// The same, by its groups of 7 bits.
#[inline(never)]
fn put_groups(out: &mut Vec<u8>, number: u64) -> Result<(), AllocError>
    ensures { OnOk result (out.new.items ≡ out.old.items ++ varint_code number) }
{
    let mut rest = number;
    while rest >= 128 {
        out.push((rest % 128 + 128) as u8)?;
        rest /= 128;
    }
    out.push(rest as u8)?;
    Ok(())
}

/// A number of 128 bits behind other bytes.
pub(crate) fn put_wide_varint(out: &mut Vec<u8>, number: u128) -> Result<(), AllocError>
    ensures { OnOk result (out.new.items ≡ out.old.items ++ varint_code number) }
{
    let mut rest = number;
    while rest >= 128 {
        out.push((rest % 128 + 128) as u8)?;
        rest /= 128;
    }
    out.push(rest as u8)?;
    Ok(())
}

/// A signed number of 64 bits as an unsigned one.
pub(crate) fn zigzag(number: i64) -> u64
    ensures { result ≡ zigzag number }
{
    if number < 0 {
        2 * (-(number + 1)).cast_unsigned() + 1
    } else {
        2 * number.cast_unsigned()
    }
}

/// A signed number of 128 bits as an unsigned one.
pub(crate) fn wide_zigzag(number: i128) -> u128
    ensures { result ≡ zigzag number }
{
    if number < 0 {
        2 * (-(number + 1)).cast_unsigned() + 1
    } else {
        2 * number.cast_unsigned()
    }
}

/// The signed number of 64 bits that becomes this one.
pub(crate) fn from_zigzag(number: u64) -> i64
    ensures { result ≡ from_zigzag number }
{
    let half = (number / 2).cast_signed();
    if number % 2 == 0 { half } else { -1 - half }
}

/// The signed number of 128 bits that becomes this one.
pub(crate) fn from_wide_zigzag(number: u128) -> i128
    ensures { result ≡ from_zigzag number }
{
    let half = (number / 2).cast_signed();
    if number % 2 == 0 { half } else { -1 - half }
}

/// How many bytes a varint has with which these begin, if its last byte is there.
fn varint_size(bytes: &[u8]) -> Option<usize>
    ensures { result ≡ varint_size bytes.now }
{
    for place in 0..bytes.len() {
        if bytes[place] < 128 {
            return Some(place + 1);
        }
    }
    None
}

/// Whether none of these bytes is needless.
fn is_fewest(bytes: &[u8]) -> bool
    ensures { result ≡ is_fewest bytes.now }
{
    bytes.len() <= 1 || bytes[bytes.len() - 1] > 0
}

/// The number of these bytes, if it has at most 64 bits.
fn varint_value(bytes: &[u8]) -> Option<u64>
    ensures { result ≡ (if nat_lt (varint_value bytes.now) (2 ^ 64) then Some (varint_value bytes.now) else None) }
{
    let mut value: u64 = 0;
    for place in 0..bytes.len() {
        if value >= 1 << 57 {
            return None;
        }
        value = value * 128 + u64::from(bytes[bytes.len() - 1 - place] % 128);
    }
    Some(value)
}

/// The number of these bytes, if it has at most 128 bits.
fn wide_varint_value(bytes: &[u8]) -> Option<u128>
    ensures { result ≡ (if nat_lt (varint_value bytes.now) (2 ^ 128) then Some (varint_value bytes.now) else None) }
{
    // Most numbers are small.
    if let Some(value) = varint_value(bytes) {
        return Some(u128::from(value));
    }
    let mut value: u128 = 0;
    for place in 0..bytes.len() {
        if value >= 1 << 121 {
            return None;
        }
        value = value * 128 + u128::from(bytes[bytes.len() - 1 - place] % 128);
    }
    Some(value)
}

/// The bytes of a varint, which are found before their number is judged (docs/DECISIONS.md, entry 85).
#[tactic(auto, unfolding(crate::specs::Reading::varint_bytes_at))]
fn varint_bytes<'a>(cursor: &mut Cursor<'a>) -> Result<&'a [u8], CodecFault>
    ensures found { IfOk result (λ b. varint_bytes_at cursor.old ≡ Ok (b.now, cursor.new)) }
    ensures short { IfErr result (λ f. varint_bytes_at cursor.old ≡ Err f) }
{
    match varint_size(cursor.rest()) {
        Some(size) => cursor.bytes(size),
        None => Err(CodecFault::Short { at: cursor.at() }),
    }
}

/// A number of at most this size.
#[inline(always)]
#[tactic(auto, unfolding(crate::specs::Reading::varint_at))]
pub(crate) fn varint(cursor: &mut Cursor<'_>, most: u64) -> Result<u64, CodecFault>
    ensures { Reads result cursor.new (varint_at most cursor.old) }
{
    let at = cursor.at();
    let bytes = varint_bytes(cursor)?;
    match varint_value(bytes) {
        Some(value) if value <= most && is_fewest(bytes) => Ok(value),
        _ => Err(CodecFault::BadValue { at }),
    }
}

/// A number of 128 bits.
#[tactic(auto, unfolding(crate::specs::Reading::varint_at))]
pub(crate) fn wide_varint(cursor: &mut Cursor<'_>) -> Result<u128, CodecFault>
    ensures { Reads result cursor.new (varint_at (2 ^ 128 - 1) cursor.old) }
{
    let at = cursor.at();
    let bytes = varint_bytes(cursor)?;
    match wide_varint_value(bytes) {
        Some(value) if is_fewest(bytes) => Ok(value),
        _ => Err(CodecFault::BadValue { at }),
    }
}
