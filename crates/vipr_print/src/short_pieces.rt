// Pieces of a line whose numbers have 64 bits: each is made in a buffer on the stack, from its end to its front, and pushed at once
// (docs/DECISIONS.md, entry 80).
ghost use Rattle.std.specs.Prelude.{◌≡◌, ◌+◌, ◌<◌, ◌≤◌, ◌++◌, [], ◌∷◌, OnOk, codes, drop, length};
ghost use Rattle.std.specs.Fmt.{decimal, signed_decimal};

use itoa::write_digits;
use std::alloc::AllocError;

/// The room of a longest term: two blanks, ten digits, a sign and nineteen digits.
const TERM_ROOM: usize = 32;

/// The room of a longest front of a row: a letter, three blanks, a sense, and three numbers of at most twenty bytes.
const FRONT_ROOM: usize = 65;

/// The room of four numbers of 32 bits with a blank before each.
const NUMBERS_ROOM: usize = 44;

/// Writes a byte in front of those from `end` on, and answers where it stands.
#[inline(always)]
fn write_byte(buffer: &mut [u8], end: usize, byte: u8) -> usize
    requires within { (0 < end) × (end ≤ length buffer.old) }
    ensures place { result + 1 ≡ end }
    ensures written { drop result buffer.new ≡ byte ∷ drop end buffer.old }
{
    buffer[end - 1] = byte;
    end - 1
}

/// Writes a whole number in front of the bytes from `end` on, and answers where it begins.
#[inline(always)]
fn write_integer(buffer: &mut [u8], number: i64, end: usize) -> usize
    requires within { (20 ≤ end) × (end ≤ length buffer.old) }
    ensures place { (result ≤ end) × (end ≤ result + 20) }
    ensures written { drop result buffer.new ≡ signed_decimal number ++ drop end buffer.old }
{
    let start = write_digits(number.unsigned_abs(), buffer, end);
    if number < 0 {
        write_byte(buffer, start, b'-')
    } else {
        start
    }
}

/// Writes a number in front of the bytes from `end` on, and answers where it begins.
#[inline(always)]
fn write_natural(buffer: &mut [u8], number: usize, end: usize) -> usize
    requires within { (20 ≤ end) × (end ≤ length buffer.old) }
    ensures place { (result ≤ end) × (end ≤ result + 20) }
    ensures written { drop result buffer.new ≡ decimal number ++ drop end buffer.old }
{
    write_digits(number as u64, buffer, end)
}

/// Writes a blank and a number in front of the bytes from `end` on, and answers where the blank stands.
#[inline(always)]
fn write_number(buffer: &mut [u8], number: u32, end: usize) -> usize
    requires within { (11 ≤ end) × (end ≤ length buffer.old) }
    ensures place { (result ≤ end) × (end ≤ result + 11) }
    ensures written { drop result buffer.new ≡ 32 ∷ decimal number ++ drop end buffer.old }
{
    let digits_at = write_digits(u64::from(number), buffer, end);
    write_byte(buffer, digits_at, b' ')
}

/// Writes a term at the end of the buffer, and answers where it begins.
#[inline(always)]
fn write_term(buffer: &mut [u8; TERM_ROOM], column: u32, number: i64) -> usize
    ensures place { result ≤ 32 }
    ensures written { drop result buffer.new ≡ codes " " ++ decimal column ++ codes " " ++ signed_decimal number }
{
    let number_at = write_integer(buffer, number, TERM_ROOM);
    let blank_at = write_byte(buffer, number_at, b' ');
    write_number(buffer, column, blank_at)
}

/// Pushes a number and a whole number, with a blank before each.
#[inline(always)]
pub fn push_integer_term(out: &mut Vec<u8>, column: u32, number: i64) -> Result<(), AllocError>
    ensures { OnOk result (out.new.items ≡ out.old.items ++ (codes " " ++ decimal column ++ codes " " ++ signed_decimal number)) }
{
    let mut buffer = [0; TERM_ROOM];
    let start = write_term(&mut buffer, column, number);
    out.extend_from_slice(&buffer[start..])?;
    Ok(())
}

/// Writes a whole number and a count at the end of the buffer, with a blank between them, and answers where they begin.
#[inline(always)]
fn write_side(buffer: &mut [u8; FRONT_ROOM], side: i64, count: usize) -> usize
    ensures place { (24 ≤ result) × (result ≤ 65) }
    ensures written { drop result buffer.new ≡ signed_decimal side ++ codes " " ++ decimal count }
{
    let count_at = write_natural(buffer, count, FRONT_ROOM);
    let blank_at = write_byte(buffer, count_at, b' ');
    write_integer(buffer, side, blank_at)
}

/// Writes a sense between blanks in front of the bytes from `end` on, and answers where it begins.
#[inline(always)]
fn write_sense(buffer: &mut [u8], sense: u8, end: usize) -> usize
    requires within { (3 ≤ end) × (end ≤ length buffer.old) }
    ensures place { result + 3 ≡ end }
    ensures written { drop result buffer.new ≡ 32 ∷ sense ∷ 32 ∷ drop end buffer.old }
{
    let behind_at = write_byte(buffer, end, b' ');
    let sense_at = write_byte(buffer, behind_at, sense);
    write_byte(buffer, sense_at, b' ')
}

/// Pushes a letter with a number, a sense between blanks, a whole number, a blank and a count.
#[inline(always)]
pub fn push_front(
    out: &mut Vec<u8>,
    label: (u8, usize),
    sense: u8,
    side: i64,
    count: usize,
) -> Result<(), AllocError>
    ensures { OnOk result (out.new.items ≡ out.old.items ++ (label.0 ∷ decimal label.1 ++ 32 ∷ sense ∷ 32 ∷ signed_decimal side ++ codes " " ++ decimal count)) }
{
    let mut buffer = [0; FRONT_ROOM];
    let side_at = write_side(&mut buffer, side, count);
    let sense_at = write_sense(&mut buffer, sense, side_at);
    let number_at = write_natural(&mut buffer, label.1, sense_at);
    let start = write_byte(&mut buffer, number_at, label.0);
    out.extend_from_slice(&buffer[start..])?;
    Ok(())
}

/// Pushes four numbers, with a blank before each.
#[inline(always)]
pub fn push_numbers(
    out: &mut Vec<u8>,
    first: (u32, u32),
    second: (u32, u32),
) -> Result<(), AllocError>
    ensures { OnOk result (out.new.items ≡ out.old.items ++ (32 ∷ decimal first.0 ++ 32 ∷ decimal first.1 ++ 32 ∷ decimal second.0 ++ 32 ∷ decimal second.1)) }
{
    let mut buffer = [0; NUMBERS_ROOM];
    let fourth_at = write_number(&mut buffer, second.1, NUMBERS_ROOM);
    let third_at = write_number(&mut buffer, second.0, fourth_at);
    let second_at = write_number(&mut buffer, first.1, third_at);
    let start = write_number(&mut buffer, first.0, second_at);
    out.extend_from_slice(&buffer[start..])?;
    Ok(())
}
