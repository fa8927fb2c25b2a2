//! Readers of fractions and of lists.

ghost use Rattle.std.specs.Prelude.{◌≡◌, ◌<◌, ◌^◌, nat_abs, if◌then◌else◌};
ghost use Rattle.fraction.specs.Rational.{frac};
ghost use Rattle.fraction.specs.Checked.{is_small};
ghost use Rattle.event_codec.specs.ReadResults.{Reads, ReadsUnlessMemory, ReadsList};
ghost use Rattle.event_codec.specs.Reading.{is_lowest, is_factor, denominator_at, fraction_at, i64_at, elements_at, point_at, rational_point_at, factor_at, factors_at, mult_at};

use crate::cursor::Cursor;
use crate::enc::Enc;
use crate::fault::{CodecError, CodecFault};
use fraction::Frac;
use node_events::{Mult, RationalPoint};
use problem::{Point, Terms};
use std::alloc::Global;

/// The least number of bytes that a fraction has.
fn fraction_bytes(enc: Enc) -> usize
    ensures { 0 < result }
{
    match enc {
        Enc::One => 32,
        Enc::Two => 2,
    }
}

/// The least number of bytes that a row has with its factor.
fn factor_bytes(enc: Enc) -> usize
    ensures { 0 < result }
{
    match enc {
        Enc::One => 36,
        Enc::Two => 3,
    }
}

/// Room for a list of so many elements, but for no more than there are bytes for.
fn room(cursor: &Cursor<'_>, count: u32, bytes: usize) -> usize
    requires { 0 < bytes }
{
    (cursor.rest().len() / bytes).min(count as usize)
}

/// Whether a fraction may have the numerator.
fn is_small(num: i128) -> bool
    ensures { result ≡ is_small num }
{
    num != i128::MIN
}

/// The fraction of these parts, if they are in lowest terms over a denominator of at least 1.
#[inline(always)]
fn lowest(num: i128, den: i128) -> Option<Frac>
    requires { nat_abs num < 2 ^ 127 }
    ensures { result ≡ (if is_lowest num den then Some (frac num (nat_abs den)) else None) }
{
    // Most numbers are whole.
    if den == 1 {
        return Some(Frac::of(num));
    }
    if den < 1 {
        return None;
    }
    let fraction = Frac::make(num, den);
    if fraction.denom() == den.unsigned_abs() {
        Some(fraction)
    } else {
        None
    }
}

/// The denominator behind a numerator that stands at the place, as a fraction.
#[inline(always)]
#[tactic(auto, unfolding(crate::specs::Reading::denominator_at))]
fn denominator(cursor: &mut Cursor<'_>, enc: Enc, at: usize, num: i128) -> Result<Frac, CodecFault>
    requires { nat_abs num < 2 ^ 127 }
    ensures { Reads result cursor.new (denominator_at enc at num cursor.old) }
{
    let den = cursor.i128(enc)?;
    match lowest(num, den) {
        Some(fraction) => Ok(fraction),
        None => Err(CodecFault::BadValue { at }),
    }
}

/// A fraction.
#[tactic(auto, unfolding(crate::specs::Reading::fraction_at))]
fn fraction(cursor: &mut Cursor<'_>, enc: Enc) -> Result<Frac, CodecFault>
    ensures { Reads result cursor.new (fraction_at enc is_small cursor.old) }
{
    let at = cursor.at();
    let num = cursor.i128(enc)?;
    if !is_small(num) {
        return Err(CodecFault::BadValue { at });
    }
    denominator(cursor, enc, at, num)
}

/// A fraction that isn't 0.
#[tactic(auto, unfolding(crate::specs::Reading::fraction_at))]
fn factor(cursor: &mut Cursor<'_>, enc: Enc) -> Result<Frac, CodecFault>
    ensures { Reads result cursor.new (fraction_at enc is_factor cursor.old) }
{
    let at = cursor.at();
    let num = cursor.i128(enc)?;
    if !is_small(num) || num == 0 {
        return Err(CodecFault::BadValue { at });
    }
    denominator(cursor, enc, at, num)
}

/// So many whole numbers.
fn whole_numbers(
    alloc: Global,
    enc: Enc,
    count: u32,
    cursor: &mut Cursor<'_>,
) -> Result<Vec<i64>, CodecError>
    ensures { ReadsList result cursor.new (elements_at (i64_at enc) count cursor.old) }
{
    let mut numbers = Vec::new(alloc);
    for _ in 0..count {
        let number = cursor.i64(enc)?;
        numbers.push(number)?;
    }
    Ok(numbers)
}

/// A point.
#[tactic(auto, unfolding(crate::specs::Reading::point_at))]
pub(crate) fn point(alloc: Global, enc: Enc, cursor: &mut Cursor<'_>) -> Result<Point, CodecError>
    ensures { ReadsUnlessMemory result cursor.new (point_at enc cursor.old) }
{
    let count = cursor.u32(enc)?;
    let numbers = whole_numbers(alloc, enc, count, cursor)?;
    Ok(Point::make(numbers))
}

/// So many fractions, as a point.
fn fractions(
    alloc: Global,
    enc: Enc,
    count: u32,
    cursor: &mut Cursor<'_>,
) -> Result<RationalPoint, CodecError>
    ensures { ReadsUnlessMemory result cursor.new (elements_at (fraction_at enc is_small) count cursor.old) }
{
    let mut point = RationalPoint::with_capacity(alloc, room(cursor, count, fraction_bytes(enc)))?;
    for _ in 0..count {
        let number = fraction(cursor, enc)?;
        point.push(alloc, number)?;
    }
    Ok(point)
}

/// A list of fractions, as a point.
#[tactic(auto, unfolding(crate::specs::Reading::rational_point_at))]
pub(crate) fn rational_point(
    alloc: Global,
    enc: Enc,
    cursor: &mut Cursor<'_>,
) -> Result<RationalPoint, CodecError>
    ensures { ReadsUnlessMemory result cursor.new (rational_point_at enc cursor.old) }
{
    let count = cursor.u32(enc)?;
    fractions(alloc, enc, count, cursor)
}

/// The number of a row from the least one on, with its factor.
#[tactic(auto, unfolding(crate::specs::Reading::factor_at))]
fn row(enc: Enc, least: u64, cursor: &mut Cursor<'_>) -> Result<(u32, Frac), CodecFault>
    ensures { Reads result cursor.new (factor_at enc least cursor.old) }
{
    let at = cursor.at();
    let row = cursor.u32(enc)?;
    if u64::from(row) < least {
        return Err(CodecFault::BadValue { at });
    }
    let factor = factor(cursor, enc)?;
    Ok((row, factor))
}

/// So many rows with their factors, each above the one before.
fn rows(alloc: Global, enc: Enc, count: u32, cursor: &mut Cursor<'_>) -> Result<Terms, CodecError>
    ensures { ReadsUnlessMemory result cursor.new (factors_at enc 0 count cursor.old) }
{
    let mut terms = Terms::with_capacity(alloc, room(cursor, count, factor_bytes(enc)))?;
    let mut least = 0;
    for _ in 0..count {
        let (row, factor) = row(enc, least, cursor)?;
        terms.push(row, factor)?;
        least = u64::from(row) + 1;
    }
    Ok(terms)
}

/// Multipliers.
#[tactic(auto, unfolding(crate::specs::Reading::mult_at))]
pub(crate) fn mult(alloc: Global, enc: Enc, cursor: &mut Cursor<'_>) -> Result<Mult, CodecError>
    ensures { ReadsUnlessMemory result cursor.new (mult_at enc cursor.old) }
{
    let count = cursor.u32(enc)?;
    let terms = rows(alloc, enc, count, cursor)?;
    Ok(Mult::make(terms))
}
