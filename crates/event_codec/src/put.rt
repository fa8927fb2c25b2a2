//! Codes of numbers and lists, put behind other bytes.

ghost use Rattle.std.specs.Prelude.{◌≡◌, ◌++◌, OnOk};
ghost use Rattle.event_codec.specs.Codes.{u32_code, i64_code, i128_code, fraction_code, flag_code, list_code, factor_code, mult_code, IsShort};
ghost use Rattle.std.specs.Int.{w64};
ghost use Rattle.std.specs.Int.RustNames.{FitsSigned};
ghost use Rattle.std.specs.List.{AllByRecursion};
ghost use Rattle.fraction.specs.Fits.{FitsFraction};
ghost use Rattle.event_codec.specs.Types.{FitsU32, IsMult, IsPoint};

use crate::enc::Enc;
use crate::varint::{put_varint, put_wide_varint, wide_zigzag, zigzag};
use fraction::Frac;
use node_events::{Mult, RationalPoint};
use problem::{Point, Term};
use std::alloc::AllocError;

/// How many bytes a fraction takes at least, in encoding 2. Room for so many is made ahead of a list.
const FRACTION_SIZE: usize = 2;

/// How many bytes a row with its factor takes at least, in encoding 2.
const FACTOR_SIZE: usize = 3;

/// A number of 32 bits.
#[tactic(auto, unfolding(crate::specs::Codes::u32_code))]
pub(crate) fn put_u32(out: &mut Vec<u8>, enc: Enc, number: u32) -> Result<(), AllocError>
    ensures spelled { OnOk result (out.new.items ≡ out.old.items ++ u32_code enc number) }
    ensures typed { FitsU32 number }
{
    match enc {
        Enc::One => {
            out.extend_from_slice(&number.to_le_bytes())?;
            Ok(())
        }
        Enc::Two => put_varint(out, u64::from(number)),
    }
}

/// A signed number of 64 bits.
#[tactic(auto, unfolding(crate::specs::Codes::i64_code))]
pub(crate) fn put_i64(out: &mut Vec<u8>, enc: Enc, number: i64) -> Result<(), AllocError>
    ensures spelled { OnOk result (out.new.items ≡ out.old.items ++ i64_code enc number) }
    ensures typed { FitsSigned w64 number }
{
    match enc {
        Enc::One => {
            out.extend_from_slice(&number.to_le_bytes())?;
            Ok(())
        }
        Enc::Two => put_varint(out, zigzag(number)),
    }
}

/// A signed number of 128 bits.
#[inline(always)]
#[tactic(auto, unfolding(crate::specs::Codes::i128_code))]
fn put_i128(out: &mut Vec<u8>, enc: Enc, number: i128) -> Result<(), AllocError>
    ensures { OnOk result (out.new.items ≡ out.old.items ++ i128_code enc number) }
{
    match enc {
        Enc::One => {
            out.extend_from_slice(&number.to_le_bytes())?;
            Ok(())
        }
        // Nearly all numbers have 64 bits.
        Enc::Two => match i64::try_from(number) {
            Ok(narrow) => put_varint(out, zigzag(narrow)),
            Err(_) => put_wide_varint(out, wide_zigzag(number)),
        },
    }
}

/// A flag.
pub(crate) fn put_flag(out: &mut Vec<u8>, flag: bool) -> Result<(), AllocError>
    ensures { OnOk result (out.new.items ≡ out.old.items ++ flag_code flag) }
{
    out.push(if flag { 1 } else { 0 })?;
    Ok(())
}

/// A fraction.
fn put_fraction(out: &mut Vec<u8>, enc: Enc, fraction: Frac) -> Result<(), AllocError>
    ensures spelled { OnOk result (out.new.items ≡ out.old.items ++ fraction_code enc fraction) }
    ensures typed { FitsFraction fraction }
{
    fraction.limits_hold();
    put_i128(out, enc, fraction.numer())?;
    put_i128(out, enc, fraction.denom() as i128)
}

/// A row with its factor.
fn put_factor(out: &mut Vec<u8>, enc: Enc, term: &Term) -> Result<(), AllocError>
    ensures spelled { OnOk result (out.new.items ≡ out.old.items ++ factor_code enc term.now) }
    ensures typed { OnOk result (FitsU32 term.now.0 × FitsFraction term.now.1) }
{
    put_u32(out, enc, term.column())?;
    put_fraction(out, enc, term.coefficient())
}

/// Multipliers.
#[tactic(auto, unfolding(crate::specs::Codes::list_code))]
pub(crate) fn put_mult(out: &mut Vec<u8>, enc: Enc, mult: &Mult) -> Result<(), AllocError>
    requires { IsShort mult.now }
    ensures spelled { OnOk result (out.new.items ≡ out.old.items ++ mult_code enc mult.now) }
    ensures typed { OnOk result (IsMult mult.now) }
{
    put_u32(out, enc, mult.len() as u32)?;
    out.reserve(mult.len() * FACTOR_SIZE)?;
    for term in mult.as_slice() {
        put_factor(out, enc, term)?;
    }
    Ok(())
}

/// A point.
#[tactic(auto, unfolding(crate::specs::Codes::list_code))]
pub(crate) fn put_point(out: &mut Vec<u8>, enc: Enc, point: &Point) -> Result<(), AllocError>
    requires { IsShort point.now }
    ensures spelled { OnOk result (out.new.items ≡ out.old.items ++ list_code enc (i64_code enc) point.now) }
    ensures typed { OnOk result (IsPoint point.now) }
{
    let numbers = point.as_slice();
    put_u32(out, enc, numbers.len() as u32)?;
    for number in numbers {
        put_i64(out, enc, *number)?;
    }
    Ok(())
}

/// A point of fractions.
#[tactic(auto, unfolding(crate::specs::Codes::list_code))]
pub(crate) fn put_rational_point(
    out: &mut Vec<u8>,
    enc: Enc,
    point: &RationalPoint,
) -> Result<(), AllocError>
    requires { IsShort point.now }
    ensures spelled { OnOk result (out.new.items ≡ out.old.items ++ list_code enc (fraction_code enc) point.now) }
    ensures typed { OnOk result (AllByRecursion FitsFraction point.now) }
{
    put_u32(out, enc, point.len() as u32)?;
    out.reserve(point.len() * FRACTION_SIZE)?;
    for column in 0..point.len() {
        put_fraction(out, enc, point.get(column))?;
    }
    Ok(())
}
