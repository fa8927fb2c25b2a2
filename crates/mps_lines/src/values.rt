//! Fields that say a number or an infinity.

ghost use Rattle.std.specs.Prelude.{◌≡◌, ℕ, ◌<◌, ◌≤◌, ◌^◌, Bool, true, Some, length};
ghost use Rattle.std.specs.List.{list_all};
ghost use Rattle.mps_lines.specs.Decimals.{is_digit, sign_at, spelling, spelt_of, capped};
ghost use Rattle.mps_lines.specs.Infinities.{infinity_word, is_vast, vast};
ghost use Rattle.mps_lines.specs.Values.{IsValue};
ghost use Rattle.mps_lines.specs.Vast.{all_significant, significant, vast_above, vast_below};

use crate::decimals::{NumFault, decimal, digits_at, exponent_at, point_at, sign_at};
use fraction::Frac;

/// What a field says.
#[derive(Clone, Copy, PartialEq, Eq)]
pub enum Value {
    /// A number within the limits.
    Finite(Frac),
    /// An infinity, in a word or as a size of 10^20 or more, and whether it is below 0.
    Infinite(bool),
    /// Why it is neither.
    Fault(NumFault),
}

/// Whether a field is a word for an infinity, and which one.
fn infinity_word(field: &[u8]) -> Option<bool>
    ensures { result ≡ infinity_word (sign_at field.now) }
{
    let (negative, word) = sign_at(field);
    if word.eq_ignore_ascii_case(b"inf".as_slice())
        || word.eq_ignore_ascii_case(b"infinity".as_slice())
    {
        Some(negative)
    } else {
        None
    }
}

/// How many digits there are from the first one on that isn't 0.
fn significant(digits: &[u8]) -> usize
    ensures value { result ≡ significant digits.now }
    ensures bound { result ≤ length digits.now }
{
    let mut at = 0;
    while at < digits.len() && digits[at] == b'0' {
        at += 1;
    }
    digits.len() - at
}

/// How many digits there are from the first one on that isn't 0, with a point between the two lists.
fn digit_count(whole: &[u8], part: &[u8]) -> u128
    ensures value { result ≡ all_significant (significant whole.now) part.now }
    ensures bound { result < 2 ^ 66 }
{
    let count = significant(whole);
    if count == 0 {
        significant(part) as u128
    } else {
        count as u128 + part.len() as u128
    }
}

/// How many digits stand behind the point.
fn scale_of(part: &[u8]) -> u128
    ensures value { result ≡ length part.now }
    ensures bound { result < 2 ^ 64 }
{
    part.len() as u128
}

/// Whether that many digits, of which `scale` stand behind the point, are 10^20 or more over ten to `power`.
fn is_vast_below(digits: u128, scale: u128, power: u128) -> bool
    requires scale { scale < 2 ^ 64 }
    requires power { power ≤ 2 ^ 100 }
    ensures { result ≡ vast_below digits scale power }
{
    21 + scale + power <= digits
}

/// The same times ten to `power`.
fn is_vast_above(digits: u128, scale: u128, power: u128) -> bool
    requires digits { digits < 2 ^ 66 }
    requires scale { scale < 2 ^ 64 }
    requires power { power ≤ 2 ^ 100 }
    ensures { result ≡ vast_above digits scale power }
{
    digits > 0 && 21 + scale <= digits + power
}

/// Whether these digits with a point between the two lists and this exponent are 10^20 or more.
fn is_vast(whole: &[u8], part: &[u8], below: bool, power: u128) -> bool
    requires whole { list_all is_digit whole.now ≡ true }
    requires part { list_all is_digit part.now ≡ true }
    requires power { power ≤ 2 ^ 100 }
    ensures { (negative : Bool) (p : ℕ) → power ≡ capped p → result ≡ is_vast (spelt_of negative whole.now part.now (below, p)) }
{
    let scale = scale_of(part);
    let digits = digit_count(whole, part);
    if below {
        is_vast_below(digits, scale, power)
    } else {
        is_vast_above(digits, scale, power)
    }
}

/// The sign where these digits with this exponent are 10^20 or more.
fn vast_with(negative: bool, whole: &[u8], part: &[u8], power: (bool, u128)) -> Option<bool>
    requires whole { list_all is_digit whole.now ≡ true }
    requires part { list_all is_digit part.now ≡ true }
    requires power { power.1 ≤ 2 ^ 100 }
    ensures { (p : Bool × ℕ) → power ≡ (p.0, capped p.1) → result ≡ vast (Some (spelt_of negative whole.now part.now p)) }
{
    if is_vast(whole, part, power.0, power.1) {
        Some(negative)
    } else {
        None
    }
}

/// Whether a field spells a number of size 10^20 or more, and its sign.
fn vast(field: &[u8]) -> Option<bool>
    ensures { result ≡ vast (spelling field.now) }
{
    let (negative, rest) = sign_at(field);
    let (whole, rest) = digits_at(rest);
    let (part, rest) = point_at(rest);
    if whole.is_empty() && part.is_empty() {
        return None;
    }
    match exponent_at(rest) {
        Some(power) => vast_with(negative, whole, part, power),
        None => None,
    }
}

/// What a field says. It takes no memory and goes over the field a fixed number of times.
pub fn value_of(field: &[u8]) -> Value
    ensures { IsValue field.now result }
{
    if let Some(negative) = infinity_word(field) {
        return Value::Infinite(negative);
    }
    match decimal(field) {
        Ok(number) => Value::Finite(number),
        Err(fault) => match vast(field) {
            Some(negative) => Value::Infinite(negative),
            None => Value::Fault(fault),
        },
    }
}
