//! Numbers: an optional sign, digits with a point among or at either end of them, and an optional exponent.

ghost use Rattle.std.specs.Prelude.{◌≡◌, ℕ, ◌+◌, ◌*◌, ◌^◌, ◌<◌, ◌≤◌, ◌==◌, ◌++◌, ◌-◌, ◌&&◌, Bool, true, false, not, if◌then◌else◌, nat_lt, nat_le, min, ◌||◌, length, drop, Some, None, Ok, Err, IfSome, ℤ, pos, nat_abs};
ghost use Rattle.std.specs.List.{prefix_len, list_all};
ghost use Rattle.std.specs.Option.{option_map};
ghost use Rattle.std.specs.Str.Parse.{digits_value};
ghost use Rattle.mps_lines.specs.Decimals.{is_digit, front_digits, behind_digits, sign_at, point_at, power_at, exponent_at, with_sign, within_limits, decimal, capped, amount, spelt_of};
ghost use Rattle.problem.specs.Limits.{largest_bound, finest};
ghost use Rattle.mps_lines.specs.Weights.{weighed, with_digit, judged};

use fraction::Frac;
use problem::{FINEST, LARGEST_BOUND};

/// Why a field is no number that is read.
#[derive(Clone, Copy, Debug, PartialEq, Eq)]
pub enum NumFault {
    /// It isn't spelled as a number.
    BadNumber,
    /// Its size is above `LARGEST_BOUND`, 10^9.
    TooLarge,
    /// It isn't a multiple of 1 / `FINEST`, 10^-15, and its size is at most `LARGEST_BOUND`.
    TooFine,
}

/// Digits by their places: whether one above 10^9 isn't zero, those down to 10^-15 as a number of
/// units of 10^-15, and whether one below isn't zero.
#[derive(Clone, Copy)]
struct Sum {
    high: bool,
    middle: u128,
    low: bool,
}

/// A power of ten up to 10^24.
#[tactic(auto, using(crate::proofs::Places::power_small))]
fn power_of_ten(exponent: u128) -> u128
    requires { exponent < 25 }
    ensures value { result ≡ 10 ^ exponent }
    ensures small { result ≤ 10 ^ 24 }
{
    10u128.pow(exponent as u32)
}

/// One more digit.
#[tactic(auto, using(crate::proofs::Places::digit_times))]
fn with_digit(sum: Sum, digit: u8, at: u128, unit: u128) -> Sum
    requires digit { is_digit digit ≡ true }
    requires unit_small { unit < 2 ^ 110 }
    requires middle { sum.middle < 10 ^ 25 }
    ensures { result ≡ with_digit unit at digit sum }
{
    if at >= unit + 25 {
        Sum {
            high: sum.high || digit != b'0',
            middle: sum.middle,
            low: sum.low,
        }
    } else if at >= unit {
        let weight = power_of_ten(at - unit);
        let value = u128::from(digit - b'0');
        Sum {
            high: sum.high,
            middle: sum.middle + value * weight,
            low: sum.low,
        }
    } else {
        Sum {
            high: sum.high,
            middle: sum.middle,
            low: sum.low || digit != b'0',
        }
    }
}

/// How many digits stand in front.
fn digits_len(bytes: &[u8]) -> usize
    ensures value { result ≡ prefix_len is_digit bytes.now }
    ensures bound { result ≤ length bytes.now }
{
    let mut at = 0;
    while at < bytes.len() && bytes[at] >= b'0' && bytes[at] <= b'9' {
        at += 1;
    }
    at
}

/// The sign, and what follows it.
pub fn sign_at(bytes: &[u8]) -> (bool, &[u8])
    ensures { (result.0, result.1.now) ≡ sign_at bytes.now }
{
    match bytes {
        [b'-', rest @ ..] => (true, rest),
        [b'+', rest @ ..] => (false, rest),
        _ => (false, bytes),
    }
}

/// The digits in front, and what follows them.
pub fn digits_at(bytes: &[u8]) -> (&[u8], &[u8])
    ensures digits { result.0.now ≡ front_digits bytes.now }
    ensures rest { result.1.now ≡ behind_digits bytes.now }
    ensures all { list_all is_digit result.0.now ≡ true }
{
    bytes.split_at(digits_len(bytes))
}

/// The digits behind a point, and what follows them.
pub fn point_at(bytes: &[u8]) -> (&[u8], &[u8])
    ensures parts { (result.0.now, result.1.now) ≡ point_at bytes.now }
    ensures all { list_all is_digit result.0.now ≡ true }
{
    match bytes {
        [b'.', rest @ ..] => digits_at(rest),
        _ => (&bytes[..0], bytes),
    }
}

/// The number, or the cap.
fn at_most_cap(number: u128) -> u128
    ensures value { result ≡ capped number }
    ensures small { result ≤ 2 ^ 100 }
{
    const CAP: u128 = 1 << 100;
    if number >= CAP { CAP } else { number }
}

/// The number that digits spell, up to a cap.
fn capped_number(digits: &[u8]) -> u128
    requires { list_all is_digit digits.now ≡ true }
    ensures value { result ≡ capped (digits_value 10 digits.now) }
    ensures small { result ≤ 2 ^ 100 }
{
    let mut number: u128 = 0;
    for digit in digits {
        let digit = *digit;
        number = at_most_cap(number * 10 + u128::from(digit - b'0'));
    }
    number
}

/// The digits of both lists by their places, the last one's being 10^(at - unit).
fn weigh(whole: &[u8], part: &[u8], at: u128, unit: u128) -> Sum
    requires whole { list_all is_digit whole.now ≡ true }
    requires part { list_all is_digit part.now ≡ true }
    requires at_small { at < 2 ^ 110 }
    requires unit_small { unit < 2 ^ 110 }
    ensures value { result ≡ weighed unit at (whole.now ++ part.now) }
    ensures middle { result.middle < 10 ^ 25 }
    ensures room { (length whole.now < 2 ^ 64) × (length part.now < 2 ^ 64) }
{
    let mut sum = Sum {
        high: false,
        middle: 0,
        low: false,
    };
    let mut place = at;
    let mut left = part.len();
    'part: while left > 0 {
        left -= 1;
        sum = with_digit(sum, part[left], place, unit);
        place += 1;
    }
    left = whole.len();
    'whole: while left > 0 {
        left -= 1;
        sum = with_digit(sum, whole[left], place, unit);
        place += 1;
    }
    sum
}

/// Whether the number is above `LARGEST_BOUND`.
fn is_too_large(sum: Sum) -> bool
    ensures { result ≡ (sum.high || nat_lt (largest_bound * finest) sum.middle || ((sum.middle == largest_bound * finest) && sum.low)) }
{
    const LARGEST: u128 = LARGEST_BOUND as u128 * FINEST as u128;
    sum.high || sum.middle > LARGEST || (sum.middle == LARGEST && sum.low)
}

/// The number with its sign.
fn with_sign(negative: bool, size: u128) -> i128
    requires { size < 10 ^ 25 }
    ensures value { result ≡ with_sign negative size }
    ensures small { nat_abs result < 2 ^ 127 }
{
    let size = size as i128;
    if negative { -size } else { size }
}

/// The number that the digits make, or why it is none.
#[tactic(auto, unfolding(crate::specs::Weights::judged))]
fn judge(negative: bool, sum: Sum) -> Result<Frac, NumFault>
    requires { sum.middle < 10 ^ 25 }
    ensures { result ≡ judged negative sum }
{
    if is_too_large(sum) {
        return Err(NumFault::TooLarge);
    }
    if sum.low {
        return Err(NumFault::TooFine);
    }
    Ok(Frac::make(with_sign(negative, sum.middle), FINEST as i128))
}

/// Whether each byte is a digit.
fn are_digits(bytes: &[u8]) -> bool
    ensures { result ≡ list_all is_digit bytes.now }
{
    bytes.iter().all(|b| *b >= b'0' && *b <= b'9')
}

/// The sign and the size of an exponent, up to a cap.
fn power_at(bytes: &[u8]) -> Option<(bool, u128)>
    ensures value { result ≡ option_map (λ p. (p.0, capped p.1)) (power_at (sign_at bytes.now)) }
    ensures small { IfSome result (λ p. p.1 ≤ 2 ^ 100) }
{
    let (negative, digits) = sign_at(bytes);
    if digits.is_empty() || !are_digits(digits) {
        return None;
    }
    Some((negative, capped_number(digits)))
}

/// The same of the whole rest of a field.
pub fn exponent_at(bytes: &[u8]) -> Option<(bool, u128)>
    ensures value { result ≡ option_map (λ p. (p.0, capped p.1)) (exponent_at bytes.now) }
    ensures small { IfSome result (λ p. p.1 ≤ 2 ^ 100) }
{
    match bytes {
        [] => Some((false, 0)),
        [b'e' | b'E', rest @ ..] => power_at(rest),
        _ => None,
    }
}

/// The number of these digits, a point between the two lists, and this exponent up to its cap.
fn amount(
    negative: bool,
    whole: &[u8],
    part: &[u8],
    below: bool,
    power: u128,
) -> Result<Frac, NumFault>
    requires whole { list_all is_digit whole.now ≡ true }
    requires part { list_all is_digit part.now ≡ true }
    requires power { power ≤ 2 ^ 100 }
    ensures { (p : ℕ) → power ≡ capped p → result ≡ amount (spelt_of negative whole.now part.now (below, p)) }
{
    let scale = part.len() as u128;
    if below {
        judge(negative, weigh(whole, part, 15, scale + power))
    } else {
        judge(negative, weigh(whole, part, power + 15, scale))
    }
}

/// The exact number that a field spells: a multiple of 10^-15, at most 10^9 in size. The errors are `NumFault`'s, `BadNumber` before
/// `TooLarge` before `TooFine`. It takes no memory and goes over the field a fixed number of times, whatever its exponent.
#[tactic(auto, unfolding(crate::specs::Decimals::decimal, crate::specs::Decimals::amount_of))]
pub fn decimal(field: &[u8]) -> Result<Frac, NumFault>
    ensures { result ≡ decimal field.now }
{
    let (negative, rest) = sign_at(field);
    let (whole, rest) = digits_at(rest);
    let (part, rest) = point_at(rest);
    if whole.is_empty() && part.is_empty() {
        return Err(NumFault::BadNumber);
    }
    match exponent_at(rest) {
        Some((below, power)) => amount(negative, whole, part, below, power),
        None => Err(NumFault::BadNumber),
    }
}
