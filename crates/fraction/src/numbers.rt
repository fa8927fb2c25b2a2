//! Whole numbers of size at most 2^127 - 1.

ghost use Rattle.std.specs.Prelude.{◌≡◌, ◌<◌, ◌≤◌, ◌^◌, ◌*◌, ◌/◌, ◌<ℤ◌, pos, nat_abs, int_div, ◌+ℤ◌, ◌*ℤ◌};
ghost use Rattle.fraction.specs.Rational.{floor_div, signed_as};
ghost use Rattle.fraction.specs.Checked.{small_integer, small_natural};

/// The sum of two numbers of 64 bits, which needs no test.
#[inline(always)]
fn narrow_sum(a: i64, b: i64) -> i128
    ensures value { result ≡ a +ℤ b }
    ensures small { nat_abs result < 2 ^ 127 }
{
    i128::from(a) + i128::from(b)
}

/// The sum, unless its size is above 2^127 - 1. Numbers of 64 bits go the short way.
#[inline(always)]
pub fn small_sum(a: i128, b: i128) -> Option<i128>
    ensures { result ≡ small_integer (a +ℤ b) }
{
    match (i64::try_from(a), i64::try_from(b)) {
        (Ok(left), Ok(right)) => Some(narrow_sum(left, right)),
        _ => wide_sum(a, b),
    }
}

/// The sum, unless its size is above 2^127 - 1.
#[inline(always)]
fn wide_sum(a: i128, b: i128) -> Option<i128>
    ensures { result ≡ small_integer (a +ℤ b) }
{
    match a.checked_add(b) {
        Some(sum) if sum != i128::MIN => Some(sum),
        _ => None,
    }
}

/// The product of two numbers of 64 bits, which needs no test.
#[inline(always)]
pub fn narrow_product(a: i64, b: i64) -> i128
    ensures value { result ≡ a *ℤ b }
    ensures small { nat_abs result < 2 ^ 127 }
{
    i128::from(a) * i128::from(b)
}

/// The product, unless its size is above 2^127 - 1.
#[inline(never)]
fn wide_product(a: i128, b: i128) -> Option<i128>
    ensures { result ≡ small_integer (a *ℤ b) }
{
    match a.checked_mul(b) {
        Some(product) if product != i128::MIN => Some(product),
        _ => None,
    }
}

/// As `wide_product`, whose answer is kept in a place of its own, so that the short way needs none in memory.
#[inline(always)]
fn product_apart(a: i128, b: i128) -> Option<i128>
    ensures { result ≡ small_integer (a *ℤ b) }
{
    match wide_product(a, b) {
        Some(product) => Some(product),
        None => None,
    }
}

/// The product, unless its size is above 2^127 - 1. Numbers of 64 bits go the short way.
#[inline(always)]
pub fn small_product(a: i128, b: i128) -> Option<i128>
    ensures { result ≡ small_integer (a *ℤ b) }
{
    match (i64::try_from(a), i64::try_from(b)) {
        (Ok(left), Ok(right)) => Some(narrow_product(left, right)),
        _ => product_apart(a, b),
    }
}

/// The product with a natural number, unless its size is above 2^127 - 1.
#[inline(always)]
pub fn scaled(a: i128, by: u128) -> Option<i128>
    requires { by < 2 ^ 127 }
    ensures { result ≡ small_integer (a *ℤ pos by) }
{
    if by == 1 {
        wide_sum(a, 0)
    } else {
        small_product(a, by as i128)
    }
}

/// The product, unless it is above 2^127 - 1.
#[inline(always)]
pub fn held_product(a: u128, b: u128) -> Option<u128>
    ensures { result ≡ small_natural (a * b) }
{
    match a.checked_mul(b) {
        Some(product) if product < 1 << 127 => Some(product),
        _ => None,
    }
}

/// The quotient of natural numbers, rounded down. Numbers of 64 bits go the short way, and a divisor 1 or the number itself takes none.
#[inline(always)]
pub fn part(n: u128, divisor: u128) -> u128
    requires { 0 < divisor }
    ensures { result ≡ n / divisor }
{
    if divisor == 1 {
        return n;
    }
    if n == divisor {
        return 1;
    }
    match (u64::try_from(n), u64::try_from(divisor)) {
        (Ok(x), Ok(y)) => u128::from(x / y),
        _ => n / divisor,
    }
}

/// The quotient of natural numbers of 64 bits, rounded down.
#[inline(always)]
pub fn short_part(n: u64, divisor: u64) -> u64
    requires { 0 < divisor }
    ensures value { result ≡ n / divisor }
    ensures at_most { result ≤ n }
{
    if divisor == 1 { n } else { n / divisor }
}

/// The quotient of a number of 64 bits, rounded toward zero.
#[inline(always)]
pub fn short_quotient(num: i64, divisor: u64) -> i64
    requires positive { 0 < divisor }
    requires small { divisor < 2 ^ 63 }
    ensures { result ≡ int_div num (pos divisor) }
{
    if divisor == 1 {
        num
    } else {
        num / divisor as i64
    }
}

/// The product of a number of 64 bits with a natural one of 63.
#[inline(always)]
fn short_scaled(a: i64, by: u64) -> i128
    requires { by < 2 ^ 63 }
    ensures value { result ≡ a *ℤ pos by }
    ensures small { nat_abs result < 2 ^ 126 }
{
    i128::from(a) * i128::from(by as i64)
}

/// The sum of two such products.
#[inline(always)]
pub fn short_cross(a: i64, by: u64, c: i64, other_by: u64) -> i128
    requires by_small { by < 2 ^ 63 }
    requires other_small { other_by < 2 ^ 63 }
    ensures value { result ≡ a *ℤ pos by +ℤ c *ℤ pos other_by }
    ensures small { nat_abs result < 2 ^ 127 }
{
    short_scaled(a, by) + short_scaled(c, other_by)
}

/// The product of natural numbers of 63 bits.
#[inline(always)]
pub fn short_product(a: u64, b: u64) -> u128
    requires a_small { a < 2 ^ 63 }
    requires b_small { b < 2 ^ 63 }
    ensures value { result ≡ a * b }
    ensures small { result < 2 ^ 126 }
{
    u128::from(a) * u128::from(b)
}

/// The quotient of numbers of 64 bits, rounded toward zero.
#[inline(always)]
fn narrow_quotient(num: i64, divisor: i64) -> i128
    requires { pos 0 <ℤ divisor }
    ensures { result ≡ int_div num divisor }
{
    i128::from(num / divisor)
}

/// The quotient, rounded toward zero.
#[inline(never)]
fn wide_quotient(num: i128, divisor: u128) -> i128
    requires positive { 0 < divisor }
    requires divisor_small { divisor < 2 ^ 127 }
    requires num_small { nat_abs num < 2 ^ 127 }
    ensures { result ≡ int_div num (pos divisor) }
{
    num / divisor as i128
}

/// The quotient, rounded toward zero. Numbers of 64 bits go the short way, and a divisor 1 takes none.
#[inline(always)]
pub fn quotient(num: i128, divisor: u128) -> i128
    requires positive { 0 < divisor }
    requires divisor_small { divisor < 2 ^ 127 }
    requires num_small { nat_abs num < 2 ^ 127 }
    ensures value { result ≡ int_div num (pos divisor) }
    ensures small { nat_abs result < 2 ^ 127 }
{
    if divisor == 1 {
        return num;
    }
    match (i64::try_from(num), i64::try_from(divisor)) {
        (Ok(x), Ok(y)) => narrow_quotient(x, y),
        _ => wide_quotient(num, divisor),
    }
}

/// The quotient of numbers of 64 bits, rounded down.
#[inline(always)]
fn narrow_floor(num: i64, den: i64) -> i64
    requires { pos 0 <ℤ den }
    ensures { result ≡ floor_div num (nat_abs den) }
{
    num.div_euclid(den)
}

/// The quotient, rounded down, by a division of 128 bits.
#[inline(never)]
fn wide_floor(num: i128, den: u128) -> i128
    requires num_small { nat_abs num < 2 ^ 127 }
    requires den_small { den < 2 ^ 127 }
    requires den_positive { 0 < den }
    ensures value { result ≡ floor_div num den }
    ensures small { nat_abs result < 2 ^ 127 }
{
    num.div_euclid(den as i128)
}

/// The quotient, rounded down. Numbers of 64 bits go the short way, and a divisor 1 takes none.
#[inline]
pub fn floor_quotient(num: i128, den: u128) -> i128
    requires num_small { nat_abs num < 2 ^ 127 }
    requires den_small { den < 2 ^ 127 }
    requires den_positive { 0 < den }
    ensures value { result ≡ floor_div num den }
    ensures small { nat_abs result < 2 ^ 127 }
{
    if den == 1 {
        return num;
    }
    match (i64::try_from(num), i64::try_from(den)) {
        (Ok(x), Ok(y)) => i128::from(narrow_floor(x, y)),
        _ => wide_floor(num, den),
    }
}

/// The size, with the sign of `num`.
pub fn with_sign(num: i128, size: u128) -> i128
    requires { size < 2 ^ 127 }
    ensures value { result ≡ signed_as num size }
    ensures small { nat_abs result < 2 ^ 127 }
{
    let size = size as i128;
    if num < 0 { -size } else { size }
}
