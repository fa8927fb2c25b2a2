//! What the lines of BOUNDS say of a column.

ghost use Rattle.std.specs.Prelude.{◌≡◌, ℕ, ◌≤◌, false, true, IfOk, IfErr, None, nat_abs, if◌then◌else◌};
ghost use Rattle.fraction.specs.Rational.{ceil, floor};
ghost use Rattle.mps_reader.specs.BoundLines.{no_limits, with_limits, with_setting};
ghost use Rattle.mps_reader.specs.Faults.{opens, type_fault};
ghost use Rattle.mps_reader.specs.Sections.{has_value};
ghost use Rattle.mps_reader.specs.Tables.{Stops};
ghost use Rattle.problem.specs.Limits.{largest_bound};

use crate::kinds::{BoundType, Kind, Stop};
use crate::numbers::kind_of;
use fraction::Frac;
use mps_lines::{Value, value_of};

/// The bounds of a column by the lines so far: none is no bound. A line of type BV, LI or UI makes it whole; the upper bound is
/// negative where UP or UI set it to a value below 0.
#[derive(Clone, Copy)]
pub struct ColumnBounds {
    pub upper: Option<i64>,
    pub lower: Option<i64>,
    pub is_whole: bool,
    pub is_upper_negative: bool,
    pub has_lower_line: bool,
}

/// The bounds of a column before its first line: the lower one is 0.
pub fn no_limits() -> ColumnBounds
    ensures { result ≡ no_limits }
{
    ColumnBounds {
        upper: None,
        lower: Some(0),
        is_whole: false,
        is_upper_negative: false,
        has_lower_line: false,
    }
}

/// Whether a line of this type has a value that counts.
pub fn has_value(kind: BoundType) -> bool
    ensures { result ≡ has_value kind }
{
    match kind {
        BoundType::Up | BoundType::Lo | BoundType::Fx | BoundType::Li | BoundType::Ui => true,
        BoundType::Fr | BoundType::Mi | BoundType::Pl | BoundType::Bv => false,
    }
}

/// Whether an infinity takes the bound away.
fn opens(kind: BoundType, negative: bool) -> bool
    ensures { result ≡ opens kind negative }
{
    match kind {
        BoundType::Up | BoundType::Ui => !negative,
        BoundType::Lo | BoundType::Li => negative,
        _ => false,
    }
}

/// The limits after a line of this type with an upper and a lower value, which is negative or not.
fn with_setting(
    limits: ColumnBounds,
    kind: BoundType,
    upper: Option<i64>,
    lower: Option<i64>,
    negative: bool,
) -> ColumnBounds
    ensures { result ≡ with_setting kind upper lower negative limits }
{
    let mut new = limits;
    match kind {
        BoundType::Up => {
            new.upper = upper;
            new.is_upper_negative = negative;
        }
        BoundType::Ui => {
            new.upper = upper;
            new.is_upper_negative = negative;
            new.is_whole = true;
        }
        BoundType::Lo => {
            new.lower = lower;
            new.has_lower_line = true;
        }
        BoundType::Li => {
            new.lower = lower;
            new.has_lower_line = true;
            new.is_whole = true;
        }
        BoundType::Mi => {
            new.lower = None;
            new.has_lower_line = true;
        }
        BoundType::Pl => {
            new.upper = None;
            new.is_upper_negative = false;
        }
        BoundType::Fx => new = with_both(limits, upper, lower),
        BoundType::Fr => new = with_both(limits, None, None),
        BoundType::Bv => {
            new = with_both(limits, Some(1), Some(0));
            new.is_whole = true;
        }
    }
    new
}

/// The limits after a line that sets both bounds.
fn with_both(limits: ColumnBounds, upper: Option<i64>, lower: Option<i64>) -> ColumnBounds
    ensures { result ≡ record { upper = upper; lower = lower; is_whole = limits.is_whole; is_upper_negative = false; has_lower_line = true } }
{
    ColumnBounds {
        upper,
        lower,
        is_whole: limits.is_whole,
        is_upper_negative: false,
        has_lower_line: true,
    }
}

/// The greatest whole number that is at most this one.
fn floor_of(number: Frac) -> i64
    requires { nat_abs (floor number) ≤ largest_bound }
    ensures { result ≡ floor number }
{
    number.floor() as i64
}

/// The least whole number that is at least this one.
fn ceil_of(number: Frac) -> i64
    requires { nat_abs (ceil number) ≤ largest_bound }
    ensures { result ≡ ceil number }
{
    number.ceil() as i64
}

/// The limits after a line of this type, whose value is that of a field, or why the value is refused.
pub fn with_line(limits: ColumnBounds, kind: BoundType, field: &[u8]) -> Result<ColumnBounds, Stop>
    ensures ok { IfOk result (λ new. (new ≡ with_limits kind field.now limits) × (type_fault kind field.now ≡ None)) }
    ensures err { IfErr result (λ stop. Stops stop (type_fault kind field.now)) }
{
    if !has_value(kind) {
        return Ok(with_setting(limits, kind, None, None, false));
    }
    match value_of(field) {
        Value::Finite(number) => Ok(with_setting(
            limits,
            kind,
            Some(floor_of(number)),
            Some(ceil_of(number)),
            number.numer() < 0,
        )),
        Value::Infinite(negative) => {
            if opens(kind, negative) {
                Ok(with_setting(limits, kind, None, None, false))
            } else {
                Err(Stop::Fault(Kind::Infinite))
            }
        }
        Value::Fault(fault) => Err(Stop::Fault(kind_of(fault))),
    }
}
