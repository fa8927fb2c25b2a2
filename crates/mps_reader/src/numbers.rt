//! Numbers of fields, and their faults.

ghost use Rattle.std.specs.Prelude.{◌≡◌, IfOk, IfErr, None, Some, Err};
ghost use Rattle.mps_reader.specs.Faults.{fault_of_number, number_fault, side_number_fault};
ghost use Rattle.mps_reader.specs.Sections.{number};
ghost use Rattle.mps_reader.specs.Tables.{Stops};

use crate::kinds::{Kind, Stop};
use fraction::Frac;
use mps_lines::{NumFault, Value, decimal, value_of};

/// The kind of a number's fault.
pub fn kind_of(fault: NumFault) -> Kind
    ensures { Some result ≡ fault_of_number (Err fault) }
{
    match fault {
        NumFault::BadNumber => Kind::BadNumber,
        NumFault::TooLarge => Kind::TooLarge,
        NumFault::TooFine => Kind::TooFine,
    }
}

/// The number of a field of COLUMNS.
pub fn number_in(field: &[u8]) -> Result<Frac, Stop>
    ensures ok { IfOk result (λ q. (q ≡ number field.now) × (number_fault field.now ≡ None)) }
    ensures err { IfErr result (λ e. Stops e (number_fault field.now)) }
{
    match decimal(field) {
        Ok(number) => Ok(number),
        Err(fault) => Err(Stop::Fault(kind_of(fault))),
    }
}

/// The number of a field of RHS or RANGES.
pub fn side_number(field: &[u8]) -> Result<Frac, Stop>
    ensures value { IfOk result (λ q. q ≡ number field.now) }
    ensures ok { IfOk result (λ q. side_number_fault field.now ≡ None) }
    ensures err { IfErr result (λ e. Stops e (side_number_fault field.now)) }
{
    match value_of(field) {
        Value::Finite(number) => Ok(number),
        Value::Infinite(_) => Err(Stop::Fault(Kind::Infinite)),
        Value::Fault(fault) => Err(Stop::Fault(kind_of(fault))),
    }
}
