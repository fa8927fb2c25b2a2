// Points whose numbers need not be whole.
ghost use Rattle.std.specs.Prelude.{◌≡◌, ◌<◌, ◌↔◌, ◌++◌, ◌∷◌, [], IsTrue, IfOk, OnOk, OnErr, IfSome, Some, length, slice_get};
ghost use Rattle.node_events.specs.Points.{numbers_of};

use fraction::{Frac, NarrowFrac};
use std::alloc::{AllocError, Global};
use std::marker::Model;

/// One fraction per column, seen as a list of rational numbers.
///
/// The history of a search keeps a point for nearly every split, and nearly all numbers fit into 64 bits: such a point takes 16 bytes a column, and
/// stands behind a pointer, so that an event stays small (docs/DECISIONS.md, entry 41).
pub struct RationalPoint {
    numbers: Box<Numbers>,
}

/// By hand (docs/DECISIONS.md, entry 98).
impl Drop for RationalPoint {
    fn drop(self) {
        let RationalPoint { numbers: _ } = self;
    }
}

const _: () = prove!(size_of::<RationalPoint>() == 8);

/// How the numbers are kept, column 0 first.
#[derive(Drop)]
enum Numbers {
    Narrow(Vec<NarrowFrac>),
    Wide(Vec<Frac>),
}

const _: () = prove!(size_of::<NarrowFrac>() == 16);

impl Model for RationalPoint {
    ghost use Rattle.std.specs.Prelude.{List};
    ghost use Rattle.std.specs.Coded.{coded_list};
    ghost use Rattle.fraction.specs.Rational.{ℚ};
    ghost use Rattle.fraction.specs.Code.{code_ℚ};
    ghost use Rattle.node_events.specs.Points.{numbers_of};

    ghost Value = { List ℚ };

    ghost coded = { coded_list code_ℚ };

    ghost view = { λ p. numbers_of p.numbers.value };
}

/// The same numbers in 64 bits, if each of them fits. The one error is want of memory.
fn narrowed(alloc: Global, numbers: &[Frac]) -> Result<Option<Vec<NarrowFrac>>, AllocError>
    ensures { IfOk result (λ o. IfSome o (λ v. v.items ≡ numbers.now)) }
{
    let mut narrow = Vec::with_capacity(alloc, numbers.len())?;
    for number in numbers {
        let Some(number) = number.narrow() else {
            return Ok(None);
        };
        narrow.push(number)?;
    }
    Ok(Some(narrow))
}

/// Numbers of 64 bits as fractions, and one more. The one error is want of memory.
fn widened(alloc: Global, numbers: &[NarrowFrac], number: Frac) -> Result<Vec<Frac>, AllocError>
    ensures { IfOk result (λ v. v.items ≡ numbers.now ++ number ∷ []) }
{
    let mut wide = Vec::with_capacity(alloc, numbers.len())?;
    for narrow in numbers {
        wide.push(narrow.wide())?;
    }
    wide.push(number)?;
    Ok(wide)
}

impl Numbers {
    /// Puts one more number behind the others: in 64 bits, as long as each fits. The one error is want of memory, after which the numbers are as before.
    fn push(&mut self, alloc: Global, number: Frac) -> Result<(), AllocError>
        ensures ok { OnOk result (numbers_of self.new ≡ numbers_of self.old ++ number ∷ []) }
        ensures err { OnErr result (numbers_of self.new ≡ numbers_of self.old) }
    {
        match self {
            Numbers::Wide(numbers) => Ok(numbers.push(number)?),
            Numbers::Narrow(numbers) => match number.narrow() {
                Some(narrow) => Ok(numbers.push(narrow)?),
                None => {
                    *self = Numbers::Wide(widened(alloc, numbers, number)?);
                    Ok(())
                }
            },
        }
    }
}

impl RationalPoint {
    /// The point of these numbers, column 0 first. The one error is want of memory.
    pub fn make(alloc: Global, numbers: Vec<Frac>) -> Result<RationalPoint, AllocError>
        ensures { IfOk result (λ p. p ≡ numbers.items) }
    {
        let numbers = match narrowed(alloc, &numbers)? {
            Some(narrow) => Numbers::Narrow(narrow),
            None => Numbers::Wide(numbers),
        };
        Ok(RationalPoint {
            numbers: Box::new(alloc, numbers)?,
        })
    }

    /// The point of no column, with room for so many. The one error is want of memory.
    pub fn with_capacity(alloc: Global, room: usize) -> Result<RationalPoint, AllocError>
        ensures { IfOk result (λ p. p ≡ []) }
    {
        let numbers = Numbers::Narrow(Vec::with_capacity(alloc, room)?);
        Ok(RationalPoint {
            numbers: Box::new(alloc, numbers)?,
        })
    }

    /// Puts the number of one more column behind the others. The one error is want of memory, after which the point is as before.
    pub fn push(&mut self, alloc: Global, number: Frac) -> Result<(), AllocError>
        ensures ok { OnOk result (self.new ≡ self.old ++ number ∷ []) }
        ensures err { OnErr result (self.new ≡ self.old) }
    {
        self.numbers.push(alloc, number)
    }

    /// How many columns it has.
    pub fn len(&self) -> usize
        ensures { result ≡ length self.now }
    {
        match &*self.numbers {
            Numbers::Narrow(numbers) => numbers.len(),
            Numbers::Wide(numbers) => numbers.len(),
        }
    }

    /// Whether it has no column.
    pub fn is_empty(&self) -> bool
        ensures { IsTrue result ↔ (length self.now ≡ 0) }
    {
        self.len() == 0
    }

    /// The number in a column.
    pub fn get(&self, column: usize) -> Frac
        requires { column < length self.now }
        ensures { slice_get self.now column ≡ Some result }
    {
        match &*self.numbers {
            Numbers::Narrow(numbers) => numbers[column].wide(),
            Numbers::Wide(numbers) => numbers[column],
        }
    }

    /// An equal point. The one error is want of memory.
    pub fn copy(&self, alloc: Global) -> Result<RationalPoint, AllocError>
        ensures { IfOk result (λ p. p ≡ self.now) }
    {
        let numbers = match &*self.numbers {
            Numbers::Narrow(numbers) => Numbers::Narrow(numbers.to_vec(alloc)?),
            Numbers::Wide(numbers) => Numbers::Wide(numbers.to_vec(alloc)?),
        };
        Ok(RationalPoint {
            numbers: Box::new(alloc, numbers)?,
        })
    }
}
