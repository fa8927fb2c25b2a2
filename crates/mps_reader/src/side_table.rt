//! The numbers that RHS or RANGES gives to the rows.

ghost use Rattle.std.specs.Prelude.{◌≡◌, ℕ, ◌<◌, OnOk, None, Some, [], get_or, length};
ghost use Rattle.mps_reader.specs.SideTable.{Gives, number_of};

use fraction::{Frac, same};
use std::alloc::{AllocError, Global};
use std::marker::Model;

/// What the section says of a row. A text may have many rows, so this takes four bytes.
#[derive(Clone, Copy)]
enum SideEntry {
    /// It doesn't name the row.
    Missing,
    /// The number 0.
    Zero,
    /// The number at this index among those that are kept.
    At(u16),
}

const _: () = prove!(size_of::<SideEntry>() == 4);

/// A number that isn't 0, with the index of its row.
#[derive(Clone, Copy)]
struct RowNumber {
    row: u32,
    number: Frac,
}

/// The numbers of a section by the indices of their rows, seen as the list of the rows up to the last one that the section names.
///
/// Numbers that are 0 take no room of their own. What is said of a row leads to its number where that one says so by the row's index.
#[derive(Drop)]
pub struct SideTable {
    sides: Vec<SideEntry>,
    numbers: Vec<RowNumber>,
}

impl Model for SideTable {
    ghost use Rattle.std.specs.Prelude.{List, Option};
    ghost use Rattle.std.specs.Coded.{coded_list, coded_option};
    ghost use Rattle.fraction.specs.Rational.{ℚ};
    ghost use Rattle.fraction.specs.Code.{code_ℚ};

    ghost Value = { List (Option ℚ) };

    ghost coded = { coded_list (coded_option code_ℚ) };

    ghost use Rattle.mps_reader.specs.SideTable.{numbers_from};

    ghost view = { λ t. numbers_from t.numbers.items 0 t.sides.items };
}

/// The number of the row at an index, by what the section says of it.
fn number_of(numbers: &[RowNumber], index: usize, side: SideEntry) -> Option<Frac>
    ensures { result ≡ number_of numbers.now index side }
{
    match side {
        SideEntry::Missing => None,
        SideEntry::Zero => Some(Frac::of(0)),
        SideEntry::At(spot) => match numbers.get(spot as usize) {
            Some(own) if own.row as usize == index => Some(own.number),
            _ => Some(Frac::of(0)),
        },
    }
}

/// Makes room for what is said of the row at an index, and says nothing of the rows before it.
fn pad(sides: &mut Vec<SideEntry>, index: u32) -> Result<(), AllocError>
    ensures same { OnOk result ((j : ℕ) → get_or sides.new.items j SideEntry.Missing ≡ get_or sides.old.items j SideEntry.Missing) }
    ensures within { OnOk result (index < length sides.new.items) }
{
    while sides.len() <= index as usize {
        sides.push(SideEntry::Missing)?;
    }
    Ok(())
}

impl SideTable {
    /// No numbers.
    pub fn new(alloc: Global) -> SideTable
        ensures { result ≡ [] }
    {
        SideTable {
            sides: Vec::new(alloc),
            numbers: Vec::new(alloc),
        }
    }

    /// The number of the row at an index, where it has one.
    pub fn number_at(&self, index: usize) -> Option<Frac>
        ensures { result ≡ get_or self.now index None }
    {
        match self.sides.get(index) {
            Some(side) => number_of(&self.numbers, index, *side),
            None => None,
        }
    }

    /// Gives a number to the row at an index, which has none. The one error is want of memory.
    pub fn put(&mut self, index: usize, number: Frac) -> Result<(), AllocError>
        ensures { OnOk result (Gives self.old self.new index number) }
    {
        let (Ok(row), Ok(spot)) = (u32::try_from(index), u16::try_from(self.numbers.len())) else {
            return Err(AllocError);
        };
        pad(&mut self.sides, row)?;
        if same(number, Frac::of(0)) {
            self.sides[index] = SideEntry::Zero;
            return Ok(());
        }
        self.numbers.push(RowNumber { row, number })?;
        self.sides[index] = SideEntry::At(spot);
        Ok(())
    }
}
