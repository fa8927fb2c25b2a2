// The rows of a linear program, as tableaus read them.

ghost use Rattle.std.specs.Prelude.{◌≡◌, ℕ, ◌<◌, ◌≤◌, ◌-◌, nat_abs, pos, length, slice_index_or, IfSome, IsTrue};
ghost use Rattle.integer_tableau.specs.Numbers.{IsWithin, total_size};
ghost use Rattle.integer_tableau.specs.Entries.{spread, RiseWithin, AreEntries, entry_size};
ghost use Rattle.integer_tableau.specs.Range.{size_limit};

use crate::range::SIZE_LIMIT;
use std::marker::Model;

/// A coefficient of a row that isn't 0, with its place.
#[derive(Clone, Copy, PartialEq)]
pub(crate) struct ProgramEntry {
    /// The column.
    pub(crate) place: usize,
    /// The coefficient.
    pub(crate) number: i64,
}

/// The coefficients of a row, seen as the list of them.
///
/// The row keeps those alone that aren't 0, by rising place: few are, and each loop over a row goes over these.
#[derive(Drop)]
pub(crate) struct ProgramRow {
    width: usize,
    entries: Vec<ProgramEntry>,
    weight: Option<u64>,
}

impl Model for ProgramRow {
    ghost use Rattle.std.specs.Prelude.{◌≡◌, List, ℤ, IfSome};
    ghost use Rattle.std.specs.Coded.{coded_list, coded_ℤ};
    ghost use Rattle.integer_tableau.specs.Entries.{spread, RiseWithin, entry_size};

    ghost Value = { List ℤ };

    ghost coded = { coded_list coded_ℤ };

    ghost view = { λ r. spread 0 r.width r.entries.items };

    ghost invariant = { λ r. RiseWithin 0 r.width r.entries.items × IfSome r.weight (λ t. t ≡ entry_size r.entries.items) };
}

/// The sum of the sizes, if it has 64 bits.
fn total_size(entries: &[ProgramEntry]) -> Option<u64>
    ensures { IfSome result (λ t. t ≡ entry_size entries.now) }
{
    let mut total = 0u64;
    for entry in entries {
        total = total.checked_add(entry.number.unsigned_abs())?;
    }
    Some(total)
}

/// The greatest size.
fn greatest_size(entries: &[ProgramEntry]) -> u64
    ensures { (i : ℕ) → i < length entries.now → nat_abs (slice_index_or entries.now i (record { place = 0; number = pos 0 })).number ≤ result }
{
    let mut size = 0;
    for entry in entries {
        size = size.max(entry.number.unsigned_abs());
    }
    size
}

impl ProgramRow {
    /// The row of so many coefficients, those of these entries, and 0 at the other places.
    pub(crate) fn make(width: usize, entries: Vec<ProgramEntry>) -> ProgramRow
        requires { RiseWithin 0 width entries.items }
        ensures { result ≡ spread 0 width entries.items }
    {
        let weight = total_size(&entries);
        ProgramRow {
            width,
            entries,
            weight,
        }
    }

    /// The coefficients that aren't 0, with their places.
    #[inline(always)]
    pub(crate) fn entries(&self) -> &[ProgramEntry]
        ensures { AreEntries self.now result.now }
    {
        &self.entries
    }

    /// The sum of the coefficients' sizes, if it has 64 bits.
    #[inline(always)]
    pub(crate) fn weight(&self) -> Option<u64>
        ensures { IfSome result (λ t. t ≡ total_size self.now) }
    {
        self.weight
    }

    /// Whether another row has the same coefficients, each at the same place.
    pub(crate) fn is_same(&self, other: &ProgramRow) -> bool
        ensures { IsTrue result → self.now ≡ other.now }
    {
        self.width == other.width && self.entries == other.entries
    }

    /// Whether each coefficient is below `SIZE_LIMIT` in size.
    pub(crate) fn is_within(&self) -> bool
        ensures { IsTrue result → IsWithin (size_limit - 1) self.now }
    {
        greatest_size(self.entries()) < SIZE_LIMIT
    }
}
