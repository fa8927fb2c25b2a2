// What runs leave for later ones goes on to a linear program with further rows.

ghost use Rattle.std.specs.Prelude.{◌≡◌, ◌≤◌, ◌<◌, ◌++◌, ℕ, ℤ, List, length, nat_abs, slice_index_or, IsTrue, []};
ghost use Rattle.integer_tableau.specs.IntegerProgram.{CanStart};
ghost use Rattle.integer_tableau.specs.Kept.{AreKept, kept_at};
ghost use Rattle.integer_tableau.specs.Numbers.{IsWithin};
ghost use Rattle.integer_tableau.specs.declared.integer_bounds.IntegerBounds.{IntegerBounds};

use crate::dictionary::Dictionaries;
use crate::dictionary_store::DictionaryStore;
use crate::integer_program::IntegerProgram;
use crate::program_row::ProgramRow;
use crate::range::SIZE_LIMIT;
use std::alloc::Global;

/// Whether the first rows are these.
fn begin_with(rows: &[ProgramRow], first: &[ProgramRow]) -> bool
    ensures { IsTrue result → (more : List (List ℤ)) × (rows.now ≡ first.now ++ more) }
{
    if rows.len() < first.len() {
        return false;
    }
    for (index, row) in first.iter().enumerate() {
        if !rows[index].is_same(row) {
            return false;
        }
    }
    true
}

/// Whether both are the same numbers.
fn are_same(own: &[i64], others: &[i64]) -> bool
    ensures { IsTrue result → own.now ≡ others.now }
{
    own == others
}

impl Dictionaries {
    /// No number of a dictionary's rows is greater, and no denominator.
    fn greatest_size(&self) -> u64
        ensures denominators { (p : ℕ) → p < length self.now.all → nat_abs (kept_at self.now.all p).denominator ≤ result }
        ensures rows { (p : ℕ) → p < length self.now.all → (v : ℕ) → v < length (kept_at self.now.all p).rows → IsWithin result (slice_index_or (kept_at self.now.all p).rows v []) }
    {
        let mut size = 0;
        for own in &self.all {
            size = size.max(own.size).max(own.divisor.number().unsigned_abs());
        }
        size
    }

    /// Makes them those of a linear program with so many further rows; false where their numbers are too large for rows of this weight.
    fn add_rows(&mut self, more: usize, weight: u64) -> bool
        ensures { IsTrue result → (ps further : List (List ℤ)) (old : ℕ) (costs : List ℤ) (bounds : List IntegerBounds) → length further ≡ more → AreKept ps old costs self.old
            → CanStart (ps ++ further) weight costs bounds → AreKept (ps ++ further) weight costs self.new }
    {
        if u128::from(weight) * u128::from(self.greatest_size()) >= u128::from(SIZE_LIMIT) {
            return false;
        }
        let Some(variables) = self.variables.checked_add(more) else {
            return false;
        };
        self.variables = variables;
        true
    }
}

/// Takes over what runs left in the other store, which is empty then: the linear program has so many further rows, of this weight. Where numbers
/// are too large for these, the own store stays.
fn take_store(
    alloc: Global,
    own: &mut DictionaryStore,
    other: &mut DictionaryStore,
    more: usize,
    weight: u64,
)
    ensures own { (ps further : List (List ℤ)) (old : ℕ) (costs : List ℤ) (bounds : List IntegerBounds) → length further ≡ more → AreKept ps old costs other.old.kept
        → CanStart (ps ++ further) weight costs bounds → AreKept (ps ++ further) weight costs own.old.kept → AreKept (ps ++ further) weight costs own.new.kept }
    ensures other { (ps : List (List ℤ)) (old : ℕ) (costs : List ℤ) → AreKept ps old costs other.new.kept }
{
    let mut store = std::mem::replace(other, DictionaryStore::new(alloc));
    if store.kept.add_rows(more, weight) {
        *own = store;
    }
}

impl IntegerProgram {
    /// Takes over what runs over boxes left in another program, whose rows are the first of this one's and whose costs are the same: the other
    /// keeps nothing then. Where they aren't, both keep what they had; where numbers would grow too large, this one does.
    ///
    /// What the programs keep from one run to the next changes, and contracts don't see it.
    pub fn take_kept(&mut self, alloc: Global, other: &mut IntegerProgram)
        ensures same { self.new ≡ self.old }
        ensures other { other.new ≡ other.old }
    {
        if !are_same(self.costs.numerators(), other.costs.numerators())
            || !begin_with(&self.rows, &other.rows)
        {
            return;
        }
        let more = self.rows.len() - other.rows.len();
        take_store(alloc, &mut self.store, &mut other.store, more, self.weight);
    }
}
