// Dictionaries: what a basis fixes of a tableau.

ghost use Rattle.std.specs.Prelude.{◌≡◌, ◌<◌, ◌+◌, ◌*◌, ◌-◌, ◌^◌, ◌++◌, ℕ, ℤ, [], List, length, All, IfOk, OnOk};
ghost use Rattle.std.specs.List.{range_with_len};
ghost use Rattle.integer_tableau.specs.Arena.{rows_by};
ghost use Rattle.integer_tableau.specs.IntegerProgram.{CanStart};
ghost use Rattle.integer_tableau.specs.Kept.{AreKept, IsNewStart, kept_at};
ghost use Rattle.integer_tableau.specs.Numbers.{IsWithin};
ghost use Rattle.integer_tableau.specs.Range.{size_limit};
ghost use Rattle.integer_tableau.specs.declared.integer_bounds.IntegerBounds.{IntegerBounds};

use crate::divisor::Divisor;
use crate::exits::{Edge, Exit};
use crate::integer_row::IntegerRow;
use std::alloc::{AllocError, Global};
use std::marker::Model;

/// The rows and the reduced costs of a basis over one denominator, whatever bounds and values are, so that the tableaus of many boxes share it:
/// where its numbers are in the lists of `Dictionaries`. It never changes once it is made, but for what is noted of it.
#[derive(Clone, Copy)]
pub(crate) struct Dictionary {
    /// Where its numerators begin: those of the basic columns' rows, one row behind another, and behind them the reduced costs.
    pub(crate) numerators: usize,
    /// Where the variables of its columns begin.
    pub(crate) nonbasic: usize,
    /// Where its basic columns begin.
    pub(crate) basic_columns: usize,
    /// How many columns are basic.
    pub(crate) count: usize,
    /// No numerator is greater.
    pub(crate) size: u64,
    /// The denominator.
    pub(crate) divisor: Divisor,
    /// The words of its basis, by which it is found.
    pub(crate) hash: u64,
    /// Where its exits begin: what is noted of variables that leave, each once.
    pub(crate) first_exit: usize,
    /// How many they are.
    pub(crate) exits: usize,
}

/// Dictionaries of one linear program, in the order in which they were made. The first is that at the start. They share lists, so that none is an
/// allocation of its own (docs/DECISIONS.md, entry 93).
#[derive(Drop)]
pub(crate) struct Dictionaries {
    /// How many variables there are.
    pub(crate) variables: usize,
    /// How many columns there are.
    pub(crate) width: usize,
    pub(crate) all: Vec<Dictionary>,
    pub(crate) numerators: Vec<i64>,
    /// By rising number for each.
    pub(crate) basic_columns: Vec<usize>,
    /// The variables of the columns, for each dictionary as many as there are columns.
    pub(crate) nonbasic: Vec<usize>,
    pub(crate) exits: Vec<Exit>,
    pub(crate) edges: Vec<Edge>,
}

impl Model for Dictionaries {
    ghost use Rattle.std.specs.Prelude.{◌≡◌, ◌≤◌, map, All};
    ghost use Rattle.integer_tableau.specs.Kept.{KeptDictionaries, kept_in, IsInLists};

    ghost Value = { KeptDictionaries };

    ghost view = { λ d. record { variables = d.variables; width = d.width; all = map (kept_in d.variables d.width d.numerators.items d.basic_columns.items d.nonbasic.items) d.all.items; exits = d.exits.items; edges = d.edges.items } };

    ghost invariant = { λ d. All (IsInLists d.width d.numerators.items d.basic_columns.items d.nonbasic.items) d.all.items };
}

/// Puts the numbers below this one behind all. The one error is want of memory.
fn push_numbers(list: &mut Vec<usize>, count: usize) -> Result<(), AllocError>
    ensures { OnOk result (list.new.items ≡ list.old.items ++ range_with_len 0 count) }
{
    for number in 0..count {
        list.push(number)?;
    }
    Ok(())
}

impl Dictionaries {
    /// No dictionaries.
    pub(crate) fn new(alloc: Global) -> Dictionaries
        ensures all { result.all ≡ [] }
        ensures exits { result.exits ≡ [] }
        ensures edges { result.edges ≡ [] }
    {
        Dictionaries {
            variables: 0,
            width: 0,
            all: Vec::new(alloc),
            numerators: Vec::new(alloc),
            basic_columns: Vec::new(alloc),
            nonbasic: Vec::new(alloc),
            exits: Vec::new(alloc),
            edges: Vec::new(alloc),
        }
    }

    /// Drops all.
    pub(crate) fn clear(&mut self)
        ensures all { self.new.all ≡ [] }
        ensures exits { self.new.exits ≡ [] }
        ensures edges { self.new.edges ≡ [] }
    {
        self.all.clear();
        self.numerators.clear();
        self.basic_columns.clear();
        self.nonbasic.clear();
        self.exits.clear();
        self.edges.clear();
    }

    /// Makes room for so many numerators more. The one error is want of memory.
    pub(crate) fn reserve(&mut self, count: usize) -> Result<(), AllocError>
        ensures { self.new ≡ self.old }
    {
        self.numerators.reserve(count)
    }

    /// How many there are.
    #[inline(always)]
    pub(crate) fn count(&self) -> usize
        ensures { result ≡ length self.now.all }
    {
        self.all.len()
    }

    /// About how many words they take.
    #[inline(always)]
    pub(crate) fn words(&self) -> usize {
        self.numerators
            .len()
            .saturating_add(self.nonbasic.len())
            .saturating_add(self.all.len().saturating_mul(20))
            .saturating_add(self.edges.len().saturating_mul(6))
            .saturating_add(self.exits.len().saturating_mul(4))
    }

    /// The words of the basis of the dictionary at a place.
    #[inline(always)]
    pub(crate) fn hash(&self, place: usize) -> u64
        requires { place < length self.now.all }
    {
        self.all[place].hash
    }

    /// The denominator of the dictionary at a place.
    #[inline(always)]
    pub(crate) fn divisor(&self, place: usize) -> Divisor
        requires { place < length self.now.all }
        ensures { result.number ≡ (kept_at self.now.all place).denominator }
    {
        self.all[place].divisor
    }

    /// Its basic columns.
    #[inline(always)]
    pub(crate) fn basic_columns(&self, place: usize) -> &[usize]
        requires { place < length self.now.all }
        ensures { result.now ≡ (kept_at self.now.all place).basic_columns }
    {
        let own = &self.all[place];
        &self.basic_columns[own.basic_columns..own.basic_columns + own.count]
    }

    /// The variables of its columns. Each dictionary has a position for each variable.
    #[inline(always)]
    pub(crate) fn nonbasic(&self, place: usize) -> &[usize]
        requires { place < length self.now.all }
        ensures value { result.now ≡ (kept_at self.now.all place).nonbasic }
        ensures width { length result.now ≡ self.now.width }
        ensures positions { (p : ℕ) → p < length self.now.all → length (kept_at self.now.all p).positions ≡ self.now.variables }
    {
        let from = self.all[place].nonbasic;
        &self.nonbasic[from..from + self.width]
    }

    /// The numerators of its rows, those of the basic columns one behind another.
    #[inline(always)]
    pub(crate) fn rows(&self, place: usize) -> &[i64]
        requires { place < length self.now.all }
        ensures rows { (kept_at self.now.all place).rows ≡ rows_by self.now.width (kept_at self.now.all place).basic_columns result.now }
        ensures many { length result.now ≡ length (kept_at self.now.all place).basic_columns * self.now.width }
    {
        let own = &self.all[place];
        &self.numerators[own.numerators..own.numerators + own.count * self.width]
    }

    /// Its reduced costs.
    #[inline(always)]
    pub(crate) fn reduced_costs(&self, place: usize) -> &[i64]
        requires { place < length self.now.all }
        ensures value { result.now ≡ (kept_at self.now.all place).reduced_costs }
        ensures width { length result.now ≡ self.now.width }
    {
        let own = &self.all[place];
        let from = own.numerators + own.count * self.width;
        &self.numerators[from..from + self.width]
    }

    /// Puts the dictionary at the start in, as the first, for so many rows of the linear program. The one error is want of memory.
    pub(crate) fn push_start(&mut self, rows: usize, costs: &IntegerRow) -> Result<(), AllocError>
        requires empty { self.old.all ≡ [] }
        requires room { length costs.now + rows < 2 ^ 64 }
        requires small { IsWithin (size_limit - 1) costs.now }
        ensures count { OnOk result (length self.new.all ≡ 1) }
        ensures exits { self.new.exits ≡ self.old.exits }
        ensures edges { self.new.edges ≡ self.old.edges }
        ensures start { (ps : List (List ℤ)) → length ps ≡ rows → All (IsNewStart ps costs.now) self.new.all }
    {
        self.variables = costs.width() + rows;
        self.width = costs.width();
        let numerators = self.numerators.len();
        self.numerators.extend_from_slice(costs.numerators())?;
        let nonbasic = self.nonbasic.len();
        push_numbers(&mut self.nonbasic, self.width)?;
        self.all.push(Dictionary {
            numerators,
            nonbasic,
            basic_columns: 0,
            count: 0,
            size: costs.bound(),
            divisor: Divisor::make(1),
            hash: 0,
            first_exit: 0,
            exits: 0,
        })?;
        Ok(())
    }

    /// The dictionary at the start alone, of a linear program of so many rows. The one error is want of memory.
    pub(crate) fn at_start(
        alloc: Global,
        rows: usize,
        costs: &IntegerRow,
    ) -> Result<Dictionaries, AllocError>
        requires room { length costs.now + rows < 2 ^ 64 }
        requires program { (ps : List (List ℤ)) × (weight : ℕ) × (bounds : List IntegerBounds) × (length ps ≡ rows) × CanStart ps weight costs.now bounds }
        ensures some { IfOk result (λ d. 0 < length d.all) }
        ensures kept { IfOk result (λ d. (ps : List (List ℤ)) (weight : ℕ) (bounds : List IntegerBounds) → length ps ≡ rows → CanStart ps weight costs.now bounds → AreKept ps weight costs.now d) }
    {
        let mut dictionaries = Dictionaries::new(alloc);
        dictionaries.push_start(rows, costs)?;
        Ok(dictionaries)
    }
}
