// Entries by rising variable.

ghost use Rattle.std.specs.Prelude.{◌≡◌, ◌<◌, ◌≤◌, ◌^◌, ◌++◌, ◌∷◌, [], pos, negsuc, nat_abs, take, drop, length, List, All, IfOk, OnOk, MatchBool, MatchOption, Some, None, Option, nat_lt, if◌then◌else◌};
ghost use Rattle.std.specs.Option.{option_map, option_and_then};
ghost use Rattle.fraction.specs.Checked.{mul_checked};
ghost use Rattle.tableau.specs.Elimination.{add_multiple};
ghost use Rattle.problem.specs.Linear.{Terms};
ghost use Rattle.problem.specs.Rising.{AreRising};
ghost use Rattle.tableau.specs.Sparse.{with_entry, nonzeros, HasFraction, without, kept_below};
ghost use Rattle.tableau.specs.SparseSteps.{Continues, ContinuesAfter, entry_then, products_below, begins_with, met, merged, entry_quotients, IsPosition};

use crate::entry::Entry;
use crate::multiple::{add_multiple, negative_quotient};
use fraction::Frac;
use problem::Term;
use std::alloc::{AllocError, Global};
use std::marker::Model;

/// Variables with their coefficients, seen as a list of pairs.
#[derive(Drop)]
pub(crate) struct Entries {
    items: Vec<Entry>,
}

impl Model for Entries {
    ghost use Rattle.std.specs.Prelude.{List, ℕ};
    ghost use Rattle.std.specs.Coded.{coded_list, coded×, coded_ℕ};
    ghost use Rattle.fraction.specs.Rational.{ℚ};
    ghost use Rattle.fraction.specs.Code.{code_ℚ};

    ghost Value = { List (ℕ × ℚ) };

    ghost coded = { coded_list (coded× coded_ℕ code_ℚ) };

    ghost view = { λ e. e.items.items };
}

/// How many entries, which rise, are of variables before this one.
fn position(entries: &[Entry], variable: usize) -> usize
    requires { AreRising entries.now }
    ensures { IsPosition variable entries.now result }
{
    let mut low = 0;
    let mut high = entries.len();
    while low < high {
        let middle = low + (high - low) / 2;
        if entries[middle].index() < variable {
            low = middle + 1;
        } else {
            high = middle;
        }
    }
    low
}

/// So many first entries.
pub(crate) fn front(entries: &[Entry], count: usize) -> &[Entry]
    requires { count ≤ length entries.now }
    ensures { result.now ≡ take count entries.now }
{
    &entries[..count]
}

/// The entries from one on.
pub(crate) fn rest(entries: &[Entry], first: usize) -> &[Entry]
    requires { first ≤ length entries.now }
    ensures { result.now ≡ drop first entries.now }
{
    &entries[first..]
}

/// Whether there is a first entry, and it is of this variable.
fn begins_with(entries: &[Entry], variable: u32) -> bool
    ensures { result ≡ begins_with entries.now variable }
{
    !entries.is_empty() && entries[0].variable() == variable
}

impl Entries {
    /// No entries.
    pub(crate) fn new(alloc: Global) -> Entries
        ensures { result ≡ [] }
    {
        Entries {
            items: Vec::new(alloc),
        }
    }

    /// Takes all entries out. The room for them stays.
    pub(crate) fn clear(&mut self)
        ensures { self.new ≡ [] }
    {
        self.items.clear();
    }

    /// The entries.
    pub(crate) fn as_slice(&self) -> &[Entry]
        ensures { result.now ≡ self.now }
    {
        self.items.as_slice()
    }

    /// How many entries, which rise, are of variables before this one.
    pub(crate) fn position(&self, variable: usize) -> usize
        requires { AreRising self.now }
        ensures { IsPosition variable self.now result }
    {
        position(&self.items, variable)
    }

    /// Puts an entry behind the others, unless its coefficient is 0. The one error is want of memory.
    pub(crate) fn push_nonzero(
        &mut self,
        variable: u32,
        coefficient: Frac,
    ) -> Result<(), AllocError>
        ensures entries { OnOk result ((others : Terms) → self.new ++ others ≡ self.old ++ with_entry variable coefficient others) }
        ensures fractions { All HasFraction self.old → OnOk result (All HasFraction self.new) }
    {
        coefficient.limits_hold();
        if coefficient.numer() != 0 {
            self.items.push(Entry::make(variable, coefficient))?;
        }
        Ok(())
    }

    /// Puts a term behind the entries, unless its column isn't below the width, or its coefficient is 0. The one error is want of memory.
    fn push_below(&mut self, width: usize, column: u32, coefficient: Frac) -> Result<(), AllocError>
        ensures entries { OnOk result ((others : Terms) → self.new ++ others ≡ self.old ++ (if nat_lt column width then with_entry column coefficient others else others)) }
        ensures fractions { All HasFraction self.old → OnOk result (All HasFraction self.new) }
    {
        if (column as usize) < width {
            self.push_nonzero(column, coefficient)
        } else {
            Ok(())
        }
    }

    /// Puts the coefficients of a whole row behind the others, but those that are 0. The one error is want of memory.
    pub(crate) fn push_nonzeros(&mut self, coefficients: &[Frac]) -> Result<(), AllocError>
        requires { length coefficients.now < 2 ^ 32 }
        ensures entries { OnOk result (self.new ≡ self.old ++ nonzeros 0 coefficients.now) }
        ensures fractions { All HasFraction self.old → OnOk result (All HasFraction self.new) }
    {
        for (variable, coefficient) in coefficients.iter().enumerate() {
            self.push_nonzero(variable as u32, *coefficient)?;
        }
        Ok(())
    }

    /// Puts the terms of columns below the width behind the others, but those whose coefficient is 0. The one error is want of memory.
    pub(crate) fn push_terms(&mut self, width: usize, terms: &[Term]) -> Result<(), AllocError>
        ensures entries { OnOk result (self.new ≡ self.old ++ kept_below width terms.now) }
        ensures fractions { All HasFraction self.old → OnOk result (All HasFraction self.new) }
    {
        self.items.reserve(terms.len())?;
        for term in terms {
            let (column, coefficient) = term.pair();
            self.push_below(width, column, coefficient)?;
        }
        Ok(())
    }

    /// Puts `factor` times an entry behind the others, unless the product is 0; false exactly where it is cramped. The one error is want
    /// of memory.
    fn push_product(&mut self, factor: Frac, entry: &Entry) -> Result<bool, AllocError>
        ensures entries { let p = mul_checked factor entry.now.1 in IfOk result (λ b. MatchBool b ((rest : Option Terms) → Continues self.old self.new (entry_then entry.now.0 p rest) rest) (p ≡ None)) }
        ensures fractions { All HasFraction self.old → OnOk result (All HasFraction self.new) }
    {
        match factor.mul(entry.coefficient()) {
            Some(product) => {
                self.push_nonzero(entry.variable(), product)?;
                Ok(true)
            }
            None => Ok(false),
        }
    }

    /// Puts `factor` times the entries of variables before the limit behind the others, and says how many they are; none exactly where a
    /// product is cramped. The one error is want of memory.
    fn push_products(
        &mut self,
        factor: Frac,
        source: &[Entry],
        limit: usize,
    ) -> Result<Option<usize>, AllocError>
        ensures entries { IfOk result (λ r. (next : Terms → Option Terms) → ContinuesAfter r self.old self.new (products_below factor limit next source.now) next source.now) }
        ensures there { IfOk result (λ r. MatchOption r (Unit {0}) (λ n. n ≤ length source.now)) }
        ensures fractions { All HasFraction self.old → OnOk result (All HasFraction self.new) }
    {
        for (i, entry) in source.iter().enumerate() {
            if entry.index() >= limit {
                return Ok(Some(i));
            }
            if !self.push_product(factor, entry)? {
                return Ok(None);
            }
        }
        Ok(Some(source.len()))
    }

    /// Puts an equal entry behind the others. The one error is want of memory.
    fn push_copy(&mut self, entry: &Entry) -> Result<(), AllocError>
        ensures entries { OnOk result (self.new ≡ self.old ++ entry.now ∷ []) }
        ensures fractions { All HasFraction self.old → OnOk result (All HasFraction self.new) }
    {
        let coefficient = entry.coefficient();
        coefficient.limits_hold();
        self.items.push(Entry::make(entry.variable(), coefficient))?;
        Ok(())
    }

    /// Puts equal entries behind the others. The one error is want of memory.
    fn push_copies(&mut self, entries: &[Entry]) -> Result<(), AllocError>
        ensures { OnOk result (self.new ≡ self.old ++ entries.now) }
    {
        for entry in entries {
            self.push_copy(entry)?;
        }
        Ok(())
    }

    /// Takes all entries out, and makes room for so many. Room for more than four times as many is given back first, so that lists that
    /// were long once don't keep it for good. The one error is want of memory.
    fn clear_for(&mut self, count: usize) -> Result<(), AllocError>
        ensures { self.new ≡ [] }
    {
        self.items.clear();
        if count < self.items.capacity() / 4 {
            self.items.shrink_to_fit();
        }
        self.items.reserve_exact(count)
    }

    /// Makes these entries equal to other ones, in room that fits them. The one error is want of memory.
    pub(crate) fn copy_from(&mut self, other: &Entries) -> Result<(), AllocError>
        ensures { OnOk result (self.new ≡ other.now) }
    {
        self.clear_for(other.items.len())?;
        self.push_copies(other.as_slice())
    }

    /// Puts an entry with `factor` times another one of the same variable behind the others, unless the sum is 0; false exactly where it is
    /// cramped. The one error is want of memory.
    fn push_sum(&mut self, factor: Frac, entry: &Entry, other: &Entry) -> Result<bool, AllocError>
        ensures entries { let v = add_multiple factor entry.now.1 other.now.1 in IfOk result (λ b. MatchBool b ((rest : Option Terms) → Continues self.old self.new (entry_then entry.now.0 v rest) rest) (v ≡ None)) }
        ensures fractions { All HasFraction self.old → OnOk result (All HasFraction self.new) }
    {
        match add_multiple(factor, entry.coefficient(), other.coefficient()) {
            Some(sum) => {
                self.push_nonzero(entry.variable(), sum)?;
                Ok(true)
            }
            None => Ok(false),
        }
    }

    /// Puts an entry behind the others, with `factor` times the source's first one where this is of the same variable, and says how many of
    /// the source's it took; none exactly where the sum is cramped. The one error is want of memory.
    fn push_met(
        &mut self,
        factor: Frac,
        entry: &Entry,
        source: &[Entry],
    ) -> Result<Option<usize>, AllocError>
        ensures entries { IfOk result (λ r. (next : Terms → Option Terms) → ContinuesAfter r self.old self.new (met factor entry.now next source.now) next source.now) }
        ensures there { IfOk result (λ r. MatchOption r (Unit {0}) (λ n. n ≤ length source.now)) }
        ensures fractions { All HasFraction self.old → OnOk result (All HasFraction self.new) }
    {
        if !begins_with(source, entry.variable()) {
            self.push_copy(entry)?;
            return Ok(Some(0));
        }
        if self.push_sum(factor, entry, &source[0])? {
            Ok(Some(1))
        } else {
            Ok(None)
        }
    }

    /// The same, after `factor` times the source's entries of earlier variables.
    fn push_entry(
        &mut self,
        factor: Frac,
        entry: &Entry,
        source: &[Entry],
    ) -> Result<Option<usize>, AllocError>
        ensures entries { IfOk result (λ r. (next : Terms → Option Terms) → let m = products_below factor entry.now.0 (met factor entry.now next) source.now in ContinuesAfter r self.old self.new m next source.now) }
        ensures there { IfOk result (λ r. MatchOption r (Unit {0}) (λ n. n ≤ length source.now)) }
        ensures fractions { All HasFraction self.old → OnOk result (All HasFraction self.new) }
    {
        let Some(earlier) = self.push_products(factor, source, entry.index())? else {
            return Ok(None);
        };
        match self.push_met(factor, entry, rest(source, earlier))? {
            Some(taken) => Ok(Some(earlier + taken)),
            None => Ok(None),
        }
    }

    /// Puts the entries of a row of this width but that of one variable, with `factor` times those of the source, behind the others; false
    /// exactly where a product or a sum is cramped. The one error is want of memory.
    pub(crate) fn push_merged(
        &mut self,
        width: usize,
        row: &[Entry],
        variable: usize,
        factor: Frac,
        source: &[Entry],
    ) -> Result<bool, AllocError>
        ensures entries { IfOk result (λ b. let m = merged width factor (without variable row.now) source.now in MatchBool b (Some self.new ≡ option_map (λ es. self.old ++ es) m) (m ≡ None)) }
        ensures fractions { All HasFraction self.old → OnOk result (All HasFraction self.new) }
    {
        let mut next = 0;
        for entry in row {
            if entry.index() == variable {
                continue;
            }
            match self.push_entry(factor, entry, rest(source, next))? {
                Some(taken) => next += taken,
                None => return Ok(false),
            }
        }
        Ok(
            self.push_products(factor, rest(source, next), width)?
                .is_some(),
        )
    }

    /// Puts minus an entry over the pivot behind the others, unless it is of one variable; false exactly where this is cramped. The pivot
    /// isn't 0. The one error is want of memory.
    pub(crate) fn push_quotient(
        &mut self,
        pivot: Frac,
        variable: usize,
        entry: &Entry,
    ) -> Result<bool, AllocError>
        requires { 0 < nat_abs pivot.num }
        ensures entries { IfOk result (λ b. (others : Terms) → let m = entry_quotients pivot (without variable (entry.now ∷ []) ++ others) in MatchBool b (Continues self.old self.new m (entry_quotients pivot others)) (m ≡ None)) }
        ensures fractions { All HasFraction self.old → OnOk result (All HasFraction self.new) }
    {
        if entry.index() == variable {
            return Ok(true);
        }
        match negative_quotient(pivot, entry.coefficient()) {
            Some(quotient) => {
                self.push_nonzero(entry.variable(), quotient)?;
                Ok(true)
            }
            None => Ok(false),
        }
    }

    /// The same for several entries.
    pub(crate) fn push_quotients(
        &mut self,
        pivot: Frac,
        variable: usize,
        entries: &[Entry],
    ) -> Result<bool, AllocError>
        requires { 0 < nat_abs pivot.num }
        ensures entries { IfOk result (λ b. (others : Terms) → let m = entry_quotients pivot (without variable entries.now ++ others) in MatchBool b (Continues self.old self.new m (entry_quotients pivot others)) (m ≡ None)) }
        ensures fractions { All HasFraction self.old → OnOk result (All HasFraction self.new) }
    {
        for entry in entries {
            if !self.push_quotient(pivot, variable, entry)? {
                return Ok(false);
            }
        }
        Ok(true)
    }
}
