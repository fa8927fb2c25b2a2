//! The cuts of a problem.

ghost use Rattle.std.specs.Prelude.{◌≡◌, ◌<◌, ◌≤◌, ◌+◌, ◌++◌, ◌∷◌, [], IfOk, OnOk, OnErr, MatchBool, All, length, take, option_map, slice_get, Some, None};
ghost use Rattle.cert_rows.specs.Lines.{row_at};
ghost use Rattle.derivation_book.specs.Known.{known_lines};
ghost use Rattle.derivation_book.specs.Sums.{combined};
ghost use Rattle.derivation_book.specs.Adding.{row_added};
ghost use Rattle.derivation_book.specs.Rounded.{rounded_row};
ghost use Rattle.derivation_book.specs.Cuts.{AreCutsOf};
ghost use Rattle.derivation_book.specs.Places.{row_in, IsThere};
ghost use Rattle.problem.specs.Rising.{AreRising};

use crate::combination::Combination;
use crate::cut::Cut;
use crate::place::Place;
use fraction::Frac;
use node_events::Mult;
use problem::{Problem, Row, Sense, Term};
use std::alloc::{AllocError, Global};
use std::marker::Model;

/// Cuts in the order of their numbers, each with its row and the multipliers that it was made with, and room for more.
///
/// A book is for the cuts of one problem: each call is given that problem.
#[derive(Drop)]
pub struct Book {
    cuts: Vec<Cut>,
}

impl Model for Book {
    ghost use Rattle.std.specs.Prelude.{◌-◌, All, vec_len, vec_capacity};
    ghost use Rattle.problem.specs.Rising.{AreRising};
    ghost use Rattle.derivation_book.specs.declared.cut.Cut.{Cut};
    ghost use Rattle.derivation_book.specs.Contents.{Contents};

    ghost Value = { Contents };

    ghost view = { λ b. record { cuts = b.cuts.items; room = vec_capacity b.cuts - vec_len b.cuts } };

    ghost invariant = { λ b. All (λ (c : Cut). AreRising c.row.terms) b.cuts.items };
}

impl Book {
    /// No cuts, and no room.
    pub fn make(alloc: Global) -> Book
        ensures { result ≡ record { cuts = []; room = 0 } }
    {
        Book {
            cuts: Vec::new(alloc),
        }
    }

    /// How many cuts there are.
    pub fn len(&self) -> usize
        ensures { result ≡ length self.now.cuts }
    {
        self.cuts.len()
    }

    /// Whether there is no cut.
    pub fn is_empty(&self) -> bool
        ensures { MatchBool result (self.now.cuts ≡ []) (0 < length self.now.cuts) }
    {
        self.cuts.is_empty()
    }

    /// The row of a cut that is there.
    pub fn cut(&self, index: usize) -> &Row
        requires { index < length self.now.cuts }
        ensures row { option_map (λ c. c.row) (slice_get self.now.cuts index) ≡ Some result.now }
        ensures rising { AreRising result.now.terms }
    {
        &self.cuts[index].row
    }

    /// The multipliers that a cut that is there was made with.
    pub fn mult(&self, index: usize) -> &Mult
        requires { index < length self.now.cuts }
        ensures { option_map (λ c. c.mult) (slice_get self.now.cuts index) ≡ Some result.now }
    {
        &self.cuts[index].mult
    }

    /// Makes room for so many more cuts. The one error is want of memory; the room is then what it was.
    pub fn reserve(&mut self, cuts: usize) -> Result<(), AllocError>
        ensures cuts { self.new.cuts ≡ self.old.cuts }
        ensures room { OnOk result (cuts ≤ self.new.room) }
        ensures kept { self.old.room ≤ self.new.room }
        ensures failed { OnErr result ((self.new.room ≡ self.old.room) × (self.old.room < cuts)) }
    {
        self.cuts.reserve(cuts)
    }

    /// Puts a cut behind the others: the row that `cg_row` gives for these multipliers. It needs room, and takes no memory.
    pub fn add_cut(&mut self, _problem: &Problem, mult: Mult, row: Row)
        requires room { 0 < self.old.room }
        requires rounded { rounded_row _problem.now self.old.cuts mult ≡ Some row }
        ensures cuts { self.new.cuts ≡ self.old.cuts ++ record { row = row; mult = mult } ∷ [] }
        ensures room { self.old.room ≤ self.new.room + 1 }
        ensures cuts_of_problem { AreCutsOf _problem.now self.old.cuts → AreCutsOf _problem.now self.new.cuts }
    {
        match self.cuts.push(Cut { row, mult }) {
            Ok(()) => {}
            Err(_) => unreachable!(),
        }
    }

    /// Takes the cuts from this number on away, and keeps their room. So a cut can be made over others that aren't to stay yet.
    pub fn truncate(&mut self, cuts: usize)
        ensures cuts { self.new.cuts ≡ take cuts self.old.cuts }
        ensures room { length self.old.cuts + self.old.room ≤ length self.new.cuts + self.new.room }
    {
        self.cuts.truncate(cuts);
    }

    /// How many rows have a number.
    pub(crate) fn known(&self, problem: &Problem) -> usize
        ensures { result ≡ length (known_lines problem.now self.now.cuts) }
    {
        problem.limits_hold();
        problem.rows() + 2 * problem.columns() + self.cuts.len()
    }

    /// What the number of a known row names.
    pub(crate) fn place(&self, problem: &Problem, number: u32) -> Place
        requires { number < length (known_lines problem.now self.now.cuts) }
        ensures there { IsThere problem.now self.now.cuts result }
        ensures row { row_in problem.now self.now.cuts result ≡ row_at (known_lines problem.now self.now.cuts) number }
    {
        problem.limits_hold();
        let number = number as usize;
        let rows = problem.rows();
        if number < rows {
            return Place::Given(number);
        }
        let bound = number - rows;
        if bound >= 2 * problem.columns() {
            return Place::OfCut(bound - 2 * problem.columns());
        }
        if bound % 2 == 0 {
            Place::Lower(bound / 2)
        } else {
            Place::Upper(bound / 2)
        }
    }

    /// The sense of a known row.
    pub(crate) fn sense(&self, problem: &Problem, number: u32) -> Sense
        requires { number < length (known_lines problem.now self.now.cuts) }
        ensures { result ≡ (row_at (known_lines problem.now self.now.cuts) number).sense }
    {
        match self.place(problem, number) {
            Place::Given(index) => problem.row(index).sense,
            Place::Lower(_) => Sense::G,
            Place::Upper(_) => Sense::L,
            Place::OfCut(index) => self.cut(index).sense,
        }
    }

    /// Adds a multiple of a known row. Where that is cramped the answer is false, and the sums are of no more use.
    fn add_known(
        &self,
        problem: &Problem,
        number: u32,
        factor: Frac,
        sums: &mut Combination,
    ) -> bool
        requires { number < length (known_lines problem.now self.now.cuts) }
        ensures { let added = row_added sums.old factor (row_at (known_lines problem.now self.now.cuts) number) in MatchBool result (added ≡ Some sums.new) (added ≡ None) }
    {
        problem.limits_hold();
        match self.place(problem, number) {
            Place::Given(index) => sums.add_row(factor, problem.row(index)),
            Place::Lower(column) => {
                sums.add_bound(factor, column as u32, problem.root().span(column).lo)
            }
            Place::Upper(column) => {
                sums.add_bound(factor, column as u32, problem.root().span(column).hi)
            }
            Place::OfCut(index) => sums.add_row(factor, self.cut(index)),
        }
    }

    /// The combination of known rows by sums of fractions; none exactly where a product or a sum is cramped. The one error is want of memory.
    pub(crate) fn combine_by_fractions(
        &self,
        alloc: Global,
        problem: &Problem,
        mult: &[Term],
    ) -> Result<Option<Combination>, AllocError>
        requires { All (λ m. m.0 < length (known_lines problem.now self.now.cuts)) mult.now }
        ensures { IfOk result (λ r. r ≡ combined (known_lines problem.now self.now.cuts) mult.now (length problem.now.spans)) }
    {
        let mut sums = Combination::zero(alloc, problem.columns())?;
        for multiplier in mult {
            let (number, factor) = multiplier.pair();
            if !self.add_known(problem, number, factor, &mut sums) {
                return Ok(None);
            }
        }
        Ok(Some(sums))
    }
}
