// A store of dictionaries, by their bases.

ghost use Rattle.std.specs.Prelude.{◌≡◌, ◌<◌, ◌+◌, ◌^◌, ℕ, ℤ, List, length, slice_index_or, IfSome, IsTrue, OnOk};
ghost use Rattle.integer_tableau.specs.IntegerProgram.{CanStart};
ghost use Rattle.integer_tableau.specs.StoreCalls.{AreKeptOf, HasTurned, IsTarget, IsTurnedSolution, StayKept};
ghost use Rattle.integer_tableau.specs.StoredRun.{HasTurnRow, IsOfEdge};
ghost use Rattle.integer_tableau.specs.Kept.{AreKept, HaveSameBasis, IsKept, kept_at, row_in};
ghost use Rattle.integer_tableau.specs.declared.integer_bounds.IntegerBounds.{IntegerBounds};

use crate::basic_solution::BasicSolution;
use crate::dictionary::Dictionaries;
use crate::integer_row::IntegerRow;
use crate::position::Position;
use crate::program_row::ProgramRow;
use crate::ranked_column::RankedColumn;
use crate::request::Turn;
use crate::same_basis::are_nonbasic;
use indexmap::IndexMap;
use std::alloc::{AllocError, Global};

/// How many words the dictionaries of a new store may take, about.
const FIRST_WORDS: usize = 1 << 17;

/// Room for how many numerators a store begins with, so that they aren't moved while they are few.
const FIRST_ROOM: usize = 1 << 16;

/// How many words they take at most, about (docs/DECISIONS.md, entry 96).
const MOST_WORDS: usize = 1 << 21;

/// How often the dictionaries take all words that they may take, before they may take twice as many the next time (docs/DECISIONS.md, entry 106).
const FILLS: u32 = 15;

/// How many dictionaries there are at most.
const MOST_DICTIONARIES: usize = 1 << 14;

/// How many runs go without a new store: where a linear program gets a cut after few runs, a store doesn't pay.
const FIRST_RUNS: u32 = 2;

/// The budget of a new store, and of one that was suspended: a new dictionary takes 1 of it, and a step to one that is kept already adds 1
/// (docs/DECISIONS.md, entry 103).
const FIRST_BUDGET: u32 = 768;

/// The greatest budget.
const MOST_BUDGET: u32 = 1 << 13;

/// How many dictionaries tell how large those of a linear program are.
const SAMPLE: usize = 8;

/// How many words a dictionary takes at most on average: of larger ones a store could keep fewer than 1,024 (docs/DECISIONS.md, entry 95).
const MOST_AVERAGE: usize = MOST_WORDS / 1024;

/// For how many runs the store is suspended the first time. Each further time is twice as long, until the budget has come to its greatest.
const FIRST_SUSPENSION: u32 = 32;

/// For how many runs it is suspended at most.
const MOST_SUSPENSION: u32 = 4096;

/// Dictionaries of one linear program, whatever the bounds are: the runs over its boxes share them.
///
/// Where they take too many bytes, they are dropped all together; they may take more while most steps go to one that is kept already, up to a limit.
/// Where few are met again, or they are so large that few could be kept, the store is suspended for some runs.
#[derive(Drop)]
pub(crate) struct DictionaryStore {
    pub(crate) kept: Dictionaries,
    /// Room for a solution.
    pub(crate) spare: BasicSolution,
    /// Room for the row of a variable that leaves.
    pub(crate) row: IntegerRow,
    /// Room for coefficients.
    pub(crate) coefficients: Vec<i64>,
    /// Room for basic columns.
    basic: Vec<usize>,
    /// Room for columns.
    pub(crate) columns: Vec<RankedColumn>,
    /// Places of dictionaries by their hashes. The first dictionary isn't among them, nor one for which memory was wanting.
    places: IndexMap<u64, usize>,
    /// How many words the dictionaries may take for now.
    limit: usize,
    /// How often they took all of these since they may take so many.
    fills: u32,
    /// How much new dictionaries may still take before the store is suspended.
    budget: u32,
    /// How many of the next runs go without the store.
    suspended_runs: u32,
    /// How many runs go without it the next time that it is suspended.
    next_suspension: u32,
    /// How many steps went to a dictionary that was kept already.
    met: u64,
}

/// A word for a variable. The words of a basis together are its hash.
fn word_of(variable: usize) -> u64 {
    let word = (variable as u64)
        .wrapping_add(1)
        .wrapping_mul(0x9e3779b97f4a7c15);
    let word = (word ^ (word >> 30)).wrapping_mul(0xbf58476d1ce4e5b9);
    let word = (word ^ (word >> 27)).wrapping_mul(0x94d049bb133111eb);
    word ^ (word >> 31)
}

impl DictionaryStore {
    /// An empty store.
    pub(crate) fn new(alloc: Global) -> DictionaryStore
        ensures { (ps : List (List ℤ)) (weight : ℕ) (costs : List ℤ) → AreKept ps weight costs result.kept }
    {
        DictionaryStore {
            kept: Dictionaries::new(alloc),
            spare: BasicSolution::empty(alloc),
            row: IntegerRow::empty(alloc),
            coefficients: Vec::new(alloc),
            basic: Vec::new(alloc),
            columns: Vec::new(alloc),
            places: IndexMap::new(alloc),
            limit: FIRST_WORDS,
            fills: 0,
            budget: FIRST_BUDGET,
            suspended_runs: FIRST_RUNS,
            next_suspension: FIRST_SUSPENSION,
            met: 0,
        }
    }

    /// How many steps went to a dictionary that was kept already.
    pub(crate) fn met(&self) -> u64 {
        self.met
    }

    /// Drops all dictionaries but that at the start. The one error is want of memory.
    fn begin(&mut self, rows: usize, costs: &IntegerRow) -> Result<(), AllocError>
        requires room { length costs.now + rows < 2 ^ 64 }
        requires program { (ps : List (List ℤ)) × (weight : ℕ) × (bounds : List IntegerBounds) × (length ps ≡ rows) × CanStart ps weight costs.now bounds }
        ensures some { OnOk result (0 < length self.new.kept.all) }
        ensures kept { (ps : List (List ℤ)) (weight : ℕ) (bounds : List IntegerBounds) → length ps ≡ rows → CanStart ps weight costs.now bounds → AreKept ps weight costs.now self.new.kept }
    {
        self.kept.clear();
        self.places.clear();
        self.kept.reserve(FIRST_ROOM)?;
        self.kept.push_start(rows, costs)
    }

    /// Whether there is no room for more dictionaries.
    #[inline(always)]
    fn is_full(&self) -> bool {
        self.kept.count() >= MOST_DICTIONARIES || self.kept.words() >= self.limit
    }

    /// Whether the dictionaries may take more words than now.
    fn may_grow(&self) -> bool {
        self.limit < MOST_WORDS && self.kept.count() < MOST_DICTIONARIES
    }

    /// Notes where the dictionaries take all words that they may take, and lets them take twice as many where they did so often.
    fn grow(&mut self)
        ensures { self.new.kept ≡ self.old.kept }
    {
        if !self.is_full() || !self.may_grow() {
            return;
        }
        if self.fills < FILLS {
            self.fills += 1;
        } else {
            self.fills = 0;
            self.limit = self.limit.saturating_mul(2);
        }
    }

    /// Whether the dictionaries are so large that few could be kept.
    fn are_large(&self) -> bool {
        let count = self.kept.count();
        count >= SAMPLE && self.kept.words() / count > MOST_AVERAGE
    }

    /// Whether no further dictionary is kept for now.
    #[inline(always)]
    pub(crate) fn is_suspended_or_full(&self) -> bool {
        self.suspended_runs > 0 || self.is_full()
    }

    /// Makes the store ready for a run of its linear program; false where it is suspended, or memory is wanting.
    pub(crate) fn is_ready(&mut self, rows: usize, costs: &IntegerRow) -> bool
        requires room { length costs.now + rows < 2 ^ 64 }
        requires program { (ps : List (List ℤ)) × (weight : ℕ) × (bounds : List IntegerBounds) × (length ps ≡ rows) × CanStart ps weight costs.now bounds }
        ensures some { IsTrue result → 0 < length self.new.kept.all }
        ensures kept { (ps : List (List ℤ)) (weight : ℕ) (bounds : List IntegerBounds) → length ps ≡ rows → CanStart ps weight costs.now bounds → AreKept ps weight costs.now self.old.kept → AreKept ps weight costs.now self.new.kept }
    {
        if self.suspended_runs > 0 {
            self.suspended_runs -= 1;
            return false;
        }
        if self.are_large() {
            self.suspended_runs = MOST_SUSPENSION;
            return false;
        }
        self.grow();
        if self.kept.count() == 0 || self.is_full() {
            return self.begin(rows, costs).is_ok();
        }
        true
    }

    /// Notes a step to a dictionary that was kept already.
    #[inline(always)]
    fn note_met(&mut self)
        ensures { self.new.kept ≡ self.old.kept }
    {
        self.met = self.met.saturating_add(1);
        if self.budget < MOST_BUDGET {
            self.budget += 1;
        } else {
            self.next_suspension = FIRST_SUSPENSION;
        }
    }

    /// Notes a new dictionary, and suspends the store where nothing is left of the budget.
    fn note_new(&mut self)
        ensures kept { self.new.kept ≡ self.old.kept }
        ensures row { self.new.row ≡ self.old.row }
    {
        self.budget = self.budget.saturating_sub(1);
        if self.budget == 0 {
            self.budget = FIRST_BUDGET;
            self.suspended_runs = self.next_suspension;
            self.next_suspension = MOST_SUSPENSION.min(self.next_suspension.saturating_mul(2));
        }
    }

    /// The place of the last dictionary of this hash; 0 where none is known.
    fn of_hash(&self, hash: u64) -> usize
        ensures { 0 < result → result < length self.now.kept.all }
    {
        match self.places.get(&hash) {
            Some(place) if *place < self.kept.count() => *place,
            _ => 0,
        }
    }

    /// Puts a place by its hash. Where memory is wanting, it isn't known by its hash.
    fn put(&mut self, hash: u64, place: usize)
        ensures { self.new.kept ≡ self.old.kept }
    {
        let _ = self.places.insert(hash, place);
    }

    /// The place of the dictionary of the solution's basis and this denominator, by its hash; 0 where it isn't kept.
    ///
    /// As many variables are nonbasic by each basis, so that two are the same where those of the one are nonbasic by the other.
    fn found(&self, solution: &BasicSolution, denominator: i64, hash: u64) -> usize
        requires turning { IsTurnedSolution self.now.kept solution.now }
        ensures there { 0 < result → result < length self.now.kept.all }
        ensures basis { 0 < result → HaveSameBasis solution.now.positions.items (kept_at self.now.kept.all result).positions }
        ensures denominator { 0 < result → (kept_at self.now.kept.all result).denominator ≡ denominator }
    {
        let place = self.of_hash(hash);
        if place == 0 || self.kept.divisor(place).number() != denominator {
            return 0;
        }
        if are_nonbasic(&solution.positions, self.kept.nonbasic(place)) {
            place
        } else {
            0
        }
    }

    /// Makes the room for a row hold the leaving row of a turn. None where memory is wanting.
    fn put_turn_row(&mut self, program_rows: &[ProgramRow], place: usize, turn: Turn) -> Option<()>
        requires there { place < length self.old.kept.all }
        requires kept { (weight : ℕ) × (costs : List ℤ) × IsKept program_rows.now weight costs (kept_at self.old.kept.all place) }
        requires leaving_there { turn.leaving < length (kept_at self.old.kept.all place).positions }
        requires basic { slice_index_or (kept_at self.old.kept.all place).positions turn.leaving Position.InBasis ≡ Position.InBasis }
        requires row { HasTurnRow program_rows.now (kept_at self.old.kept.all place) self.old.row turn }
        ensures kept { self.new.kept ≡ self.old.kept }
        ensures row { IfSome result (λ u. self.new.row ≡ row_in program_rows.now (kept_at self.old.kept.all place) turn.leaving) }
    {
        if turn.row_made {
            return Some(());
        }
        self.kept
            .put_row(
                place,
                program_rows,
                turn.leaving,
                &mut self.coefficients,
                &mut self.row,
            )
            .ok()
    }

    /// Makes the dictionary behind a turn. The answer is its place; none where it is given up.
    fn make(
        &mut self,
        alloc: Global,
        program_rows: &[ProgramRow],
        weight: u64,
        place: usize,
        solution: &BasicSolution,
        turn: Turn,
        pivot_size: i64,
        hash: u64,
    ) -> Option<usize>
        requires kept { AreKeptOf program_rows.now weight self.old.kept }
        requires there { place < length self.old.kept.all }
        requires row { HasTurnRow program_rows.now (kept_at self.old.kept.all place) self.old.row turn }
        requires turning { HasTurned program_rows.now weight self.old.kept place turn pivot_size solution.now }
        ensures kept { StayKept program_rows.now weight self.old.kept self.new.kept }
        ensures moved { IfSome result (IsTarget program_rows.now weight self.old.kept place turn pivot_size solution.now self.new.kept) }
        ensures exits { IfSome result (λ q. self.new.kept.exits ≡ self.old.kept.exits) }
        ensures edges { IfSome result (λ q. self.new.kept.edges ≡ self.old.kept.edges) }
        ensures pushed { IfSome result (λ q. (q ≡ length self.old.kept.all) × ((p : ℕ) → p < q → kept_at self.new.kept.all p ≡ kept_at self.old.kept.all p)) }
    {
        self.put_turn_row(program_rows, place, turn)?;
        let denominator = self.kept.divisor(place).number();
        if !self.row.solve(turn.column, denominator) {
            return None;
        }
        let made = self.kept.count();
        let Some(()) = self
            .kept
            .push_behind(&mut self.basic, place, turn, &self.row, pivot_size, hash)
        else {
            self.kept.clear();
            return None;
        };
        if !self.kept.is_small(alloc, program_rows, weight, made) {
            self.kept.clear();
            return None;
        }
        self.put(hash, made);
        Some(made)
    }

    /// The place of the dictionary behind a turn, where that isn't noted; the solution is there already. None where it is given up.
    #[inline(never)]
    fn found_or_made(
        &mut self,
        alloc: Global,
        program_rows: &[ProgramRow],
        weight: u64,
        place: usize,
        solution: &BasicSolution,
        turn: Turn,
        pivot_size: i64,
    ) -> Option<usize>
        requires kept { AreKeptOf program_rows.now weight self.old.kept }
        requires there { place < length self.old.kept.all }
        requires edge { IsOfEdge self.old.kept place turn }
        requires row { HasTurnRow program_rows.now (kept_at self.old.kept.all place) self.old.row turn }
        requires turning { HasTurned program_rows.now weight self.old.kept place turn pivot_size solution.now }
        ensures kept { StayKept program_rows.now weight self.old.kept self.new.kept }
        ensures moved { IfSome result (IsTarget program_rows.now weight self.old.kept place turn pivot_size solution.now self.new.kept) }
    {
        let hash = self.kept.hash(place) ^ word_of(turn.leaving) ^ word_of(turn.entering);
        let found = self.found(solution, pivot_size, hash);
        if found != 0 {
            self.note_met();
            self.kept.note(turn.edge, found);
            return Some(found);
        }
        self.note_new();
        let made = self.make(
            alloc,
            program_rows,
            weight,
            place,
            solution,
            turn,
            pivot_size,
            hash,
        )?;
        self.kept.note(turn.edge, made);
        Some(made)
    }

    /// The place of the dictionary behind a turn; the solution is there already. None where it is given up.
    #[inline(always)]
    pub(crate) fn target(
        &mut self,
        alloc: Global,
        program_rows: &[ProgramRow],
        weight: u64,
        place: usize,
        solution: &BasicSolution,
        turn: Turn,
        pivot_size: i64,
    ) -> Option<usize>
        requires kept { AreKeptOf program_rows.now weight self.old.kept }
        requires there { place < length self.old.kept.all }
        requires edge { IsOfEdge self.old.kept place turn }
        requires row { HasTurnRow program_rows.now (kept_at self.old.kept.all place) self.old.row turn }
        requires turning { HasTurned program_rows.now weight self.old.kept place turn pivot_size solution.now }
        ensures kept { StayKept program_rows.now weight self.old.kept self.new.kept }
        ensures moved { IfSome result (IsTarget program_rows.now weight self.old.kept place turn pivot_size solution.now self.new.kept) }
    {
        if turn.target != 0 && self.kept.divisor(turn.target).number() == pivot_size {
            self.note_met();
            return Some(turn.target);
        }
        self.found_or_made(
            alloc,
            program_rows,
            weight,
            place,
            solution,
            turn,
            pivot_size,
        )
    }
}
