// Runs by dictionaries that are kept.

ghost use Rattle.std.specs.Prelude.{◌≡◌, ◌≤◌, ◌<◌, ◌+◌, ◌^◌, ℕ, length, IfErr, IfOk, IfSome};
ghost use Rattle.tableau.specs.Run.{RunEnd, run_from};
ghost use Rattle.integer_tableau.specs.Kept.{IsAt, KeptDictionaries, kept_at, view_of};
ghost use Rattle.integer_tableau.specs.RowSums.{AreColumnsOf};
ghost use Rattle.integer_tableau.specs.StoreCalls.{AreKeptOf, StayKept};
ghost use Rattle.integer_tableau.specs.StoredRun.{IsEndWithin, IsStep, IsStoredEnd, dictionary_at, view_with};

use crate::basic_solution::BasicSolution;
use crate::coefficient_columns::CoefficientColumns;
use crate::dictionary::Dictionaries;
use crate::dictionary_store::DictionaryStore;
use crate::pivot::size_of;
use crate::program_row::ProgramRow;
use crate::request::Request;
use crate::run::IntegerRunEnd;
use std::alloc::Global;
use std::rc::RcSlice;
use tableau::Place;

/// What comes of a solution.
#[derive(Clone, Copy)]
pub(crate) enum Step {
    /// It asks for no pivot: the run ends at this place.
    Ended(Place),
    /// It is at the dictionary of this place, by the pivot that it asks for.
    Moved(usize),
    /// It is where it was: no dictionary more is kept for now, or memory is wanting.
    Closed,
    /// The pivot is given up. The solution is of no use.
    GivenUp,
}

/// The step of a solution at the dictionary of this place.
#[inline(always)]
fn make_step(
    alloc: Global,
    program_rows: &[ProgramRow],
    columns: &Option<CoefficientColumns>,
    weight: u64,
    store: &mut DictionaryStore,
    place: usize,
    solution: &mut BasicSolution,
) -> Step
    requires kept { AreKeptOf program_rows.now weight store.old.kept }
    requires columns { IfSome columns.now (AreColumnsOf program_rows.now) }
    requires there { place < length store.old.kept.all }
    requires at { IsAt program_rows.now weight (kept_at store.old.kept.all place) solution.old }
    requires room { solution.old.pivots + 1 < 2 ^ 64 }
    ensures kept { StayKept program_rows.now weight store.old.kept store.new.kept }
    ensures step { IsStep program_rows.now weight store.old.kept place solution.old store.new.kept solution.new result }
{
    if store.is_suspended_or_full() {
        return Step::Closed;
    }
    let turn = match store.request(alloc, program_rows, columns, place, solution) {
        Request::Stops(last) => return Step::Ended(last),
        Request::Unknown => return Step::Closed,
        Request::Goes(turn) => turn,
    };
    let Some(size) = size_of(turn.coefficient) else {
        return Step::GivenUp;
    };
    if !solution.turn(program_rows, columns, &store.kept, place, turn, size) {
        return Step::GivenUp;
    }
    match store.target(alloc, program_rows, weight, place, solution, turn, size) {
        Some(target) => Step::Moved(target),
        None => Step::GivenUp,
    }
}

/// How a run ended.
#[derive(Drop)]
pub(crate) enum StoredEnd {
    /// At this last place, with the solution at the dictionary of place `at`. It has no tableau yet.
    Kept {
        place: Place,
        at: usize,
        solution: BasicSolution,
    },
    /// It went on by a tableau of its own.
    Alone(IntegerRunEnd),
}

impl StoredEnd {
    /// The end with its tableau, by the dictionaries of the run. The error says that the run is given up, since memory is wanting, and how many pivots
    /// were made before.
    pub(crate) fn into_run_end(
        self,
        alloc: Global,
        numbers: &[u32],
        program_rows: &RcSlice<ProgramRow>,
        weight: u64,
        dictionaries: &Dictionaries,
    ) -> Result<IntegerRunEnd, u64>
        requires kept { AreKeptOf program_rows.now.items.value.items weight dictionaries.now }
        requires ended { (cap : ℕ) × (e : RunEnd) × IsStoredEnd numbers.now program_rows.now.items.value.items weight dictionaries.now cap e self }
        ensures end { (cap : ℕ) (e : RunEnd) → IsStoredEnd numbers.now program_rows.now.items.value.items weight dictionaries.now cap e self → IfOk result (IsEndWithin cap e) }
        ensures given_up { (cap : ℕ) (e : RunEnd) → IsStoredEnd numbers.now program_rows.now.items.value.items weight dictionaries.now cap e self → IfErr result (λ made. made ≤ cap) }
    {
        match self {
            StoredEnd::Kept {
                place,
                at,
                solution,
            } => {
                let made = solution.pivots;
                match solution.into_tableau(
                    alloc,
                    numbers,
                    program_rows,
                    weight,
                    dictionaries,
                    at,
                ) {
                    Ok(tableau) => Ok(IntegerRunEnd { place, tableau }),
                    Err(_) => Err(made),
                }
            }
            StoredEnd::Alone(end) => Ok(end),
        }
    }
}

/// The run of a solution at the dictionary of this place with at most `cap` further pivots, by a tableau of its own. The error says that it is given
/// up, and how many pivots were made before.
pub(crate) fn run_alone(
    alloc: Global,
    numbers: &[u32],
    program_rows: &RcSlice<ProgramRow>,
    columns: &Option<CoefficientColumns>,
    weight: u64,
    dictionaries: &Dictionaries,
    place: usize,
    solution: BasicSolution,
    cap: u64,
) -> Result<StoredEnd, u64>
    requires kept { AreKeptOf program_rows.now.items.value.items weight dictionaries.now }
    requires columns { IfSome columns.now (AreColumnsOf program_rows.now.items.value.items) }
    requires there { place < length dictionaries.now.all }
    requires at { IsAt program_rows.now.items.value.items weight (kept_at dictionaries.now.all place) solution }
    requires room { solution.pivots + cap < 2 ^ 64 }
    ensures end { (k : KeptDictionaries) → IfOk result (IsStoredEnd numbers.now program_rows.now.items.value.items weight k (solution.pivots + cap) (run_from cap (view_of numbers.now program_rows.now.items.value.items (kept_at dictionaries.now.all place) solution))) }
    ensures given_up { IfErr result (λ made. made ≤ solution.pivots + cap) }
{
    let made = solution.pivots;
    let Ok((running, row_sums)) = solution.into_running(
        alloc,
        numbers,
        program_rows,
        weight,
        dictionaries,
        place,
    ) else {
        return Err(made);
    };
    match running.run(columns, row_sums, cap) {
        Ok(end) => Ok(StoredEnd::Alone(end)),
        Err(more) => Err(made + more),
    }
}

/// The run of a solution from the first dictionary with at most `cap` pivots. The error says that it is given up, and how many pivots were made
/// before.
pub(crate) fn run_stored(
    alloc: Global,
    numbers: &[u32],
    program_rows: &RcSlice<ProgramRow>,
    columns: &Option<CoefficientColumns>,
    weight: u64,
    store: &mut DictionaryStore,
    solution: BasicSolution,
    cap: u64,
) -> Result<StoredEnd, u64>
    requires kept { AreKeptOf program_rows.now.items.value.items weight store.old.kept }
    requires columns { IfSome columns.now (AreColumnsOf program_rows.now.items.value.items) }
    requires some { 0 < length store.old.kept.all }
    requires at { IsAt program_rows.now.items.value.items weight (kept_at store.old.kept.all 0) solution }
    requires fresh { solution.pivots ≡ 0 }
    ensures end { IfOk result (IsStoredEnd numbers.now program_rows.now.items.value.items weight store.new.kept cap (run_from cap (view_with numbers.now program_rows.now.items.value.items (dictionary_at store.old.kept 0) solution))) }
    ensures given_up { IfErr result (λ made. made ≤ cap) }
    ensures kept { StayKept program_rows.now.items.value.items weight store.old.kept store.new.kept }
{
    let mut solution = solution;
    let mut at = 0;
    for made in 0..cap {
        match make_step(
            alloc,
            program_rows,
            columns,
            weight,
            store,
            at,
            &mut solution,
        ) {
            Step::Moved(next) => at = next,
            Step::Ended(place) => {
                return Ok(StoredEnd::Kept {
                    place,
                    at,
                    solution,
                });
            }
            Step::Closed => {
                let rest = cap - made;
                return run_alone(
                    alloc,
                    numbers,
                    program_rows,
                    columns,
                    weight,
                    &store.kept,
                    at,
                    solution,
                    rest,
                );
            }
            Step::GivenUp => return Err(made),
        }
    }
    run_alone(
        alloc,
        numbers,
        program_rows,
        columns,
        weight,
        &store.kept,
        at,
        solution,
        0,
    )
}
