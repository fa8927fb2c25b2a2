// What a solution asks for at its dictionary.

ghost use Rattle.std.specs.Prelude.{◌≡◌, ◌<◌, ℕ, ℤ, List, false, length, All, IfOk, IfSome, OnOk, Some};
ghost use Rattle.integer_tableau.specs.Combined.{expanded_values};
ghost use Rattle.integer_tableau.specs.Exits.{edge_at, edge_enters};
ghost use Rattle.integer_tableau.specs.Kept.{AreKept, HaveSameDictionaries, IsAt, IsTaken, edges_of, exit_at, kept_at, row_in};
ghost use Rattle.integer_tableau.specs.Leaving.{leaving_by_numerators};
ghost use Rattle.integer_tableau.specs.RowSums.{AreColumnsOf};
ghost use Rattle.integer_tableau.specs.declared.exits.Edge.{Edge};
ghost use Rattle.integer_tableau.specs.StoredRun.{HasEdge, HasRow, IsSolutionOf, IsRequestAt, dictionary_at, turn_of};

use crate::basic_solution::BasicSolution;
use crate::coefficient_columns::CoefficientColumns;
use crate::dictionary::Dictionaries;
use crate::dictionary_store::DictionaryStore;
use crate::program_row::ProgramRow;
use crate::row_sums::leaving_with_sums;
use std::alloc::{AllocError, Global};
use tableau::{Direction, Place};

/// Two variables that change places.
#[derive(Clone, Copy)]
pub(crate) struct Turn {
    pub(crate) leaving: usize,
    /// In which direction it goes.
    pub(crate) direction: Direction,
    pub(crate) entering: usize,
    /// The entering variable's column.
    pub(crate) column: usize,
    /// The numerator of its coefficient in the leaving row.
    pub(crate) coefficient: i64,
    /// The place of the edge where it is noted.
    pub(crate) edge: usize,
    /// The place of the dictionary behind, 0 where it isn't known.
    pub(crate) target: usize,
    /// Whether the store's room for a row holds the leaving row.
    pub(crate) row_made: bool,
}

/// What a solution asks for.
#[derive(Clone, Copy)]
pub(crate) enum Request {
    /// No pivot: the run ends at this place.
    Stops(Place),
    /// A pivot.
    Goes(Turn),
    /// Memory is wanting.
    Unknown,
}

/// The least basic variable of a solution outside its bounds, if there is one, and the direction in which it has to go. The one error is want of memory.
#[inline(always)]
fn leaving_at(
    alloc: Global,
    program_rows: &[ProgramRow],
    columns: &Option<CoefficientColumns>,
    dictionaries: &Dictionaries,
    place: usize,
    solution: &BasicSolution,
) -> Result<Option<(usize, Direction)>, AllocError>
    requires columns { IfSome columns.now (AreColumnsOf program_rows.now) }
    requires there { place < length dictionaries.now.all }
    requires solution { IsSolutionOf program_rows.now (kept_at dictionaries.now.all place) solution.now }
    ensures { IfOk result (λ l. l ≡ leaving_by_numerators (dictionary_at dictionaries.now place).denominator 0 (dictionary_at dictionaries.now place).positions solution.now.bounds.items (expanded_values (dictionary_at dictionaries.now place).denominator program_rows.now (dictionary_at dictionaries.now place).positions solution.now.nonbasic_values.items solution.now.values.items)) }
{
    leaving_with_sums(
        alloc,
        columns,
        &solution.row_sums,
        solution.reach,
        program_rows,
        &solution.positions,
        &solution.bounds,
        &solution.nonbasic_values,
        &solution.values,
        dictionaries.basic_columns(place),
        dictionaries.divisor(place).number(),
    )
}

impl Dictionaries {
    /// The turn of an edge; the leaving row may have been made to find it.
    #[inline(always)]
    fn turn(&self, direction: Direction, place: usize, row_made: bool) -> Turn
        requires { place < length self.now.edges }
        ensures { result ≡ turn_of direction (edge_at self.now.edges place) place row_made }
    {
        let edge = &self.edges[place];
        Turn {
            leaving: edge.leaving,
            direction,
            entering: edge.entering,
            column: edge.column,
            coefficient: edge.coefficient,
            edge: place,
            target: edge.target,
            row_made,
        }
    }
}

impl DictionaryStore {
    /// The place of the edge that is taken where the variable of an exit leaves and none of the edges that are noted may be taken; none where the variable
    /// can't leave. It is noted now, and the room for a row holds the leaving row. The one error is want of memory.
    #[inline(never)]
    fn further_edge(
        &mut self,
        program_rows: &[ProgramRow],
        place: usize,
        solution: &BasicSolution,
        variable: usize,
        direction: Direction,
        exit: usize,
    ) -> Result<Option<usize>, AllocError>
        requires kept { (weight : ℕ) × (costs : List ℤ) × AreKept program_rows.now weight costs self.old.kept × IsAt program_rows.now weight (kept_at self.old.kept.all place) solution.now }
        requires there { place < length self.old.kept.all }
        requires exit_there { exit < length self.old.kept.exits }
        requires from { (exit_at self.old.kept.exits exit).from ≡ place }
        requires variable { (exit_at self.old.kept.exits exit).variable ≡ variable }
        requires none { All (λ (e : Edge). edge_enters direction solution.now.at_upper.items solution.now.bounds.items e ≡ false) (edges_of self.old.kept.edges (exit_at self.old.kept.exits exit)) }
        ensures same { HaveSameDictionaries self.new.kept self.old.kept }
        ensures kept { (weight : ℕ) (costs : List ℤ) → AreKept program_rows.now weight costs self.old.kept → AreKept program_rows.now weight costs self.new.kept }
        ensures taken { IfOk result (λ o. IsTaken program_rows.now self.new.kept.edges place (kept_at self.new.kept.all place) solution.now variable direction o) }
        ensures row { OnOk result (self.new.row ≡ row_in program_rows.now (kept_at self.new.kept.all place) variable) }
    {
        self.kept.put_row(
            place,
            program_rows,
            variable,
            &mut self.coefficients,
            &mut self.row,
        )?;
        let row = self.row.numerators();
        self.kept
            .further_edge(&mut self.columns, place, solution, direction, exit, row)
    }

    /// What a solution asks for where the variable of an exit leaves; the edge is noted of its dictionary. The one error is want of memory.
    #[inline(always)]
    fn request_by_exit(
        &mut self,
        program_rows: &[ProgramRow],
        place: usize,
        solution: &BasicSolution,
        variable: usize,
        direction: Direction,
        exit: usize,
    ) -> Result<Request, AllocError>
        requires there { place < length self.old.kept.all }
        requires solution { (weight : ℕ) × (costs : List ℤ) × AreKept program_rows.now weight costs self.old.kept × IsAt program_rows.now weight (kept_at self.old.kept.all place) solution.now }
        requires exit_there { exit < length self.old.kept.exits }
        requires from { (exit_at self.old.kept.exits exit).from ≡ place }
        requires variable { (exit_at self.old.kept.exits exit).variable ≡ variable }
        requires leaving { leaving_by_numerators (dictionary_at self.old.kept place).denominator 0 (dictionary_at self.old.kept place).positions solution.now.bounds.items (expanded_values (dictionary_at self.old.kept place).denominator program_rows.now (dictionary_at self.old.kept place).positions solution.now.nonbasic_values.items solution.now.values.items) ≡ Some (variable, direction) }
        ensures same { HaveSameDictionaries self.new.kept self.old.kept }
        ensures kept { (weight : ℕ) (costs : List ℤ) → AreKept program_rows.now weight costs self.old.kept → AreKept program_rows.now weight costs self.new.kept }
        ensures request { IfOk result (λ q. IsRequestAt program_rows.now (dictionary_at self.old.kept place) solution.now q) }
        ensures edge { IfOk result (λ q. HasEdge self.new.kept place q) }
        ensures row { IfOk result (λ q. HasRow program_rows.now (kept_at self.new.kept.all place) self.new.row q) }
    {
        if let Some(edge) = self.kept.edge_of(solution, direction, exit) {
            return Ok(Request::Goes(self.kept.turn(direction, edge, false)));
        }
        match self.further_edge(program_rows, place, solution, variable, direction, exit)? {
            Some(edge) => Ok(Request::Goes(self.kept.turn(direction, edge, true))),
            None => Ok(Request::Stops(Place::NoColumn { row: variable })),
        }
    }

    /// What a solution asks for; who enters is noted of its dictionary.
    #[inline(always)]
    pub(crate) fn request(
        &mut self,
        alloc: Global,
        program_rows: &[ProgramRow],
        columns: &Option<CoefficientColumns>,
        place: usize,
        solution: &BasicSolution,
    ) -> Request
        requires columns { IfSome columns.now (AreColumnsOf program_rows.now) }
        requires there { place < length self.old.kept.all }
        requires solution { (weight : ℕ) × (costs : List ℤ) × AreKept program_rows.now weight costs self.old.kept × IsAt program_rows.now weight (kept_at self.old.kept.all place) solution.now }
        ensures same { HaveSameDictionaries self.new.kept self.old.kept }
        ensures kept { (weight : ℕ) (costs : List ℤ) → AreKept program_rows.now weight costs self.old.kept → AreKept program_rows.now weight costs self.new.kept }
        ensures request { IsRequestAt program_rows.now (dictionary_at self.old.kept place) solution.now result }
        ensures edge { HasEdge self.new.kept place result }
        ensures row { HasRow program_rows.now (kept_at self.new.kept.all place) self.new.row result }
    {
        let Ok(found) = leaving_at(alloc, program_rows, columns, &self.kept, place, solution) else {
            return Request::Unknown;
        };
        let Some((variable, direction)) = found else {
            return Request::Stops(Place::Done);
        };
        let Ok(exit) = self.kept.exit(place, variable) else {
            return Request::Unknown;
        };
        self.request_by_exit(program_rows, place, solution, variable, direction, exit)
            .unwrap_or(Request::Unknown)
    }
}
