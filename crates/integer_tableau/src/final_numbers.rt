// What is asked of the tableau that a run left.

ghost use Rattle.std.specs.Prelude.{◌≡◌, ◌<◌, ◌≤◌, ◌<ℤ◌, ℕ, ℤ, List, drop, length, nat_abs, pos, IfErr, IfOk};
ghost use Rattle.tableau.specs.Multipliers.{mult_of_cost, mult_of_row, numbered, point_of};
ghost use Rattle.tableau.specs.Place.{PlaceIsWithin};
ghost use Rattle.tableau.specs.Run.{RunEnd, run_from};
ghost use Rattle.tableau.specs.Tableau.{Tableau};
ghost use Rattle.integer_tableau.specs.FinalNumbers.{AreNumbersOf, AreNumbersWithin};
ghost use Rattle.integer_tableau.specs.Kept.{IsAt, IsKept, kept_at, view_of};
ghost use Rattle.integer_tableau.specs.Positions.{coefficients};
ghost use Rattle.integer_tableau.specs.StoreCalls.{AreKeptOf};
ghost use Rattle.integer_tableau.specs.StoredRun.{IsKeptEnd, IsStoredEnd};

use crate::answers::column_values;
use crate::basic_solution::BasicSolution;
use crate::denominator::common_denominator;
use crate::dictionary::Dictionaries;
use crate::integer_tableau::IntegerTableau;
use crate::named_coefficients::named_coefficients;
use crate::position::Position;
use crate::program_row::ProgramRow;
use crate::stored_run::StoredEnd;
use fraction::Frac;
use problem::Terms;
use std::alloc::{AllocError, Global};
use std::rc::RcSlice;
use tableau::Place;

/// What is asked of the tableau that a run left, without the tableau.
#[derive(Drop)]
pub struct FinalNumbers {
    /// The run's last place.
    pub place: Place,
    /// How many pivots led there.
    pub pivots: u64,
    /// A denominator of all numbers of the tableau, as `IntegerTableau::common_denominator` tells; none where it tells none.
    pub denominator: Option<u64>,
    /// The values of the columns where the place is `Place::Done`, else none.
    pub point: Vec<Frac>,
    /// The multipliers that the place names: those of the costs where it is `Place::Done`, those of its row where no column is eligible, else none.
    pub multipliers: Terms,
}

impl IntegerTableau {
    /// The values of the columns where this place is done. The one error is want of memory.
    fn final_point(&self, alloc: Global, place: Place) -> Result<Vec<Frac>, AllocError>
        ensures { IfOk result (λ v. place ≡ Place.Done → v.items ≡ point_of self.now) }
    {
        match place {
            Place::Done => self.point(alloc),
            _ => Ok(Vec::new(alloc)),
        }
    }

    /// The multipliers that this place names. The one error is want of memory.
    fn final_multipliers(&self, alloc: Global, place: Place) -> Result<Terms, AllocError>
        requires { PlaceIsWithin (length self.now.statuses) place }
        ensures of_costs { IfOk result (λ m. place ≡ Place.Done → m ≡ mult_of_cost self.now) }
        ensures of_row { IfOk result (λ m. (r : ℕ) → place ≡ Place.NoColumn r → m ≡ mult_of_row self.now r) }
    {
        match place {
            Place::Done => self.mult_of_cost(alloc),
            Place::NoColumn { row } => self.mult_of_row(alloc, row),
            _ => Ok(Terms::new(alloc)),
        }
    }

    /// What is asked of the tableau that a run left at this place. The one error is want of memory.
    pub(crate) fn final_numbers(
        &self,
        alloc: Global,
        place: Place,
    ) -> Result<FinalNumbers, AllocError>
        requires { PlaceIsWithin (length self.now.statuses) place }
        ensures place { IfOk result (λ n. n.place ≡ place) }
        ensures pivots { IfOk result (λ n. n.pivots ≡ self.now.pivots) }
        ensures numbers { IfOk result (AreNumbersOf self.now) }
    {
        let point = self.final_point(alloc, place)?;
        let multipliers = self.final_multipliers(alloc, place)?;
        Ok(FinalNumbers {
            place,
            pivots: self.pivots,
            denominator: self.common_denominator(),
            point,
            multipliers,
        })
    }
}

/// For each row, by its number, the reduced cost of its variable, but those that are 0, of a dictionary of these parts. The one error is want of memory.
fn mult_of_cost(
    alloc: Global,
    numbers: &[u32],
    positions: &[Position],
    reduced_costs: &[i64],
    denominator: i64,
) -> Result<Terms, AllocError>
    requires positive { pos 0 <ℤ denominator }
    requires columns_there { length reduced_costs.now ≤ length positions.now }
    ensures { IfOk result (λ m. m ≡ numbered numbers.now (coefficients (nat_abs denominator) (drop (length reduced_costs.now) positions.now) reduced_costs.now)) }
{
    let rows = &positions[reduced_costs.len()..];
    named_coefficients(alloc, numbers, rows, reduced_costs, denominator)
}

/// What is asked of the tableau of a solution at the dictionary of this place, where it is done. The one error is want of memory.
fn numbers_where_done(
    alloc: Global,
    numbers: &[u32],
    program_rows: &RcSlice<ProgramRow>,
    weight: u64,
    dictionaries: &Dictionaries,
    at: usize,
    solution: &BasicSolution,
) -> Result<FinalNumbers, AllocError>
    requires there { at < length dictionaries.now.all }
    requires kept { (costs : List ℤ) × IsKept program_rows.now.items.value.items weight costs (kept_at dictionaries.now.all at) }
    requires at_dictionary { IsAt program_rows.now.items.value.items weight (kept_at dictionaries.now.all at) solution.now }
    ensures place { IfOk result (λ n. n.place ≡ Place.Done) }
    ensures pivots { IfOk result (λ n. n.pivots ≡ solution.now.pivots) }
    ensures numbers { IfOk result (AreNumbersOf (view_of numbers.now program_rows.now.items.value.items (kept_at dictionaries.now.all at) solution.now)) }
{
    let number = dictionaries.divisor(at).number();
    let positions = dictionaries.positions(alloc, at)?;
    let denominator = common_denominator(
        program_rows,
        weight,
        &positions,
        &solution.nonbasic_values,
        &solution.values,
        number,
    );
    let point = column_values(
        alloc,
        &positions,
        &solution.nonbasic_values,
        &solution.values,
        number,
    )?;
    let multipliers = mult_of_cost(
        alloc,
        numbers,
        &positions,
        dictionaries.reduced_costs(at),
        number,
    )?;
    Ok(FinalNumbers {
        place: Place::Done,
        pivots: solution.pivots,
        denominator,
        point,
        multipliers,
    })
}

/// What is asked of the tableau of a solution at the dictionary of place `at`, where a run ended, by that tableau. The error inside says that the run is
/// given up, and how many pivots were made before. The one error outside is want of memory.
fn numbers_by_tableau(
    alloc: Global,
    numbers: &[u32],
    program_rows: &RcSlice<ProgramRow>,
    weight: u64,
    dictionaries: &Dictionaries,
    place: Place,
    at: usize,
    solution: BasicSolution,
) -> Result<Result<FinalNumbers, u64>, AllocError>
    requires kept { AreKeptOf program_rows.now.items.value.items weight dictionaries.now }
    requires ended { (cap : ℕ) × (e : RunEnd) × IsKeptEnd numbers.now program_rows.now.items.value.items weight dictionaries.now cap e place at solution }
    ensures numbers { (cap : ℕ) (start : Tableau) → IsKeptEnd numbers.now program_rows.now.items.value.items weight dictionaries.now cap (run_from cap start) place at solution → IfOk result (λ r. IfOk r (AreNumbersWithin cap start)) }
    ensures given_up { IfOk result (λ r. IfErr r (λ made. made ≡ solution.pivots)) }
{
    let made = solution.pivots;
    match solution.into_tableau(alloc, numbers, program_rows, weight, dictionaries, at) {
        Ok(tableau) => Ok(Ok(tableau.final_numbers(alloc, place)?)),
        Err(_) => Ok(Err(made)),
    }
}

/// The same, without the tableau where it is done; the solution is spare then.
fn numbers_at_end(
    alloc: Global,
    numbers: &[u32],
    program_rows: &RcSlice<ProgramRow>,
    weight: u64,
    dictionaries: &Dictionaries,
    place: Place,
    at: usize,
    solution: BasicSolution,
    spare: &mut BasicSolution,
) -> Result<Result<FinalNumbers, u64>, AllocError>
    requires kept { AreKeptOf program_rows.now.items.value.items weight dictionaries.now }
    requires ended { (cap : ℕ) × (e : RunEnd) × IsKeptEnd numbers.now program_rows.now.items.value.items weight dictionaries.now cap e place at solution }
    ensures numbers { (cap : ℕ) (start : Tableau) → IsKeptEnd numbers.now program_rows.now.items.value.items weight dictionaries.now cap (run_from cap start) place at solution → IfOk result (λ r. IfOk r (AreNumbersWithin cap start)) }
    ensures given_up { IfOk result (λ r. IfErr r (λ made. made ≡ solution.pivots)) }
{
    match place {
        Place::Done => {
            let done = numbers_where_done(
                alloc,
                numbers,
                program_rows,
                weight,
                dictionaries,
                at,
                &solution,
            )?;
            *spare = solution;
            Ok(Ok(done))
        }
        _ => numbers_by_tableau(
            alloc,
            numbers,
            program_rows,
            weight,
            dictionaries,
            place,
            at,
            solution,
        ),
    }
}

impl StoredEnd {
    /// What is asked of the tableau there. The solution, of which no tableau is made, is spare then. The error inside says that the run is
    /// given up, and how many pivots were made before. The one error outside is want of memory.
    pub(crate) fn final_numbers(
        self,
        alloc: Global,
        numbers: &[u32],
        program_rows: &RcSlice<ProgramRow>,
        weight: u64,
        dictionaries: &Dictionaries,
        spare: &mut BasicSolution,
    ) -> Result<Result<FinalNumbers, u64>, AllocError>
        requires kept { AreKeptOf program_rows.now.items.value.items weight dictionaries.now }
        requires ended { (cap : ℕ) × (e : RunEnd) × IsStoredEnd numbers.now program_rows.now.items.value.items weight dictionaries.now cap e self }
        ensures numbers { (cap : ℕ) (start : Tableau) → IsStoredEnd numbers.now program_rows.now.items.value.items weight dictionaries.now cap (run_from cap start) self → IfOk result (λ r. IfOk r (AreNumbersWithin cap start)) }
        ensures given_up { (cap : ℕ) (e : RunEnd) → IsStoredEnd numbers.now program_rows.now.items.value.items weight dictionaries.now cap e self → IfOk result (λ r. IfErr r (λ made. made ≤ cap)) }
    {
        match self {
            StoredEnd::Kept {
                place,
                at,
                solution,
            } => numbers_at_end(
                alloc,
                numbers,
                program_rows,
                weight,
                dictionaries,
                place,
                at,
                solution,
                spare,
            ),
            StoredEnd::Alone(end) => Ok(Ok(end.tableau.final_numbers(alloc, end.place)?)),
        }
    }
}
