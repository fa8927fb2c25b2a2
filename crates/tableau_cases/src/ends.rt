// How runs of the dual simplex end, in each form of the tableau.

ghost use Rattle.std.specs.Prelude.{◌≡◌, IfOk, IfSome, length};
ghost use Rattle.tableau.specs.Place.{PlaceIsWithin};

use anyhow::{Result, bail};
use fraction::{Frac, same};
use integer_tableau::{IntegerProgram, IntegerRunEnd, IntegerTableau};
use problem::{Term, Terms};
use problem_box::IntBox;
use scaled_program::{ScaledProgram, ScaledRunEnd, ScaledTableau};
use std::alloc::{AllocError, Global};
use tableau::{LinearProgram, Place, Tableau};

/// How a run ends.
#[derive(Drop)]
pub(crate) struct End {
    pub(crate) place: Place,
    pub(crate) pivots: u64,
    pub(crate) point: Vec<Frac>,
    /// The multipliers that refute the program, where it has no point, and else those of the reduced costs.
    pub(crate) multipliers: Terms,
}

/// The multipliers of a tableau on fractions at this place.
fn fraction_multipliers(alloc: Global, tableau: &Tableau, place: Place) -> Result<Terms, AllocError>
    requires { PlaceIsWithin (length tableau.now.statuses) place }
{
    match place {
        Place::NoColumn { row } => tableau.mult_of_row(alloc, row),
        _ => tableau.mult_of_cost(alloc),
    }
}

/// The end of a run on fractions, of at most so many pivots, from the start.
fn fraction_run(
    alloc: Global,
    tableau: &mut Tableau,
    pivots: u32,
) -> Result<Option<End>, AllocError>
    requires { tableau.old.pivots ≡ 0 }
{
    let place = tableau.run(alloc, u64::from(pivots))?;
    let multipliers = fraction_multipliers(alloc, tableau, place)?;
    let point = tableau.point(alloc)?;
    Ok(Some(End {
        place,
        pivots: tableau.pivots(),
        point,
        multipliers,
    }))
}

/// The end of a run of at most so many pivots on fractions; none where its start is cramped.
fn fraction_end(
    alloc: Global,
    program: LinearProgram,
    pivots: u32,
) -> Result<Option<End>, AllocError> {
    match Tableau::start(alloc, program)? {
        Some(mut tableau) => fraction_run(alloc, &mut tableau, pivots),
        None => Ok(None),
    }
}

/// The multipliers of a tableau on whole numbers at this place.
fn integer_multipliers(
    alloc: Global,
    tableau: &IntegerTableau,
    place: Place,
) -> Result<Terms, AllocError>
    requires { PlaceIsWithin (length tableau.now.statuses) place }
{
    match place {
        Place::NoColumn { row } => tableau.mult_of_row(alloc, row),
        _ => tableau.mult_of_cost(alloc),
    }
}

/// The end of a run on whole numbers that left this tableau at this place.
fn end_at(alloc: Global, tableau: &IntegerTableau, place: Place) -> Result<Option<End>, AllocError>
    requires { PlaceIsWithin (length tableau.now.statuses) place }
{
    let multipliers = integer_multipliers(alloc, tableau, place)?;
    let point = tableau.point(alloc)?;
    Ok(Some(End {
        place,
        pivots: tableau.pivots(),
        point,
        multipliers,
    }))
}

/// The end on whole numbers, where the run came to one. The one error is want of memory.
fn end_of(alloc: Global, run: Result<IntegerRunEnd, u64>) -> Result<Option<End>, AllocError>
    requires { IfOk run (λ e. PlaceIsWithin (length e.tableau.statuses) e.place) }
{
    match run {
        Ok(end) => end_at(alloc, &end.tableau, end.place),
        Err(_) => Ok(None),
    }
}

/// The tableau on whole numbers at its start; none where it is given up.
fn integer_start(
    alloc: Global,
    program: &LinearProgram,
    area: &IntBox,
) -> Result<Option<IntegerTableau>, AllocError>
    requires { length area.now ≡ length program.now.costs }
    ensures { IfOk result (λ o. IfSome o (λ t. t.pivots ≡ 0)) }
{
    match IntegerProgram::of(alloc, program)? {
        Some(program) => IntegerTableau::start(alloc, &program, area),
        None => Ok(None),
    }
}

/// The end of a run of at most so many pivots on whole numbers; none where it is given up.
fn integer_end(
    alloc: Global,
    program: &LinearProgram,
    area: &IntBox,
    pivots: u32,
) -> Result<Option<End>, AllocError>
    requires { length area.now ≡ length program.now.costs }
{
    match integer_start(alloc, program, area)? {
        Some(start) => end_of(alloc, start.run(u64::from(pivots))),
        None => Ok(None),
    }
}

/// The multipliers of a tableau on scaled numbers at this place.
fn scaled_multipliers(
    alloc: Global,
    tableau: &ScaledTableau,
    place: Place,
) -> Result<Terms, AllocError>
    requires { PlaceIsWithin (length tableau.now.statuses) place }
{
    match place {
        Place::NoColumn { row } => tableau.mult_of_row(alloc, row),
        _ => tableau.mult_of_cost(alloc),
    }
}

/// The end of a run on scaled numbers that left this tableau at this place.
fn scaled_end_at(
    alloc: Global,
    tableau: &ScaledTableau,
    place: Place,
) -> Result<Option<End>, AllocError>
    requires { PlaceIsWithin (length tableau.now.statuses) place }
{
    let multipliers = scaled_multipliers(alloc, tableau, place)?;
    let point = tableau.point(alloc)?;
    Ok(Some(End {
        place,
        pivots: tableau.pivots(),
        point,
        multipliers,
    }))
}

/// The end on scaled numbers, where the run came to one. The one error is want of memory.
fn scaled_end_of(alloc: Global, run: Result<ScaledRunEnd, u64>) -> Result<Option<End>, AllocError>
    requires { IfOk run (λ e. PlaceIsWithin (length e.tableau.statuses) e.place) }
{
    match run {
        Ok(end) => scaled_end_at(alloc, &end.tableau, end.place),
        Err(_) => Ok(None),
    }
}

/// The tableau on scaled numbers at its start; none where it is given up.
fn scaled_start(
    alloc: Global,
    program: &LinearProgram,
    area: &IntBox,
) -> Result<Option<ScaledTableau>, AllocError>
    requires { length area.now ≡ length program.now.costs }
    ensures { IfOk result (λ o. IfSome o (λ t. t.pivots ≡ 0)) }
{
    match ScaledProgram::of(alloc, program)? {
        Some(program) => ScaledTableau::start(alloc, &program, area),
        None => Ok(None),
    }
}

/// The end of a run of at most so many pivots on scaled numbers; none where it is given up.
fn scaled_end(
    alloc: Global,
    program: &LinearProgram,
    area: &IntBox,
    pivots: u32,
) -> Result<Option<End>, AllocError>
    requires { length area.now ≡ length program.now.costs }
{
    match scaled_start(alloc, program, area)? {
        Some(start) => scaled_end_of(alloc, start.run(u64::from(pivots))),
        None => Ok(None),
    }
}

/// A form of the tableau.
#[derive(Clone, Copy)]
pub(crate) enum Form {
    Integers,
    Scaled,
    Fractions,
}

/// The end of a run of at most so many pivots in a form; none where it is given up, or its start is cramped.
fn end_in_form(
    alloc: Global,
    form: Form,
    program: LinearProgram,
    area: &IntBox,
    pivots: u32,
) -> Result<Option<End>, AllocError>
    requires { length area.now ≡ length program.costs }
{
    match form {
        Form::Integers => integer_end(alloc, &program, area, pivots),
        Form::Scaled => scaled_end(alloc, &program, area, pivots),
        Form::Fractions => fraction_end(alloc, program, pivots),
    }
}

/// The same. A box of other columns is an error.
pub(crate) fn end_in(
    alloc: Global,
    form: Form,
    program: LinearProgram,
    area: &IntBox,
    pivots: u32,
) -> Result<Option<End>> {
    if area.len() != program.columns() {
        bail!("a linear program of other columns");
    }
    Ok(end_in_form(alloc, form, program, area, pivots)?)
}

/// Whether two points are the same.
fn same_points(left: &[Frac], right: &[Frac]) -> bool {
    left.len() == right.len() && left.iter().zip(right).all(|(x, y)| same(*x, *y))
}

/// Whether two lists of multipliers are the same.
fn same_terms(left: &[Term], right: &[Term]) -> bool {
    left.len() == right.len()
        && left.iter().zip(right).all(|(x, y)| x.column() == y.column()
            && same(x.coefficient(), y.coefficient()))
}

impl End {
    /// Whether another run ends alike.
    pub(crate) fn is_same(&self, other: &End) -> bool {
        self.place == other.place
            && self.pivots == other.pivots
            && same_points(&self.point, &other.point)
            && same_terms(self.multipliers.as_slice(), other.multipliers.as_slice())
    }
}
