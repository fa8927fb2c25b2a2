// Runs over boxes of one linear program, which go by dictionaries that earlier ones have left.

use crate::ends::End;
use crate::worked::show_some;
use anyhow::{Result, bail};
use case_tools::problem_of;
use integer_tableau::{FinalNumbers, IntegerProgram};
use problem_box::{IntBox, Span};
use std::alloc::{AllocError, Global};
use std::io;
use tableau::LinearProgram;

/// Minimise -3x - 4y where 2x + y <= 4 and x + 2y <= 6, x and y from 0 to 3: the program by hand of the page on linear programs.
const BY_HAND: &[u8] =
    b"ROWS\n N o\n L r\n L s\nCOLUMNS\n m 'MARKER' 'INTORG'\n x o -3 r 2\n x s 1\n y o -4 r 1\n y s 2\nRHS\n r 4 s 6\nBOUNDS\n UP x 3\n UP y 3\nENDATA\n";

/// The same with a further row, x + y <= 3, as a cut puts it behind the others.
const WITH_A_CUT: &[u8] =
    b"ROWS\n N o\n L r\n L s\n L t\nCOLUMNS\n m 'MARKER' 'INTORG'\n x o -3 r 2\n x s 1 t 1\n y o -4 r 1\n y s 2 t 1\nRHS\n r 4 s 6\n t 3\nBOUNDS\n UP x 3\n UP y 3\nENDATA\n";

/// The same but for a row before it, x + 3y <= 6.
const WITH_ANOTHER_ROW: &[u8] =
    b"ROWS\n N o\n L r\n L s\n L t\nCOLUMNS\n m 'MARKER' 'INTORG'\n x o -3 r 2\n x s 1 t 1\n y o -4 r 1\n y s 3 t 1\nRHS\n r 4 s 6\n t 3\nBOUNDS\n UP x 3\n UP y 3\nENDATA\n";

/// Bounds of x: its box thrice, of which the first two runs keep no dictionaries, those of its children, its box once more. All pivots to kept
/// dictionaries are those of noted edges.
const CHILDREN: [(i64, i64); 6] = [(0, 3), (0, 3), (0, 3), (0, 0), (1, 3), (0, 3)];

/// Bounds of x with which the fourth run comes to the basis of the third by other pivots. So no edge to it is noted, and it is found by its basis.
const SAME_BASIS: [(i64, i64); 4] = [(0, 3), (0, 3), (1, 1), (1, 3)];

/// The box of x.
const BOX: [(i64, i64); 1] = [(0, 3)];

/// Bounds of x for runs whose tableaus aren't made. The first two keep no dictionaries.
const ENDS: [(i64, i64); 4] = [(0, 3), (0, 3), (0, 3), (1, 3)];

/// The box of x from one bound to another, and of y from 0 to 3. The one error is want of memory.
fn area_of(alloc: Global, low: i64, high: i64) -> Result<IntBox, AllocError> {
    let spans = vec![in alloc; Span { lo: low, hi: high }, Span { lo: 0, hi: 3 }]?;
    Ok(IntBox::make(spans))
}

/// Prints how a run over a box ends, and how many pivots of all runs so far went to a dictionary that was kept already.
fn show_run<R: Print + Alloc<A = Global>>(
    rt: &R,
    program: &mut IntegerProgram,
    low: i64,
    high: i64,
) -> Result<()> {
    let area = area_of(rt.alloc(), low, high)?;
    if program.columns() != area.len() {
        bail!("another number of columns");
    }
    let Some(Ok(end)) = program.run_over(rt.alloc(), &area, 180)? else {
        bail!("a run that is given up");
    };
    let (place, pivots, kept) = (end.place, end.tableau.pivots(), program.kept_pivots());
    println!(rt;
        "run over x from {low} to {high}: {place:?} after {pivots} pivots, {kept} by kept dictionaries so far"
    )?;
    Ok(())
}

/// Prints the numbers at the end of a run.
fn show_final<R: Print>(rt: &R, numbers: FinalNumbers) -> io::Result<()> {
    let end = End {
        place: numbers.place,
        pivots: numbers.pivots,
        point: numbers.point,
        multipliers: numbers.multipliers,
    };
    show_some(rt, "that isn't made", &end)
}

/// Prints the same of a run over a box, whose tableau isn't made.
fn show_numbers<R: Print + Alloc<A = Global>>(
    rt: &R,
    program: &mut IntegerProgram,
    low: i64,
    high: i64,
) -> Result<()> {
    let area = area_of(rt.alloc(), low, high)?;
    if program.columns() != area.len() {
        bail!("another number of columns");
    }
    let Some(Ok(numbers)) = program.numbers_over(rt.alloc(), &area, 180)? else {
        bail!("a run that is given up");
    };
    Ok(show_final(rt, numbers)?)
}

/// The program of a model on whole numbers.
fn program_of(alloc: Global, model: &[u8]) -> Result<IntegerProgram> {
    let problem = problem_of(alloc, model)?;
    let whole = LinearProgram::of(alloc, &problem, problem.root())?;
    match IntegerProgram::of(alloc, &whole)? {
        Some(program) => Ok(program),
        None => bail!("a program of other numbers"),
    }
}

/// Prints runs of a program over these bounds of x.
fn show_each<R: Print + Alloc<A = Global>>(
    rt: &R,
    program: &mut IntegerProgram,
    bounds: &[(i64, i64)],
) -> Result<()> {
    for (low, high) in bounds {
        show_run(rt, program, *low, *high)?;
    }
    Ok(())
}

/// Prints runs over these bounds of x, which share dictionaries.
fn show_runs<R: Print + Alloc<A = Global>>(rt: &R, bounds: &[(i64, i64)]) -> Result<()> {
    let mut program = program_of(rt.alloc(), BY_HAND)?;
    show_each(rt, &mut program, bounds)
}

/// Prints runs of the program of a model, which takes over what runs of another one left, if it may.
fn show_taken<R: Print + Alloc<A = Global>>(
    rt: &R,
    model: &[u8],
    first: &mut IntegerProgram,
) -> Result<()> {
    let mut program = program_of(rt.alloc(), model)?;
    program.take_kept(rt.alloc(), first);
    show_each(rt, &mut program, &BOX)
}

/// Prints runs of the program by hand, and those of the program of a model that may take over what they left.
fn show_further<R: Print + Alloc<A = Global>>(rt: &R, model: &[u8]) -> Result<()> {
    let mut first = program_of(rt.alloc(), BY_HAND)?;
    show_each(rt, &mut first, &CHILDREN)?;
    show_taken(rt, model, &mut first)
}

/// Prints the numbers at the ends of such runs.
fn show_all_numbers<R: Print + Alloc<A = Global>>(rt: &R, bounds: &[(i64, i64)]) -> Result<()> {
    let mut program = program_of(rt.alloc(), BY_HAND)?;
    for (low, high) in bounds {
        show_numbers(rt, &mut program, *low, *high)?;
    }
    Ok(())
}

/// Prints the runs.
pub(crate) fn show<R: Print + Alloc<A = Global>>(rt: &R) -> Result<()> {
    show_runs(rt, &CHILDREN)?;
    println!(rt; "a program of its own, of the same rows")?;
    show_runs(rt, &SAME_BASIS)?;
    println!(rt; "a program with a further row goes on with what these runs leave")?;
    show_further(rt, WITH_A_CUT)?;
    println!(rt; "one with another row before it doesn't")?;
    show_further(rt, WITH_ANOTHER_ROW)?;
    show_all_numbers(rt, &ENDS)
}
