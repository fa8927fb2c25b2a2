// Linear programs that were worked out by hand.

use crate::ends::{End, Form, end_in};
use anyhow::{Result, bail};
use case_tools::{Sum, problem_of};
use fraction::Frac;
use problem::{Problem, Row, Sense, Terms};
use std::alloc::Global;
use std::io;
use tableau::LinearProgram;

/// Minimise x where 2x >= 3, x from 0 to 5.
const ROW: &[u8] =
    b"ROWS\n N o\n G r\nCOLUMNS\n m 'MARKER' 'INTORG'\n x o 1 r 2\nRHS\n r 3\nBOUNDS\n UP x 5\nENDATA\n";

/// 2x + 2y = 3, x at 0 and y from 0 to 1, without an objective.
const NO_COLUMN: &[u8] =
    b"ROWS\n N o\n E r\nCOLUMNS\n m 'MARKER' 'INTORG'\n x r 2\n y r 2\nRHS\n r 3\nBOUNDS\n UP x 0\n UP y 1\nENDATA\n";

/// Minimise x where x/2 >= 3, x from 0 to 5.
const HALF: &[u8] =
    b"ROWS\n N o\n G r\nCOLUMNS\n m 'MARKER' 'INTORG'\n x o 1 r 0.5\nRHS\n r 3\nBOUNDS\n UP x 5\nENDATA\n";

/// Minimise -1.5x - 2y where 0.4x + 0.2y <= 0.8 and x/4 + y/2 <= 1.5, x and y from 0 to 3: the program by hand of the page on linear programs, with
/// its objective and rows over 2, 5 and 4.
const DECIMALS: &[u8] =
    b"ROWS\n N o\n L r\n L s\nCOLUMNS\n m 'MARKER' 'INTORG'\n x o -1.5 r 0.4\n x s 0.25\n y o -2 r 0.2\n y s 0.5\nRHS\n r 0.8 s 1.5\nBOUNDS\n UP x 3\n UP y 3\nENDATA\n";

/// A program with its name, whether the cut x >= 2 stands behind its row, and how many pivots its runs make at most.
type Case = (&'static str, &'static [u8], bool, u32);

/// A row, that row and its cut up to the first pivot and to the end, two programs without a point, of which the second has a coefficient that isn't
/// whole, and one with decimals in the objective and in each row.
const CASES: [Case; 6] = [
    ("2x >= 3", ROW, false, 140),
    ("2x >= 3 and x >= 2, one pivot", ROW, true, 1),
    ("2x >= 3 and x >= 2", ROW, true, 160),
    ("2x + 2y = 3, x = 0", NO_COLUMN, false, 160),
    ("x/2 >= 3", HALF, false, 140),
    (
        "0.4x + 0.2y <= 0.8 and x/4 + y/2 <= 1.5",
        DECIMALS,
        false,
        180,
    ),
];

/// Puts the cut x >= 2 behind the rows of a program.
fn add_cut(alloc: Global, program: &mut LinearProgram) -> Result<()> {
    if program.rows() > 1_000 || program.columns() > 1_000 {
        bail!("a linear program that is large");
    }
    let terms = Terms::make(alloc, &[(0, Frac::of(1))])?;
    let cut = Row {
        sense: Sense::G,
        rhs: Frac::of(2),
        terms,
    };
    Ok(program.add_cut(alloc, &cut)?)
}

/// The linear program of a problem over its box, with the cut behind its rows if that is asked for.
fn program_of(alloc: Global, problem: &Problem, with_cut: bool) -> Result<LinearProgram> {
    let mut program = LinearProgram::of(alloc, problem, problem.root())?;
    if with_cut {
        add_cut(alloc, &mut program)?;
    }
    Ok(program)
}

/// Prints the values of the columns.
fn show_point<R: Print>(rt: &R, point: &[Frac]) -> io::Result<()> {
    for number in point {
        print!(rt; " {number}")?;
    }
    Ok(())
}

/// Prints what the tableau asks for at an end, the values of the columns, and the multipliers of the rows.
pub(crate) fn show_some<R: Print>(rt: &R, run: &str, end: &End) -> io::Result<()> {
    let (place, pivots) = (end.place, end.pivots);
    print!(rt; "tableau {run}: {place:?} after {pivots} pivots, at")?;
    show_point(rt, &end.point)?;
    let multipliers = Sum(end.multipliers.as_slice());
    println!(rt; ", by {multipliers}")
}

/// Prints how a run ends.
fn show_end<R: Print>(rt: &R, run: &str, end: &Option<End>) -> io::Result<()> {
    match end {
        Some(end) => show_some(rt, run, end),
        None => println!(rt; "tableau {run}: given up"),
    }
}

/// The forms of the tableau, as they are printed.
const FORMS: [(&str, Form); 3] = [
    ("on whole numbers", Form::Integers),
    ("on scaled numbers", Form::Scaled),
    ("on fractions", Form::Fractions),
];

/// The end of a case's run in a form.
fn end_of(alloc: Global, problem: &Problem, case: &Case, form: Form) -> Result<Option<End>> {
    let (_, _, with_cut, pivots) = *case;
    let program = program_of(alloc, problem, with_cut)?;
    end_in(alloc, form, program, problem.root(), pivots)
}

/// Prints how a case's run in a form ends.
fn show_form<R: Print + Alloc<A = Global>>(
    rt: &R,
    problem: &Problem,
    case: &Case,
    (run, form): (&str, Form),
) -> Result<()> {
    let end = end_of(rt.alloc(), problem, case, form)?;
    Ok(show_end(rt, run, &end)?)
}

/// Prints the title of a case, and how the runs of its problem end in each form.
fn show_forms<R: Print + Alloc<A = Global>>(rt: &R, problem: &Problem, case: &Case) -> Result<()> {
    let title = case.0;
    println!(rt; "tableau of {title}")?;
    for form in &FORMS {
        show_form(rt, problem, case, *form)?;
    }
    Ok(())
}

/// Prints a case.
fn show_case<R: Print + Alloc<A = Global>>(rt: &R, case: &Case) -> Result<()> {
    let problem = problem_of(rt.alloc(), case.1)?;
    show_forms(rt, &problem, case)
}

/// Prints each case.
pub(crate) fn show<R: Print + Alloc<A = Global>>(rt: &R) -> Result<()> {
    for case in &CASES {
        show_case(rt, case)?;
    }
    Ok(())
}
