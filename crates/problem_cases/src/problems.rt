//! Copies of names, points, rows and problems, and the values of a problem.

use anyhow::Result;
use case_tools::{Spans, Sum, problem_of};
use fraction::Frac;
use problem::{Names, Point, Problem, Row, Sense, Terms};
use std::alloc::{AllocError, Global};
use std::io;

/// Minimise x + y/2 where x - 2y >= 1, x from 0 to 9 and y from 0 to 3.
const MODEL: &[u8] =
    b"ROWS\n N o\n G r\nCOLUMNS\n m 'MARKER' 'INTORG'\n x o 1 r 1\n y o 0.5 r -2\nRHS\n r 1\nBOUNDS\n UP x 9\n UP y 3\nENDATA\n";

/// The same objective, maximised.
const MAXIMISED: &[u8] =
    b"OBJSENSE MAX\nROWS\n N o\n G r\nCOLUMNS\n m 'MARKER' 'INTORG'\n x o 1 r 1\n y o 0.5 r -2\nRHS\n r 1\nBOUNDS\n UP x 9\n UP y 3\nENDATA\n";

/// Prints a name.
fn show_name<R: Print>(rt: &R, index: usize, name: &[u8]) -> io::Result<()> {
    let name = str::from_utf8(name).unwrap_or("(no text)");
    println!(rt; "problem name {index}: {name}")
}

/// Prints each name.
fn show_names<R: Print>(rt: &R, names: &Names) -> Result<()> {
    for index in 0..names.len() {
        show_name(rt, index, names.name(index))?;
    }
    Ok(())
}

/// Prints a row.
fn show_row<R: Print>(rt: &R, row: &Row) -> Result<()> {
    let (sense, rhs, terms) = (row.sense, row.rhs, Sum(row.terms.as_slice()));
    let (count, are_whole) = (row.terms.len(), row.terms.are_whole());
    println!(rt; "problem row {sense:?} {rhs}: {terms}; terms {count}, whole {are_whole}")?;
    Ok(())
}

/// A copy of names of one column.
fn names_copy(alloc: Global) -> Result<Names, AllocError> {
    let name = String::from_str(alloc, "x")?;
    let names = vec![in alloc; name]?;
    Names::make(names).copy(alloc)
}

/// Prints a point.
fn show_numbers<R: Print>(rt: &R, point: &Point) -> Result<()> {
    let numbers = point.as_slice();
    println!(rt; "problem point {numbers:?}")?;
    Ok(())
}

/// A copy of a point of two columns.
fn point_copy(alloc: Global) -> Result<Point, AllocError> {
    let numbers = vec![in alloc; 3, -4]?;
    Point::make(numbers).copy(alloc)
}

/// Terms of which one has a coefficient of more than 64 bits.
fn wide_terms(alloc: Global) -> Result<Terms, AllocError> {
    let mut terms = Terms::make(alloc, &[(0, Frac::of(2)), (1, Frac::make(1, 2))])?;
    terms.push(2, Frac::of(1 << 70))?;
    Ok(terms)
}

/// A copy of a row of these terms.
fn row_copy(alloc: Global) -> Result<Row, AllocError> {
    let terms = wide_terms(alloc)?;
    let row = Row {
        sense: Sense::L,
        rhs: Frac::of(4),
        terms,
    };
    row.copy(alloc)
}

/// Prints what a problem says of a point.
fn show_point<R: Print>(rt: &R, problem: &Problem, point: &[i64]) -> io::Result<()> {
    if !problem.root().holds(point) {
        return println!(rt; "problem point {point:?} is not in the box");
    }
    let (value, is_feasible) = (problem.value(point), problem.is_feasible(point));
    println!(rt; "problem point {point:?}: objective {value}, feasible {is_feasible}")
}

/// Prints each row.
fn show_rows<R: Print>(rt: &R, problem: &Problem) -> Result<()> {
    for index in 0..problem.rows() {
        show_row(rt, problem.row(index))?;
    }
    Ok(())
}

/// Prints the objective.
fn show_objective<R: Print>(rt: &R, problem: &Problem) -> io::Result<()> {
    let (objective, whole) = (
        Sum(problem.objective().as_slice()),
        problem.whole_objective(),
    );
    println!(rt; "problem objective {objective}; whole {whole}")
}

/// Prints the box.
fn show_root<R: Print>(rt: &R, problem: &Problem) -> io::Result<()> {
    let (columns, root) = (problem.columns(), Spans(problem.root()));
    println!(rt; "problem box {root}, columns {columns}")
}

/// Prints what a problem says of three points.
fn show_points<R: Print>(rt: &R, problem: &Problem) -> io::Result<()> {
    show_point(rt, problem, &[3, 1])?;
    show_point(rt, problem, &[2, 1])?;
    show_point(rt, problem, &[3, 4])
}

/// Prints the parts of a problem, and what it says of points.
fn show_problem<R: Print>(rt: &R, problem: &Problem) -> Result<()> {
    show_names(rt, problem.names())?;
    show_rows(rt, problem)?;
    show_objective(rt, problem)?;
    show_root(rt, problem)?;
    Ok(show_points(rt, problem)?)
}

/// Prints the objective and the aim at a point, where it lies in the box.
fn show_values<R: Print>(rt: &R, problem: &Problem, point: &[i64]) -> io::Result<()> {
    if !problem.root().holds(point) {
        return Ok(());
    }
    let (value, aim) = (problem.value(point), problem.aim_value(point));
    println!(rt; "problem point {point:?}: objective {value}, aim {aim}")
}

/// Prints the sense of a problem and its aim, which is the objective that a search minimises.
fn show_aim<R: Print>(rt: &R, problem: &Problem) -> io::Result<()> {
    let (sense, aim) = (problem.sense(), Sum(problem.aim().as_slice()));
    println!(rt; "problem sense {sense:?}, aim {aim}")?;
    show_values(rt, problem, &[3, 1])
}

/// A copy of a model's problem.
fn problem_copy(alloc: Global, model: &[u8]) -> Result<Problem> {
    let problem = problem_of(alloc, model)?;
    Ok(problem.copy(alloc)?)
}

/// Prints a copy of names.
fn show_names_copy<R: Print + Alloc<A = Global>>(rt: &R) -> Result<()> {
    let copy = names_copy(rt.alloc())?;
    show_names(rt, &copy)
}

/// Prints a copy of a point.
fn show_point_copy<R: Print + Alloc<A = Global>>(rt: &R) -> Result<()> {
    let copy = point_copy(rt.alloc())?;
    show_numbers(rt, &copy)
}

/// Prints a copy of a row.
fn show_row_copy<R: Print + Alloc<A = Global>>(rt: &R) -> Result<()> {
    let copy = row_copy(rt.alloc())?;
    show_row(rt, &copy)
}

/// Prints a copy of a problem.
fn show_problem_copy<R: Print + Alloc<A = Global>>(rt: &R) -> Result<()> {
    let copy = problem_copy(rt.alloc(), MODEL)?;
    show_problem(rt, &copy)
}

/// Prints the aim of a copy of a model's problem.
fn show_aim_of_copy<R: Print + Alloc<A = Global>>(rt: &R, model: &[u8]) -> Result<()> {
    let copy = problem_copy(rt.alloc(), model)?;
    Ok(show_aim(rt, &copy)?)
}

/// Prints the calls on problems and their parts.
pub(crate) fn show<R: Print + Alloc<A = Global>>(rt: &R) -> Result<()> {
    show_names_copy(rt)?;
    show_point_copy(rt)?;
    show_row_copy(rt)?;
    show_problem_copy(rt)?;
    show_aim_of_copy(rt, MODEL)?;
    show_aim_of_copy(rt, MAXIMISED)
}
