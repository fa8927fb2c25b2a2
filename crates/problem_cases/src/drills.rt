//! The problem of the model that `drill` makes from a seed.

use anyhow::Result;
use case_tools::{Sum, problem_of};
use drill_instance::generate;
use problem::{Problem, Row};
use std::alloc::Global;
use std::io;

/// Prints a row.
fn show_row<R: Print>(rt: &R, row: &Row) -> io::Result<()> {
    let (sense, rhs, terms) = (row.sense, row.rhs, Sum(row.terms.as_slice()));
    println!(rt; "drill 1 row {sense:?} {rhs}: {terms}")
}

/// Prints how many columns there are, and the objective where each is 1.
fn show_columns<R: Print>(rt: &R, problem: &Problem) -> io::Result<()> {
    let (columns, ones) = (problem.columns(), [1; 30]);
    if !problem.root().holds(&ones) {
        return println!(rt; "drill 1 columns {columns}: not each can be 1");
    }
    let value = problem.value(&ones);
    println!(rt; "drill 1 columns {columns}: objective {value} where each is 1")
}

/// Prints the rows and columns of a problem.
fn show_problem<R: Print>(rt: &R, problem: &Problem) -> Result<()> {
    for index in 0..problem.rows() {
        show_row(rt, problem.row(index))?;
    }
    Ok(show_columns(rt, problem)?)
}

/// The problem of seed 1.
fn drill(alloc: Global) -> Result<Problem> {
    let text = generate(alloc, 1)?;
    problem_of(alloc, &text)
}

/// Prints the problem of seed 1.
pub(crate) fn show<R: Print + Alloc<A = Global>>(rt: &R) -> Result<()> {
    let problem = drill(rt.alloc())?;
    show_problem(rt, &problem)
}
