// The text of a finding.
ghost use Rattle.std.specs.Prelude.{◌≡◌, OnOk};
ghost use Rattle.crew.specs.WorkerSteps.{step_of};
ghost use Rattle.crew.specs.declared.node_work.Step.{Step};

use anyhow::{Result, bail};
use case_tools::Sum;
use expand::Finding;
use node_events::{Mult, RationalPoint};
use std::io;

/// Prints the numbers of a point, as `[1, 1/2]`.
fn show_point<R: Print>(rt: &R, point: &RationalPoint) -> io::Result<()> {
    let mut gap = "";
    print!(rt; "[")?;
    for column in 0..point.len() {
        let number = point.get(column);
        print!(rt; "{gap}{number}")?;
        gap = ", ";
    }
    print!(rt; "]")
}

/// Prints multipliers.
fn show_multipliers<R: Print>(rt: &R, mult: &Mult) -> io::Result<()> {
    if mult.is_empty() {
        return print!(rt; "no row");
    }
    let sum = Sum(mult.as_slice());
    print!(rt; "{sum}")
}

/// Prints a point, the multipliers that bound it, and the column to split in, and ends the line.
fn show_solved<R: Print>(
    rt: &R,
    point: &RationalPoint,
    mult: &Mult,
    column: Option<u32>,
) -> io::Result<()> {
    show_point(rt, point)?;
    print!(rt; " by ")?;
    show_multipliers(rt, mult)?;
    println!(rt; ", column {column:?}")
}

/// Prints the optimum of a node's relaxation, and ends the line. Another finding is an error.
pub(crate) fn show_optimum<R: Print>(rt: &R, finding: &Finding) -> Result<()>
    ensures { OnOk result (step_of finding.now ≡ Step.Ended) }
{
    let Finding::Solved {
        cuts,
        point,
        mult,
        value,
        column,
    } = finding
    else {
        bail!("no optimum was found");
    };
    print!(rt; "{cuts} cuts, {value} at ")?;
    show_solved(rt, point, mult, *column)?;
    Ok(())
}
