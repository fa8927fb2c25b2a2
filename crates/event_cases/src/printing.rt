//! How events are printed.

use case_tools::Sum;
use node_events::{Event, Mult, Proof, RationalPoint, Reason};
use problem::Point;
use std::io;

/// Prints the closing by multipliers of rows.
fn show_refuted<R: Print>(rt: &R, mult: &Mult) -> io::Result<()> {
    let (count, sum) = (mult.len(), Sum(mult.as_slice()));
    println!(rt; "refuted by {count}: {sum}")
}

/// Prints the closing by a bound.
fn show_bound<R: Print>(rt: &R, mult: &Mult, rounded: bool) -> io::Result<()> {
    let is_empty = mult.is_empty();
    println!(rt; "bound, rounded {rounded}, by no row {is_empty}")
}

/// Prints a proof and ends the line.
fn show_proof<R: Print>(rt: &R, proof: &Proof) -> io::Result<()> {
    match proof {
        Proof::Empty { column } => println!(rt; "empty at {column}"),
        Proof::Refute { mult } => show_refuted(rt, mult),
        Proof::Bound { mult, rounded } => show_bound(rt, mult, *rounded),
    }
}

/// Prints the numbers of a point.
fn show_numbers<R: Print>(rt: &R, point: &RationalPoint) -> io::Result<()> {
    for column in 0..point.len() {
        let number = point.get(column);
        print!(rt; " {number}")?;
    }
    Ok(())
}

/// Prints the reason by a point.
fn show_fractional<R: Print>(rt: &R, cuts: u32, point: &RationalPoint) -> io::Result<()> {
    print!(rt; "fractional with {cuts} cuts at")?;
    show_numbers(rt, point)?;
    let (count, is_empty) = (point.len(), point.is_empty());
    println!(rt; ", of {count} columns, of none {is_empty}")
}

/// Prints a reason and ends the line.
fn show_reason<R: Print>(rt: &R, reason: &Reason) -> io::Result<()> {
    match reason {
        Reason::Fractional { cuts, point } => show_fractional(rt, *cuts, point),
        Reason::Cramped { cuts, pivots } => {
            println!(rt; "cramped with {cuts} cuts after {pivots} pivots")
        }
        Reason::Stalled { cuts } => println!(rt; "stalled with {cuts} cuts"),
    }
}

/// Prints a cut.
fn show_cut<R: Print>(rt: &R, mult: &Mult) -> io::Result<()> {
    let sum = Sum(mult.terms().as_slice());
    println!(rt; "event cut: {sum}")
}

/// Prints an offer.
fn show_offer<R: Print>(rt: &R, point: &Point) -> io::Result<()> {
    let numbers = point.as_slice();
    println!(rt; "event offer {numbers:?}")
}

/// Prints a split.
fn show_split<R: Print>(
    rt: &R,
    (node, column): (u32, u32),
    bound: i64,
    reason: &Reason,
) -> io::Result<()> {
    print!(rt; "event split {node} in {column} at {bound}: ")?;
    show_reason(rt, reason)
}

/// Prints a closing.
fn show_close<R: Print>(rt: &R, node: u32, proof: &Proof) -> io::Result<()> {
    print!(rt; "event close {node}: ")?;
    show_proof(rt, proof)
}

/// Prints an event.
pub(crate) fn show_event<R: Print>(rt: &R, event: &Event) -> io::Result<()> {
    match event {
        Event::Claim { node } => println!(rt; "event claim {node}"),
        Event::Release { node } => println!(rt; "event release {node}"),
        Event::Cut { mult } => show_cut(rt, mult),
        Event::Offer { point } => show_offer(rt, point),
        Event::Split {
            node,
            column,
            bound,
            reason,
        } => show_split(rt, (*node, *column), *bound, reason),
        Event::Close { node, proof } => show_close(rt, *node, proof),
    }
}
