//! The cut of one row, and the bounds that the row and the cut prove.

ghost use Rattle.std.specs.Prelude.{◌<◌};

use crate::models::made;
use crate::plans::single;
use case_tools::Sum;
use derivation_book::Book;
use fraction::Frac;
use node_events::{Mult, Proof};
use problem::{Problem, Row};
use std::alloc::{AllocError, Global};
use std::io;

/// Minimise x where 2x >= 3, x from 0 to 5. The row has the number 0, the bounds 1 and 2, and a cut 3.
const MODEL: &[u8] =
    b"ROWS\n N o\n G r\nCOLUMNS\n m 'MARKER' 'INTORG'\n x o 1 r 2\nRHS\n r 3\nBOUNDS\n UP x 5\nENDATA\n";

/// Prints the row of a cut.
fn show_row<R: Print>(rt: &R, row: &Row) -> io::Result<()> {
    let (sense, rhs, terms) = (row.sense, row.rhs, Sum(row.terms.as_slice()));
    println!(rt; "cut row {sense:?} {rhs}: {terms}")
}

/// Makes the cut of these multipliers where there is one, and says whether it did.
fn cut_by(alloc: Global, problem: &Problem, book: &mut Book, mult: Mult) -> Result<bool, AllocError>
    requires { 0 < book.old.room }
{
    match book.cg_row(alloc, problem, &mult)? {
        Some(row) => {
            book.add_cut(problem, mult, row);
            Ok(true)
        }
        None => Ok(false),
    }
}

/// Makes the cut of row 0 with a factor where there is one, and prints whether it did.
fn show_cut<R: Print + Alloc<A = Global>>(
    rt: &R,
    problem: &Problem,
    book: &mut Book,
    factor: Frac,
) -> io::Result<()> {
    book.reserve(1)?;
    let mult = single(rt.alloc(), 0, factor)?;
    let is_cut = cut_by(rt.alloc(), problem, book, mult)?;
    println!(rt; "cut by {factor} of row 0: {is_cut}")
}

/// The proof by a factor of a row, which isn't rounded.
fn bound(alloc: Global, row: u32, factor: Frac) -> io::Result<Proof> {
    let mult = single(alloc, row, factor)?;
    Ok(Proof::Bound {
        mult,
        rounded: false,
    })
}

/// Whether a factor of a row proves that the objective is at least the cutoff.
fn is_proved(
    alloc: Global,
    problem: &Problem,
    book: &Book,
    (row, factor): (u32, Frac),
    cutoff: i8,
) -> io::Result<bool> {
    let proof = bound(alloc, row, factor)?;
    let limit = Some(Frac::of(i128::from(cutoff)));
    Ok(book.admits(alloc, problem, problem.root(), limit, &proof)?)
}

/// Prints whether a factor of a row proves that the objective is at least the cutoff.
fn show_bound<R: Print + Alloc<A = Global>>(
    rt: &R,
    problem: &Problem,
    book: &Book,
    (row, factor): (u32, Frac),
    cutoff: i8,
) -> io::Result<()> {
    let is_proved = is_proved(rt.alloc(), problem, book, (row, factor), cutoff)?;
    println!(rt; "cut bound {cutoff} by {factor} of row {row}: {is_proved}")
}

/// Prints what a cut is made by.
fn show_made<R: Print>(rt: &R, mult: &Mult) -> io::Result<()> {
    let mult = Sum(mult.as_slice());
    println!(rt; "cut made by {mult}")
}

/// Prints the cuts of a book.
fn show_book<R: Print>(rt: &R, book: &Book) -> io::Result<()> {
    let (count, is_empty) = (book.len(), book.is_empty());
    println!(rt; "cut book: cuts {count}, empty {is_empty}")?;
    for index in 0..book.len() {
        show_row(rt, book.cut(index))?;
        show_made(rt, book.mult(index))?;
    }
    Ok(())
}

/// Prints the cut of a factor of the wrong sign, that of the right one, and the bounds before and behind it.
fn show_cuts<R: Print + Alloc<A = Global>>(
    rt: &R,
    problem: &Problem,
    book: &mut Book,
) -> io::Result<()> {
    let half = Frac::make(1, 2);
    show_book(rt, book)?;
    show_bound(rt, problem, book, (0, half), 2)?;
    show_cut(rt, problem, book, half.neg())?;
    show_cut(rt, problem, book, half)?;
    show_book(rt, book)?;
    show_bound(rt, problem, book, (3, Frac::of(1)), 2)?;
    show_bound(rt, problem, book, (3, Frac::of(1)), 3)
}

/// Prints the cuts of the model, and its bounds.
pub(crate) fn show<R: Print + Alloc<A = Global>>(rt: &R) -> io::Result<()> {
    let problem = made(rt.alloc(), MODEL)?;
    let mut book = Book::make(rt.alloc());
    show_cuts(rt, &problem, &mut book)
}
