// Answers of the dual simplex over boxes, with and without a cut.

ghost use Rattle.std.specs.Prelude.{◌<◌};

use anyhow::{Result, bail};
use case_tools::{Spans, Sum, problem_of};
use derivation_book::Book;
use dual_simplex::{Answer, Relaxation, Solution};
use fraction::Frac;
use node_events::{Mult, RationalPoint};
use problem::Problem;
use problem_box::{IntBox, Span};
use std::alloc::{AllocError, Global};
use std::io;

/// No objective, 2x + 2y = 3, x and y from 0 to 1.
const ODD: &[u8] =
    b"ROWS\n N o\n E r\nCOLUMNS\n m 'MARKER' 'INTORG'\n x r 2\n y r 2\nRHS\n r 3\nBOUNDS\n UP x 1\n UP y 1\nENDATA\n";

/// The same row divided by 4, so that its numbers aren't whole.
const ODD_QUARTERS: &[u8] =
    b"ROWS\n N o\n E r\nCOLUMNS\n m 'MARKER' 'INTORG'\n x r 0.5\n y r 0.5\nRHS\n r 0.75\nBOUNDS\n UP x 1\n UP y 1\nENDATA\n";

/// Minimise x where 2x >= 3, x from 0 to 5.
const HALF: &[u8] =
    b"ROWS\n N o\n G r\nCOLUMNS\n m 'MARKER' 'INTORG'\n x o 1 r 2\nRHS\n r 3\nBOUNDS\n UP x 5\nENDATA\n";

/// Minimise x + y where 700000000.0000001x + 800000000.0000003y >= 10^9 and 900000000.0000007x + 500000000.0000009y >= 10^9, x and y from 0 to 9.
///
/// In the second pivot, 7000000000000001/8000000000000003 is multiplied by a number over 9250000000000003750000000000003, which is too large.
const LARGE: &[u8] =
    b"ROWS\n N o\n G r\n G s\nCOLUMNS\n m 'MARKER' 'INTORG'\n x o 1 r 700000000.0000001\n x s 900000000.0000007\n y o 1 r 800000000.0000003\n y s 500000000.0000009\nRHS\n r 1000000000 s 1000000000\nBOUNDS\n UP x 9\n UP y 9\nENDATA\n";

/// Minimise x + y where 12345.6789x + 23456.7891y >= 50000 and 34567.8912x + 11111.2133y >= 60000, x and y from 0 to 9.
///
/// The first pivot is made on scaled numbers. Those of the second one, times the scale 10^4, are too large, and fractions go on.
const GIVEN_UP: &[u8] =
    b"ROWS\n N o\n G r\n G s\nCOLUMNS\n m 'MARKER' 'INTORG'\n x o 1 r 12345.6789\n x s 34567.8912\n y o 1 r 23456.7891\n y s 11111.2133\nRHS\n r 50000 s 60000\nBOUNDS\n UP x 9\n UP y 9\nENDATA\n";

/// The box of x from 0 to 1 and y at 0.
fn without_y(alloc: Global) -> Result<IntBox, AllocError> {
    let spans = vec![in alloc; Span { lo: 0, hi: 1 }, Span { lo: 0, hi: 0 }]?;
    Ok(IntBox::make(spans))
}

/// Prints multipliers and ends the line.
fn show_multipliers<R: Print>(rt: &R, mult: &Mult) -> io::Result<()> {
    if mult.is_empty() {
        return println!(rt; "no row");
    }
    let sum = Sum(mult.as_slice());
    println!(rt; "{sum}")
}

/// Prints the numbers of a point.
fn show_point<R: Print>(rt: &R, point: &RationalPoint) -> io::Result<()> {
    for column in 0..point.len() {
        let number = point.get(column);
        print!(rt; " {number}")?;
    }
    Ok(())
}

/// Prints the multipliers that refute a box.
fn show_infeasible<R: Print>(rt: &R, mult: &Mult) -> io::Result<()> {
    print!(rt; "infeasible by ")?;
    show_multipliers(rt, mult)
}

/// Prints an optimum.
fn show_optimal<R: Print>(
    rt: &R,
    value: Frac,
    point: &RationalPoint,
    mult: &Mult,
) -> io::Result<()> {
    print!(rt; "optimal {value} at")?;
    show_point(rt, point)?;
    print!(rt; " by ")?;
    show_multipliers(rt, mult)
}

/// Prints an answer and ends the line.
fn show_answer<R: Print>(rt: &R, answer: &Answer) -> io::Result<()> {
    match answer {
        Answer::Infeasible { mult } => show_infeasible(rt, mult),
        Answer::Optimal { point, mult, value } => show_optimal(rt, *value, point, mult),
        Answer::Cramped { pivots } => println!(rt; "cramped after {pivots} pivots"),
        Answer::Stalled => println!(rt; "stalled"),
    }
}

/// Prints the box, and how many pivots were made.
fn show_pivots<R: Print>(rt: &R, area: &IntBox, solution: &Solution) -> io::Result<()> {
    let spans = Spans(area);
    match &solution.tableau {
        Some(tableau) => {
            let pivots = tableau.pivots();
            print!(rt; "linear program over {spans}, {pivots} pivots: ")
        }
        None => print!(rt; "linear program over {spans}, no tableau: "),
    }
}

/// Prints what the dual simplex answers over a box, and its pivots.
fn show_solution<R: Print>(rt: &R, area: &IntBox, solution: &Solution) -> Result<()> {
    show_pivots(rt, area, solution)?;
    Ok(show_answer(rt, &solution.answer)?)
}

/// What the dual simplex answers over a box, by a problem's rows and all cuts of its book.
fn solution(alloc: Global, problem: &Problem, book: &Book, area: &IntBox) -> Result<Solution> {
    let cuts = book.len();
    if cuts > 1 || area.len() != problem.columns() {
        bail!("many cuts, or a box of another problem");
    }
    let mut relaxation = Relaxation::new(alloc, problem, book, cuts)?;
    Ok(relaxation.solve(alloc, problem, book, area)?)
}

/// Prints the answer over a box.
fn show_solved<R: Print + Alloc<A = Global>>(
    rt: &R,
    problem: &Problem,
    book: &Book,
    area: &IntBox,
) -> Result<()> {
    let solution = solution(rt.alloc(), problem, book, area)?;
    show_solution(rt, area, &solution)
}

/// Prints the answer over the box in which y is 0.
fn show_without_y<R: Print + Alloc<A = Global>>(
    rt: &R,
    problem: &Problem,
    book: &Book,
) -> Result<()> {
    let area = without_y(rt.alloc())?;
    show_solved(rt, problem, book, &area)
}

/// Prints the answers over a problem's own box, and over the one in which y is 0.
fn show_both<R: Print + Alloc<A = Global>>(rt: &R, problem: &Problem, book: &Book) -> Result<()> {
    show_solved(rt, problem, book, problem.root())?;
    show_without_y(rt, problem, book)
}

/// Prints the answers on a model of two columns.
fn show_boxes<R: Print + Alloc<A = Global>>(rt: &R, text: &[u8]) -> Result<()> {
    let problem = problem_of(rt.alloc(), text)?;
    let book = Book::make(rt.alloc());
    show_both(rt, &problem, &book)
}

/// A copy of the multipliers of an optimum.
fn multipliers(alloc: Global, answer: &Answer) -> Result<Mult> {
    match answer {
        Answer::Optimal { mult, .. } => Ok(mult.copy(alloc)?),
        _ => bail!("no optimum"),
    }
}

/// The multipliers of the optimum over a problem's own box.
fn optimum(alloc: Global, problem: &Problem, book: &Book) -> Result<Mult> {
    let solution = solution(alloc, problem, book, problem.root())?;
    multipliers(alloc, &solution.answer)
}

/// Makes the cut of these multipliers.
fn cut_by(alloc: Global, problem: &Problem, book: &mut Book, mult: Mult) -> Result<()>
    requires { 0 < book.old.room }
{
    let Some(row) = book.cg_row(alloc, problem, &mult)? else {
        bail!("no cut");
    };
    book.add_cut(problem, mult, row);
    Ok(())
}

/// Makes the cut of the multipliers of the optimum.
fn cut(alloc: Global, problem: &Problem, book: &mut Book) -> Result<()> {
    book.reserve(1)?;
    let mult = optimum(alloc, problem, book)?;
    cut_by(alloc, problem, book, mult)
}

/// Prints the answer before and behind the cut of its multipliers.
fn show_before_and_behind<R: Print + Alloc<A = Global>>(
    rt: &R,
    problem: &Problem,
    book: &mut Book,
) -> Result<()> {
    show_solved(rt, problem, book, problem.root())?;
    cut(rt.alloc(), problem, book)?;
    show_solved(rt, problem, book, problem.root())
}

/// Prints the answers on the model of one column with and without its cut.
fn show_cut<R: Print + Alloc<A = Global>>(rt: &R) -> Result<()> {
    let problem = problem_of(rt.alloc(), HALF)?;
    let mut book = Book::make(rt.alloc());
    show_before_and_behind(rt, &problem, &mut book)
}

/// Prints answers on whole numbers and on fractions, with a cut, and of numbers that are too large.
pub(crate) fn show<R: Print + Alloc<A = Global>>(rt: &R) -> Result<()> {
    show_boxes(rt, ODD)?;
    show_boxes(rt, ODD_QUARTERS)?;
    show_cut(rt)?;
    show_boxes(rt, LARGE)?;
    show_boxes(rt, GIVEN_UP)
}
