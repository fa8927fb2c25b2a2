//! Verdicts on boxes of a problem of two columns and three rows.

ghost use Rattle.std.specs.Prelude.{IfOk, All};
ghost use Rattle.problem.specs.Limited.{IsModestSpan};

use anyhow::{Result, bail};
use case_tools::{NumberOrNone, Spans, problem_of};
use fraction::Frac;
use problem::Problem;
use problem_box::{IntBox, Span};
use row_activity::box_verdict;
use std::alloc::{AllocError, Global};

/// Minimise x + 2y where x - y >= 1, 2x + y <= 15 and x + y = 4, x and y from 0 to 9.
const MODEL: &[u8] =
    b"ROWS\n N o\n G p\n L q\n E r\nCOLUMNS\n m 'MARKER' 'INTORG'\n x o 1 p 1\n x q 2 r 1\n y o 2 p -1\n y q 1 r 1\nRHS\n p 1 q 15\n r 4\nBOUNDS\n UP x 9\n UP y 9\nENDATA\n";

/// The spans of x and of y, and the objective of an incumbent, if there is one.
type Case = ((i8, i8), (i8, i8), Option<i8>);

/// A case of each verdict: also of those that come first where several hold, and of a cutoff that is just reached.
const CASES: [Case; 9] = [
    ((0, 9), (0, 9), None),
    ((0, 9), (5, 4), Some(0)),
    ((0, 2), (2, 9), Some(0)),
    ((7, 9), (2, 9), None),
    ((0, 2), (0, 1), None),
    ((4, 9), (1, 2), None),
    ((3, 9), (1, 9), Some(5)),
    ((3, 9), (1, 9), Some(6)),
    ((3, 3), (1, 1), Some(6)),
];

/// The box with these spans.
fn area(alloc: Global, x: (i8, i8), y: (i8, i8)) -> Result<IntBox, AllocError>
    ensures { IfOk result (λ b. All IsModestSpan b) }
{
    let spans = vec![in alloc;
        Span {
            lo: x.0 as i64,
            hi: x.1 as i64
        },
        Span {
            lo: y.0 as i64,
            hi: y.1 as i64
        },
    ]?;
    Ok(IntBox::make(spans))
}

/// The cutoff as a fraction.
fn number_of(cutoff: Option<i8>) -> Option<Frac> {
    match cutoff {
        Some(value) => Some(Frac::of(i128::from(value))),
        None => None,
    }
}

/// Prints the verdict on a box, where an incumbent has this objective.
fn show_verdict<R: Print>(
    rt: &R,
    problem: &Problem,
    node: &IntBox,
    cutoff: Option<i8>,
) -> Result<()>
    requires { All IsModestSpan node.now }
{
    if node.len() != problem.columns() {
        bail!("a box of another problem");
    }
    let verdict = box_verdict(problem, node, number_of(cutoff));
    let (spans, cutoff) = (Spans(node), NumberOrNone(number_of(cutoff)));
    println!(rt; "verdict on {spans}, cutoff {cutoff}: {verdict:?}")?;
    Ok(())
}

/// Prints the verdict of a case.
fn show_case<R: Print + Alloc<A = Global>>(rt: &R, problem: &Problem, case: &Case) -> Result<()> {
    let (x, y, cutoff) = *case;
    let node = area(rt.alloc(), x, y)?;
    show_verdict(rt, problem, &node, cutoff)
}

/// Prints the verdict of each case.
fn show_cases<R: Print + Alloc<A = Global>>(rt: &R, problem: &Problem) -> Result<()> {
    for case in &CASES {
        show_case(rt, problem, case)?;
    }
    Ok(())
}

/// Prints each verdict on boxes of the model's problem.
pub(crate) fn show<R: Print + Alloc<A = Global>>(rt: &R) -> Result<()> {
    let problem = problem_of(rt.alloc(), MODEL)?;
    show_cases(rt, &problem)
}
