//! Offers of points to an incumbent.

ghost use Rattle.incumbent.specs.Offers.{IsIncumbentOf};

use crate::models::made;
use case_tools::NumberOrNone;
use fraction::Frac;
use incumbent::Incumbent;
use problem::{Point, Problem};
use std::alloc::Global;
use std::io;

/// x from 0 to 5, no rows and no objective.
const MODEL: &[u8] =
    b"ROWS\n N o\nCOLUMNS\n m 'MARKER' 'INTORG'\n x o 0\nBOUNDS\n UP x 5\nENDATA\n";

/// Prints the point of an incumbent, and ends the line.
fn show_point<R: Print>(rt: &R, incumbent: &Incumbent) -> io::Result<()> {
    match incumbent.point() {
        Some(point) => {
            let numbers = point.as_slice();
            println!(rt; ", point {numbers:?}")
        }
        None => println!(rt; ", no point"),
    }
}

/// Offers a point of one number, and prints whether it is taken, and the incumbent.
fn show_offer<R: Print + Alloc<A = Global>>(
    rt: &R,
    problem: &Problem,
    incumbent: &mut Incumbent,
    number: i64,
) -> io::Result<()>
    requires { IsIncumbentOf problem.now incumbent.old }
    ensures { IsIncumbentOf problem.now incumbent.new }
{
    let point = Point::make(vec![in rt.alloc(); number]?);
    let taken = incumbent.offer(problem, point);
    let cutoff = NumberOrNone(incumbent.cutoff());
    print!(rt; "incumbent offer {number}: taken {taken}, cutoff {cutoff}")?;
    show_point(rt, incumbent)
}

/// Prints whether an objective is better than that of an incumbent.
fn show_bettered<R: Print>(rt: &R, incumbent: &Incumbent, value: Frac) -> io::Result<()> {
    let is_bettered = incumbent.is_bettered_by(value);
    println!(rt; "incumbent bettered by {value}: {is_bettered}")
}

/// Prints the offers of a point outside, one inside, and one that is no better.
fn show_offers<R: Print + Alloc<A = Global>>(
    rt: &R,
    problem: &Problem,
    incumbent: &mut Incumbent,
) -> io::Result<()>
    requires { IsIncumbentOf problem.now incumbent.old }
{
    show_offer(rt, problem, incumbent, 6)?;
    show_offer(rt, problem, incumbent, 5)?;
    show_offer(rt, problem, incumbent, 4)?;
    show_bettered(rt, incumbent, Frac::make(-1, 2))?;
    show_bettered(rt, incumbent, Frac::of(0))
}

/// Prints the offers to an incumbent of the model.
pub(crate) fn show<R: Print + Alloc<A = Global>>(rt: &R) -> io::Result<()> {
    let problem = made(rt.alloc(), MODEL)?;
    let mut incumbent = Incumbent::none();
    show_offers(rt, &problem, &mut incumbent)
}
