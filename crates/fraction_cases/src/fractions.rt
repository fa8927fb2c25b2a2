//! Texts of fractions, their roundings and operations, and which of them fit into 64 bits.

use case_tools::NumberOrNone;
use fraction::{Frac, dot, same};
use std::io;

/// Prints the whole numbers that are near a number.
fn show_roundings<R: Print>(rt: &R, x: Frac) -> io::Result<()> {
    let (floor, ceil, whole) = (x.floor(), x.ceil(), x.is_whole());
    println!(rt; "fraction {x}: floor {floor}, ceil {ceil}, whole {whole}")
}

/// Prints a number with what is near it.
fn show_number<R: Print>(rt: &R, x: Frac) -> io::Result<()> {
    show_roundings(rt, x)?;
    let (negative, size) = (x.neg(), x.abs());
    println!(rt; "fraction {x}: negative {negative}, size {size}")
}

/// Prints the result of an operation on two numbers.
fn show_result<R: Print>(
    rt: &R,
    (x, y): (Frac, Frac),
    sign: char,
    number: Option<Frac>,
) -> io::Result<()> {
    let number = NumberOrNone(number);
    println!(rt; "fraction {x} {sign} {y} = {number}")
}

/// Prints the order of two numbers.
fn show_order<R: Print>(rt: &R, x: Frac, y: Frac) -> io::Result<()> {
    let (order, is_less, is_same) = (x.cmp(y), x < y, same(x, y));
    println!(rt; "fraction {x} beside {y}: {order:?}, less {is_less}, same {is_same}")
}

/// Prints the operations on two numbers, and their order.
fn show_pair<R: Print>(rt: &R, x: Frac, y: Frac) -> io::Result<()> {
    show_result(rt, (x, y), '+', x.add(y))?;
    show_result(rt, (x, y), '-', x.sub(y))?;
    show_result(rt, (x, y), '*', x.mul(y))?;
    if y.numer() != 0 {
        show_result(rt, (x, y), '/', x.div(y))?;
    }
    show_order(rt, x, y)
}

/// Prints a number as 64 bits keep it.
fn show_narrow<R: Print>(rt: &R, x: Frac) -> io::Result<()> {
    let kept = NumberOrNone(x.narrow().map(|narrow| narrow.wide()));
    println!(rt; "fraction {x} in 64 bits: {kept}")
}

/// Prints a sum of two products.
fn show_dot<R: Print>(rt: &R) -> io::Result<()> {
    let sum = NumberOrNone(dot(
        &[Frac::make(1, 2), Frac::of(3)],
        &[Frac::make(1, 3), Frac::make(-1, 6)],
    ));
    println!(rt; "fraction 1/2 * 1/3 + 3 * -1/6 = {sum}")
}

/// Prints numbers with what is near them.
fn show_numbers<R: Print>(rt: &R) -> io::Result<()> {
    show_number(rt, Frac::of(0))?;
    show_number(rt, Frac::make(-6, 2))?;
    show_number(rt, Frac::make(-2, 4))?;
    show_number(rt, Frac::make(7, 3))?;
    show_number(rt, Frac::make(-7, 3))
}

/// Prints numbers as 64 bits keep them.
fn show_narrows<R: Print>(rt: &R) -> io::Result<()> {
    show_narrow(rt, Frac::of(0))?;
    show_narrow(rt, Frac::make(-7, 3))?;
    show_narrow(rt, Frac::make(i128::from(i64::MAX), i128::from(u64::MAX)))?;
    show_narrow(rt, Frac::of(1 << 63))?;
    show_narrow(rt, Frac::make(1, 1 << 64))
}

/// Prints operations on pairs of numbers.
fn show_pairs<R: Print>(rt: &R) -> io::Result<()> {
    show_pair(rt, Frac::make(1, 2), Frac::make(1, 3))?;
    show_pair(rt, Frac::of(1 << 126), Frac::of(1 << 126))?;
    show_pair(rt, Frac::make(-3, 4), Frac::of(0))
}

/// Prints the calls on fractions.
pub(crate) fn show<R: Print>(rt: &R) -> io::Result<()> {
    show_numbers(rt)?;
    show_pairs(rt)?;
    show_dot(rt)?;
    show_narrows(rt)
}
