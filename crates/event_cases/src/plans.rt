//! Events as plain numbers, and as they are made of these.

use fraction::Frac;
use node_events::{Event, Mult, Proof, RationalPoint, Reason};
use problem::Point;
use std::alloc::{AllocError, Global};
use std::io;

/// An event as plain numbers.
#[derive(Clone, Copy)]
pub(crate) enum Plan {
    Claim(u32),
    Release(u32),
    /// The cut of a row with so many halves.
    Cut(u32, i8),
    Offer(&'static [i64]),
    /// A split of a node in a column at a bound.
    Split(u32, u32, i8, Why),
    /// The closing of a node.
    Close(u32, By),
}

/// Why a node is split.
#[derive(Clone, Copy)]
pub(crate) enum Why {
    /// A point whose numbers are so many halves, of a run with so many cuts.
    Halves(u32, &'static [i8]),
    /// A point with a number of more than 64 bits.
    Wide,
    Cramped { cuts: u32, pivots: u32 },
    Stalled { cuts: u32 },
}

/// What a node is closed by.
#[derive(Clone, Copy)]
pub(crate) enum By {
    /// An empty column.
    Empty(u32),
    /// A row with so many halves.
    Row(u32, i8),
    /// A bound and no row.
    Bound,
}

/// So many halves.
fn halves(count: i8) -> Frac {
    Frac::make(i128::from(count), 2)
}

/// The multiplier of one row. A factor of 0 is an error.
pub(crate) fn single(alloc: Global, row: u32, factor: Frac) -> io::Result<Mult> {
    if factor.numer() == 0 {
        return Err(io::Error::other("a factor of 0"));
    }
    Ok(Mult::single(alloc, row, factor)?)
}

/// The same multipliers, made of a copy of their terms.
fn remade(alloc: Global, mult: &Mult) -> Result<Mult, AllocError> {
    let _rows = mult.as_slice();
    let terms = mult.terms().copy(alloc)?;
    Ok(Mult::make(terms))
}

/// The cut of a row with so many halves.
fn cut(alloc: Global, row: u32, count: i8) -> io::Result<Event> {
    let mult = single(alloc, row, halves(count))?;
    Ok(Event::Cut { mult })
}

/// The offer of a point.
fn offer(alloc: Global, numbers: &[i64]) -> io::Result<Event> {
    let numbers = numbers.to_vec(alloc)?;
    let point = Point::make(numbers);
    Ok(Event::Offer { point })
}

/// Pushes numbers that are so many halves.
fn push_halves(numbers: &mut Vec<Frac>, counts: &[i8]) -> Result<(), AllocError> {
    for count in counts {
        numbers.push(halves(*count))?;
    }
    Ok(())
}

/// Numbers that are so many halves.
fn halves_of(alloc: Global, counts: &[i8]) -> Result<Vec<Frac>, AllocError> {
    let mut numbers = Vec::new(alloc);
    push_halves(&mut numbers, counts)?;
    Ok(numbers)
}

/// A reason by a point.
fn fractional(alloc: Global, cuts: u32, numbers: Vec<Frac>) -> io::Result<Reason> {
    let point = RationalPoint::make(alloc, numbers)?;
    Ok(Reason::Fractional { cuts, point })
}

/// The reason by two numbers, of which the second has more than 64 bits.
fn wide(alloc: Global) -> io::Result<Reason> {
    let numbers = vec![in alloc; halves(-13), Frac::of(1_180_591_620_717_411_303_424)]?;
    fractional(alloc, 0, numbers)
}

/// The reason by numbers that are so many halves.
fn by_halves(alloc: Global, cuts: u32, counts: &[i8]) -> io::Result<Reason> {
    let numbers = halves_of(alloc, counts)?;
    fractional(alloc, cuts, numbers)
}

/// The reason of a split.
fn reason_of(alloc: Global, why: Why) -> io::Result<Reason> {
    match why {
        Why::Halves(cuts, counts) => by_halves(alloc, cuts, counts),
        Why::Wide => wide(alloc),
        Why::Cramped { cuts, pivots } => Ok(Reason::Cramped { cuts, pivots }),
        Why::Stalled { cuts } => Ok(Reason::Stalled { cuts }),
    }
}

/// A split.
fn split(alloc: Global, node: u32, column: u32, bound: i8, why: Why) -> io::Result<Event> {
    let reason = reason_of(alloc, why)?;
    Ok(Event::Split {
        node,
        column,
        bound: i64::from(bound),
        reason,
    })
}

/// The proof by a row with so many halves.
fn refuting(alloc: Global, row: u32, count: i8) -> io::Result<Proof> {
    let single = single(alloc, row, halves(count))?;
    let mult = remade(alloc, &single)?;
    Ok(Proof::Refute { mult })
}

/// The proof by a bound and no row.
fn bounding(alloc: Global) -> Proof {
    Proof::Bound {
        mult: Mult::none(alloc),
        rounded: true,
    }
}

/// The proof of a closing.
fn proof_of(alloc: Global, by: By) -> io::Result<Proof> {
    match by {
        By::Empty(column) => Ok(Proof::Empty { column }),
        By::Row(row, count) => refuting(alloc, row, count),
        By::Bound => Ok(bounding(alloc)),
    }
}

/// A closing.
fn close(alloc: Global, node: u32, by: By) -> io::Result<Event> {
    let proof = proof_of(alloc, by)?;
    Ok(Event::Close { node, proof })
}

/// The event of a plan.
pub(crate) fn event_of(alloc: Global, plan: Plan) -> io::Result<Event> {
    match plan {
        Plan::Claim(node) => Ok(Event::Claim { node }),
        Plan::Release(node) => Ok(Event::Release { node }),
        Plan::Cut(row, count) => cut(alloc, row, count),
        Plan::Offer(numbers) => offer(alloc, numbers),
        Plan::Split(node, column, bound, why) => split(alloc, node, column, bound, why),
        Plan::Close(node, by) => close(alloc, node, by),
    }
}
