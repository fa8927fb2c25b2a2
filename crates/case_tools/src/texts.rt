// Texts of values that have none of their own.

use fraction::Frac;
use problem::Term;
use problem_box::IntBox;
use std::fmt;

/// A number, or `none` where there is none.
#[derive(Clone, Copy)]
pub struct NumberOrNone(pub Option<Frac>);

impl fmt::Display for NumberOrNone {
    fn fmt<W: fmt::Write>(&self, f: &mut fmt::Formatter<W>) -> fmt::Result {
        match self.0 {
            Some(number) => write!(f, "{number}"),
            None => write!(f, "none"),
        }
    }
}

/// The spans of a box, as `0..4 3..2`, or `of no column`.
#[derive(Clone, Copy)]
pub struct Spans<'a>(pub &'a IntBox);

impl fmt::Display for Spans<'_> {
    fn fmt<W: fmt::Write>(&self, f: &mut fmt::Formatter<W>) -> fmt::Result {
        if self.0.is_empty() {
            return write!(f, "of no column");
        }
        let mut gap = "";
        for column in 0..self.0.len() {
            let span = self.0.span(column);
            let (lo, hi) = (span.lo, span.hi);
            write!(f, "{gap}{lo}..{hi}")?;
            gap = " ";
        }
        Ok(())
    }
}

/// Terms, as `2 of 0, 1/2 of 1`: each coefficient with its column, or each factor with its row.
#[derive(Clone, Copy)]
pub struct Sum<'a>(pub &'a [Term]);

impl fmt::Display for Sum<'_> {
    fn fmt<W: fmt::Write>(&self, f: &mut fmt::Formatter<W>) -> fmt::Result {
        let mut gap = "";
        for term in self.0 {
            let (number, coefficient) = term.pair();
            write!(f, "{gap}{coefficient} of {number}")?;
            gap = ", ";
        }
        Ok(())
    }
}
