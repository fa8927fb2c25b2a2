// What row activity tells of a box.
ghost use Rattle.std.specs.Prelude.{◌≡◌, length, All};
ghost use Rattle.fraction.specs.Rational.{◌≤ℚ◌};
ghost use Rattle.problem.specs.Limited.{AreLimited, IsModestSpan};
ghost use Rattle.problem.specs.declared.row.Sense.TheVariants.{E};
ghost use Rattle.row_activity.specs.Activity.{low_of, high_of, IsLimitedBox};
ghost use Rattle.row_activity.specs.Verdicts.{is_less, refuting_sign, refuted_from, reaches, verdict};
ghost use Rattle.row_activity.specs.Meaning.{Tells};

use crate::activity::{high, low, range};
use fraction::Frac;
use problem::{Problem, Row, Sense};
use problem_box::IntBox;
use std::cmp::Ordering;

/// On which side the values of a row miss its right side.
#[derive(Clone, Copy, Debug, PartialEq, Eq)]
pub enum Sign {
    /// The row asks for at least its right side, or for just that, and its greatest value is below it.
    Plus,
    /// The row asks for at most its right side, or for just that, and its least value is above it.
    Minus,
}

/// What the rows and the aim, which is the objective that a search minimises, tell of a box.
#[derive(Clone, Copy, Debug, PartialEq, Eq)]
pub enum Verdict {
    /// The span of this column, the least such one, has no number.
    Empty { column: usize },
    /// No point of the box satisfies this row, the least such one.
    Refuted { row: usize, sign: Sign },
    /// No point of the box has an aim below the cutoff.
    Priced,
    /// The box has one point. It satisfies each row, and its aim is below the cutoff, if there is one.
    Point,
    /// Nothing of these.
    Unsettled,
}

/// Whether a number is less than another.
fn is_less(a: Frac, b: Frac) -> bool
    ensures { result ≡ is_less a b }
{
    match a.cmp(b) {
        Ordering::Less => true,
        _ => false,
    }
}

/// Whether the greatest value of a row is below its right side.
fn falls_short(row: &Row, area: &IntBox) -> bool
    requires limited { AreLimited (length area.now) row.now.terms }
    requires limited_box { IsLimitedBox area.now }
    ensures { result ≡ is_less (high_of area.now row.now.terms) row.now.rhs }
{
    is_less(high(&row.terms, area), row.rhs)
}

/// Whether the least value of a row is above its right side.
fn goes_past(row: &Row, area: &IntBox) -> bool
    requires limited { AreLimited (length area.now) row.now.terms }
    requires limited_box { IsLimitedBox area.now }
    ensures { result ≡ is_less row.now.rhs (low_of area.now row.now.terms) }
{
    is_less(row.rhs, low(&row.terms, area))
}

/// The sign with which a row that asks for just its right side refutes each point of the box, if it does.
fn missed_side(row: &Row, area: &IntBox) -> Option<Sign>
    requires equation { row.now.sense ≡ E }
    requires limited { AreLimited (length area.now) row.now.terms }
    requires limited_box { IsLimitedBox area.now }
    ensures { result ≡ refuting_sign area.now row.now }
{
    let (low, high) = range(&row.terms, area);
    if is_less(high, row.rhs) {
        return Some(Sign::Plus);
    }
    if is_less(row.rhs, low) {
        return Some(Sign::Minus);
    }
    None
}

/// The sign with which a row refutes each point of the box, if it does.
fn refuting_sign(row: &Row, area: &IntBox) -> Option<Sign>
    requires limited { AreLimited (length area.now) row.now.terms }
    requires limited_box { IsLimitedBox area.now }
    ensures { result ≡ refuting_sign area.now row.now }
{
    match row.sense {
        Sense::G if falls_short(row, area) => Some(Sign::Plus),
        Sense::L if goes_past(row, area) => Some(Sign::Minus),
        Sense::E => missed_side(row, area),
        _ => None,
    }
}

/// The least row that refutes each point of the box, if there is one.
fn first_refuted(problem: &Problem, area: &IntBox) -> Option<(usize, Sign)>
    requires columns { length area.now ≡ length problem.now.spans }
    requires limited_box { IsLimitedBox area.now }
    ensures { result ≡ refuted_from 0 area.now problem.now.rows }
{
    problem.limits_hold();
    for index in 0..problem.rows() {
        if let Some(sign) = refuting_sign(problem.row(index), area) {
            return Some((index, sign));
        }
    }
    None
}

/// Whether there is a cutoff and a value is at least it.
fn reaches(value: Frac, cutoff: Option<Frac>) -> bool
    ensures { result ≡ reaches value cutoff }
{
    match cutoff {
        Some(bound) => !is_less(value, bound),
        None => false,
    }
}

/// The verdict on a node's box: the first that holds of empty, refuted, priced, point, and otherwise unsettled.
///
/// The box has a span for each column of the problem, and its bounds have a size of at most `LARGEST_BOUND`: the problem's own box is such a
/// one, and so is each that is cut from it. The entries of the rows and of the objective are gone through once at most. It takes no
/// memory.
pub fn box_verdict(problem: &Problem, node: &IntBox, cutoff: Option<Frac>) -> Verdict
    requires columns { length node.now ≡ length problem.now.spans }
    requires modest { All IsModestSpan node.now }
    ensures first { result ≡ verdict problem.now node.now cutoff }
    ensures meaning { Tells problem.now node.now cutoff result }
{
    problem.limits_hold();
    if let Some(column) = node.empty_at() {
        return Verdict::Empty { column };
    }
    if let Some((row, sign)) = first_refuted(problem, node) {
        return Verdict::Refuted { row, sign };
    }
    if reaches(low(problem.aim(), node), cutoff) {
        return Verdict::Priced;
    }
    if node.is_fixed() {
        Verdict::Point
    } else {
        Verdict::Unsettled
    }
}
