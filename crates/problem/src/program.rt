// Integer programs.
ghost use Rattle.std.specs.Prelude.{◌≡◌, ◌<◌, ◌↔◌, IsTrue, IfOk, All, length, slice_get, Some};
ghost use Rattle.problem_box.specs.Boxes.{IsInBox};
ghost use Rattle.problem.specs.Rows.{Satisfies};
ghost use Rattle.problem.specs.Feasible.{IsFeasible, HasWholeObjective, objective_at};
ghost use Rattle.problem.specs.Modest.{AreModest, IsModestPoint};
ghost use Rattle.problem.specs.Limited.{IsLimited, AreLimited};
ghost use Rattle.problem.specs.Directions.{aim, aim_at, negated_if};

use crate::names::Names;
use crate::objective_sense::ObjectiveSense;
use crate::row::Row;
use crate::terms::Terms;
use fraction::Frac;
use problem_box::IntBox;
use std::alloc::{AllocError, Global};
use std::marker::Model;

/// A problem within the limits, seen as its integer program: minimise or maximise the objective over the whole points of the box that satisfy the rows.
///
/// The limits: at most `MOST_COLUMNS` columns and `MOST_ROWS` rows; bounds of size at most `LARGEST_BOUND`; coefficients that are multiples of
/// 1 / `FINEST` of at most that size; right sides that are such multiples of at most twice that size. Under them no sum over a point of the box
/// is cramped.
pub struct Problem {
    names: Names,
    rows: Vec<Row>,
    objective: Terms,
    sense: ObjectiveSense,
    // A search minimises. What it minimises of a maximised problem is made once, as each price and each relaxation needs it.
    negated: Option<Terms>,
    root: IntBox,
}

/// By hand (docs/DECISIONS.md, entry 98).
impl Drop for Problem {
    fn drop(self) {
        let Problem {
            names: _,
            rows: _,
            objective: _,
            sense: _,
            negated: _,
            root: _,
        } = self;
    }
}

impl Model for Problem {
    ghost use Rattle.problem.specs.Problem.{Problem as Described};

    ghost Value = { Described };

    ghost use Rattle.std.specs.Prelude.{◌≡◌};
    ghost use Rattle.problem.specs.Limited.{IsLimited};
    ghost use Rattle.problem.specs.Directions.{negated_if};

    ghost view = { λ p. record { names = p.names; rows = p.rows.items; objective = p.objective; sense = p.sense; spans = p.root } };

    ghost invariant = { λ p. IsLimited (record { names = p.names; rows = p.rows.items; objective = p.objective; sense = p.sense; spans = p.root }) × (p.negated ≡ negated_if p.sense p.objective) };
}

/// The negated terms, where the objective is maximised.
fn negated_if(
    alloc: Global,
    sense: ObjectiveSense,
    objective: &Terms,
) -> Result<Option<Terms>, AllocError>
    ensures { IfOk result (λ n. n ≡ negated_if sense objective.now) }
{
    match sense {
        ObjectiveSense::Minimise => Ok(None),
        ObjectiveSense::Maximise => Ok(Some(objective.negated(alloc)?)),
    }
}

impl Problem {
    /// The problem of these parts. Its condition is that they keep to the limits. The one error is want of memory.
    pub fn make(
        alloc: Global,
        names: Names,
        rows: Vec<Row>,
        objective: Terms,
        root: IntBox,
        sense: ObjectiveSense,
    ) -> Result<Problem, AllocError>
        requires { IsLimited (record { names = names; rows = rows.items; objective = objective; sense = sense; spans = root }) }
        ensures { IfOk result (λ p. p ≡ record { names = names; rows = rows.items; objective = objective; sense = sense; spans = root }) }
    {
        let negated = negated_if(alloc, sense, &objective)?;
        Ok(Problem {
            names,
            rows,
            objective,
            sense,
            negated,
            root,
        })
    }

    /// How many columns there are.
    pub fn columns(&self) -> usize
        ensures { result ≡ length self.now.spans }
    {
        self.root.len()
    }

    /// How many rows there are.
    pub fn rows(&self) -> usize
        ensures { result ≡ length self.now.rows }
    {
        self.rows.len()
    }

    /// A row that is there.
    pub fn row(&self, index: usize) -> &Row
        requires { index < length self.now.rows }
        ensures { slice_get self.now.rows index ≡ Some result.now }
    {
        &self.rows[index]
    }

    /// The names of the columns.
    pub fn names(&self) -> &Names
        ensures { result.now ≡ self.now.names }
    {
        &self.names
    }

    /// The bytes of the name of a column that is there.
    pub fn name(&self, column: usize) -> &[u8]
        requires { column < length self.now.names }
        ensures { slice_get self.now.names column ≡ Some result.now }
    {
        self.names.name(column)
    }

    /// The terms of the problem's own objective, as it is printed and certified.
    pub fn objective(&self) -> &Terms
        ensures { result.now ≡ self.now.objective }
    {
        &self.objective
    }

    /// Whether the problem's own objective is minimised or maximised.
    pub fn sense(&self) -> ObjectiveSense
        ensures { result ≡ self.now.sense }
    {
        self.sense
    }

    /// The terms of the objective that a search minimises: those of the problem's own one, negated where the problem is maximised
    /// (docs/DECISIONS.md, entry 83).
    pub fn aim(&self) -> &Terms
        ensures value { result.now ≡ aim self.now }
        ensures limited { AreLimited (length self.now.spans) result.now }
    {
        match &self.negated {
            Some(negated) => negated,
            None => &self.objective,
        }
    }

    /// The box of the columns' bounds.
    pub fn root(&self) -> &IntBox
        ensures { result.now ≡ self.now.spans }
    {
        &self.root
    }

    /// Whether each coefficient of the objective is a whole number.
    pub fn whole_objective(&self) -> bool
        ensures { IsTrue result ↔ HasWholeObjective self.now }
    {
        self.aim().are_whole()
    }

    /// Whether the point is feasible: one number per column, each within its bounds, and each row satisfied.
    pub fn is_feasible(&self, point: &[i64]) -> bool
        ensures { IsTrue result ↔ IsFeasible self.now point.now }
    {
        if !self.root.holds(point) {
            return false;
        }
        are_satisfied(&self.rows, point)
    }

    /// The problem's own objective at a point of the box.
    pub fn value(&self, point: &[i64]) -> Frac
        requires { IsInBox self.now.spans point.now }
        ensures { result ≡ objective_at self.now point.now }
    {
        self.objective.value(point)
    }

    /// The objective that a search minimises, at a point of the box.
    pub fn aim_value(&self, point: &[i64]) -> Frac
        requires { IsInBox self.now.spans point.now }
        ensures { result ≡ aim_at self.now point.now }
    {
        self.limits_hold();
        self.aim().value(point)
    }

    /// Each problem keeps to the limits. This computes nothing: its contract is for callers' proofs (docs/DECISIONS.md, entry 12).
    pub fn limits_hold(&self)
        ensures { IsLimited self.now }
    {
        let _names = &self.names;
    }

    /// An equal problem. The one error is want of memory.
    pub fn copy(&self, alloc: Global) -> Result<Problem, AllocError>
        ensures { IfOk result (λ p. p ≡ self.now) }
    {
        let names = self.names.copy(alloc)?;
        let rows = copied(alloc, &self.rows)?;
        let objective = self.objective.copy(alloc)?;
        let root = self.root.copy(alloc)?;
        Problem::make(alloc, names, rows, objective, root, self.sense)
    }
}

/// Equal rows.
fn copied(alloc: Global, rows: &[Row]) -> Result<Vec<Row>, AllocError>
    ensures { IfOk result (λ v. v.items ≡ rows.now) }
{
    let mut copies = Vec::new(alloc);
    for row in rows {
        copies.push(row.copy(alloc)?)?;
    }
    Ok(copies)
}

/// Whether each row is satisfied.
fn are_satisfied(rows: &[Row], point: &[i64]) -> bool
    requires columns { All (λ r. All (λ t. t.0 < length point.now) r.terms) rows.now }
    requires modest { All (λ r. AreModest r.terms) rows.now }
    requires modest_point { IsModestPoint point.now }
    ensures { IsTrue result ↔ All (Satisfies point.now) rows.now }
{
    for row in rows {
        if !row.is_satisfied(point) {
            return false;
        }
    }
    true
}
