// Random linear programs by each form of the tableau.

use crate::ends::{End, Form, end_in};
use crate::programs::random_program;
use anyhow::Result;
use problem::Problem;
use std::alloc::Global;
use std::io;
use tableau::{LinearProgram, Place};

/// How many pivots a run makes at most.
const PIVOTS: u32 = 400;

/// How often each end of a run came.
#[derive(Clone, Copy)]
struct Tally {
    optimal: u32,
    infeasible: u32,
    neither: u32,
}

impl Tally {
    /// Nothing is counted.
    fn none() -> Tally {
        Tally {
            optimal: 0,
            infeasible: 0,
            neither: 0,
        }
    }

    /// Counts one more run, which may have come to no end.
    fn count(&mut self, end: &Option<End>) {
        let place = match end {
            Some(end) => Some(end.place),
            None => None,
        };
        match place {
            Some(Place::Done) => self.optimal = self.optimal.saturating_add(1),
            Some(Place::NoColumn { .. }) => self.infeasible = self.infeasible.saturating_add(1),
            _ => self.neither = self.neither.saturating_add(1),
        }
    }
}

/// How often each end came in each form, and how often another form's differed from that on fractions.
#[derive(Clone, Copy)]
struct Counts {
    integers: Tally,
    scaled: Tally,
    fractions: Tally,
    differ: u32,
}

/// Whether a run in another form that came to an end has another one than that on fractions.
fn differ(other: &Option<End>, fractions: &Option<End>) -> bool {
    match (other, fractions) {
        (Some(other), Some(fractions)) => !other.is_same(fractions),
        (Some(_), None) => true,
        (None, _) => false,
    }
}

impl Counts {
    /// Nothing is counted.
    fn none() -> Counts {
        Counts {
            integers: Tally::none(),
            scaled: Tally::none(),
            fractions: Tally::none(),
            differ: 0,
        }
    }
}

/// The end of a problem's linear program over its box in a form.
fn end_of(alloc: Global, problem: &Problem, form: Form) -> Result<Option<End>> {
    let program = LinearProgram::of(alloc, problem, problem.root())?;
    end_in(alloc, form, program, problem.root(), PIVOTS)
}

/// Counts how a problem's run in another form ends. Whether that differs from its end on fractions.
fn count_other(
    alloc: Global,
    tally: &mut Tally,
    problem: &Problem,
    form: Form,
    fractions: &Option<End>,
) -> Result<bool> {
    let end = end_of(alloc, problem, form)?;
    tally.count(&end);
    Ok(differ(&end, fractions))
}

/// Counts how a problem's runs in the other forms end, and whether one differs from its end on fractions.
fn count_others(
    alloc: Global,
    counts: &mut Counts,
    problem: &Problem,
    fractions: &Option<End>,
) -> Result<()> {
    let integers = &mut counts.integers;
    let integers_differ = count_other(alloc, integers, problem, Form::Integers, fractions)?;
    let scaled = &mut counts.scaled;
    let scaled_differ = count_other(alloc, scaled, problem, Form::Scaled, fractions)?;
    if integers_differ || scaled_differ {
        counts.differ = counts.differ.saturating_add(1);
    }
    Ok(())
}

/// Solves a problem's linear program over its box in each form, and counts how that ends.
fn compare(alloc: Global, counts: &mut Counts, problem: &Problem) -> Result<()> {
    let fractions = end_of(alloc, problem, Form::Fractions)?;
    counts.fractions.count(&fractions);
    count_others(alloc, counts, problem, &fractions)
}

/// Compares the forms on the random program of a seed.
fn compare_random(alloc: Global, counts: &mut Counts, seed: u32) -> Result<()> {
    let problem = random_program(alloc, seed)?;
    compare(alloc, counts, &problem)
}

/// Compares the forms on so many random programs.
fn compared(alloc: Global, programs: u32) -> Result<Counts> {
    let mut counts = Counts::none();
    for seed in 0..programs {
        compare_random(alloc, &mut counts, seed)?;
    }
    Ok(counts)
}

/// Prints how often each end came; `neither` says what the other runs were.
fn show_tally<R: Print>(rt: &R, form: &str, tally: Tally, neither: &str) -> io::Result<()> {
    let Tally {
        optimal,
        infeasible,
        neither: others,
    } = tally;
    println!(rt;
        "random programs on {form}: {optimal} optimal, {infeasible} infeasible, {others} {neither}"
    )
}

/// Prints how often each end came, and how often the forms differed.
fn show_counts<R: Print>(rt: &R, counts: Counts) -> io::Result<()> {
    show_tally(rt, "whole numbers", counts.integers, "given up")?;
    show_tally(rt, "scaled numbers", counts.scaled, "given up")?;
    show_tally(rt, "fractions", counts.fractions, "cramped")?;
    let differ = counts.differ;
    println!(rt; "random programs whose runs differ: {differ}")
}

/// Solves so many random programs in each form, and prints how often each end came, and how often the forms differed.
pub(crate) fn show<R: Print + Alloc<A = Global>>(rt: &R, programs: u32) -> Result<()> {
    let counts = compared(rt.alloc(), programs)?;
    Ok(show_counts(rt, counts)?)
}
