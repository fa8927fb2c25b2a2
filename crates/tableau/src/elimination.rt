// The elimination of a variable from rows and reduced costs.

ghost use Rattle.std.specs.Prelude.{◌≡◌, ◌<◌, ◌≤◌, ◌^◌, ℕ, [], length, slice_index_or, slice_set, IfOk, OnOk, OnErr, MatchBool, Some, None};
ghost use Rattle.std.specs.Option.{option_and_then};
ghost use Rattle.tableau.specs.Elimination.{substituted, others_substituted};
ghost use Rattle.tableau.specs.Pivot.{rows_eliminated};
ghost use Rattle.tableau.specs.SparseSteps.{next_row, costs_eliminated, IsPivotPrepared};

use crate::entries::Entries;
use crate::multiple::is_zero;
use crate::sparse_row::SparseRow;
use std::alloc::{AllocError, Global};
use std::mem;

/// What a pivot works with, kept from one pivot to the next. What it holds between them counts for nothing.
pub(crate) struct Workspace {
    /// The solved row.
    solved: SparseRow,
    /// For each row that has the entering variable the row that is to stand in its place.
    ready: Vec<SparseRow>,
    /// The same for the reduced costs.
    ready_costs: SparseRow,
    /// The row that is being made.
    spare: Entries,
}

/// By hand (docs/DECISIONS.md, entry 98).
impl Drop for Workspace {
    fn drop(self) {
        let Workspace {
            solved: _,
            ready: _,
            ready_costs: _,
            spare: _,
        } = self;
    }
}

impl Workspace {
    /// A workspace that holds nothing yet.
    pub(crate) fn new(alloc: Global) -> Workspace {
        Workspace {
            solved: SparseRow::empty(alloc),
            ready: Vec::new(alloc),
            ready_costs: SparseRow::empty(alloc),
            spare: Entries::new(alloc),
        }
    }
}

/// Makes the list at least so long. The one error is want of memory.
fn make_room(alloc: Global, rows: &mut Vec<SparseRow>, count: usize) -> Result<(), AllocError>
    ensures { OnOk result (count ≤ length rows.new.items) }
{
    while rows.len() < count {
        rows.push(SparseRow::empty(alloc))?;
    }
    Ok(())
}

/// Makes the row that is to stand in the place of this one once a variable is substituted, if the row has it; false exactly where this is
/// cramped. The one error is want of memory.
fn prepare(
    row: &SparseRow,
    variable: usize,
    source: &SparseRow,
    spare: &mut Entries,
    ready: &mut SparseRow,
) -> Result<bool, AllocError>
    ensures { IfOk result (λ b. let new = substituted variable source.now row.now in MatchBool b (new ≡ Some (next_row variable row.now ready.new)) (new ≡ None)) }
{
    if is_zero(row.coefficient(variable)) {
        row.limits_hold();
        return Ok(true);
    }
    row.substitute_into(variable, source, spare, ready)
}

/// Puts the row that is ready in the place of this one, if this one has the variable.
fn replace(row: &mut SparseRow, variable: usize, ready: &mut SparseRow)
    ensures { row.new ≡ next_row variable row.old ready.old }
{
    if !is_zero(row.coefficient(variable)) {
        mem::swap(row, ready);
    }
}

/// Prepares each row but that of the leaving variable; false exactly where one is cramped. The one error is want of memory.
fn prepare_others(
    rows: &[SparseRow],
    leaving: usize,
    variable: usize,
    source: &SparseRow,
    spare: &mut Entries,
    ready: &mut [SparseRow],
) -> Result<bool, AllocError>
    requires leaving_there { leaving < length rows.now }
    requires ready_there { length rows.now ≤ length ready.old }
    ensures { IfOk result (λ b. MatchBool b ((k : ℕ) → k < length rows.now → (k ≡ leaving → ⊥) → substituted variable source.now (slice_index_or rows.now k []) ≡ Some (next_row variable (slice_index_or rows.now k []) (slice_index_or ready.new k []))) (others_substituted leaving variable (slice_set rows.now leaving source.now) ≡ None)) }
{
    for (i, row) in rows.iter().enumerate() {
        if i == leaving {
            continue;
        }
        if !prepare(row, variable, source, spare, &mut ready[i])? {
            return Ok(false);
        }
    }
    Ok(true)
}

/// Replaces each row but that of the leaving variable.
fn replace_others(rows: &mut [SparseRow], leaving: usize, variable: usize, ready: &mut [SparseRow])
    requires { length rows.old ≤ length ready.old }
    ensures others { (k : ℕ) → k < length rows.old → (k ≡ leaving → ⊥) → slice_index_or rows.new k [] ≡ next_row variable (slice_index_or rows.old k []) (slice_index_or ready.old k []) }
    ensures leaving { slice_index_or rows.new leaving [] ≡ slice_index_or rows.old leaving [] }
{
    for i in 0..rows.len() {
        if i == leaving {
            continue;
        }
        replace(&mut rows[i], variable, &mut ready[i]);
    }
}

/// Prepares all that a pivot puts in place of rows and reduced costs; false exactly where it is cramped, or where the leaving row doesn't
/// have the entering variable. The one error is want of memory.
fn prepare_all(
    alloc: Global,
    rows: &[SparseRow],
    reduced_costs: &SparseRow,
    leaving: usize,
    entering: usize,
    work: &mut Workspace,
) -> Result<bool, AllocError>
    requires there { leaving < length rows.now }
    requires fits { leaving < 2 ^ 32 }
    ensures { IfOk result (λ b. MatchBool b (IsPivotPrepared leaving entering rows.now reduced_costs.now work.new.solved work.new.ready.items work.new.ready_costs) (costs_eliminated leaving entering rows.now reduced_costs.now ≡ None)) }
{
    make_room(alloc, &mut work.ready, rows.len())?;
    if !rows[leaving].solve_into(leaving, entering, &mut work.spare, &mut work.solved)? {
        return Ok(false);
    }
    if !prepare_others(
        rows,
        leaving,
        entering,
        &work.solved,
        &mut work.spare,
        &mut work.ready,
    )? {
        return Ok(false);
    }
    if !reduced_costs.substitute_into(
        entering,
        &work.solved,
        &mut work.spare,
        &mut work.ready_costs,
    )? {
        return Ok(false);
    }
    Ok(true)
}

/// Puts all that is ready in its place.
fn replace_all(
    rows: &mut [SparseRow],
    reduced_costs: &mut SparseRow,
    leaving: usize,
    entering: usize,
    work: &mut Workspace,
)
    requires there { leaving < length rows.old }
    requires ready { IsPivotPrepared leaving entering rows.old reduced_costs.old work.old.solved work.old.ready.items work.old.ready_costs }
    ensures rows { rows_eliminated leaving entering rows.old ≡ Some rows.new }
    ensures costs { substituted entering (slice_index_or rows.new leaving []) reduced_costs.old ≡ Some reduced_costs.new }
    ensures width { length reduced_costs.new ≡ length reduced_costs.old }
{
    replace_others(rows, leaving, entering, &mut work.ready);
    mem::swap(&mut rows[leaving], &mut work.solved);
    mem::swap(reduced_costs, &mut work.ready_costs);
}

/// Solves the leaving row for the entering variable, and substitutes this in each other row and in the reduced costs; false exactly where
/// this is cramped, or where the row doesn't have that variable. The one error is want of memory, after which all is as before.
pub(crate) fn eliminate(
    alloc: Global,
    rows: &mut [SparseRow],
    reduced_costs: &mut SparseRow,
    leaving: usize,
    entering: usize,
    work: &mut Workspace,
) -> Result<bool, AllocError>
    requires there { leaving < length rows.old }
    requires fits { leaving < 2 ^ 32 }
    ensures value { IfOk result (λ b. MatchBool b ((rows_eliminated leaving entering rows.old ≡ Some rows.new) × (substituted entering (slice_index_or rows.new leaving []) reduced_costs.old ≡ Some reduced_costs.new)) (costs_eliminated leaving entering rows.old reduced_costs.old ≡ None)) }
    ensures width { length reduced_costs.new ≡ length reduced_costs.old }
    ensures unchanged { OnErr result ((rows.new ≡ rows.old) × (reduced_costs.new ≡ reduced_costs.old)) }
{
    if !prepare_all(alloc, rows, reduced_costs, leaving, entering, work)? {
        return Ok(false);
    }
    replace_all(rows, reduced_costs, leaving, entering, work);
    Ok(true)
}
