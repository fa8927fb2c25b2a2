//! The problem of the reader's tables at ENDATA.

ghost use Rattle.std.specs.Prelude.{◌≡◌, ℕ, List, IfOk, IfErr, Ok};
ghost use Rattle.mps_reader.specs.Refusals.{IsModestUpper};
ghost use Rattle.mps_reader.specs.TextTables.{HasData, HasSectionsOf, IsFaultOf};
ghost use Rattle.mps_reader.specs.Reading.{finish};
ghost use Rattle.mps_reader.specs.Sections.{Sections};

use crate::building::Parts;
use crate::column_names::column_names;
use crate::ends::spans_or_fault;
use crate::kinds::Kind;
use crate::ranged_rows::ranged_parts;
use crate::reading::ReadFault;
use crate::row_table::RowTable;
use crate::tables::Tables;
use problem::Problem;
use problem_box::IntBox;
use std::alloc::Global;
use std::hash::BuildHasher;

/// The problem of the tables, whose terms it takes, or the fault at the end.
fn problem_in<'a, B: BuildHasher + Drop>(
    alloc: Global,
    tables: &mut Tables<'a, B>,
    upper: Option<u32>,
) -> Result<Problem, ReadFault>
    requires sections { (text : List ℕ) × HasSectionsOf text tables.old }
    requires upper { IsModestUpper upper }
    ensures ok { (s : Sections) → HasData tables.old s → IfOk result (λ p. finish upper (Ok s) ≡ Ok p) }
    ensures err { (s : Sections) → HasData tables.old s → IfErr result (λ f. IsFaultOf f (finish upper (Ok s))) }
{
    let terms = std::mem::replace(&mut tables.columns.rows, RowTable::new(alloc));
    let Ok(parts) = ranged_parts(
        alloc,
        &tables.rows,
        &tables.rhs.numbers,
        &tables.ranges.numbers,
        terms,
    ) else {
        return Err(ReadFault::Memory);
    };
    let Parts { rows, objective } = parts;
    let Some(objective) = objective else {
        return Err(ReadFault::Refused {
            line: tables.rows_at,
            kind: Kind::NoObjective,
        });
    };
    let columns = &tables.columns.columns;
    let spans = match spans_or_fault(alloc, upper, columns, &tables.bounds) {
        Ok(spans) => spans,
        Err(fault) => return Err(fault),
    };
    let Ok(names) = column_names(alloc, columns) else {
        return Err(ReadFault::Memory);
    };
    let root = IntBox::make(spans);
    match Problem::make(alloc, names, rows, objective, root, tables.order.sense) {
        Ok(problem) => Ok(problem),
        Err(_) => Err(ReadFault::Memory),
    }
}

/// The problem of the tables, or the fault at the end: no objective, or the first column's that isn't whole or has no bound. That the problem keeps
/// to its limits follows from the format, so nothing is tested twice (docs/DECISIONS.md, entry 17).
pub fn problem_of<'a, B: BuildHasher + Drop>(
    alloc: Global,
    tables: Tables<'a, B>,
    upper: Option<u32>,
) -> Result<Problem, ReadFault>
    requires sections { (text : List ℕ) × HasSectionsOf text tables }
    requires upper { IsModestUpper upper }
    ensures ok { (s : Sections) → HasData tables.entry s → IfOk result (λ p. finish upper (Ok s) ≡ Ok p) }
    ensures err { (s : Sections) → HasData tables.entry s → IfErr result (λ f. IsFaultOf f (finish upper (Ok s))) }
{
    let mut tables = tables;
    problem_in(alloc, &mut tables, upper)
}
