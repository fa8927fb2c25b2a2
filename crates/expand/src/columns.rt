// The column in which a node is split.
ghost use Rattle.std.specs.Prelude.{◌≡◌, ◌<◌, ◌≤◌, All, IfOk, length};
ghost use Rattle.expand.specs.Columns.{fractional_columns, IsChosen};
ghost use Rattle.problem.specs.Limits.{most_columns};

use node_events::RationalPoint;
use pseudo_cost::Costs;
use std::alloc::{AllocError, Global};

/// The columns where the point isn't whole, by rising number. The one error is want of memory.
pub(crate) fn fractional_columns(
    alloc: Global,
    point: &RationalPoint,
) -> Result<Vec<usize>, AllocError>
    ensures columns { IfOk result (λ v. v.items ≡ fractional_columns point.now) }
    ensures there { IfOk result (λ v. All (λ j. j < length point.now) v.items) }
{
    let mut columns = Vec::new(alloc);
    for column in 0..point.len() {
        if !point.get(column).is_whole() {
            columns.push(column)?;
        }
    }
    Ok(columns)
}

/// Of the columns where the point isn't whole the one of greatest score; none where there is no such column.
pub(crate) fn split_column(costs: &Costs, columns: &[usize]) -> Option<u32>
    requires few { length costs.now ≤ most_columns }
    requires there { All (λ j. j < length costs.now) columns.now }
    ensures { IsChosen costs.now columns.now result }
{
    if columns.is_empty() {
        None
    } else {
        Some(costs.choose(columns) as u32)
    }
}
