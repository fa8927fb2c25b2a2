//! The tables before the first line.

ghost use Rattle.std.specs.Prelude.{◌≡◌, ℕ, Bool, List, []};
ghost use Rattle.mps_reader.specs.BoundTables.{HasBounds};
ghost use Rattle.mps_reader.specs.SectionOrder.{HasOrder};
ghost use Rattle.mps_reader.specs.SectionTables.{CountsRows, HoldsSections};
ghost use Rattle.mps_reader.specs.Sections.{DeclaredRows, none_yet};
ghost use Rattle.mps_reader.specs.SideLines.{HasSideLines};
ghost use Rattle.mps_reader.specs.State.{HasEntries};

use crate::bounds::Bounds;
use crate::columns::Columns;
use crate::keys::Lent;
use crate::kinds::RowType;
use crate::order::Order;
use crate::row_table::RowTable;
use crate::side_table::SideTable;
use crate::sides::Sides;
use crate::tables::Tables;
use indexmap::IndexMap;
use problem::ObjectiveSense;
use std::alloc::Global;
use std::hash::BuildHasher;

/// No sides.
fn no_sides<'a>(alloc: Global) -> Sides<'a>
    ensures { (ranged : Bool) (rows : DeclaredRows) → HasSideLines ranged rows result [] }
{
    Sides {
        numbers: SideTable::new(alloc),
        group: None,
        ranged: 0,
    }
}

/// No bounds.
fn no_bounds<'a, 'k, B: BuildHasher + Drop>(alloc: Global, keys: &'k B) -> Bounds<'a, Lent<'k, B>>
    ensures { HasBounds result [] }
{
    Bounds {
        limits: IndexMap::with_hasher(alloc, Lent::of(keys)),
        group: None,
    }
}

/// The order before the first section.
fn no_order() -> Order
    ensures { HasOrder result none_yet }
{
    Order {
        last: None,
        has_rhs: false,
        has_ranges: false,
        has_bounds: false,
        has_sense: false,
        sense: ObjectiveSense::Minimise,
    }
}

/// No columns.
fn no_columns<'a, 'k, B: BuildHasher + Drop>(alloc: Global, keys: &'k B) -> Columns<'a, Lent<'k, B>>
    ensures { HasEntries result [] [] }
{
    Columns {
        columns: IndexMap::with_hasher(alloc, Lent::of(keys)),
        last: None,
        place: 0,
        rows: RowTable::new(alloc),
    }
}

/// Empty tables.
pub fn empty_tables<'a, 'k, B: BuildHasher + Drop>(
    alloc: Global,
    keys: &'k B,
) -> Tables<'a, Lent<'k, B>>
    ensures tables { HoldsSections result none_yet }
    ensures count { CountsRows result }
{
    Tables {
        order: no_order(),
        rows_at: 0,
        rows: IndexMap::with_hasher(alloc, Lent::of(keys)),
        count: 0,
        columns: no_columns(alloc, keys),
        is_marked: false,
        rhs: no_sides(alloc),
        ranges: no_sides(alloc),
        bounds: no_bounds(alloc, keys),
    }
}
