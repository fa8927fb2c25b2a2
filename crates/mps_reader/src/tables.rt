//! What the reader has seen so far.

use crate::bounds::Bounds;
use crate::columns::Columns;
use crate::kinds::RowType;
use crate::order::Order;
use crate::sides::Sides;
use indexmap::IndexMap;
use std::hash::BuildHasher;

/// The tables of the lines so far: the order of the sections, the line of ROWS, the rows and how many of them count, the columns and
/// whether the last marker begins whole ones, and the later sections.
pub struct Tables<'a, B: BuildHasher + Drop> {
    pub order: Order,
    pub rows_at: u64,
    pub rows: IndexMap<&'a [u8], RowType, B>,
    pub count: usize,
    pub columns: Columns<'a, B>,
    pub is_marked: bool,
    pub rhs: Sides<'a>,
    pub ranges: Sides<'a>,
    pub bounds: Bounds<'a, B>,
}

/// By hand (docs/DECISIONS.md, entry 98).
impl<'a, B: BuildHasher + Drop> Drop for Tables<'a, B> {
    fn drop(self) {
        let Tables {
            order: _,
            rows_at: _,
            rows: _,
            count: _,
            columns: _,
            is_marked: _,
            rhs: _,
            ranges: _,
            bounds: _,
        } = self;
    }
}
