// The pseudo-costs of a problem's columns.
ghost use Rattle.std.specs.Prelude.{◌≡◌, ◌<◌, ◌≤◌, All, IfOk, length, replicate};
ghost use Rattle.pseudo_cost.specs.ColumnGains.{no_column_gains, noted, IsBetterOf, IsBestColumn};
ghost use Rattle.pseudo_cost.specs.Gains.{largest_gain};

use crate::column_gains::ColumnGains;
use crate::side::Side;
use std::alloc::{AllocError, Global};
use std::marker::Model;

/// The pseudo-costs of the columns of a problem, seen as the gains that each column has noted on its two sides. Columns are numbered from 0.
#[derive(Drop)]
pub struct Costs {
    columns: Vec<ColumnGains>,
}

impl Model for Costs {
    ghost use Rattle.std.specs.Prelude.{List, All};
    ghost use Rattle.pseudo_cost.specs.declared.column_gains.ColumnGains.{ColumnGains};
    ghost use Rattle.pseudo_cost.specs.ColumnGains.{AreWithinLimits};

    ghost Value = { List ColumnGains };

    ghost view = { λ c. c.columns.items };

    ghost invariant = { λ c. All AreWithinLimits c.columns.items };
}

impl Costs {
    /// The costs of so many columns, with nothing noted.
    ///
    /// # Errors
    ///
    /// `AllocError` where memory is out.
    pub fn make(alloc: Global, columns: usize) -> Result<Costs, AllocError>
        ensures value { IfOk result (λ c. c ≡ replicate columns no_column_gains) }
        ensures columns { IfOk result (λ c. length c ≡ columns) }
    {
        let mut items = Vec::with_capacity(alloc, columns)?;
        for _ in 0..columns {
            items.push(ColumnGains::none())?;
        }
        Ok(Costs { columns: items })
    }

    /// Notes the gain of a child of a split in this column. The column is one of these, and the gain is at most the greatest.
    ///
    /// A side that has noted 2^32 gains takes no more.
    pub fn note(&mut self, column: usize, side: Side, gain: u32)
        requires there { column < length self.old }
        requires bounded { gain ≤ largest_gain }
        ensures value { self.new ≡ noted column side gain self.old }
        ensures columns { length self.new ≡ length self.old }
    {
        self.columns[column] = self.columns[column].with(side, gain);
    }

    /// The one of two columns that has the greater score, or the lesser column where scores are equal.
    fn better(&self, best: usize, column: usize) -> usize
        requires best_there { best < length self.now }
        requires there { column < length self.now }
        ensures { IsBetterOf self.now best column result }
    {
        let known = self.columns[best].score();
        let score = self.columns[column].score();
        if score > known || (score == known && column < best) {
            column
        } else {
            best
        }
    }

    /// The column of greatest score in a list, the least of them on a tie. The list isn't empty, and its columns are some of these.
    pub fn choose(&self, columns: &[usize]) -> usize
        requires some { 0 < length columns.now }
        requires there { All (λ j. j < length self.now) columns.now }
        ensures { IsBestColumn self.now columns.now result }
    {
        let mut best = columns[0];
        for column in columns {
            best = self.better(best, *column);
        }
        best
    }
}
