// The nodes of a path that set the bounds of a node's box.
ghost use Rattle.std.specs.Prelude.{◌≡◌, ◌<◌, IfOk, length, replicate};
ghost use Rattle.cert_merge.specs.Setters.{no_setter, set_by, set_at, with_setter, with_set};

use node_tree::Side;
use std::alloc::{AllocError, Global};
use std::marker::Model;

/// The deepest nodes of a path that set the lower and the upper bound of one column.
#[derive(Clone, Copy)]
pub struct Setter {
    pub low: Option<u32>,
    pub high: Option<u32>,
}

impl Setter {
    /// The node that set this bound.
    fn get(self, side: Side) -> Option<u32>
        ensures { result ≡ set_by side self }
    {
        match side {
            Side::Low => self.low,
            Side::High => self.high,
        }
    }

    /// The same, but that this node, or none, set the bound.
    fn with(self, side: Side, node: Option<u32>) -> Setter
        ensures { result ≡ with_setter side node self }
    {
        match side {
            Side::Low => Setter {
                low: node,
                high: self.high,
            },
            Side::High => Setter {
                low: self.low,
                high: node,
            },
        }
    }
}

/// The setters of each column, seen as a list.
#[derive(Drop)]
pub struct Setters {
    columns: Vec<Setter>,
}

impl Model for Setters {
    ghost use Rattle.std.specs.Prelude.{List};
    ghost use Rattle.cert_merge.specs.declared.setters.Setter.{Setter};

    ghost Value = { List Setter };

    ghost view = { λ s. s.columns.items };
}

impl Setters {
    /// A table of so many columns in which no node set a bound. The one error is want of memory.
    pub fn new(alloc: Global, columns: usize) -> Result<Setters, AllocError>
        ensures { IfOk result (λ t. t ≡ replicate columns no_setter) }
    {
        let unset = Setter {
            low: None,
            high: None,
        };
        let columns = vec![in alloc; unset; columns]?;
        Ok(Setters { columns })
    }

    /// The node that set a bound of a column that is there.
    pub fn get(&self, column: usize, side: Side) -> Option<u32>
        requires { column < length self.now }
        ensures { result ≡ set_at self.now column side }
    {
        self.columns[column].get(side)
    }

    /// Enters the node, or none, that set a bound of a column that is there.
    pub fn set(&mut self, column: usize, side: Side, node: Option<u32>)
        requires { column < length self.old }
        ensures { self.new ≡ with_set self.old column side node }
    {
        let setter = self.columns[column];
        self.columns[column] = setter.with(side, node);
    }
}
