//! The optimal values of the nodes that a worker split.
ghost use Rattle.std.specs.Prelude.{◌≡◌, ◌⊎◌, Some};
ghost use Rattle.std.specs.Ordering.{nat_cmp};
ghost use Rattle.std.specs.BTreeMap.{Updates, IsUnchanged};
ghost use Rattle.crew.specs.Origins.{side_of, origin_in, MayNote};

use expand::{Finding, Origin};
use fraction::Frac;
use node_tree::Branch;
use pseudo_cost::Side;
use std::alloc::Global;
use std::collections::BTreeMap;

/// The optimal values of the nodes that one worker found to have a fractional optimum, by node number.
#[derive(Drop)]
pub(crate) struct SplitValues {
    values: BTreeMap<u32, Frac>,
}

/// The side of a split on which the branch leads.
fn side_of(side: node_tree::Side) -> Side
    ensures { result ≡ side_of side }
{
    match side {
        node_tree::Side::Low => Side::Up,
        node_tree::Side::High => Side::Down,
    }
}

impl SplitValues {
    /// No node yet.
    pub(crate) fn new(alloc: Global) -> SplitValues {
        SplitValues {
            values: BTreeMap::new(alloc),
        }
    }

    /// Notes the optimal value of a node. Without memory a hint for later columns is lost, and nothing else.
    fn put(&mut self, node: u32, value: Frac)
        ensures { Updates nat_cmp self.old.values self.new.values node (Some value) ⊎ IsUnchanged self.old.values self.new.values }
    {
        let _ = self.values.insert(node, value);
    }

    /// Notes the optimal value of a node, where what is found of it is a fractional optimum, so that it may be split there.
    pub(crate) fn note(&mut self, node: u32, finding: &Finding)
        ensures { MayNote self.old self.new node finding.now }
    {
        match finding {
            Finding::Solved {
                value,
                column: Some(_),
                ..
            } => self.put(node, *value),
            _ => {}
        }
    }

    /// The split that made a node, by the branch that leads to it, where the optimal value of its parent was noted.
    pub(crate) fn origin_of(&self, branch: &Option<Branch>) -> Option<Origin>
        ensures { result ≡ origin_in self.now branch.now }
    {
        let Some(branch) = branch else { return None };
        match self.values.get(&branch.parent) {
            Some(value) => Some(Origin {
                column: branch.column as usize,
                side: side_of(branch.side),
                value: *value,
            }),
            None => None,
        }
    }
}
