// A state without its history.
ghost use Rattle.std.specs.Prelude.{◌≡◌, IfOk};
ghost use Rattle.event_core.specs.States.{first_state};

use crate::entry::Holder;
use derivation_book::Book;
use incumbent::Incumbent;
use node_tree::Tree;
use problem::Problem;
use std::alloc::{AllocError, Global};
use std::marker::Model;

/// The parts of a state, seen as the state with the room that there is in them.
pub struct Parts {
    pub(crate) problem: Problem,
    pub(crate) tree: Tree,
    /// For each node, whether it was split or closed.
    pub(crate) ended: Vec<bool>,
    /// How many nodes are open. It is kept, as it is asked for each time that a node is done with.
    pub(crate) open_nodes: usize,
    pub(crate) book: Book,
    pub(crate) incumbent: Incumbent,
    pub(crate) holds: Vec<Holder>,
}

/// By hand (docs/DECISIONS.md, entry 98).
impl Drop for Parts {
    fn drop(self) {
        let Parts {
            problem: _,
            tree: _,
            ended: _,
            open_nodes: _,
            book: _,
            incumbent: _,
            holds: _,
        } = self;
    }
}

impl Model for Parts {
    ghost use Rattle.std.specs.Prelude.{◌≡◌, ◌-◌, not, length, vec_len, vec_capacity};
    ghost use Rattle.std.specs.List.{count_by};
    ghost use Rattle.event_core.specs.Rooms.{Standing};

    ghost Value = { Standing };

    ghost view = { λ a. record { state = record { problem = a.problem; nodes = a.tree.nodes; ended = a.ended.items; cuts = a.book.cuts; incumbent = a.incumbent; holds = a.holds.items }; room = record { splits = a.tree.room; nodes = vec_capacity a.ended - vec_len a.ended; cuts = a.book.room; holds = vec_capacity a.holds - vec_len a.holds } } };

    ghost invariant = { λ a. (a.tree.root ≡ a.problem.spans) × (length a.ended.items ≡ length a.tree.nodes) × (a.open_nodes ≡ count_by not a.ended.items) };
}

impl Parts {
    /// Node 0 alone. The one error is want of memory.
    pub(crate) fn make(alloc: Global, problem: Problem) -> Result<Parts, AllocError>
        ensures { IfOk result (λ a. a.state ≡ first_state problem) }
    {
        let root = problem.root().copy(alloc)?;
        let tree = Tree::make(alloc, root)?;
        let ended = vec![in alloc; false]?;
        Ok(Parts {
            problem,
            tree,
            ended,
            open_nodes: 1,
            book: Book::make(alloc),
            incumbent: Incumbent::none(),
            holds: Vec::new(alloc),
        })
    }
}
