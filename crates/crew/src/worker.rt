//! What a worker keeps between nodes.
ghost use Rattle.std.specs.Prelude.{◌≡◌, ◌≤◌, ◌+◌, ◌++◌, ◌<◌, [], IfOk, OnOk, length};
ghost use Rattle.derivation_book.specs.Cuts.{AreCutsAfter};
ghost use Rattle.dual_simplex.specs.Prepared.{IsRelaxationOf};
ghost use Rattle.expand.specs.Expansion.{IsExpansion, costs_after};
ghost use Rattle.expand.specs.Findings.{IsTrueFinding};
ghost use Rattle.core_search.specs.Deciding.{IsLastLook};
ghost use Rattle.crew.specs.Origins.{origin_in};
ghost use Rattle.crew.specs.Workers.{IsPrepared, IsNodeOf};
ghost use Rattle.problem.specs.Limits.{most_cuts};

use crate::cuts::add_cuts;
use crate::node_view::NodeView;
use crate::split_values::SplitValues;
use derivation_book::{Book, Cut};
use dual_simplex::Relaxation;
use expand::{Finding, Subproblem, expand};
use problem::Problem;
use pseudo_cost::Costs;
use std::alloc::{AllocError, Global};

/// What a worker keeps between nodes. Nothing of it is shared.
pub(crate) struct Worker {
    /// The cuts that the worker knows: the first of all.
    pub book: Book,
    /// The relaxation of the problem with these cuts.
    pub relaxation: Relaxation,
    /// What the splits of each column have gained so far, as far as the worker saw them.
    pub costs: Costs,
    /// The optimal values of the nodes that the worker split.
    pub splits: SplitValues,
}

/// By hand (docs/DECISIONS.md, entry 98).
impl Drop for Worker {
    fn drop(self) {
        let Worker {
            book: _,
            relaxation: _,
            costs: _,
            splits: _,
        } = self;
    }
}

/// The relaxation of the problem with all cuts of the book. The one error is want of memory.
fn relaxation_of(alloc: Global, problem: &Problem, book: &Book) -> Result<Relaxation, AllocError>
    requires { length book.now.cuts ≤ most_cuts }
    ensures cuts { IfOk result (λ r. r.cuts ≡ length book.now.cuts) }
    ensures prepared { IfOk result (λ r. IsRelaxationOf problem.now book.now.cuts r) }
{
    Relaxation::new(alloc, problem, book, book.len())
}

impl Worker {
    /// A worker that knows no cut and has noted nothing yet. The one error is want of memory.
    pub(crate) fn new(alloc: Global, problem: &Problem) -> Result<Worker, AllocError>
        ensures prepared { IfOk result (λ w. IsPrepared problem.now w) }
        ensures book { IfOk result (λ w. w.book.cuts ≡ []) }
    {
        let book = Book::make(alloc);
        let relaxation = relaxation_of(alloc, problem, &book)?;
        let costs = Costs::make(alloc, problem.columns())?;
        Ok(Worker {
            book,
            relaxation,
            costs,
            splits: SplitValues::new(alloc),
        })
    }

    /// Puts cuts behind those that the worker knows, and prepares the relaxation anew where there are any. The one error is want of memory.
    pub(crate) fn learn(
        &mut self,
        alloc: Global,
        problem: &Problem,
        cuts: Vec<Cut>,
    ) -> Result<(), AllocError>
        requires prepared { IsPrepared problem.now self.old }
        requires cuts { AreCutsAfter problem.now self.old.book.cuts cuts.items }
        requires few { length self.old.book.cuts + length cuts.items ≤ most_cuts }
        ensures book { OnOk result (self.new.book.cuts ≡ self.old.book.cuts ++ cuts.items) }
        ensures prepared { OnOk result (IsPrepared problem.now self.new) }
        ensures splits { self.new.splits ≡ self.old.splits }
    {
        if cuts.is_empty() {
            return Ok(());
        }
        add_cuts(alloc, problem, &mut self.book, cuts)?;
        self.relaxation
            .renew(alloc, problem, &self.book, self.book.len())
    }

    /// What is found of a node by the cuts that the worker knows, with room for so many more. The one error is want of memory.
    pub(crate) fn look(
        &mut self,
        alloc: Global,
        problem: &Problem,
        node: &NodeView,
        room: usize,
    ) -> Result<Finding, AllocError>
        requires prepared { IsPrepared problem.now self.old }
        requires few { length self.old.book.cuts ≤ most_cuts }
        requires node { IsNodeOf problem.now node.now }
        ensures found { IfOk result (λ f. IsExpansion problem.now self.old.book.cuts node.now.area node.now.cutoff self.new.costs room f) }
        ensures noted { OnOk result (self.new.costs ≡ costs_after problem.now self.old.book.cuts node.now.area node.now.cutoff (origin_in self.old.splits node.now.branch) self.old.costs) }
        ensures holds { IfOk result (λ f. IsTrueFinding problem.now self.old.book.cuts node.now.area node.now.cutoff f) }
        ensures last { IfOk result (λ f. IsLastLook room f) }
        ensures prepared { IsPrepared problem.now self.new }
        ensures book { self.new.book ≡ self.old.book }
        ensures splits { self.new.splits ≡ self.old.splits }
    {
        let origin = self.splits.origin_of(&node.branch);
        let subproblem = Subproblem {
            problem,
            book: &self.book,
            area: &node.area,
            cutoff: node.cutoff,
        };
        expand(
            alloc,
            &subproblem,
            &mut self.relaxation,
            &mut self.costs,
            origin,
            room,
        )
    }
}
