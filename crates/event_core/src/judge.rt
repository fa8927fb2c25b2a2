// Which events are admitted.
ghost use Rattle.std.specs.Prelude.{◌≡◌, ◌≤◌, true, IfOk, IfSome, length, slice_get, All};
ghost use Rattle.problem.specs.Limited.{IsModestSpan};
ghost use Rattle.problem.specs.Limits.{most_cuts};
ghost use Rattle.dual_simplex.specs.Prepared.{IsKept};
ghost use Rattle.derivation_book.specs.Legal.{is_legal_proof};
ghost use Rattle.event_core.specs.declared.admit.Admit.TheVariants.{Yes, BadSplit, BadReason, BadProof};
ghost use Rattle.event_core.specs.States.{is_open, box_of, cutoff};
ghost use Rattle.event_core.specs.Holds.{is_held, is_holding, holds_node, is_busy, is_yours};
ghost use Rattle.event_core.specs.Splits.{has_both, is_reason};
ghost use Rattle.event_core.specs.Judging.{checked, judged_claim, judged_release, judged_cut, judged_offer, judged_split, judged_close, judged};

use crate::admit::Admit;
use crate::parts::Parts;
use crate::split_place::SplitPlace;
use crate::split_rule::{has_both, is_reason};
use dual_simplex::KeptRelaxation;
use node_events::{Event, Mult, Proof, Reason};
use node_tree::laws::boxes_are_cut;
use problem::{MOST_CUTS, Point};
use problem_box::IntBox;
use std::alloc::{AllocError, Global};

impl Parts {
    /// Whether the node is there and has not ended.
    pub(crate) fn is_open(&self, node: u32) -> bool
        ensures { result ≡ is_open self.now.state node }
    {
        let node = node as usize;
        node < self.ended.len() && !self.ended[node]
    }

    /// Whether somebody holds the node.
    fn is_held(&self, node: u32) -> bool
        ensures { result ≡ is_held self.now.state node }
    {
        self.holds.iter().any(|hold| hold.node == node)
    }

    /// Whether the worker holds a node.
    fn is_holding(&self, worker: u32) -> bool
        ensures { result ≡ is_holding self.now.state worker }
    {
        self.holds.iter().any(|hold| hold.worker == worker)
    }

    /// Whether the worker holds this node.
    fn holds_node(&self, worker: u32, node: u32) -> bool
        ensures { result ≡ holds_node self.now.state worker node }
    {
        self.holds
            .iter()
            .any(|hold| hold.worker == worker && hold.node == node)
    }

    /// Whether the worker, if there is one, holds a node.
    fn is_busy(&self, worker: Option<u32>) -> bool
        ensures { result ≡ is_busy self.now.state worker }
    {
        match worker {
            Some(worker) => self.is_holding(worker),
            None => false,
        }
    }

    /// Whether the worker, if there is one, holds this node.
    fn is_yours(&self, worker: Option<u32>, node: u32) -> bool
        ensures { result ≡ is_yours self.now.state worker node }
    {
        match worker {
            Some(worker) => self.holds_node(worker, node),
            None => true,
        }
    }

    /// The box of an open node: it has a span for each column, and these are no larger than the problem's may be. The one error is want of memory.
    fn box_of(&self, alloc: Global, node: u32) -> Result<IntBox, AllocError>
        requires { is_open self.now.state node ≡ true }
        ensures same { IfOk result (λ b. b ≡ box_of self.now.state node) }
        ensures columns { IfOk result (λ b. length b ≡ length self.now.state.problem.spans) }
        ensures modest { IfOk result (λ b. All IsModestSpan b) }
    {
        self.problem.limits_hold();
        boxes_are_cut(&self.tree);
        self.tree.box_of(alloc, node)
    }

    /// The box of an open node, likewise, where the tree keeps it.
    fn kept_box(&self, node: u32) -> Option<&IntBox>
        requires { is_open self.now.state node ≡ true }
        ensures same { IfSome result (λ b. b.now ≡ box_of self.now.state node) }
        ensures columns { IfSome result (λ b. length b.now ≡ length self.now.state.problem.spans) }
        ensures modest { IfSome result (λ b. All IsModestSpan b.now) }
    {
        self.problem.limits_hold();
        boxes_are_cut(&self.tree);
        // Taken apart for the proof: LLVM leaves nothing of it.
        match self.tree.kept_box(node) {
            Some(area) => Some(area),
            None => None,
        }
    }

    /// The answer to a claim.
    fn judge_claim(&self, worker: Option<u32>, node: u32) -> Admit
        ensures { result ≡ judged_claim self.now.state worker node }
    {
        if !self.is_open(node) {
            return Admit::NotOpen;
        }
        if self.is_held(node) || self.is_busy(worker) {
            return Admit::NotYours;
        }
        Admit::Yes
    }

    /// The answer to a release.
    fn judge_release(&self, worker: Option<u32>, node: u32) -> Admit
        ensures { result ≡ judged_release self.now.state worker node }
    {
        if !self.is_open(node) {
            return Admit::NotOpen;
        }
        if !self.is_yours(worker, node) {
            return Admit::NotYours;
        }
        Admit::Yes
    }

    /// The answer to a cut. The one error is want of memory.
    fn judge_cut(&self, alloc: Global, mult: &Mult) -> Result<Admit, AllocError>
        ensures { IfOk result (λ a. a ≡ judged_cut self.now.state mult.now) }
    {
        if self.book.len() >= MOST_CUTS as usize {
            return Ok(Admit::Full);
        }
        match self.book.cg_row(alloc, &self.problem, mult)? {
            Some(_) => Ok(Admit::Yes),
            None => Ok(Admit::BadCut),
        }
    }

    /// The answer to an offer.
    fn judge_offer(&self, point: &Point) -> Admit
        ensures { result ≡ judged_offer self.now.state point.now }
    {
        if !self.problem.is_feasible(point.as_slice()) {
            return Admit::BadPoint;
        }
        if !self
            .incumbent
            .is_bettered_by(self.problem.aim_value(point.as_slice()))
        {
            return Admit::NotBetter;
        }
        Admit::Yes
    }

    /// The answer to a split of a node with this box, whoever holds it. The one error is want of memory.
    fn judge_halves(
        &self,
        alloc: Global,
        area: &IntBox,
        at: SplitPlace,
        reason: &Reason,
        kept: &mut KeptRelaxation,
    ) -> Result<Admit, AllocError>
        requires few { length self.now.state.cuts ≤ most_cuts }
        requires kept { IsKept self.now.state.problem self.now.state.cuts kept.old }
        requires columns { length area.now ≡ length self.now.state.problem.spans }
        requires modest { All IsModestSpan area.now }
        ensures answer { IfOk result (λ a. a ≡ checked (has_both (slice_get area.now at.column) at.bound) BadSplit (checked (is_reason self.now.state.problem self.now.state.cuts area.now (cutoff self.now.state) at.column at.bound reason.now) BadReason Yes)) }
        ensures kept { IsKept self.now.state.problem self.now.state.cuts kept.new }
    {
        if !has_both(area, at.column, at.bound) {
            return Ok(Admit::BadSplit);
        }
        let cutoff = self.incumbent.cutoff();
        if !is_reason(
            alloc,
            &self.problem,
            &self.book,
            kept,
            area,
            cutoff,
            at,
            reason,
        )? {
            return Ok(Admit::BadReason);
        }
        Ok(Admit::Yes)
    }

    /// The answer to a split. The one error is want of memory.
    fn judge_split(
        &self,
        alloc: Global,
        worker: Option<u32>,
        node: u32,
        column: u32,
        bound: i64,
        reason: &Reason,
        kept: &mut KeptRelaxation,
    ) -> Result<Admit, AllocError>
        requires few { length self.now.state.cuts ≤ most_cuts }
        requires kept { IsKept self.now.state.problem self.now.state.cuts kept.old }
        ensures answer { IfOk result (λ a. a ≡ judged_split self.now.state worker node column bound reason.now) }
        ensures kept { IsKept self.now.state.problem self.now.state.cuts kept.new }
    {
        if !self.is_open(node) {
            return Ok(Admit::NotOpen);
        }
        if !self.is_yours(worker, node) {
            return Ok(Admit::NotYours);
        }
        let at = SplitPlace { column, bound };
        if let Some(area) = self.kept_box(node) {
            return self.judge_halves(alloc, area, at, reason, kept);
        }
        let area = self.box_of(alloc, node)?;
        self.judge_halves(alloc, &area, at, reason, kept)
    }

    /// The answer to a closing of a node with this box, whoever holds it. The one error is want of memory.
    fn judge_proof(&self, alloc: Global, area: &IntBox, proof: &Proof) -> Result<Admit, AllocError>
        requires { length area.now ≡ length self.now.state.problem.spans }
        ensures { IfOk result (λ a. a ≡ checked (is_legal_proof self.now.state.problem self.now.state.cuts area.now (cutoff self.now.state) proof.now) BadProof Yes) }
    {
        let cutoff = self.incumbent.cutoff();
        if !self.book.admits(alloc, &self.problem, area, cutoff, proof)? {
            return Ok(Admit::BadProof);
        }
        Ok(Admit::Yes)
    }

    /// The answer to a closing. The one error is want of memory.
    fn judge_close(
        &self,
        alloc: Global,
        worker: Option<u32>,
        node: u32,
        proof: &Proof,
    ) -> Result<Admit, AllocError>
        ensures { IfOk result (λ a. a ≡ judged_close self.now.state worker node proof.now) }
    {
        if !self.is_open(node) {
            return Ok(Admit::NotOpen);
        }
        if !self.is_yours(worker, node) {
            return Ok(Admit::NotYours);
        }
        if let Some(area) = self.kept_box(node) {
            return self.judge_proof(alloc, area, proof);
        }
        let area = self.box_of(alloc, node)?;
        self.judge_proof(alloc, &area, proof)
    }

    /// The answer to an event of this worker, or of none. The one error is want of memory.
    pub(crate) fn admits(
        &self,
        alloc: Global,
        worker: Option<u32>,
        event: &Event,
        kept: &mut KeptRelaxation,
    ) -> Result<Admit, AllocError>
        requires few { length self.now.state.cuts ≤ most_cuts }
        requires kept { IsKept self.now.state.problem self.now.state.cuts kept.old }
        ensures answer { IfOk result (λ a. a ≡ judged self.now.state worker event.now) }
        ensures kept { IsKept self.now.state.problem self.now.state.cuts kept.new }
    {
        match event {
            Event::Claim { node } => Ok(self.judge_claim(worker, *node)),
            Event::Release { node } => Ok(self.judge_release(worker, *node)),
            Event::Cut { mult } => self.judge_cut(alloc, mult),
            Event::Offer { point } => Ok(self.judge_offer(point)),
            Event::Split {
                node,
                column,
                bound,
                reason,
            } => self.judge_split(alloc, worker, *node, *column, *bound, reason, kept),
            Event::Close { node, proof } => self.judge_close(alloc, worker, *node, proof),
        }
    }
}
