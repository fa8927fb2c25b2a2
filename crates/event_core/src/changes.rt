// What events change.
ghost use Rattle.std.specs.Prelude.{◌≡◌, ◌<◌, ◌≤◌, ◌+◌, ◌-◌, None, Some, true, length, slice_get, vec_len, vec_capacity};
ghost use Rattle.node_tree.specs.Nodes.{children_at};
ghost use Rattle.node_tree.specs.Limits.{most_nodes};
ghost use Rattle.derivation_book.specs.Rounded.{rounded_row};
ghost use Rattle.incumbent.specs.Offers.{IsIncumbentOf, IsImprovement};
ghost use Rattle.event_core.specs.States.{is_open, box_of, tree_of};
ghost use Rattle.event_core.specs.Holds.{without_hold};
ghost use Rattle.event_core.specs.Splits.{has_both};
ghost use Rattle.event_core.specs.After.{after_claim, after_release, after_cut, after_offer, after_split, after_close, after};
ghost use Rattle.event_core.specs.Histories.{IsLegal};
ghost use Rattle.event_core.specs.Rooms.{HasNumbers, HasRoom, KeepsRooms, LeavesRooms};
ghost use Rattle.event_core.specs.Made.{made_for};
ghost use Rattle.event_core.specs.Sound.{IsSound};

use crate::entry::Holder;
use crate::made::Made;
use crate::parts::Parts;
use derivation_book::Cut;
use node_events::Event;
use node_tree::laws::boxes_are_cut;
use problem::Point;

/// Nobody holds the node from now on.
fn remove_holds(holds: &mut Vec<Holder>, node: u32)
    ensures items { holds.new.items ≡ without_hold node holds.old.items }
    ensures room { vec_capacity holds.old - vec_len holds.old ≤ vec_capacity holds.new - vec_len holds.new }
{
    holds.retain(|hold| hold.node != node);
}

impl Parts {
    /// The worker, if there is one, holds the node from now on. There is room.
    fn claim(&mut self, worker: Option<u32>, node: u32)
        requires { 0 < self.old.room.holds }
        ensures state { self.new.state ≡ after_claim self.old.state worker node }
        ensures left { self.old.room.holds ≤ self.new.room.holds + 1 }
        ensures others { self.new.room ≡ record self.old.room { holds = self.new.room.holds } }
    {
        if let Some(worker) = worker {
            self.holds.push_reserved(Holder { worker, node });
        }
    }

    /// Nobody holds the node from now on.
    fn release(&mut self, node: u32)
        ensures state { self.new.state ≡ after_release self.old.state node }
        ensures left { KeepsRooms self.old.room self.new.room }
    {
        remove_holds(&mut self.holds, node);
    }

    /// Puts a cut behind the others. There is room.
    fn add_cut(&mut self, cut: Cut)
        requires room { 0 < self.old.room.cuts }
        requires rounded { rounded_row self.old.state.problem self.old.state.cuts cut.mult ≡ Some cut.row }
        ensures state { self.new.state ≡ after_cut self.old.state cut.mult (Some cut.row) }
        ensures left { self.old.room.cuts ≤ self.new.room.cuts + 1 }
        ensures others { self.new.room ≡ record self.old.room { cuts = self.new.room.cuts } }
    {
        self.book.add_cut(&self.problem, cut.mult, cut.row);
    }

    /// A feasible point that is better than the incumbent is the incumbent from now on.
    fn improve(&mut self, point: Point)
        requires kept { IsIncumbentOf self.old.state.problem self.old.state.incumbent }
        requires better { IsImprovement self.old.state.problem self.old.state.incumbent point }
        ensures state { self.new.state ≡ after_offer self.old.state point }
        ensures left { KeepsRooms self.old.room self.new.room }
    {
        let _taken = self.incumbent.offer(&self.problem, point);
    }

    /// Closes an open node.
    fn close(&mut self, node: u32)
        requires { is_open self.old.state node ≡ true }
        ensures state { self.new.state ≡ after_close self.old.state node }
        ensures left { KeepsRooms self.old.room self.new.room }
    {
        // The next node that is asked for is mostly near this one.
        self.tree.move_to(node);
        self.ended[node as usize] = true;
        self.open_nodes -= 1;
        remove_holds(&mut self.holds, node);
    }

    /// Splits an open node that is a leaf: its children are two open nodes. There is room, and the column's span has both numbers.
    fn split(&mut self, node: u32, column: u32, bound: i64)
        requires splits { 0 < self.old.room.splits }
        requires nodes { 2 ≤ self.old.room.nodes }
        requires few { length self.old.state.nodes + 2 ≤ most_nodes }
        requires node_open { is_open self.old.state node ≡ true }
        requires leaf { children_at (tree_of self.old.state) node ≡ None }
        requires inside { has_both (slice_get (box_of self.old.state node) column) bound ≡ true }
        ensures state { self.new.state ≡ after_split self.old.state node column bound }
        ensures splits { self.old.room.splits ≤ self.new.room.splits + 1 }
        ensures nodes { self.old.room.nodes ≤ self.new.room.nodes + 2 }
        ensures cuts { self.old.room.cuts ≤ self.new.room.cuts }
        ensures holds { self.old.room.holds ≤ self.new.room.holds }
    {
        boxes_are_cut(&self.tree);
        self.tree.split(node, column, bound);
        self.ended[node as usize] = true;
        self.ended.push_reserved(false);
        self.ended.push_reserved(false);
        self.open_nodes += 1;
        remove_holds(&mut self.holds, node);
    }

    /// Has the tree keep the box of the node that an event splits or closes, if it is open. It takes no memory.
    pub(crate) fn approach(&mut self, event: &Event)
        ensures { self.new ≡ self.old }
    {
        match event {
            Event::Split { node, .. } | Event::Close { node, .. } => {
                if self.is_open(*node) {
                    self.tree.move_to(*node);
                }
            }
            _ => {}
        }
    }

    /// Changes what a legal event names, and nothing else. There is room, and what the event needs was made.
    pub(crate) fn change(&mut self, worker: Option<u32>, event: &Event, made: Made)
        requires sound { IsSound self.old.state }
        requires legal { IsLegal self.old.state worker event.now }
        requires numbers { HasNumbers self.old.state event.now }
        requires room { HasRoom self.old.room event.now }
        requires made { made ≡ made_for self.old.state.problem self.old.state.cuts event.now }
        ensures state { self.new.state ≡ after self.old.state worker event.now }
        ensures left { LeavesRooms self.old.room event.now self.new.room }
    {
        match event {
            Event::Claim { node } => self.claim(worker, *node),
            Event::Release { node } => self.release(*node),
            Event::Cut { .. } => {
                if let Made::Cut { cut } = made {
                    self.add_cut(cut);
                }
            }
            Event::Offer { .. } => {
                if let Made::Point { point } = made {
                    self.improve(point);
                }
            }
            Event::Split {
                node,
                column,
                bound,
                ..
            } => self.split(*node, *column, *bound),
            Event::Close { node, .. } => self.close(*node),
        }
    }
}
