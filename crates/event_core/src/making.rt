// What events need before they are applied: room, and what is made for them.
ghost use Rattle.std.specs.Prelude.{◌≡◌, ◌<◌, ◌≤◌, ◌+◌, ◌*◌, ◌++◌, length, take, IfOk, OnOk};
ghost use Rattle.derivation_book.specs.Rounded.{rounded_row};
ghost use Rattle.event_core.specs.Frames.{is_split, cut_of_row};
ghost use Rattle.event_core.specs.Rooms.{HasNumbers, HasRoom, HasRoomFor, KeepsRooms, split_count};
ghost use Rattle.event_core.specs.Made.{made_cut, made_for, cuts_with, made_for_each};
ghost use Rattle.node_tree.specs.Limits.{most_nodes};

use crate::made::Made;
use crate::parts::Parts;
use derivation_book::{Book, Cut};
use node_events::{Event, Mult};
use problem::Problem;
use std::alloc::{AllocError, Global};

/// Whether the event splits a node.
fn is_split(event: &Event) -> bool
    ensures { result ≡ is_split event.now }
{
    match event {
        Event::Split { .. } => true,
        _ => false,
    }
}

/// How many nodes the events split.
fn split_count(events: &[Event]) -> usize
    ensures count { result ≡ split_count events.now }
    ensures few { result ≤ length events.now }
{
    let mut count = 0;
    for event in events {
        if is_split(event) {
            count += 1;
        }
    }
    count
}

/// The cut of these multipliers over the cuts of a book, if they have a row. The one error is want of memory.
fn made_cut(alloc: Global, book: &Book, problem: &Problem, mult: &Mult) -> Result<Made, AllocError>
    ensures { IfOk result (λ m. m ≡ made_cut mult.now (rounded_row problem.now book.now.cuts mult.now)) }
{
    match book.cg_row(alloc, problem, mult)? {
        Some(row) => {
            let mult = mult.copy(alloc)?;
            Ok(Made::Cut {
                cut: Cut { row, mult },
            })
        }
        None => Ok(Made::Nothing),
    }
}

/// What the event needs that has to be made, by the cuts of a book. The one error is want of memory.
fn made_for(
    alloc: Global,
    book: &Book,
    problem: &Problem,
    event: &Event,
) -> Result<Made, AllocError>
    ensures { IfOk result (λ m. m ≡ made_for problem.now book.now.cuts event.now) }
{
    match event {
        Event::Cut { mult } => made_cut(alloc, book, problem, mult),
        Event::Offer { point } => {
            let point = point.copy(alloc)?;
            Ok(Made::Point { point })
        }
        Event::Claim { .. } | Event::Release { .. } | Event::Split { .. } | Event::Close { .. } => {
            Ok(Made::Nothing)
        }
    }
}

/// Puts the cut that was made for an event, if one was, behind the others, so that the next ones are made over it. The one error is want of memory.
fn put_cut(
    alloc: Global,
    book: &mut Book,
    problem: &Problem,
    event: &Event,
    made: &Made,
) -> Result<(), AllocError>
    requires { made.now ≡ made_for problem.now book.old.cuts event.now }
    ensures cuts { OnOk result (book.new.cuts ≡ cuts_with problem.now book.old.cuts event.now) }
    ensures begun { take (length book.old.cuts) book.new.cuts ≡ book.old.cuts }
    ensures room { length book.old.cuts + book.old.room ≤ length book.new.cuts + book.new.room }
{
    if let Made::Cut { cut } = made {
        let row = cut.row.copy(alloc)?;
        let mult = cut.mult.copy(alloc)?;
        book.reserve(1)?;
        book.add_cut(problem, mult, row);
    }
    Ok(())
}

/// What the events of a list need that has to be made, each over the cuts of those before it. These cuts are left in the book. The one error is want
/// of memory.
fn made_over(
    alloc: Global,
    book: &mut Book,
    problem: &Problem,
    events: &[Event],
) -> Result<Vec<Made>, AllocError>
    ensures made { IfOk result (λ v. v.items ≡ made_for_each problem.now book.old.cuts events.now) }
    ensures begun { take (length book.old.cuts) book.new.cuts ≡ book.old.cuts }
    ensures room { length book.old.cuts + book.old.room ≤ length book.new.cuts + book.new.room }
{
    let mut all = Vec::new(alloc);
    for event in events {
        let made = made_for(alloc, book, problem, event)?;
        put_cut(alloc, book, problem, event, &made)?;
        all.push(made)?;
    }
    Ok(all)
}

impl Parts {
    /// Makes room for what the event changes. The nodes of a split are few enough. The one error is want of memory.
    pub(crate) fn reserve(&mut self, event: &Event) -> Result<(), AllocError>
        requires { HasNumbers self.old.state event.now }
        ensures same { self.new.state ≡ self.old.state }
        ensures kept { KeepsRooms self.old.room self.new.room }
        ensures room { OnOk result (HasRoom self.new.room event.now) }
    {
        match event {
            Event::Claim { .. } => self.holds.reserve(1),
            Event::Cut { .. } => self.book.reserve(1),
            Event::Split { .. } => {
                self.ended.reserve(2)?;
                self.tree.reserve(1)
            }
            Event::Release { .. } | Event::Offer { .. } | Event::Close { .. } => Ok(()),
        }
    }

    /// Makes room for what the events of a list change. The nodes of its splits are few enough. The one error is want of memory.
    pub(crate) fn reserve_for(&mut self, events: &[Event]) -> Result<(), AllocError>
        requires { length self.old.state.nodes + 2 * split_count events.now ≤ most_nodes }
        ensures same { self.new.state ≡ self.old.state }
        ensures kept { KeepsRooms self.old.room self.new.room }
        ensures room { OnOk result (HasRoomFor self.new.room events.now) }
    {
        let splits = split_count(events);
        self.holds.reserve(events.len())?;
        self.book.reserve(events.len())?;
        self.ended.reserve(2 * splits)?;
        self.tree.reserve(splits)
    }

    /// What the event needs that has to be made. The one error is want of memory.
    pub(crate) fn make_for(&self, alloc: Global, event: &Event) -> Result<Made, AllocError>
        ensures { IfOk result (λ m. m ≡ made_for self.now.state.problem self.now.state.cuts event.now) }
    {
        made_for(alloc, &self.book, &self.problem, event)
    }

    /// What the events of a list need that has to be made, each by the cuts that there are after those before it. The one error is want of memory.
    pub(crate) fn make_for_each(
        &mut self,
        alloc: Global,
        events: &[Event],
    ) -> Result<Vec<Made>, AllocError>
        ensures same { self.new.state ≡ self.old.state }
        ensures kept { KeepsRooms self.old.room self.new.room }
        ensures made { IfOk result (λ v. v.items ≡ made_for_each self.old.state.problem self.old.state.cuts events.now) }
    {
        let count = self.book.len();
        let made = made_over(alloc, &mut self.book, &self.problem, events);
        self.book.truncate(count);
        made
    }
}
