// The derived lines of a certificate, one after another.
ghost use Rattle.std.specs.Prelude.{◌≡◌, ◌<◌, Some, IfOk, length, slice_get};
ghost use Rattle.event_core.specs.States.{open_count};
ghost use Rattle.cert_merge.specs.declared.feed_place.FeedPlace.TheVariants as places;
ghost use Rattle.cert_merge.specs.FeedLines.{IsReadyFeed, lines_from};
ghost use Rattle.cert_merge.specs.Layout.{layout_of};
ghost use Rattle.cert_merge.specs.Merged.{certificate_of, node_of};

use crate::closings::closings;
use crate::feed_place::FeedPlace;
use crate::layout::Layout;
use crate::lines::{assumption, cut_line, node_line};
use crate::path_setters::{PathSetters, branch_to};
use cert_rows::{CertRow, LineFeed, Why};
use event_core::State;
use std::alloc::{AllocError, Global};
use std::marker::Model;

/// The derived lines of the certificate of a search in which no node is open, seen as the list of those that are still to come. It keeps a place in
/// them and no list of lines: 16 bytes for each node (docs/DECISIONS.md, entry 22).
#[derive(Drop)]
pub struct Feed<'a> {
    state: &'a State,
    layout: Layout,
    closings: Vec<usize>,
    setters: PathSetters,
    place: FeedPlace,
}

impl<'a> Model for Feed<'a> {
    ghost use Rattle.std.specs.Prelude.{List};
    ghost use Rattle.cert_rows.specs.declared.line.CertRow.{CertRow};
    ghost use Rattle.cert_rows.specs.declared.line.Why.{Why};
    ghost use Rattle.cert_merge.specs.FeedLines.{IsReadyFeed, lines_from};

    ghost Value = { List (CertRow × Why) };

    ghost view = { λ f. lines_from f.state.now.state f.state.now.history f.place };

    ghost invariant = { λ f. IsReadyFeed f.state.now f.layout f.closings.items f.setters f.place };
}

/// The line of the assumption of a node that is there and isn't node 0.
fn assumption_at(alloc: Global, state: &State, node: u32) -> Result<(CertRow, Why), AllocError>
    requires below { 0 < node }
    requires there { node < length state.now.state.nodes }
    ensures { IfOk result (λ l. slice_get (lines_from state.now.state state.now.history (places.Assumption node)) 0 ≡ Some l) }
{
    let branch = branch_to(state.tree(), node);
    assumption(alloc, node as usize, branch)
}

/// The line of a node that is there. The setters are moved to it.
fn node_at(
    alloc: Global,
    state: &State,
    layout: Layout,
    closings: &[usize],
    setters: &mut PathSetters,
    node: u32,
) -> Result<(CertRow, Why), AllocError>
    requires { IsReadyFeed state.now layout closings.now setters.old (places.Node node) }
    ensures ready { IsReadyFeed state.now layout closings.now setters.new (places.Node node) }
    ensures line { IfOk result (λ l. l ≡ node_of state.now.state state.now.history node) }
{
    state.conditions_hold();
    state.problem().limits_hold();
    let tree = state.tree();
    tree.conditions_hold();
    setters.walk(alloc, tree, node)?;
    node_line(alloc, state, layout, closings, &setters.table, node)
}

/// The line at a place, and none at the end.
fn line_at(
    alloc: Global,
    state: &State,
    layout: Layout,
    closings: &[usize],
    setters: &mut PathSetters,
    place: FeedPlace,
) -> Result<Option<(CertRow, Why)>, AllocError>
    requires { IsReadyFeed state.now layout closings.now setters.old place }
    ensures ready { IsReadyFeed state.now layout closings.now setters.new place }
    ensures line { IfOk result (λ l. l ≡ slice_get (lines_from state.now.state state.now.history place) 0) }
{
    match place {
        FeedPlace::Cut(index) => Ok(Some(cut_line(alloc, state.book(), index)?)),
        FeedPlace::Assumption(node) => Ok(Some(assumption_at(alloc, state, node)?)),
        FeedPlace::Node(node) => Ok(Some(node_at(alloc, state, layout, closings, setters, node)?)),
        FeedPlace::End => Ok(None),
    }
}

impl<'a> Feed<'a> {
    /// All derived lines of a state.
    pub fn make(alloc: Global, state: &'a State, layout: Layout) -> Result<Feed<'a>, AllocError>
        requires ended { open_count state.now.state ≡ 0 }
        requires laid { layout ≡ layout_of state.now.state }
        ensures { IfOk result (λ f. f ≡ (certificate_of state.now.state state.now.history).lines) }
    {
        let tree = state.tree();
        let closings = closings(alloc, state.history(), tree.len())?;
        let setters = PathSetters::make(alloc, tree)?;
        Ok(Feed {
            state,
            layout,
            closings,
            setters,
            place: FeedPlace::of_cut(state, 0),
        })
    }
}

impl<'a> LineFeed for Feed<'a> {
    ghost lines = { λ f. f };

    fn next(&mut self, alloc: Global) -> Result<Option<(CertRow, Why)>, AllocError> {
        let place = self.place;
        let line = line_at(
            alloc,
            self.state,
            self.layout,
            &self.closings,
            &mut self.setters,
            place,
        )?;
        self.place = place.behind(self.state);
        Ok(line)
    }
}
