// The certificate of a search that has ended.
ghost use Rattle.std.specs.Prelude.{◌≡◌, IfOk};
ghost use Rattle.incumbent.specs.Offers.{point_of};
ghost use Rattle.event_core.specs.States.{open_count};
ghost use Rattle.cert_rows.specs.Feeds.{head_of};
ghost use Rattle.cert_merge.specs.Layout.{layout_of};
ghost use Rattle.cert_merge.specs.Merged.{claim_of, points_of, certificate_of, merged};

use crate::layout::Layout;
use crate::part::problem_part;
use crate::stream::Feed;
use cert_rows::{Cert, CertHead, CertRow, Derived, Goal, LineFeed, Points, Why};
use event_core::State;
use fraction::Frac;
use incumbent::Incumbent;
use std::alloc::{AllocError, Global};

/// That the incumbent's value is the best one, or that no point is feasible.
fn claim(value: Option<Frac>) -> Goal
    ensures { result ≡ claim_of value }
{
    match value {
        Some(value) => Goal::Range {
            lb: value,
            ub: value,
        },
        None => Goal::Infeas,
    }
}

/// The incumbent alone, or no point.
fn points(alloc: Global, incumbent: &Incumbent) -> Result<Points, AllocError>
    ensures { IfOk result (λ p. p ≡ points_of (point_of incumbent.now)) }
{
    let mut items = Vec::new(alloc);
    if let Some(point) = incumbent.point() {
        items.push(point.copy(alloc)?)?;
    }
    Ok(Points::make(items))
}

/// The head: the problem part, the claim, the incumbent, and how many derived lines there are.
fn head(alloc: Global, state: &State, layout: Layout) -> Result<CertHead, AllocError>
    requires { layout ≡ layout_of state.now.state }
    ensures { IfOk result (λ h. h ≡ head_of (certificate_of state.now.state state.now.history)) }
{
    state.conditions_hold();
    state.tree().conditions_hold();
    let part = problem_part(alloc, state.problem())?;
    let points = points(alloc, state.incumbent())?;
    Ok(CertHead {
        part,
        claim: claim(state.best_value()),
        points,
        lines: layout.lines - layout.cuts,
    })
}

/// The certificate of a search in which no node is open, as a head and a feed of its derived lines: that the incumbent is a best point, or that no
/// point is feasible. The one error is want of memory.
pub fn feed<'a>(alloc: Global, state: &'a State) -> Result<(CertHead, Feed<'a>), AllocError>
    requires { open_count state.now.state ≡ 0 }
    ensures head { IfOk result (λ r. r.0 ≡ head_of (merged state.now.state.problem state.now.history)) }
    ensures lines { IfOk result (λ r. r.1 ≡ (merged state.now.state.problem state.now.history).lines) }
{
    state.conditions_hold();
    state.problem().limits_hold();
    state.tree().conditions_hold();
    let layout = Layout::of(state);
    let head = head(alloc, state, layout)?;
    let feed = Feed::make(alloc, state, layout)?;
    Ok((head, feed))
}

/// All lines that a feed gives.
fn drained<F: LineFeed>(alloc: Global, feed: &mut F) -> Result<Vec<(CertRow, Why)>, AllocError>
    ensures { IfOk result (λ v. v.items ≡ F.lines feed.old) }
{
    let mut lines = Vec::new(alloc);
    'lines: while let Some(line) = feed.next(alloc)? {
        lines.push(line)?;
    }
    Ok(lines)
}

/// The certificate of a search in which no node is open: that the incumbent is a best point, or that no point is feasible. The one error is want
/// of memory.
pub fn merge(alloc: Global, state: &State) -> Result<Cert, AllocError>
    requires { open_count state.now.state ≡ 0 }
    ensures { IfOk result (λ c. c ≡ merged state.now.state.problem state.now.history) }
{
    let (head, mut feed) = feed(alloc, state)?;
    let lines = drained(alloc, &mut feed)?;
    Ok(Cert::make(head.part, head.claim, head.points, Derived::make(lines)))
}
