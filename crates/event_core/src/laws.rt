//! Laws of histories.

ghost use Rattle.event_core.specs.Laws.{EventsKeepFrames, JournalsAreLegal, BeginningsAreLegal, LegalStatesAreSound, ReasonsAreDecided};

use problem::Problem;

/// What each event changes of a state, and what it leaves alone: only a split makes nodes, and makes two; only a cut adds a cut, and adds one at most; only
/// an offer changes the incumbent; only a split or a close ends a node; only a claim gives a hold, and only a release, a split or a close takes one away.
pub fn events_keep_frames()
    ensures { EventsKeepFrames }
{}

/// The events of a legal history that are no claim and no release are legal without workers, and lead to the same state but for who holds which node.
pub fn journals_are_legal(_problem: &Problem)
    ensures { JournalsAreLegal _problem.now }
{}

/// The first events of a legal history are legal, and the nodes that have ended stay ended.
pub fn beginnings_are_legal(_problem: &Problem)
    ensures { BeginningsAreLegal _problem.now }
{}

/// What is true of each state that legal events led to: its nodes are a tree, whose open nodes are leaves; it has at most `MOST_CUTS` cuts, and each is the
/// rounded row of its multipliers over those before it; the incumbent is a feasible point with its aim; who is held is open, no worker holds
/// two nodes, and no two workers hold one.
pub fn legal_states_are_sound(_problem: &Problem)
    ensures { LegalStatesAreSound _problem.now }
{}

/// The test of reasons says what they mean.
pub fn reasons_are_decided(_problem: &Problem)
    ensures { ReasonsAreDecided _problem.now }
{}
