// Where a feed stands.
ghost use Rattle.std.specs.Prelude.{◌≡◌, ◌≤◌, ◌<◌, ◌+◌, ◌++◌, length, drop};
ghost use Rattle.cert_merge.specs.Merged.{cut_lines, assumption_lines};
ghost use Rattle.cert_merge.specs.FeedLines.{IsPlace, lines_from, nodes_behind};

use event_core::State;

/// The line of a certificate that comes next.
#[derive(Clone, Copy)]
pub enum FeedPlace {
    /// That of a cut.
    Cut(usize),
    /// That of the assumption of a node.
    Assumption(u32),
    /// That of a node.
    Node(u32),
    /// None.
    End,
}

impl FeedPlace {
    /// That of the assumption of a node that isn't node 0, or of the first node where there is no such node.
    fn of_assumption(state: &State, node: u32) -> FeedPlace
        requires bound { node ≤ length state.now.state.nodes }
        requires below { 0 < node }
        ensures there { IsPlace state.now.state result }
        ensures lines { lines_from state.now.state state.now.history result ≡ assumption_lines node (drop node state.now.state.nodes) ++ nodes_behind state.now.state state.now.history }
    {
        let tree = state.tree();
        tree.conditions_hold();
        if (node as usize) < tree.len() {
            FeedPlace::Assumption(node)
        } else {
            FeedPlace::Node((tree.len() - 1) as u32)
        }
    }

    /// That of a cut, or what comes behind the cuts where there is no such cut.
    pub fn of_cut(state: &State, index: usize) -> FeedPlace
        requires { index ≤ length state.now.state.cuts }
        ensures there { IsPlace state.now.state result }
        ensures lines { lines_from state.now.state state.now.history result ≡ cut_lines index (drop index state.now.state.cuts) ++ (assumption_lines 0 state.now.state.nodes ++ nodes_behind state.now.state state.now.history) }
    {
        state.tree().conditions_hold();
        if index < state.book().len() {
            FeedPlace::Cut(index)
        } else {
            FeedPlace::of_assumption(state, 1)
        }
    }

    /// The place behind this one.
    pub fn behind(self, state: &State) -> FeedPlace
        requires { IsPlace state.now.state self }
        ensures there { IsPlace state.now.state result }
        ensures rest { lines_from state.now.state state.now.history result ≡ drop 1 (lines_from state.now.state state.now.history self) }
    {
        state.conditions_hold();
        state.tree().conditions_hold();
        match self {
            FeedPlace::Cut(index) => FeedPlace::of_cut(state, index + 1),
            FeedPlace::Assumption(node) => FeedPlace::of_assumption(state, node + 1),
            FeedPlace::Node(0) | FeedPlace::End => FeedPlace::End,
            FeedPlace::Node(node) => FeedPlace::Node(node - 1),
        }
    }
}
