// Where the lines of a certificate begin.
ghost use Rattle.std.specs.Prelude.{◌≡◌};
ghost use Rattle.cert_merge.specs.Layout.{layout_of};
ghost use Rattle.cert_merge.specs.Numbers.{IsNumbered};

use event_core::State;

/// Where the lines of a certificate begin. Behind the rows of the problem and the bounds stand the cuts, the assumptions and the nodes. All numbers
/// of derived lines follow from it.
#[derive(Clone, Copy)]
pub struct Layout {
    /// The line of the first cut.
    pub cuts: usize,
    /// The line of the first assumption.
    pub assumptions: usize,
    /// The line of the first node, which is the one of greatest number.
    pub nodes: usize,
    /// How many lines there are in all.
    pub lines: usize,
}

impl Layout {
    /// That of a state's certificate.
    pub fn of(state: &State) -> Layout
        requires { IsNumbered state.now.state }
        ensures { result ≡ layout_of state.now.state }
    {
        let problem = state.problem();
        problem.limits_hold();
        state.tree().conditions_hold();
        let count = state.tree().len();
        let cuts = problem.rows() + 2 * problem.columns();
        let assumptions = cuts + state.book().len();
        let nodes = assumptions + (count - 1);
        Layout {
            cuts,
            assumptions,
            nodes,
            lines: nodes + count,
        }
    }
}
