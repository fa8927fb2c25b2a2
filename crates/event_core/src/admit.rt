// Answers to events.

/// Whether an event is admitted, and else why it isn't. Where several reasons hold, the first of this order is the answer.
#[derive(Clone, Copy, Debug, PartialEq, Eq)]
pub enum Admit {
    /// It is admitted.
    Yes,
    /// The node isn't there, or was split or closed.
    NotOpen,
    /// A claim: somebody holds the node, or the worker holds a node. Else: the worker doesn't hold the node.
    NotYours,
    /// The multipliers make no row: a number names none, a sign is wrong, or the combination isn't a cut's.
    BadCut,
    /// The point isn't feasible.
    BadPoint,
    /// The point is no better than the incumbent.
    NotBetter,
    /// There is no such column, or its span in the node's box lacks the bound or the number after it.
    BadSplit,
    /// The reason doesn't hold.
    BadReason,
    /// The proof doesn't close the node.
    BadProof,
    /// There are as many cuts as there may be.
    Full,
}
