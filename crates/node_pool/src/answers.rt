// What a pool answers to its workers.
ghost use Rattle.std.specs.Prelude.{◌≡◌};

/// What a worker gets that asks for a node.
#[derive(Clone, Copy, Debug, PartialEq, Eq, Drop)]
pub enum Claim {
    /// This node, which the worker holds from now on: of the open nodes that nobody held, the one of greatest number.
    Node(u32),
    /// There are open nodes, and each is held.
    Idle,
    /// No node is open.
    Done,
    /// The pool is halted.
    Halted,
}

/// What was acknowledged.
#[derive(Clone, Copy, Debug, PartialEq, Eq, Drop)]
pub struct Receipt {
    /// The number in the journal of the payload that has the events. The model's record has number 0, and the record of the upgrade has a number too.
    pub first: u64,
    /// How many events there are.
    pub count: u32,
}

/// Why events were not taken. None of them is made then.
#[derive(Clone, Copy, Debug, PartialEq, Eq, Drop)]
pub enum CommitFault {
    /// The disk failed, and counted it. The pool is halted.
    Disk,
    /// There was no memory for them. The pool isn't halted by that.
    Memory,
    /// The two children of the node that was to be split would pass the budget. The pool is halted.
    Budget,
    /// The pool was halted before.
    Halted,
}
