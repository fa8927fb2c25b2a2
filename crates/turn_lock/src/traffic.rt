ghost use Rattle.std.specs.Prelude.{◌≡◌};

/// How often the turns of a pass met those of others. It is a hint by which a thread can tell whether it is in the way of
/// others: no contract says what a pass tells.
#[derive(Clone, Copy, Debug, PartialEq, Eq)]
pub struct Traffic {
    /// How many turns of others the pass has waited for, modulo 2^64.
    pub waited: u64,
    /// How many turns of others ended between two turns of the pass, while it did not ask for one, modulo 2^64.
    pub passed: u64,
    // The ticket behind the last one of the pass.
    next: u64,
}

impl Traffic {
    /// No turn yet.
    pub const fn none() -> Traffic
        ensures waited { result.waited ≡ 0 }
        ensures passed { result.passed ≡ 0 }
    {
        Traffic {
            waited: 0,
            passed: 0,
            next: 0,
        }
    }

    // The pass drew a ticket when so many were served.
    pub(crate) fn note(&mut self, ticket: u64, served: u64) {
        self.passed = self.passed.wrapping_add(served.wrapping_sub(self.next));
        self.waited = self.waited.wrapping_add(ticket.wrapping_sub(served));
        self.next = ticket.wrapping_add(1);
    }
}
