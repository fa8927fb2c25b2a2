ghost use Rattle.std.specs.Prelude.{◌≡◌, length};
ghost use Rattle.turn_lock.specs.Passes.{IsPassOf, names_of, seen_by, weight_of};

use crate::{Kept, Pass, TurnLock};

impl<V: Kept> TurnLock<V> {
    /// Ends the lock, by a pass of the whole weight, which its caller has to show (docs/DECISIONS.md, entry 15). The value's list is what the pass
    /// has seen.
    pub fn close(self, pass: Pass<V>) -> V
        requires own { IsPassOf self pass }
        requires whole { length (names_of pass) ≡ weight_of self }
        ensures { V.list result ≡ seen_by pass }
    {
        let TurnLock { table } = self;
        let Pass { place, traffic: _ } = pass;
        let mut closed = table.close_with(place);
        let slot = closed.take(0);
        closed.free();
        Box::into_inner(slot.unwrap())
    }
}
