// Multipliers of several combinations.
ghost use Rattle.std.specs.Prelude.{◌≡◌, ◌↔◌, IsTrue, length, take};

use node_events::Mult;
use std::marker::Model;

/// The multipliers of several combinations, seen as a list.
#[derive(Drop)]
pub struct Mults {
    items: Vec<Mult>,
}

impl Model for Mults {
    ghost use Rattle.std.specs.Prelude.{List};
    ghost use Rattle.problem.specs.Linear.{Multipliers};

    ghost Value = { List Multipliers };

    ghost view = { λ m. m.items.items };
}

impl Mults {
    /// The multipliers of these combinations, in their order.
    pub fn make(items: Vec<Mult>) -> Mults
        ensures { result ≡ items.items }
    {
        Mults { items }
    }

    /// How many combinations there are.
    pub fn len(&self) -> usize
        ensures { result ≡ length self.now }
    {
        self.items.len()
    }

    /// Whether there is none.
    pub fn is_empty(&self) -> bool
        ensures { IsTrue result ↔ (length self.now ≡ 0) }
    {
        self.items.len() == 0
    }

    /// The first of them, at most so many.
    pub fn first(self, count: usize) -> Mults
        ensures { result ≡ take count self }
    {
        let mut items = self.items;
        items.truncate(count);
        Mults { items }
    }

    /// The multipliers of the combinations, in their order.
    pub fn into_vec(self) -> Vec<Mult>
        ensures { result.items ≡ self }
    {
        self.items
    }
}
