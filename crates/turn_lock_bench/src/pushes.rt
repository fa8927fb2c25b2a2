// A list of numbers that passes push.

ghost use Rattle.std.specs.Prelude.{Some};

use turn_lock::Kept;

/// A number, and the name of the pass that pushed it.
#[derive(Drop)]
pub struct Pushed {
    pub name: u64,
    pub value: u64,
}

/// Numbers in the order in which they were pushed.
#[derive(Drop)]
pub struct Pushes {
    pub items: Vec<Pushed>,
}

impl Kept for Pushes {
    type Entry = Pushed;

    ghost list = { λ pushes. pushes.items.items };

    ghost name = { λ push. Some push.name };

    fn len(&self) -> u64 {
        self.items.len() as u64
    }
}

impl Pushes {
    /// The number at a place, if there is one.
    pub fn value_at(&self, place: usize) -> Option<u64> {
        Some(self.items.get(place)?.value)
    }

    /// Whether the numbers that were pushed under a name are 0, 1, .., count - 1 in this order.
    fn counts_up(&self, name: u64, count: u64) -> bool {
        let mut next = 0u64;
        for push in self.items.iter() {
            if push.name == name {
                if push.value != next {
                    return false;
                }
                next = next.wrapping_add(1);
            }
        }
        next == count
    }

    /// Whether they are so under each name below a number.
    pub fn count_up(&self, names: u64, count: u64) -> bool {
        for name in 0..names {
            if !self.counts_up(name, count) {
                return false;
            }
        }
        true
    }
}
