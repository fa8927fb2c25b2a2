// Numbers that look like random ones.

ghost use Rattle.std.specs.Prelude.{◌≡◌, ◌<◌, ◌^◌, ◌%◌};
ghost use Rattle.case_tools.specs.Generators.{stepped, number_of};

use std::marker::Model;

/// A linear congruential generator, seen as its state: one seed always gives the same numbers.
#[derive(Drop)]
pub struct Generator {
    state: u64,
}

impl Model for Generator {
    ghost use Rattle.std.specs.Prelude.{ℕ};

    ghost Value = { ℕ };

    ghost view = { λ g. g.state };
}

impl Generator {
    /// The generator that starts with this seed.
    pub fn seeded(seed: u32) -> Generator
        ensures { result ≡ seed }
    {
        Generator {
            state: u64::from(seed),
        }
    }

    /// The next number, of 31 bits.
    pub fn next(&mut self) -> u32
        ensures state { self.new ≡ stepped self.old }
        ensures number { result ≡ number_of self.new }
        ensures small { result < 2 ^ 31 }
    {
        self.state = self
            .state
            .wrapping_mul(6_364_136_223_846_793_005)
            .wrapping_add(1_442_695_040_888_963_407);
        (self.state >> 33) as u32
    }

    /// The next number of so many, from 0.
    pub fn below(&mut self, count: u32) -> u32
        requires { 0 < count }
        ensures state { self.new ≡ stepped self.old }
        ensures number { result ≡ number_of self.new % count }
        ensures small { result < count }
    {
        self.next() % count
    }
}
