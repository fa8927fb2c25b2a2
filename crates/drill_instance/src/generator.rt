// Numbers that look like random ones.

ghost use Rattle.std.specs.Prelude.{◌≡◌, ◌<◌};
ghost use Rattle.drill_instance.specs.Draws.{draw, draw_positive};

use std::marker::Model;

/// A linear congruential generator, seen as its state: one seed always gives the same numbers.
#[derive(Drop)]
pub struct Generator {
    state: u64,
}

impl Model for Generator {
    ghost use Rattle.std.specs.Prelude.{ℕ};

    ghost Value = { ℕ };

    ghost view = { λ g. g.state };
}

impl Generator {
    /// The generator that starts with this seed.
    pub fn seeded(seed: u64) -> Generator
        ensures { result ≡ seed }
    {
        Generator { state: seed }
    }

    /// One of so many numbers, from 0.
    pub fn draw(&mut self, choices: u8) -> u8
        requires { 0 < choices }
        ensures value { result ≡ (draw choices self.old).value }
        ensures state { self.new ≡ (draw choices self.old).state }
        ensures small { result < choices }
    {
        self.state = self
            .state
            .wrapping_mul(6_364_136_223_846_793_005)
            .wrapping_add(1_442_695_040_888_963_407);
        ((self.state >> 33) % u64::from(choices)) as u8
    }

    /// A number from 1 to this one.
    pub fn draw_positive(&mut self, most: u8) -> u8
        requires { 0 < most }
        ensures value { result ≡ (draw_positive most self.old).value }
        ensures state { self.new ≡ (draw_positive most self.old).state }
    {
        1 + self.draw(most)
    }
}
