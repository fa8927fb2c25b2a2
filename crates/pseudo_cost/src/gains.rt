// By how much a child's aim, the objective that a search minimises, is above its parent's.
ghost use Rattle.std.specs.Prelude.{◌≡◌, ◌≤◌, IfSome};
ghost use Rattle.pseudo_cost.specs.Gains.{gain, held, largest_gain};

use fraction::Frac;

/// The largest gain. It is also noted for a child whose linear program is infeasible.
pub const LARGEST_GAIN: u32 = 1_000_000_000;

/// A whole number, held within 0 and the largest gain.
fn held(change: i128) -> u32
    ensures { result ≡ held change }
{
    change.clamp(0, i128::from(LARGEST_GAIN)) as u32
}

/// The gain of a child over its parent: the floor of 1000 times the difference of their aims, held within 0 and the largest gain.
///
/// It is `None` exactly where the difference or its product with 1000 is cramped.
pub fn gain(value: Frac, parent: Frac) -> Option<u32>
    ensures value { result ≡ gain value parent }
    ensures bounded { IfSome result (λ g. g ≤ largest_gain) }
{
    let scaled = Frac::of(1000).mul(value.sub(parent)?)?;
    Some(held(scaled.floor()))
}
