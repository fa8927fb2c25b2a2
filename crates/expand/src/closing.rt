// The proofs by which verdicts close a node.
ghost use Rattle.std.specs.Prelude.{◌≡◌, ◌<◌, ◌^◌, false, [], ◌∷◌, IfOk};
ghost use Rattle.expand.specs.Verdicts.{multiplier};

use fraction::Frac;
use node_events::{Mult, Proof};
use row_activity::Sign;
use std::alloc::{AllocError, Global};

/// The multiplier of a row that no point of the box satisfies: 1 where its values are too small, -1 where they are too large.
fn multiplier(sign: Sign) -> Frac
    ensures { result ≡ multiplier sign }
{
    match sign {
        Sign::Plus => Frac::of(1),
        Sign::Minus => Frac::of(-1),
    }
}

/// The proof that the span of this column has no number.
pub fn empty_span(column: usize) -> Proof
    requires { column < 2 ^ 32 }
    ensures { result ≡ Proof.Empty column }
{
    Proof::Empty {
        column: column as u32,
    }
}

/// The proof that no point of the box satisfies this row. The one error is want of memory.
pub fn refutation(alloc: Global, row: usize, sign: Sign) -> Result<Proof, AllocError>
    requires { row < 2 ^ 32 }
    ensures { IfOk result (λ p. p ≡ Proof.Refute ((row, multiplier sign) ∷ [])) }
{
    let mult = Mult::single(alloc, row as u32, multiplier(sign))?;
    Ok(Proof::Refute { mult })
}

/// The proof that the aim alone is nowhere in the box below the cutoff.
pub fn objective_bound(alloc: Global) -> Proof
    ensures { result ≡ Proof.Bound [] false }
{
    Proof::Bound {
        mult: Mult::none(alloc),
        rounded: false,
    }
}
