//! The cuts that a worker knows.
ghost use Rattle.std.specs.Prelude.{◌≡◌, ◌++◌, OnOk};
ghost use Rattle.derivation_book.specs.Cuts.{AreCutsAfter};

use derivation_book::{Book, Cut};
use problem::Problem;
use std::alloc::{AllocError, Global};

/// Puts these cuts behind those of the book. The one error is want of memory; the book stays then.
pub(crate) fn add_cuts(
    alloc: Global,
    problem: &Problem,
    book: &mut Book,
    cuts: Vec<Cut>,
) -> Result<(), AllocError>
    requires { AreCutsAfter problem.now book.old.cuts cuts.items }
    ensures added { OnOk result (book.new.cuts ≡ book.old.cuts ++ cuts.items) }
{
    book.reserve(cuts.len())?;
    for Cut { row, mult } in cuts {
        book.add_cut(problem, mult, row);
    }
    Ok(())
}
