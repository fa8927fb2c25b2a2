// Derived lines that come one after another.
ghost use Rattle.std.specs.Prelude.{List};
ghost use Rattle.cert_rows.specs.declared.line.CertRow.{CertRow};
ghost use Rattle.cert_rows.specs.declared.line.Why.{Why};
ghost use Rattle.cert_rows.specs.Feeds.{Gives};

use crate::line::{CertRow, Why};
use std::alloc::{AllocError, Global};

/// Derived lines that come one after another, so that no more than one has to be in memory.
pub trait LineFeed {
    /// The lines that are still to come.
    ghost lines: { Self → List (CertRow × Why) };

    /// The next line, and none behind the last one. The one error is want of memory. All that was to come is still to come then.
    fn next(&mut self, alloc: Global) -> Result<Option<(CertRow, Why)>, AllocError>
        ensures { Gives (lines self.old) (lines self.new) result };
}
