// The figures of a search that a journal stands for.
ghost use Rattle.std.specs.Prelude.{◌≡◌, true, IfOk, IfErr};
ghost use Rattle.outside.specs.Faults.{Counts};
ghost use Rattle.outside.specs.Images.{NoMomentPasses};
ghost use Rattle.node_journal.specs.Records.{records};
ghost use Rattle.resume.specs.Refusals.{Refuses, RefusesPayloads, disk_failed};
ghost use Rattle.resume.specs.Surveys.{IsSurveyOf};

use crate::reading::read_search;
use crate::{ResumeFault, Survey};
use node_journal::scan;
use outside::Disk;
use std::alloc::Global;
use std::hash::BuildHasher;

/// The figures of the search that the journal on a disk stands for. Nothing is written.
///
/// `NotAJournal`, `Damaged` and `NoModel` come exactly where the content calls for them, `Disk` only where the disk failed and counted it.
pub fn survey<B: BuildHasher + Drop, D: Disk>(
    alloc: Global,
    keys: B,
    disk: &mut D,
) -> Result<Survey, ResumeFault>
    ensures found { D.tells ≡ true → IfOk result (IsSurveyOf (records (D.now disk.old).seen)) }
    ensures refused { D.tells ≡ true → IfErr result (λ e. Refuses RefusesPayloads e (records (D.now disk.old).seen)) }
    ensures stands { NoMomentPasses (D.past disk.old) (D.now disk.old) (D.past disk.new) (D.now disk.new) }
    ensures cause { Counts (D.count disk.old) (D.count disk.new) (disk_failed result) }
{
    let scanned = scan(alloc, disk)?;
    let (state, _) = read_search(alloc, keys, &scanned)?;
    Ok(Survey {
        events: state.history().len(),
        nodes: state.tree().len(),
        cuts: state.book().len(),
        open: state.open_count(),
        best: state.best_value(),
    })
}
