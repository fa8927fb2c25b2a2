// Tells the figures of a journal.
ghost use Rattle.solve_top.specs.Changes.{disk_change};
ghost use Rattle.solve_top.specs.Outcomes.{IsShowingOf};

use crate::outcome::{Answer, Refusal};
use crate::output::survey_text;
use outside::Disk;
use resume::survey;
use std::alloc::Global;
use std::hash::BuildHasher;

/// The figures of the journal on a disk, on which nothing is written.
pub fn show<B: BuildHasher + Drop, D: Disk>(
    alloc: Global,
    keys: B,
    disk: &mut D,
) -> Result<Answer, Refusal>
    ensures { IsShowingOf (disk_change D.tells D.past D.now D.count disk.old disk.new) result }
{
    let figures = survey(alloc, keys, disk)?;
    let lines = survey_text(alloc, &figures)?;
    Ok(Answer::Shown(lines))
}
