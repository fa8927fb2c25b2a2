// The column in which a box is split in the middle.
ghost use Rattle.problem_box.specs.Changes.{IsFirstFree};
ghost use Rattle.row_activity.specs.Meaning.{IsOpen};

use problem_box::IntBox;

/// The least column with more than one number, of a box that has one.
pub fn first_free(area: &IntBox) -> usize
    requires { IsOpen area.now }
    ensures { IsFirstFree area.now result }
{
    match area.first_free() {
        Some(column) => column,
        None => unreachable!(),
    }
}
