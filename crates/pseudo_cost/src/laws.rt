//! Laws of pseudo-costs.
ghost use Rattle.pseudo_cost.specs.Laws.{BestColumnsAreEqual, CostsAreOfNotes};

/// Of a list there is only one best column.
pub fn best_columns_are_equal()
    ensures { BestColumnsAreEqual }
{}

/// What a run of notes leaves: each side of each column has the count and the sum of its own gains, of which it takes the first 2^32.
pub fn costs_are_of_notes()
    ensures { CostsAreOfNotes }
{}
