//! Laws of dictionaries: what a basis fixes of a tableau, whatever bounds and values are, and how a step goes by it.

ghost use Rattle.integer_tableau.specs.DictionaryLaws.{BasesFixDictionaries, PivotsComeToDictionaries, EliminationsAreNotCramped, ValuesAreNotCramped, StepsByDictionariesArePivots, PivotsLeaveDictionaries, StartsLeaveDictionaries, ValuesStepByColumns, ColumnsStepByColumns};

/// A basis fixes its dictionary.
pub fn bases_fix_dictionaries()
    ensures { BasesFixDictionaries }
{}

/// A pivot whose elimination isn't cramped comes to any dictionary of the basis behind it.
pub fn pivots_come_to_dictionaries()
    ensures { PivotsComeToDictionaries }
{}

/// In small numbers neither an elimination nor a value is cramped.
pub fn small_numbers_are_not_cramped()
    ensures eliminations { EliminationsAreNotCramped }
    ensures values { ValuesAreNotCramped }
{}

/// A step by a dictionary that is kept is the pivot.
pub fn steps_by_dictionaries_are_pivots()
    ensures { StepsByDictionariesArePivots }
{}

/// A pivot that was made leaves a dictionary that can be kept.
pub fn pivots_leave_dictionaries()
    ensures { PivotsLeaveDictionaries }
{}

/// The dictionary at the start can be kept.
pub fn starts_leave_dictionaries()
    ensures { StartsLeaveDictionaries }
{}

/// The values after a step are there by the dictionary before it.
pub fn values_step_by_columns()
    ensures fractions { ValuesStepByColumns }
    ensures columns { ColumnsStepByColumns }
{}
