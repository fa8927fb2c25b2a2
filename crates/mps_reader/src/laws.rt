//! Laws of reading.

ghost use Rattle.mps_reader.specs.Laws.{TextsReadOrAreRefused, NoTextReadsAndIsRefused, ProblemsAreUnique, FaultsAreUnique, FirstFaultsAreFound, FoundFaultsAreFirst};

/// A text reads as one problem or is refused with one line and one kind of fault, and never both.
pub fn texts_read_or_are_refused()
    ensures either { TextsReadOrAreRefused }
    ensures never_both { NoTextReadsAndIsRefused }
    ensures one_problem { ProblemsAreUnique }
    ensures one_fault { FaultsAreUnique }
{}

/// The line that a text is refused with is the first one at fault, or the last one where there is no end.
pub fn faults_are_first()
    ensures found { FirstFaultsAreFound }
    ensures first { FoundFaultsAreFirst }
{}
