//! Laws of journals: what one stands for, and why it is refused.

ghost use Rattle.resume.specs.Laws.{OneRefusal, StandingIsNotRefused, StandsForOne};

use event_codec::laws::records_tell_apart;

/// The payloads of a journal stand for one problem and one list of events at most.
pub fn a_journal_stands_for_one_search()
    ensures { StandsForOne }
{
    records_tell_apart();
}

/// A journal that stands for a problem and events of its search calls for no refusal; nor does one that is fresh or of the model that is asked for.
pub fn what_stands_is_not_refused()
    ensures { StandingIsNotRefused }
{
    records_tell_apart();
}

/// The content of a disk calls for one refusal at most: no two of `NotAJournal`, `Damaged`, `OtherModel` and `NoModel` hold of it, and each place is
/// the only one.
pub fn a_refusal_has_one_cause()
    ensures { OneRefusal }
{
    records_tell_apart();
}
