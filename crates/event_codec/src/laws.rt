//! Laws of the codes of events and of groups, and of the records of models.

ghost use Rattle.event_codec.specs.Laws.{NoCodeIsAPrefix, CodesTellApart, GroupsTellApart, RecordsTellApart, UpgradeIsNoGroup};

/// Within one encoding the code of no event is a proper prefix of another's: where the same bytes begin with the codes of two events, the events and the codes are
/// equal.
pub fn no_code_is_a_prefix()
    ensures { NoCodeIsAPrefix }
{}

/// Within one encoding only equal events have equal codes.
pub fn codes_tell_apart()
    ensures { CodesTellApart }
{}

/// Within one encoding only equal groups of events have equal codes.
pub fn groups_tell_apart()
    ensures { GroupsTellApart }
{}

/// Only equal models have equal records: a record says the text of the model, and the upper bound for columns that lack one.
pub fn records_tell_apart()
    ensures { RecordsTellApart }
{}

/// In no encoding the record of the upgrade is the code of a group.
pub fn an_upgrade_is_no_group()
    ensures { UpgradeIsNoGroup }
{}
