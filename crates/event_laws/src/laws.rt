//! Laws of events, each the contract of a function without a body: they hold of the words that the contract of
//! `read_groups` is written in.

ghost use Rattle.event_laws.specs.Laws.{EventsGoOnAlike, BasesStandFor, GroupsEndAtCuts, FeedsAreCompacted, FieldsInForceSayTheColumns, ChangesHaveColumns, MessagesAreReadAgain, BytesGoBehindBytes, WholeGoesBehindWhole, RestsOfWholeAreWhole, OpenedFeedsAreWhole, WholeFeedsAreCuts};

use gtid_set::{positions_are_canonical, union_with_a_superset_is_the_superset, within_is_subset};
use proto_wire::fields_are_read_again;

/// Behind two histories of a feed that answer alike all later events make the same groups, but for so many by which their
/// numbers are less, and have the same first fault, but for the number of the group that it names.
pub fn events_go_on_alike()
    ensures { EventsGoOnAlike }
{}

/// The FIELDs in force, and one transaction of ROWs with the position of a history's last group, have no fault, make one
/// group, and answer as the history does.
pub fn bases_stand_for()
    ensures { BasesStandFor }
{
    within_is_subset();
    union_with_a_superset_is_the_superset();
    positions_are_canonical();
}

/// Behind the last event of a group no transaction is open, and that group's position is the union of all.
pub fn groups_end_at_cuts()
    ensures { GroupsEndAtCuts }
{
    within_is_subset();
    union_with_a_superset_is_the_superset();
    positions_are_canonical();
}

/// Bytes that open as a feed with a group are whole messages, and behind their last group a longer feed can be cut.
pub fn whole_feeds_are_cuts()
    ensures { WholeFeedsAreCuts }
{
    within_is_subset();
    union_with_a_superset_is_the_superset();
    positions_are_canonical();
}

/// Events of which a base stands for the front make the base's group and behind it the groups that they made, numbered on;
/// and where what is behind the front is refused, it is refused alike.
pub fn feeds_are_compacted()
    ensures { FeedsAreCompacted }
{
    within_is_subset();
    union_with_a_superset_is_the_superset();
    positions_are_canonical();
}

/// The last FIELD of each table alone says the columns that all events before a place say.
pub fn fields_in_force_say_the_columns()
    ensures { FieldsInForceSayTheColumns }
{}

/// The changes of a history's groups are of tables whose columns it says, where no event has a fault.
pub fn changes_have_columns()
    ensures { ChangesHaveColumns }
{}

/// Events that are written as messages of a feed are read as these events, each message whole.
pub fn messages_are_read_again()
    ensures { MessagesAreReadAgain }
{
    fields_are_read_again();
}

/// The events of whole messages with other bytes behind them are theirs, and behind them those of the other bytes.
pub fn bytes_go_behind_bytes()
    ensures { BytesGoBehindBytes }
{}

/// Behind whole messages with some events other whole messages stand, and together they have the events of both.
pub fn whole_goes_behind_whole()
    ensures { WholeGoesBehindWhole }
{}

/// What is left of whole messages behind whole ones are whole messages, and they have the events that are left.
pub fn rests_of_whole_are_whole()
    ensures { RestsOfWholeAreWhole }
{}

/// Bytes that open as a feed are whole messages.
pub fn opened_feeds_are_whole()
    ensures { OpenedFeedsAreWhole }
{}
