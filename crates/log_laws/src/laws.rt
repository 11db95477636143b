//! Laws of what a feed tells of logs, each the contract of a function without a body: they hold of the words that the contracts
//! of `read_groups` and `LogGroups` are written in.

ghost use Rattle.log_laws.specs.Laws.{TransactionsAreTold, TransactionsReach, EndsAreTold, CoursesRise, MessagesAreRead, FeedsHaveTheirGroups};

use event_laws::messages_are_read_again;
use gtid_set::{printed_text_reads_back, union_with_a_superset_is_the_superset, within_is_subset};
use log_places::positions_rise;
use vevent::events_are_read_again;

/// The events that tell transactions behind others have just their groups more.
pub fn transactions_are_told()
    ensures { TransactionsAreTold }
{
    within_is_subset();
    union_with_a_superset_is_the_superset();
    printed_text_reads_back();
}

/// They tell up to the position behind the last of them.
pub fn transactions_reach()
    ensures { TransactionsReach }
{
    within_is_subset();
    union_with_a_superset_is_the_superset();
    printed_text_reads_back();
}

/// Where the position that was reached isn't said, an event says it, which is a group without changes.
pub fn ends_are_told()
    ensures { EndsAreTold }
{
    within_is_subset();
    union_with_a_superset_is_the_superset();
    printed_text_reads_back();
}

/// The positions of a log's transactions rise.
pub fn courses_rise()
    ensures { CoursesRise }
{
    positions_rise();
}

/// Messages that can be written are read as their events.
pub fn messages_are_read()
    ensures { MessagesAreRead }
{
    events_are_read_again();
    messages_are_read_again();
}

/// Events without a fault that end outside of transactions are a feed with their groups.
pub fn feeds_have_their_groups()
    ensures { FeedsHaveTheirGroups }
{}
