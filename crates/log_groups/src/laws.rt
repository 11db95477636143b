//! Laws of the transactions of a log's first events.

ghost use Rattle.std.specs.Prelude.{List};
ghost use Rattle.item_readers.specs.Reading.{Reading};
ghost use Rattle.log_events.specs.Event.{LogEvent};
ghost use Rattle.log_events.specs.declared.fault.EventFault.{EventFault};
ghost use Rattle.log_groups.specs.Cuts.{EventsGoOn, TransactionsStand, PlacesAreOne, GroupsStand};

/// With each event more a log has the same transactions, or one that is open becomes whole.
pub fn events_go_on()
    ensures { (events : Reading LogEvent EventFault) → EventsGoOn events }
{}

/// Each transaction of a log begins with one of its events, and where they are at fault there is the event that is.
pub fn transactions_stand()
    ensures { (events : Reading LogEvent EventFault) → TransactionsStand events }
{}

/// With one event alone a transaction begins, and one alone is at fault.
pub fn places_are_one()
    ensures { (events : List LogEvent) → PlacesAreOne events }
{}

/// A log's groups are as many as its transactions, or one of these is at fault.
pub fn groups_stand()
    ensures { GroupsStand }
{}
