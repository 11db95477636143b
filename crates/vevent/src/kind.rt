//! The types of events (`binlogdata.proto`, VEventType).

ghost use Rattle.std.specs.Prelude.{◌≡◌};
ghost use Rattle.vevent.specs.Kind.{kind_of};

use crate::ignored::IgnoredEvent;

/// The type of an event that this profile reads.
#[derive(Clone, Copy)]
pub(crate) enum EventKind {
    Gtid,
    Begin,
    Commit,
    Rollback,
    Row,
    Field,
    Vgtid,
    Ignored(IgnoredEvent),
}

impl EventKind {
    /// The type by its number, the whole varint.
    pub(crate) fn from_number(number: u64) -> Option<EventKind>
        ensures { result ≡ kind_of number }
    {
        match number {
            1 => Some(EventKind::Gtid),
            2 => Some(EventKind::Begin),
            3 => Some(EventKind::Commit),
            4 => Some(EventKind::Rollback),
            5 => Some(EventKind::Ignored(IgnoredEvent::Ddl)),
            11 => Some(EventKind::Ignored(IgnoredEvent::Other)),
            12 => Some(EventKind::Row),
            13 => Some(EventKind::Field),
            14 => Some(EventKind::Ignored(IgnoredEvent::Heartbeat)),
            15 => Some(EventKind::Vgtid),
            17 => Some(EventKind::Ignored(IgnoredEvent::Version)),
            19 => Some(EventKind::Ignored(IgnoredEvent::Savepoint)),
            _ => None,
        }
    }
}
