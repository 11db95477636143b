//! What an event is to a reader of transactions.

ghost use Rattle.std.specs.Prelude.{◌≡◌};
ghost use Rattle.log_groups.specs.Class.{refusal_of, is_skipped, known_class, class_of};

use log_rows::{RowsKind, kind_of_event};

/// What an event is to a reader of transactions.
#[derive(Clone, Copy, Debug, PartialEq, Eq)]
pub enum EventClass {
    /// A statement, or what stands for the end of a transaction of other engines than InnoDB.
    Query,
    /// The end of a transaction, which commits it.
    Xid,
    /// Where a log begins: the numbers of tables don't hold behind it.
    Description,
    /// Which table a number stands for.
    TableMap,
    /// Rows; whether the event is of the second version.
    Rows(RowsKind, bool),
    /// A transaction's position in MariaDB, where one begins.
    MariaGtid,
    /// The positions before a log of MariaDB.
    MariaList,
    /// A transaction's position in MySQL.
    MysqlGtid,
    /// The positions before a log of MySQL.
    MysqlList,
    /// The end of the first half of an XA transaction.
    XaPrepare,
    /// Nothing that a transaction has.
    Skipped,
    /// What can't be told as rows, or isn't known; the refusal's number.
    Refused(u8),
}

/// The number by which an event of a type is refused that can't be told as rows.
fn refusal_of(event_type: u8) -> Option<u8>
    ensures { result ≡ refusal_of event_type }
{
    if event_type == 6
        || event_type == 9
        || event_type == 11
        || event_type == 17
        || event_type == 18
    {
        Some(151)
    } else if event_type == 26 {
        Some(154)
    } else if event_type == 34 {
        Some(157)
    } else if event_type == 39 {
        Some(147)
    } else if event_type == 40 || event_type == 164 {
        Some(153)
    } else if 165 <= event_type && event_type <= 171 {
        Some(153)
    } else if event_type == 42 {
        Some(155)
    } else {
        None
    }
}

/// Whether an event of a type says nothing that a transaction has.
fn is_skipped(event_type: u8) -> bool
    ensures { result ≡ is_skipped event_type }
{
    event_type == 3
        || event_type == 4
        || event_type == 5
        || event_type == 13
        || event_type == 14
        || event_type == 27
        || event_type == 160
        || event_type == 161
}

/// What an event of a type with these flags is.
#[tactic(auto, unfolding(crate::specs::Class::class_of))]
pub fn class_of(event_type: u8, flags: u16) -> EventClass
    ensures { result ≡ class_of event_type flags }
{
    if let Some((kind, second)) = kind_of_event(event_type) {
        return EventClass::Rows(kind, second);
    }
    if let Some(number) = refusal_of(event_type) {
        return EventClass::Refused(number);
    }
    match known_class(event_type) {
        Some(class) => class,
        None if is_skipped(event_type) || flags / 128 % 2 == 1 => EventClass::Skipped,
        None => EventClass::Refused(155),
    }
}

/// What an event of a type is that a transaction's reader knows by itself.
fn known_class(event_type: u8) -> Option<EventClass>
    ensures { result ≡ known_class event_type }
{
    if event_type == 2 {
        Some(EventClass::Query)
    } else if event_type == 16 {
        Some(EventClass::Xid)
    } else if event_type == 15 {
        Some(EventClass::Description)
    } else if event_type == 19 {
        Some(EventClass::TableMap)
    } else if event_type == 162 {
        Some(EventClass::MariaGtid)
    } else if event_type == 163 {
        Some(EventClass::MariaList)
    } else if event_type == 33 {
        Some(EventClass::MysqlGtid)
    } else if event_type == 35 {
        Some(EventClass::MysqlList)
    } else if event_type == 38 {
        Some(EventClass::XaPrepare)
    } else {
        None
    }
}
