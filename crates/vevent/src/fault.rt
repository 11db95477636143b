//! Why bytes aren't an event.

ghost use Rattle.std.specs.Prelude.{◌≡◌};
ghost use Rattle.vevent.specs.FaultNumber.{number_of, cause_of};

use proto_wire::WireFault;
use row_view::RowFault;
use thiserror::Error;

/// What is at fault in an event. Each is a condition on the whole event, and of several the first in
/// this order is given (this profile).
#[derive(Clone, Copy, Debug, PartialEq, Eq, Error)]
pub enum EventFault {
    /// The event, or one of its messages that are known here, isn't a list of fields. Of several such
    /// places it is the one further left. Rows aside: theirs is a `Row`.
    #[error("an event isn't a list of fields: {0}")]
    Wire(WireFault),
    /// A message that stands alone occurs twice. Protobuf would merge the two.
    #[error("an embedded message occurs twice")]
    RepeatedMessage,
    /// The type, the whole varint, is none that this profile reads: 0, 6 to 10, 16, 18, 20 or above.
    #[error("an event has the type {0}, which is not read")]
    BadType(u64),
    /// A text that the event's type uses isn't UTF-8.
    #[error("a text isn't UTF-8")]
    NotUtf8,
    /// A row change has a field besides its two rows, as a partial row image has.
    #[error("a row image is partial")]
    PartialRow,
    /// The first row from the left that is at fault.
    #[error("a row is at fault: {0}")]
    Row(RowFault),
}

impl EventFault {
    /// The refusal's number: 21 to 25, or the row's own, 11 to 14.
    pub fn number(self) -> u8
        ensures { result ≡ number_of self }
    {
        match self {
            EventFault::Wire(_) => 21,
            EventFault::RepeatedMessage => 22,
            EventFault::BadType(_) => 23,
            EventFault::NotUtf8 => 24,
            EventFault::PartialRow => 25,
            EventFault::Row(fault) => fault.number(),
        }
    }

    /// The number of the innermost fault: 1 to 5 of the wire for what isn't a list of fields, and
    /// else `number`.
    pub fn cause(self) -> u8
        ensures { result ≡ cause_of self }
    {
        match self {
            EventFault::Wire(fault) => fault.number(),
            EventFault::Row(fault) => fault.cause(),
            other => other.number(),
        }
    }
}
