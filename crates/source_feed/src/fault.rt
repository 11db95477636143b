//! Why a feed is refused.

ghost use Rattle.std.specs.Prelude.{◌≡◌};
ghost use Rattle.source_feed.specs.FaultNumber.{number_of, cause_of};

use gtid_set::GtidFault;
use proto_wire::FrameFault;
use std::alloc::{AllocError, AllocFailed};
use thiserror::Error;
use vevent::EventFault;

/// What stands in a feed at the first place where its groups aren't defined.
#[derive(Clone, Copy, Debug, PartialEq, Eq, Error)]
pub enum FeedFault {
    /// The feed has more than 2^31 - 1 bytes. It comes before all other faults.
    #[error("the feed has more than 2^31 - 1 bytes")]
    FeedTooLong,
    /// A message is cut short, or its length is no varint. It stands before the message's events.
    #[error("a message of the feed is broken")]
    Frame,
    /// A message is no list of fields, or one of its events is refused; with the cause.
    #[error("an event is refused: {0}")]
    Event(EventFault),
    /// The position of a GTID or VGTID can't be read, whether or not it counts; with the cause.
    #[error("a position is refused: {0}")]
    BadPosition(GtidFault),
    /// A transaction ends without a position.
    #[error("a transaction has no position")]
    NoPosition,
    /// A position neither lies within the earlier ones nor contains them; with the number that its
    /// group would have had.
    #[error("the position of group {0} doesn't contain the earlier ones")]
    Diverged(u32),
    /// The columns of a planned table aren't those of the plan.
    #[error("the columns of a table differ from the plan")]
    FieldsDiffer,
    /// A ROW stands before any FIELD of its table.
    #[error("the columns of a table aren't known")]
    NoFields,
    /// A row has another number of columns than its table.
    #[error("a row has another number of columns than its table")]
    ColumnCount,
    /// A transaction is open at the feed's end.
    #[error("the feed ends inside a transaction")]
    OpenAtEnd,
    /// A VGTID hasn't exactly one entry, that of the feed's own keyspace and shard.
    #[error("a position is not that of the feed's own shard")]
    ShardMissing,
    /// A BEGIN inside a transaction, or a ROW outside of one.
    #[error("an event stands where it can't stand")]
    Misplaced,
    /// A row of a group has no key or no answer of the filter; with the group's number, the number of the
    /// row's table in the plan, and the cause: 61 or 62 of the key, 43 or 44 of the filter.
    #[error("a row of table {table} in group {group} is refused: {cause}")]
    BadRow { group: u32, table: u8, cause: u8 },
    /// The feed has no group of this number; with how many it has.
    #[error("the feed has {groups} groups and none of this number")]
    NoGroup { groups: u32 },
    /// A growth was refused.
    #[error("out of memory")]
    Memory,
}

impl FeedFault {
    /// The refusal's number: 95, 81, 82, 94, 83, 84, 85, 86, 87, 88, 89, 92, 90, 91, and 72 for want of
    /// memory.
    pub fn number(&self) -> u8
        ensures { result ≡ number_of self.now }
    {
        match self {
            FeedFault::FeedTooLong => 95,
            FeedFault::Frame => 81,
            FeedFault::Event(_) => 82,
            FeedFault::BadPosition(_) => 94,
            FeedFault::NoPosition => 83,
            FeedFault::Diverged(_) => 84,
            FeedFault::FieldsDiffer => 85,
            FeedFault::NoFields => 86,
            FeedFault::ColumnCount => 87,
            FeedFault::OpenAtEnd => 88,
            FeedFault::ShardMissing => 89,
            FeedFault::Misplaced => 92,
            FeedFault::BadRow { .. } => 90,
            FeedFault::NoGroup { .. } => 91,
            FeedFault::Memory => 72,
        }
    }

    /// The number of the innermost fault, where the fault has a cause: 1 to 5, 12 to 14 or 22 to 25 of
    /// an event, 31 to 36 of a position, 61, 62, 43 or 44 of a row.
    pub fn cause(&self) -> Option<u8>
        ensures { result ≡ cause_of self.now }
    {
        match self {
            FeedFault::Event(fault) => Some(fault.cause()),
            FeedFault::BadPosition(fault) => Some(fault.number()),
            FeedFault::BadRow { cause, .. } => Some(*cause),
            _ => None,
        }
    }
}

impl From<AllocError> for FeedFault {
    ghost use Rattle.std.specs.Prelude.{◌≡◌};
    ghost use Rattle.source_feed.specs.declared.fault.FeedFault.TheVariants.{Memory};

    ghost from_gives = { λ _ fault. fault ≡ Memory };

    fn from(_: AllocError) -> FeedFault {
        FeedFault::Memory
    }
}

impl<T: Drop> From<AllocFailed<T>> for FeedFault {
    ghost use Rattle.std.specs.Prelude.{◌≡◌};
    ghost use Rattle.source_feed.specs.declared.fault.FeedFault.TheVariants.{Memory};

    ghost from_gives = { λ _ fault. fault ≡ Memory };

    fn from(_: AllocFailed<T>) -> FeedFault {
        FeedFault::Memory
    }
}

impl From<FrameFault> for FeedFault {
    ghost use Rattle.std.specs.Prelude.{◌≡◌};
    ghost use Rattle.source_feed.specs.declared.fault.FeedFault.TheVariants.{Frame};

    ghost from_gives = { λ _ fault. fault ≡ Frame };

    fn from(_: FrameFault) -> FeedFault {
        FeedFault::Frame
    }
}

impl From<EventFault> for FeedFault {
    ghost use Rattle.std.specs.Prelude.{◌≡◌};
    ghost use Rattle.source_feed.specs.declared.fault.FeedFault.TheVariants.{Event};

    ghost from_gives = { λ cause fault. fault ≡ Event cause };

    fn from(cause: EventFault) -> FeedFault {
        FeedFault::Event(cause)
    }
}

impl From<GtidFault> for FeedFault {
    ghost use Rattle.std.specs.Prelude.{◌≡◌};
    ghost use Rattle.source_feed.specs.FaultNumber.{refusal_of};

    ghost from_gives = { λ cause fault. fault ≡ refusal_of cause };

    fn from(cause: GtidFault) -> FeedFault {
        match cause {
            GtidFault::Memory => FeedFault::Memory,
            cause => FeedFault::BadPosition(cause),
        }
    }
}
