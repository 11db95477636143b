//! What feeds are refused for.

use gtid_set::GtidFault;
use source_feed::{FeedFault, read_groups};
use std::alloc::Global;
use vevent::EventFault;

/// A feed, and the numbers of its refusal and of that one's cause.
struct Refused {
    feed: &'static [u8],
    number: u8,
    cause: Option<u8>,
}

const EACH_FAULT: &[Refused] = &[
    // a message is cut short
    Refused {
        feed: b"\x6c\x0a\x02\x08\x02\x0a\x18\x08\x0d\x32\x14\x0a\x01\x74\x12\x07\x0a\x02\x69\x64\x10\x89\x02\x12\x06\x0a\x01\x76\x10\x95\x30\x0a\x14\x08\x0c\x2a\x10\x0a\x01\x74\x12\x0b\x12\x09\x0a\x02\x02\x04\x12\x03\x31\x61\x62\x0a\x32\x08\x01\x1a\x2e\x4d\x79\x53\x51\x4c\x35\x36\x2f\x33\x65\x31\x31\x66\x61\x34\x37\x2d\x37\x31\x63\x61\x2d\x31\x31\x65\x31\x2d\x39\x65\x33\x33\x2d\x63\x38\x30\x61\x61\x39\x34\x32\x39\x35\x36\x32\x3a\x31\x0a\x02\x08",
        number: 81,
        cause: None,
    },
    // an event of type 6
    Refused {
        feed: b"\x04\x0a\x02\x08\x06",
        number: 82,
        cause: Some(23),
    },
    // a position that begins with no uuid
    Refused {
        feed: b"\x07\x0a\x05\x08\x01\x1a\x01\x78",
        number: 94,
        cause: Some(32),
    },
    // a COMMIT without a position
    Refused {
        feed: b"\x08\x0a\x02\x08\x02\x0a\x02\x08\x03",
        number: 83,
        cause: None,
    },
    // a position of another uuid
    Refused {
        feed: b"\x58\x0a\x2a\x08\x01\x1a\x26\x33\x65\x31\x31\x66\x61\x34\x37\x2d\x37\x31\x63\x61\x2d\x31\x31\x65\x31\x2d\x39\x65\x33\x33\x2d\x63\x38\x30\x61\x61\x39\x34\x32\x39\x35\x36\x32\x3a\x31\x0a\x2a\x08\x01\x1a\x26\x33\x65\x31\x31\x66\x61\x34\x37\x2d\x37\x31\x63\x61\x2d\x31\x31\x65\x31\x2d\x39\x65\x33\x33\x2d\x63\x38\x30\x61\x61\x39\x34\x32\x39\x35\x36\x33\x3a\x31",
        number: 84,
        cause: None,
    },
    // a ROW before any FIELD
    Refused {
        feed: b"\x19\x0a\x02\x08\x02\x0a\x13\x08\x0c\x2a\x0f\x0a\x01\x74\x12\x0a\x12\x08\x0a\x02\x02\x02\x12\x02\x31\x61",
        number: 86,
        cause: None,
    },
    // a row of one column where two are due
    Refused {
        feed: b"\x69\x0a\x02\x08\x02\x0a\x18\x08\x0d\x32\x14\x0a\x01\x74\x12\x07\x0a\x02\x69\x64\x10\x89\x02\x12\x06\x0a\x01\x76\x10\x95\x30\x0a\x11\x08\x0c\x2a\x0d\x0a\x01\x74\x12\x08\x12\x06\x0a\x01\x02\x12\x01\x31\x0a\x32\x08\x01\x1a\x2e\x4d\x79\x53\x51\x4c\x35\x36\x2f\x33\x65\x31\x31\x66\x61\x34\x37\x2d\x37\x31\x63\x61\x2d\x31\x31\x65\x31\x2d\x39\x65\x33\x33\x2d\x63\x38\x30\x61\x61\x39\x34\x32\x39\x35\x36\x32\x3a\x31\x0a\x02\x08\x03",
        number: 87,
        cause: None,
    },
    // a BEGIN alone
    Refused {
        feed: b"\x04\x0a\x02\x08\x02",
        number: 88,
        cause: None,
    },
    // another shard's VGTID
    Refused {
        feed: b"\x41\x0a\x3f\x08\x0f\x3a\x3b\x0a\x39\x0a\x02\x6b\x73\x12\x03\x38\x30\x2d\x1a\x2e\x4d\x79\x53\x51\x4c\x35\x36\x2f\x33\x65\x31\x31\x66\x61\x34\x37\x2d\x37\x31\x63\x61\x2d\x31\x31\x65\x31\x2d\x39\x65\x33\x33\x2d\x63\x38\x30\x61\x61\x39\x34\x32\x39\x35\x36\x32\x3a\x31",
        number: 89,
        cause: None,
    },
    // a BEGIN inside a transaction
    Refused {
        feed: b"\x08\x0a\x02\x08\x02\x0a\x02\x08\x02",
        number: 92,
        cause: None,
    },
    // a ROW outside of one
    Refused {
        feed: b"\x04\x0a\x02\x08\x0c",
        number: 92,
        cause: None,
    },
];

/// Each feed is refused by its own number and cause.
fn are_refused(alloc: Global, feeds: &[Refused]) -> bool {
    for wanted in feeds {
        match read_groups(alloc, wanted.feed, "ks", "-80") {
            Err(fault) if fault.number() == wanted.number && fault.cause() == wanted.cause => {}
            _ => return false,
        }
    }
    true
}

/// With ample memory each feed is refused by its own number and cause.
#[test]
fn each_feed_by_its_fault(rt: HostRuntime) {
    assert!(rt; are_refused(rt.alloc(), EACH_FAULT));
}

/// Faults with their numbers and texts.
const TEXTS: &[(FeedFault, u8, &str)] = &[
    (
        FeedFault::FeedTooLong,
        95,
        "the feed has more than 2^31 - 1 bytes",
    ),
    (FeedFault::Frame, 81, "a message of the feed is broken"),
    (
        FeedFault::Event(EventFault::BadType(6)),
        82,
        "an event is refused: an event has the type 6, which is not read",
    ),
    (
        FeedFault::BadPosition(GtidFault::BadUuid),
        94,
        "a position is refused: a part of the position doesn't begin with a uuid",
    ),
    (FeedFault::NoPosition, 83, "a transaction has no position"),
    (
        FeedFault::Diverged(2),
        84,
        "the position of group 2 doesn't contain the earlier ones",
    ),
    (
        FeedFault::FieldsDiffer,
        85,
        "the columns of a table differ from the plan",
    ),
    (
        FeedFault::NoFields,
        86,
        "the columns of a table aren't known",
    ),
    (
        FeedFault::ColumnCount,
        87,
        "a row has another number of columns than its table",
    ),
    (
        FeedFault::OpenAtEnd,
        88,
        "the feed ends inside a transaction",
    ),
    (
        FeedFault::ShardMissing,
        89,
        "a position is not that of the feed's own shard",
    ),
    (
        FeedFault::Misplaced,
        92,
        "an event stands where it can't stand",
    ),
    (FeedFault::Memory, 72, "out of memory"),
];

/// The fault prints this text.
fn is_told(alloc: Global, fault: &FeedFault, wanted: &str) -> bool {
    match format!(in alloc; "{fault}") {
        Ok(text) => text.as_str() == wanted,
        Err(_) => false,
    }
}

/// Each fault has its number and prints its text.
fn are_told(alloc: Global) -> bool {
    for (fault, number, text) in TEXTS {
        if fault.number() != *number || !is_told(alloc, fault, text) {
            return false;
        }
    }
    true
}

#[test]
fn texts_of_feed_faults(rt: HostRuntime) {
    assert!(rt; are_told(rt.alloc()));
}
