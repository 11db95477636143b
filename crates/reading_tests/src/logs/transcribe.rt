//! The feed of a server's log.

ghost use Rattle.std.specs.Prelude.{None};

use crate::logs::samples::LOG;
use log_course::CourseFault;
use log_events::{EventFault, LogFault};
use log_feed::{FeedTable, Trouble};
use log_laws::TellFault;
use log_tables::{TableFault, Wanted};
use log_transcribe::{
    BehindError, BehindFault, FeedSource, LogBytes, LogFiles, LogsError, LogsFault, ReadFault,
    Spool, StreamError, transcribe, transcribe_behind, transcribe_to,
};
use printing::{Out, OutFailed};
use source_feed::{FeedFault, read_groups};
use std::alloc::{AllocError, Global};

/// A message: BEGIN, the FIELD and the ROW of `t`, the position and COMMIT.
const FEED: [u8; 132] = [
    0x82, 0x01, 0x0a, 0x02, 0x08, 0x02, 0x0a, 0x18, 0x08, 0x0d, 0x32, 0x14, 0x0a, 0x01, 0x74, 0x12,
    0x07, 0x0a, 0x02, 0x69, 0x64, 0x10, 0x87, 0x02, 0x12, 0x06, 0x0a, 0x01, 0x76, 0x10, 0x95, 0x30,
    0x0a, 0x23, 0x08, 0x0c, 0x2a, 0x1f, 0x0a, 0x01, 0x74, 0x12, 0x0e, 0x12, 0x0c, 0x0a, 0x02, 0x02,
    0x0a, 0x12, 0x06, 0x31, 0x68, 0x65, 0x6c, 0x6c, 0x6f, 0x12, 0x0a, 0x12, 0x08, 0x0a, 0x02, 0x04,
    0x01, 0x12, 0x02, 0x2d, 0x32, 0x0a, 0x39, 0x08, 0x0f, 0x3a, 0x35, 0x0a, 0x33, 0x0a, 0x02, 0x6b,
    0x73, 0x12, 0x03, 0x2d, 0x38, 0x30, 0x1a, 0x28, 0x36, 0x64, 0x36, 0x31, 0x37, 0x32, 0x36, 0x39,
    0x2d, 0x36, 0x31, 0x36, 0x34, 0x2d, 0x36, 0x32, 0x30, 0x30, 0x2d, 0x38, 0x30, 0x30, 0x30, 0x2d,
    0x30, 0x30, 0x30, 0x30, 0x30, 0x30, 0x30, 0x30, 0x30, 0x30, 0x30, 0x30, 0x3a, 0x31, 0x2d, 0x33,
    0x0a, 0x02, 0x08, 0x03,
];

/// The bits of a byte.
const BITS: [u8; 8] = [1, 2, 4, 8, 16, 32, 64, 128];

/// Tables of two columns, the second one of this type.
fn tables_of(
    alloc: Global,
    name: &'static str,
    number: u32,
) -> Result<Vec<FeedTable<'static>>, AllocError> {
    let mut columns = Vec::new(alloc);
    columns.push(Wanted {
        name: b"id",
        type_number: 263,
    })?;
    columns.push(Wanted {
        name: b"v",
        type_number: number,
    })?;
    let mut tables = Vec::new(alloc);
    tables.push(FeedTable { name, columns })?;
    Ok(tables)
}

/// The feed of logs of a table of this name, whose second column is of this type.
pub(crate) fn feed_of(
    alloc: Global,
    name: &'static str,
    number: u32,
    logs: &[&[u8]],
) -> Result<Result<Vec<u8>, LogsFault>, AllocError> {
    let tables = tables_of(alloc, name, number)?;
    let source = FeedSource {
        keyspace: "ks",
        shard: "-80",
        schema: b"s",
        tables: &tables,
    };
    match transcribe(alloc, source, logs) {
        Ok(feed) => Ok(Ok(feed)),
        Err(LogsError::Memory) => Err(AllocError),
        Err(LogsError::Fault(fault)) => Ok(Err(fault)),
    }
}

/// What a server wrote of three transactions, of which one has rows of the feed's table.
#[test]
fn feed_of_a_server(rt: HostRuntime) -> Result<(), AllocError> {
    let Ok(feed) = feed_of(rt.alloc(), "t", 6165, &[&LOG])? else {
        return Err(AllocError);
    };
    assert!(rt; feed.as_slice() == FEED.as_slice());
    let Ok(groups) = read_groups(rt.alloc(), &feed, "ks", "-80") else {
        return Err(AllocError);
    };
    assert!(rt; groups.len() == 1);
    Ok(())
}

/// Where no transaction has rows of the table, a message has the position that was reached; of no log there is none.
#[test]
fn feeds_without_rows(rt: HostRuntime) -> Result<(), AllocError> {
    let Ok(feed) = feed_of(rt.alloc(), "u", 6165, &[&LOG])? else {
        return Err(AllocError);
    };
    assert!(rt; feed.len() == 60 && feed[0] == 59);
    let Ok(groups) = read_groups(rt.alloc(), &feed, "ks", "-80") else {
        return Err(AllocError);
    };
    assert!(rt; groups.len() == 1);
    let Ok(none) = feed_of(rt.alloc(), "t", 6165, &[])? else {
        return Err(AllocError);
    };
    assert!(rt; none.is_empty());
    Ok(())
}

/// The first fault, with its file.
#[test]
fn logs_that_are_refused(rt: HostRuntime) -> Result<(), AllocError> {
    let twice = feed_of(rt.alloc(), "t", 6165, &[&LOG, &LOG])?;
    assert!(rt; matches!(&twice, Err(fault) if fault.number() == 159 && fault.file() == 1));
    let other = feed_of(rt.alloc(), "t", 263, &[&LOG, b"no log"])?;
    assert!(rt; matches!(&other, Err(fault) if fault.number() == 149 && fault.file() == 0));
    let behind = feed_of(rt.alloc(), "t", 6165, &[b"no log", &LOG])?;
    assert!(rt; matches!(&behind, Err(fault) if fault.number() == 140 && fault.file() == 0));
    Ok(())
}

/// A log that ends too early is refused, or the feed is of the transactions before its end.
#[test]
fn logs_cut_at_every_byte(rt: HostRuntime) -> Result<(), AllocError> {
    for size in 0..LOG.len() {
        match feed_of(rt.alloc(), "t", 6165, &[&LOG[..size]])? {
            Ok(feed) => assert!(rt; feed.len() < 132),
            Err(fault) => assert!(rt; matches!(fault.number(), 140 | 141 | 144 | 156 | 159)),
        }
    }
    Ok(())
}

/// A log with a bit turned is refused, or the feed is as it was.
#[test]
fn logs_with_a_turned_bit(rt: HostRuntime) -> Result<(), AllocError> {
    for place in 0..LOG.len() {
        for bit in 0..BITS.len() {
            let mut log = Vec::from_slice(rt.alloc(), &LOG)?;
            log[place] ^= BITS[bit];
            if let Ok(feed) = feed_of(rt.alloc(), "t", 6165, &[&log])? {
                assert!(rt; feed.as_slice() == FEED.as_slice());
            }
        }
    }
    Ok(())
}

/// What logs have behind a feed of the table, whose second column is of this type.
pub(crate) fn behind_of(
    alloc: Global,
    number: u32,
    feed: &[u8],
    logs: &[&[u8]],
) -> Result<Result<Vec<u8>, BehindFault>, AllocError> {
    let tables = tables_of(alloc, "t", number)?;
    let source = FeedSource {
        keyspace: "ks",
        shard: "-80",
        schema: b"s",
        tables: &tables,
    };
    match transcribe_behind(alloc, source, feed, logs) {
        Ok(more) => Ok(Ok(more)),
        Err(BehindError::Memory) => Err(AllocError),
        Err(BehindError::Fault(fault)) => Ok(Err(fault)),
    }
}

/// Behind the whole feed there is nothing more, and behind an empty one all of it.
#[test]
fn behind_a_feed(rt: HostRuntime) -> Result<(), AllocError> {
    let Ok(none) = behind_of(rt.alloc(), 6165, &FEED, &[&LOG])? else {
        return Err(AllocError);
    };
    assert!(rt; none.is_empty());
    let Ok(all) = behind_of(rt.alloc(), 6165, &[], &[&LOG])? else {
        return Err(AllocError);
    };
    assert!(rt; all.as_slice() == FEED.as_slice());
    let Ok(nothing) = behind_of(rt.alloc(), 6165, &FEED, &[])? else {
        return Err(AllocError);
    };
    assert!(rt; nothing.is_empty());
    Ok(())
}

/// The faults of the feed, with those of its columns, and then of the logs.
#[test]
fn refused_behind_a_feed(rt: HostRuntime) -> Result<(), AllocError> {
    let cut = behind_of(rt.alloc(), 6165, &FEED[..100], &[b"no log"])?;
    assert!(rt; matches!(&cut, Err(BehindFault::Feed(FeedFault::Frame))));
    let differs = behind_of(rt.alloc(), 263, &FEED, &[&LOG])?;
    assert!(rt; matches!(&differs, Err(fault) if fault.number() == 85));
    let log = behind_of(rt.alloc(), 6165, &FEED, &[b"no log"])?;
    assert!(rt; matches!(&log, Err(fault) if fault.number() == 140));
    let field = behind_of(rt.alloc(), 6165, &FEED[..2], &[&LOG])?;
    assert!(rt; matches!(&field, Err(fault) if fault.number() == 81));
    Ok(())
}

/// Behind the feed of a log's beginning the rest of it makes the whole feed.
#[test]
fn behind_the_feed_of_a_cut_log(rt: HostRuntime) -> Result<(), AllocError> {
    for size in 0..LOG.len() {
        if let Ok(front) = feed_of(rt.alloc(), "t", 6165, &[&LOG[..size]])? {
            match behind_of(rt.alloc(), 6165, &front, &[&LOG])? {
                Ok(more) => assert!(rt; more.as_slice() == FEED.as_slice()),
                Err(_) => return Err(AllocError),
            }
        }
    }
    Ok(())
}

/// Two files, of which the second is gone.
#[derive(Drop)]
struct Vanished<'b> {
    first: &'b [u8],
}

impl LogFiles for Vanished<'_> {
    ghost gives = { λ _ _ _. Unit {0} };

    ghost many = { λ _. 2 };

    fn count(&self) -> usize {
        2
    }

    fn read(&self, file: usize) -> Result<LogBytes<'_>, ReadFault> {
        if file == 0 {
            return Ok(LogBytes::Lent(self.first));
        }
        Err(ReadFault::Unread)
    }
}

/// One file.
#[derive(Drop)]
struct One<'b> {
    log: &'b [u8],
}

impl LogFiles for One<'_> {
    ghost gives = { λ _ _ _. Unit {0} };

    ghost many = { λ _. 1 };

    fn count(&self) -> usize {
        1
    }

    fn read(&self, _file: usize) -> Result<LogBytes<'_>, ReadFault> {
        Ok(LogBytes::Lent(self.log))
    }
}

/// A disk that is full.
#[derive(Drop)]
struct Full {
    failures: u64,
}

impl Out for Full {
    ghost written = { λ f. record { bytes = None; failures = f.failures } };

    fn write(&mut self, _piece: &[u8]) -> Result<usize, OutFailed> {
        self.failures = self.failures.wrapping_add(1);
        Err(OutFailed)
    }
}

/// How the feed of such files ends on a writer.
fn ends_on<W: Out>(
    alloc: Global,
    first: &[u8],
    out: &mut W,
) -> Result<Result<(), StreamError>, AllocError> {
    let tables = tables_of(alloc, "t", 6165)?;
    let source = FeedSource {
        keyspace: "ks",
        shard: "-80",
        schema: b"s",
        tables: &tables,
    };
    let ended = transcribe_to(alloc, source, &Vanished { first }, out);
    Ok(ended)
}

/// A file that is gone is told behind the faults of those before it, and a full disk once something is written.
#[test]
fn files_one_at_a_time(rt: HostRuntime) -> Result<(), AllocError> {
    let mut kept = Spool::new(rt.alloc());
    let gone = ends_on(rt.alloc(), &LOG, &mut kept)?;
    assert!(rt; matches!(gone, Err(StreamError::Unread(1))));
    let first = ends_on(rt.alloc(), b"no log", &mut kept)?;
    assert!(rt;
        matches!(first, Err(StreamError::Fault(fault, Some(0))) if fault.number() == 140 && fault.file() == 0)
    );
    let unread = ends_on(rt.alloc(), &LOG, &mut Full { failures: 0 })?;
    assert!(rt; matches!(unread, Err(StreamError::Unread(1))));
    Ok(())
}

/// A writer that fails.
#[test]
fn full_disk(rt: HostRuntime) -> Result<(), AllocError> {
    let tables = tables_of(rt.alloc(), "t", 6165)?;
    let source = FeedSource {
        keyspace: "ks",
        shard: "-80",
        schema: b"s",
        tables: &tables,
    };
    let mut full = Full { failures: 0 };
    let ended = transcribe_to(rt.alloc(), source, &One { log: &LOG }, &mut full);
    assert!(rt; matches!(ended, Err(StreamError::Unwritten)) && full.failures == 1);
    let mut kept = Spool::new(rt.alloc());
    let ended = transcribe_to(rt.alloc(), source, &One { log: &LOG }, &mut kept);
    assert!(rt; ended.is_ok());
    let feed = kept.into_bytes();
    assert!(rt; feed.as_slice() == FEED.as_slice());
    Ok(())
}
