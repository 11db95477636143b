//! The feed of logs over which XA transactions are prepared and ended, in the form of MariaDB's.

use crate::logs::groups::{CREATE, MAP, ROW, XID, log_with};
use crate::logs::transcribe::{behind_of, feed_of};
use crate::logs::xa::{Log, PREPARED, XA_COMMIT, XA_ROLLBACK};
use log_transcribe::LogsFault;
use source_feed::read_groups;
use std::alloc::{AllocError, Global};

/// An event: its type, its flags and its body.
type Event = (u8, u8, &'static [u8]);

/// The positions with which a log begins: none, and those up to transaction 2 and 3.
const AT_0: Event = (163, 0, b"\0\0\0\0");

const AT_2: Event = (163, 0, b"\x01\0\0\0\0\0\0\0\x07\0\0\0\x02\0\0\0\0\0\0\0");

const AT_3: Event = (163, 0, b"\x01\0\0\0\0\0\0\0\x07\0\0\0\x03\0\0\0\0\0\0\0");

/// Transaction 1, a statement alone; 2, which is prepared; 2 and 3, plain ones; 3 and 4, the end of what is prepared.
const ALONE_1: Event = (162, 0, b"\x01\0\0\0\0\0\0\0\0\0\0\0\x01");

const XA_2: Event = (162, 0, b"\x02\0\0\0\0\0\0\0\0\0\0\0\x40\x01\0\0\0\x01\0g");

const PLAIN_2: Event = (162, 0, b"\x02\0\0\0\0\0\0\0\0\0\0\0\0");

const PLAIN_3: Event = (162, 0, b"\x03\0\0\0\0\0\0\0\0\0\0\0\0");

const ENDED_3: Event = (162, 0, b"\x03\0\0\0\0\0\0\0\0\0\0\0\x81\x01\0\0\0\x01\0g");

const ENDED_4: Event = (162, 0, b"\x04\0\0\0\0\0\0\0\0\0\0\0\x81\x01\0\0\0\x01\0g");

/// The first log makes the table; two prepare a transaction with a row of it, of which one is cut inside of a further one.
const MAKES: Log = &[AT_0, ALONE_1, CREATE, PLAIN_2, MAP, ROW, XID];

const PREPARES: Log = &[AT_0, ALONE_1, CREATE, XA_2, MAP, ROW, PREPARED];

const PREPARES_AND_ENDS_INSIDE: Log = &[
    AT_0, ALONE_1, CREATE, XA_2, MAP, ROW, PREPARED, PLAIN_3, MAP,
];

const COMMITS_AT_ONCE: Log = &[AT_2, ENDED_3, XA_COMMIT];

const ROLLS_BACK_AT_ONCE: Log = &[AT_2, ENDED_3, XA_ROLLBACK];

const BETWEEN: Log = &[AT_2, PLAIN_3, MAP, ROW, XID];

const COMMITS: Log = &[AT_3, ENDED_4, XA_COMMIT];

const ROLLS_BACK: Log = &[AT_3, ENDED_4, XA_ROLLBACK];

/// The same in one log.
const ALL_COMMITTED: Log = &[
    AT_0, ALONE_1, CREATE, XA_2, MAP, ROW, PREPARED, PLAIN_3, MAP, ROW, XID, ENDED_4, XA_COMMIT,
];

const ALL_ROLLED_BACK: Log = &[
    AT_0,
    ALONE_1,
    CREATE,
    XA_2,
    MAP,
    ROW,
    PREPARED,
    PLAIN_3,
    MAP,
    ROW,
    XID,
    ENDED_4,
    XA_ROLLBACK,
];

const COMMITTED: Log = &[
    AT_0, ALONE_1, CREATE, XA_2, MAP, ROW, PREPARED, ENDED_3, XA_COMMIT,
];

const ROLLED_BACK: Log = &[
    AT_0,
    ALONE_1,
    CREATE,
    XA_2,
    MAP,
    ROW,
    PREPARED,
    ENDED_3,
    XA_ROLLBACK,
];

/// Logs, the one log that has the same transactions, and how many groups their feed has.
const SAME: &[(&[Log], Log, usize)] = &[
    (&[PREPARES, COMMITS_AT_ONCE], COMMITTED, 1),
    (&[PREPARES, ROLLS_BACK_AT_ONCE], ROLLED_BACK, 1),
    (&[PREPARES, BETWEEN, COMMITS], ALL_COMMITTED, 2),
    (&[PREPARES, BETWEEN, ROLLS_BACK], ALL_ROLLED_BACK, 2),
];

/// Logs that are refused 156, and the file in which.
const REFUSED: &[(&[Log], usize)] = &[
    (&[PREPARES], 0),
    (&[PREPARES, BETWEEN], 1),
    (&[MAKES, COMMITS_AT_ONCE], 1),
    (&[PREPARES, COMMITS_AT_ONCE, COMMITS], 2),
    (&[PREPARES_AND_ENDS_INSIDE, COMMITS_AT_ONCE], 0),
];

/// The bytes of logs.
fn logs_of(alloc: Global, logs: &[Log]) -> Result<Vec<Vec<u8>>, AllocError> {
    let mut all = Vec::new(alloc);
    for events in logs {
        all.push(log_with(alloc, events)?)?;
    }
    Ok(all)
}

/// A log of these events whose server was still writing it.
fn in_use(alloc: Global, events: Log) -> Result<Vec<u8>, AllocError> {
    let mut log = log_with(alloc, events)?;
    if let Some(byte) = log.get_mut(21) {
        *byte = 1;
    }
    Ok(log)
}

/// The bytes of each log.
fn slices_of<'l>(alloc: Global, logs: &'l [Vec<u8>]) -> Result<Vec<&'l [u8]>, AllocError> {
    let mut slices = Vec::new(alloc);
    for log in logs {
        slices.push(log.as_slice())?;
    }
    Ok(slices)
}

/// The feed of logs of the table.
fn told(alloc: Global, logs: &[Vec<u8>]) -> Result<Result<Vec<u8>, LogsFault>, AllocError> {
    feed_of(alloc, "t", 6165, &slices_of(alloc, logs)?)
}

#[test]
fn over_files_as_in_one(rt: HostRuntime) -> Result<(), AllocError> {
    for (logs, one, count) in SAME {
        let Ok(feed) = told(rt.alloc(), &logs_of(rt.alloc(), logs)?)? else {
            return Err(AllocError);
        };
        let Ok(same) = told(rt.alloc(), &logs_of(rt.alloc(), &[one])?)? else {
            return Err(AllocError);
        };
        assert!(rt; feed == same);
        let Ok(groups) = read_groups(rt.alloc(), &feed, "ks", "-80") else {
            return Err(AllocError);
        };
        assert!(rt; groups.len() == *count);
    }
    Ok(())
}

#[test]
fn without_their_beginning_or_end(rt: HostRuntime) -> Result<(), AllocError> {
    for (logs, file) in REFUSED {
        let refused = told(rt.alloc(), &logs_of(rt.alloc(), logs)?)?;
        assert!(rt;
            matches!(&refused, Err(fault) if fault.number() == 156 && fault.file() == *file)
        );
    }
    Ok(())
}

/// A log that its server wrote when it crashed ends inside of a transaction: what was prepared waits all the same.
#[test]
fn behind_a_crash(rt: HostRuntime) -> Result<(), AllocError> {
    let mut logs = Vec::new(rt.alloc());
    logs.push(in_use(rt.alloc(), PREPARES_AND_ENDS_INSIDE)?)?;
    let waits = told(rt.alloc(), &logs)?;
    assert!(rt; matches!(&waits, Err(fault) if fault.number() == 156 && fault.file() == 0));
    logs.push(log_with(rt.alloc(), COMMITS_AT_ONCE)?)?;
    let Ok(feed) = told(rt.alloc(), &logs)? else {
        return Err(AllocError);
    };
    let Ok(same) = told(rt.alloc(), &logs_of(rt.alloc(), &[COMMITTED])?)? else {
        return Err(AllocError);
    };
    assert!(rt; feed == same);
    Ok(())
}

/// Behind a feed the logs have to have what is prepared, whether or not it has that position.
#[test]
fn behind_a_feed_that_waits(rt: HostRuntime) -> Result<(), AllocError> {
    let logs = logs_of(rt.alloc(), &[PREPARES, BETWEEN, COMMITS])?;
    let Ok(whole) = told(rt.alloc(), &logs)? else {
        return Err(AllocError);
    };
    let slices = slices_of(rt.alloc(), &logs)?;
    let Ok(all) = behind_of(rt.alloc(), 6165, &[], &slices)? else {
        return Err(AllocError);
    };
    assert!(rt; all == whole);
    let made = logs_of(rt.alloc(), &[MAKES, BETWEEN])?;
    let Ok(feed) = told(rt.alloc(), &made)? else {
        return Err(AllocError);
    };
    let last = logs_of(rt.alloc(), &[COMMITS])?;
    let lacks = behind_of(rt.alloc(), 6165, &feed, &slices_of(rt.alloc(), &last)?)?;
    assert!(rt; matches!(&lacks, Err(fault) if fault.number() == 156));
    let Ok(more) = behind_of(rt.alloc(), 6165, &feed, &slices)? else {
        return Err(AllocError);
    };
    assert!(rt; !more.is_empty());
    Ok(())
}
