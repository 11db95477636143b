//! XA transactions of logs in the form of MariaDB's: prepared and ended in one, or prepared in one and ended in another.

use crate::logs::groups::{ALONE, GTID, MAP, ROW, XID, has, log_with};
use log_events::{CrcTable, log_of};
use log_groups::*;
use std::alloc::{AllocError, Global};

/// Positions: of a transaction that is prepared, and of its end.
const XA: (u8, u8, &[u8]) = (162, 0, b"\x07\0\0\0\0\0\0\0\0\0\0\0\x40\x01\0\0\0\x01\0g");

const XA_ENDED: (u8, u8, &[u8]) = (162, 0, b"\x08\0\0\0\0\0\0\0\0\0\0\0\x81\x01\0\0\0\x01\0g");

/// The id `h` in the place of `g`: of a transaction that is prepared, and of its end.
const OTHER: (u8, u8, &[u8]) = (162, 0, b"\x07\0\0\0\0\0\0\0\0\0\0\0\x40\x01\0\0\0\x01\0h");

const OTHER_ENDED: (u8, u8, &[u8]) = (162, 0, b"\x08\0\0\0\0\0\0\0\0\0\0\0\x81\x01\0\0\0\x01\0h");

pub(crate) const XA_COMMIT: (u8, u8, &[u8]) = (
    2,
    0,
    b"\0\0\0\0\0\0\0\0\0\0\0\0\0\0XA COMMIT X'67',X'',1",
);

pub(crate) const XA_ROLLBACK: (u8, u8, &[u8]) = (
    2,
    0,
    b"\0\0\0\0\0\0\0\0\0\0\0\0\0\0XA ROLLBACK X'67',X'',1",
);

pub(crate) const PREPARED: (u8, u8, &[u8]) = (38, 0, b"\0\x01\0\0\0\x01\0\0\0\0\0\0\0g");

const OTHER_PREPARED: (u8, u8, &[u8]) = (38, 0, b"\0\x01\0\0\0\x01\0\0\0\0\0\0\0h");

const AT_ONCE: (u8, u8, &[u8]) = (38, 0, b"\x01\x01\0\0\0\x01\0\0\0\0\0\0\0g");

#[test]
fn xa_transactions(rt: HostRuntime) -> Result<(), AllocError> {
    let end = (
        2,
        0,
        b"\0\0\0\0\0\0\0\0\0\0\0\0\0\0XA END X'67',X'',1".as_slice(),
    );
    let both = [XA, MAP, ROW, end, PREPARED, XA_ENDED, XA_COMMIT];
    assert!(rt; has(rt.alloc(), &both, b"p1C0", None)?);
    let none = [XA, MAP, ROW, end, PREPARED, XA_ENDED, XA_ROLLBACK];
    assert!(rt; has(rt.alloc(), &none, b"p1R0", None)?);
    assert!(rt; has(rt.alloc(), &[XA, MAP, ROW, end, AT_ONCE], b"c1", None)?);
    Ok(())
}

/// How the groups of a log end.
#[derive(Drop)]
enum End<'b> {
    /// with these that wait
    Waiting(Vec<Waiting<'b>>),
    Fault(GroupFault),
}

/// How many changes each group of a log has, where these wait before it, and how they end.
fn read_groups<'x>(
    alloc: Global,
    table: &'x CrcTable,
    waiting: Vec<Waiting<'x>>,
    bytes: &'x [u8],
    found: &mut Vec<u8>,
) -> Result<End<'x>, AllocError> {
    let Ok(log) = log_of(table, bytes) else {
        return Err(AllocError);
    };
    let mut groups = Groups::new(Transactions::new(log.events), waiting);
    for _ in 0..100 {
        match groups.next_group(alloc) {
            Ok(Some(group)) => found.push(b'0' + (group.changes.len() % 10) as u8)?,
            Ok(None) => break,
            Err(GroupError::Fault(fault)) => {
                let again = groups.next_group(alloc);
                let same = matches!(again, Err(GroupError::Fault(other)) if other == fault);
                return if same {
                    Ok(End::Fault(fault))
                } else {
                    Err(AllocError)
                };
            }
            Err(GroupError::Memory) => return Err(AllocError),
        }
    }
    Ok(End::Waiting(groups.into_waiting()))
}

/// The same of logs one behind another; a line between two of them, and `w` at the end where something waits that changes
/// anything.
fn read_all(alloc: Global, logs: &[Vec<u8>]) -> Result<(Vec<u8>, Option<GroupFault>), AllocError> {
    let table = CrcTable::new(alloc)?;
    let mut found = Vec::new(alloc);
    let mut waiting = Vec::new(alloc);
    for log in logs {
        if !found.is_empty() {
            found.push(b'|')?;
        }
        match read_groups(alloc, &table, waiting, log.as_slice(), &mut found)? {
            End::Waiting(left) => waiting = left,
            End::Fault(fault) => return Ok((found, Some(fault))),
        }
    }
    if any_waits(&waiting) {
        found.push(b'w')?;
    }
    Ok((found, None))
}

/// Whether logs have groups of so many changes, and end so.
fn are_read_as(
    alloc: Global,
    logs: &[Vec<u8>],
    wanted: &[u8],
    end: Option<GroupFault>,
) -> Result<bool, AllocError> {
    let (found, fault) = read_all(alloc, logs)?;
    Ok(found.as_slice() == wanted && fault == end)
}

/// Whether logs of these events have groups of so many changes, and end so.
fn commit(
    alloc: Global,
    logs: &[&[(u8, u8, &[u8])]],
    wanted: &[u8],
    end: Option<GroupFault>,
) -> Result<bool, AllocError> {
    let mut all = Vec::new(alloc);
    for events in logs {
        all.push(log_with(alloc, events)?)?;
    }
    are_read_as(alloc, &all, wanted, end)
}

/// The same of one log.
fn commits(
    alloc: Global,
    events: &[(u8, u8, &[u8])],
    wanted: &[u8],
    end: Option<GroupFault>,
) -> Result<bool, AllocError> {
    let mut all = Vec::new(alloc);
    all.push(log_with(alloc, events)?)?;
    are_read_as(alloc, &all, wanted, end)
}

#[test]
fn groups_of_prepared_transactions(rt: HostRuntime) -> Result<(), AllocError> {
    let rolled = (2, 0, b"\0\0\0\0\0\0\0\0\x01\0\0\0\0s\0ROLLBACK".as_slice());
    let between = [
        XA, MAP, ROW, PREPARED, GTID, MAP, ROW, ROW, XID, XA_ENDED, XA_COMMIT,
    ];
    assert!(rt; commits(rt.alloc(), &between, b"021", None)?);
    let gone = [
        XA,
        MAP,
        ROW,
        PREPARED,
        XA_ENDED,
        XA_ROLLBACK,
        GTID,
        MAP,
        ROW,
        rolled,
    ];
    assert!(rt; commits(rt.alloc(), &gone, b"000", None)?);
    let two = [
        XA,
        MAP,
        ROW,
        OTHER_PREPARED,
        XA,
        MAP,
        ROW,
        ROW,
        PREPARED,
        XA_ENDED,
        XA_COMMIT,
    ];
    assert!(rt; commits(rt.alloc(), &two, b"002w", None)?);
    let twice = [XA, MAP, ROW, PREPARED, XA, MAP, ROW, PREPARED];
    assert!(rt; commits(rt.alloc(), &twice, b"0", Some(GroupFault::Twice))?);
    let none = [GTID, MAP, ROW, XID, XA_ENDED, XA_COMMIT];
    assert!(rt; commits(rt.alloc(), &none, b"1", Some(GroupFault::NotPrepared))?);
    assert!(rt; commits(rt.alloc(), &[XA, PREPARED], b"0", None)?);
    assert!(rt;
        commits(
            rt.alloc(),
            &[ALONE, XA_ROLLBACK],
            b"",
            Some(GroupFault::NotPrepared)
        )?
    );
    Ok(())
}

/// Events of a log.
pub(crate) type Log = &'static [(u8, u8, &'static [u8])];

const PREPARES: Log = &[XA, MAP, ROW, ROW, PREPARED];

const PREPARES_OTHER: Log = &[OTHER, MAP, ROW, OTHER_PREPARED];

const PREPARES_NOTHING: Log = &[XA, PREPARED];

const COMMITS: Log = &[GTID, MAP, ROW, XID, XA_ENDED, XA_COMMIT];

const COMMITS_OTHER: Log = &[OTHER_ENDED, XA_COMMIT];

const ROLLS_BACK: Log = &[XA_ENDED, XA_ROLLBACK, GTID, XID];

const BETWEEN: Log = &[GTID, MAP, ROW, ROW, ROW, XID];

/// Logs one behind another, how many changes their groups have, and the fault that ends them.
const XA_LOGS: &[(&[Log], &[u8], Option<GroupFault>)] = &[
    (&[PREPARES, COMMITS], b"0|12", None),
    (&[PREPARES, ROLLS_BACK], b"0|00", None),
    (&[PREPARES, BETWEEN, COMMITS], b"0|3|12", None),
    (&[PREPARES, BETWEEN, ROLLS_BACK], b"0|3|00", None),
    (
        &[PREPARES, PREPARES_OTHER, COMMITS_OTHER, COMMITS],
        b"0|0|1|12",
        None,
    ),
    (
        &[PREPARES, PREPARES_OTHER, ROLLS_BACK, COMMITS_OTHER],
        b"0|0|00|1",
        None,
    ),
    (&[PREPARES, COMMITS, PREPARES, COMMITS], b"0|12|0|12", None),
    (&[&[XA, MAP, ROW, AT_ONCE], BETWEEN], b"1|3", None),
    (
        &[&[XA, MAP, ROW, AT_ONCE], COMMITS],
        b"1|1",
        Some(GroupFault::NotPrepared),
    ),
    (&[PREPARES_NOTHING, BETWEEN], b"0|3", None),
    (&[PREPARES_NOTHING, COMMITS], b"0|10", None),
    (&[PREPARES], b"0w", None),
    (&[PREPARES, BETWEEN], b"0|3w", None),
    (&[PREPARES, PREPARES_OTHER, COMMITS_OTHER], b"0|0|1w", None),
    (&[PREPARES, PREPARES], b"0|", Some(GroupFault::Twice)),
    (
        &[PREPARES_NOTHING, PREPARES],
        b"0|",
        Some(GroupFault::Twice),
    ),
    (&[BETWEEN, COMMITS], b"3|1", Some(GroupFault::NotPrepared)),
    (
        &[PREPARES, COMMITS_OTHER],
        b"0|",
        Some(GroupFault::NotPrepared),
    ),
    (
        &[PREPARES, COMMITS, ROLLS_BACK],
        b"0|12|",
        Some(GroupFault::NotPrepared),
    ),
    (
        &[PREPARES, &[GTID, MAP, ROW]],
        b"0|",
        Some(GroupFault::Unended),
    ),
];

#[test]
fn prepared_in_one_log_and_ended_in_another(rt: HostRuntime) -> Result<(), AllocError> {
    for (logs, wanted, end) in XA_LOGS {
        assert!(rt; commit(rt.alloc(), logs, wanted, *end)?);
    }
    Ok(())
}
