//! Transactions of logs: of a server's, and of some in the form of MariaDB's and of MySQL's.

use crate::logs::samples::{LOG, UNCHECKED};
use log_events::{CrcTable, EventFault, log_of};
use log_groups::*;
use std::alloc::{AllocError, Global};

/// A letter for an ending.
fn letter(ending: &Ending<'_>) -> u8 {
    match ending {
        Ending::Committed => b'c',
        Ending::RolledBack => b'r',
        Ending::Prepared(_) => b'p',
        Ending::XaCommitted => b'C',
        Ending::XaRolledBack => b'R',
    }
}

/// How each transaction of a log ends, and how many changes it has; and the fault that ends them.
fn read(alloc: Global, bytes: &[u8]) -> Result<(Vec<u8>, Option<GroupFault>), AllocError> {
    let table = CrcTable::new(alloc)?;
    let mut found = Vec::new(alloc);
    let Ok(log) = log_of(&table, bytes) else {
        return Ok((found, None));
    };
    let mut transactions = Transactions::new(log.events);
    for _ in 0..100 {
        match transactions.next_transaction(alloc) {
            Ok(Some(transaction)) => {
                found.push(letter(&transaction.ending))?;
                found.push(b'0' + (transaction.changes.len() % 10) as u8)?;
            }
            Ok(None) => return Ok((found, None)),
            Err(GroupError::Fault(fault)) => {
                let again = transactions.next_transaction(alloc);
                let same = matches!(again, Err(GroupError::Fault(other)) if other == fault);
                return Ok((found, if same { Some(fault) } else { None }));
            }
            Err(GroupError::Memory) => return Err(AllocError),
        }
    }
    Ok((found, None))
}

/// Whether a log has these transactions, and ends so.
fn is(
    alloc: Global,
    bytes: &[u8],
    wanted: &[u8],
    end: Option<GroupFault>,
) -> Result<bool, AllocError> {
    let (found, fault) = read(alloc, bytes)?;
    Ok(found.as_slice() == wanted && fault == end)
}

#[test]
fn transactions_of_a_server(rt: HostRuntime) -> Result<(), AllocError> {
    assert!(rt; is(rt.alloc(), &LOG, b"c1c1c1", None)?);
    assert!(rt; is(rt.alloc(), &UNCHECKED, b"c1", None)?);
    Ok(())
}

/// Where events of the first log end, outside of its transactions and inside.
const OUTSIDE: &[usize] = &[256, 285, 324, 363, 486, 652];

const INSIDE: &[usize] = &[405, 528, 694, 761, 805, 854];

#[test]
fn cut_at_every_byte(rt: HostRuntime) -> Result<(), AllocError> {
    for size in 256..885 {
        let end = if OUTSIDE.contains(&size) {
            None
        } else if INSIDE.contains(&size) {
            Some(GroupFault::Unended)
        } else {
            Some(GroupFault::Event(EventFault::Cut))
        };
        let wanted: &[u8] = if size < 486 {
            b""
        } else if size < 652 {
            b"c1"
        } else {
            b"c1c1"
        };
        assert!(rt; is(rt.alloc(), &LOG[..size], wanted, end)?);
    }
    Ok(())
}

/// A log without checks of these events, each by its type, its flags and its body.
pub(crate) fn log_with(alloc: Global, events: &[(u8, u8, &[u8])]) -> Result<Vec<u8>, AllocError> {
    let mut log = Vec::from_slice(alloc, &UNCHECKED[..256])?;
    for (kind, flags, body) in events {
        let size = 19 + body.len();
        log.extend_from_slice(&[0, 0, 0, 0, *kind, 7, 0, 0, 0])?;
        log.extend_from_slice(&[(size % 256) as u8, (size / 256 % 256) as u8, 0, 0])?;
        log.extend_from_slice(&[0, 0, 0, 0, *flags, 0])?;
        log.extend_from_slice(body)?;
    }
    Ok(log)
}

/// Whether a log of these events has these transactions, and ends so.
pub(crate) fn has(
    alloc: Global,
    events: &[(u8, u8, &[u8])],
    wanted: &[u8],
    end: Option<GroupFault>,
) -> Result<bool, AllocError> {
    is(alloc, &log_with(alloc, events)?, wanted, end)
}

/// Positions: of a transaction, and of a statement alone.
pub(crate) const GTID: (u8, u8, &[u8]) = (162, 0, b"\x05\0\0\0\0\0\0\0\0\0\0\0\0");

pub(crate) const ALONE: (u8, u8, &[u8]) = (162, 0, b"\x06\0\0\0\0\0\0\0\0\0\0\0\x01");

/// One of MySQL.
const MYSQL: (u8, u8, &[u8]) = (33, 0, b"\0uuid of 16 bytes\x05\0\0\0\0\0\0\0\x02");

/// The map of a table, and a row of it.
pub(crate) const MAP: (u8, u8, &[u8]) = (
    19,
    0,
    b"\x12\0\0\0\0\0\x01\0\x01s\0\x01t\0\x02\x03\x0f\x02\x14\0\x02",
);

pub(crate) const ROW: (u8, u8, &[u8]) = (23, 0, b"\x12\0\0\0\0\0\x01\0\x02\x03\xfc\x03\0\0\0\x01x");

pub(crate) const XID: (u8, u8, &[u8]) = (16, 0, b"\x0f\0\0\0\0\0\0\0");

const COMMIT: (u8, u8, &[u8]) = (2, 0, b"\0\0\0\0\0\0\0\0\x01\0\0\0\0s\0COMMIT");

const BEGIN: (u8, u8, &[u8]) = (2, 0, b"\0\0\0\0\0\0\0\0\x01\0\0\0\0s\0BEGIN");

pub(crate) const CREATE: (u8, u8, &[u8]) = (
    2,
    0,
    b"\0\0\0\0\0\0\0\0\x01\0\0\x02\0xxs\0create table t (a int)",
);

#[test]
fn savepoints(rt: HostRuntime) -> Result<(), AllocError> {
    let save = (
        2,
        0,
        b"\0\0\0\0\0\0\0\0\x01\0\0\0\0s\0SAVEPOINT `a`".as_slice(),
    );
    let back = (
        2,
        0,
        b"\0\0\0\0\0\0\0\0\x01\0\0\0\0s\0ROLLBACK TO `A`".as_slice(),
    );
    let other = (
        2,
        0,
        b"\0\0\0\0\0\0\0\0\x01\0\0\0\0s\0ROLLBACK TO `b`".as_slice(),
    );
    let rolled = (2, 0, b"\0\0\0\0\0\0\0\0\x01\0\0\0\0s\0ROLLBACK".as_slice());
    let kept = [GTID, MAP, ROW, save, ROW, ROW, back, ROW, COMMIT];
    assert!(rt; has(rt.alloc(), &kept, b"c2", None)?);
    let later = [GTID, MAP, ROW, save, ROW, save, ROW, back, XID];
    assert!(rt; has(rt.alloc(), &later, b"c2", None)?);
    let none = [GTID, MAP, ROW, save, other, XID];
    assert!(rt; has(rt.alloc(), &none, b"", Some(GroupFault::NoSavepoint))?);
    let all = [GTID, MAP, ROW, rolled, GTID, MAP, ROW, XID];
    assert!(rt; has(rt.alloc(), &all, b"r1c1", None)?);
    Ok(())
}

#[test]
fn statements_alone(rt: HostRuntime) -> Result<(), AllocError> {
    let grant = (
        2,
        0,
        b"\0\0\0\0\0\0\0\0\x01\0\0\0\0s\0grant all on *.* to a".as_slice(),
    );
    let insert = (
        2,
        0,
        b"\0\0\0\0\0\0\0\0\x01\0\0\0\0s\0insert into t values (1)".as_slice(),
    );
    assert!(rt; has(rt.alloc(), &[ALONE, CREATE, ALONE, grant], b"c1c0", None)?);
    assert!(rt; has(rt.alloc(), &[GTID, CREATE, MAP, ROW, XID], b"c2", None)?);
    let fault = Some(GroupFault::Statement);
    assert!(rt; has(rt.alloc(), &[ALONE, CREATE, GTID, insert], b"c1", fault)?);
    assert!(rt; has(rt.alloc(), &[ALONE, BEGIN], b"", Some(GroupFault::Outside))?);
    assert!(rt; has(rt.alloc(), &[ALONE, MAP], b"", Some(GroupFault::Outside))?);
    assert!(rt; has(rt.alloc(), &[ALONE], b"", Some(GroupFault::Unended))?);
    Ok(())
}

#[test]
fn transactions_of_mysql(rt: HostRuntime) -> Result<(), AllocError> {
    let filled = (
        2,
        0,
        b"\0\0\0\0\0\0\0\0\x01\0\0\0\0s\0CREATE TABLE `t` (`a` int) START TRANSACTION".as_slice(),
    );
    let second = (
        30,
        0,
        b"\x12\0\0\0\0\0\x01\0\x05\0\x01\x02\x03\x02\x03\xfc\x03\0\0\0\x01x".as_slice(),
    );
    assert!(rt;
        has(
            rt.alloc(),
            &[MYSQL, BEGIN, MAP, second, ROW, XID],
            b"c2",
            None
        )?
    );
    assert!(rt;
        has(
            rt.alloc(),
            &[MYSQL, CREATE, MYSQL, BEGIN, COMMIT],
            b"c1c0",
            None
        )?
    );
    assert!(rt; has(rt.alloc(), &[MYSQL, filled, MAP, second, XID], b"c2", None)?);
    let fault = Some(GroupFault::Outside);
    assert!(rt; has(rt.alloc(), &[MYSQL, MAP], b"", fault)?);
    assert!(rt; has(rt.alloc(), &[MYSQL, BEGIN, BEGIN], b"", fault)?);
    assert!(rt; has(rt.alloc(), &[GTID, filled], b"", fault)?);
    Ok(())
}

#[test]
fn what_makes_no_transaction(rt: HostRuntime) -> Result<(), AllocError> {
    let outside = Some(GroupFault::Outside);
    assert!(rt; has(rt.alloc(), &[ROW], b"", outside)?);
    assert!(rt; has(rt.alloc(), &[GTID, XID, XID], b"c0", outside)?);
    assert!(rt; has(rt.alloc(), &[GTID, GTID], b"", outside)?);
    assert!(rt; has(rt.alloc(), &[GTID, ROW], b"", Some(GroupFault::NoTable))?);
    assert!(rt;
        has(
            rt.alloc(),
            &[GTID, MAP, ROW, XID, GTID, ROW],
            b"c1",
            Some(GroupFault::NoTable)
        )?
    );
    assert!(rt;
        has(
            rt.alloc(),
            &[GTID, MAP, ROW],
            b"",
            Some(GroupFault::Unended)
        )?
    );
    assert!(rt;
        has(
            rt.alloc(),
            &[GTID, (19, 0, b"\x12\0")],
            b"",
            Some(GroupFault::Body)
        )?
    );
    assert!(rt;
        has(
            rt.alloc(),
            &[GTID, (26, 0, b"")],
            b"",
            Some(GroupFault::Refused(154))
        )?
    );
    assert!(rt;
        has(
            rt.alloc(),
            &[(34, 0, b"")],
            b"",
            Some(GroupFault::Refused(157))
        )?
    );
    assert!(rt;
        has(
            rt.alloc(),
            &[(200, 0, b"")],
            b"",
            Some(GroupFault::Refused(155))
        )?
    );
    assert!(rt;
        has(
            rt.alloc(),
            &[(200, 128, b""), GTID, (200, 128, b""), XID],
            b"c0",
            None
        )?
    );
    assert_eq!(rt; GroupFault::Unended.number(), 156);
    assert_eq!(rt; GroupFault::Event(EventFault::Cut).number(), 141);
    assert_eq!(rt; GroupFault::Refused(153).number(), 153);
    Ok(())
}

/// Statements, each with what it is.
const STATEMENTS: &[(&[u8], Statement)] = &[
    (b"BEGIN", Statement::Begins),
    (b"begin", Statement::Unknown),
    (b"COMMIT", Statement::Commits),
    (b"ROLLBACK", Statement::RollsBack),
    (b"SAVEPOINT `a``b`", Statement::Saves),
    (b"SAVEPOINT \"a\"", Statement::Unknown),
    (b"SAVEPOINT `\xc3\xa4`", Statement::Unknown),
    (b"SAVEPOINT `", Statement::Unknown),
    (b"ROLLBACK TO `a`", Statement::BacksTo),
    (b"RELEASE SAVEPOINT `a`", Statement::Passes),
    (b"XA START X'61',X'',1", Statement::Begins),
    (b"XA END X'61',X'',1", Statement::Passes),
    (b"XA COMMIT X'61',X'',1", Statement::XaCommits),
    (b"XA ROLLBACK X'61',X'',1", Statement::XaRollsBack),
    (b"create table t (a int)", Statement::Alters),
    (b"Truncate t", Statement::Alters),
    (
        b"CREATE TABLE `t` (`a` int) START TRANSACTION",
        Statement::AltersAndBegins,
    ),
    (b"creates", Statement::Unknown),
    (b"/* a */ create table t (a int)", Statement::Unknown),
    (b"grant all on *.* to a", Statement::Harmless),
    (b"analyze table t", Statement::Harmless),
    (b"analyze update t set a = 1", Statement::Unknown),
    (b"SET PASSWORD FOR 'a'@'b'='c'", Statement::Harmless),
    (
        b"set statement max_statement_time=1 for insert into t values (1)",
        Statement::Unknown,
    ),
    (b"insert into t values (1)", Statement::Unknown),
    (b"", Statement::Unknown),
];

#[test]
fn statements_by_their_texts(rt: HostRuntime) {
    for (text, wanted) in STATEMENTS {
        assert_eq!(rt; statement_of(text), *wanted);
    }
}

/// Whether a transaction has so many changes, the first of them rows of the table `t` with two columns.
fn changes_t(transaction: &Transaction<'_>, count: usize) -> bool {
    match transaction.changes.first() {
        Some(Done::Rows(_, map, head)) => {
            transaction.changes.len() == count && map.name == b"t".as_slice() && head.count == 2
        }
        _ => false,
    }
}

#[test]
fn what_a_transaction_does(rt: HostRuntime) -> Result<(), AllocError> {
    let log = log_with(rt.alloc(), &[GTID, MAP, ROW, ROW, XID])?;
    let table = CrcTable::new(rt.alloc())?;
    let Ok(opened) = log_of(&table, &log) else {
        return Ok(());
    };
    let mut transactions = Transactions::new(opened.events);
    match transactions.next_transaction(rt.alloc()) {
        Ok(Some(transaction)) => assert!(rt; changes_t(&transaction, 2)),
        _ => assert!(rt; false),
    }
    Ok(())
}
