//! Groups of a server's log behind positions.

use crate::logs::samples::LOG;
use gtid_set::GtidSet;
use log_course::{CourseError, CourseFault, LogGroups};
use log_events::{CrcTable, EventFault, LogFault};
use log_groups::{GroupFault, Gtid, MariaGtid, MysqlGtid};
use log_places::{PlaceError, PlaceFault, position_behind};
use std::alloc::{AllocError, Global};

/// How many changes each group of a log has, the position behind the last one, and the fault that ends them.
fn read<'x>(
    alloc: Global,
    table: &'x CrcTable,
    bytes: &'x [u8],
    reached: GtidSet,
) -> Result<(Vec<u8>, String, Option<CourseFault>), AllocError> {
    let mut found = Vec::new(alloc);
    let mut log = match LogGroups::open(alloc, table, reached, Vec::new(alloc), bytes) {
        Ok(log) => log,
        Err(CourseError::Memory) => return Err(AllocError),
        Err(CourseError::Fault(fault)) => return Ok((found, String::new(alloc), Some(fault))),
    };
    let mut end = None;
    for _ in 0..10 {
        match log.next_group(alloc) {
            Ok(Some(group)) => found.push(b'0' + (group.changes.len() % 10) as u8)?,
            Ok(None) => break,
            Err(CourseError::Memory) => return Err(AllocError),
            Err(CourseError::Fault(fault)) => {
                end = Some(fault);
                break;
            }
        }
    }
    let text = format!(in alloc; "{}", log.reached())?;
    Ok((found, text, end))
}

#[test]
fn groups_of_a_server(rt: HostRuntime) -> Result<(), AllocError> {
    let table = CrcTable::new(rt.alloc())?;
    let (found, text, end) = read(rt.alloc(), &table, &LOG, GtidSet::new())?;
    assert!(rt; found.as_slice() == b"111".as_slice() && end == None);
    assert!(rt; text.as_str() == "6d617269-6164-6200-8000-000000000000:1-3");
    Ok(())
}

#[test]
fn logs_that_end_inside_of_a_transaction(rt: HostRuntime) -> Result<(), AllocError> {
    let table = CrcTable::new(rt.alloc())?;
    let (found, _, end) = read(rt.alloc(), &table, &LOG[..761], GtidSet::new())?;
    assert!(rt;
        found.as_slice() == b"11".as_slice() && end == Some(CourseFault::Group(GroupFault::Unended))
    );
    let (found, _, end) = read(rt.alloc(), &table, &LOG[..760], GtidSet::new())?;
    let cut = Some(CourseFault::Group(GroupFault::Event(EventFault::Cut)));
    assert!(rt; found.as_slice() == b"11".as_slice() && end == cut);
    // the flag that says that the server is still writing
    let mut in_use = Vec::from_slice(rt.alloc(), &LOG[..760])?;
    in_use[21] = 1;
    let (found, text, end) = read(rt.alloc(), &table, &in_use, GtidSet::new())?;
    assert!(rt; found.as_slice() == b"11".as_slice() && end == None);
    assert!(rt; text.as_str() == "6d617269-6164-6200-8000-000000000000:1-2");
    Ok(())
}

#[test]
fn files_that_dont_go_on(rt: HostRuntime) -> Result<(), AllocError> {
    let table = CrcTable::new(rt.alloc())?;
    let Ok(reached) = GtidSet::parse(rt.alloc(), "6d617269-6164-6200-8000-000000000000:1-3") else {
        return Err(AllocError);
    };
    let (_, _, end) = read(rt.alloc(), &table, &LOG, reached)?;
    assert!(rt; end == Some(CourseFault::Place(PlaceFault::Elsewhere)));
    let (_, _, end) = read(rt.alloc(), &table, b"no log", GtidSet::new())?;
    assert!(rt; end == Some(CourseFault::Log(LogFault::NoLog)));
    assert!(rt; CourseFault::Log(LogFault::NoLog).number() == 140);
    assert!(rt; CourseFault::Place(PlaceFault::Elsewhere).number() == 159);
    Ok(())
}

/// The position behind a transaction with this number of a domain of MariaDB, as its text.
fn behind_maria(
    alloc: Global,
    reached: &str,
    domain: u64,
    sequence: u64,
) -> Result<Result<String, PlaceFault>, AllocError> {
    let gtid = MariaGtid {
        sequence,
        domain,
        alone: false,
        xid: None,
    };
    behind(alloc, reached, &Gtid::Maria(gtid))
}

/// The same of MySQL, where the uuid's bytes are all 1.
fn behind_mysql(
    alloc: Global,
    reached: &str,
    transaction: u64,
) -> Result<Result<String, PlaceFault>, AllocError> {
    let gtid = MysqlGtid {
        uuid: b"\x01\x01\x01\x01\x01\x01\x01\x01\x01\x01\x01\x01\x01\x01\x01\x01",
        transaction,
    };
    behind(alloc, reached, &Gtid::Mysql(gtid))
}

/// The position behind a transaction, as its text.
fn behind(
    alloc: Global,
    reached: &str,
    gtid: &Gtid<'_>,
) -> Result<Result<String, PlaceFault>, AllocError> {
    let Ok(reached) = GtidSet::parse(alloc, reached) else {
        return Err(AllocError);
    };
    match position_behind(alloc, &reached, gtid) {
        Ok(position) => {
            let text = format!(in alloc; "{position}")?;
            Ok(Ok(text))
        }
        Err(PlaceError::Memory) => Err(AllocError),
        Err(PlaceError::Fault(fault)) => Ok(Err(fault)),
    }
}

/// Whether a position is this one.
fn is_text(position: Result<String, PlaceFault>, text: &str) -> bool {
    match position {
        Ok(position) => position.as_str() == text,
        Err(_) => false,
    }
}

/// Whether there is no position, for this fault.
fn is_fault(position: Result<String, PlaceFault>, wanted: PlaceFault) -> bool {
    match position {
        Ok(_) => false,
        Err(fault) => fault == wanted,
    }
}

#[test]
fn positions_behind_numbers_of_a_domain(rt: HostRuntime) -> Result<(), AllocError> {
    let alloc = rt.alloc();
    let (uuid, first) = (
        "6d617269-6164-6200-8000-",
        "6d617269-6164-6200-8000-000000000000:1",
    );
    let one = "6d617269-6164-6200-8000-000000000000:1-3";
    // the first one, the one behind the last, one that leaves some out, and one of another domain
    let other = "6d617269-6164-6200-8000-000000000001:1-4";
    let both_first = format!(in alloc; "{first},{other}")?;
    assert!(rt; is_text(behind_maria(alloc, other, 0, 1)?, &both_first));
    let next = format!(in alloc; "{uuid}000000000000:1-4")?;
    assert!(rt; is_text(behind_maria(alloc, one, 0, 4)?, &next));
    let far = format!(in alloc; "{uuid}000000000000:1-9")?;
    assert!(rt; is_text(behind_maria(alloc, one, 0, 9)?, &far));
    let both = format!(in alloc; "{uuid}000000000000:1-3,{uuid}000000000001:1-4")?;
    assert!(rt; is_text(behind_maria(alloc, one, 1, 4)?, &both));
    // one that comes behind some that aren't from the first on
    assert!(rt;
        is_text(
            behind_maria(alloc, "6d617269-6164-6200-8000-000000000000:2-3", 0, 4)?,
            &next
        )
    );
    assert!(rt; is_fault(behind_maria(alloc, one, 0, 3)?, PlaceFault::GoesBack));
    assert!(rt; is_fault(behind_maria(alloc, one, 0, 2)?, PlaceFault::GoesBack));
    assert!(rt; is_fault(behind_maria(alloc, one, 0, 0)?, PlaceFault::NoNumber));
    Ok(())
}

#[test]
fn positions_behind_numbers_of_a_uuid(rt: HostRuntime) -> Result<(), AllocError> {
    let alloc = rt.alloc();
    let uuid = "01010101-0101-0101-0101-010101010101";
    let some = format!(in alloc; "{uuid}:2-3:6")?;
    // the one behind some, the one between others, one apart and one before
    let wanted = format!(in alloc; "{uuid}:2-4:6")?;
    assert!(rt; is_text(behind_mysql(alloc, &some, 4)?, &wanted));
    let wanted = format!(in alloc; "{uuid}:2-3:6-7")?;
    assert!(rt; is_text(behind_mysql(alloc, &some, 7)?, &wanted));
    let wanted = format!(in alloc; "{uuid}:2-3:6:9")?;
    assert!(rt; is_text(behind_mysql(alloc, &some, 9)?, &wanted));
    let wanted = format!(in alloc; "{uuid}:1-3:6")?;
    assert!(rt; is_text(behind_mysql(alloc, &some, 1)?, &wanted));
    let joined = format!(in alloc; "{uuid}:2-6")?;
    let nearly = format!(in alloc; "{uuid}:2-4:6")?;
    assert!(rt; is_text(behind_mysql(alloc, &nearly, 5)?, &joined));
    // ones that are there
    assert!(rt; is_fault(behind_mysql(alloc, &some, 3)?, PlaceFault::GoesBack));
    assert!(rt; is_fault(behind_mysql(alloc, &some, 6)?, PlaceFault::GoesBack));
    Ok(())
}
