//! Events and their checks.

use crate::logs::samples::{LOG, UNCHECKED};
use log_events::*;
use std::alloc::{AllocError, Global};

/// The type and the size of each event behind the format description, as the server's own tools print them.
const EVENTS: &[(u8, u32)] = &[
    (163, 29),
    (161, 39),
    (161, 39),
    (162, 42),
    (2, 81),
    (162, 42),
    (2, 124),
    (162, 42),
    (160, 67),
    (19, 44),
    (23, 49),
    (16, 31),
];

const UNCHECKED_EVENTS: &[(u8, u32)] = &[
    (163, 39),
    (161, 35),
    (161, 35),
    (162, 38),
    (160, 49),
    (19, 40),
    (23, 36),
    (16, 27),
    (4, 39),
];

/// Whether a log has these events, and then ends.
fn has_events(alloc: Global, bytes: &[u8], wanted: &[(u8, u32)]) -> Result<bool, AllocError> {
    let table = CrcTable::new(alloc)?;
    let Ok(log) = log_of(&table, bytes) else {
        return Ok(false);
    };
    let mut events = log.events;
    for (kind, size) in wanted {
        match events.next_event() {
            Ok(Some(event)) => {
                if event.kind != *kind || event.size != *size {
                    return Ok(false);
                }
            }
            _ => return Ok(false),
        }
    }
    Ok(events.next_event() == Ok(None) && events.next_event() == Ok(None) && !log.in_use)
}

#[test]
fn events_of_a_server(rt: HostRuntime) {
    assert!(rt; matches!(has_events(rt.alloc(), &LOG, EVENTS), Ok(true)));
    assert!(rt;
        matches!(
            has_events(rt.alloc(), &UNCHECKED, UNCHECKED_EVENTS),
            Ok(true)
        )
    );
}

/// How the events of a log end: by a fault, or by none.
fn end_of(alloc: Global, bytes: &[u8]) -> Result<Result<Option<EventFault>, LogFault>, AllocError> {
    let table = CrcTable::new(alloc)?;
    let mut events = match log_of(&table, bytes) {
        Ok(log) => log.events,
        Err(fault) => return Ok(Err(fault)),
    };
    for _ in 0..100 {
        match events.next_event() {
            Ok(Some(_)) => {}
            Ok(None) => return Ok(Ok(None)),
            Err(fault) => return Ok(Ok(Some(fault))),
        }
    }
    Ok(Ok(None))
}

/// Where the events of the first log begin, and where it ends.
const BOUNDARIES: &[usize] = &[
    256, 285, 324, 363, 405, 486, 528, 652, 694, 761, 805, 854, 885,
];

#[test]
fn cut_at_every_byte(rt: HostRuntime) -> Result<(), AllocError> {
    for size in 4..256 {
        let end = end_of(rt.alloc(), &LOG[..size])?;
        assert_eq!(rt; end, Err(LogFault::First(EventFault::Cut)));
    }
    for size in 256..885 {
        let end = end_of(rt.alloc(), &LOG[..size])?;
        let whole = BOUNDARIES.contains(&size);
        assert_eq!(rt; end, Ok(if whole { None } else { Some(EventFault::Cut) }));
    }
    Ok(())
}

/// A copy of a log with one bit turned.
fn turned(alloc: Global, bytes: &[u8], place: usize, bit: u8) -> Result<Vec<u8>, AllocError> {
    let mut copy = Vec::from_slice(alloc, bytes)?;
    if let Some(byte) = copy.get_mut(place) {
        *byte ^= bit;
    }
    Ok(copy)
}

#[test]
fn a_bit_turned_in_every_byte(rt: HostRuntime) -> Result<(), AllocError> {
    for place in 256..885 {
        let log = turned(rt.alloc(), &LOG, place, 4)?;
        let end = end_of(rt.alloc(), &log)?;
        assert!(rt; matches!(end, Ok(Some(_))));
    }
    Ok(())
}

#[test]
fn the_flag_of_a_log_in_use(rt: HostRuntime) -> Result<(), AllocError> {
    let log = turned(rt.alloc(), &LOG, 21, 1)?;
    let table = CrcTable::new(rt.alloc())?;
    assert!(rt; matches!(log_of(&table, &log), Ok(log) if log.in_use));
    let other = turned(rt.alloc(), &LOG, 21, 2)?;
    assert_eq!(rt;
        end_of(rt.alloc(), &other)?,
        Err(LogFault::First(EventFault::WrongSum))
    );
    Ok(())
}

#[test]
fn what_is_no_log(rt: HostRuntime) -> Result<(), AllocError> {
    assert_eq!(rt; end_of(rt.alloc(), b"")?, Err(LogFault::NoLog));
    assert_eq!(rt; end_of(rt.alloc(), b"\xfebi")?, Err(LogFault::NoLog));
    assert_eq!(rt;
        end_of(rt.alloc(), b"\xfebinary")?,
        Err(LogFault::First(EventFault::Cut))
    );
    assert_eq!(rt;
        end_of(rt.alloc(), b"\xfdbin....")?,
        Err(LogFault::Encrypted)
    );
    let table = CrcTable::new(rt.alloc())?;
    let small = turned(rt.alloc(), &LOG, 13, 0xfc)?;
    assert_eq!(rt;
        end_of(rt.alloc(), &small)?,
        Err(LogFault::First(EventFault::TooSmall))
    );
    assert_eq!(rt; table.check_of(b"123456789"), 0xcbf4_3926);
    assert_eq!(rt; LogFault::OtherSum.number(), 145);
    Ok(())
}
