//! Whether a byte of a file is the one at which a fault stands: the file's first bytes are read once more.

ghost use Rattle.std.specs.Prelude.{◌≡◌, ◌≤◌, ℕ, List, Option, true, false, length, None, Some, IfOk};
ghost use Rattle.log_groups.specs.Cuts.{MayGoOn};
ghost use Rattle.log_groups.specs.declared.fault.GroupFault.TheVariants.{Unended};
ghost use Rattle.log_transcribe.specs.Byte.{BeginsBehind, FailsAt, GroupAt, IsFirst, NoNumberAt, PlaceAt, CourseAt, StandsAt, byte_of_log};
ghost use Rattle.log_transcribe.specs.Private.Cuts.{Begins, BeginningIs, CutIs, CutsAre, EndIs, Fails, Follows, NextIs, StandsNotBefore};
ghost use Rattle.log_transcribe.specs.Private.Sends.{IsByteAt, IsOfLogs, StopsAt};
ghost use Rattle.log_transcribe.specs.declared.fault.LogsError.TheVariants as logs_error;

use crate::fault::{LogsFault, StreamError};
use log_course::CourseFault;
use log_events::{CrcTable, EventFault, Events, LogFault, Size, behind, log_of, number_at};
use log_groups::{GroupError, GroupFault, Transactions};
use log_laws::TellFault;
use log_places::PlaceFault;
use std::alloc::{AllocError, Global};

/// What a file's first bytes are, no event of which is at fault: how many events and how many transactions, and how these end.
#[derive(Clone, Copy)]
pub(crate) struct Cut {
    events: usize,
    transactions: usize,
    end: Option<GroupFault>,
}

/// How many events there are, and the fault that ends them.
fn events_in(events: Events<'_, '_>) -> Result<(usize, Option<EventFault>), AllocError>
    ensures many { IfOk result (λ x. length events.entry.reading.items ≡ x.0) }
    ensures fault { IfOk result (λ x. events.entry.reading.fault ≡ x.1) }
{
    let mut events = events;
    let mut many: usize = 0;
    loop {
        match events.next_event() {
            Ok(Some(_)) => match many.checked_add(1) {
                Some(more) => many = more,
                None => return Err(AllocError),
            },
            Ok(None) => return Ok((many, None)),
            Err(fault) => return Ok((many, Some(fault))),
        }
    }
}

/// How many transactions there are, and the fault that ends them.
fn transactions_in(
    alloc: Global,
    transactions: Transactions<'_, '_>,
) -> Result<(usize, Option<GroupFault>), AllocError>
    ensures many { IfOk result (λ x. length transactions.entry.reading.items ≡ x.0) }
    ensures fault { IfOk result (λ x. transactions.entry.reading.fault ≡ x.1) }
{
    let mut transactions = transactions;
    let mut many: usize = 0;
    loop {
        match transactions.next_transaction(alloc) {
            Ok(Some(_)) => match many.checked_add(1) {
                Some(more) => many = more,
                None => return Err(AllocError),
            },
            Ok(None) => return Ok((many, None)),
            Err(GroupError::Fault(fault)) => return Ok((many, Some(fault))),
            Err(GroupError::Memory) => return Err(AllocError),
        }
    }
}

/// What the first so many bytes of a file are, where they are a log no event of which is at fault.
fn cut_at(
    alloc: Global,
    table: &CrcTable,
    bytes: &[u8],
    byte: usize,
) -> Result<Option<Cut>, AllocError>
    ensures { IfOk result (λ cut. CutIs bytes.now byte cut) }
{
    if bytes.len() < byte {
        return Ok(None);
    }
    let front = bytes.split_at(byte).0;
    let Ok(log) = log_of(table, front) else {
        return Ok(None);
    };
    let (events, fault) = events_in(log.events)?;
    if fault.is_some() {
        return Ok(None);
    }
    let Ok(log) = log_of(table, front) else {
        return Ok(None);
    };
    let (transactions, end) = transactions_in(alloc, Transactions::new(log.events))?;
    Ok(Some(Cut {
        events,
        transactions,
        end,
    }))
}

/// The byte behind the event at one, by its head, if that is within the file.
fn next_at(bytes: &[u8], byte: usize) -> Option<usize>
    ensures { NextIs bytes.now byte result }
{
    let left = bytes.len().checked_sub(byte)?;
    let size = number_at(behind(bytes, byte), 9, Size::Four) as usize;
    if left < size {
        return None;
    }
    Some(byte + size)
}

/// What they are up to a byte, and with the event that stands there.
fn cuts_at(
    alloc: Global,
    table: &CrcTable,
    bytes: &[u8],
    byte: usize,
) -> Result<Option<(Cut, Cut)>, AllocError>
    ensures { IfOk result (λ cuts. CutsAre bytes.now byte cuts) }
{
    let Some(before) = cut_at(alloc, table, bytes, byte)? else {
        return Ok(None);
    };
    let Some(next) = next_at(bytes, byte) else {
        return Ok(None);
    };
    let Some(behind) = cut_at(alloc, table, bytes, next)? else {
        return Ok(None);
    };
    Ok(Some((before, behind)))
}

/// Whether one has an event more than the other, and as many transactions.
fn follows(before: Cut, behind: Cut) -> bool
    ensures is { result ≡ true → Follows before behind }
    ensures no { result ≡ false → Follows before behind → ⊥ }
{
    before.events < behind.events
        && behind.events - before.events == 1
        && behind.transactions == before.transactions
}

/// Whether the transactions of events end so.
fn is_end(end: Option<GroupFault>, fault: GroupFault) -> bool
    ensures is { result ≡ true → end ≡ Some fault }
    ensures no { result ≡ false → end ≡ Some fault → ⊥ }
{
    match end {
        Some(other) => other == fault,
        None => false,
    }
}

/// Whether the events so far are at no fault, where the last transaction may be open.
fn may_go_on(end: Option<GroupFault>) -> bool
    ensures is { result ≡ true → MayGoOn end }
    ensures no { result ≡ false → MayGoOn end → ⊥ }
{
    match end {
        None => true,
        Some(GroupFault::Unended) => true,
        Some(_) => false,
    }
}

/// Whether a transaction begins with the event more.
fn begins(before: Cut, behind: Cut) -> bool
    ensures is { result ≡ true → Begins before behind }
    ensures no { result ≡ false → Begins before behind → ⊥ }
{
    before.end.is_none() && is_end(behind.end, GroupFault::Unended) && follows(before, behind)
}

/// Whether the event more is at this fault.
fn fails(before: Cut, behind: Cut, fault: GroupFault) -> bool
    ensures is { result ≡ true → Fails before behind fault }
    ensures no { result ≡ false → Fails before behind fault → ⊥ }
{
    may_go_on(before.end) && is_end(behind.end, fault) && follows(before, behind)
}

/// Behind how many transactions one begins at a byte, if one does.
fn beginning_at(
    alloc: Global,
    table: &CrcTable,
    bytes: &[u8],
    byte: usize,
) -> Result<Option<usize>, AllocError>
    ensures { IfOk result (λ many. BeginningIs bytes.now byte many) }
{
    let Some((before, behind)) = cuts_at(alloc, table, bytes, byte)? else {
        return Ok(None);
    };
    if begins(before, behind) {
        return Ok(Some(before.transactions));
    }
    Ok(None)
}

/// Whether a transaction begins at a byte behind just so many of the file.
fn begins_behind(
    alloc: Global,
    table: &CrcTable,
    bytes: &[u8],
    told: Option<usize>,
    byte: usize,
) -> Result<bool, AllocError>
    ensures is { IfOk result (λ is. is ≡ true → BeginsBehind bytes.now told byte) }
    ensures no { IfOk result (λ is. is ≡ false → BeginsBehind bytes.now told byte → ⊥) }
{
    let Some(before) = told else {
        return Ok(false);
    };
    match beginning_at(alloc, table, bytes, byte)? {
        Some(many) => Ok(many == before),
        None => Ok(false),
    }
}

/// Whether a transaction begins at a byte that the file doesn't end, and that is its last one.
fn is_unended(
    alloc: Global,
    table: &CrcTable,
    bytes: &[u8],
    byte: usize,
) -> Result<bool, AllocError>
    ensures is { IfOk result (λ is. is ≡ true → GroupAt bytes.now None Unended byte) }
    ensures no { IfOk result (λ is. is ≡ false → GroupAt bytes.now None Unended byte → ⊥) }
{
    let Some(transactions) = beginning_at(alloc, table, bytes, byte)? else {
        return Ok(false);
    };
    let Some(whole) = cut_at(alloc, table, bytes, bytes.len())? else {
        return Ok(false);
    };
    if whole.transactions != transactions {
        return Ok(false);
    }
    Ok(is_end(whole.end, GroupFault::Unended))
}

/// Whether the event at a byte is at this fault.
fn is_failing(
    alloc: Global,
    table: &CrcTable,
    bytes: &[u8],
    byte: usize,
    fault: GroupFault,
) -> Result<bool, AllocError>
    ensures is { IfOk result (λ is. is ≡ true → FailsAt bytes.now byte fault) }
    ensures no { IfOk result (λ is. is ≡ false → FailsAt bytes.now byte fault → ⊥) }
{
    let Some((before, behind)) = cuts_at(alloc, table, bytes, byte)? else {
        return Ok(false);
    };
    Ok(fails(before, behind, fault))
}

/// What stands behind all events of a file, where these end at a byte: its end or a fault.
fn end_at(
    alloc: Global,
    table: &CrcTable,
    bytes: &[u8],
    byte: usize,
) -> Result<Option<Option<EventFault>>, AllocError>
    ensures { IfOk result (λ end. EndIs bytes.now byte end) }
{
    let Some(before) = cut_at(alloc, table, bytes, byte)? else {
        return Ok(None);
    };
    let Ok(log) = log_of(table, bytes) else {
        return Ok(None);
    };
    let (events, fault) = events_in(log.events)?;
    if events == before.events {
        return Ok(Some(fault));
    }
    Ok(None)
}

/// Whether that is this fault.
fn is_event_fault(end: Option<Option<EventFault>>, fault: EventFault) -> bool
    ensures is { result ≡ true → end ≡ Some (Some fault) }
    ensures no { result ≡ false → end ≡ Some (Some fault) → ⊥ }
{
    match end {
        Some(Some(other)) => other == fault,
        _ => false,
    }
}

/// Whether no event stands before a byte.
fn is_first(alloc: Global, table: &CrcTable, bytes: &[u8], byte: usize) -> Result<bool, AllocError>
    ensures is { IfOk result (λ is. is ≡ true → IsFirst bytes.now byte) }
    ensures no { IfOk result (λ is. is ≡ false → IsFirst bytes.now byte → ⊥) }
{
    let Some(cut) = cut_at(alloc, table, bytes, byte)? else {
        return Ok(false);
    };
    Ok(cut.events == 0 && cut.transactions == 0 && cut.end.is_none())
}

/// Whether a fault of transactions stands at a byte.
fn group_at(
    alloc: Global,
    table: &CrcTable,
    bytes: &[u8],
    told: Option<usize>,
    byte: usize,
    fault: GroupFault,
) -> Result<bool, AllocError>
    ensures is { IfOk result (λ is. is ≡ true → GroupAt bytes.now told fault byte) }
    ensures no { IfOk result (λ is. is ≡ false → GroupAt bytes.now told fault byte → ⊥) }
{
    match fault {
        GroupFault::Event(fault) => {
            let end = end_at(alloc, table, bytes, byte)?;
            Ok(is_event_fault(end, fault))
        }
        GroupFault::StillPrepared => {
            let end = end_at(alloc, table, bytes, byte)?;
            Ok(end.is_some())
        }
        GroupFault::Unended => is_unended(alloc, table, bytes, byte),
        GroupFault::Twice => begins_behind(alloc, table, bytes, told, byte),
        GroupFault::NotPrepared => begins_behind(alloc, table, bytes, told, byte),
        _ => is_failing(alloc, table, bytes, byte, fault),
    }
}

/// Whether a position that has no number stands at a byte.
fn no_number_at(
    alloc: Global,
    table: &CrcTable,
    bytes: &[u8],
    told: Option<usize>,
    byte: usize,
) -> Result<bool, AllocError>
    ensures is { IfOk result (λ is. is ≡ true → NoNumberAt bytes.now told byte) }
    ensures no { IfOk result (λ is. is ≡ false → NoNumberAt bytes.now told byte → ⊥) }
{
    if told.is_none() {
        return is_first(alloc, table, bytes, byte);
    }
    begins_behind(alloc, table, bytes, told, byte)
}

/// Whether a fault of positions stands at a byte.
fn place_at(
    alloc: Global,
    table: &CrcTable,
    bytes: &[u8],
    told: Option<usize>,
    byte: usize,
    fault: PlaceFault,
) -> Result<bool, AllocError>
    ensures is { IfOk result (λ is. is ≡ true → PlaceAt bytes.now told fault byte) }
    ensures no { IfOk result (λ is. is ≡ false → PlaceAt bytes.now told fault byte → ⊥) }
{
    match fault {
        PlaceFault::GoesBack => begins_behind(alloc, table, bytes, told, byte),
        PlaceFault::NoNumber => no_number_at(alloc, table, bytes, told, byte),
        _ => is_first(alloc, table, bytes, byte),
    }
}

/// Where a file is at fault that is no log.
fn byte_of_log(fault: LogFault) -> usize
    ensures { result ≡ byte_of_log fault }
{
    match fault {
        LogFault::NoLog => 0,
        LogFault::Encrypted => 0,
        _ => 4,
    }
}

/// Whether a fault of a file stands at a byte.
fn course_at(
    alloc: Global,
    table: &CrcTable,
    bytes: &[u8],
    told: Option<usize>,
    byte: usize,
    fault: CourseFault,
) -> Result<bool, AllocError>
    ensures is { IfOk result (λ is. is ≡ true → CourseAt bytes.now told fault byte) }
    ensures no { IfOk result (λ is. is ≡ false → CourseAt bytes.now told fault byte → ⊥) }
{
    match fault {
        CourseFault::Log(fault) => Ok(byte == byte_of_log(fault)),
        CourseFault::Group(fault) => group_at(alloc, table, bytes, told, byte, fault),
        CourseFault::Place(fault) => place_at(alloc, table, bytes, told, byte, fault),
    }
}

/// Whether a fault stands at a byte of a file, of which so many transactions are told, or none where it isn't begun with.
fn stands_at(
    alloc: Global,
    table: &CrcTable,
    bytes: &[u8],
    told: Option<usize>,
    byte: usize,
    fault: LogsFault,
) -> Result<bool, AllocError>
    ensures is { IfOk result (λ is. is ≡ true → StandsAt bytes.now told fault byte) }
    ensures no { IfOk result (λ is. is ≡ false → StandsAt bytes.now told fault byte → ⊥) }
{
    match fault {
        LogsFault::Course(_, fault) => course_at(alloc, table, bytes, told, byte, fault),
        LogsFault::Tell(_, TellFault::Change(_)) => begins_behind(alloc, table, bytes, told, byte),
        LogsFault::Tell(_, TellFault::Position) => Ok(false),
        LogsFault::TooLong(_) => Ok(false),
    }
}

/// Whether a fault may stand at a byte: a position that is too long, and a feed, stand at none.
fn has_place(fault: LogsFault) -> bool
    ensures no { (bytes : List ℕ) (told : Option ℕ) (byte : ℕ) → result ≡ false → StandsAt bytes told fault byte → ⊥ }
{
    match fault {
        LogsFault::Course(_, _) => true,
        LogsFault::Tell(_, TellFault::Change(_)) => true,
        LogsFault::Tell(_, TellFault::Position) => false,
        LogsFault::TooLong(_) => false,
    }
}

/// A byte up to which each fault stands that does at any.
fn last_byte(bytes: &[u8]) -> usize
    ensures long { length bytes.now ≤ result }
    ensures log { 4 ≤ result }
{
    if bytes.len() < 4 { 4 } else { bytes.len() }
}

/// The byte of a fault of a file, looked for at each one.
fn sought(
    alloc: Global,
    table: &CrcTable,
    bytes: &[u8],
    told: Option<usize>,
    fault: LogsFault,
) -> Result<Option<usize>, AllocError>
    ensures { IfOk result (λ byte. IsByteAt bytes.now told fault byte) }
{
    let last = last_byte(bytes);
    let mut byte: usize = 0;
    loop {
        if stands_at(alloc, table, bytes, told, byte, fault)? {
            return Ok(Some(byte));
        }
        if last <= byte {
            return Ok(None);
        }
        byte += 1;
    }
}

/// Whether a fault stands at a byte that may be known.
fn stands_there(
    alloc: Global,
    table: &CrcTable,
    bytes: &[u8],
    told: Option<usize>,
    byte: Option<usize>,
    fault: LogsFault,
) -> Result<bool, AllocError>
    ensures { IfOk result (λ is. is ≡ true → IsByteAt bytes.now told fault byte) }
{
    match byte {
        Some(byte) => stands_at(alloc, table, bytes, told, byte, fault),
        None => Ok(false),
    }
}

/// The byte of a fault of a file: the one that is thought of where it stands there; else each is tried, which no log is known to
/// need.
fn byte_of(
    alloc: Global,
    table: &CrcTable,
    bytes: &[u8],
    told: Option<usize>,
    fault: LogsFault,
    byte: Option<usize>,
) -> Result<Option<usize>, AllocError>
    ensures { IfOk result (λ byte. IsByteAt bytes.now told fault byte) }
{
    if !has_place(fault) {
        return Ok(None);
    }
    if stands_there(alloc, table, bytes, told, byte, fault)? {
        return Ok(byte);
    }
    sought(alloc, table, bytes, told, fault)
}

/// A fault of a file, with its byte, if it stands at one.
pub(crate) fn told_at(
    alloc: Global,
    table: &CrcTable,
    bytes: &[u8],
    told: Option<usize>,
    fault: LogsFault,
    byte: Option<usize>,
) -> StreamError
    ensures error { IsOfLogs (logs_error.Fault fault) result }
    ensures byte { StopsAt bytes.now told result }
{
    match byte_of(alloc, table, bytes, told, fault, byte) {
        Ok(byte) => StreamError::Fault(fault, byte),
        Err(_) => StreamError::Memory,
    }
}
