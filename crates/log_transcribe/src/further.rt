//! What logs tell behind a feed that is there.

ghost use Rattle.std.specs.Prelude.{◌≡◌, ◌≤◌, [], ◌∷◌, IfOk, map};
ghost use Rattle.list_laws.specs.Outcome.{GivesUnless};
ghost use Rattle.log_course.specs.Fault.{meant as course_meant};
ghost use Rattle.log_laws.specs.Source.{IsSource};
ghost use Rattle.log_transcribe.specs.Fault.{meant, behind_meant};
ghost use Rattle.log_transcribe.specs.Transcript.{source_value};
ghost use Rattle.log_transcribe.specs.Behind.{listed_first, first_list, begun_by, begun, unsaid, logs_behind, behind_told, behind_of_logs};
ghost use Rattle.log_transcribe.specs.Further.{IsFeedBehind};
ghost use Rattle.log_transcribe.specs.Standing.{IsByteBehind, IsByteBeyond, IsByteInBehind};
ghost use Rattle.log_transcribe.specs.Streamed.{EndsSo};
ghost use Rattle.log_transcribe.specs.Files.{log_bytes};
ghost use Rattle.log_transcribe.specs.Private.Opens.{HasFirst, IsFirst, OpensBehind, StopsFirst, logs_from, place_behind, stop_of};
ghost use Rattle.log_transcribe.specs.Private.Sends.{IsOfLogs, PutsFiles, PutsSpan, TellsAll, behind_error_of, sending};

use crate::fault::{BehindError, BehindFault, LogsError, LogsFault, StreamError};
use crate::files::{LentLogs, LogBytes, LogFiles, ReadFault};
use crate::outgoing::Outgoing;
use crate::place::{at_begin, nowhere};
use crate::said::{end_of, stages_of};
use crate::sequel::{Sequel, sequel_of};
use crate::spool::Spool;
use crate::transcript::{FeedSource, copy_of, of_course};
use event_laws::{opened_feeds_are_whole, whole_feeds_are_cuts, whole_goes_behind_whole};
use gtid_set::{GtidSet, union_is_the_least_set_over_both, within_is_subset};
use log_course::{CourseError, CourseFault, courses_are_read};
use log_events::{CrcTable, Events, log_of};
use log_feed::Stage;
use log_groups::GroupFault;
use log_laws::{
    courses_rise, ends_are_told, feeds_have_their_groups, messages_are_read, transactions_are_told,
    transactions_reach,
};
use log_places::{PlaceError, PlaceFault, list_of};
use printing::Out;
use source_feed::FeedFault;
use std::alloc::{AllocError, Global};

/// How many bytes a feed may have, and one more.
const LIMIT: usize = 1 << 31;

/// The position with which a log begins, by its first event.
fn listed_first(alloc: Global, events: Events<'_, '_>) -> Result<GtidSet, CourseError>
    ensures { GivesUnless course_meant (λ set. set) result (listed_first events.entry.reading.items events.entry.reading.fault) }
{
    let mut events = events;
    match events.next_event() {
        Ok(Some(event)) => match list_of(alloc, &event) {
            Ok(set) => Ok(set),
            Err(PlaceError::Memory) => Err(CourseError::Memory),
            Err(PlaceError::Fault(fault)) => Err(CourseError::Fault(CourseFault::Place(fault))),
        },
        Ok(None) => Err(CourseError::Fault(CourseFault::Place(PlaceFault::NoList))),
        Err(fault) => Err(CourseError::Fault(CourseFault::Group(GroupFault::Event(fault)))),
    }
}

/// The position with which a log begins.
#[tactic(auto, unfolding(crate::specs::Behind::first_list))]
fn first_list(alloc: Global, table: &CrcTable, bytes: &[u8]) -> Result<GtidSet, CourseError>
    ensures { GivesUnless course_meant (λ set. set) result (first_list bytes.now) }
{
    match log_of(table, bytes) {
        Ok(log) => listed_first(alloc, log.events),
        Err(fault) => Err(CourseError::Fault(CourseFault::Log(fault))),
    }
}

/// Where the logs begin: with nothing that the feed doesn't have.
fn begun_by(reached: &GtidSet, first: GtidSet) -> Result<GtidSet, LogsError>
    ensures { GivesUnless meant (λ set. set) result (begun_by reached.now first) }
{
    if first.is_within(reached) {
        return Ok(first);
    }
    let fault = CourseFault::Place(PlaceFault::Elsewhere);
    Err(LogsError::Fault(LogsFault::Course(0, fault)))
}

/// The same of the first log, if there is one.
fn begun(
    alloc: Global,
    table: &CrcTable,
    reached: &GtidSet,
    log: &Option<LogBytes<'_>>,
) -> Result<GtidSet, LogsError>
    ensures { GivesUnless meant (λ set. set) result (begun reached.now (logs_from log.now [])) }
{
    match log {
        None => {
            let first = copy_of(alloc, reached)?;
            Ok(first)
        }
        Some(log) => match first_list(alloc, table, log.as_slice()) {
            Ok(first) => begun_by(reached, first),
            Err(error) => Err(of_course(0, error)),
        },
    }
}

/// What is said of a table that the feed doesn't have, where the logs begin so.
fn unsaid(first: &GtidSet) -> Stage
    ensures { result ≡ unsaid first.now }
{
    if first.is_empty() {
        Stage::Made
    } else {
        Stage::Absent
    }
}

/// What is wrong with the feed.
fn of_feed(fault: FeedFault) -> StreamError
    ensures { result ≡ stop_of fault }
{
    match fault {
        FeedFault::Memory => StreamError::Memory,
        fault => StreamError::Feed(fault),
    }
}

/// What is wrong where the first log begins, if there is one.
fn of_first(
    alloc: Global,
    table: &CrcTable,
    log: &Option<LogBytes<'_>>,
    error: LogsError,
) -> StreamError
    ensures error { IsOfLogs error result }
    ensures byte { StopsFirst log.now result }
{
    match log {
        Some(log) => at_begin(alloc, table, log.as_slice(), error),
        None => nowhere(error),
    }
}

/// The first log, if there is one.
fn first_log<L: LogFiles>(files: &L) -> Result<Option<LogBytes<'_>>, StreamError>
    ensures { IsFirst (L.gives files.entry.now) (L.many files.entry.now) result }
{
    if files.count() == 0 {
        return Ok(None);
    }
    match files.read(0) {
        Ok(log) => Ok(Some(log)),
        Err(ReadFault::Memory) => Err(StreamError::Memory),
        Err(ReadFault::Unread) => Err(StreamError::Unread(0)),
    }
}

/// What is to be told behind a feed, where this is the first log.
fn opened_behind<'t, 'w>(
    alloc: Global,
    table: &CrcTable,
    source: FeedSource<'t, 'w>,
    feed: &[u8],
    log: &Option<LogBytes<'_>>,
) -> Result<Sequel<'t, 'w>, StreamError>
    ensures { OpensBehind (source_value source.entry) feed.now log.now result }
{
    let reached = match end_of(alloc, source, feed) {
        Ok(reached) => reached,
        Err(fault) => return Err(of_feed(fault)),
    };
    let first = match begun(alloc, table, &reached, log) {
        Ok(first) => first,
        Err(error) => return Err(of_first(alloc, table, log, error)),
    };
    // (for their contracts: what is true of every set)
    reached.intervals();
    first.intervals();
    let had = match stages_of(alloc, source, unsaid(&first), feed) {
        Ok(had) => had,
        Err(fault) => return Err(of_feed(fault)),
    };
    let sequel = sequel_of(alloc, source, reached, first, had)?;
    Ok(sequel)
}

/// Goes on behind all files, of which the first, if there is one, is read.
fn send_all<L: LogFiles, W: Out>(
    alloc: Global,
    table: &CrcTable,
    sequel: &mut Sequel<'_, '_>,
    files: &L,
    out: &mut W,
    outgoing: &mut Outgoing,
    log: Option<LogBytes<'_>>,
) -> Result<(), StreamError>
    requires { HasFirst (L.many files.now) log }
    ensures told { PutsFiles (λ others. logs_behind 0 sequel.old.source sequel.old.had [] (logs_from log.entry others) sequel.old.along) (λ others fault byte. IsByteBehind 0 sequel.old.source sequel.old.had [] (logs_from log.entry others) sequel.old.along fault byte) (L.gives files.now) (place_behind log.entry) (L.many files.now) sequel.new.along result (sending (W.written out.old) outgoing.old) (sending (W.written out.new) outgoing.new) }
    ensures source { sequel.new.source ≡ sequel.old.source }
    ensures had { sequel.new.had ≡ sequel.old.had }
{
    match log {
        None => Ok(()),
        Some(log) => match send_first(alloc, table, sequel, files, out, outgoing, log) {
            Ok(next) => sequel.send_others(alloc, out, outgoing, table, files, next),
            Err(error) => Err(error),
        },
    }
}

/// Goes on behind the first file, and those behind it while something waits, and lets them go. Answers the place behind them.
fn send_first<L: LogFiles, W: Out>(
    alloc: Global,
    table: &CrcTable,
    sequel: &mut Sequel<'_, '_>,
    files: &L,
    out: &mut W,
    outgoing: &mut Outgoing,
    log: LogBytes<'_>,
) -> Result<usize, StreamError>
    requires { 1 ≤ L.many files.now }
    ensures told { PutsSpan (λ others. logs_behind 0 sequel.old.source sequel.old.had [] (log_bytes log.entry ∷ others) sequel.old.along) (λ others fault byte. IsByteBehind 0 sequel.old.source sequel.old.had [] (log_bytes log.entry ∷ others) sequel.old.along fault byte) (λ at left logs along. logs_behind at sequel.old.source sequel.old.had left logs along) (λ at left logs along fault byte. IsByteBehind at sequel.old.source sequel.old.had left logs along fault byte) (L.gives files.now) 1 (L.many files.now) sequel.new.along result (sending (W.written out.old) outgoing.old) (sending (W.written out.new) outgoing.new) }
    ensures within { IfOk result (λ next. next ≤ L.many files.now) }
    ensures source { sequel.new.source ≡ sequel.old.source }
    ensures had { sequel.new.had ≡ sequel.old.had }
{
    let waiting = Vec::new(alloc);
    sequel.send_bytes(
        alloc,
        out,
        outgoing,
        table,
        files,
        0,
        waiting,
        log.as_slice(),
    )
}

/// What is told of files behind a feed, of any length, and how many bytes that is.
fn told_behind<L: LogFiles, W: Out>(
    alloc: Global,
    table: &CrcTable,
    sequel: Sequel<'_, '_>,
    files: &L,
    out: &mut W,
    log: Option<LogBytes<'_>>,
) -> Result<usize, StreamError>
    requires { HasFirst (L.many files.now) log }
    ensures { TellsAll (λ others. behind_told sequel.entry.source sequel.entry.had sequel.entry.along (logs_from log.entry others)) (λ others fault byte. IsByteBeyond sequel.entry.source sequel.entry.had (logs_from log.entry others) sequel.entry.along fault byte) (L.gives files.now) (place_behind log.entry) (L.many files.now) result (W.written out.old) (W.written out.new) }
{
    let mut sequel = sequel;
    let mut outgoing = Outgoing::new(alloc);
    if let Err(error) = send_all(alloc, table, &mut sequel, files, out, &mut outgoing, log) {
        return Err(error);
    }
    match sequel
        .transcript
        .send_end(alloc, out, &mut outgoing, files.count())
    {
        Ok(()) => Ok(outgoing.sent),
        Err(error) => Err(error),
    }
}

/// What logs tell behind a feed of the same source, as it is written on `out` and may then be appended to it: the transactions
/// that the feed's position has are passed over, and of each other one that has rows of the feed's tables there is a message; at
/// the end one for the position that was reached, where the last message has another. The first log has to begin with no
/// position that the feed doesn't have; a feed without bytes has none. A transaction's position is that of the logs and the
/// feed's together.
///
/// Refused, in this order: the feed's faults, as `read_groups` of source_feed has them; a feed with bytes and no group
/// (`NoGroup`); what is wrong where the first log begins, and `Elsewhere` (159) where that is behind the feed's position;
/// columns in the feed that aren't the source's (`FieldsDiffer`); then the first other fault of the logs, among them `GoesBack`
/// (158) where the feed has some numbers of a transaction and not all, and `NotMade` (159) where it has a transaction, and no
/// columns of a table that has rows there. An error may also be the first file that can't be read, that a write failed, or want
/// of memory. What was written before is of no use then. Takes memory for the feed's groups beside the first file, then as
/// `transcribe_to`.
pub fn transcribe_behind_to<L: LogFiles, W: Out>(
    alloc: Global,
    source: FeedSource<'_, '_>,
    feed: Vec<u8>,
    files: &L,
    out: &mut W,
) -> Result<(), StreamError>
    // With what is written the feed has its groups, and behind them just those of the transactions that it didn't have.
    ensures { EndsSo (λ logs. behind_of_logs (source_value source.entry) feed.items logs) (λ logs fault byte. IsByteInBehind (source_value source.entry) feed.items logs fault byte) (λ logs more. IsSource (source_value source.entry) → IsFeedBehind (source_value source.entry) feed.items logs more) (L.gives files.now) (L.many files.now) result (W.written out.old) (W.written out.new) }
{
    transactions_are_told();
    transactions_reach();
    ends_are_told();
    courses_rise();
    messages_are_read();
    feeds_have_their_groups();
    courses_are_read();
    opened_feeds_are_whole();
    whole_feeds_are_cuts();
    whole_goes_behind_whole();
    within_is_subset();
    union_is_the_least_set_over_both();
    let table = CrcTable::new(alloc)?;
    let log = match first_log(files) {
        Ok(log) => log,
        Err(error) => return Err(error),
    };
    let sequel = match opened_behind(alloc, &table, source, &feed, &log) {
        Ok(sequel) => sequel,
        Err(error) => return Err(error),
    };
    let room = LIMIT.saturating_sub(feed.len());
    drop(feed);
    let size = match told_behind(alloc, &table, sequel, files, out, log) {
        Ok(size) => size,
        Err(error) => return Err(error),
    };
    if size < room {
        return Ok(());
    }
    Err(StreamError::Fault(LogsFault::TooLong(files.count()), None))
}

/// What logs that are in memory tell behind a feed, as `transcribe_behind_to` writes it. An error is its fault, or want of
/// memory. Takes memory for the feed, for what is told, and for one transaction at a time.
pub fn transcribe_behind(
    alloc: Global,
    source: FeedSource<'_, '_>,
    feed: &[u8],
    logs: &[&[u8]],
) -> Result<Vec<u8>, BehindError>
    ensures exact { GivesUnless behind_meant (λ more. more.items) result (behind_of_logs (source_value source.entry) feed.now (map (λ log. log.now) logs.now)) }
    // With these bytes the feed has its groups, and behind them just those of the transactions that it didn't have.
    ensures right { IfOk result (λ more. IsSource (source_value source.entry) → IsFeedBehind (source_value source.entry) feed.now (map (λ log. log.now) logs.now) more.items) }
{
    let feed = copied(alloc, feed)?;
    let mut spool = Spool::new(alloc);
    match transcribe_behind_to(alloc, source, feed, &LentLogs { logs }, &mut spool) {
        Ok(()) => Ok(spool.into_bytes()),
        Err(error) => Err(of_stream(error)),
    }
}

/// A copy of bytes.
fn copied(alloc: Global, bytes: &[u8]) -> Result<Vec<u8>, AllocError>
    ensures { IfOk result (λ copy. copy.items ≡ bytes.now) }
{
    let mut copy = Vec::new(alloc);
    copy.extend_from_slice(bytes)?;
    Ok(copy)
}

/// What is wrong with a feed, or with logs that are in memory.
fn of_stream(error: StreamError) -> BehindError
    ensures { result ≡ behind_error_of error }
{
    match error {
        StreamError::Fault(fault, _) => BehindError::Fault(BehindFault::Logs(fault)),
        StreamError::Feed(fault) => BehindError::Fault(BehindFault::Feed(fault)),
        _ => BehindError::Memory,
    }
}
