//! The feed of logs.

ghost use Rattle.std.specs.Prelude.{◌≡◌, ◌<◌, ◌≤◌, ◌+◌, true, [], ◌∷◌, length, map, replicate, None, Some, IfOk};
ghost use Rattle.list_laws.specs.Outcome.{GivesUnless};
ghost use Rattle.log_feed.specs.declared.table.Stage.TheVariants.{Absent};
ghost use Rattle.log_groups.specs.GroupCalls.{waiting_value};
ghost use Rattle.log_course.specs.Calls.{placed_value};
ghost use Rattle.log_laws.specs.Source.{IsSource};
ghost use Rattle.log_laws.specs.Transcript.{group_told, last_told};
ghost use Rattle.log_transcribe.specs.Fault.{meant, of_logs, of_tell};
ghost use Rattle.log_transcribe.specs.Transcript.{source_value, course_told, log_told, none_waits, logs_told, nothing_told, feed_told, feed_of_logs};
ghost use Rattle.log_transcribe.specs.Feed.{IsFeedOfLogs};
ghost use Rattle.log_transcribe.specs.Standing.{IsByteIn, IsByteOfLogs, many_told, told_in};
ghost use Rattle.log_transcribe.specs.Streamed.{EndsSo};
ghost use Rattle.log_transcribe.specs.Private.Bytes.{course_error_at, change_error_at, tell_error_at, with_messages, last_with, PutsNext, KeepsWaiting};
ghost use Rattle.log_transcribe.specs.Private.Sends.{CountsOne, CountsSent, Puts, PutsEnd, PutsFiles, PutsLog, PutsOne, PutsSpan, Stills, TellsAll, TellsByte, TellsNone, logs_error_of, sending};

use crate::fault::{LogsError, LogsFault, StreamError, TellError};
use crate::files::{LentLogs, LogFiles, ReadFault};
use crate::message::{put_events, put_last};
use crate::outgoing::Outgoing;
use crate::place::{at_begin, at_end, bytes_read, inside, nowhere};
use crate::spool::Spool;
use gtid_set::GtidSet;
use log_course::{CourseError, CourseFault, LogGroups, PlacedGroup, courses_are_read};
use log_events::CrcTable;
use log_feed::{ChangeError, FeedTable, GroupWriter, Stage};
use log_groups::{GroupFault, Waiting, any_waits};
use log_laws::{
    TellFault, courses_rise, ends_are_told, feeds_have_their_groups, messages_are_read,
    transactions_are_told, transactions_reach,
};
use printing::Out;
use std::alloc::{AllocError, Global};
use std::marker::Model;

/// How many bytes a feed may have, and one more.
const LIMIT: usize = 1 << 31;

/// Whose feed it is: its keyspace and shard, and its tables, which the logs have in a schema.
#[derive(Clone, Copy)]
pub struct FeedSource<'t, 'w> {
    pub keyspace: &'t str,
    pub shard: &'t str,
    pub schema: &'t [u8],
    pub tables: &'t [FeedTable<'w>],
}

/// How far logs are told. Seen in contracts as whose feed it is, and how far it tells.
#[derive(Drop)]
pub(crate) struct Transcript<'t, 'w> {
    pub(crate) keyspace: &'t str,
    pub(crate) shard: &'t str,
    pub(crate) writer: GroupWriter<'t, 'w>,
    pub(crate) reached: GtidSet,
    pub(crate) said: bool,
}

impl<'t, 'w> Model for Transcript<'t, 'w> {
    ghost use Rattle.log_transcribe.specs.Private.Bytes.{TranscriptValue};

    ghost Value = { TranscriptValue };

    ghost view = { λ t. record { source = record { keyspace = t.keyspace.now; shard = t.shard.now; schema = t.writer.schema; tables = t.writer.tables }; far = record { reached = t.reached; stages = t.writer.stages; said = t.said } } };
}

/// Where a file ends: the XA transactions that wait there, and how many of its bytes were read.
#[derive(Drop)]
pub(crate) struct LogEnd<'b> {
    pub(crate) waiting: Vec<Waiting<'b>>,
    pub(crate) read: usize,
}

impl LogEnd<'_> {
    /// Whether no XA transaction waits there.
    pub(crate) fn is_settled(&self) -> bool
        ensures { result ≡ true → map waiting_value self.now.waiting.items ≡ [] }
    {
        self.waiting.is_empty()
    }

    /// Nothing waits there that changes anything, where this is the end of the last file, which has these bytes; `next` is the
    /// place behind it.
    pub(crate) fn settle(
        &self,
        alloc: Global,
        table: &CrcTable,
        bytes: &[u8],
        next: usize,
    ) -> Result<(), StreamError>
        ensures told { Stills (none_waits next (map waiting_value self.now.waiting.items)) result }
        ensures byte { TellsByte bytes.now None result }
    {
        match none_waits(next, &self.waiting) {
            Ok(()) => Ok(()),
            Err(error) => Err(at_end(alloc, table, bytes, self.read, error)),
        }
    }
}

/// A copy of a position.
pub(crate) fn copy_of(alloc: Global, position: &GtidSet) -> Result<GtidSet, AllocError>
    ensures { IfOk result (λ copy. copy ≡ position.now) }
{
    match position.try_clone(alloc) {
        Ok(copy) => Ok(copy),
        Err(_) => Err(AllocError),
    }
}

/// One transaction more.
pub(crate) fn one_more(told: usize) -> Result<usize, AllocError>
    ensures { IfOk result (λ all. all ≡ told + 1) }
{
    match told.checked_add(1) {
        Some(all) => Ok(all),
        None => Err(AllocError),
    }
}

/// What is wrong with the file at a place.
pub(crate) fn of_course(file: usize, error: CourseError) -> LogsError
    ensures { result ≡ course_error_at file error }
{
    match error {
        CourseError::Memory => LogsError::Memory,
        CourseError::Fault(fault) => LogsError::Fault(LogsFault::Course(file, fault)),
    }
}

/// What is wrong with the changes of a transaction of it.
pub(crate) fn of_change(file: usize, error: ChangeError) -> LogsError
    ensures { result ≡ change_error_at file error }
{
    match error {
        ChangeError::Memory => LogsError::Memory,
        ChangeError::Fault(fault) => LogsError::Fault(LogsFault::Tell(
            file,
            TellFault::Change(fault),
        )),
    }
}

/// Nothing waits that changes anything behind the last file, which is the one before this place.
fn none_waits(file: usize, waiting: &[Waiting<'_>]) -> Result<(), LogsError>
    ensures { GivesUnless meant (λ x. x) result (none_waits file (map waiting_value waiting.now)) }
{
    if any_waits(waiting) {
        let fault = CourseFault::Group(GroupFault::StillPrepared);
        return Err(LogsError::Fault(LogsFault::Course(file.saturating_sub(1), fault)));
    }
    Ok(())
}

/// What is wrong with a transaction of it.
fn of_tell(file: usize, error: TellError) -> LogsError
    ensures { result ≡ tell_error_at file error }
{
    match error {
        TellError::Memory => LogsError::Memory,
        TellError::Is(fault) => LogsError::Fault(LogsFault::Tell(file, fault)),
    }
}

impl<'t, 'w> Transcript<'t, 'w> {
    /// Appends the message of a transaction of the file at a place, where it changes a table of the feed.
    pub(crate) fn put_group(
        &mut self,
        alloc: Global,
        out: &mut Vec<u8>,
        file: usize,
        group: PlacedGroup<'_>,
    ) -> Result<(), LogsError>
        ensures told { GivesUnless meant (λ x. (out.new.items, self.new.far)) result (with_messages (of_tell file (group_told self.old.source (placed_value group.entry) self.old.far)) out.old.items) }
        ensures source { self.new.source ≡ self.old.source }
    {
        let events = match self.writer.events_of(alloc, &group.changes) {
            Ok(events) => events,
            Err(error) => return Err(of_change(file, error)),
        };
        match put_events(
            alloc,
            out,
            self.keyspace,
            self.shard,
            &group.position,
            &events,
        ) {
            Ok(said) => {
                self.said = said;
                self.reached = group.position;
                Ok(())
            }
            Err(error) => Err(of_tell(file, error)),
        }
    }

    /// Appends the message of the next transaction of the file at a place, if there is one, and answers that.
    fn put_next(
        &mut self,
        alloc: Global,
        out: &mut Vec<u8>,
        file: usize,
        groups: &mut LogGroups<'_, '_>,
    ) -> Result<bool, LogsError>
        ensures told { PutsNext file self.old.source groups.old.groups result groups.new.groups self.old.far self.new.far out.old.items out.new.items }
        ensures counts { CountsOne result (many_told (λ g f. group_told self.old.source g f) groups.old.groups.items self.old.far) (many_told (λ g f. group_told self.old.source g f) groups.new.groups.items self.new.far) }
        ensures waiting { KeepsWaiting groups.old result groups.new }
        ensures source { self.new.source ≡ self.old.source }
    {
        match groups.next_group(alloc) {
            Ok(Some(group)) => match self.put_group(alloc, out, file, group) {
                Ok(()) => Ok(true),
                Err(error) => Err(error),
            },
            Ok(None) => Ok(false),
            Err(error) => Err(of_course(file, error)),
        }
    }

    /// Tells the next transaction of the file at a place, if there is one, and answers that.
    fn send_next<W: Out>(
        &mut self,
        alloc: Global,
        out: &mut W,
        outgoing: &mut Outgoing,
        table: &CrcTable,
        file: usize,
        bytes: &[u8],
        groups: &mut LogGroups<'_, '_>,
        told: usize,
    ) -> Result<bool, StreamError>
        ensures told { PutsOne (course_told file self.old.source groups.old.groups self.old.far) (course_told file self.old.source groups.new.groups self.new.far) self.new.far (length groups.old.groups.items) (length groups.new.groups.items) result (sending (W.written out.old) outgoing.old) (sending (W.written out.new) outgoing.new) }
        ensures byte { TellsByte bytes.now (Some (told + many_told (λ g f. group_told self.old.source g f) groups.old.groups.items self.old.far)) result }
        ensures counts { CountsSent result (many_told (λ g f. group_told self.old.source g f) groups.old.groups.items self.old.far) (many_told (λ g f. group_told self.old.source g f) groups.new.groups.items self.new.far) }
        ensures waiting { KeepsWaiting groups.old result groups.new }
        ensures source { self.new.source ≡ self.old.source }
    {
        let begin = bytes_read(bytes, groups);
        let more = match self.put_next(alloc, &mut outgoing.waits, file, groups) {
            Ok(more) => more,
            Err(error) => {
                let end = bytes_read(bytes, groups);
                return Err(inside(alloc, table, bytes, begin, end, told, error));
            }
        };
        match outgoing.send_portion(out) {
            Ok(()) => Ok(more),
            Err(error) => Err(error),
        }
    }

    /// Tells the transactions of the file at a place, which has these bytes, and answers its end.
    fn send_groups<'b, W: Out>(
        &mut self,
        alloc: Global,
        out: &mut W,
        outgoing: &mut Outgoing,
        table: &CrcTable,
        file: usize,
        bytes: &[u8],
        groups: LogGroups<'_, 'b>,
    ) -> Result<LogEnd<'b>, StreamError>
        ensures told { Puts (course_told file self.old.source groups.entry.groups self.old.far) self.new.far result (sending (W.written out.old) outgoing.old) (sending (W.written out.new) outgoing.new) }
        ensures byte { TellsByte bytes.now (Some (many_told (λ g f. group_told self.old.source g f) groups.entry.groups.items self.old.far)) result }
        ensures waiting { IfOk result (λ end. map waiting_value end.waiting.items ≡ groups.entry.waiting) }
        ensures source { self.new.source ≡ self.old.source }
    {
        let mut groups = groups;
        let mut told: usize = 0;
        loop {
            match self.send_next(alloc, out, outgoing, table, file, bytes, &mut groups, told) {
                Ok(more) => {
                    if !more {
                        let read = bytes_read(bytes, &groups);
                        return Ok(LogEnd {
                            waiting: groups.into_waiting(),
                            read,
                        });
                    }
                    match one_more(told) {
                        Ok(all) => told = all,
                        Err(_) => return Err(StreamError::Memory),
                    }
                }
                Err(error) => return Err(error),
            }
        }
    }

    /// Tells the file at a place, where these XA transactions wait before it, and answers its end.
    fn send_log<'b, W: Out>(
        &mut self,
        alloc: Global,
        out: &mut W,
        outgoing: &mut Outgoing,
        table: &CrcTable,
        file: usize,
        waiting: Vec<Waiting<'b>>,
        bytes: &'b [u8],
    ) -> Result<LogEnd<'b>, StreamError>
        ensures told { PutsLog (log_told file self.old.source (map waiting_value waiting.entry.items) bytes.now self.old.far) (λ end. map waiting_value end.waiting.items) self.new.far result (sending (W.written out.old) outgoing.old) (sending (W.written out.new) outgoing.new) }
        ensures byte { TellsByte bytes.now (told_in file self.old.source (map waiting_value waiting.entry.items) bytes.now self.old.far) result }
        ensures source { self.new.source ≡ self.old.source }
    {
        let reached = copy_of(alloc, &self.reached)?;
        match LogGroups::open(alloc, table, reached, waiting, bytes) {
            Ok(groups) => self.send_groups(alloc, out, outgoing, table, file, bytes, groups),
            Err(error) => Err(at_begin(alloc, table, bytes, of_course(file, error))),
        }
    }

    /// Tells the file at a place, which has these bytes, where these XA transactions wait before it; and those behind it while
    /// something waits, so that the bytes to which it refers stay there. Answers the place behind them.
    #[cycle(send)]
    fn send_bytes<'b, L: LogFiles, W: Out>(
        &mut self,
        alloc: Global,
        out: &mut W,
        outgoing: &mut Outgoing,
        table: &CrcTable,
        files: &L,
        file: usize,
        waiting: Vec<Waiting<'b>>,
        bytes: &'b [u8],
    ) -> Result<usize, StreamError>
        requires { file < L.many files.now }
        ensures told { PutsSpan (λ logs. logs_told file self.old.source (map waiting_value waiting.entry.items) (bytes.now ∷ logs) self.old.far) (λ logs fault byte. IsByteOfLogs file self.old.source (map waiting_value waiting.entry.items) (bytes.now ∷ logs) self.old.far fault byte) (λ at left logs far. logs_told at self.old.source left logs far) (λ at left logs far fault byte. IsByteOfLogs at self.old.source left logs far fault byte) (L.gives files.now) (file + 1) (L.many files.now) self.new.far result (sending (W.written out.old) outgoing.old) (sending (W.written out.new) outgoing.new) }
        ensures more { IfOk result (λ next. file < next) }
        ensures within { IfOk result (λ next. next ≤ L.many files.now) }
        ensures source { self.new.source ≡ self.old.source }
    {
        let count = files.count();
        let end = match self.send_log(alloc, out, outgoing, table, file, waiting, bytes) {
            Ok(end) => end,
            Err(error) => return Err(error),
        };
        let next = file + 1;
        if end.is_settled() {
            return Ok(next);
        }
        if next < count {
            return self.send_file(alloc, out, outgoing, table, files, next, end.waiting);
        }
        match end.settle(alloc, table, bytes, next) {
            Ok(()) => Ok(next),
            Err(error) => Err(error),
        }
    }

    /// Reads the file at a place, and tells it and those behind it while something waits. Answers the place behind them.
    #[cycle(send)]
    fn send_file<L: LogFiles, W: Out>(
        &mut self,
        alloc: Global,
        out: &mut W,
        outgoing: &mut Outgoing,
        table: &CrcTable,
        files: &L,
        file: usize,
        waiting: Vec<Waiting<'_>>,
    ) -> Result<usize, StreamError>
        requires { file < L.many files.now }
        ensures told { PutsSpan (λ logs. logs_told file self.old.source (map waiting_value waiting.entry.items) logs self.old.far) (λ logs fault byte. IsByteOfLogs file self.old.source (map waiting_value waiting.entry.items) logs self.old.far fault byte) (λ at left logs far. logs_told at self.old.source left logs far) (λ at left logs far fault byte. IsByteOfLogs at self.old.source left logs far fault byte) (L.gives files.now) file (L.many files.now) self.new.far result (sending (W.written out.old) outgoing.old) (sending (W.written out.new) outgoing.new) }
        ensures more { IfOk result (λ next. file < next) }
        ensures within { IfOk result (λ next. next ≤ L.many files.now) }
        ensures source { self.new.source ≡ self.old.source }
    {
        match files.read(file) {
            Ok(log) => self.send_bytes(
                alloc,
                out,
                outgoing,
                table,
                files,
                file,
                waiting,
                log.as_slice(),
            ),
            Err(ReadFault::Memory) => Err(StreamError::Memory),
            Err(ReadFault::Unread) => Err(StreamError::Unread(file)),
        }
    }

    /// Reads the files one at a time, or more of them while something waits, and tells them.
    fn send_files<L: LogFiles, W: Out>(
        &mut self,
        alloc: Global,
        out: &mut W,
        outgoing: &mut Outgoing,
        table: &CrcTable,
        files: &L,
    ) -> Result<(), StreamError>
        ensures told { PutsFiles (λ logs. logs_told 0 self.old.source [] logs self.old.far) (λ logs fault byte. IsByteOfLogs 0 self.old.source [] logs self.old.far fault byte) (L.gives files.now) 0 (L.many files.now) self.new.far result (sending (W.written out.old) outgoing.old) (sending (W.written out.new) outgoing.new) }
        ensures source { self.new.source ≡ self.old.source }
    {
        let mut file = 0;
        while file < files.count() {
            let waiting = Vec::new(alloc);
            match self.send_file(alloc, out, outgoing, table, files, file, waiting) {
                Ok(next) => file = next,
                Err(error) => return Err(error),
            }
        }
        Ok(())
    }

    /// Tells the position that was reached, where it isn't said, and writes all that waits; `file` is the place behind the last
    /// file.
    pub(crate) fn send_end<W: Out>(
        &self,
        alloc: Global,
        out: &mut W,
        outgoing: &mut Outgoing,
        file: usize,
    ) -> Result<(), StreamError>
        ensures told { PutsEnd (of_tell file (last_told self.now.source self.now.far)) result (sending (W.written out.old) outgoing.old) (sending (W.written out.new) outgoing.new) }
        ensures byte { TellsNone result }
    {
        match self.put_end(alloc, &mut outgoing.waits, file) {
            Ok(()) => outgoing.send(out),
            Err(error) => Err(nowhere(error)),
        }
    }

    /// Appends the message of the position that was reached, where it isn't said.
    fn put_end(&self, alloc: Global, out: &mut Vec<u8>, file: usize) -> Result<(), LogsError>
        ensures { GivesUnless meant (λ x. out.new.items) result (of_tell file (last_with (last_told self.now.source self.now.far) out.old.items)) }
    {
        match put_last(
            alloc,
            out,
            self.keyspace,
            self.shard,
            &self.reached,
            self.said,
        ) {
            Ok(()) => Ok(()),
            Err(error) => Err(of_tell(file, error)),
        }
    }
}

/// A table of each place that isn't made.
fn absent(alloc: Global, count: usize) -> Result<Vec<Stage>, AllocError>
    ensures { IfOk result (λ stages. stages.items ≡ replicate count Absent) }
{
    let mut stages = Vec::new(alloc);
    stages.resize(count, Stage::Absent)?;
    Ok(stages)
}

/// Nothing told of any log yet.
fn nothing<'t, 'w>(
    alloc: Global,
    source: FeedSource<'t, 'w>,
) -> Result<Transcript<'t, 'w>, AllocError>
    ensures { IfOk result (λ t. t ≡ record { source = source_value source.entry; far = nothing_told (source_value source.entry) }) }
{
    let stages = absent(alloc, source.tables.len())?;
    Ok(Transcript {
        keyspace: source.keyspace,
        shard: source.shard,
        writer: GroupWriter::new(source.schema, source.tables, stages),
        reached: GtidSet::new(),
        said: true,
    })
}

/// What is told of files, of any length, and how many bytes that is.
fn told_of<L: LogFiles, W: Out>(
    alloc: Global,
    source: FeedSource<'_, '_>,
    files: &L,
    out: &mut W,
) -> Result<usize, StreamError>
    ensures { TellsAll (λ logs. feed_told (source_value source.entry) logs) (λ logs fault byte. IsByteIn (source_value source.entry) logs fault byte) (L.gives files.now) 0 (L.many files.now) result (W.written out.old) (W.written out.new) }
{
    let table = CrcTable::new(alloc)?;
    let mut transcript = nothing(alloc, source)?;
    let mut outgoing = Outgoing::new(alloc);
    if let Err(error) = transcript.send_files(alloc, out, &mut outgoing, &table, files) {
        return Err(error);
    }
    match transcript.send_end(alloc, out, &mut outgoing, files.count()) {
        Ok(()) => Ok(outgoing.sent),
        Err(error) => Err(error),
    }
}

/// The feed of logs, whose files are read one at a time, as it is written on `out`: a message for each transaction that has rows
/// of the feed's tables, and at the end one for the position that was reached, where the last message has another. Each file is
/// a whole log; the first one has to begin with no position. An error is the first fault of the logs, with its file and, where
/// it is of one, its byte there and its table; behind all of them that the feed would be too long; the first file that can't be read; that a write
/// failed; or want of memory. What was written before is of no use then. An XA transaction may be prepared in one file and end in
/// another. Takes memory for one file, or for all from the first one behind which one waits, until none does; for one
/// transaction, and 64 KiB of what is told.
pub fn transcribe_to<L: LogFiles, W: Out>(
    alloc: Global,
    source: FeedSource<'_, '_>,
    files: &L,
    out: &mut W,
) -> Result<(), StreamError>
    // The groups of the feed are just the transactions of the logs that have rows of its tables.
    ensures { EndsSo (λ logs. of_logs (feed_of_logs (source_value source.entry) logs)) (λ logs fault byte. IsByteIn (source_value source.entry) logs fault byte) (λ logs feed. IsSource (source_value source.entry) → IsFeedOfLogs (source_value source.entry) logs feed) (L.gives files.now) (L.many files.now) result (W.written out.old) (W.written out.new) }
{
    transactions_are_told();
    transactions_reach();
    ends_are_told();
    courses_rise();
    messages_are_read();
    feeds_have_their_groups();
    courses_are_read();
    let size = match told_of(alloc, source, files, out) {
        Ok(size) => size,
        Err(error) => return Err(error),
    };
    if size < LIMIT {
        return Ok(());
    }
    Err(StreamError::Fault(LogsFault::TooLong(files.count()), None))
}

/// The feed of logs that are in memory, as `transcribe_to` writes it: each is the bytes of a whole file. An error is its fault,
/// or want of memory. Takes memory for the feed and for one transaction at a time.
pub fn transcribe(
    alloc: Global,
    source: FeedSource<'_, '_>,
    logs: &[&[u8]],
) -> Result<Vec<u8>, LogsError>
    ensures exact { GivesUnless meant (λ feed. feed.items) result (feed_of_logs (source_value source.entry) (map (λ log. log.now) logs.now)) }
    // The groups of the feed are just the transactions of the logs that have rows of its tables.
    ensures right { IfOk result (λ feed. IsSource (source_value source.entry) → IsFeedOfLogs (source_value source.entry) (map (λ log. log.now) logs.now) feed.items) }
{
    let mut spool = Spool::new(alloc);
    match transcribe_to(alloc, source, &LentLogs { logs }, &mut spool) {
        Ok(()) => Ok(spool.into_bytes()),
        Err(error) => Err(of_stream(error)),
    }
}

/// What is wrong with logs that are in memory.
fn of_stream(error: StreamError) -> LogsError
    ensures { result ≡ logs_error_of error }
{
    match error {
        StreamError::Fault(fault, _) => LogsError::Fault(fault),
        _ => LogsError::Memory,
    }
}
