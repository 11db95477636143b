//! How far logs are told behind a feed.

ghost use Rattle.std.specs.Prelude.{◌≡◌, ◌≤◌, ◌<◌, ◌+◌, [], ◌∷◌, length, map, Some, IfOk};
ghost use Rattle.list_laws.specs.Outcome.{GivesUnless};
ghost use Rattle.log_groups.specs.GroupCalls.{waiting_value};
ghost use Rattle.log_course.specs.Calls.{placed_value};
ghost use Rattle.log_transcribe.specs.Fault.{meant};
ghost use Rattle.log_transcribe.specs.Transcript.{source_value};
ghost use Rattle.log_transcribe.specs.Behind.{group_behind, log_behind, logs_behind, along_of};
ghost use Rattle.log_transcribe.specs.Standing.{IsByteBehind, many_told, told_behind};
ghost use Rattle.log_transcribe.specs.Private.Bytes.{KeepsWaiting};
ghost use Rattle.log_transcribe.specs.Private.Goes.{with_going, reading_behind, GoesNext};
ghost use Rattle.log_transcribe.specs.Private.Sends.{CountsOne, CountsSent, Puts, PutsFiles, PutsLog, PutsOne, PutsSpan, TellsByte, sending};

use crate::fault::{LogsError, StreamError};
use crate::files::{LogFiles, ReadFault};
use crate::outgoing::Outgoing;
use crate::place::{at_begin, bytes_read, inside};
use crate::transcript::{FeedSource, LogEnd, Transcript, copy_of, of_course, one_more};
use gtid_set::GtidSet;
use log_course::{LogGroups, PlacedGroup};
use log_events::CrcTable;
use log_feed::{GroupWriter, Stage};
use log_groups::Waiting;
use printing::Out;
use std::alloc::{AllocError, Global};
use std::marker::Model;

/// How far logs are told behind a feed. Seen in contracts as whose feed it is, what it says of the tables, how far it tells, and
/// which position the logs reached.
#[derive(Drop)]
pub(crate) struct Sequel<'t, 'w> {
    source: FeedSource<'t, 'w>,
    had: Vec<Stage>,
    pub(crate) transcript: Transcript<'t, 'w>,
    logs: GtidSet,
}

impl<'t, 'w> Model for Sequel<'t, 'w> {
    ghost use Rattle.std.specs.Prelude.{◌≡◌};
    ghost use Rattle.log_transcribe.specs.Transcript.{source_value};
    ghost use Rattle.log_transcribe.specs.Private.Goes.{SequelValue};

    ghost Value = { SequelValue };

    ghost view = { λ q. record { source = q.transcript.source; had = q.had.items; along = record { far = q.transcript.far; logs = q.logs } } };

    ghost invariant = { λ q. q.transcript.source ≡ source_value q.source };
}

impl<'t, 'w> Sequel<'t, 'w> {
    /// Goes on behind a transaction of the file at a place.
    fn put_group(
        &mut self,
        alloc: Global,
        out: &mut Vec<u8>,
        file: usize,
        group: PlacedGroup<'_>,
    ) -> Result<(), LogsError>
        ensures told { GivesUnless meant (λ x. (out.new.items, self.new.along)) result (with_going (group_behind file self.old.source self.old.had (placed_value group.entry) self.old.along) out.old.items) }
        ensures source { self.new.source ≡ self.old.source }
        ensures had { self.new.had ≡ self.old.had }
    {
        let position = copy_of(alloc, &group.position)?;
        match self.transcript.take_group(
            alloc,
            out,
            file,
            self.source,
            &self.had,
            &self.logs,
            group,
        ) {
            Ok(()) => {
                self.logs = position;
                Ok(())
            }
            Err(error) => Err(error),
        }
    }

    /// Goes on behind the next transaction of the file at a place, if there is one, and answers that.
    fn put_next(
        &mut self,
        alloc: Global,
        out: &mut Vec<u8>,
        file: usize,
        groups: &mut LogGroups<'_, '_>,
    ) -> Result<bool, LogsError>
        ensures told { GoesNext file self.old.source self.old.had groups.old.groups result groups.new.groups self.old.along self.new.along out.old.items out.new.items }
        ensures counts { CountsOne result (many_told (λ g a. group_behind file self.old.source self.old.had g a) groups.old.groups.items self.old.along) (many_told (λ g a. group_behind file self.old.source self.old.had g a) groups.new.groups.items self.new.along) }
        ensures waiting { KeepsWaiting groups.old result groups.new }
        ensures source { self.new.source ≡ self.old.source }
        ensures had { self.new.had ≡ self.old.had }
    {
        match groups.next_group(alloc) {
            Ok(Some(group)) => match self.put_group(alloc, out, file, group) {
                Ok(()) => Ok(true),
                Err(error) => Err(error),
            },
            Ok(None) => Ok(false),
            Err(error) => Err(of_course(file, error)),
        }
    }

    /// Goes on behind the next transaction of the file at a place, if there is one, and answers that.
    fn send_next<W: Out>(
        &mut self,
        alloc: Global,
        out: &mut W,
        outgoing: &mut Outgoing,
        table: &CrcTable,
        file: usize,
        bytes: &[u8],
        groups: &mut LogGroups<'_, '_>,
        told: usize,
    ) -> Result<bool, StreamError>
        ensures told { PutsOne (reading_behind file self.old.source self.old.had groups.old.groups self.old.along) (reading_behind file self.old.source self.old.had groups.new.groups self.new.along) self.new.along (length groups.old.groups.items) (length groups.new.groups.items) result (sending (W.written out.old) outgoing.old) (sending (W.written out.new) outgoing.new) }
        ensures byte { TellsByte bytes.now (Some (told + many_told (λ g a. group_behind file self.old.source self.old.had g a) groups.old.groups.items self.old.along)) result }
        ensures counts { CountsSent result (many_told (λ g a. group_behind file self.old.source self.old.had g a) groups.old.groups.items self.old.along) (many_told (λ g a. group_behind file self.old.source self.old.had g a) groups.new.groups.items self.new.along) }
        ensures waiting { KeepsWaiting groups.old result groups.new }
        ensures source { self.new.source ≡ self.old.source }
        ensures had { self.new.had ≡ self.old.had }
    {
        let begin = bytes_read(bytes, groups);
        let more = match self.put_next(alloc, &mut outgoing.waits, file, groups) {
            Ok(more) => more,
            Err(error) => {
                let end = bytes_read(bytes, groups);
                return Err(inside(alloc, table, bytes, begin, end, told, error));
            }
        };
        match outgoing.send_portion(out) {
            Ok(()) => Ok(more),
            Err(error) => Err(error),
        }
    }

    /// Goes on behind the transactions of the file at a place, which has these bytes, and answers its end.
    fn send_groups<'b, W: Out>(
        &mut self,
        alloc: Global,
        out: &mut W,
        outgoing: &mut Outgoing,
        table: &CrcTable,
        file: usize,
        bytes: &[u8],
        groups: LogGroups<'_, 'b>,
    ) -> Result<LogEnd<'b>, StreamError>
        ensures told { Puts (reading_behind file self.old.source self.old.had groups.entry.groups self.old.along) self.new.along result (sending (W.written out.old) outgoing.old) (sending (W.written out.new) outgoing.new) }
        ensures byte { TellsByte bytes.now (Some (many_told (λ g a. group_behind file self.old.source self.old.had g a) groups.entry.groups.items self.old.along)) result }
        ensures waiting { IfOk result (λ end. map waiting_value end.waiting.items ≡ groups.entry.waiting) }
        ensures source { self.new.source ≡ self.old.source }
        ensures had { self.new.had ≡ self.old.had }
    {
        let mut groups = groups;
        let mut told: usize = 0;
        loop {
            match self.send_next(alloc, out, outgoing, table, file, bytes, &mut groups, told) {
                Ok(more) => {
                    if !more {
                        let read = bytes_read(bytes, &groups);
                        return Ok(LogEnd {
                            waiting: groups.into_waiting(),
                            read,
                        });
                    }
                    match one_more(told) {
                        Ok(all) => told = all,
                        Err(_) => return Err(StreamError::Memory),
                    }
                }
                Err(error) => return Err(error),
            }
        }
    }

    /// Goes on behind the file at a place, where these XA transactions wait before it, and answers its end.
    fn send_log<'b, W: Out>(
        &mut self,
        alloc: Global,
        out: &mut W,
        outgoing: &mut Outgoing,
        table: &CrcTable,
        file: usize,
        waiting: Vec<Waiting<'b>>,
        bytes: &'b [u8],
    ) -> Result<LogEnd<'b>, StreamError>
        ensures told { PutsLog (log_behind file self.old.source self.old.had (map waiting_value waiting.entry.items) bytes.now self.old.along) (λ end. map waiting_value end.waiting.items) self.new.along result (sending (W.written out.old) outgoing.old) (sending (W.written out.new) outgoing.new) }
        ensures byte { TellsByte bytes.now (told_behind file self.old.source self.old.had (map waiting_value waiting.entry.items) bytes.now self.old.along) result }
        ensures source { self.new.source ≡ self.old.source }
        ensures had { self.new.had ≡ self.old.had }
    {
        let reached = copy_of(alloc, &self.logs)?;
        match LogGroups::open(alloc, table, reached, waiting, bytes) {
            Ok(groups) => self.send_groups(alloc, out, outgoing, table, file, bytes, groups),
            Err(error) => Err(at_begin(alloc, table, bytes, of_course(file, error))),
        }
    }

    /// Goes on behind the file at a place, which has these bytes, where these XA transactions wait before it; and those behind it while
    /// something waits, so that the bytes to which it refers stay there. Answers the place behind them.
    #[cycle(go)]
    pub(crate) fn send_bytes<'b, L: LogFiles, W: Out>(
        &mut self,
        alloc: Global,
        out: &mut W,
        outgoing: &mut Outgoing,
        table: &CrcTable,
        files: &L,
        file: usize,
        waiting: Vec<Waiting<'b>>,
        bytes: &'b [u8],
    ) -> Result<usize, StreamError>
        requires { file < L.many files.now }
        ensures told { PutsSpan (λ logs. logs_behind file self.old.source self.old.had (map waiting_value waiting.entry.items) (bytes.now ∷ logs) self.old.along) (λ logs fault byte. IsByteBehind file self.old.source self.old.had (map waiting_value waiting.entry.items) (bytes.now ∷ logs) self.old.along fault byte) (λ at left logs along. logs_behind at self.old.source self.old.had left logs along) (λ at left logs along fault byte. IsByteBehind at self.old.source self.old.had left logs along fault byte) (L.gives files.now) (file + 1) (L.many files.now) self.new.along result (sending (W.written out.old) outgoing.old) (sending (W.written out.new) outgoing.new) }
        ensures more { IfOk result (λ next. file < next) }
        ensures within { IfOk result (λ next. next ≤ L.many files.now) }
        ensures source { self.new.source ≡ self.old.source }
        ensures had { self.new.had ≡ self.old.had }
    {
        let count = files.count();
        let end = match self.send_log(alloc, out, outgoing, table, file, waiting, bytes) {
            Ok(end) => end,
            Err(error) => return Err(error),
        };
        let next = file + 1;
        if end.is_settled() {
            return Ok(next);
        }
        if next < count {
            return self.send_file(alloc, out, outgoing, table, files, next, end.waiting);
        }
        match end.settle(alloc, table, bytes, next) {
            Ok(()) => Ok(next),
            Err(error) => Err(error),
        }
    }

    /// Reads the file at a place, and goes on behind it and those behind it while something waits. Answers the place behind them.
    #[cycle(go)]
    fn send_file<L: LogFiles, W: Out>(
        &mut self,
        alloc: Global,
        out: &mut W,
        outgoing: &mut Outgoing,
        table: &CrcTable,
        files: &L,
        file: usize,
        waiting: Vec<Waiting<'_>>,
    ) -> Result<usize, StreamError>
        requires { file < L.many files.now }
        ensures told { PutsSpan (λ logs. logs_behind file self.old.source self.old.had (map waiting_value waiting.entry.items) logs self.old.along) (λ logs fault byte. IsByteBehind file self.old.source self.old.had (map waiting_value waiting.entry.items) logs self.old.along fault byte) (λ at left logs along. logs_behind at self.old.source self.old.had left logs along) (λ at left logs along fault byte. IsByteBehind at self.old.source self.old.had left logs along fault byte) (L.gives files.now) file (L.many files.now) self.new.along result (sending (W.written out.old) outgoing.old) (sending (W.written out.new) outgoing.new) }
        ensures more { IfOk result (λ next. file < next) }
        ensures within { IfOk result (λ next. next ≤ L.many files.now) }
        ensures source { self.new.source ≡ self.old.source }
        ensures had { self.new.had ≡ self.old.had }
    {
        match files.read(file) {
            Ok(log) => self.send_bytes(
                alloc,
                out,
                outgoing,
                table,
                files,
                file,
                waiting,
                log.as_slice(),
            ),
            Err(ReadFault::Memory) => Err(StreamError::Memory),
            Err(ReadFault::Unread) => Err(StreamError::Unread(file)),
        }
    }

    /// Reads the files from the one at a place on, one at a time, or more of them while something waits, and goes on behind them.
    pub(crate) fn send_others<L: LogFiles, W: Out>(
        &mut self,
        alloc: Global,
        out: &mut W,
        outgoing: &mut Outgoing,
        table: &CrcTable,
        files: &L,
        from: usize,
    ) -> Result<(), StreamError>
        requires { from ≤ L.many files.now }
        ensures told { PutsFiles (λ logs. logs_behind from self.old.source self.old.had [] logs self.old.along) (λ logs fault byte. IsByteBehind from self.old.source self.old.had [] logs self.old.along fault byte) (L.gives files.now) from (L.many files.now) self.new.along result (sending (W.written out.old) outgoing.old) (sending (W.written out.new) outgoing.new) }
        ensures source { self.new.source ≡ self.old.source }
        ensures had { self.new.had ≡ self.old.had }
    {
        let mut file = from;
        while file < files.count() {
            let waiting = Vec::new(alloc);
            match self.send_file(alloc, out, outgoing, table, files, file, waiting) {
                Ok(next) => file = next,
                Err(error) => return Err(error),
            }
        }
        Ok(())
    }
}

/// A copy of what is said of tables.
fn copy_of_stages(alloc: Global, stages: &[Stage]) -> Result<Vec<Stage>, AllocError>
    ensures { IfOk result (λ copy. copy.items ≡ stages.now) }
{
    let mut copy = Vec::new(alloc);
    copy.extend_from_slice(stages)?;
    Ok(copy)
}

/// What is to be told behind a feed that reaches a position and says so of the tables, where the logs begin with one.
pub(crate) fn sequel_of<'t, 'w>(
    alloc: Global,
    source: FeedSource<'t, 'w>,
    reached: GtidSet,
    first: GtidSet,
    had: Vec<Stage>,
) -> Result<Sequel<'t, 'w>, AllocError>
    ensures { IfOk result (λ q. q ≡ record { source = source_value source.entry; had = had.items; along = along_of reached first had.items }) }
{
    let stages = copy_of_stages(alloc, &had)?;
    Ok(Sequel {
        source,
        had,
        transcript: Transcript {
            keyspace: source.keyspace,
            shard: source.shard,
            writer: GroupWriter::new(source.schema, source.tables, stages),
            reached,
            said: true,
        },
        logs: first,
    })
}
