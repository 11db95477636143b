//! The command `transcribe`.

ghost use Rattle.std.specs.Prelude.{◌≡◌, ◌⊎◌, map, option_map};
ghost use Rattle.std.specs.Arc.{arc_value};
ghost use Rattle.std.specs.Option.{option_map_or};
ghost use Rattle.std.specs.Result.{result_map_both};
ghost use Rattle.log_laws.specs.Source.{IsSource};
ghost use Rattle.log_transcribe.specs.Transcript.{source_value};
ghost use Rattle.printing.specs.Printing.{IsWritten, BreaksOff};
ghost use Rattle.vrepl_transcribe.specs.Source.{plan_of_shard};
ghost use Rattle.log_feed.specs.Table.{table_value};
ghost use Rattle.log_transcribe.specs.Streamed.{EndsSo as StreamEnds};
ghost use Rattle.vrepl_transcribe.specs.Transcribed.{EndsSo, IsByteOf, IsMade, MakesAll, WritesAll};
ghost use Rattle.vrepl_transcribe.specs.Private.Steps.{AnswersNames, EndsUnder, IsLineOf, IsWhyOf, PrintsAll, made_from};
ghost use Rattle.vrepl_transcribe.specs.declared.transcribing.TranscribeEnd.TheVariants.{Told};

use crate::inputs::TranscribeInputs;
use crate::line::{logs_line, name_line};
use crate::source::{feed_tables_of, first_unplain, place_of_shard};
use filter_rule::{Plan, PlanFault, Table};
use log_feed::FeedTable;
use log_transcribe::{
    FeedSource, LogFiles, LogsFault, Spool, StreamError, transcribe_behind_to,
    transcribe_to as write_feed,
};
use printing::{Out, put_all};
use source_feed::FeedFault;
use std::alloc::{AllocError, Global};
use std::sync::Arc;

/// Why there is no feed.
#[derive(Drop)]
pub enum Untranscribed {
    /// Want of memory.
    Memory,
    /// A write of the feed failed.
    Unwritten,
    /// 131: the log's file at this place, from 0, can't be read.
    Unread(usize),
    /// 51 to 57: the workflow is refused.
    Workflow(PlanFault),
    /// 115: the workflow has no stream of the shard.
    NoStream,
    /// The feed behind which to go on is refused.
    Feed(FeedFault),
    /// The line of a table whose name isn't plain (148), or of the first fault in the logs.
    Line(Vec<u8>),
}

impl From<AllocError> for Untranscribed {
    ghost use Rattle.std.specs.Prelude.{◌≡◌};
    ghost use Rattle.vrepl_transcribe.specs.declared.transcribing.Untranscribed.TheVariants.{Memory};

    ghost from_gives = { λ _ why. why ≡ Memory };

    fn from(_: AllocError) -> Untranscribed {
        Untranscribed::Memory
    }
}

/// How `transcribe` ends.
#[derive(Drop)]
pub enum TranscribeEnd {
    /// The feed was printed.
    Written,
    /// A write of it failed.
    Unwritten,
    /// Nothing was printed but the line of a refusal.
    Told,
    /// Nothing was printed yet.
    Refused(Untranscribed),
}

/// The plan of the stream of a shard.
fn plan_of<'p>(plans: &'p [Arc<Plan>], shard: &str) -> Option<&'p Arc<Plan>>
    ensures { option_map (λ plan. arc_value plan.now) result ≡ plan_of_shard (map arc_value plans.entry.now) shard.now }
{
    match place_of_shard(plans, shard) {
        Some(place) => plans.get(place),
        None => None,
    }
}

/// Refuses a table whose name isn't plain, by its line.
fn names_are_plain(alloc: Global, tables: &[Table]) -> Result<(), Untranscribed>
    ensures { AnswersNames tables.now result }
{
    match first_unplain(tables) {
        Some(place) => {
            let line = name_line(alloc, tables[place].name())?;
            Err(Untranscribed::Line(line))
        }
        None => Ok(()),
    }
}

/// The line of a fault of the logs.
fn fault_line(
    alloc: Global,
    names: &[&str],
    tables: &[FeedTable<'_>],
    fault: LogsFault,
    byte: Option<usize>,
) -> Untranscribed
    ensures { IsLineOf (map (λ name. name.now) names.now) (map table_value tables.now) fault byte result }
{
    match logs_line(alloc, names, tables, fault, byte) {
        Ok(line) => Untranscribed::Line(line),
        Err(_) => Untranscribed::Memory,
    }
}

/// Why what logs of these names tell isn't written.
fn why_of(
    alloc: Global,
    names: &[&str],
    tables: &[FeedTable<'_>],
    error: StreamError,
) -> Untranscribed
    ensures { IsWhyOf (map (λ name. name.now) names.now) (map table_value tables.now) error result }
{
    match error {
        StreamError::Memory => Untranscribed::Memory,
        StreamError::Unwritten => Untranscribed::Unwritten,
        StreamError::Unread(file) => Untranscribed::Unread(file),
        StreamError::Feed(fault) => Untranscribed::Feed(fault),
        StreamError::Fault(fault, byte) => fault_line(alloc, names, tables, fault, byte),
    }
}

/// Writes the feed of logs, or what they have behind one.
fn write_from<L: LogFiles, W: Out>(
    alloc: Global,
    source: FeedSource<'_, '_>,
    after: Option<Vec<u8>>,
    files: &L,
    out: &mut W,
) -> Result<(), StreamError>
    ensures { StreamEnds (λ logs. made_from (source_value source.entry) (option_map (λ feed. feed.items) after) logs) (λ logs fault byte. IsByteOf (source_value source.entry) (option_map (λ feed. feed.items) after) logs fault byte) (λ logs feed. IsSource (source_value source.entry) → IsMade (source_value source.entry) (option_map (λ feed. feed.items) after) logs feed) (L.gives files.now) (L.many files.now) result (W.written out.old) (W.written out.new) }
{
    match after {
        Some(feed) => transcribe_behind_to(alloc, source, feed, files, out),
        None => write_feed(alloc, source, files, out),
    }
}

/// The schema that the logs have the tables in.
fn schema_of<'x>(schema: Option<&'x str>, plan: &'x Plan) -> &'x [u8]
    ensures { result.now ≡ option_map_or (λ name. name) (option_map (λ name. name.now) schema.entry) plan.entry.now.keyspace }
{
    match schema {
        Some(name) => name.as_bytes(),
        None => plan.keyspace().as_bytes(),
    }
}

/// Writes the feed of the logs under a plan.
fn write_under<L: LogFiles, W: Out>(
    alloc: Global,
    inputs: TranscribeInputs<'_, '_>,
    plan: &Plan,
    files: &L,
    out: &mut W,
) -> Result<(), Untranscribed>
    ensures { EndsUnder inputs.entry plan.now (L.gives files.now) (L.many files.now) result (W.written out.old) (W.written out.new) }
{
    let TranscribeInputs {
        shard: _,
        schema,
        after,
        workflow: _,
        names,
    } = inputs;
    let tables = plan.tables();
    names_are_plain(alloc, tables)?;
    let tables = feed_tables_of(alloc, tables)?;
    let source = FeedSource {
        keyspace: plan.keyspace(),
        shard: plan.shard(),
        schema: schema_of(schema, plan),
        tables: &tables,
    };
    match write_from(alloc, source, after, files, out) {
        Ok(()) => Ok(()),
        Err(error) => Err(why_of(alloc, names, &tables, error)),
    }
}

/// Writes the feed of the logs on `out`, for the stream of the shard; the files are those of the names, and are read one at a
/// time. The faults are found in this order: those of the workflow; 115 where it has no stream of the shard; 148 where a table's
/// name isn't plain; those of the feed behind which to go on, of which 85 comes behind a fault where the first log begins; the
/// first of the logs, or that a file can't be read. What was written before is of no use then. Any other error is that a write
/// failed, or want of memory.
pub fn transcribe_to<L: LogFiles, W: Out>(
    alloc: Global,
    inputs: TranscribeInputs<'_, '_>,
    files: &L,
    out: &mut W,
) -> Result<(), Untranscribed>
    ensures { WritesAll inputs.entry (L.gives files.now) (L.many files.now) result (W.written out.old) (W.written out.new) }
{
    let plans = match Plan::read_all(alloc, &inputs.workflow) {
        Ok(plans) => plans,
        Err(fault) => return Err(Untranscribed::Workflow(fault)),
    };
    match plan_of(&plans, inputs.shard) {
        Some(plan) => write_under(alloc, inputs, plan, files, out),
        None => Err(Untranscribed::NoStream),
    }
}

/// The feed of the logs, as it would be written.
fn transcribed<L: LogFiles>(
    alloc: Global,
    inputs: TranscribeInputs<'_, '_>,
    files: &L,
) -> Result<Vec<u8>, Untranscribed>
    ensures { MakesAll inputs.entry (L.gives files.now) (L.many files.now) (result_map_both (λ feed. feed.items) (λ why. why) result) }
{
    let mut spool = Spool::new(alloc);
    match transcribe_to(alloc, inputs, files, &mut spool) {
        Ok(()) => Ok(spool.into_bytes()),
        Err(Untranscribed::Unwritten) => Err(Untranscribed::Memory),
        Err(why) => Err(why),
    }
}

/// Prints a feed.
fn print_feed<W: Out>(feed: &[u8], out: &mut W) -> TranscribeEnd
    ensures { PrintsAll feed.now result (W.written out.old) (W.written out.new) }
{
    match put_all(out, feed) {
        Ok(()) => TranscribeEnd::Written,
        Err(_) => TranscribeEnd::Unwritten,
    }
}

/// Prints the line of a refusal.
fn print_line<E: Out>(line: &[u8], err: &mut E) -> TranscribeEnd
    ensures told { result ≡ Told }
    ensures line { IsWritten (E.written err.old) (E.written err.new) line.now ⊎ BreaksOff (E.written err.old) (E.written err.new) line.now }
{
    let _printed = put_all(err, line);
    TranscribeEnd::Told
}

/// Prints the feed of the logs on `out`, for the stream of the shard, once it is whole; or a refusal's line on `err`, where it
/// is of a table's name or of the logs, and nothing on `out`; or answers why nothing is printed yet. Takes memory for the feed
/// beside what `transcribe_to` takes.
pub fn transcribe<L: LogFiles, W: Out, E: Out>(
    alloc: Global,
    inputs: TranscribeInputs<'_, '_>,
    files: &L,
    out: &mut W,
    err: &mut E,
) -> TranscribeEnd
    ensures ends { EndsSo inputs.entry (L.gives files.now) (L.many files.now) result (W.written out.old) (W.written out.new) (E.written err.old) (E.written err.new) }
{
    match transcribed(alloc, inputs, files) {
        Ok(feed) => print_feed(&feed, out),
        Err(Untranscribed::Line(line)) => print_line(&line, err),
        Err(why) => TranscribeEnd::Refused(why),
    }
}
