//! A board from the bytes of a checkpoint.

ghost use Rattle.std.specs.Prelude.{◌≡◌, ◌^◌, ◌<◌, ◌≤◌, List, length, map, IfOk, IfErr, OnOk, Err};
ghost use Rattle.std.specs.Arc.{arc_value};
ghost use Rattle.board_laws.specs.Lawful.{IsLawful};
ghost use Rattle.board_laws.specs.Meaning.{Meaning};
ghost use Rattle.board_laws.specs.Reading.{AllReadTheirFeeds};
ghost use Rattle.checkpoint_laws.specs.Laws.{AreFeeds, restarted};
ghost use Rattle.checkpoint_laws.specs.Resumed.{IsResumedBoard};
ghost use Rattle.checkpoint_laws.specs.Refused.{plans_of_feeds, IsRefusedSaved, IsRefusedCheckpoint};
ghost use Rattle.checkpoint_laws.specs.Said.{IsCheckpoint};
ghost use Rattle.checkpoint_core.specs.Fault.{HasParts};
ghost use Rattle.source_feed.specs.Planned.{FeedValue};
ghost use Rattle.apply_core.specs.Ended.{IsFedBoard};
ghost use Rattle.apply_core.specs.Feeds.{AreWholeFeeds, AreFed};
ghost use Rattle.apply_core.specs.Resuming.{IsResumed, IsRefusedResume, IsSavedOf, GivesBoard, IsSavedBefore, GivesMore};
ghost use Rattle.apply_core.specs.Private.Resuming.{AreSaid, IsUnfed};

use crate::board::Board;
use crate::fresh::{have_same_tables, know_plans};
use crate::resumed_rows::{compare_rows, rows_together};
use crate::resumed_streams::{judge_positions, streams_at};
use crate::schedule::are_opened_under;
use checkpoint_core::{ReadFault, ReadStream, read_checkpoint};
use checkpoint_laws::{
    ResumeFault, checkpoints_say_one_thing, extended_boards_are_resumed,
    restarted_boards_are_resumed, resumed_boards_are_lawful, saved_boards_are_said,
    saved_boards_are_said_of_more,
};
use filter_rule::Plan;
use pk_copy::keys_tie_where_they_are_equal;
use source_feed::Feed;
use std::alloc::Global;
use std::sync::Arc;

/// Whether plans and feeds are taken: refused 119 where there aren't as many feeds as plans, else 111 where
/// two plans differ in their tables or a feed wasn't opened under its plan. Takes no memory.
fn judge_feeds(plans: &[Arc<Plan>], feeds: &[Feed<'_>]) -> Result<(), ResumeFault>
    ensures fed { OnOk result (AreFed (map arc_value plans.now) feeds.now) }
    ensures whole { OnOk result (AreWholeFeeds feeds.now) }
    ensures refused { IfErr result (IsUnfed (map arc_value plans.now) feeds.now) }
{
    if feeds.len() != plans.len() {
        return Err(ResumeFault::FeedCount);
    }
    if !are_opened_under(feeds, plans) {
        return Err(ResumeFault::WrongPlan);
    }
    if !have_same_tables(plans) {
        return Err(ResumeFault::WrongPlan);
    }
    Ok(())
}

/// The length of a slice has 64 bits: a fact for contracts. Takes no memory.
fn know_length(bytes: &[u8])
    ensures { length bytes.now < 2 ^ 64 }
{
    bytes.len();
}

/// What the bytes say of the streams: refused 116 where they are no checkpoint for these plans. Any other
/// error is want of memory.
fn read_streams<'b>(
    alloc: Global,
    plans: &[Arc<Plan>],
    bytes: &'b [u8],
) -> Result<Vec<ReadStream<'b>>, ResumeFault>
    ensures said { IfOk result (λ saved. IsCheckpoint (map arc_value plans.now) bytes.now saved.items) }
    ensures refused { IfErr result (λ fault. (feeds : List FeedValue) → plans_of_feeds feeds ≡ map arc_value plans.now → IsRefusedCheckpoint feeds bytes.now fault) }
    ensures memory { result ≡ Err ResumeFault.Memory → HasParts bytes.now (length plans.now) }
{
    match read_checkpoint(alloc, plans, bytes) {
        Ok(saved) => Ok(saved),
        Err(ReadFault::Broken) => Err(ResumeFault::CheckpointBad),
        Err(ReadFault::Memory) => Err(ResumeFault::Memory),
    }
}

/// The board that feeds make with what a checkpoint says of their streams. Refused 118, 90, 117 and 71, in
/// this order, as `resume` is. Any other error is want of memory, where all positions are known.
fn made_of<'h>(
    alloc: Global,
    feeds: &[Feed<'h>],
    saved: Vec<ReadStream<'_>>,
) -> Result<Board<'h>, ResumeFault>
    requires feeds { AreFeeds feeds.now }
    requires said { AreSaid feeds.now saved.items }
    ensures ok { IfOk result (IsResumedBoard feeds.now saved.entry.items) }
    ensures err { IfErr result (IsRefusedSaved feeds.now saved.entry.items) }
{
    resumed_boards_are_lawful();
    judge_positions(feeds, &saved)?;
    let streams = streams_at(alloc, feeds, &saved)?;
    compare_rows(alloc, &streams, &saved)?;
    let rows = rows_together(alloc, &streams, saved)?;
    Ok(Board { streams, rows })
}

/// The same of the bytes of a checkpoint, for plans and feeds that are taken. Refused 116, and then as above.
fn resumed_over<'h>(
    alloc: Global,
    plans: &[Arc<Plan>],
    feeds: &[Feed<'h>],
    bytes: &[u8],
) -> Result<Board<'h>, ResumeFault>
    requires fed { AreFed (map arc_value plans.now) feeds.now }
    requires feeds { AreFeeds feeds.now }
    ensures resumed { IfOk result (IsResumed feeds.now bytes.now) }
    ensures lawful { IfOk result IsLawful }
    ensures reads { IfOk result (AllReadTheirFeeds feeds.now) }
    ensures board { IfOk result (IsFedBoard feeds.now) }
    ensures refused { IfErr result (IsRefusedCheckpoint feeds.now bytes.now) }
    ensures memory { result ≡ Err ResumeFault.Memory → HasParts bytes.now (length plans.now) }
{
    resumed_boards_are_lawful();
    let saved = read_streams(alloc, plans, bytes)?;
    let board = made_of(alloc, feeds, saved)?;
    board.is_lawful();
    Ok(board)
}

/// The board that a checkpoint of version 1 or 2 says, over the feeds of its streams, which stand in the order
/// of the 1 to 64 plans: each stream has read and applied its feed's groups up to the checkpoint's position, its
/// tables are copied as far as the marks say, and its rows are those that the bytes say. Tables of the plans
/// behind those that a version 2 has wait. No snapshot is open. The rows are built again from the feeds and
/// compared, one stream after another.
///
/// Refused, in this order: 119 where there aren't as many feeds as plans; 111 where two plans differ in their
/// tables or a feed wasn't opened under its plan; 116 where the bytes are no checkpoint for these plans; 118
/// for the least stream whose position is neither empty nor that of a group of its feed; 90 for the first
/// unsound group up to the position of the least stream that has one; 117 where the rows aren't those of the
/// feeds, for the least stream and its least key; 71 where two streams have a row at one key, for the first
/// stream that meets a lower one, with its least such key and the lower stream. Any other error is want of
/// memory; bytes that aren't as many parts as there are plans are refused 116 whatever memory there is.
pub fn resume<'h>(
    alloc: Global,
    plans: &[Arc<Plan>],
    feeds: &[Feed<'h>],
    bytes: &[u8],
) -> Result<Board<'h>, ResumeFault>
    requires some { 1 ≤ length plans.now }
    requires few { length plans.now ≤ 64 }
    ensures fed { IfOk result (λ _. AreFed (map arc_value plans.now) feeds.now) }
    ensures resumed { IfOk result (IsResumed feeds.now bytes.now) }
    ensures lawful { IfOk result IsLawful }
    // Each read list is a beginning of its feed's groups.
    ensures reads { IfOk result (AllReadTheirFeeds feeds.now) }
    // The board has a stream for each feed: with these feeds it is a `FedBoard`.
    ensures board { IfOk result (IsFedBoard feeds.now) }
    ensures refused { IfErr result (IsRefusedResume (map arc_value plans.now) feeds.now bytes.now) }
    // Memory is wanted for bytes alone that are as many parts as there are plans.
    ensures memory { result ≡ Err ResumeFault.Memory → HasParts bytes.now (length plans.now) }
    // A board whose rows, keys and positions are within the limits and that was saved, in either version, comes
    // back as it was after a restart of each stream.
    ensures after_save { (board : Meaning) → IsSavedOf (map arc_value plans.now) feeds.now bytes.now board → GivesBoard (restarted board) result }
    // Under plans with tables appended such a board comes back with these tables added, which wait.
    ensures after_adding { (board : Meaning) → IsSavedBefore (map arc_value plans.now) feeds.now bytes.now board → GivesMore feeds.now board result }
{
    keys_tie_where_they_are_equal();
    saved_boards_are_said();
    checkpoints_say_one_thing();
    restarted_boards_are_resumed();
    saved_boards_are_said_of_more();
    extended_boards_are_resumed();
    know_plans(plans);
    know_length(bytes);
    judge_feeds(plans, feeds)?;
    resumed_over(alloc, plans, feeds, bytes)
}
