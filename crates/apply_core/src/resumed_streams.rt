//! The streams of a checkpoint, with their groups from the feeds.

ghost use Rattle.std.specs.Prelude.{◌≡◌, ◌↔◌, ◌≤◌, ◌++◌, ◌∷◌, [], length, IsTrue, IfOk, IfErr, OnOk};
ghost use Rattle.checkpoint_laws.specs.declared.fault.ResumeFault.TheVariants.{Memory};
ghost use Rattle.checkpoint_laws.specs.Said.{IsSaved};
ghost use Rattle.source_feed.specs.Positions.{IsNumberAt};
ghost use Rattle.checkpoint_laws.specs.Resumed.{IsKnown, IsResumedAt, AreResumed, AtEachPlace};
ghost use Rattle.checkpoint_laws.specs.Refused.{IsRefusedSaved};
ghost use Rattle.apply_core.specs.Feeds.{AreWholeFeeds};
ghost use Rattle.apply_core.specs.Private.Resuming.{AreSaid, IsUnsoundAt, refusal_of_feed};

use crate::stream::{Stream, cursor_behind};
use checkpoint_core::ReadStream;
use checkpoint_laws::ResumeFault;
use source_feed::{Feed, FeedFault, Image, groups_up_to, number_at};
use std::alloc::Global;
use std::sync::Arc;

/// Whether a stream's position is empty or that of a group of its feed. Takes no memory.
fn is_known(feed: &Feed<'_>, saved: &ReadStream<'_>) -> bool
    ensures { IsTrue result ↔ IsKnown feed.now saved.now }
{
    match number_at(feed, saved.position()) {
        None => false,
        Some(_number) => true,
    }
}

/// Whether all positions are known: refused 118 for the least stream whose position is neither empty nor that of a
/// group. Takes no memory.
pub(crate) fn judge_positions(
    feeds: &[Feed<'_>],
    saved: &[ReadStream<'_>],
) -> Result<(), ResumeFault>
    requires count { length saved.now ≡ length feeds.now }
    requires few { length feeds.now ≤ 64 }
    ensures ok { OnOk result (AtEachPlace IsKnown feeds.now saved.now) }
    ensures err { IfErr result (IsRefusedSaved feeds.now saved.now) }
{
    for s in 0..feeds.len() {
        if !is_known(&feeds[s], &saved[s]) {
            return Err(ResumeFault::PositionUnknown(s as u8));
        }
    }
    Ok(())
}

/// How many groups of a feed are applied at a stream's position, which is known. Takes no memory.
fn number_of(feed: &Feed<'_>, saved: &ReadStream<'_>) -> u32
    requires { IsKnown feed.now saved.now }
    ensures { IsNumberAt feed.now saved.now.position result }
{
    match number_at(feed, saved.position()) {
        None => unreachable!(),
        Some(number) => number,
    }
}

/// Why a stream can't be put behind groups of its feed: one of them isn't sound, or memory is wanting.
fn refusal_of(fault: FeedFault) -> ResumeFault
    ensures { result ≡ refusal_of_feed fault }
{
    match fault {
        FeedFault::Memory => ResumeFault::Memory,
        fault => ResumeFault::Unsound(fault),
    }
}

/// A stream that stands behind the groups of its feed up to its position, with the marks of a checkpoint. Refused 90
/// for the first of these groups that isn't sound. Any other error is want of memory.
fn stream_at<'h>(
    alloc: Global,
    feed: &Feed<'h>,
    saved: &ReadStream<'_>,
) -> Result<Stream<'h>, ResumeFault>
    requires sound { IsSaved feed.now.plan saved.now }
    requires known { IsKnown feed.now saved.now }
    ensures ok { IfOk result (IsResumedAt feed.now saved.now) }
    ensures err { IfErr result (IsUnsoundAt feed.now saved.now) }
{
    let number = number_of(feed, saved);
    let plan = Arc::clone(feed.plan())?;
    let marks = saved.marks().try_clone(alloc)?;
    let list = match groups_up_to(alloc, feed, number) {
        Ok(list) => list,
        Err(fault) => return Err(refusal_of(fault)),
    };
    let cursor = cursor_behind(number, &marks);
    Ok(Stream {
        plan,
        list,
        cursor,
        marks,
        image: Image::new(alloc),
        imaged: 0,
    })
}

/// Puts a stream behind the others.
fn push_stream<'h>(streams: &mut Vec<Stream<'h>>, stream: Stream<'h>) -> Result<(), ResumeFault>
    ensures ok { OnOk result (streams.new.items ≡ streams.old.items ++ stream.entry ∷ []) }
    ensures err { IfErr result (λ fault. fault ≡ Memory) }
{
    if streams.push(stream).is_err() {
        return Err(ResumeFault::Memory);
    }
    Ok(())
}

/// The streams behind the groups of their feeds up to their positions. Refused 90 for the first unsound one of these
/// groups of the least stream that has one. Any other error is want of memory.
pub(crate) fn streams_at<'h>(
    alloc: Global,
    feeds: &[Feed<'h>],
    saved: &[ReadStream<'_>],
) -> Result<Vec<Stream<'h>>, ResumeFault>
    requires whole { AreWholeFeeds feeds.now }
    requires said { AreSaid feeds.now saved.now }
    requires known { AtEachPlace IsKnown feeds.now saved.now }
    ensures ok { IfOk result (λ streams. AreResumed feeds.now saved.now streams.items) }
    ensures err { IfErr result (IsRefusedSaved feeds.now saved.now) }
{
    let mut streams = Vec::new(alloc);
    for s in 0..feeds.len() {
        let stream = stream_at(alloc, &feeds[s], &saved[s])?;
        push_stream(&mut streams, stream)?;
    }
    Ok(streams)
}
