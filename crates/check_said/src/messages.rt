//! The messages of a feed.

ghost use Rattle.std.specs.Prelude.{◌≡◌, IfOk};
ghost use Rattle.list_laws.specs.Outcome.{GivesUnless};
ghost use Rattle.proto_wire.specs.Frame.{frames_of};
ghost use Rattle.source_feed.specs.FaultNumber.{meant_of};
ghost use Rattle.source_feed.specs.Planned.{source_of};
ghost use Rattle.check_said.specs.Front.{whole_groups};
ghost use Rattle.check_said.specs.Messages.{behind, behind_message, byte_of, is_read_message, first_unread, unread_message};

use filter_rule::Plan;
use proto_wire::{Frames, varint_of};
use source_feed::{FeedFault, read_groups};
use std::alloc::{AllocError, Global};
use std::marker::Model;
use vevent::Response;

/// A message of a feed, lent from its buffer.
#[derive(Drop)]
pub(crate) struct Message<'h> {
    pub(crate) bytes: &'h [u8],
}

impl<'h> Model for Message<'h> {
    ghost use Rattle.std.specs.Prelude.{ℕ, List};

    ghost Value = { List ℕ };

    ghost view = { λ m. m.bytes.now };
}

/// The messages of a feed, up to its end or to what is none.
pub(crate) fn messages_of<'h>(alloc: Global, feed: &'h [u8]) -> Result<Vec<Message<'h>>, AllocError>
    ensures { IfOk result (λ messages. messages.items ≡ (frames_of feed.entry.now).items) }
{
    let mut messages = Vec::new(alloc);
    let mut frames = Frames::new(feed);
    while let Ok(Some(bytes)) = frames.next_frame() {
        messages.push(Message { bytes })?;
    }
    Ok(messages)
}

/// Whether a message is a list of events, each of which is read.
#[tactic(auto, unfolding(crate::specs::Messages::is_read_message))]
fn is_read(message: &[u8]) -> bool
    ensures { result ≡ is_read_message message.now }
{
    let mut events = Response::new(message);
    loop {
        match events.next_event() {
            Ok(Some(_)) => {}
            Ok(None) => return true,
            Err(_) => return false,
        }
    }
}

/// The number of the first message that isn't read, from 1.
pub(crate) fn first_unread(messages: &[Message<'_>]) -> Option<usize>
    ensures { result ≡ first_unread 1 messages.now }
{
    for i in 0..messages.len() {
        let message = &messages[i];
        if !is_read(message.bytes) {
            return Some(i + 1);
        }
    }
    None
}

/// The number of the first message that isn't read, from 1, or else of what stands behind the last one.
pub(crate) fn unread_message(alloc: Global, feed: &[u8]) -> Result<usize, AllocError>
    ensures { IfOk result (λ number. number ≡ unread_message feed.now) }
{
    let messages = messages_of(alloc, feed)?;
    match first_unread(&messages) {
        None => Ok(messages.len() + 1),
        Some(number) => Ok(number),
    }
}

/// What stands behind the message at the front; all of it where none stands there.
#[tactic(auto, unfolding(proto_wire::specs::Field::sized_at))]
fn behind_message(bytes: &[u8]) -> &[u8]
    ensures { result.now ≡ behind_message bytes.now }
{
    match varint_of(bytes) {
        Ok((size, after)) if size <= after.len() as u64 => &after[size as usize..],
        _ => bytes,
    }
}

/// What stands behind the first messages of a feed.
fn behind(feed: &[u8], count: usize) -> &[u8]
    ensures { result.now ≡ behind count feed.now }
{
    let mut rest = feed;
    for _ in 0..count {
        rest = behind_message(rest);
    }
    rest
}

/// The first byte of a message, from 0, by the message's number, from 1.
pub(crate) fn byte_of(feed: &[u8], number: usize) -> usize
    ensures { result ≡ byte_of number feed.now }
{
    feed.len()
        .saturating_sub(behind(feed, number.saturating_sub(1)).len())
}

/// How many whole groups some messages have, of which the last transaction may be open: a message of one event,
/// a ROLLBACK, is put behind them.
pub(crate) fn whole_groups(alloc: Global, front: &[u8], plan: &Plan) -> Result<usize, FeedFault>
    ensures { GivesUnless meant_of (λ count. count) result (whole_groups front.now (source_of plan.now)) }
{
    let mut bytes = Vec::from_slice(alloc, front)?;
    bytes.extend_from_slice(&[4, 10, 2, 8, 4])?;
    let groups = read_groups(alloc, &bytes, plan.keyspace(), plan.shard())?;
    Ok(groups.len())
}
